//! The rank of an order that is told by the names of its steps.

ghost use Rattle.std.specs.Prelude.{ℕ, IfOk, IfErr, MatchOption, map};
ghost use Rattle.std.specs.List.{AllZip};
ghost use Rattle.order_names.specs.Orders.{IsRankOf, IsRefused, IsStepNamed};

use crate::error::OrderError;
use crate::lines::rank_of_line;
use crate::words::rank_of_word;
use bound_specs::Spec;
use std::alloc::Global;

/// The least rank of the order in which the steps of these names are sent, or what is wrong with it: the first name that no step has; where the spec has
/// no permutation lines the first step that is not in turn, and where there is none a step that is left out; or that the order is none of the lines.
pub fn rank_of(alloc: Global, spec: &Spec, names: &[&str]) -> Result<u64, OrderError>
    ensures rank { IfOk result (IsRankOf spec.now (map (λ p. p.now) names.now)) }
    ensures refused { IfErr result (IsRefused spec.now (map (λ p. p.now) names.now)) }
{
    spec.known();
    spec.ready();
    let steps = match steps_of(alloc, spec, names) {
        Ok(steps) => steps,
        Err(error) => return Err(error),
    };
    match spec.shape() {
        Some(shape) => rank_of_word(spec, shape, steps.as_slice()),
        None => rank_of_line(spec, steps.as_slice()),
    }
}

/// The steps of these names.
fn steps_of(alloc: Global, spec: &Spec, names: &[&str]) -> Result<Vec<u8>, OrderError>
    ensures steps { IfOk result (λ steps. AllZip (IsStepNamed spec.now) (map (λ p. p.now) names.now) steps.items) }
    ensures refused { IfErr result (IsRefused spec.now (map (λ p. p.now) names.now)) }
{
    let mut steps = Vec::new(alloc);
    for place in 0..names.len() {
        let Some(step) = step_named(spec, names[place]) else {
            return Err(OrderError::UnknownStep(place));
        };
        let Ok(()) = steps.push(step) else {
            return Err(OrderError::NoMemory);
        };
    }
    Ok(steps)
}

/// The first step of this name.
fn step_named(spec: &Spec, name: &str) -> Option<u8>
    ensures { MatchOption result ((k : ℕ) → IsStepNamed spec.now name.now k → ⊥) (IsStepNamed spec.now name.now) }
{
    for step in 0..spec.steps() {
        if spec.step_name(step) == name {
            return Some(step);
        }
    }
    None
}
