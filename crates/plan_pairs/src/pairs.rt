//! A table of steps by steps.

ghost use Rattle.std.specs.Prelude.{◌≡◌, IfOk};
ghost use Rattle.numbered_specs.specs.Numbers.{IsNumbering};
ghost use Rattle.plan_pairs.specs.Pairs.{ArePairs, together};
ghost use Rattle.plan_pairs.specs.Requests.{row_of};

use crate::requests::{StepRequests, requests_by_step};
use bound_specs::Spec;
use numbered_specs::{SpecNumbers, numbers_are_apart};
use std::alloc::{AllocError, Global};
use std::marker::Model;

/// Beside which steps a step goes, by their numbers.
#[derive(Drop)]
struct PairRow {
    fits: Vec<bool>,
}

impl Model for PairRow {
    ghost use Rattle.std.specs.Prelude.{Bool, List};

    ghost Value = { List Bool };

    ghost view = { λ r. r.fits.items };
}

/// Which steps of a spec ask for modes that go together: each mode that one of them asks for is compatible with each that the other one asks for on
/// the same resource.
///
/// Contracts see the table: for each step a row, and in it for each step whether both go together.
#[derive(Drop)]
pub struct StepPairs {
    rows: Vec<PairRow>,
}

impl Model for StepPairs {
    ghost use Rattle.std.specs.Prelude.{Bool, List};

    ghost Value = { List (List Bool) };

    ghost view = { λ p. p.rows.items };
}

impl StepPairs {
    /// The table of a spec whose resources have these numbers. It fails for want of memory alone.
    pub fn of_spec(
        alloc: Global,
        spec: &Spec,
        numbers: &SpecNumbers,
    ) -> Result<StepPairs, AllocError>
        requires { IsNumbering spec.now.run numbers.now }
        ensures { IfOk result (ArePairs spec.now.run) }
    {
        numbers_are_apart(); // for the proof
        let steps = requests_by_step(alloc, spec, numbers)?;
        let mut rows = Vec::with_capacity(alloc, steps.len())?;
        for step in &steps {
            rows.push(pair_row(alloc, step, steps.as_slice())?)?;
        }
        Ok(StepPairs { rows })
    }

    /// Whether two steps ask for modes that go together, by one look.
    pub fn go_together(&self, first: u8, second: u8) -> bool
        ensures { result ≡ together self.now first second }
    {
        match self.rows.get(first as usize) {
            Some(row) => row.fits.get(second as usize).copied().unwrap_or(false),
            None => false,
        }
    }
}

/// Beside which steps a step goes.
fn pair_row(
    alloc: Global,
    step: &StepRequests,
    others: &[StepRequests],
) -> Result<PairRow, AllocError>
    ensures { IfOk result (λ row. row ≡ row_of step.now others.now) }
{
    let mut fits = Vec::with_capacity(alloc, others.len())?;
    for other in others {
        fits.push(step.all_fit(other))?;
    }
    Ok(PairRow { fits })
}
