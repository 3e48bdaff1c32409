//! Chains of AND and of OR, whose parts are joined in pairs, so that no condition is nested as deep as a chain is long.

ghost use Rattle.std.specs.Prelude.{◌≡◌, ◌++◌, ◌∷◌, [], List, IfOk, OnOk};
ghost use Rattle.bound_statements.specs.declared.condition.Condition.{Condition as One};
ghost use Rattle.binding_model.specs.Names.{maybe};
ghost use Rattle.binding_model.specs.Translation.{join, paired, first_or_always, joined_in, joined};

use binding_model::Joint;
use bound_statements::Condition;
use sqlite_items::Boxed;
use std::alloc::{AllocError, Global};

#[tactic(auto, using(bound_statements::proofs::ConditionLemmas::making))]
fn join(alloc: Global, joint: Joint, a: Condition, b: Condition) -> Result<Condition, AllocError>
    ensures { IfOk result (λ c. c ≡ join joint a b) }
{
    let a = Boxed::new(alloc, a)?;
    let b = Boxed::new(alloc, b)?;
    match joint {
        Joint::All => Ok(Condition::And(a, b)),
        Joint::Any => Ok(Condition::Or(a, b)),
    }
}

/// Joins a part with the one that waits for it, or lets it wait.
fn push_pair(
    alloc: Global,
    joint: Joint,
    waiting: Option<Condition>,
    part: Condition,
    pairs: &mut Vec<Condition>,
) -> Result<Option<Condition>, AllocError>
    ensures { IfOk result (λ waits. (rest : List One) →
        pairs.old.items ++ paired joint (maybe waiting ++ (part ∷ rest)) ≡ pairs.new.items ++ paired joint (maybe waits ++ rest)) }
{
    match waiting {
        Some(first) => {
            pairs.push(join(alloc, joint, first, part)?)?;
            Ok(None)
        }
        None => Ok(Some(part)),
    }
}

/// A part that still waits stays alone.
fn push_last(waiting: Option<Condition>, pairs: &mut Vec<Condition>) -> Result<(), AllocError>
    ensures { OnOk result (pairs.new.items ≡ pairs.old.items ++ maybe waiting) }
{
    if let Some(last) = waiting {
        pairs.push(last)?;
    }
    Ok(())
}

/// Joins neighbours.
fn paired(alloc: Global, joint: Joint, parts: Vec<Condition>) -> Result<Vec<Condition>, AllocError>
    ensures { IfOk result (λ pairs. pairs.items ≡ paired joint parts.items) }
{
    let mut pairs = Vec::new(alloc);
    let mut waiting = None;
    for part in parts {
        waiting = push_pair(alloc, joint, waiting, part, &mut pairs)?;
    }
    push_last(waiting, &mut pairs)?;
    Ok(pairs)
}

fn first_or_always(parts: Vec<Condition>) -> Condition
    ensures { result ≡ first_or_always parts.items }
{
    match parts.into_iter().next() {
        Some(first) => first,
        None => Condition::Always,
    }
}

/// Joins neighbours in so many turns, or until one is left.
fn joined_in(
    alloc: Global,
    turns: usize,
    joint: Joint,
    parts: Vec<Condition>,
) -> Result<Condition, AllocError>
    ensures { IfOk result (λ c. c ≡ joined_in turns joint parts.items) }
{
    if turns == 0 {
        return Ok(first_or_always(parts));
    }
    if parts.len() < 2 {
        return Ok(first_or_always(parts));
    }
    let pairs = paired(alloc, joint, parts)?;
    joined_in(alloc, turns - 1, joint, pairs)
}

/// A chain as one condition.
pub(crate) fn joined(
    alloc: Global,
    joint: Joint,
    parts: Vec<Condition>,
) -> Result<Condition, AllocError>
    ensures { IfOk result (λ c. c ≡ joined joint parts.items) }
{
    joined_in(alloc, parts.len(), joint, parts)
}
