//! Making jobs.

ghost use Rattle.std.specs.Prelude.{◌≡◌, ◌<◌, None, IfOk, IfErr, OnOk, MatchOption, length, [], ◌∷◌};
ghost use Rattle.machine_model.specs.Start.{start};
ghost use Rattle.session_machine.specs.Running.{IsNotRunBy};
ghost use Rattle.rank_facts.specs.Shards.{IsShardOf};
ghost use Rattle.step_reducer.specs.Walking.{Starts};
ghost use Rattle.book_jobs.specs.Jobs.{AreJobFacts, AreLeafFacts, AllLawful, IsJobOf, IsOutside, IsFirstOutside, IsNotMade};

use crate::job::Job;
use crate::leaves::{Leaf, leaves_of};
use bound_specs::Spec;
use fact_books::{Book, union};
use rank_facts::{MAX_RANKS, Shard};
use session_machine::RunError;
use shard_books::of_shard;
use std::alloc::Global;

/// The facts of all shards that a job runs, each under its flag. A job of too many levels is refused first, then the first shard from
/// the left that is not one of the spec, then a spec that does not start. Levels are not asked for.
pub fn make(alloc: Global, spec: &Spec, job: &Job) -> Result<Book, RunError>
    requires unasked { spec.now.asked ≡ None }
    ensures refused { IfErr result (IsNotMade spec.now.run job.now) }
    ensures lawful { OnOk result (IsJobOf spec.now.run job.now) }
    ensures started { OnOk result (Starts spec.now.run) }
    ensures of_spec { IfOk result (λ book. book.file ≡ spec.now) }
    ensures facts { IfOk result (λ book. AreJobFacts spec.now.run job.now book.facts) }
{
    let Some(leaves) = leaves_of(alloc, job)? else {
        return Err(RunError::TooDeep);
    };
    if let Some(error) = outside(spec, leaves.as_slice()) {
        return Err(error);
    }
    match made(alloc, spec, leaves.as_slice()) {
        Ok(book) => Ok(book),
        Err(error) => Err(error),
    }
}

/// Why the first of these shards that is not one of the spec is none.
fn outside(spec: &Spec, leaves: &[Leaf]) -> Option<RunError>
    ensures { MatchOption result (AllLawful spec.now.run leaves.now) (IsFirstOutside spec.now.run leaves.now) }
{
    for leaf in leaves {
        if let Some(error) = refusal(spec, leaf.shard) {
            return Some(error);
        }
    }
    None
}

/// Why this shard is not one of the spec.
fn refusal(spec: &Spec, shard: Shard) -> Option<RunError>
    ensures { MatchOption result (IsShardOf spec.now.run shard) (IsOutside spec.now.run shard) }
{
    if shard.first > shard.end {
        return Some(RunError::OutOfRange);
    }
    if shard.end > spec.ranks() {
        return Some(RunError::OutOfRange);
    }
    if shard.end - shard.first > MAX_RANKS {
        return Some(RunError::TooLong);
    }
    None
}

/// The facts of shards of the spec. Their books are joined by halves, so that a run is merged once for each halving and not once for each
/// shard, and a list of n shards is halved at most log n times.
fn made(alloc: Global, spec: &Spec, leaves: &[Leaf]) -> Result<Book, RunError>
    requires unasked { spec.now.asked ≡ None }
    requires lawful { AllLawful spec.now.run leaves.now }
    ensures refused { IfErr result (λ error. IsNotRunBy error (start spec.now.run)) }
    ensures started { OnOk result (0 < length leaves.now → Starts spec.now.run) }
    ensures of_spec { IfOk result (λ book. book.file ≡ spec.now) }
    ensures facts { IfOk result (λ book. AreLeafFacts spec.now.run leaves.now book.facts) }
{
    if leaves.is_empty() {
        return Ok(Book::empty(alloc, spec)?);
    }
    if leaves.len() == 1 {
        return of_leaf(alloc, spec, leaves[0]);
    }
    let middle = leaves.len() / 2;
    let left = made(alloc, spec, &leaves[..middle])?;
    let right = made(alloc, spec, &leaves[middle..])?;
    Ok(union(&left, &right)?)
}

/// The facts of one shard of the spec.
fn of_leaf(alloc: Global, spec: &Spec, leaf: Leaf) -> Result<Book, RunError>
    requires unasked { spec.now.asked ≡ None }
    requires lawful { IsShardOf spec.now.run leaf.shard }
    ensures refused { IfErr result (λ error. IsNotRunBy error (start spec.now.run)) }
    ensures started { OnOk result (Starts spec.now.run) }
    ensures of_spec { IfOk result (λ book. book.file ≡ spec.now) }
    ensures facts { IfOk result (λ book. AreLeafFacts spec.now.run (leaf ∷ []) book.facts) }
{
    match of_shard(alloc, spec, leaf.shard, leaf.reduce) {
        Ok(book) => Ok(book),
        Err(error) => Err(error),
    }
}
