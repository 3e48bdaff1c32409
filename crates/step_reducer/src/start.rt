//! The start of a walk of a shard.

ghost use Rattle.std.specs.Prelude.{◌≡◌, ◌≤◌, [], IfErr, IfOk, OnOk};
ghost use Rattle.bound_specs.specs.Spec.{ranks};
ghost use Rattle.rank_facts.specs.Shards.{IsShardOf};
ghost use Rattle.step_reducer.specs.Walking.{IsNotWalked, IsWalkOf, Starts, walk_at, walk_told};

use crate::walk::Walk;
use bound_specs::Spec;
use rank_facts::{MAX_RANKS, Shard};
use session_machine::{RunError, not_started};
use std::alloc::Global;

/// Refuses a shard out of the spec's ranks, and else one that is too long.
pub(crate) fn check(spec: &Spec, shard: Shard) -> Result<(), RunError>
    ensures refused { IfErr result (IsNotWalked spec.now.run shard) }
    ensures lawful { OnOk result (IsShardOf spec.now.run shard) }
{
    if shard.first > shard.end {
        return Err(RunError::OutOfRange);
    }
    if shard.end > spec.ranks() {
        return Err(RunError::OutOfRange);
    }
    if shard.end - shard.first > MAX_RANKS {
        return Err(RunError::TooLong);
    }
    Ok(())
}

/// A walk at the first rank of a shard, which may be asked for the ranks up to an end. A spec that does not start is refused.
pub(crate) fn walk_for<'a>(
    alloc: Global,
    spec: &'a Spec,
    shard: Shard,
    end: u64,
    reduce: bool,
) -> Result<Walk<'a>, RunError>
    requires lawful { IsShardOf spec.now.run shard }
    requires order { shard.first ≤ end }
    requires few { end ≤ ranks spec.now.run }
    ensures refused { IfErr result (IsNotWalked spec.now.run shard) }
    ensures started { OnOk result (Starts spec.now.run) }
    ensures walk { IfOk result (IsWalkOf spec.now reduce shard.first end) }
    ensures at { IfOk result (λ walk. walk_at walk ≡ shard.first) }
    ensures told { IfOk result (λ walk. walk_told walk ≡ []) }
{
    match Walk::start(alloc, spec, shard.first, end, reduce) {
        Ok(walk) => Ok(walk),
        Err(error) => Err(not_started(error)),
    }
}
