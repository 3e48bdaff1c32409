//! The facts of the ranks of one shard after another.

ghost use mathlib.Core.List.{IsPrefix};
ghost use Rattle.std.specs.Prelude.{◌≡◌, ◌↔◌, ◌≤◌, ◌<◌, true, false, Some, IfOk, IfErr, IfSome, OnOk, OnErr, IsErrOf, length, slice_get};
ghost use Rattle.step_reducer.specs.declared.error.WalkError.TheVariants as walk_error;
ghost use Rattle.rank_facts.specs.Shards.{IsShardOf};
ghost use Rattle.session_machine.specs.declared.error.RunError.TheVariants as run_error;
ghost use Rattle.step_reducer.specs.Walking.{IsNotWalked, Starts};
ghost use Rattle.step_reducer.specs.Saying.{IsTold};
ghost use Rattle.step_reducer.specs.Shardwise.{standing_at, GivesPart};

use crate::error::WalkError;
use crate::said::SaidRun;
use crate::start::{check, walk_for};
use crate::walk::Walk;
use bound_specs::Spec;
use rank_facts::Shard;
use session_machine::RunError;
use std::alloc::{AllocError, Global};
use std::marker::Model;
use transcripts::Outcome;

/// Gives the facts of the ranks of a shard as a walker does, and then goes on with a shard of later ranks: the spec starts once,
/// and what the ranks of both share stays. Contracts see the spec, whether facts are reduced, the next rank, the end of the shard,
/// the outcomes that were told, and whether memory was refused.
pub struct ShardWalk<'a> {
    spec: &'a Spec,
    reduce: bool,
    at: u64,
    end: u64,
    walk: Walk<'a>,
    is_spent: bool,
}

// Written out and not derived, so that who owns one calls this and does not let its parts go one by one.
impl Drop for ShardWalk<'_> {
    fn drop(self) {
        let ShardWalk {
            spec: _,
            reduce: _,
            at: _,
            end: _,
            walk: _walk,
            is_spent: _,
        } = self;
    }
}

impl<'a> Model for ShardWalk<'a> {
    ghost use Rattle.std.specs.Coded.{codes};
    ghost use Rattle.bound_statements.specs.contracts.statement.Bound as bound;
    ghost use Rattle.events.specs.contracts.event.Event as event;
    ghost use Rattle.step_reducer.specs.Walking.{walk_told};
    ghost use Rattle.step_reducer.specs.Shardwise.{Shardwise, IsKept};

    ghost Value = { Shardwise };

    ghost coded = { Prim.hlevel (codes, bound.the_row.coded, event.the_row.coded) };

    ghost view = { λ w. record {
      file = w.spec.now;
      reduce = w.reduce;
      at = w.at;
      end = w.end;
      told = walk_told w.walk;
      spent = w.is_spent;
    } };

    ghost invariant = { λ w. IsKept w.is_spent w.spec.now w.reduce w.at w.end w.walk };
}

impl<'a> ShardWalk<'a> {
    /// A walk at the first rank of a shard. It is refused as a walker is.
    pub fn new(
        alloc: Global,
        spec: &'a Spec,
        shard: Shard,
        reduce: bool,
    ) -> Result<ShardWalk<'a>, RunError>
        ensures refused { IfErr result (IsNotWalked spec.now.run shard) }
        ensures lawful { OnOk result (IsShardOf spec.now.run shard) }
        ensures started { OnOk result (Starts spec.now.run) }
        ensures begun { IfOk result (λ walk. walk ≡ standing_at spec.now shard reduce) }
    {
        check(spec, shard)?;
        let walk = walk_for(alloc, spec, shard, spec.ranks(), reduce)?;
        Ok(ShardWalk {
            spec,
            reduce,
            at: shard.first,
            end: shard.end,
            walk,
            is_spent: false,
        })
    }

    /// A walk at the first rank of a shard of a spec that starts, so that only memory can be wanted for it.
    pub fn of_started(
        alloc: Global,
        spec: &'a Spec,
        shard: Shard,
        reduce: bool,
    ) -> Result<ShardWalk<'a>, AllocError>
        requires started { Starts spec.now.run }
        requires lawful { IsShardOf spec.now.run shard }
        ensures { IfOk result (λ walk. walk ≡ standing_at spec.now shard reduce) }
    {
        match ShardWalk::new(alloc, spec, shard, reduce) {
            Ok(walk) => Ok(walk),
            Err(error) => Err(not_walked(error)),
        }
    }

    /// The next rank.
    pub fn at(&self) -> u64
        ensures { result ≡ self.now.at }
    {
        self.at
    }

    /// Goes on with a shard of later ranks. What was told stays told.
    pub fn reach(&mut self, shard: Shard)
        requires whole { self.old.spent ≡ false }
        requires lawful { IsShardOf self.old.file.run shard }
        requires later { self.old.at ≤ shard.first }
        ensures { self.new ≡ record (standing_at self.old.file shard self.old.reduce) { told = self.old.told } }
    {
        self.walk.reach(shard.first);
        self.at = shard.first;
        self.end = shard.end;
    }

    /// What is said of the next ranks, at least of one, in time that does not grow with their number. None at the end of the shard. Whatever
    /// comes of it, what was told stays told.
    pub fn next_run(&mut self) -> Result<Option<SaidRun>, WalkError>
        ensures run { IfOk result (GivesPart self.old self.new) }
        ensures number { IfOk result (λ given. IfSome given (λ run. IsTold self.new.told run.said)) }
        ensures front { IsPrefix self.old.told self.new.told }
        ensures whole { OnOk result (self.new.spent ≡ false) }
        ensures spent { IsErrOf result walk_error.Spent ↔ (self.old.spent ≡ true) }
        ensures after { OnErr result (self.new ≡ record self.old { told = self.new.told; spent = true }) }
    {
        if self.is_spent {
            return Err(WalkError::Spent);
        }
        if self.at == self.end {
            return Ok(None);
        }
        self.is_spent = true;
        let given = self.walk.next_run(self.spec, self.reduce, self.end)?;
        self.is_spent = false;
        self.at = given.run.end;
        Ok(Some(given.run))
    }

    /// The outcome that was told with a number.
    pub fn told(&self, number: usize) -> &Outcome
        requires { number < length self.now.told }
        ensures { slice_get self.now.told number ≡ Some result.now }
    {
        self.walk.told(number)
    }
}

/// A refusal of a walk that has no other reason than want of memory.
fn not_walked(_error: RunError) -> AllocError
    requires { _error ≡ run_error.NoMemory }
{
    AllocError
}
