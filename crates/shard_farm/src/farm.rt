//! Runs of plans.

ghost use Rattle.std.specs.Prelude.{◌≡◌, None, IfOk, IfErr, OnOk};
ghost use Rattle.step_reducer.specs.Walking.{Starts};
ghost use Rattle.shard_board.specs.Changes.{IsPlanOf};
ghost use Rattle.shard_farm.specs.Farming.{AreShardFacts, IsNotFarmed, IsLeft};
ghost use Rattle.shard_farm.specs.Working.{AreRunnable, IsReserved};

use crate::closing::closed;
use crate::crew::run_all;
use crate::error::FarmError;
use crate::plan::Plan;
use crate::reserving::{Reserved, reserve};
use bound_specs::Spec;
use fact_books::Book;
use shard_board::Gate;
use std::alloc::Global;
use std::sync::Wait;
use std::thread::Threads;
use step_reducer::Shard;

/// The facts of all shards of a plan, run by so many workers: when reducing the least swap where a rank has one, and else its outcome.
/// Shards may overlap. A worker that is refused memory goes on with its next claim. Levels are not asked for.
pub fn farm_run<R: Threads + Wait + Sync, G: Gate + Sync>(
    rt: &R,
    alloc: Global,
    spec: &Spec,
    shards: &[Shard],
    reduce: bool,
    workers: u8,
    gate: &G,
) -> Result<Book, FarmError>
    requires unasked { spec.now.asked ≡ None }
    ensures refused { IfErr result (IsNotFarmed reduce spec.now shards.now workers) }
    ensures lawful { OnOk result (IsPlanOf spec.now.run shards.now workers) }
    ensures started { OnOk result (Starts spec.now.run) }
    ensures of_spec { IfOk result (λ book. book.file ≡ spec.now) }
    ensures facts { IfOk result (λ book. AreShardFacts reduce spec.now.run shards.now book.facts) }
{
    match reserve(alloc, spec, shards, workers) {
        Ok(reserved) => run_plan(rt, alloc, spec, shards, reduce, gate, reserved),
        Err(error) => Err(error),
    }
}

/// Runs a plan with what was reserved for it: the facts of all its shards, or what it left. Nothing else can come of a run that has begun.
#[tactic(auto, using(crate::proofs::FarmLemmas::none_missing))]
fn run_plan<R: Threads + Wait + Sync, G: Gate + Sync>(
    rt: &R,
    alloc: Global,
    spec: &Spec,
    shards: &[Shard],
    reduce: bool,
    gate: &G,
    reserved: Reserved,
) -> Result<Book, FarmError>
    requires unasked { spec.now.asked ≡ None }
    requires runnable { AreRunnable spec.now.run shards.now }
    requires reserved { IsReserved spec.now shards.now reserved }
    ensures left { IfErr result (IsLeft reduce spec.now shards.now) }
    ensures of_spec { IfOk result (λ book. book.file ≡ spec.now) }
    ensures facts { IfOk result (λ book. AreShardFacts reduce spec.now.run shards.now book.facts) }
{
    spec.known();
    let Reserved {
        board,
        workers,
        numbers,
        seats,
    } = reserved;
    let plan = Plan {
        text: spec.text(),
        shards,
        reduce,
    };
    let workers = run_all(rt, alloc, &board, plan.text, shards, reduce, gate, workers);
    let left = closed(board, plan, workers, numbers, seats);
    if left.missing.is_empty() {
        return Ok(left.book);
    }
    Err(FarmError::NoMemory(left))
}
