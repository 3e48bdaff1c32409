//! One worker.

ghost use Rattle.std.specs.Prelude.{◌≡◌, ◌<◌, true, false, length, None, IfOk, OnOk};
ghost use Rattle.bound_specs.specs.Binding.{IsFileOf};
ghost use Rattle.rank_facts.specs.Shards.{IsShardOf};
ghost use Rattle.step_reducer.specs.Shardwise.{standing_at};
ghost use Rattle.step_reducer.specs.Walking.{Starts};
ghost use Rattle.shard_board.specs.declared.error.DeliverErrorKind.TheVariants as deliver_error;
ghost use Rattle.shard_farm.specs.Working.{is_marked, AreRunnable, AreFactsAt, HasServed, IsReady, IsWalkFor, MayServe, HasClaimed, Serves, HasWorked};

use crate::plan::Plan;
use bound_specs::Spec;
use fact_books::Book;
use shard_board::{Board, DeliverErrorKind, Gate, Seat};
use shard_books::of_walk;
use spec_binding::bound_again;
use std::alloc::{AllocError, Global};
use std::sync::Wait;
use step_reducer::{Shard, ShardWalk};

/// A worker: its number, its seat at the board, and a mark for each shard that it claimed and did not deliver.
#[derive(Drop)]
pub(crate) struct Worker {
    pub(crate) number: u8,
    pub(crate) seat: Seat,
    pub(crate) missed: Vec<bool>,
}

impl Worker {
    /// Whether the worker claimed the shard and did not deliver it.
    pub(crate) fn has_missed(&self, number: usize) -> bool
        ensures { result ≡ is_marked self.now.missed.items number }
    {
        number < self.missed.len() && self.missed[number]
    }
}

/// Has a walk go on to a shard, or begin anew where it stands behind the first of the shard's ranks.
fn go_to<'a>(
    alloc: Global,
    spec: &'a Spec,
    walk: &mut ShardWalk<'a>,
    shard: Shard,
    reduce: bool,
) -> Result<(), AllocError>
    requires started { Starts spec.now.run }
    requires lawful { IsShardOf spec.now.run shard }
    requires walk { IsWalkFor spec.now reduce walk.old }
    ensures { OnOk result (walk.new ≡ record (standing_at spec.now shard reduce) { told = walk.new.told }) }
{
    if walk.at() <= shard.first {
        walk.reach(shard);
        return Ok(());
    }
    *walk = ShardWalk::of_started(alloc, spec, shard, reduce)?;
    Ok(())
}

/// The book of a shard of the plan, by a walk of its spec.
fn book_of<'a>(
    alloc: Global,
    plan: Plan<'_>,
    spec: &'a Spec,
    walk: &mut ShardWalk<'a>,
    number: u32,
) -> Result<Book, AllocError>
    requires unasked { spec.now.asked ≡ None }
    requires number { number < length plan.shards.now }
    requires runnable { AreRunnable spec.now.run plan.shards.now }
    requires walk { IsWalkFor spec.now plan.reduce walk.old }
    ensures of_spec { IfOk result (λ book. book.file ≡ spec.now) }
    ensures facts { IfOk result (λ book. AreFactsAt plan.entry.reduce spec.now.run plan.entry.shards.now number book.facts) }
    ensures walk { OnOk result (IsWalkFor spec.now plan.entry.reduce walk.new) }
{
    let shard = plan.shards[number as usize];
    let Ok(()) = go_to(alloc, spec, walk, shard, plan.reduce) else {
        return Err(AllocError);
    };
    let Ok(book) = of_walk(alloc, spec, walk) else {
        return Err(AllocError);
    };
    Ok(book)
}

/// Runs a claimed shard and delivers its book. False where memory is wanted for either.
fn serve<'a, R: Wait>(
    rt: &R,
    alloc: Global,
    board: &Board,
    plan: Plan<'_>,
    spec: &'a Spec,
    walk: &mut ShardWalk<'a>,
    seat: &mut Seat,
    number: u32,
) -> bool
    requires unasked { spec.now.asked ≡ None }
    requires board { seat.old.board ≡ board.now }
    requires shard { number < length plan.shards.now }
    requires may { MayServe seat.old number }
    requires file { spec.now ≡ board.now.file }
    requires runnable { AreRunnable spec.now.run plan.shards.now }
    requires walk { IsWalkFor spec.now plan.reduce walk.old }
    ensures same { seat.new.board ≡ seat.old.board }
    ensures served { HasServed plan.entry.reduce board.now.file.run plan.entry.shards.now seat.old seat.new number result }
    ensures walk { result ≡ true → IsWalkFor spec.now plan.entry.reduce walk.new }
{
    let Ok(book) = book_of(alloc, plan, spec, walk, number) else {
        return false;
    };
    match board.deliver(rt, seat, number, book) {
        Ok(_receipt) => true,
        Err(refused) => {
            wants_memory(refused.kind);
            false
        }
    }
}

/// A refusal of a delivery that has no other reason than want of memory.
fn wants_memory(_kind: DeliverErrorKind)
    requires { _kind ≡ deliver_error.NoMemory }
{}

/// Serves a claimed shard and claims others behind it, all on one walk of the spec, for as long as there is memory. False where there are
/// no more to claim. A shard for which memory is wanted is marked, and what is claimed behind it is for a walk that begins anew.
fn work_on<R: Wait, G: Gate>(
    rt: &R,
    alloc: Global,
    board: &Board,
    plan: Plan<'_>,
    gate: &G,
    spec: &Spec,
    worker: &mut Worker,
    first: u32,
) -> bool
    requires unasked { spec.now.asked ≡ None }
    requires shards { length plan.shards.now ≡ board.now.shards }
    requires file { spec.now ≡ board.now.file }
    requires runnable { AreRunnable spec.now.run plan.shards.now }
    requires board { worker.old.seat.board ≡ board.now }
    requires claimed { HasClaimed plan.reduce board.now.file.run plan.shards.now worker.old first }
    ensures board { worker.new.seat.board ≡ board.now }
    ensures again { result ≡ true → Serves plan.entry.reduce board.now.file.run plan.entry.shards.now worker.new.seat worker.new.missed.items }
    ensures worked { result ≡ false → HasWorked plan.entry.reduce board.now.file.run plan.entry.shards.now worker.new.seat worker.new.missed.items }
{
    let Ok(mut walk) = ShardWalk::of_started(alloc, spec, plan.shards[first as usize], plan.reduce)
    else {
        worker.missed[first as usize] = true;
        return true;
    };
    let mut number = first;
    for _ in rt.forever() {
        let is_served = serve(
            rt,
            alloc,
            board,
            plan,
            spec,
            &mut walk,
            &mut worker.seat,
            number,
        );
        worker.missed[number as usize] = !is_served;
        if !is_served {
            return true;
        }
        gate.after(worker.number, number);
        let Some(next) = board.claim(&mut worker.seat) else {
            return false;
        };
        gate.before(worker.number, next);
        number = next;
    }
    unreachable!()
}

/// Claims shards until there are no more, runs each and delivers its book. A shard for which memory is wanted is marked, and the work
/// goes on with the next one, for which the spec is bound and started anew.
pub(crate) fn work<R: Wait, G: Gate>(
    rt: &R,
    alloc: Global,
    board: &Board,
    plan: Plan<'_>,
    gate: &G,
    mut worker: Worker,
) -> Worker
    requires shards { length plan.shards.now ≡ board.now.shards }
    requires file { IsFileOf plan.text.now board.now.file }
    requires runnable { AreRunnable board.now.file.run plan.shards.now }
    requires ready { IsReady board.now worker }
    ensures board { result.seat.board ≡ board.now }
    ensures worked { HasWorked plan.entry.reduce board.now.file.run plan.entry.shards.now result.seat result.missed.items }
{
    for _ in rt.forever() {
        let Some(number) = board.claim(&mut worker.seat) else {
            return worker;
        };
        gate.before(worker.number, number);
        if !served_or_marked(rt, alloc, board, plan, gate, &mut worker, number) {
            return worker;
        }
    }
    unreachable!()
}

/// Binds the spec for a claimed shard, and works on from it. False where there are no more to claim.
fn served_or_marked<R: Wait, G: Gate>(
    rt: &R,
    alloc: Global,
    board: &Board,
    plan: Plan<'_>,
    gate: &G,
    worker: &mut Worker,
    number: u32,
) -> bool
    requires shards { length plan.shards.now ≡ board.now.shards }
    requires file { IsFileOf plan.text.now board.now.file }
    requires runnable { AreRunnable board.now.file.run plan.shards.now }
    requires board { worker.old.seat.board ≡ board.now }
    requires claimed { HasClaimed plan.reduce board.now.file.run plan.shards.now worker.old number }
    ensures board { worker.new.seat.board ≡ board.now }
    ensures again { result ≡ true → Serves plan.entry.reduce board.now.file.run plan.entry.shards.now worker.new.seat worker.new.missed.items }
    ensures worked { result ≡ false → HasWorked plan.entry.reduce board.now.file.run plan.entry.shards.now worker.new.seat worker.new.missed.items }
{
    let Ok(spec) = bound_again(alloc, plan.text) else {
        worker.missed[number as usize] = true;
        return true;
    };
    work_on(rt, alloc, board, plan, gate, &spec, worker, number)
}
