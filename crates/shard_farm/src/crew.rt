//! All workers of a run.

ghost use Rattle.std.specs.Prelude.{◌≡◌, ◌≤◌, All, vec_len, vec_capacity, length, IfOk};
ghost use Rattle.std.specs.Thread.{IsSync};
ghost use Rattle.bound_specs.specs.Binding.{IsFileOf};
ghost use Rattle.shard_farm.specs.Working.{AreRunnable, IsReady, IsStarting, IsDone};

use crate::plan::Plan;
use crate::worker::{Worker, work};
use shard_board::{Board, Gate, MAX_SEATS, Seat};
use std::alloc::{AllocError, Global};
use std::sync::Wait;
use std::thread;
use std::thread::Threads;
use step_reducer::Shard;

/// A worker for each seat.
pub(crate) fn workers_of(
    alloc: Global,
    board: &Board,
    shards: usize,
    seats: Vec<Seat>,
) -> Result<Vec<Worker>, AllocError>
    requires few { vec_len seats ≤ MAX_SEATS }
    requires shards { board.now.shards ≡ shards }
    requires fresh { All (IsStarting board.now) seats.items }
    ensures many { IfOk result (λ workers. vec_len workers ≡ vec_len seats) }
    ensures ready { IfOk result (λ workers. All (IsReady board.now) workers.items) }
{
    let mut workers = Vec::with_capacity(alloc, seats.len())?;
    for seat in seats {
        let number = workers.len() as u8;
        workers.push(ready(alloc, board, shards, number, seat)?)?;
    }
    Ok(workers)
}

/// A worker of this number with a seat that is new.
fn ready(
    alloc: Global,
    board: &Board,
    shards: usize,
    number: u8,
    seat: Seat,
) -> Result<Worker, AllocError>
    requires shards { board.now.shards ≡ shards }
    requires fresh { IsStarting board.now seat }
    ensures { IfOk result (IsReady board.now) }
{
    let missed = vec![in alloc; false; shards]?;
    Ok(Worker {
        number,
        seat,
        missed,
    })
}

/// Each worker works in a thread of its own. One for which no thread can be made works behind another one, on its thread.
pub(crate) fn run_all<R: Threads + Wait + Sync, T: Gate + Sync>(
    rt: &R,
    alloc: Global,
    board: &Board,
    text: &str,
    shards: &[Shard],
    reduce: bool,
    gate: &T,
    mut workers: Vec<Worker>,
) -> Vec<Worker>
    requires shards { length shards.now ≡ board.now.shards }
    requires file { IsFileOf text.now board.now.file }
    requires runnable { AreRunnable board.now.file.run shards.now }
    requires ready { All (IsReady board.now) workers.items }
    ensures many { (vec_len result ≡ vec_len workers) × (vec_capacity result ≡ vec_capacity workers) }
    ensures done { All (IsDone board.now reduce board.now.file.run shards.now) result.items }
{
    let Some(mine) = workers.pop() else {
        return workers;
    };
    let (mine, mut others) = thread::join(
        rt,
        || -> Worker
            requires { IsSync R.row × IsSync T.row × (length shards.now ≡ board.now.shards) × IsFileOf text.now board.now.file × AreRunnable board.now.file.run shards.now × IsReady board.now mine }
            ensures { IsDone board.entry.now reduce board.entry.now.file.run shards.entry.now result }
        {
            work(
                rt,
                alloc,
                board,
                Plan {
                    text,
                    shards,
                    reduce,
                },
                gate,
                mine,
            )
        },
        || -> Vec<Worker>
            requires { IsSync R.row × IsSync T.row × (length shards.now ≡ board.now.shards) × IsFileOf text.now board.now.file × AreRunnable board.now.file.run shards.now × All (IsReady board.now) workers.items }
            ensures { All (IsDone board.entry.now reduce board.entry.now.file.run shards.entry.now) result.items × (vec_len result ≡ vec_len workers) × (vec_capacity result ≡ vec_capacity workers) }
        { run_all(rt, alloc, board, text, shards, reduce, gate, workers) },
    );
    others.push_reserved(mine);
    others
}
