//! What a run gives in the end. Nothing here takes memory.

ghost use Rattle.std.specs.Prelude.{◌≡◌, ◌≤◌, [], All, vec_len, vec_capacity, length, map};
ghost use Rattle.std.specs.List.{list_any};
ghost use Rattle.shard_farm.specs.Farming.{HasAllBut};
ghost use Rattle.shard_farm.specs.Working.{IsDone, is_marked, numbers_missed};

use crate::error::Unfinished;
use crate::numbers::ShardNumbers;
use crate::plan::Plan;
use crate::worker::Worker;
use shard_board::{Board, MAX_SHARDS, Seat};

/// Closes the board of workers that are done: its book, and the numbers of the shards that one of them has marked.
pub(crate) fn closed(
    board: Board,
    plan: Plan<'_>,
    workers: Vec<Worker>,
    numbers: Vec<u32>,
    seats: Vec<Seat>,
) -> Unfinished
    requires few { length plan.shards.now ≤ MAX_SHARDS }
    requires board { board.shards ≡ length plan.shards.now }
    requires many { (vec_len workers ≡ board.seats) × (1 ≤ board.seats) }
    requires done { All (IsDone board plan.reduce board.file.run plan.shards.now) workers.items }
    requires numbers { (numbers.items ≡ []) × (length plan.shards.now ≤ vec_capacity numbers) }
    requires seats { (seats.items ≡ []) × (vec_len workers ≤ vec_capacity seats) }
    ensures left { HasAllBut plan.entry.reduce board.file plan.entry.shards.now result }
    ensures named { result.missing ≡ numbers_missed workers.items (length plan.entry.shards.now) }
{
    let missing = missing_in(workers.as_slice(), plan.shards.len(), numbers);
    let seats = seats_of(workers, seats);
    let book = board.close(seats).book;
    Unfinished { book, missing }
}

/// The numbers that a worker has marked, of so many.
fn missing_in(workers: &[Worker], shards: usize, mut numbers: Vec<u32>) -> ShardNumbers
    requires { (numbers.items ≡ []) × (shards ≤ vec_capacity numbers) × (shards ≤ MAX_SHARDS) }
    ensures { result ≡ numbers_missed workers.now shards }
{
    for number in 0..shards {
        if !is_missed(workers, number) {
            continue;
        }
        numbers.push_reserved(number as u32);
    }
    ShardNumbers::from_vec(numbers)
}

/// Whether a worker has marked the number.
fn is_missed(workers: &[Worker], number: usize) -> bool
    ensures { result ≡ list_any (λ worker. is_marked worker.missed.items number) workers.now }
{
    workers.iter().any(|worker| worker.has_missed(number))
}

/// The seats of the workers, in their order.
fn seats_of(workers: Vec<Worker>, mut seats: Vec<Seat>) -> Vec<Seat>
    requires { (seats.items ≡ []) × (vec_len workers ≤ vec_capacity seats) }
    ensures { result.items ≡ map (λ w. w.seat) workers.items }
{
    for worker in workers {
        let Worker {
            number: _,
            seat,
            missed: _missed,
        } = worker;
        seats.push_reserved(seat);
    }
    seats
}
