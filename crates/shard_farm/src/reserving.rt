//! What a run needs beside the shards' own runs and deliveries. All of it is had before the first shard is claimed.

ghost use Rattle.std.specs.Prelude.{◌≡◌, None, IfErr, IfOk, OnOk};
ghost use Rattle.machine_model.specs.Start.{start};
ghost use Rattle.session_machine.specs.Running.{IsNotRunBy};
ghost use Rattle.step_reducer.specs.Walking.{Starts};
ghost use Rattle.shard_board.specs.Changes.{IsPlanOf};
ghost use Rattle.shard_farm.specs.Farming.{IsNotBegun};
ghost use Rattle.shard_farm.specs.Working.{IsReserved};

use crate::crew::workers_of;
use crate::error::FarmError;
use crate::worker::Worker;
use bound_specs::Spec;
use session_machine::{RunError, World, not_started};
use shard_board::{Board, Seat, is_plan};
use std::alloc::{AllocError, Global};
use step_reducer::Shard;

/// A board with nothing claimed, a worker for each of its seats, and room for the numbers of all shards and for all seats.
#[derive(Drop)]
pub(crate) struct Reserved {
    pub(crate) board: Board,
    pub(crate) workers: Vec<Worker>,
    pub(crate) numbers: Vec<u32>,
    pub(crate) seats: Vec<Seat>,
}

/// Looks at a plan, starts its spec once, and reserves what a run of it needs. No gate and no runtime are at hand here, without which nothing is
/// delivered, so what is refused is so before the first shard.
pub(crate) fn reserve(
    alloc: Global,
    spec: &Spec,
    shards: &[Shard],
    workers: u8,
) -> Result<Reserved, FarmError>
    requires unasked { spec.now.asked ≡ None }
    ensures refused { IfErr result (IsNotBegun spec.now.run shards.now workers) }
    ensures lawful { OnOk result (IsPlanOf spec.now.run shards.now workers) }
    ensures started { OnOk result (Starts spec.now.run) }
    ensures reserved { IfOk result (IsReserved spec.now shards.now) }
{
    if !is_plan(spec, shards, workers) {
        return Err(FarmError::BadPlan);
    }
    match try_start(alloc, spec) {
        Ok(()) => {}
        Err(RunError::Start(error)) => return Err(FarmError::Start(error)),
        Err(_) => return Err(FarmError::NotStarted),
    }
    match room_for(alloc, spec, shards, workers) {
        Ok(reserved) => Ok(reserved),
        Err(_) => Err(FarmError::NotStarted),
    }
}

/// Whether the spec starts, or why it does not.
fn try_start(alloc: Global, spec: &Spec) -> Result<(), RunError>
    ensures started { OnOk result (Starts spec.now.run) }
    ensures refused { IfErr result (λ error. IsNotRunBy error (start spec.now.run)) }
{
    match World::start(alloc, spec) {
        Ok(_world) => Ok(()),
        Err(error) => Err(not_started(error)),
    }
}

/// What a run of a lawful plan needs.
fn room_for(
    alloc: Global,
    spec: &Spec,
    shards: &[Shard],
    workers: u8,
) -> Result<Reserved, AllocError>
    requires unasked { spec.now.asked ≡ None }
    requires plan { IsPlanOf spec.now.run shards.now workers }
    ensures { IfOk result (IsReserved spec.now shards.now) }
{
    let numbers = Vec::with_capacity(alloc, shards.len())?;
    let room = Vec::with_capacity(alloc, usize::from(workers))?;
    let copy = Vec::from_slice(alloc, shards)?;
    let Ok((board, seats)) = Board::new(alloc, spec, copy, workers) else {
        return Err(AllocError);
    };
    let workers = workers_of(alloc, &board, shards.len(), seats)?;
    Ok(Reserved {
        board,
        workers,
        numbers,
        seats: room,
    })
}
