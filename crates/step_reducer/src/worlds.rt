//! Calls on worlds that are not spent: only memory can be refused.

ghost use mathlib.Core.List.{IsPrefix};
ghost use Rattle.std.specs.Prelude.{◌≡◌, ◌<◌, ◌∷◌, false, length, slice_get, IfOk, OnErr, OnOk, Some};
ghost use Rattle.machine_model.specs.World.{send as world_sent, outcome_of};

use known_worlds::KnownWorld;
use session_steps::SendError;
use std::alloc::AllocError;

/// Sets a mark. Without memory everything stays as it was.
pub(crate) fn mark(world: &mut KnownWorld<'_>) -> Result<(), AllocError>
    requires { world.old.spent ≡ false }
    ensures marked { OnOk result (world.new ≡ record world.old { marked = world.old.world ∷ world.old.marked; level = false }) }
    ensures kept { OnErr result (world.new ≡ world.old) }
{
    match world.mark() {
        Ok(()) => Ok(()),
        Err(SendError::NoMemory) => Err(AllocError),
        Err(SendError::Spent) => unreachable!(),
    }
}

/// Sends a step. What was at marks stays, whatever comes of it, and so do the outcomes that were told.
pub(crate) fn send(world: &mut KnownWorld<'_>, step: u8) -> Result<(), AllocError>
    requires whole { world.old.spent ≡ false }
    requires known { step < length world.old.file.run.steps }
    ensures sent { OnOk result (world.new.world ≡ world_sent world.old.file.run.steps world.old.world step) }
    ensures whole { OnOk result (world.new.spent ≡ false) }
    ensures of_spec { world.new.file ≡ world.old.file }
    ensures marked { world.new.marked ≡ world.old.marked }
    ensures told { world.new.told ≡ world.old.told }
{
    match world.send(step) {
        Ok(()) => Ok(()),
        Err(SendError::NoMemory) => Err(AllocError),
        Err(SendError::Spent) => unreachable!(),
    }
}

/// Tells the transcripts so far: the answer is their number among the outcomes that were told.
pub(crate) fn outcome(world: &mut KnownWorld<'_>) -> Result<usize, AllocError>
    requires { world.old.spent ≡ false }
    ensures told { IfOk result (λ number. slice_get world.new.told number ≡ Some (outcome_of world.old.file.run.sessions world.old.world)) }
    ensures front { IsPrefix world.old.told world.new.told }
    ensures same { world.new ≡ record world.old { told = world.new.told; level = world.new.level } }
{
    match world.outcome() {
        Ok(number) => Ok(number),
        Err(SendError::NoMemory) => Err(AllocError),
        Err(SendError::Spent) => unreachable!(),
    }
}
