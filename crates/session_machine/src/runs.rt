//! Whole runs of a spec.

ghost use Rattle.std.specs.Prelude.{◌≡◌, ◌<◌, ℕ, Some, None, false, All, IfOk, IfErr, OnOk, length};
ghost use Rattle.bound_specs.specs.Levels.{AskAlways};
ghost use Rattle.bound_specs.specs.Spec.{IsBound};
ghost use Rattle.machine_model.specs.Start.{Start, Started, start};
ghost use Rattle.machine_model.specs.World.{send_all};
ghost use Rattle.machine_model.specs.Outcome.{IsOutcomeOf, outcome_of_line};
ghost use Rattle.serial_history.specs.Serial.{IsSerial};
ghost use Rattle.session_machine.specs.Running.{IsNotRunBy};
ghost use Rattle.session_steps.specs.Refused.{IsRefusedBy};

use crate::error::RunError;
use crate::world::World;
use bound_specs::{Line, Spec};
use session_steps::{SendError, StartError};
use std::alloc::Global;
use transcripts::Outcome;

/// Runs one permutation: the transcripts after the steps of the line were sent in turn from the start. Of the refusals only
/// `Start` and `NoMemory` come.
pub fn run_one(alloc: Global, spec: &Spec, line: &Line) -> Result<Outcome, RunError>
    requires { All (λ k. k < length spec.now.run.steps) line.now.items }
    ensures ran { IfOk result (λ outcome. outcome_of_line spec.now.run line.now.items ≡ Some outcome) }
    // Where levels are not asked for.
    ensures serial { IfOk result (λ outcome. spec.now.asked ≡ None → IsSerial spec.now.run line.now.items outcome) }
    ensures own { IfOk result (IsOutcomeOf spec.now.run) }
    ensures refused { IfErr result (λ error. IsNotRunBy error (start spec.now.run)) }
{
    spec.known();
    match World::start(alloc, spec) {
        Ok(mut world) => run_line(&mut world, line.as_slice()),
        Err(error) => Err(not_started(error)),
    }
}

/// Sends the steps of a line in turn to a world as it starts, and gives what its sessions were told.
fn run_line(world: &mut World<'_>, line: &[u8]) -> Result<Outcome, RunError>
    requires known { All (λ k. k < length world.old.file.run.steps) line.now }
    requires whole { world.old.spent ≡ false }
    requires started { start world.old.file.run ≡ Started world.old.world }
    requires bound { IsBound world.old.file.run }
    requires always { world.old.file.asked ≡ None → AskAlways world.old.file.run }
    ensures ran { IfOk result (λ outcome. outcome_of_line world.old.file.run line.now ≡ Some outcome) }
    ensures serial { IfOk result (λ outcome. world.old.file.asked ≡ None → IsSerial world.old.file.run line.now outcome) }
    ensures own { IfOk result (IsOutcomeOf world.old.file.run) }
    ensures refused { IfErr result (λ error. IsNotRunBy error (start world.old.file.run)) }
{
    send_line(world, line)?;
    match world.outcome() {
        Ok(outcome) => Ok(outcome),
        Err(SendError::NoMemory) => Err(RunError::NoMemory),
        Err(SendError::Spent) => unreachable!(),
    }
}

/// Sends the steps in turn.
fn send_line(world: &mut World<'_>, steps: &[u8]) -> Result<(), RunError>
    requires known { All (λ k. k < length world.old.file.run.steps) steps.now }
    requires whole { world.old.spent ≡ false }
    ensures sent { OnOk result (world.new ≡ record world.old { world = send_all world.old.file.run.steps world.old.world steps.now }) }
    ensures refused { IfErr result (λ error. error ≡ RunError.NoMemory) }
{
    for step in steps {
        match world.send(*step) {
            Ok(()) => {}
            Err(SendError::NoMemory) => return Err(RunError::NoMemory),
            Err(SendError::Spent) => unreachable!(),
        }
    }
    Ok(())
}

/// Why a run of a spec that does not start is refused: by its start, or for want of memory, which is the run's own.
pub fn not_started(error: StartError) -> RunError
    ensures { (s : Start) → IsRefusedBy error s → IsNotRunBy result s }
{
    match error {
        StartError::NoMemory => RunError::NoMemory,
        _ => RunError::Start(error),
    }
}
