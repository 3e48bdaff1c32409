//! What lines show.

ghost use Rattle.std.specs.Prelude.{◌≡◌, false, Some, IfOk, OnOk};
ghost use Rattle.bound_specs.specs.Spec.{SpecFile};
ghost use Rattle.machine_model.specs.World.{send_all};
ghost use Rattle.order_classes.specs.Shows.{shows_in, shows_of_line};
ghost use Rattle.spec_classes.specs.Showing.{AreSteps, IsAtStart};

use binding_model::Table;
use bound_specs::Spec;
use different_shows::Different;
use marked_worlds::MarkedWorld;
use order_classes::Shows;
use session_steps::SendError;
use std::alloc::Global;
use world_shows::shows_of;

/// What a line of a spec shows. The machine is at the start of the spec, and goes back to there.
pub(crate) fn shown_by(
    alloc: Global,
    world: &mut MarkedWorld<'_>,
    spec: &Spec,
    tables: &[Table],
    line: &[u8],
) -> Result<Shows, SendError>
    requires at { IsAtStart spec.now world.old }
    requires known { AreSteps spec.now.run.steps line.now }
    ensures shows { IfOk result (λ shows. shows_of_line tables.now spec.now.run line.now ≡ Some shows) }
    ensures back { OnOk result (IsAtStart spec.now world.new) }
{
    shown_behind(alloc, world, tables, line)
}

/// What is shown behind these steps. The world goes back to where it is.
fn shown_behind(
    alloc: Global,
    world: &mut MarkedWorld<'_>,
    tables: &[Table],
    line: &[u8],
) -> Result<Shows, SendError>
    requires known { AreSteps world.old.file.run.steps line.now }
    ensures shows { IfOk result (λ shows. shows ≡ shows_in tables.now world.old.file.run.sessions (send_all world.old.file.run.steps world.old.world line.now)) }
    ensures back { OnOk result (world.new.world ≡ world.old.world) }
    ensures whole { OnOk result (world.new.spent ≡ false) }
    ensures of_spec { world.new.file ≡ world.old.file }
{
    world.mark()?;
    send_all(world, line)?;
    let shows = shows_of(alloc, world, tables)?;
    world.go_back();
    Ok(shows)
}

/// Sends these steps, one behind the other.
fn send_all(world: &mut MarkedWorld<'_>, line: &[u8]) -> Result<(), SendError>
    requires known { AreSteps world.old.file.run.steps line.now }
    ensures sent { OnOk result (world.new.world ≡ send_all world.old.file.run.steps world.old.world line.now) }
    ensures marked { world.new.marked ≡ world.old.marked }
    ensures of_spec { world.new.file ≡ world.old.file }
{
    for step in line {
        world.send(*step)?;
    }
    Ok(())
}

/// Memory is taken to have run out where what is shown takes more than `room` bytes.
pub(crate) fn within(room: usize, shows: &Different) -> Result<(), SendError> {
    if shows.bytes() > room {
        return Err(SendError::NoMemory);
    }
    Ok(())
}
