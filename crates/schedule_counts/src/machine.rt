//! What the machine of a spec is asked for.

ghost use mathlib.Core.List.{IsPrefix};
ghost use Rattle.std.specs.Prelude.{◌≡◌, false, IfOk, OnOk, Some, slice_get};

use marked_worlds::MarkedWorld;
use world_graph::Refused;

/// The number of the machine's world now, which is noted while all that is noted takes fewer bytes than `room`.
pub(crate) fn world_number(machine: &mut MarkedWorld<'_>, room: usize) -> Result<usize, Refused>
    ensures known { IfOk result (λ number. slice_get machine.new.seen number ≡ Some machine.old.world) }
    ensures whole { OnOk result (machine.old.spent ≡ false) }
    ensures front { IsPrefix machine.old.seen machine.new.seen }
    ensures same { machine.new ≡ record machine.old { seen = machine.new.seen } }
{
    match machine.number_within(room) {
        Ok(Some(number)) => Ok(number),
        _ => Err(Refused),
    }
}
