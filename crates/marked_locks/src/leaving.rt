//! A wait is taken out of the list of waits.

ghost use Rattle.std.specs.Prelude.{◌≡◌, ◌<◌, [], OnErr, OnOk, length};
ghost use Rattle.std.specs.List.{remove};

use crate::wait::NumberedWait;
use marked_lists::MarkedList;
use std::alloc::AllocError;

/// Takes out the wait at a place. Where memory runs out nobody waits any more.
pub(crate) fn remove_wait(
    waits: &mut MarkedList<NumberedWait>,
    place: usize,
) -> Result<(), AllocError>
    requires { place < length waits.old.list }
    ensures removed { OnOk result (waits.new ≡ record waits.old { list = remove waits.old.list place }) }
    ensures refused { OnErr result (waits.new ≡ record waits.old { list = [] }) }
{
    match close_gap(waits, place) {
        Ok(()) => Ok(()),
        Err(error) => {
            // A list that is moved in part may have a session twice.
            waits.truncate(0);
            Err(error)
        }
    }
}

/// Takes out the wait at a place. Where memory runs out some of those behind it are moved.
fn close_gap(waits: &mut MarkedList<NumberedWait>, place: usize) -> Result<(), AllocError>
    requires { place < length waits.old.list }
    ensures closed { OnOk result (waits.new ≡ record waits.old { list = remove waits.old.list place }) }
    ensures marked { waits.new.marked ≡ waits.old.marked }
{
    let last = waits.len() - 1;
    for at in place..last {
        let next = waits.get(at + 1);
        waits.set(at, next)?;
    }
    waits.truncate(last);
    Ok(())
}
