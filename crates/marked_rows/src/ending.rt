//! What a session wrote is noted, and ends.

ghost use Rattle.std.specs.Prelude.{◌≡◌, ◌==◌, ◌<◌, ℕ, OnErr, OnOk, All, length, take};
ghost use Rattle.std.specs.List.{list_all};
ghost use Rattle.marked_rows.specs.declared.cell.Written.{Written};
ghost use Rattle.marked_rows.specs.Kept.{Forgets, IsInside, ended_at, ended_in, noted};

use crate::cell::{Cell, Ending, Written};
use marked_lists::MarkedList;
use std::alloc::AllocError;

/// Notes that a session writes at a cell, unless it has done so before.
pub(crate) fn note(
    written: &mut MarkedList<Written>,
    cell: &Cell,
    session: u8,
    place: usize,
) -> Result<(), AllocError>
    ensures noted { OnOk result (written.new ≡ record written.old { list = noted written.old.list cell.now session place }) }
    ensures refused { OnErr result (written.new ≡ written.old) }
{
    if cell.is_of(session) {
        return Ok(());
    }
    written.push(Written {
        session,
        cell: place,
    })
}

/// Ends what is noted of a session. Where memory runs out some of it has ended.
pub(crate) fn end(
    cells: &mut MarkedList<Cell>,
    written: &[Written],
    session: u8,
    ending: Ending,
) -> Result<(), AllocError>
    requires { All (IsInside cells.old.list) written.now }
    ensures ended { OnOk result (cells.new ≡ record cells.old { list = ended_in session ending written.now cells.old.list }) }
    ensures refused { OnErr result ((n : ℕ) × (cells.new ≡ record cells.old { list = ended_in session ending (take n written.now) cells.old.list })) }
{
    for place in 0..written.len() {
        end_one(cells, written[place], session, ending)?;
    }
    Ok(())
}

/// Ends what was written once, if it was written by the session.
fn end_one(
    cells: &mut MarkedList<Cell>,
    written: Written,
    session: u8,
    ending: Ending,
) -> Result<(), AllocError>
    requires { IsInside cells.old.list written }
    ensures ended { OnOk result (cells.new ≡ record cells.old { list = ended_at session ending written cells.old.list }) }
    ensures refused { OnErr result (cells.new ≡ cells.old) }
{
    if written.session != session {
        return Ok(());
    }
    let cell = cells.get(written.cell);
    // What has ended before takes no write that would have to be undone.
    if !cell.is_of(session) {
        return Ok(());
    }
    cells.set(written.cell, cell.ended(session, ending))
}

/// Forgets what is noted where all of it is of this session, whose writes have ended.
pub(crate) fn forget(written: &mut MarkedList<Written>, session: u8)
    ensures { Forgets session written.old written.new }
{
    if are_of(written.as_slice(), session) {
        written.truncate(0);
    }
}

/// Whether all of it is of this session.
fn are_of(written: &[Written], session: u8) -> bool
    ensures { result ≡ list_all (λ (w : Written). w.session == session) written.now }
{
    written.iter().all(|written| written.session == session)
}
