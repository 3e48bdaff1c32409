//! All that a session holds is taken away from it.

ghost use Rattle.std.specs.Prelude.{◌≡◌, ◌==◌, ◌<◌, ℕ, OnErr, OnOk, All, take};
ghost use Rattle.std.specs.List.{list_all};
ghost use Rattle.marked_modes.specs.declared.row.Given.{Given};
ghost use Rattle.marked_modes.specs.Kept.{Forgets, IsInside, cleared, cleared_of};

use crate::row::{Given, MAX_HOLDERS, ModeRow};
use marked_lists::MarkedList;
use std::alloc::AllocError;

/// Takes away what was given to a session. Where memory runs out some of it is.
pub(crate) fn clear(
    rows: &mut MarkedList<ModeRow>,
    given: &[Given],
    session: u8,
) -> Result<(), AllocError>
    requires session { session < MAX_HOLDERS }
    requires inside { All (IsInside rows.old.list) given.now }
    ensures cleared { OnOk result (rows.new ≡ record rows.old { list = cleared session given.now rows.old.list }) }
    ensures refused { OnErr result ((n : ℕ) × (rows.new ≡ record rows.old { list = cleared session (take n given.now) rows.old.list })) }
{
    for place in 0..given.len() {
        clear_one(rows, given[place], session)?;
    }
    Ok(())
}

/// Takes away what was given once, if it was given to the session.
fn clear_one(rows: &mut MarkedList<ModeRow>, given: Given, session: u8) -> Result<(), AllocError>
    requires session { session < MAX_HOLDERS }
    requires inside { IsInside rows.old.list given }
    ensures cleared { OnOk result (rows.new ≡ record rows.old { list = cleared_of session given rows.old.list }) }
    ensures refused { OnErr result (rows.new ≡ rows.old) }
{
    if given.session != session {
        return Ok(());
    }
    let row = rows.get(given.place);
    // What was taken away before takes no write that would have to be undone.
    if row.mode_of(session).is_none() {
        return Ok(());
    }
    rows.set(given.place, row.with(session, None))
}

/// Forgets what was given where all of it was given to this session, which holds nothing any more.
pub(crate) fn forget(given: &mut MarkedList<Given>, session: u8)
    ensures { Forgets session given.old given.new }
{
    if are_of(given.as_slice(), session) {
        given.truncate(0);
    }
}

/// Whether all of it was given to this session.
fn are_of(given: &[Given], session: u8) -> bool
    ensures { result ≡ list_all (λ (g : Given). g.session == session) given.now }
{
    given.iter().all(|given| given.session == session)
}
