//! Reads that a commit made stale.

ghost use Rattle.std.specs.Prelude.{◌≡◌, ◌++◌, IfOk, OnOk, length};
ghost use Rattle.line_moments.specs.Stale as spec;

use crate::reads::OpenRead;
use events::{Event, Transcript, are_same_values};
use finite_maps::Fork;
use lock_modes::Value;
use sqlite_items::Items;
use std::alloc::AllocError;

/// A read whose SELECT tells its session something else now than before, since another session has committed.
pub struct Stale {
    /// Who read.
    pub session: u8,
    /// The step that read.
    pub step: u8,
    /// What it was told then: the rows, and how many they were.
    pub told: Transcript,
    /// What it would be told now.
    pub told_now: Transcript,
}

// Written out and not derived, so that who owns one calls this and does not let its parts go one by one.
impl Drop for Stale {
    fn drop(self) {
        let Stale {
            session: _,
            step: _,
            told: _told,
            told_now: _told_now,
        } = self;
    }
}

/// Whether two rows are the same.
fn is_same_row(a: &[Value], b: &[Value]) -> bool
    ensures { result ≡ spec.same_values a.now b.now }
{
    are_same_values(a, b)
}

/// Whether two events are the same: an event is told by its kind, its number and its row.
fn is_same_event(a: &Event, b: &Event) -> bool
    ensures { result ≡ spec.same_event a.now b.now }
{
    a.kind() == b.kind() && a.number() == b.number() && is_same_row(a.values(), b.values())
}

/// Whether two lists of so many events are the same.
fn agree(a: &[Event], b: &[Event]) -> bool
    requires { length a.now ≡ length b.now }
    ensures { result ≡ spec.same_events a.now b.now }
{
    for place in 0..a.len() {
        if !is_same_event(&a[place], &b[place]) {
            return false;
        }
    }
    true
}

/// Whether the same is told.
fn are_same(a: &Transcript, b: &Transcript) -> bool
    ensures { result ≡ spec.same_events a.now b.now }
{
    if a.events().len() != b.events().len() {
        return false;
    }
    agree(a.events(), b.events())
}

/// Notes a session's read whose SELECT tells the second of these now and told the first before the commit, if that made it stale: it tells something else,
/// and something else than was read. It fails for want of memory alone.
pub fn note_stale(
    session: u8,
    read: &OpenRead,
    before: &Transcript,
    now: Transcript,
    stale: &mut Items<Stale>,
) -> Result<(), AllocError>
    ensures { OnOk result (stale.new ≡ stale.old ++ spec.stale_by session read.now before.now now) }
{
    if are_same(&now, before) || are_same(&now, &read.told) {
        return Ok(());
    }
    stale.push(Stale {
        session,
        step: read.step,
        told: read.told.fork()?,
        told_now: now,
    })
}
