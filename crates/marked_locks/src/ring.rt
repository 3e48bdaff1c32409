//! The search for a ring of sessions that wait for each other.

ghost use Rattle.std.specs.Prelude.{◌≡◌, ◌<◌, ◌↔◌, ◌==◌, ◌&&◌, ◌||◌, ℕ, All, IsTrue, length, not, true, MatchOption};
ghost use Rattle.std.specs.List.{list_any};
ghost use Rattle.lock_queues.specs.Locks as locks;
ghost use Rattle.lock_queues.specs.LockTable.{look_at};
ghost use Rattle.lock_queues.specs.Rules.{IsInRing};
ghost use Rattle.lock_queues.specs.Search.{IsOpen, marks};
ghost use Rattle.marked_locks.specs.Queued.{locks_of, waits_of};
ghost use Rattle.marked_locks.specs.Kept.{AreKnown, IsKnown};
ghost use Rattle.marked_locks.specs.Places.{spot_at};
ghost use Rattle.marked_locks.specs.declared.wait.NumberedWait.{NumberedWait};

use crate::queue::{is_any_ahead, wanted};
use crate::wait::NumberedWait;
use lock_modes::{Mode, compatible};
use marked_modes::{MAX_HOLDERS, MarkedModes};

/// Whether the session waits for itself, by way of others.
///
/// Each session that is reached is passed once, and marks those that it waits for. Only sessions that wait are marked, as no way leads on from
/// others.
pub(crate) fn is_in_ring(modes: &MarkedModes, waits: &[NumberedWait], session: u8) -> bool
    requires known { AreKnown modes.now.resources waits.now }
    requires session { session < MAX_HOLDERS }
    ensures { IsTrue result ↔ IsInRing (locks_of modes.now.resources modes.now.now waits.now) session }
{
    let mut reached = [false; MAX_HOLDERS];
    let mut passed = [false; MAX_HOLDERS];
    passed[session as usize] = true;
    mark(modes, waits, session, &mut reached);
    while let Some(next) = next_open(waits, &reached, &passed) {
        passed[next as usize] = true;
        mark(modes, waits, next, &mut reached);
    }
    reached[session as usize]
}

/// A session that waits, is reached and not passed.
fn next_open(
    waits: &[NumberedWait],
    reached: &[bool; MAX_HOLDERS],
    passed: &[bool; MAX_HOLDERS],
) -> Option<u8>
    requires { All (λ (w : NumberedWait). w.session < MAX_HOLDERS) waits.now }
    ensures { MatchOption result
        ((b : ℕ) → list_any (λ (w : NumberedWait). w.session == b) waits.now ≡ true → marks reached.now b ≡ true → marks passed.now b ≡ true)
        (λ next. IsOpen (marks reached.now) (marks passed.now) next × (next < MAX_HOLDERS)) }
{
    for place in 0..waits.len() {
        let session = waits[place].session;
        if is_open(reached, passed, session) {
            return Some(session);
        }
    }
    None
}

fn is_open(reached: &[bool; MAX_HOLDERS], passed: &[bool; MAX_HOLDERS], session: u8) -> bool
    requires { session < MAX_HOLDERS }
    ensures { result ≡ (marks reached.now session && not (marks passed.now session)) }
{
    reached[session as usize] && !passed[session as usize]
}

/// Marks the sessions that wait and that this one waits for.
fn mark(modes: &MarkedModes, waits: &[NumberedWait], session: u8, reached: &mut [bool; MAX_HOLDERS])
    requires { AreKnown modes.now.resources waits.now }
    ensures { (b : ℕ) → marks reached.new b
        ≡ (marks reached.old b || (list_any (λ (w : NumberedWait). w.session == b) waits.now
        && locks.waits_for (look_at modes.now.now) (waits_of modes.now.resources waits.now) session b)) }
{
    for place in 0..waits.len() {
        let other = waits[place].session;
        if waits_for(modes, waits, session, other) {
            reached[other as usize] = true;
        }
    }
}

/// Whether a session waits for another one.
fn waits_for(modes: &MarkedModes, waits: &[NumberedWait], session: u8, other: u8) -> bool
    requires known { AreKnown modes.now.resources waits.now }
    requires other { other < MAX_HOLDERS }
    ensures { result ≡ locks.waits_for (look_at modes.now.now) (waits_of modes.now.resources waits.now) session other }
{
    for place in 0..waits.len() {
        if waits[place].session == session && holds_up(modes, waits, place, other) {
            return true;
        }
    }
    false
}

/// Whether another session has to go before the wait at a place is granted: its mode there keeps the wanted one away, or its wait is ahead.
fn holds_up(modes: &MarkedModes, waits: &[NumberedWait], place: usize, other: u8) -> bool
    requires known { AreKnown modes.now.resources waits.now }
    requires place { place < length waits.now }
    requires other { other < MAX_HOLDERS }
    ensures { result ≡ locks.holds_up (look_at modes.now.now) (spot_at modes.now.resources waits.now place) other }
{
    let wait = waits[place];
    wait.session != other
        && (!fits_with(wanted(modes, wait), modes.mode_of(other, wait.resource))
            || is_any_ahead(modes, waits, place, Some(other)))
}

/// Whether a mode goes with the one that another session holds, if it holds one.
fn fits_with(mode: Mode, held: Option<Mode>) -> bool
    ensures { result ≡ locks.fits_with mode held }
{
    match held {
        None => true,
        Some(held) => compatible(mode, held),
    }
}
