//! The search for a ring of sessions that wait for each other.

ghost use Rattle.std.specs.Prelude.{◌≡◌, ◌↔◌, ◌<◌, ◌||◌, ℕ, IsTrue, MatchOption};
ghost use Rattle.lock_queues.specs.Queue as queue;
ghost use Rattle.lock_queues.specs.LockTable.{look_at};
ghost use Rattle.lock_queues.specs.Rules.{IsInRing};
ghost use Rattle.lock_queues.specs.Search.{Marks, marks, AllPassed, IsOpen};

use crate::held::{Held, fits_with};
use crate::queue::{Spot, is_ahead, wanted};
use crate::wait::Wait;

/// How many sessions there may be.
const SESSIONS: usize = 256;

/// Whether the session waits for itself, by way of others.
///
/// Each session that is reached is passed once, and marks those that it waits for. Only sessions that wait
/// are marked, as no way leads on from others.
pub fn is_in_ring(held: &Held, waits: &[Wait], session: u8) -> bool
    ensures { IsTrue result ↔ IsInRing (record { held = held.now; waits = waits.now }) session }
{
    let mut reached = [false; SESSIONS];
    let mut passed = [false; SESSIONS];
    passed[usize::from(session)] = true;
    mark(held, waits, session, &mut reached);
    while let Some(next) = next_open(waits, &reached, &passed) {
        passed[usize::from(next)] = true;
        mark(held, waits, next, &mut reached);
    }
    reached[usize::from(session)]
}

/// A session that waits, is reached and not passed.
fn next_open(waits: &[Wait], reached: &[bool; SESSIONS], passed: &[bool; SESSIONS]) -> Option<u8>
    ensures { MatchOption result (AllPassed waits.now (marks reached.now) (marks passed.now)) (IsOpen (marks reached.now) (marks passed.now)) }
{
    for wait in waits {
        let session = usize::from(wait.session);
        if reached[session] && !passed[session] {
            return Some(wait.session);
        }
    }
    None
}

/// Marks the sessions that wait and that this one waits for.
fn mark(held: &Held, waits: &[Wait], session: u8, reached: &mut [bool; SESSIONS])
    ensures { Marks (look_at held.now) waits.now session (marks reached.old) (marks reached.new) }
{
    for index in 0..waits.len() {
        mark_from(held, &Spot::at(waits, index), session, reached);
    }
}

fn mark_from(held: &Held, spot: &Spot<'_>, session: u8, reached: &mut [bool; SESSIONS])
    ensures { (b : ℕ) → marks reached.new b ≡ (marks reached.old b || queue.spot_marks (look_at held.now) spot.now session b) }
{
    if spot.wait.session == session {
        mark_side(held, spot.wait, true, spot.before, reached);
        mark_side(held, spot.wait, false, spot.after, reached);
    }
}

/// Marks the sessions of waits that hold this one up. These came all earlier, or all later.
fn mark_side(
    held: &Held,
    wait: &Wait,
    is_earlier: bool,
    others: &[Wait],
    reached: &mut [bool; SESSIONS],
)
    ensures { (b : ℕ) → marks reached.new b ≡ (marks reached.old b || queue.some_holds_up (look_at held.now) wait.now is_earlier others.now b) }
{
    for other in others {
        if is_held_up_by(held, wait, is_earlier, other) {
            reached[usize::from(other.session)] = true;
        }
    }
}

/// Whether the session of another wait has to go before this wait is granted.
fn is_held_up_by(held: &Held, wait: &Wait, is_earlier: bool, other: &Wait) -> bool
    ensures { result ≡ queue.is_held_up_by (look_at held.now) wait.now is_earlier other.now }
{
    if wait.session == other.session {
        return false;
    }
    let theirs = held.mode_of(other.session, wait.resource.place());
    !fits_with(wanted(held, wait), theirs) || is_ahead(held, wait, is_earlier, other)
}
