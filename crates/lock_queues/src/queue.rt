//! Who is ahead of whom, and which wait is the next to be granted.

ghost use Rattle.std.specs.Prelude.{◌≡◌, ◌↔◌, ◌<◌, ◌≤◌, ◌==◌, ℕ, IsTrue, length, MatchOption};
ghost use Rattle.std.specs.List.{list_any, position};
ghost use Rattle.lock_queues.specs.Locks as locks;
ghost use Rattle.lock_queues.specs.Queue as queue;
ghost use Rattle.lock_queues.specs.LockTable.{look_at};
ghost use Rattle.lock_queues.specs.Reasons.{spot_of};
ghost use Rattle.lock_queues.specs.Rules.{IsSpot, IsRipe, IsNextOf, NothingRipe};

use crate::held::Held;
use crate::wait::Wait;
use lock_modes::{Mode, cover};
use std::marker::Model;

/// A wait with the waits that came before it and after it, on all resources.
#[derive(Drop)]
pub struct Spot<'a> {
    pub before: &'a [Wait],
    pub wait: &'a Wait,
    pub after: &'a [Wait],
}

impl<'a> Model for Spot<'a> {
    ghost use Rattle.std.specs.Coded.{codes};
    ghost use Rattle.lock_queues.specs.contracts.wait.Wait as waiting;
    ghost use Rattle.lock_queues.specs.Locks as locks;

    ghost Value = { locks.Spot };

    ghost coded = { Prim.hlevel (codes, waiting.the_row.coded) };

    ghost view = { λ s. record { before = s.before.now; wait = s.wait.now; after = s.after.now } };
}

impl<'a> Spot<'a> {
    pub fn at(waits: &'a [Wait], index: usize) -> Spot<'a>
        requires { index < length waits.now }
        ensures there { IsSpot waits.now result }
        ensures place { length result.before ≡ index }
    {
        Spot {
            before: &waits[..index],
            wait: &waits[index],
            after: &waits[index + 1..],
        }
    }
}

impl Spot<'_> {
    /// Whether the wanted mode is compatible with every other session's there, and no wait is ahead.
    pub fn is_ripe(&self, held: &Held) -> bool
        ensures { IsTrue result ↔ IsRipe (look_at held.now) self.now }
    {
        let wait = self.wait;
        self.is_first(held) && held.fits(wait.session, wait.resource.place(), wanted(held, wait))
    }

    fn is_first(&self, held: &Held) -> bool
        ensures { result ≡ locks.is_empty (locks.ahead (look_at held.now) self.now) }
    {
        let wait = self.wait;
        !is_any_ahead(held, wait, true, self.before) && !is_any_ahead(held, wait, false, self.after)
    }
}

/// The cover of the mode that a session asks for and the one that it holds.
pub fn wanted_mode(held: Option<Mode>, mode: Mode) -> Mode
    ensures { result ≡ locks.wanted held mode }
{
    match held {
        None => mode,
        Some(held) => cover(held, mode),
    }
}

/// The mode that a wait is to be granted.
pub fn wanted(held: &Held, wait: &Wait) -> Mode
    ensures { result ≡ locks.wanted_by (look_at held.now) wait.now }
{
    wanted_mode(held.mode_of(wait.session, wait.resource.place()), wait.mode)
}

fn converts(held: &Held, wait: &Wait) -> bool
    ensures { result ≡ locks.converts (look_at held.now) wait.now }
{
    held.mode_of(wait.session, wait.resource.place()).is_some()
}

/// Whether another wait, which came earlier or later, stands ahead: among conversions those that came
/// earlier, and before other waits also all conversions.
pub fn is_ahead(held: &Held, wait: &Wait, is_earlier: bool, other: &Wait) -> bool
    ensures { result ≡ queue.is_ahead (look_at held.now) wait.now is_earlier other.now }
{
    if !other.is_at(wait.resource.place()) {
        return false;
    }
    if converts(held, wait) {
        is_earlier && converts(held, other)
    } else {
        is_earlier || converts(held, other)
    }
}

fn is_any_ahead(held: &Held, wait: &Wait, is_earlier: bool, others: &[Wait]) -> bool
    ensures { result ≡ list_any (queue.is_ahead (look_at held.now) wait.now is_earlier) others.now }
{
    others
        .iter()
        .any(|other| is_ahead(held, wait, is_earlier, other))
}

/// The session of the ripe wait that came first.
pub fn next_ripe(held: &Held, waits: &[Wait]) -> Option<u8>
    ensures { MatchOption result (NothingRipe (record { held = held.now; waits = waits.now })) (IsNextOf (record { held = held.now; waits = waits.now })) }
{
    for index in 0..waits.len() {
        let spot = Spot::at(waits, index);
        if spot.is_ripe(held) {
            return Some(spot.wait.session);
        }
    }
    None
}

/// Where the session's wait stands, if it waits.
pub fn place_of(waits: &[Wait], session: u8) -> Option<usize>
    ensures { result ≡ position (λ (w : locks.Wait). w.session == session) waits.now }
{
    waits.iter().position(|wait| wait.session == session)
}

/// The session's wait, if it waits, with those before it and after it.
pub fn find_spot(waits: &[Wait], session: u8) -> Option<Spot<'_>>
    ensures { result ≡ spot_of session (locks.spots waits.now) }
{
    match place_of(waits, session) {
        None => None,
        Some(index) => Some(Spot::at(waits, index)),
    }
}
