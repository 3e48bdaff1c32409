//! Who is ahead of whom, and which wait is the next to be granted.

ghost use Rattle.std.specs.Prelude.{◌≡◌, ◌<◌, ◌↔◌, All, IsTrue, length, MatchOption, Some};
ghost use Rattle.std.specs.List.{list_any};
ghost use Rattle.finite_maps.specs.Map.{get};
ghost use Rattle.lock_modes.specs.declared.mode.Mode.{Mode as Held};
ghost use Rattle.lock_modes.specs.Mode.{cover as covered};
ghost use Rattle.lock_queues.specs.declared.wait.Wait.{Wait};
ghost use Rattle.lock_queues.specs.Locks as locks;
ghost use Rattle.lock_queues.specs.LockTable.{look_at};
ghost use Rattle.lock_queues.specs.Rules.{IsNextOf, IsRipe, MayHave, NothingRipe};
ghost use Rattle.numbered_specs.specs.Numbers.{HasNumber, resource_of};
ghost use Rattle.marked_locks.specs.Queued.{locks_of, wait_of, waits_of};
ghost use Rattle.marked_locks.specs.Kept.{AreKnown, IsKnown};
ghost use Rattle.marked_locks.specs.Places.{is_of, spot_at, stands};

use crate::wait::{NumberedWait, are_elsewhere};
use lock_modes::{Mode, cover};
use marked_modes::MarkedModes;
use numbered_specs::ResourceNumber;

/// The cover of the mode that a session asks for and the one that it holds.
pub(crate) fn wanted_mode(held: Option<Mode>, mode: Mode) -> Mode
    ensures { result ≡ locks.wanted held mode }
{
    match held {
        None => mode,
        Some(held) => cover(held, mode),
    }
}

/// The mode that a wait is to be granted.
pub(crate) fn wanted(modes: &MarkedModes, wait: NumberedWait) -> Mode
    requires { IsKnown modes.now.resources wait }
    ensures { result ≡ locks.wanted_by (look_at modes.now.now) (wait_of modes.now.resources wait) }
{
    wanted_mode(modes.mode_of(wait.session, wait.resource), wait.mode)
}

fn converts(modes: &MarkedModes, wait: NumberedWait) -> bool
    requires { IsKnown modes.now.resources wait }
    ensures { result ≡ locks.converts (look_at modes.now.now) (wait_of modes.now.resources wait) }
{
    modes.mode_of(wait.session, wait.resource).is_some()
}

/// Whether a session that holds this has a mode already.
pub(crate) fn has_already(own: Option<Mode>, mode: Mode) -> bool
    ensures { IsTrue result → (held : Held) × (own ≡ Some held) × (covered held mode ≡ held) }
{
    match own {
        None => false,
        Some(held) => cover(held, mode) == held,
    }
}

/// Whether a session that holds this may have a mode at once.
pub(crate) fn may_have(
    modes: &MarkedModes,
    waits: &[NumberedWait],
    own: Option<Mode>,
    session: u8,
    number: ResourceNumber,
    mode: Mode,
) -> bool
    requires known { AreKnown modes.now.resources waits.now }
    requires number { HasNumber modes.now.resources number }
    requires own { own ≡ get modes.now.now (session, resource_of modes.now.resources number) }
    ensures { IsTrue result ↔ MayHave (locks_of modes.now.resources modes.now.now waits.now) session (resource_of modes.now.resources number) mode }
{
    (own.is_some() || nobody_waits(modes, waits, number))
        && modes.fits(session, number, wanted_mode(own, mode))
}

fn nobody_waits(modes: &MarkedModes, waits: &[NumberedWait], number: ResourceNumber) -> bool
    requires known { AreKnown modes.now.resources waits.now }
    requires number { HasNumber modes.now.resources number }
    ensures { result ≡ locks.nobody_waits (waits_of modes.now.resources waits.now) (resource_of modes.now.resources number) }
{
    let _modes = modes; // for the proof
    are_elsewhere(waits, number)
}

/// Whether a wait of this session, or of any, stands ahead of the one at a place: of a conversion the conversions that came earlier, of another
/// wait all conversions and the other waits that came earlier.
pub(crate) fn is_any_ahead(
    modes: &MarkedModes,
    waits: &[NumberedWait],
    place: usize,
    whose: Option<u8>,
) -> bool
    requires known { AreKnown modes.now.resources waits.now }
    requires place { place < length waits.now }
    ensures { result
        ≡ list_any (λ (w : Wait). is_of whose w.session) (locks.ahead (look_at modes.now.now) (spot_at modes.now.resources waits.now place)) }
{
    let wait = waits[place];
    let earlier = &waits[..place];
    let later = &waits[place + 1..];
    if converts(modes, wait) {
        is_any_there(modes, earlier, wait.resource, true, whose)
    } else {
        is_any_there(modes, earlier, wait.resource, false, whose)
            || is_any_there(modes, later, wait.resource, true, whose)
    }
}

/// Whether one of these waits is at the resource, of a session that is looked for.
fn is_any_there(
    modes: &MarkedModes,
    waits: &[NumberedWait],
    number: ResourceNumber,
    converting: bool,
    whose: Option<u8>,
) -> bool
    requires { All (IsKnown modes.now.resources) waits.now }
    ensures { result ≡ list_any (stands (look_at modes.now.now) modes.now.resources number converting whose) waits.now }
{
    for place in 0..waits.len() {
        if is_there(modes, waits[place], number, converting, whose) {
            return true;
        }
    }
    false
}

fn is_there(
    modes: &MarkedModes,
    wait: NumberedWait,
    number: ResourceNumber,
    converting: bool,
    whose: Option<u8>,
) -> bool
    requires { IsKnown modes.now.resources wait }
    ensures { result ≡ stands (look_at modes.now.now) modes.now.resources number converting whose wait }
{
    is_whose(whose, wait.session) && wait.is_at(number) && (!converting || converts(modes, wait))
}

fn is_whose(whose: Option<u8>, session: u8) -> bool
    ensures { result ≡ is_of whose session }
{
    match whose {
        None => true,
        Some(other) => session == other,
    }
}

/// Whether the wanted mode of the wait at a place is compatible with every other session's there, and no wait is ahead.
fn is_ripe(modes: &MarkedModes, waits: &[NumberedWait], place: usize) -> bool
    requires known { AreKnown modes.now.resources waits.now }
    requires place { place < length waits.now }
    ensures { IsTrue result ↔ IsRipe (look_at modes.now.now) (spot_at modes.now.resources waits.now place) }
{
    let wait = waits[place];
    !is_any_ahead(modes, waits, place, None)
        && modes.fits(wait.session, wait.resource, wanted(modes, wait))
}

/// The session of the ripe wait that came first.
pub(crate) fn next_ripe(modes: &MarkedModes, waits: &[NumberedWait]) -> Option<u8>
    requires { AreKnown modes.now.resources waits.now }
    ensures { MatchOption result
        (NothingRipe (locks_of modes.now.resources modes.now.now waits.now))
        (IsNextOf (locks_of modes.now.resources modes.now.now waits.now)) }
{
    for place in 0..waits.len() {
        if is_ripe(modes, waits, place) {
            return Some(waits[place].session);
        }
    }
    None
}
