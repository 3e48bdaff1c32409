//! A wait by the number of its resource.

ghost use Rattle.std.specs.Prelude.{◌≡◌, ◌==◌, not, true};
ghost use Rattle.std.specs.List.{list_all, list_any, position};
ghost use Rattle.numbered_specs.specs.Numbers.{place_of};
ghost use Rattle.marked_locks.specs.declared.wait.NumberedWait.{NumberedWait};

use lock_modes::Mode;
use numbered_specs::ResourceNumber;

/// A session that waits, with the mode that it asked for on the resource with a number.
#[derive(Clone, Copy)]
pub(crate) struct NumberedWait {
    pub(crate) session: u8,
    pub(crate) resource: ResourceNumber,
    pub(crate) mode: Mode,
}

impl NumberedWait {
    /// Whether it is for this resource.
    pub(crate) fn is_at(self, number: ResourceNumber) -> bool
        ensures { result ≡ (place_of self.resource == place_of number) }
    {
        self.resource.place() == number.place()
    }

    /// Whether this is the same wait.
    fn is_same(self, other: NumberedWait) -> bool
        ensures { result ≡ true → self ≡ other }
    {
        self.session == other.session && self.resource == other.resource && self.mode == other.mode
    }
}

/// Whether these are the same waits.
pub(crate) fn are_same(waits: &[NumberedWait], others: &[NumberedWait]) -> bool
    ensures { result ≡ true → waits.now ≡ others.now }
{
    if waits.len() != others.len() {
        return false;
    }
    for place in 0..waits.len() {
        if !waits[place].is_same(others[place]) {
            return false;
        }
    }
    true
}

/// Whether the session waits.
pub(crate) fn is_waiting(waits: &[NumberedWait], session: u8) -> bool
    ensures { result ≡ list_any (λ (w : NumberedWait). w.session == session) waits.now }
{
    waits.iter().any(|wait| wait.session == session)
}

/// Where the session's wait stands, if it waits.
pub(crate) fn place_of_wait(waits: &[NumberedWait], session: u8) -> Option<usize>
    ensures { result ≡ position (λ (w : NumberedWait). w.session == session) waits.now }
{
    waits.iter().position(|wait| wait.session == session)
}

/// Whether no wait is for this resource.
pub(crate) fn are_elsewhere(waits: &[NumberedWait], number: ResourceNumber) -> bool
    ensures { result ≡ list_all (λ (w : NumberedWait). not (place_of w.resource == place_of number)) waits.now }
{
    waits.iter().all(|wait| !wait.is_at(number))
}
