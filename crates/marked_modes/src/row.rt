//! What sessions hold on one resource.

ghost use Rattle.std.specs.Prelude.{◌≡◌, ◌≢◌, ◌<◌, ◌↔◌, ℕ, IsTrue, length, true};
ghost use Rattle.lock_queues.specs.Locks.{fits_with as fits};
ghost use Rattle.marked_modes.specs.Held.{blank_row, mode_in};
ghost use Rattle.marked_modes.specs.Kept.{with_mode};

use lock_modes::{Mode, compatible};
use perm_ranks::MAX_SESSIONS;

/// Sessions that may hold something are numbered below it: those of a spec, and the one that runs its main setups.
pub const MAX_HOLDERS: usize = MAX_SESSIONS + 1;

/// The modes that sessions hold on a resource, by the number of the session.
#[derive(Clone, Copy)]
pub(crate) struct ModeRow {
    pub(crate) modes: [Option<Mode>; MAX_HOLDERS],
}

/// That a mode was given to a session on the resource with this place. It may have been taken away since.
#[derive(Clone, Copy)]
pub(crate) struct Given {
    pub(crate) session: u8,
    pub(crate) place: usize,
}

impl ModeRow {
    pub(crate) fn mode_of(&self, session: u8) -> Option<Mode>
        requires { session < MAX_HOLDERS }
        ensures { result ≡ mode_in self.now session }
    {
        self.modes[session as usize]
    }

    /// The row with another mode of a session, or none.
    pub(crate) fn with(&self, session: u8, mode: Option<Mode>) -> ModeRow
        requires { session < MAX_HOLDERS }
        ensures row { result ≡ with_mode self.now session mode }
        ensures inside { session < length self.now.modes }
    {
        let mut modes = self.modes;
        modes[session as usize] = mode;
        ModeRow { modes }
    }

    /// Nobody holds anything.
    pub(crate) fn blank() -> ModeRow
        ensures { result ≡ blank_row }
    {
        ModeRow {
            modes: [None; MAX_HOLDERS],
        }
    }

    /// Whether nobody holds anything.
    pub(crate) fn is_blank(&self) -> bool
        ensures { result ≡ true → self.now ≡ blank_row }
    {
        self.is_same(&ModeRow::blank())
    }

    /// Whether all sessions hold the same in both.
    pub(crate) fn is_same(&self, other: &ModeRow) -> bool
        ensures { result ≡ true → self.now ≡ other.now }
    {
        for session in 0..MAX_HOLDERS {
            if !is_same_mode(self.modes[session], other.modes[session]) {
                return false;
            }
        }
        true
    }

    /// Whether a mode is compatible with what every other session holds.
    #[inline(always)]
    pub(crate) fn fits(&self, session: u8, mode: Mode) -> bool
        ensures { IsTrue result ↔ ((c : ℕ) → c ≢ session → fits mode (mode_in self.now c) ≡ true) }
    {
        for other in 0..MAX_HOLDERS {
            if other != session as usize && !fits_with(mode, self.modes[other]) {
                return false;
            }
        }
        true
    }
}

/// Whether these are the same mode, or none both.
fn is_same_mode(mode: Option<Mode>, other: Option<Mode>) -> bool
    ensures { result ≡ true → mode ≡ other }
{
    match (mode, other) {
        (None, None) => true,
        (Some(mode), Some(other)) => mode == other,
        _ => false,
    }
}

/// Whether a mode goes with the one that another session holds, if it holds one.
#[inline(always)]
fn fits_with(mode: Mode, held: Option<Mode>) -> bool
    ensures { result ≡ fits mode held }
{
    match held {
        None => true,
        Some(held) => compatible(mode, held),
    }
}
