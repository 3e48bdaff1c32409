//! A moment of a line: one session going, from where its step is sent or goes on to where it ends or has to wait.

ghost use Rattle.std.specs.Prelude.{◌≡◌, Some, None};
ghost use Rattle.line_moments.specs.Moments.{ending_by};

use crate::stale::Stale;
use events::Transcript;
use lock_modes::{Mode, Resource};
use lock_queues::{Edge, Hop, Want};
use machine_model::Status;
use sqlite_items::Items;

/// What a session's locks come to while it goes.
pub enum Change {
    /// A request is had, and this mode is held there from now on, though it may have been held before.
    Had(Resource, Mode),
    /// Nothing is held any more.
    LetGo,
}

// Written out and not derived, so that who owns one calls this and does not let its parts go one by one.
impl Drop for Change {
    fn drop(self) {
        match self {
            Change::Had(_resource, _) => {}
            Change::LetGo => {}
        }
    }
}

/// Why a request is refused.
pub enum Refusal {
    /// Its wait would close this ring.
    Closes(Items<Hop>),
    /// It refuses to wait for what it wants.
    Wants(Want),
}

// Written out and not derived, so that who owns one calls this and does not let its parts go one by one.
impl Drop for Refusal {
    fn drop(self) {
        match self {
            Refusal::Closes(_ring) => {}
            Refusal::Wants(_want) => {}
        }
    }
}

/// Why a session goes.
#[derive(Clone, Copy, PartialEq, Eq)]
pub enum Manner {
    /// A step is sent to it.
    IsSent,
    /// Its wait is granted.
    IsResumed,
    /// It does not go: it waits, and the step is not sent.
    IsNotSent,
}

/// Where a moment ends.
pub enum Ending {
    /// The step has ended, by its last statement or by another fault than those below.
    Ended,
    /// The session waits.
    Awaits(Want),
    /// It lost a deadlock.
    Loses(Items<Hop>),
    /// It lacks what a request wanted that refuses to wait.
    Lacks(Want),
}

// Written out and not derived, so that who owns one calls this and does not let its parts go one by one.
impl Drop for Ending {
    fn drop(self) {
        match self {
            Ending::Ended => {}
            Ending::Awaits(_want) => {}
            Ending::Loses(_ring) => {}
            Ending::Lacks(_want) => {}
        }
    }
}

impl Ending {
    /// Where a moment ends whose session wants this then, if it waits, and was refused a request for that reason, if it was.
    pub fn new(want: Option<Want>, refusal: Option<Refusal>) -> Ending
        ensures { result ≡ ending_by want refusal }
    {
        match want {
            Some(want) => Ending::Awaits(want),
            None => match refusal {
                None => Ending::Ended,
                Some(refusal) => refusal.ends(),
            },
        }
    }
}

impl Refusal {
    /// Where a moment ends whose session is refused a request for this reason.
    fn ends(self) -> Ending
        ensures { result ≡ ending_by None (Some self) }
    {
        match self {
            Refusal::Closes(ring) => Ending::Loses(ring),
            Refusal::Wants(want) => Ending::Lacks(want),
        }
    }
}

/// A session that goes on waiting, for other reasons than before.
#[derive(Drop)]
pub struct Still {
    pub session: u8,
    pub edges: Items<Edge>,
}

/// One session going.
pub struct Moment {
    pub session: u8,
    pub manner: Manner,
    /// The step that was sent to it last.
    pub step: Option<u8>,
    /// What it was told.
    pub events: Transcript,
    /// The locks that it got and let go, in order.
    pub changes: Items<Change>,
    /// How its block stands then.
    pub status: Status,
    pub ending: Ending,
    /// The others that go on waiting, for other reasons than before, in their order.
    pub still: Items<Still>,
    /// The reads of the others that it made stale, in the order of their sessions, and of each in the order of reading.
    pub stale: Items<Stale>,
}

// Written out and not derived, so that who owns one calls this and does not let its parts go one by one.
impl Drop for Moment {
    fn drop(self) {
        let Moment {
            session: _,
            manner: _,
            step: _,
            events: _events,
            changes: _changes,
            status: _,
            ending: _ending,
            still: _still,
            stale: _stale,
        } = self;
    }
}
