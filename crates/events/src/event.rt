use finite_maps::Fork;
use lock_modes::Row;
use std::alloc::AllocError;

/// Why a statement failed.
#[derive(Clone, Copy, PartialEq, Eq)]
pub enum Fault {
    /// A new row has a key that is there already.
    Duplicate,
    /// A whole number leaves the range of 64 bits.
    OutOfRange,
    /// The request would have to wait in a ring.
    Deadlock,
    /// The transaction block has failed before.
    Aborted,
    /// The request may not be had at once, and its statement does not wait.
    Unavailable,
}

/// What a session is warned of.
#[derive(Clone, Copy, PartialEq, Eq)]
pub enum Warning {
    /// A block begins inside a block.
    InBlock,
    /// A block ends where there is none.
    NoBlock,
}

/// One line of a transcript.
pub enum Event {
    /// The step with this number begins.
    Sent(u8),
    /// A row that a select shows.
    Row(Row),
    /// How many rows a select has shown.
    Rows(u64),
    /// How many rows an insert has made.
    Inserted(u64),
    /// How many rows an update has matched.
    Updated(u64),
    /// How many rows a delete has removed.
    Deleted(u64),
    /// A transaction block begins.
    Began,
    /// A transaction has ended and its writes stay.
    Committed,
    /// A transaction has ended and its writes are gone.
    RolledBack,
    /// A table is locked as the statement asks.
    Locked,
    /// A setting was read; it has no effect.
    Set,
    /// A statement was out of place and harmless.
    Warned(Warning),
    /// The statement failed and its transaction is undone.
    Failed(Fault),
    /// The session waits for a lock.
    Waiting,
    /// The lock that the session waited for is had.
    Resumed,
    /// The step has ended.
    Done,
    /// The step with this number is skipped, since its session waits.
    NotSent(u8),
}

// Written out and not derived, so that who owns one calls this and does not let its parts go one by one.
impl Drop for Event {
    fn drop(self) {
        match self {
            Event::Sent(_) => {}
            Event::Row(_row) => {}
            Event::Rows(_) => {}
            Event::Inserted(_) => {}
            Event::Updated(_) => {}
            Event::Deleted(_) => {}
            Event::Began => {}
            Event::Committed => {}
            Event::RolledBack => {}
            Event::Locked => {}
            Event::Set => {}
            Event::Warned(_) => {}
            Event::Failed(_) => {}
            Event::Waiting => {}
            Event::Resumed => {}
            Event::Done => {}
            Event::NotSent(_) => {}
        }
    }
}

impl Event {
    /// Whether a session is told nothing more until it is sent a step, or goes on.
    pub(crate) fn ends_turn(&self) -> bool {
        matches!(self, Event::Done | Event::Waiting | Event::NotSent(_))
    }
}

impl Fork for Event {
    fn fork(&self) -> Result<Event, AllocError> {
        Ok(match self {
            Event::Sent(step) => Event::Sent(*step),
            Event::Row(row) => Event::Row(row.fork()?),
            Event::Rows(count) => Event::Rows(*count),
            Event::Inserted(count) => Event::Inserted(*count),
            Event::Updated(count) => Event::Updated(*count),
            Event::Deleted(count) => Event::Deleted(*count),
            Event::Began => Event::Began,
            Event::Committed => Event::Committed,
            Event::RolledBack => Event::RolledBack,
            Event::Locked => Event::Locked,
            Event::Set => Event::Set,
            Event::Warned(warning) => Event::Warned(*warning),
            Event::Failed(fault) => Event::Failed(*fault),
            Event::Waiting => Event::Waiting,
            Event::Resumed => Event::Resumed,
            Event::Done => Event::Done,
            Event::NotSent(step) => Event::NotSent(*step),
        })
    }
}
