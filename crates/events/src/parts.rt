//! The parts of an event: it is told by its kind, its number and its row.

ghost use Rattle.std.specs.Prelude.{◌≡◌};
ghost use Rattle.events.specs.Parts.{kind_of, number_of, values_of};

use crate::event::Event;
use crate::numbers::{fault_number, warning_number};
use lock_modes::Value;

impl Event {
    /// The place of an event in the table of the format.
    pub fn kind(&self) -> u8
        ensures { result ≡ kind_of self.now }
    {
        match self {
            Event::Sent(_) => 0,
            Event::Row(_) => 1,
            Event::Rows(_) => 2,
            Event::Inserted(_) => 3,
            Event::Updated(_) => 4,
            Event::Deleted(_) => 5,
            Event::Began => 6,
            Event::Committed => 7,
            Event::RolledBack => 8,
            Event::Locked => 9,
            Event::Set => 10,
            Event::Warned(_) => 11,
            Event::Failed(_) => 12,
            Event::Waiting => 13,
            Event::Resumed => 14,
            Event::Done => 15,
            Event::NotSent(_) => 16,
        }
    }

    /// The number that an event tells, or 0.
    pub fn number(&self) -> u64
        ensures { result ≡ number_of self.now }
    {
        match self {
            Event::Sent(step) | Event::NotSent(step) => u64::from(*step),
            Event::Rows(count)
            | Event::Inserted(count)
            | Event::Updated(count)
            | Event::Deleted(count) => *count,
            Event::Warned(warning) => u64::from(warning_number(*warning)),
            Event::Failed(fault) => u64::from(fault_number(*fault)),
            Event::Row(_)
            | Event::Began
            | Event::Committed
            | Event::RolledBack
            | Event::Locked
            | Event::Set
            | Event::Waiting
            | Event::Resumed
            | Event::Done => 0,
        }
    }

    /// The values of the row that an event shows, or none.
    pub fn values(&self) -> &[Value]
        ensures { result.now ≡ values_of self.now }
    {
        match self {
            Event::Row(row) => row.values(),
            Event::Sent(_)
            | Event::Rows(_)
            | Event::Inserted(_)
            | Event::Updated(_)
            | Event::Deleted(_)
            | Event::Began
            | Event::Committed
            | Event::RolledBack
            | Event::Locked
            | Event::Set
            | Event::Warned(_)
            | Event::Failed(_)
            | Event::Waiting
            | Event::Resumed
            | Event::Done
            | Event::NotSent(_) => &[],
        }
    }
}
