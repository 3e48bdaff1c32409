//! What is shown of a line: what it begins with, its moments, and what it leaves.

ghost use Rattle.std.specs.Prelude.{◌≡◌};
ghost use Rattle.line_moments.specs.Left.{standing_by};

use crate::moment::Moment;
use crate::table_rows::TableRows;
use binding_model::Table;
use lock_modes::{Mode, Resource};
use lock_queues::Want;
use machine_model::Status;
use sqlite_items::Items;

/// A declared table with its committed rows, in the order of their keys. A table without a key keeps its rows at numbers, in the
/// order in which they were inserted.
pub struct Left {
    pub table: Table,
    pub rows: TableRows,
}

// Written out and not derived, so that who owns one calls this and does not let its parts go one by one.
impl Drop for Left {
    fn drop(self) {
        let Left {
            table: _table,
            rows: _rows,
        } = self;
    }
}

/// How a session stands.
pub enum Standing {
    /// It is in no transaction.
    HasEnded,
    /// It is in a transaction.
    IsOpen,
    /// It is in a block that has failed.
    HasFailed,
    /// It waits.
    StillWaits(Want),
}

// Written out and not derived, so that who owns one calls this and does not let its parts go one by one.
impl Drop for Standing {
    fn drop(self) {
        match self {
            Standing::HasEnded => {}
            Standing::IsOpen => {}
            Standing::HasFailed => {}
            Standing::StillWaits(_want) => {}
        }
    }
}

impl Standing {
    /// How a session stands that wants this, if it waits, and whose block stands so.
    pub fn new(want: Option<Want>, status: Status) -> Standing
        ensures { result ≡ standing_by want status }
    {
        match want {
            Some(want) => Standing::StillWaits(want),
            None => match status {
                Status::Outside => Standing::HasEnded,
                Status::InBlock(_) => Standing::IsOpen,
                Status::Broken => Standing::HasFailed,
            },
        }
    }
}

/// How a session stands before the first step, and what it holds, in the order of resources.
#[derive(Drop)]
pub struct Begun {
    pub status: Status,
    pub locks: Items<(Resource, Mode)>,
}

/// What is shown of a line.
pub struct Shown {
    /// Of each session, in their order.
    pub begun: Items<Begun>,
    /// What the setups left.
    pub first: Items<Left>,
    pub moments: Items<Moment>,
    /// What the line leaves.
    pub left: Items<Left>,
    /// Of each session, in their order.
    pub standings: Items<Standing>,
}

// Written out and not derived, so that who owns one calls this and does not let its parts go one by one.
impl Drop for Shown {
    fn drop(self) {
        let Shown {
            begun: _begun,
            first: _first,
            moments: _moments,
            left: _left,
            standings: _standings,
        } = self;
    }
}
