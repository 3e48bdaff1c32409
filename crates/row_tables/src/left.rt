ghost use Rattle.std.specs.Prelude.{◌≡◌};

use finite_maps::Fork;
use lock_modes::Row;
use std::alloc::AllocError;
use std::marker::Model;

/// What is left at a place, a row or none. Contracts see the option.
pub(crate) struct Left {
    row: Option<Row>,
}

// Written out and not derived, so that who owns one calls this and does not let its parts go one by one.
impl Drop for Left {
    fn drop(self) {
        let Left { row: _row } = self;
    }
}

impl Model for Left {
    ghost use Rattle.std.specs.Prelude.{Option};
    ghost use Rattle.lock_modes.specs.Rows.{Tuple};

    ghost Value = { Option Tuple };

    ghost view = { λ l. l.row };
}

impl Left {
    pub fn new(row: Option<Row>) -> Left
        ensures { result ≡ row }
    {
        Left { row }
    }

    pub fn into_row(self) -> Option<Row>
        ensures { result ≡ self }
    {
        let Left { row } = self;
        row
    }
}

impl Fork for Left {
    fn fork(&self) -> Result<Left, AllocError> {
        match &self.row {
            None => Ok(Left { row: None }),
            Some(row) => {
                let row = row.fork()?;
                Ok(Left { row: Some(row) })
            }
        }
    }
}
