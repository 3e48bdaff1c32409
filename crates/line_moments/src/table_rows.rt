//! The rows of a table with their keys.

ghost use Rattle.std.specs.Prelude.{◌≡◌, IfOk};

use finite_maps::Fork;
use lock_modes::{Row, Value};
use row_tables::print_row;
use std::alloc::AllocError;
use std::hash::FoldHasher;
use std::marker::Model;
use std::sync::Arc;

/// Rows of a table with their keys, seen by contracts as the list of these pairs. A fork shares the list and copies nothing.
pub struct TableRows {
    rows: Arc<Vec<(Value, Row)>>,
}

// Written out and not derived, so that who owns one calls this and does not let its parts go one by one.
impl Drop for TableRows {
    fn drop(self) {
        let TableRows { rows: _rows } = self;
    }
}

impl Model for TableRows {
    ghost use Rattle.std.specs.Prelude.{List};
    ghost use Rattle.std.specs.Coded.{codes};
    ghost use Rattle.lock_modes.specs.Rows.{Tuple};
    ghost use Rattle.lock_modes.specs.declared.value.Value.{Value as Cell};
    ghost use Rattle.lock_modes.specs.contracts.value.Value as value;

    ghost Value = { List (Cell × Tuple) };

    ghost coded = { Prim.hlevel (codes, value.the_row.coded) };

    ghost view = { λ t. t.rows.value.items };
}

impl TableRows {
    /// These rows with their keys. It fails for want of memory alone.
    pub fn from_rows(rows: Vec<(Value, Row)>) -> Result<TableRows, AllocError>
        ensures { IfOk result (λ table. table ≡ rows.items) }
    {
        let alloc = *rows.allocator();
        Ok(TableRows {
            rows: Arc::new(alloc, rows)?,
        })
    }

    pub fn as_slice(&self) -> &[(Value, Row)]
        ensures { result.now ≡ self.now }
    {
        self.rows.as_slice()
    }

    /// Writes the values of the rows to a hasher, so that the same rows make the same number, and others seldom do.
    pub fn print(&self, hasher: &mut FoldHasher) {
        for entry in self.rows.as_slice() {
            print_row(hasher, &entry.1);
        }
    }
}

impl Fork for TableRows {
    fn fork(&self) -> Result<TableRows, AllocError> {
        Ok(TableRows {
            rows: self.rows.clone()?,
        })
    }
}
