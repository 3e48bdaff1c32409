//! Rows with marks, as statements look at them.

use bound_statements::Condition;
use lock_modes::{Row, Value};
use marked_rows::MarkedRows;
use statement_evaluation::{Entries, Entry, holds};
use statement_execution::{Sight, number_after};
use std::alloc::{AllocError, Global};

/// Rows as one session sees them now, as if no other had written, and whatever they were at marks.
#[derive(Clone, Copy)]
pub(crate) struct MarkedSight<'a> {
    pub(crate) rows: &'a MarkedRows,
    pub(crate) session: u8,
}

impl<'a> Sight<'a> for MarkedSight<'a> {
    ghost use Rattle.row_tables.specs.Layers.{only};

    ghost layers = { λ s. only s.session s.rows.now.now };

    fn read(self, _session: u8, table: u16, key: &Value) -> Option<&'a Row> {
        self.rows.read(self.session, table, key)
    }

    fn matching_in(
        self,
        alloc: Global,
        _session: u8,
        table: u16,
        condition: &Condition,
    ) -> Result<Option<Entries<'a>>, AllocError> {
        let mut found = Entries::new(alloc);
        for (key, row) in self.rows.scan(self.session, table) {
            let Some(passes) = holds(row, condition) else {
                return Ok(None);
            };
            found.push_if(passes, Entry::new(table, key, row))?;
        }
        Ok(Some(found))
    }

    fn next_number(self, _session: u8, table: u16) -> u64 {
        let mut next = 1;
        for (key, _) in self.rows.scan(self.session, table) {
            next = number_after(key, next);
        }
        next
    }
}
