//! A store as statements look at it.

use crate::insert::number_after;
use crate::sights::Sight;
use bound_statements::Condition;
use lock_modes::{Row, Value};
use row_tables::Store;
use statement_evaluation::{Entries, Entry, holds};
use std::alloc::{AllocError, Global};

impl<'a> Sight<'a> for &'a Store {
    ghost layers = { λ s. s.now };

    fn read(self, session: u8, table: u16, key: &Value) -> Option<&'a Row> {
        Store::read(self, session, table, key)
    }

    fn matching_in(
        self,
        alloc: Global,
        session: u8,
        table: u16,
        condition: &Condition,
    ) -> Result<Option<Entries<'a>>, AllocError> {
        let mut found = Entries::new(alloc);
        for (key, row) in self.scan(session, table) {
            let Some(passes) = holds(row, condition) else {
                return Ok(None);
            };
            found.push_if(passes, Entry::new(table, key, row))?;
        }
        Ok(Some(found))
    }

    fn next_number(self, session: u8, table: u16) -> u64 {
        let mut next = 1;
        for (key, _) in self.scan(session, table) {
            next = number_after(key, next);
        }
        next
    }
}
