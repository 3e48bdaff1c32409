//! Rows with their places, borrowed from where they lie.

ghost use Rattle.std.specs.Prelude.{◌≡◌, [], ◌∷◌, ◌++◌, IfOk, OnErr, OnOk, cond};
ghost use Rattle.statement_evaluation.specs.Effect.{sorted_by};

use crate::few::Few;
use crate::sorting::compare;
use bound_statements::SortKey;
use lock_modes::{Row, Value};
use std::alloc::{AllocError, Global};
use std::marker::Model;
use std::slice;

/// A row and where it lies, seen by contracts as its place and its values.
#[derive(Drop)]
pub struct Entry<'a> {
    table: u16,
    key: &'a Value,
    row: &'a Row,
}

impl<'a> Model for Entry<'a> {
    ghost use Rattle.lock_modes.specs.RowPlace.{RowPlace};
    ghost use Rattle.lock_modes.specs.Rows.{Tuple};

    ghost Value = { RowPlace × Tuple };

    ghost view = { λ e. ((e.table, e.key.now), e.row.now) };
}

impl<'a> Entry<'a> {
    /// The row at a key of the table with this number.
    pub fn new(table: u16, key: &'a Value, row: &'a Row) -> Entry<'a>
        ensures { result ≡ ((table, key.now), row.now) }
    {
        Entry { table, key, row }
    }

    /// The number of the table.
    pub fn table(&self) -> u16
        ensures { result ≡ self.now.0.0 }
    {
        self.table
    }

    /// The key at which the row lies.
    pub fn key(&self) -> &'a Value
        ensures { result.now ≡ self.now.0.1 }
    {
        self.key
    }

    /// The row itself.
    pub fn row(&self) -> &'a Row
        ensures { result.now ≡ self.now.1 }
    {
        self.row
    }
}

/// Entries in an order, seen by contracts as their list. One that was pushed alone takes no memory.
#[derive(Drop)]
pub struct Entries<'a> {
    items: Few<Entry<'a>>,
}

impl<'a> Model for Entries<'a> {
    ghost use Rattle.std.specs.Prelude.{List};
    ghost use Rattle.lock_modes.specs.RowPlace.{RowPlace};
    ghost use Rattle.lock_modes.specs.Rows.{Tuple};

    ghost Value = { List (RowPlace × Tuple) };

    ghost view = { λ e. e.items };
}

impl<'a> Entries<'a> {
    /// No entries.
    pub fn new(alloc: Global) -> Entries<'a>
        ensures { result ≡ [] }
    {
        Entries {
            items: Few::new(alloc),
        }
    }

    /// Adds an entry at the end if it passes. It fails for want of memory alone, and then the entries stay as they were.
    #[inline(always)]
    pub fn push_if(&mut self, passes: bool, entry: Entry<'a>) -> Result<(), AllocError>
        ensures pushed { OnOk result (self.new ≡ self.old ++ cond passes (entry.entry ∷ []) []) }
        ensures refused { OnErr result (self.new ≡ self.old) }
    {
        if passes {
            self.items.push(entry)?;
        }
        Ok(())
    }

    /// The entries in their order.
    pub fn as_slice(&self) -> &[Entry<'a>]
        ensures { result.now ≡ self.now }
    {
        let (one, entries) = self.items.parts();
        if let Some(entry) = one {
            return slice::from_ref(entry);
        }
        entries
    }

    /// The entries by one column after another. Those that tie stay in their order. It fails for want of memory alone.
    pub fn sorted(self, keys: &[SortKey]) -> Result<Entries<'a>, AllocError>
        ensures { IfOk result (λ sorted. sorted ≡ sorted_by keys.now self.entry) }
    {
        let (one, mut items) = self.items.into_parts();
        if let Some(entry) = one {
            let items = Few::of_one(*items.allocator(), entry);
            return Ok(Entries { items });
        }
        items.sort_by(|x, y| compare(keys, x.row(), y.row()))?;
        Ok(Entries {
            items: Few::of_items(items),
        })
    }
}
