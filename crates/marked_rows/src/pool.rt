//! Rows by their numbers, with marks to go back to.

ghost use Rattle.std.specs.Prelude.{◌≡◌, ◌∷◌, ◌++◌, ◌<◌, [], length, slice_get, IfOk, OnErr, OnOk, Some};
ghost use Rattle.std.specs.Option.{option_to_list};
ghost use Rattle.marked_rows.specs.Cells.{row_with};
ghost use Rattle.marked_rows.specs.Kept.{IsNumber};

use lock_modes::Row;
use row_tables::row_bytes;
use std::alloc::{AllocError, Global};
use std::marker::Model;

/// Rows by their numbers, from 0 on. They become more alone, but where the pool goes back to a mark.
#[derive(Drop)]
pub(crate) struct RowPool {
    rows: Vec<Row>,
    /// How many rows there were at the marks that stand, the newest last.
    marks: Vec<usize>,
    /// So many of the rows, the first ones, were counted.
    counted: usize,
}

impl Model for RowPool {
    ghost use Rattle.std.specs.Coded.{codes};
    ghost use Rattle.lock_modes.specs.Rows.{Tuple};
    ghost use Rattle.lock_modes.specs.contracts.value.Value as value;
    ghost use Rattle.marked_lists.specs.Versions.{Versions, versions_code};
    ghost use Rattle.marked_rows.specs.Pool.{IsPool, pool_of};

    ghost Value = { Versions Tuple };

    ghost coded = { versions_code (Prim.hlevel (codes, value.the_row.coded)) };

    ghost view = { λ p. pool_of p.rows.items p.marks.items };

    ghost invariant = { λ p. IsPool p.rows.items p.marks.items };
}

impl RowPool {
    /// No rows, and no mark.
    pub fn new(alloc: Global) -> RowPool
        ensures { result ≡ record { list = []; marked = [] } }
    {
        RowPool {
            rows: Vec::new(alloc),
            marks: Vec::new(alloc),
            counted: 0,
        }
    }

    /// The row with a number.
    pub fn get(&self, number: usize) -> &Row
        requires { number < length self.now.list }
        ensures { slice_get self.now.list number ≡ Some result.now }
    {
        &self.rows[number]
    }

    /// Takes a row in, or none, and gives its number. It fails for want of memory alone, and then all stays as it was.
    pub fn add(&mut self, row: Option<Row>) -> Result<Option<usize>, AllocError>
        ensures added { OnOk result (self.new ≡ record self.old { list = self.old.list ++ option_to_list row }) }
        ensures number { IfOk result (λ number. IsNumber self.new.list number × (row_with self.new.list number ≡ row)) }
        ensures refused { OnErr result (self.new ≡ self.old) }
    {
        match row {
            None => Ok(None),
            Some(row) => {
                let number = self.rows.len();
                self.rows.push(row)?;
                Ok(Some(number))
            }
        }
    }

    /// About how many bytes the rows take that were not counted yet, which are counted then: each row, its values and their texts.
    pub fn count(&mut self) -> usize
        ensures { self.new ≡ self.old }
    {
        let mut bytes: usize = 0;
        for number in self.counted..self.rows.len() {
            bytes = bytes.saturating_add(row_bytes(&self.rows[number]));
        }
        self.counted = self.rows.len();
        bytes
    }

    /// Sets a mark. It fails for want of memory alone, and then all stays as it was.
    pub fn mark(&mut self) -> Result<(), AllocError>
        ensures marked { OnOk result (self.new ≡ record self.old { marked = self.old.list ∷ self.old.marked }) }
        ensures refused { OnErr result (self.new ≡ self.old) }
    {
        let count = self.rows.len();
        self.marks.push(count)?;
        Ok(())
    }

    /// Goes back to the newest mark, which is gone then.
    pub fn go_back(&mut self)
        requires { 0 < length self.old.marked }
        ensures { self.old.marked ≡ self.new.list ∷ self.new.marked }
    {
        if let Some(count) = self.marks.pop() {
            self.rows.truncate(count);
            self.counted = self.counted.min(count);
        }
    }
}
