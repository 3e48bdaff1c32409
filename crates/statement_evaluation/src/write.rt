//! What a statement writes.

ghost use Rattle.std.specs.Prelude.{◌≡◌, [], ◌∷◌, ◌++◌, MatchOption, OnErr, OnOk, length};
ghost use Rattle.lock_modes.specs.Rows as rows;

use crate::few::Few;
use lock_modes::{Row, Value};
use std::alloc::{AllocError, Global};
use std::marker::Model;

/// A row, or none, that a statement leaves at a place.
pub struct Write {
    table: u16,
    key: Value,
    left: Option<Row>,
}

// Written out and not derived, so that who owns one calls this and does not let its parts go one by one.
impl Drop for Write {
    fn drop(self) {
        let Write {
            table: _,
            key: _key,
            left: _left,
        } = self;
    }
}

impl Model for Write {
    ghost use Rattle.lock_modes.specs.Rows as rows;

    ghost Value = { rows.Write };

    ghost view = { λ w. record { place = (w.table, w.key); left = w.left } };
}

impl Write {
    /// A row, or none, that is left at a key of the table with this number.
    pub fn new(table: u16, key: Value, left: Option<Row>) -> Write
        ensures { result ≡ record { place = (table, key); left = left } }
    {
        Write { table, key, left }
    }

    /// The number of the table, the key, and what is left there.
    pub fn into_parts(self) -> (u16, Value, Option<Row>)
        ensures place { (result.0, result.1) ≡ self.place }
        ensures left { result.2 ≡ self.left }
    {
        let Write { table, key, left } = self;
        (table, key, left)
    }
}

/// Writes in their order, seen by contracts as their list. One that was pushed alone takes no memory.
#[derive(Drop)]
pub struct Writes {
    items: Few<Write>,
}

impl Model for Writes {
    ghost use Rattle.std.specs.Prelude.{List};
    ghost use Rattle.lock_modes.specs.Rows as rows;

    ghost Value = { List rows.Write };

    ghost view = { λ w. w.items };
}

impl Writes {
    /// No writes.
    pub fn new(alloc: Global) -> Writes
        ensures { result ≡ [] }
    {
        Writes {
            items: Few::new(alloc),
        }
    }

    /// Adds a write at the end. It fails for want of memory alone, and then the writes stay as they were.
    pub fn push(&mut self, write: Write) -> Result<(), AllocError>
        ensures pushed { OnOk result (self.new ≡ self.old ++ write ∷ []) }
        ensures refused { OnErr result (self.new ≡ self.old) }
    {
        self.items.push(write)?;
        Ok(())
    }

    /// How many writes there are.
    pub fn len(&self) -> usize
        ensures { result ≡ length self.now }
    {
        self.items.len()
    }

    /// The write that is kept alone, or else all writes in their order.
    pub fn into_parts(self) -> (Option<Write>, Vec<Write>)
        ensures { MatchOption result.0 (self ≡ result.1.items) (λ write. self ≡ write ∷ []) }
    {
        self.items.into_parts()
    }
}
