ghost use Rattle.std.specs.Prelude.{◌≡◌, IfOk, OnOk, OnErr};
ghost use Rattle.std.specs.Option.{option_copied, unwrap_or};
ghost use Rattle.std.specs.FinMap.Entries.{find};
ghost use Rattle.finite_maps.specs.Map.{get, empty};
ghost use Rattle.finite_maps.specs.Entries.{IsInOrder};
ghost use Rattle.lock_modes.specs.Value.{value_cmp};
ghost use Rattle.lock_modes.specs.declared.value.Value.{Value as Key};
ghost use Rattle.row_tables.specs.Overlay.{laid};
ghost use Rattle.row_tables.specs.Undo.{noted};
ghost use Rattle.row_tables.specs.Layers.{sight, rows_of, no_rows, IsOnlyWriterAt, IsOnlyWriterIn, only, wrote, undone, undone_unless, kept};

use crate::left::Left;
use crate::place::RowPlace;
use crate::rows::Rows;
use crate::undo::{UndoList, UndoLists};
use finite_maps::Fork;
use lock_modes::{Row, Value};
use std::alloc::{AllocError, Global};
use std::marker::Model;
use version_tree::Iter;

/// The rows of all tables. Contracts see committed rows and for each session an overlay; what is kept is the rows as
/// they were written last, and for each session a list that undoes its writes.
pub struct Store {
    rows: Rows,
    undo: UndoLists,
}

// Written out and not derived, so that who owns one calls this and does not let its parts go one by one.
impl Drop for Store {
    fn drop(self) {
        let Store {
            rows: _rows,
            undo: _undo,
        } = self;
    }
}

impl Model for Store {
    ghost use Rattle.std.specs.Coded.{codes};
    ghost use Rattle.finite_maps.specs.Codes.{map_code};
    ghost use Rattle.lock_modes.specs.contracts.value.Value as value;
    ghost use Rattle.row_tables.specs.Layers.{Layers};
    ghost use Rattle.row_tables.specs.Undo.{layers, AreApart};

    ghost Value = { Layers };

    ghost coded = { Prim.hlevel (codes, map_code, value.the_row.coded) };

    ghost view = { λ s. layers s.rows s.undo };

    ghost invariant = { λ s. AreApart s.undo };
}

impl Store {
    /// A store without rows.
    pub fn new(alloc: Global) -> Store
        ensures { result ≡ no_rows }
    {
        Store {
            rows: Rows::new(alloc),
            undo: UndoLists::new(alloc),
        }
    }

    /// The row that a session sees at a key of a table. No other session may have a write there that is neither kept
    /// nor undone.
    pub fn read(&self, session: u8, table: u16, key: &Value) -> Option<&Row>
        requires { IsOnlyWriterAt session (table, key.now) self.now }
        ensures { option_copied result ≡ get (sight session self.now) (table, key.now) }
    {
        self.rows.get(table, key)
    }

    /// The rows of a table that a session sees, in the order of their keys. No other session may have a write in the
    /// table that is neither kept nor undone. It takes no memory.
    pub fn scan(&self, session: u8, table: u16) -> Iter<'_, Value, Row>
        requires { IsOnlyWriterIn session table self.now }
        ensures rows { result ≡ rows_of table (sight session self.now) }

        // Each row of the table comes once, in the order of the keys, and no row of another table comes.
        ensures in_order { IsInOrder value_cmp result }
        ensures each { (key : Key) → find value_cmp key result ≡ get (sight session self.now) (table, key) }
    {
        self.rows.scan(table)
    }

    /// The store as if no other session had written, of which the session sees the same.
    pub fn only(&self, session: u8) -> Result<Store, AllocError>
        ensures { IfOk result (λ store. store ≡ only session self.now) }
    {
        let mut store = self.fork()?;
        for (other, _) in self.undo.iter() {
            undo_unless(&mut store, session, *other)?;
        }
        Ok(store)
    }

    /// Leaves a row, or none, at a key of a table, seen by the session alone until it keeps its writes. No other session
    /// may have a write there that is neither kept nor undone. After a refusal nothing is changed.
    pub fn write(
        &mut self,
        session: u8,
        table: u16,
        key: Value,
        row: Option<Row>,
    ) -> Result<(), AllocError>
        requires { IsOnlyWriterAt session (table, key) self.old }
        ensures ok { OnOk result (self.new ≡ wrote session (table, key) row self.old) }
        ensures err { OnErr result (self.new ≡ self.old) }
    {
        let place = RowPlace::new(table, key);
        let (rows, list) = with_write(&self.rows, &self.undo, session, place, Left::new(row))?;
        self.undo.put(session, list)?;
        self.rows = rows;
        Ok(())
    }

    /// Drops what a session wrote. After a refusal nothing is changed.
    pub fn undo(&mut self, session: u8) -> Result<(), AllocError>
        ensures ok { OnOk result (self.new ≡ undone session self.old) }
        ensures err { OnErr result (self.new ≡ self.old) }
    {
        let Some(list) = self.undo.get(session) else {
            return Ok(());
        };
        let rows = list.restored(&self.rows)?;
        self.undo.remove(session);
        self.rows = rows;
        Ok(())
    }

    /// Makes what a session wrote committed. It takes no memory.
    pub fn keep(&mut self, session: u8)
        ensures { self.new ≡ kept session self.old }
    {
        self.undo.remove(session);
    }
}

/// The rows with what a session leaves at a place, and the session's undo list with the place.
fn with_write(
    rows: &Rows,
    undo: &UndoLists,
    session: u8,
    place: RowPlace,
    left: Left,
) -> Result<(Rows, UndoList), AllocError>
    ensures rows { IfOk result (λ made. made.0 ≡ laid place left rows.now) }
    ensures list { IfOk result (λ made. made.1 ≡ noted place rows.now (unwrap_or (get undo.now session) empty)) }
{
    let list = undo.noted(session, &place, rows)?;
    let rows = rows.replaced(place, left)?;
    Ok((rows, list))
}

/// Drops what another session wrote.
fn undo_unless(store: &mut Store, session: u8, other: u8) -> Result<(), AllocError>
    ensures { OnOk result (store.new ≡ undone_unless session other store.old) }
{
    if other == session {
        return Ok(());
    }
    store.undo(other)
}

impl Fork for Store {
    fn fork(&self) -> Result<Store, AllocError> {
        let rows = self.rows.fork()?;
        let undo = self.undo.fork()?;
        Ok(Store { rows, undo })
    }
}
