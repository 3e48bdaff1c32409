//! Rows by table, and there by key, so that a look-up by a borrowed key takes no memory.

ghost use Rattle.std.specs.Prelude.{◌≡◌, IfOk};
ghost use Rattle.std.specs.Option.{option_copied};
ghost use Rattle.finite_maps.specs.Map as map;
ghost use Rattle.finite_maps.specs.Entries.{IsInOrder};
ghost use Rattle.lock_modes.specs.Value.{value_cmp};
ghost use Rattle.row_tables.specs.Overlay.{laid};
ghost use Rattle.row_tables.specs.Layers.{rows_of};
ghost use Rattle.row_tables.specs.Tables.{put_rows};

use crate::left::Left;
use crate::place::RowPlace;
use finite_maps::Fork;
use lock_modes::{Row, Value};
use std::alloc::{AllocError, Global};
use std::marker::Model;
use version_tree::{Iter, VMap};

/// Rows by table and key, in persistent versions. Contracts see their finite map.
pub(crate) struct Rows {
    tables: VMap<u16, VMap<Value, Row>>,
    /// The rows of a table that is not in `tables`.
    no_rows: VMap<Value, Row>,
}

// Written out and not derived, so that who owns one calls this and does not let its parts go one by one.
impl Drop for Rows {
    fn drop(self) {
        let Rows {
            tables: _tables,
            no_rows: _no_rows,
        } = self;
    }
}

impl Model for Rows {
    ghost use Rattle.std.specs.Prelude.{◌≡◌, []};
    ghost use Rattle.std.specs.Coded.{codes};
    ghost use Rattle.finite_maps.specs.Codes.{map_code};
    ghost use Rattle.lock_modes.specs.contracts.value.Value as value;
    ghost use Rattle.lock_modes.specs.Rows.{Rows'};
    ghost use Rattle.row_tables.specs.Tables.{rows_of_tables};

    ghost Value = { Rows' };

    ghost coded = { Prim.hlevel (codes, map_code, value.the_row.coded) };

    ghost view = { λ r. rows_of_tables r.tables };

    ghost invariant = { λ r. r.no_rows ≡ [] };
}

impl Rows {
    /// No rows.
    pub fn new(alloc: Global) -> Rows
        ensures { result ≡ map.empty }
    {
        Rows {
            tables: VMap::new(alloc),
            no_rows: VMap::new(alloc),
        }
    }

    /// The rows of a table by their keys.
    fn table(&self, table: u16) -> &VMap<Value, Row>
        ensures rows { result.now ≡ rows_of table self.now }
        ensures in_order { IsInOrder value_cmp result.now }
    {
        let rows = match self.tables.get(&table) {
            Some(rows) => rows,
            None => &self.no_rows,
        };
        let _in_order = rows.len(); // for the proof
        rows
    }

    pub fn get(&self, table: u16, key: &Value) -> Option<&Row>
        ensures { option_copied result ≡ map.get self.now (table, key.now) }
    {
        self.table(table).get(key)
    }

    /// The rows of a table in the order of their keys.
    pub fn scan(&self, table: u16) -> Iter<'_, Value, Row>
        ensures rows { result ≡ rows_of table self.now }
        ensures in_order { IsInOrder value_cmp result }
    {
        self.table(table).iter()
    }

    /// What stands at a place.
    pub fn left_at(&self, place: &RowPlace) -> Result<Left, AllocError>
        ensures { IfOk result (λ left. left ≡ map.get self.now place.now) }
    {
        match self.get(place.table(), place.key()) {
            Some(row) => Ok(Left::new(Some(row.fork()?))),
            None => Ok(Left::new(None)),
        }
    }

    /// The rows with what is left at a place.
    pub fn replaced(&self, place: RowPlace, left: Left) -> Result<Rows, AllocError>
        ensures { IfOk result (λ rows. rows ≡ laid place left self.now) }
    {
        let (table, key) = place.into_parts();
        match left.into_row() {
            Some(row) => self.put(table, key, row),
            None => self.without(table, &key),
        }
    }

    /// The rows with a row at a key of a table.
    fn put(&self, table: u16, key: Value, row: Row) -> Result<Rows, AllocError>
        ensures { IfOk result (λ rows. rows ≡ map.insert self.now (table, key) row) }
    {
        let rows = self.table(table).put(key, row)?;
        self.with_table(table, rows)
    }

    /// The rows with none at a key of a table.
    fn without(&self, table: u16, key: &Value) -> Result<Rows, AllocError>
        ensures { IfOk result (λ rows. rows ≡ map.remove self.now (table, key.now)) }
    {
        let rows = self.table(table).without(key)?;
        self.with_table(table, rows)
    }

    /// The rows with these in place of those of a table.
    fn with_table(&self, table: u16, rows: VMap<Value, Row>) -> Result<Rows, AllocError>
        ensures { IfOk result (λ new. new ≡ put_rows table rows self.now) }
    {
        let tables = self.tables.put(table, rows)?;
        let no_rows = self.no_rows.fork()?;
        Ok(Rows { tables, no_rows })
    }
}

impl Fork for Rows {
    fn fork(&self) -> Result<Rows, AllocError> {
        let tables = self.tables.fork()?;
        let no_rows = self.no_rows.fork()?;
        Ok(Rows { tables, no_rows })
    }
}
