//! The committed rows of declared tables.

ghost use Rattle.std.specs.Prelude.{◌≡◌, ◌∷◌, [], length, option_map, IfOk, OnOk};
ghost use Rattle.row_tables.specs.Layers.{rows_of};
ghost use Rattle.session_machine.specs.Showing as spec;

use binding_model::{Column, Table};
use finite_maps::Fork;
use line_moments::{Left, TableRows};
use lock_modes::Text;
use row_tables::Store;
use sqlite_items::Items;
use std::alloc::{AllocError, Global};

/// The store without what so many sessions have written and not committed.
pub(crate) fn committed(store: &Store, count: u8) -> Result<Store, AllocError>
    ensures { IfOk result (spec.IsCommitted count store.now) }
{
    let mut left = store.fork()?;
    for session in 0..count {
        left.undo(session)?;
    }
    Ok(left)
}

/// The rows of a table, in the order of their keys.
fn rows_in(alloc: Global, store: &Store, table: u16) -> Result<TableRows, AllocError>
    requires { spec.NothingOpen store.now }
    ensures { IfOk result (λ rows. rows ≡ rows_of table store.now.committed) }
{
    let mut rows = Vec::new(alloc);
    for (key, row) in store.scan(0, table) {
        let key = key.fork()?;
        let row = row.fork()?;
        rows.push((key, row))?;
    }
    let table = TableRows::from_rows(rows)?;
    Ok(table)
}

fn copied_columns(alloc: Global, columns: &[Column]) -> Result<Items<Column>, AllocError>
    ensures { IfOk result (λ copies. copies ≡ columns.now) }
{
    let mut copies = Items::new(alloc);
    for column in columns {
        let name = column.name.fork()?;
        copies.push(Column {
            name,
            kind: column.kind,
        })?;
    }
    Ok(copies)
}

fn copied_name(name: &Option<Text>) -> Result<Option<Text>, AllocError>
    ensures { IfOk result (λ copy. copy ≡ name.now) }
{
    match name {
        None => Ok(None),
        Some(name) => {
            let name = name.fork()?;
            Ok(Some(name))
        }
    }
}

fn copied(alloc: Global, table: &Table) -> Result<Table, AllocError>
    ensures { IfOk result (λ copy. copy ≡ table.now) }
{
    let name = table.name.fork()?;
    let columns = copied_columns(alloc, table.columns.as_slice())?;
    let key = copied_name(&table.key)?;
    Ok(Table { name, columns, key })
}

/// What is left of the table with this number.
fn left_of(alloc: Global, store: &Store, table: &Table, number: usize) -> Result<Left, AllocError>
    requires { spec.NothingOpen store.now }
    ensures { IfOk result (λ left. left ≡ record { table = table.now; rows = rows_of number store.now.committed }) }
{
    // No file has room for so many tables.
    let Ok(number) = u16::try_from(number) else {
        return Err(AllocError);
    };
    let table = copied(alloc, table)?;
    let rows = rows_in(alloc, store, number)?;
    Ok(Left { table, rows })
}

/// What is left of these tables, where nothing is open.
pub(crate) fn lefts_of(
    alloc: Global,
    store: &Store,
    tables: &[Table],
) -> Result<Items<Left>, AllocError>
    requires { spec.NothingOpen store.now }
    ensures { IfOk result (λ left. left ≡ spec.lefts_from 0 tables.now store.now.committed) }
{
    let mut all = Items::new(alloc);
    for number in 0..tables.len() {
        let left = left_of(alloc, store, &tables[number], number)?;
        all.push(left)?;
    }
    Ok(all)
}
