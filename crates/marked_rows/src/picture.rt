//! The rows of all tables as they were, to be compared with what they are later.

ghost use Rattle.std.specs.Prelude.{◌≡◌, ◌≤◌, ◌++◌, All, IfOk, IfSome, IsTrue, OnOk, length, map, take};
ghost use Rattle.std.specs.Vec.{vec_items};
ghost use Rattle.marked_rows.specs.Cells.{layers_of, row_with};
ghost use Rattle.marked_rows.specs.Kept.{HasRows, IsLeft, IsNumber};
ghost use Rattle.marked_rows.specs.Picture.{left_with, pictured, pictured_from, pictured_in};

use crate::cell::{Cell, Left};
use crate::cells::cell_in;
use crate::places::{KeyedCell, Places};
use crate::pool::RowPool;
use finite_maps::Fork;
use lock_modes::{Row, Value};
use std::alloc::{AllocError, Global};
use std::marker::Model;
use std::sync::Arc;

/// The rows of all tables and what sessions had left there, as they were when it was taken. Contracts see the layers. A fork shares them and copies
/// nothing.
#[derive(Drop)]
pub struct RowsPicture {
    /// What lay at each place where something was ever written, by table and key.
    cells: Arc<Vec<PicturedCell>>,
}

/// What lay at a place.
#[derive(Drop)]
pub(crate) struct PicturedCell {
    table: usize,
    key: Value,
    committed: Option<Row>,
    left: Option<PicturedLeft>,
}

/// What a session had left at a place: a row, or none.
#[derive(Drop)]
pub(crate) struct PicturedLeft {
    session: u8,
    row: Option<Row>,
}

impl Model for RowsPicture {
    ghost use Rattle.std.specs.Coded.{codes};
    ghost use Rattle.finite_maps.specs.Codes.{map_code};
    ghost use Rattle.lock_modes.specs.contracts.value.Value as value;
    ghost use Rattle.row_tables.specs.Layers.{Layers};
    ghost use Rattle.marked_rows.specs.Picture.{layers_in};

    ghost Value = { Layers };

    ghost coded = { Prim.hlevel (codes, map_code, value.the_row.coded) };

    ghost view = { λ p. layers_in p.cells.value.items };
}

impl RowsPicture {
    /// The picture of cells at their places.
    pub(crate) fn new(
        alloc: Global,
        places: &Places,
        cells: &[Cell],
        rows: &RowPool,
    ) -> Result<RowsPicture, AllocError>
        requires { All (HasRows rows.now.list) cells.now }
        ensures { IfOk result (λ picture. picture ≡ layers_of rows.now.list cells.now places.now.entries) }
    {
        let made = pictured_tables(alloc, places.tables(), cells, rows)?;
        let cells = shared(alloc, made)?;
        Ok(RowsPicture { cells })
    }

    /// Whether it is the picture of cells at their places.
    pub(crate) fn is_of(&self, places: &Places, cells: &[Cell], rows: &RowPool) -> bool
        requires { All (HasRows rows.now.list) cells.now }
        ensures { IsTrue result → layers_of rows.now.list cells.now places.now.entries ≡ self.now }
    {
        are_pictured(places.tables(), cells, rows, self.cells.as_slice())
    }
}

impl Fork for RowsPicture {
    fn fork(&self) -> Result<RowsPicture, AllocError> {
        Ok(RowsPicture {
            cells: self.cells.clone()?,
        })
    }
}

fn shared(alloc: Global, cells: Vec<PicturedCell>) -> Result<Arc<Vec<PicturedCell>>, AllocError>
    ensures { IfOk result (λ shared. shared.value ≡ cells) }
{
    Ok(Arc::new(alloc, cells)?)
}

/// What lies at the keys of tables, table behind table.
fn pictured_tables(
    alloc: Global,
    tables: &[Vec<KeyedCell>],
    cells: &[Cell],
    rows: &RowPool,
) -> Result<Vec<PicturedCell>, AllocError>
    requires { All (HasRows rows.now.list) cells.now }
    ensures { IfOk result (λ made. made.items ≡ pictured_from rows.now.list cells.now 0 (map vec_items tables.now)) }
{
    let mut made = Vec::with_capacity(alloc, cells.len())?;
    for table in 0..tables.len() {
        add_table(&mut made, table, tables[table].as_slice(), cells, rows)?;
    }
    Ok(made)
}

/// Adds what lies at the keys of a table.
fn add_table(
    made: &mut Vec<PicturedCell>,
    table: usize,
    keys: &[KeyedCell],
    cells: &[Cell],
    rows: &RowPool,
) -> Result<(), AllocError>
    requires { All (HasRows rows.now.list) cells.now }
    ensures { OnOk result (made.new.items ≡ made.old.items ++ pictured_in rows.now.list cells.now table keys.now) }
{
    for index in 0..keys.len() {
        let key = &keys[index];
        let cell = cell_in(cells, key.cell);
        made.push(picture_of(table, &key.key, &cell, rows)?)?;
    }
    Ok(())
}

/// What lies at a key of a table.
fn picture_of(
    table: usize,
    key: &Value,
    cell: &Cell,
    rows: &RowPool,
) -> Result<PicturedCell, AllocError>
    requires { HasRows rows.now.list cell.now }
    ensures { IfOk result (λ made. made ≡ pictured rows.now.list table key.now cell.now) }
{
    let committed = row_of(cell.committed, rows)?;
    let left = left_of(cell.left, rows)?;
    let key = key.fork()?;
    Ok(PicturedCell {
        table,
        key,
        committed,
        left,
    })
}

/// What a session has left, with the row in the place of its number.
fn left_of(left: Option<Left>, rows: &RowPool) -> Result<Option<PicturedLeft>, AllocError>
    requires { IsLeft rows.now.list left }
    ensures { IfOk result (λ made. made ≡ left_with rows.now.list left) }
{
    match left {
        None => Ok(None),
        Some(left) => Ok(Some(PicturedLeft {
            session: left.session,
            row: row_of(left.row, rows)?,
        })),
    }
}

/// The row with a number, or none.
fn row_of(number: Option<usize>, rows: &RowPool) -> Result<Option<Row>, AllocError>
    requires { IsNumber rows.now.list number }
    ensures { IfOk result (λ row. row ≡ row_with rows.now.list number) }
{
    match number {
        None => Ok(None),
        Some(number) => Ok(Some(rows.get(number).fork()?)),
    }
}

/// Whether what lies at the keys of tables is what is pictured.
fn are_pictured(
    tables: &[Vec<KeyedCell>],
    cells: &[Cell],
    rows: &RowPool,
    picture: &[PicturedCell],
) -> bool
    requires { All (HasRows rows.now.list) cells.now }
    ensures { IsTrue result → picture.now ≡ pictured_from rows.now.list cells.now 0 (map vec_items tables.now) }
{
    let mut passed = 0;
    for table in 0..tables.len() {
        match table_behind(
            table,
            tables[table].as_slice(),
            cells,
            rows,
            picture,
            passed,
        ) {
            Some(behind) => passed = behind,
            None => return false,
        }
    }
    passed == picture.len()
}

/// Where a picture goes on behind what lies at the keys of a table, none where it is not pictured from one index on.
fn table_behind(
    table: usize,
    keys: &[KeyedCell],
    cells: &[Cell],
    rows: &RowPool,
    picture: &[PicturedCell],
    from: usize,
) -> Option<usize>
    requires { All (HasRows rows.now.list) cells.now }
    ensures { IfSome result (λ behind. take behind picture.now ≡ take from picture.now ++ pictured_in rows.now.list cells.now table keys.now) }
{
    let mut passed = from;
    for index in 0..keys.len() {
        if passed >= picture.len() {
            return None;
        }
        let key = &keys[index];
        let cell = cell_in(cells, key.cell);
        if !is_pictured(table, &key.key, &cell, rows, &picture[passed]) {
            return None;
        }
        passed += 1;
    }
    Some(passed)
}

/// Whether what lies at a key of a table is what is pictured.
fn is_pictured(
    table: usize,
    key: &Value,
    cell: &Cell,
    rows: &RowPool,
    picture: &PicturedCell,
) -> bool
    requires { HasRows rows.now.list cell.now }
    ensures { IsTrue result → picture.now ≡ pictured rows.now.list table key.now cell.now }
{
    picture.table == table
        && is_same_left(cell.left, rows, &picture.left)
        && is_same_row(cell.committed, rows, &picture.committed)
        && is_same_value(&picture.key, key)
}

/// Whether what a session has left is what is pictured.
fn is_same_left(left: Option<Left>, rows: &RowPool, picture: &Option<PicturedLeft>) -> bool
    requires { IsLeft rows.now.list left }
    ensures { IsTrue result → picture.now ≡ left_with rows.now.list left }
{
    match (left, picture) {
        (None, None) => true,
        (Some(left), Some(picture)) => {
            picture.session == left.session && is_same_row(left.row, rows, &picture.row)
        }
        (_, _) => false,
    }
}

/// Whether the row with a number, or none, is this one.
fn is_same_row(number: Option<usize>, rows: &RowPool, row: &Option<Row>) -> bool
    requires { IsNumber rows.now.list number }
    ensures { IsTrue result → row.now ≡ row_with rows.now.list number }
{
    match (number, row) {
        (None, None) => true,
        (Some(number), Some(row)) => are_same_values(row.values(), rows.get(number).values()),
        (_, _) => false,
    }
}

/// Whether values are these.
fn are_same_values(values: &[Value], others: &[Value]) -> bool
    ensures { IsTrue result → values.now ≡ others.now }
{
    if values.len() != others.len() {
        return false;
    }
    for index in 0..values.len() {
        if !is_same_value(&values[index], &others[index]) {
            return false;
        }
    }
    true
}

/// Whether two values are one.
fn is_same_value(value: &Value, other: &Value) -> bool
    ensures { IsTrue result → value.now ≡ other.now }
{
    value.cmp(other).is_eq()
}
