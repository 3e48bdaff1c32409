//! Binds INSERT: values are put into the order of the table's columns.

ghost use Rattle.std.specs.Prelude.{◌≡◌, ◌==◌, ◌∷◌, [], map, IfOk};
ghost use Rattle.std.specs.List.{list_any};
ghost use Rattle.sql_grammar.specs.Views.{chain_of, chain_by, option_by};
ghost use Rattle.binding_model.specs.Names.{list_of, repeats};
ghost use Rattle.binding_model.specs.Refusals.{Binds, each};
ghost use Rattle.binding_model.specs.Statements as spec;
ghost use Rattle.binding_model.specs.Statements.{numbers_from};
ghost use Rattle.binding_model.specs.Tables as tables;
ghost use Rattle.binding_model.specs.Types as types;

use crate::expressions::value;
use crate::types::row_mixes;
use binding_model::{BindErrorKind, BindStop, Table, refused};
use bound_statements::Bound;
use finite_maps::Fork;
use lock_modes::{Row, Text, Value};
use sql_grammar::{Chain, Insert, Literal};
use sqlite_items::Items;
use std::alloc::{AllocError, Global};

/// The numbers of all columns.
pub(crate) fn all_columns(alloc: Global, table: &Table) -> Result<Vec<u16>, AllocError>
    ensures { IfOk result (λ all. all.items ≡ numbers_from 0 (tables.width table.now)) }
{
    let mut all = Vec::new(alloc);
    for number in 0..table.width() {
        all.push(number as u16)?;
    }
    Ok(all)
}

/// The numbers of the columns with these names.
#[tactic(auto, using(crate::proofs::ChainLemmas::chains))]
pub(crate) fn columns(
    alloc: Global,
    table: &Table,
    at: usize,
    names: &Chain<Text>,
) -> Result<Vec<u16>, BindStop>
    ensures { Binds (λ all. all.items) result (each (tables.column table.now at) (list_of (chain_of names.now))) }
{
    let mut all = Vec::new(alloc);
    all.push(table.column(at, names.first.as_str())?)?;
    for name in names.more.as_slice() {
        all.push(table.column(at, name.as_str())?)?;
    }
    Ok(all)
}

/// The columns of the rows, as they are written.
fn row_columns(
    alloc: Global,
    table: &Table,
    at: usize,
    names: &Option<Chain<Text>>,
) -> Result<Vec<u16>, BindStop>
    ensures { Binds (λ all. all.items) result (spec.row_columns table.now at (option_by chain_of names.now)) }
{
    match names {
        Some(names) => columns(alloc, table, at, names),
        None => Ok(all_columns(alloc, table)?),
    }
}

#[tactic(auto, using(crate::proofs::ChainLemmas::chains))]
fn row_values(alloc: Global, at: usize, row: &Chain<Literal>) -> Result<Row, BindStop>
    ensures { Binds (λ row. row) result (spec.row_values at (chain_of row.now)) }
{
    let mut values = Vec::new(alloc);
    values.push(value(alloc, at, &row.first)?)?;
    for literal in row.more.as_slice() {
        values.push(value(alloc, at, literal)?)?;
    }
    Ok(Row::from_values(values)?)
}

fn rows_values(alloc: Global, at: usize, rows: &Chain<Chain<Literal>>) -> Result<Vec<Row>, BindStop>
    ensures { Binds (λ all. all.items) result (each (λ row. spec.row_values at (chain_of row)) (rows.now.first ∷ rows.now.more)) }
{
    let mut all = Vec::new(alloc);
    all.push(row_values(alloc, at, &rows.first)?)?;
    for row in rows.more.as_slice() {
        all.push(row_values(alloc, at, row)?)?;
    }
    Ok(all)
}

fn contains(numbers: &[u16], number: u16) -> bool
    ensures { result ≡ list_any (λ other. other == number) numbers.now }
{
    numbers.iter().any(|other| *other == number)
}

/// Whether a number stands twice. Each is looked for among those before it, so this is quadratic, in what a spec file has room for.
pub(crate) fn repeats(numbers: &[u16]) -> bool
    ensures { result ≡ repeats [] numbers.now }
{
    for (n, number) in numbers.iter().enumerate() {
        if contains(&numbers[..n], *number) {
            return true;
        }
    }
    false
}

fn stands_at(columns: &[u16], column: u16) -> Option<usize>
    ensures { result ≡ spec.stands_at columns.now column }
{
    columns.iter().position(|other| *other == column)
}

/// Where a column stands among the columns of the rows.
fn place_of(columns: &[u16], column: u16) -> usize
    ensures { result ≡ spec.place_of columns.now column }
{
    match stands_at(columns, column) {
        Some(place) => place,
        None => 0,
    }
}

/// For each column of the table the place of its value.
fn places(alloc: Global, table: &Table, columns: &[u16]) -> Result<Vec<usize>, AllocError>
    ensures { IfOk result (λ all. all.items ≡ spec.places table.now columns.now) }
{
    let mut all = Vec::new(alloc);
    for column in all_columns(alloc, table)? {
        all.push(place_of(columns, column))?;
    }
    Ok(all)
}

fn value_at(row: &[Value], place: usize) -> Result<Value, AllocError>
    ensures { IfOk result (λ value. value ≡ spec.value_at row.now place) }
{
    match row.get(place) {
        Some(value) => value.fork(),
        None => Ok(Value::Int(0)),
    }
}

fn at_places(alloc: Global, places: &[usize], row: &[Value]) -> Result<Row, AllocError>
    ensures { IfOk result (λ new. new ≡ spec.at_places places.now row.now) }
{
    let mut values = Vec::new(alloc);
    for place in places {
        values.push(value_at(row, *place)?)?;
    }
    Ok(Row::from_values(values)?)
}

fn rows_at_places(alloc: Global, places: &[usize], rows: &[Row]) -> Result<Items<Row>, AllocError>
    ensures { IfOk result (λ new. new ≡ map (spec.at_places places.now) rows.now) }
{
    let mut all = Vec::new(alloc);
    for row in rows {
        all.push(at_places(alloc, places, row.values())?)?;
    }
    Ok(Items::from_vec(all))
}

fn has_other_width(width: usize, rows: &[Row]) -> bool
    ensures { result ≡ spec.has_other_width width rows.now }
{
    rows.iter().any(|row| row.values().len() != width)
}

/// Whether the columns are not all of the table, each once, or a row has not a value for each.
fn rows_miscount(table: &Table, columns: &[u16], rows: &[Row]) -> bool
    ensures { result ≡ spec.rows_miscount table.now columns.now rows.now }
{
    let width = table.width();
    columns.len() != width || repeats(columns) || has_other_width(width, rows)
}

fn rows_mix(table: &Table, columns: &[u16], rows: &[Row]) -> bool
    ensures { result ≡ list_any (types.row_mixes table.now columns.now) rows.now }
{
    rows.iter()
        .any(|row| row_mixes(table, columns, row.values()))
}

fn insert_rows(
    alloc: Global,
    table: &Table,
    at: usize,
    number: u16,
    columns: &[u16],
    rows: &[Row],
) -> Result<Bound, BindStop>
    ensures { Binds (λ bound. bound) result (spec.insert_rows table.now at number columns.now rows.now) }
{
    if rows_mix(table, columns, rows) {
        return Err(refused(at, BindErrorKind::TypeMismatch));
    }
    if rows_miscount(table, columns, rows) {
        return Err(refused(at, BindErrorKind::WrongCount));
    }
    let places = places(alloc, table, columns)?;
    let rows = rows_at_places(alloc, &places, rows)?;
    Ok(Bound::Insert(number, table.key(), rows))
}

/// Binds an INSERT that begins at this offset.
#[tactic(auto, using(crate::proofs::ChainLemmas::chains))]
pub(crate) fn insert(
    alloc: Global,
    table: &Table,
    at: usize,
    number: u16,
    statement: &Insert,
) -> Result<Bound, BindStop>
    ensures { Binds (λ bound. bound) result
        (spec.insert table.now at number (option_by chain_of statement.now.columns) (chain_by chain_of statement.now.rows)) }
{
    let columns = row_columns(alloc, table, at, &statement.columns)?;
    let rows = rows_values(alloc, at, &statement.rows)?;
    insert_rows(alloc, table, at, number, &columns, &rows)
}
