//! Binds declarations of tables.

ghost use Rattle.std.specs.Prelude.{◌≡◌, ◌++◌, ◌∷◌, [], bytes_eq, IfOk, OnOk};
ghost use Rattle.std.specs.List.{list_any};
ghost use Rattle.sql_grammar.specs.Views.{chain_of};
ghost use Rattle.binding_model.specs.Refusals.{Binds};
ghost use Rattle.binding_model.specs.Tables.{joined, repeated, keys_of, part_columns, part_keys, has_unknown, create};
ghost use Rattle.binding_model.specs.Tables as spec;

use binding_model::{
    BindErrorKind, BindStop, Column, MAX_COLUMNS, MAX_TABLES, Table, column_place, refused,
    table_place, type_of,
};
use lock_modes::Text;
use sql_grammar::{CreateTable, Property, SqlErrorKind, TablePart};
use sqlite_items::Items;
use std::alloc::{AllocError, Global};

fn copied(alloc: Global, text: &Text) -> Result<Text, AllocError>
    ensures { IfOk result (λ copy. copy ≡ text.now) }
{
    Text::from_str(alloc, text.as_str())
}

/// Adds the column's name for each PRIMARY KEY behind it.
fn push_keys(
    alloc: Global,
    name: &Text,
    properties: &[Property],
    keys: &mut Vec<Text>,
) -> Result<(), AllocError>
    ensures { OnOk result (keys.new.items ≡ keys.old.items ++ keys_of name.now properties.now) }
{
    for property in properties {
        match property {
            Property::PrimaryKey => keys.push(copied(alloc, name)?)?,
            Property::NotNull => {}
        }
    }
    Ok(())
}

/// Adds what a part declares.
fn push_part(
    alloc: Global,
    part: &TablePart,
    columns: &mut Vec<Column>,
    keys: &mut Vec<Text>,
) -> Result<(), AllocError>
    ensures columns { OnOk result (columns.new.items ≡ columns.old.items ++ part_columns part.now) }
    ensures keys { OnOk result (keys.new.items ≡ keys.old.items ++ part_keys part.now) }
{
    match part {
        TablePart::Column(name, word, properties) => {
            let kind = type_of(*word);
            columns.push(Column {
                name: copied(alloc, name)?,
                kind,
            })?;
            push_keys(alloc, name, properties.as_slice(), keys)
        }
        TablePart::Key(name) => {
            keys.push(copied(alloc, name)?)?;
            Ok(())
        }
    }
}

/// Adds what the parts declare.
fn push_parts(
    alloc: Global,
    parts: &[TablePart],
    columns: &mut Vec<Column>,
    keys: &mut Vec<Text>,
) -> Result<(), AllocError>
    ensures columns { OnOk result (columns.new.items ≡ columns.old.items ++ joined part_columns parts.now) }
    ensures keys { OnOk result (keys.new.items ≡ keys.old.items ++ joined part_keys parts.now) }
{
    for part in parts {
        push_part(alloc, part, columns, keys)?;
    }
    Ok(())
}

fn has_unknown(columns: &[Column], keys: &[Text]) -> bool
    ensures { result ≡ has_unknown columns.now keys.now }
{
    keys.iter()
        .any(|key| column_place(columns, key.as_str()).is_none())
}

fn is_named(columns: &[Column], name: &str) -> bool
    ensures { result ≡ list_any (λ column. bytes_eq name.now column.name) columns.now }
{
    columns.iter().any(|column| name == column.name.as_str())
}

/// Whether a name stands twice. Each is looked for among those before it, so this is quadratic, in what a spec file has room for.
fn has_repeated(columns: &[Column]) -> bool
    ensures { result ≡ repeated [] columns.now }
{
    for (n, column) in columns.iter().enumerate() {
        if is_named(&columns[..n], column.name.as_str()) {
            return true;
        }
    }
    false
}

/// Why a table is not declared, if it is not.
fn refusal(
    tables: &[Table],
    name: &Text,
    columns: &[Column],
    keys: &[Text],
) -> Option<BindErrorKind>
    ensures { result ≡ spec.refusal tables.now name.now columns.now keys.now }
{
    if columns.len() > MAX_COLUMNS || tables.len() >= MAX_TABLES {
        Some(BindErrorKind::Sql(SqlErrorKind::TooLarge))
    } else if has_unknown(columns, keys) {
        Some(BindErrorKind::UnknownColumn)
    } else if table_place(tables, name.as_str()).is_some() {
        Some(BindErrorKind::DuplicateTable)
    } else if has_repeated(columns) || keys.len() > 1 {
        Some(BindErrorKind::WrongCount)
    } else {
        None
    }
}

fn first_of(keys: Vec<Text>) -> Option<Text>
    ensures { result ≡ spec.first_of keys.items }
{
    keys.into_iter().next()
}

/// Declares a table of these columns, if nothing forbids it.
fn declare(
    alloc: Global,
    tables: &mut Vec<Table>,
    at: usize,
    name: &Text,
    columns: Vec<Column>,
    keys: Vec<Text>,
) -> Result<(), BindStop>
    ensures { Binds (λ _. tables.new.items) result (spec.create_with tables.old.items at name.now columns.items keys.items) }
{
    match refusal(tables, name, &columns, &keys) {
        Some(kind) => Err(refused(at, kind)),
        None => {
            let table = Table {
                name: copied(alloc, name)?,
                columns: Items::from_vec(columns),
                key: first_of(keys),
            };
            tables.push(table)?;
            Ok(())
        }
    }
}

/// Declares a table, by a statement that begins at this offset.
#[tactic(auto, using(crate::proofs::ChainLemmas::chains))]
pub fn create(
    alloc: Global,
    tables: &mut Vec<Table>,
    at: usize,
    statement: &CreateTable,
) -> Result<(), BindStop>
    ensures { Binds (λ _. tables.new.items) result (create tables.old.items at statement.now.table (chain_of statement.now.parts)) }
{
    let mut columns = Vec::new(alloc);
    let mut keys = Vec::new(alloc);
    push_part(alloc, &statement.parts.first, &mut columns, &mut keys)?;
    push_parts(
        alloc,
        statement.parts.more.as_slice(),
        &mut columns,
        &mut keys,
    )?;
    declare(alloc, tables, at, &statement.table, columns, keys)
}
