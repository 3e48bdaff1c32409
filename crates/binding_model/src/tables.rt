//! The tables that a spec file declares.

ghost use Rattle.std.specs.Prelude.{◌≡◌, ◌<◌, length, get_or, IfSome};
ghost use Rattle.binding_model.specs.Refusals.{Binds};
ghost use Rattle.binding_model.specs.Tables as spec;
ghost use Rattle.binding_model.specs.Tables.{table_number, column_number, key_column, type_of, type_of_word};

use crate::MAX_COLUMNS;
use crate::error::{BindErrorKind, BindStop, refused};
use lock_modes::Text;
use sql_grammar::TypeWord;
use sqlite_items::Items;

/// The type of a column.
#[derive(Clone, Copy)]
pub enum ColumnType {
    Number,
    Text,
}

/// The type that a word names: all number types are one.
pub fn type_of(word: TypeWord) -> ColumnType
    ensures { result ≡ type_of_word word }
{
    match word {
        TypeWord::Text => ColumnType::Text,
        TypeWord::Int | TypeWord::Integer | TypeWord::Int4 | TypeWord::BigInt | TypeWord::Int8 =>
            ColumnType::Number,
    }
}

/// A column of a table.
#[derive(Drop)]
pub struct Column {
    pub name: Text,
    pub kind: ColumnType,
}

/// A table that a spec file declares: its columns have numbers from 0.
pub struct Table {
    pub name: Text,
    pub columns: Items<Column>,
    /// The name of the primary key.
    pub key: Option<Text>,
}

// Written out and not derived, so that who owns one calls this and does not let its parts go one by one.
impl Drop for Table {
    fn drop(self) {
        let Table {
            name: _name,
            columns: _columns,
            key: _key,
        } = self;
    }
}

impl Table {
    /// How many columns have a number.
    pub fn width(&self) -> usize
        ensures { result ≡ spec.width self.now }
    {
        self.columns.len().min(MAX_COLUMNS)
    }

    /// The number of a column. Linear in the columns, of which there are few.
    fn number(&self, name: &str) -> Option<u16>
        ensures { result ≡ column_number self.now name.now }
    {
        let place = column_place(self.columns.as_slice(), name)?;
        u16::try_from(place).ok()
    }

    /// The number of a column, which a statement names that begins at this offset.
    pub fn column(&self, at: usize, name: &str) -> Result<u16, BindStop>
        ensures { Binds (λ column. column) result (spec.column self.now at name.now) }
    {
        match self.number(name) {
            Some(column) => Ok(column),
            None => Err(refused(at, BindErrorKind::UnknownColumn)),
        }
    }

    /// The number of the primary key.
    pub fn key(&self) -> Option<u16>
        ensures { result ≡ key_column self.now }
    {
        match &self.key {
            Some(name) => self.number(name.as_str()),
            None => None,
        }
    }

    /// The type of a column.
    pub fn type_of(&self, column: u16) -> ColumnType
        ensures { result ≡ type_of self.now column }
    {
        match self.columns.get(column as usize) {
            Some(column) => column.kind,
            None => ColumnType::Number,
        }
    }
}

/// Where the first column of this name stands. Each is looked at in turn.
pub fn column_place(columns: &[Column], name: &str) -> Option<usize>
    ensures { result ≡ spec.column_place columns.now name.now }
{
    columns
        .iter()
        .position(|column| name == column.name.as_str())
}

/// Where the first table of this name stands. Each is looked at in turn.
pub fn table_place(tables: &[Table], name: &str) -> Option<usize>
    ensures place { result ≡ spec.table_place tables.now name.now }
    ensures within { IfSome result (λ n. n < length tables.now) }
{
    tables.iter().position(|table| name == table.name.as_str())
}

/// The table of this name, and its number. Linear in the tables.
pub fn table_named<'a>(
    tables: &'a [Table],
    at: usize,
    name: &str,
) -> Result<(u16, &'a Table), BindStop>
    ensures { Binds (λ x. (x.0, x.1.now)) result (spec.table tables.now at name.now) }
{
    match table_number(tables, name) {
        Some(number) => Ok((number, &tables[number as usize])),
        None => Err(refused(at, BindErrorKind::UnknownTable)),
    }
}

fn table_number(tables: &[Table], name: &str) -> Option<u16>
    ensures number { result ≡ table_number tables.now name.now }
    ensures within { IfSome result (λ n. n < length tables.now) }
{
    let place = table_place(tables, name)?;
    u16::try_from(place).ok()
}
