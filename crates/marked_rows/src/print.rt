//! A number made of what lies at places.

ghost use Rattle.std.specs.Prelude.{All};
ghost use Rattle.marked_rows.specs.Kept.{HasRows, IsLeft, IsNumber};

use crate::cell::{Cell, Left};
use crate::cells::cell_in;
use crate::places::KeyedCell;
use crate::pool::RowPool;
use row_tables::print_row;
use std::hash::{FoldHasher, Hasher};

/// What is written where no row is: no row has so many values.
const NO_ROW: usize = usize::MAX;

/// A number that is the same where the same lies at the keys of tables, and seldom else.
pub(crate) fn print_of(tables: &[Vec<KeyedCell>], cells: &[Cell], rows: &RowPool) -> u64
    requires { All (HasRows rows.now.list) cells.now }
{
    let mut hasher = FoldHasher::default();
    for table in tables {
        print_keys(&mut hasher, table.as_slice(), cells, rows);
    }
    hasher.finish()
}

fn print_keys(hasher: &mut FoldHasher, keys: &[KeyedCell], cells: &[Cell], rows: &RowPool)
    requires { All (HasRows rows.now.list) cells.now }
{
    for key in keys {
        let cell = cell_in(cells, key.cell);
        print_number(hasher, cell.committed, rows);
        print_left(hasher, cell.left, rows);
    }
}

fn print_left(hasher: &mut FoldHasher, left: Option<Left>, rows: &RowPool)
    requires { IsLeft rows.now.list left }
{
    if let Some(left) = left {
        hasher.write_usize(left.session as usize);
        print_number(hasher, left.row, rows);
    }
}

fn print_number(hasher: &mut FoldHasher, number: Option<usize>, rows: &RowPool)
    requires { IsNumber rows.now.list number }
{
    match number {
        None => hasher.write_usize(NO_ROW),
        Some(number) => print_row(hasher, rows.get(number)),
    }
}
