//! The rows of a table one by one.

ghost use Rattle.std.specs.Prelude.{◌≡◌, length, MatchOption};
ghost use Rattle.marked_rows.specs.Places.{keys_of};
ghost use Rattle.marked_rows.specs.Shown.{AreUnseen, CanShow, IsNext, numbers_of, shown};

use crate::cell::{Cell, Sight};
use crate::cells::shown_in;
use crate::places::KeyedCell;
use crate::pool::RowPool;
use lock_modes::{Row, Value};
use std::marker::Model;

/// Rows of a table in the order of their keys: those that a session sees, or those that are committed. Contracts see the list of those that are left. It
/// takes no memory.
#[derive(Drop)]
pub struct Scan<'a> {
    rows: &'a RowPool,
    keys: &'a [KeyedCell],
    /// The cells of all tables.
    cells: &'a [Cell],
    /// Which row of each cell is shown.
    sight: Sight,
    /// How many keys are passed.
    passed: usize,
}

impl<'a> Model for Scan<'a> {
    ghost use Rattle.std.specs.Prelude.{drop, List};
    ghost use Rattle.lock_modes.specs.Rows.{Tuple};
    ghost use Rattle.lock_modes.specs.declared.value.Value.{Value as Key};
    ghost use Rattle.marked_rows.specs.Places.{keys_of};
    ghost use Rattle.marked_rows.specs.Shown.{CanShow, numbers_of, shown};

    ghost Value = { List (Key × Tuple) };

    ghost view = { λ s. shown s.rows.now.list (drop s.passed (keys_of s.keys.now)) (drop s.passed (numbers_of s.sight s.cells.now s.keys.now)) };

    ghost invariant = { λ s. CanShow s.rows.now.list (keys_of s.keys.now) (numbers_of s.sight s.cells.now s.keys.now) };
}

impl<'a> Scan<'a> {
    /// The rows in the cells of these keys.
    pub(crate) fn new(
        rows: &'a RowPool,
        keys: &'a [KeyedCell],
        cells: &'a [Cell],
        sight: Sight,
    ) -> Scan<'a>
        requires { CanShow rows.now.list (keys_of keys.now) (numbers_of sight cells.now keys.now) }
        ensures { result ≡ shown rows.now.list (keys_of keys.now) (numbers_of sight cells.now keys.now) }
    {
        Scan {
            rows,
            keys,
            cells,
            sight,
            passed: 0,
        }
    }
}

impl<'a> Iterator for Scan<'a> {
    ghost use Rattle.std.specs.Iterator.{YieldsFirstBy, item_count};
    ghost use Rattle.std.specs.Map.Iter.{deref_pair};

    type Item = (&'a Value, &'a Row);

    ghost next_gives = { YieldsFirstBy deref_pair (λ items. items) };

    ghost remaining = { item_count (λ items. items) };

    fn next(&mut self) -> Option<(&'a Value, &'a Row)> {
        let (place, number) = next_shown(self.keys, self.cells, self.sight, self.passed)?;
        self.passed = place + 1;
        Some((&self.keys[place].key, self.rows.get(number)))
    }
}

/// The next key from one on of whose cell a row is shown, and the row's number.
fn next_shown(
    keys: &[KeyedCell],
    cells: &[Cell],
    sight: Sight,
    from: usize,
) -> Option<(usize, usize)>
    ensures { MatchOption result (AreUnseen (numbers_of sight cells.now keys.now) from (length keys.now))
        (IsNext (numbers_of sight cells.now keys.now) from) }
{
    for place in from..keys.len() {
        if let Some(number) = shown_in(cells, keys[place].cell, sight) {
            return Some((place, number));
        }
    }
    None
}
