//! Cells by their numbers. One that is not there has no row.

ghost use Rattle.std.specs.Prelude.{◌≡◌, ◌<◌, OnOk, get_or, length};
ghost use Rattle.marked_rows.specs.Cells.{blank};
ghost use Rattle.marked_rows.specs.Kept.{HasBlanks};
ghost use Rattle.marked_rows.specs.Shown.{shown_of};

use crate::cell::{Cell, Sight};
use marked_lists::MarkedList;
use std::alloc::AllocError;

/// What is shown of the cell with a number.
pub(crate) fn shown_in(cells: &[Cell], number: usize, sight: Sight) -> Option<usize>
    ensures { result ≡ shown_of sight (get_or cells.now number blank) }
{
    match cells.get(number) {
        Some(cell) => cell.shown(sight),
        None => None,
    }
}

/// The cell with a number, blank where it is not there.
pub(crate) fn cell_in(cells: &[Cell], number: usize) -> Cell
    ensures { result ≡ get_or cells.now number blank }
{
    match cells.get(number) {
        Some(cell) => *cell,
        None => Cell::new(),
    }
}

/// Makes cells, without rows, up to the one with this number.
pub(crate) fn reach(cells: &mut MarkedList<Cell>, number: usize) -> Result<(), AllocError>
    ensures there { OnOk result (number < length cells.new.list) }
    ensures blanks { HasBlanks number cells.old cells.new }
{
    while cells.len() <= number {
        cells.push(Cell::new())?;
    }
    Ok(())
}
