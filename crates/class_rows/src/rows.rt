//! The rows of classes.

ghost use Rattle.std.specs.Prelude.{◌≡◌, ◌+◌, ◌<◌, ◌^◌, ℕ, List, Some, length, set, slice_get, IfOk, OnOk};
ghost use Rattle.binding_model.specs.declared.tables.Table.{Table as Declared};
ghost use Rattle.bound_specs.specs.Spec.{Spec as Run};
ghost use Rattle.spec_schedules.specs.declared.kind.Kind.{Kind as Sort};
ghost use Rattle.order_classes.specs.declared.rows.ClassRow.{ClassRow as Row};
ghost use Rattle.order_classes.specs.declared.shows.Shows.{Shows as Shown};
ghost use Rattle.different_shows.specs.Different.{HasNumber};
ghost use Rattle.class_rows.specs.Pages.{told_by};
ghost use Rattle.class_rows.specs.Telling.{AreAdded, AreRowsOf, IsFirst, IsPut, with_class};

use crate::letters::either;
use crate::passing::Passing;
use different_shows::Different;
use order_classes::{ClassRow, Grouping, Shows, Totals, answers_of};
use std::alloc::{AllocError, Global};

/// Classes as they are told: how many orders there are, the totals of those that are asked for, and a row for each class in the order of their least ranks.
pub struct Classed {
    pub orders: u64,
    pub totals: Totals,
    pub rows: Vec<ClassRow>,
}

// Written out and not derived, so that who owns one calls this and does not let its parts go one by one.
impl Drop for Classed {
    fn drop(self) {
        let Classed {
            orders: _,
            totals: _,
            rows: _rows,
        } = self;
    }
}

/// The rows of classes, of which those have one that are told alike.
pub(crate) fn rows_of(
    alloc: Global,
    by: Grouping,
    passing: &[Passing<'_>],
) -> Result<Vec<ClassRow>, AllocError>
    requires { (kind : Sort) × (tables : List Declared) × (run : Run) × AreAdded kind tables run passing.now }
    ensures { IfOk result (λ rows. (kind : Sort) (tables : List Declared) (run : Run) → AreAdded kind tables run passing.now
        → (keys : List Shown) × AreRowsOf kind tables run by passing.now keys rows.items) }
{
    let mut different = Different::new(alloc);
    let mut rows = Vec::new(alloc);
    for place in 0..passing.len() {
        put(alloc, by, passing[place], &mut different, &mut rows)?;
        different.known();
    }
    Ok(rows)
}

/// Puts a class to the row of what it tells, or a new one behind the others.
fn put(
    alloc: Global,
    by: Grouping,
    passing: Passing<'_>,
    different: &mut Different,
    rows: &mut Vec<ClassRow>,
) -> Result<(), AllocError>
    requires { (n : ℕ) (row : Row) → slice_get rows.old.items n ≡ Some row → row.count + passing.class.now.count < 2 ^ 64 }
    ensures { OnOk result (IsPut by passing.entry different.old different.new rows.old.items rows.new.items) }
{
    let number = number_by(alloc, by, &passing.class.shows, different)? as usize;
    if number < rows.len() {
        join(rows, number, passing);
        return Ok(());
    }
    let row = first_row(alloc, passing)?;
    rows.push(row)?;
    Ok(())
}

/// The number of what a class tells.
fn number_by(
    alloc: Global,
    by: Grouping,
    shows: &Shows,
    different: &mut Different,
) -> Result<u32, AllocError>
    ensures { IfOk result (HasNumber different.old different.new (told_by by shows.now)) }
{
    match by {
        Grouping::Shows => different.number(shows),
        Grouping::Answers => {
            let answers = answers_of(alloc, shows)?;
            different.number(&answers)
        }
    }
}

/// Joins a class to the row at a place.
fn join(rows: &mut Vec<ClassRow>, place: usize, passing: Passing<'_>)
    requires inside { place < length rows.old.items }
    requires few { (row : Row) → slice_get rows.old.items place ≡ Some row → row.count + passing.class.now.count < 2 ^ 64 }
    ensures { (row : Row) → slice_get rows.old.items place ≡ Some row → rows.new.items ≡ set rows.old.items place (with_class passing.entry row) }
{
    let row = &mut rows[place];
    row.count += passing.class.count;
    row.letters = either(row.letters, passing.letters);
}

/// The row of the first class that is told so.
fn first_row(alloc: Global, passing: Passing<'_>) -> Result<ClassRow, AllocError>
    ensures { IfOk result (IsFirst passing.entry) }
{
    let class = passing.class;
    let shows = class.shows.copied(alloc)?;
    let line = class.line.clone()?;
    Ok(ClassRow {
        least: class.first,
        count: class.count,
        letters: passing.letters,
        line,
        shows,
    })
}
