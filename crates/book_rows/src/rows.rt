//! The rows of classes.

ghost use Rattle.std.specs.Prelude.{◌≡◌, ◌<◌, IfOk, length};
ghost use Rattle.bound_specs.specs.Spec.{ranks};
ghost use Rattle.book_rows.specs.Parts.{AreInClasses, AreRowsOf, IsRowOf};
ghost use Rattle.book_rows.specs.Classes.{letters_of, told_alone};

use book_stretches::ToldRanks;
use bound_specs::Spec;
use class_stretches::Tally;
use compact_outcomes::CompactOutcome;
use order_classes::{ClassRow, Letters, Shows};
use sqlite_items::Items;
use std::alloc::{AllocError, Global};

/// A row for each class, in the order of their numbers.
pub(crate) fn rows_of(
    alloc: Global,
    spec: &Spec,
    told: &ToldRanks<'_>,
) -> Result<Vec<ClassRow>, AllocError>
    requires { AreInClasses (ranks spec.now.run) told.now }
    ensures { IfOk result (λ rows. AreRowsOf spec.now.run told.now rows.items) }
{
    let _classes = told.stretches.classes(); // for the proof
    let outcomes = told.outcomes.as_slice();
    let tallies = told.stretches.tallies(alloc)?;
    let mut rows = Vec::with_capacity(alloc, outcomes.len())?;
    for place in 0..outcomes.len() {
        let row = row_of(alloc, spec, tallies[place], &outcomes[place])?;
        rows.push(row)?;
    }
    Ok(rows)
}

/// The row of a class: its tally, the order of its least rank, and what is told of that.
fn row_of(
    alloc: Global,
    spec: &Spec,
    tally: Tally,
    outcome: &CompactOutcome<'_>,
) -> Result<ClassRow, AllocError>
    requires { tally.least < ranks spec.now.run }
    ensures { IfOk result (IsRowOf spec.now.run tally outcome.now) }
{
    let Some(line) = spec.line(tally.least) else {
        unreachable!()
    };
    let shows = shown(alloc, outcome)?;
    Ok(ClassRow {
        least: tally.least,
        count: tally.count,
        letters: letters_of(&shows),
        line,
        shows,
    })
}

/// What is told alone, with nothing of what is left.
fn shown(alloc: Global, outcome: &CompactOutcome<'_>) -> Result<Shows, AllocError>
    ensures { IfOk result (λ shows. shows ≡ told_alone outcome.now) }
{
    Ok(Shows {
        told: outcome.read(alloc)?,
        left: Items::new(alloc),
        rests: Items::new(alloc),
    })
}

/// The letters of what is told alone.
fn letters_of(shows: &Shows) -> Letters
    ensures { result ≡ letters_of shows.now }
{
    Letters {
        waits: shows.waits(),
        deadlock: shows.has_deadlock(),
        error: shows.has_error(),
        unsent: shows.is_unsent(),
        stuck: false,
        not_serial: None,
    }
}
