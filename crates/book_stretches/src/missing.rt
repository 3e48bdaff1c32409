//! Which ranks of a book's spec are missing, and which are to be run.

ghost use Rattle.std.specs.Prelude.{◌≡◌, ◌++◌, IfOk, OnOk, map};
ghost use Rattle.class_stretches.specs.Stretches.{run_of};
ghost use Rattle.book_stretches.specs.Missing.{AreToRun, AreUntold, HasNoClash, gap, gaps};
ghost use Rattle.book_stretches.specs.Telling.{AreTold};

use crate::source::spec_of_book;
use crate::told::ToldRanks;
use class_stretches::RankRun;
use fact_books::{Book, Run};
use std::alloc::{AllocError, Global};

/// The ranks of a book's spec that are missing, of which the book tells nothing, where it is told what it tells of each.
pub fn untold_runs(
    alloc: Global,
    book: &Book,
    told: &ToldRanks<'_>,
) -> Result<Vec<RankRun>, AllocError>
    requires { AreTold book.now told.now }
    ensures runs { IfOk result (λ runs. AreUntold book.now (map run_of runs.items)) }
    ensures one { HasNoClash book.now }
{
    let _classes = told.stretches.classes(); // for the proof
    told.stretches.missing_runs(alloc)
}

/// The ranks of a book's spec that are to be run, of which the book has no fact. Where a book of these is joined to it, it has a fact of each
/// rank. They are among those of which it tells nothing: of a rank that has only swaps which lead to such ranks nothing is told either.
pub fn runs_to_run(alloc: Global, book: &Book) -> Result<Vec<RankRun>, AllocError>
    ensures { IfOk result (λ runs. AreToRun book.now (map run_of runs.items)) }
{
    let spec = spec_of_book(alloc, book)?;
    let (_outcomes, runs) = book.parts();
    gaps_of(alloc, runs, spec.ranks())
}

/// The ranks below a number that no run covers.
fn gaps_of(alloc: Global, runs: &[Run], count: u64) -> Result<Vec<RankRun>, AllocError>
    ensures { IfOk result (λ found. map run_of found.items ≡ gaps 0 runs.now count) }
{
    let mut found = Vec::new(alloc);
    let mut next = 0;
    for run in runs {
        push_gap(&mut found, next, run.first.min(count))?;
        next = next.max(run.end);
    }
    push_gap(&mut found, next, count)?;
    Ok(found)
}

/// Adds the ranks from the first up to but not the end, if there are any.
fn push_gap(found: &mut Vec<RankRun>, first: u64, end: u64) -> Result<(), AllocError>
    ensures { OnOk result (map run_of found.new.items ≡ map run_of found.old.items ++ gap first end) }
{
    if first < end {
        found.push(RankRun { first, end })?;
    }
    Ok(())
}
