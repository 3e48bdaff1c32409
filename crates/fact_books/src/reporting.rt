//! The report of a book.

ghost use Rattle.std.specs.Prelude.{◌≡◌, ◌≤◌, List, IfOk, IfErr, OnOk};
ghost use Rattle.rank_facts.specs.Swap.{leads_in};
ghost use Rattle.rank_facts.specs.Values.{AllTrue};
ghost use Rattle.bound_specs.specs.Spec.{ranks};
ghost use Rattle.fact_books.specs.Entries.{Told, recorded};
ghost use Rattle.fact_books.specs.Books.{IsKept, facts_in};
ghost use Rattle.fact_books.specs.Values.{AreValues, HasFewSessions, IsNotReported, IsCovering};
ghost use Rattle.fact_books.specs.Sweep.{leads_of, IsStop};
ghost use Rattle.fact_books.specs.declared.error.TheConstants.{MAX_REPORTED};

use crate::book::Book;
use crate::error::{MAX_REPORTED, ReportError};
use crate::reports::Report;
use crate::run::Run;
use crate::sweep::sweep;
use compact_outcomes::CompactOutcomes;
use perm_ranks::Shape;
use std::alloc::Global;

/// The one value of each rank of a book's spec: its recorded outcome, or the value of the rank to which its recorded swap leads. Else
/// the least rank that has no value or more than one. It does not matter whether the spec starts.
pub fn report(alloc: Global, book: &Book) -> Result<Report, ReportError>
    ensures values { IfOk result (AreValues book.now.facts (leads_in book.now.file.run) (ranks book.now.file.run)) }
    ensures few { OnOk result (ranks book.now.file.run ≤ MAX_REPORTED) }
    ensures refused { IfErr result (IsNotReported book.now) }
    // Of true facts, each rank is reported as the sequential machine has it.
    ensures covering { AllTrue book.now.file.run (recorded book.now.facts) → IsCovering book.now result }
{
    if book.about.ranks > MAX_REPORTED {
        return Err(ReportError::TooMany);
    }
    report_of(
        alloc,
        book.table.outcomes(),
        book.runs.as_slice(),
        &book.about.shape,
        book.about.ranks,
    )
}

/// The report over so many ranks.
fn report_of(
    alloc: Global,
    outcomes: &CompactOutcomes,
    runs: &[Run],
    shape: &Option<Shape>,
    ranks: u64,
) -> Result<Report, ReportError>
    requires kept { IsKept outcomes.now runs.now }
    requires few { (values : List Told) → AreValues (facts_in outcomes.now runs.now) (leads_of shape.now) ranks values → HasFewSessions values }
    ensures values { IfOk result (AreValues (facts_in outcomes.now runs.now) (leads_of shape.now) ranks) }
    ensures stop { IfErr result (IsStop (facts_in outcomes.now runs.now) (leads_of shape.now) ranks) }
{
    let numbers = match sweep(alloc, outcomes, runs, shape, ranks) {
        Ok(numbers) => numbers,
        Err(error) => return Err(error),
    };
    let outcomes = outcomes.read(alloc)?;
    Ok(Report::from_parts(outcomes, numbers))
}
