//! The audit of a book.

ghost use Rattle.std.specs.Prelude.{◌≡◌};
ghost use Rattle.fact_books.specs.Books.{IsKept, facts_in};
ghost use Rattle.book_audit.specs.Audit.{IsAudit};

use crate::error::AuditError;
use crate::finding::{finding_of, told};
use crate::pieces::pieces_of;
use crate::sharing::{all_of, findings_of, most_pieces};
use crate::source::spec_of_book;
use compact_outcomes::CompactOutcomes;
use fact_books::{Book, Run};
use std::alloc::Global;
use std::thread::Threads;

/// Tests each fact of a book, on one thread: an outcome is true at the rank whose line tells it, and a swap at each place of a word
/// where it may be made, the least of them or not. Where the spec does not start, no fact is true; a book without facts is good.
/// Answers the least rank with a fact that is not true, if there is one. A swap is tested once for all ranks of a run whose words
/// share the letters up to the one behind its place.
pub fn audit_plain(alloc: Global, book: &Book) -> Result<(), AuditError>
    ensures { IsAudit book.now result }
{
    let (outcomes, runs) = book.parts();
    plain_of(alloc, book, outcomes, runs)
}

/// The audit of a book that has these outcomes and runs.
fn plain_of(
    alloc: Global,
    book: &Book,
    outcomes: &CompactOutcomes,
    runs: &[Run],
) -> Result<(), AuditError>
    requires facts { facts_in outcomes.now runs.now ≡ book.now.facts }
    requires kept { IsKept outcomes.now runs.now }
    ensures { IsAudit book.now result }
{
    let spec = spec_of_book(alloc, book)?;
    told(finding_of(alloc, &spec, outcomes, runs))
}

/// The same answer, from as many threads as there are processors and pieces of work for them. Where none can be made the pieces are
/// tested on this one.
pub fn audit<R: Threads + Sync>(threads: &R, alloc: Global, book: &Book) -> Result<(), AuditError>
    ensures { IsAudit book.now result }
{
    let (outcomes, runs) = book.parts();
    audit_of(threads, alloc, book, outcomes, runs)
}

/// The same of a book that has these outcomes and runs.
fn audit_of<R: Threads + Sync>(
    threads: &R,
    alloc: Global,
    book: &Book,
    outcomes: &CompactOutcomes,
    runs: &[Run],
) -> Result<(), AuditError>
    requires facts { facts_in outcomes.now runs.now ≡ book.now.facts }
    requires kept { IsKept outcomes.now runs.now }
    ensures { IsAudit book.now result }
{
    let pieces = pieces_of(alloc, runs, most_pieces(threads))?;
    book.known();
    let findings = findings_of(threads, alloc, book.text(), outcomes, pieces.as_slice())?;
    told(all_of(findings.as_slice()))
}
