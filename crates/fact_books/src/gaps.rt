//! Ranks without a fact.

ghost use Rattle.std.specs.Prelude.{◌≡◌};
ghost use Rattle.bound_specs.specs.Spec.{ranks};
ghost use Rattle.fact_books.specs.Runs.{first_gap as gap_of};
ghost use Rattle.fact_books.specs.Books.{IsFirstMissing, IsLeastMissing};

use crate::book::Book;
use crate::run::Run;

/// The least of the spec's ranks that has no fact. It does not matter whether the spec starts.
pub fn missing(book: &Book) -> Option<u64>
    ensures { IsLeastMissing book.now.facts (ranks book.now.file.run) result }
{
    let gap = first_gap(book.runs.as_slice(), 0);
    if gap < book.about.ranks {
        Some(gap)
    } else {
        None
    }
}

/// The least number, from this one on, that has no fact: a rank, or behind the last one.
pub fn missing_from(book: &Book, from: u64) -> u64
    ensures { IsFirstMissing book.now.facts from result }
{
    first_gap(book.runs.as_slice(), from)
}

/// The first rank, from this one on, that no run covers.
fn first_gap(runs: &[Run], from: u64) -> u64
    ensures { result ≡ gap_of from runs.now }
{
    let mut next = from;
    for run in runs {
        if next < run.first {
            return next;
        }
        next = next.max(run.end);
    }
    next
}
