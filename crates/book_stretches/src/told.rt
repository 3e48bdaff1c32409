//! What a book tells of each rank of its spec.

ghost use Rattle.std.specs.Prelude.{IfOk, IfErr};
ghost use Rattle.fact_books.specs.Books.{IsKept};
ghost use Rattle.book_stretches.specs.Telling.{AreTold, IsNotTold, with_facts};

use crate::error::TellError;
use crate::source::spec_of_book;
use crate::telling::Telling;
use bound_specs::Spec;
use class_stretches::Stretches;
use compact_outcomes::{CompactOutcome, CompactOutcomes};
use fact_books::{Book, Run};
use std::alloc::Global;

/// The ranks of a book's spec in classes by what is told of them, and the outcomes that the classes tell, in their order. A rank of no
/// class has no value: nothing is told of it.
pub struct ToldRanks<'a> {
    pub outcomes: Vec<CompactOutcome<'a>>,
    pub stretches: Stretches,
}

// Written out and not derived, so that who owns one calls this and does not let its parts go one by one.
impl Drop for ToldRanks<'_> {
    fn drop(self) {
        let ToldRanks {
            outcomes: _outcomes,
            stretches: _stretches,
        } = self;
    }
}

/// What a book tells of each rank of its spec: its one value, the outcome that is recorded there or at the rank to which a recorded swap
/// leads, or nothing. Else the least rank that has more than one value. The time goes with the runs of the book and with the blocks of
/// ranks that swaps lead alike, and is that of a rank each only where facts overlap. It does not matter whether the spec starts.
pub fn told_ranks(alloc: Global, book: &Book) -> Result<ToldRanks<'_>, TellError>
    ensures told { IfOk result (AreTold book.now) }
    ensures refused { IfErr result (IsNotTold book.now) }
{
    let spec = spec_of_book(alloc, book)?;
    let (outcomes, runs) = book.parts();
    told_of(alloc, &spec, outcomes, runs)
}

/// What runs tell of each rank of a spec.
fn told_of<'a>(
    alloc: Global,
    spec: &Spec,
    outcomes: &'a CompactOutcomes,
    runs: &[Run],
) -> Result<ToldRanks<'a>, TellError>
    requires { IsKept outcomes.now runs.now }
    ensures told { IfOk result (AreTold (with_facts spec.now outcomes.now runs.now)) }
    ensures refused { IfErr result (IsNotTold (with_facts spec.now outcomes.now runs.now)) }
{
    let mut telling = Telling::new(alloc, spec, outcomes, runs)?;
    match telling.tell_all(alloc) {
        Ok(()) => Ok(telling.into_told()),
        Err(error) => Err(error),
    }
}
