//! Facts of another book, put into a book in its place.

ghost use Rattle.std.specs.Prelude.{◌≡◌, ◌≢◌, ◌↔◌, ◌≤◌, ◌++◌, length, take, OnOk, OnErr, IsErrOf};
ghost use Rattle.std.specs.FinSet as set;
ghost use Rattle.fact_books.specs.Entries.{entry_cmp};
ghost use Rattle.fact_books.specs.Runs.{firsts, IsRising, AllTo, AreAdded};
ghost use Rattle.fact_books.specs.Books.{joined, facts_in, IsKept};
ghost use Rattle.fact_books.specs.declared.error.JoinError.TheVariants as join_error;

use crate::book::Book;
use crate::error::JoinError;
use crate::merging::{merge, renumber};
use crate::run::Run;
use crate::table::Table;
use std::alloc::AllocError;

impl Book {
    /// Adds the facts of another book of the same spec, as a join does, and without a copy of what is there: where the other's ranks
    /// come behind, the time does not grow with what is there. A refused book is as before.
    pub fn add(&mut self, other: &Book) -> Result<(), JoinError>
        ensures union { OnOk result (self.new ≡ joined self.old other.now) }
        ensures back { OnErr result (self.new ≡ self.old) }
        ensures same { OnOk result (self.old.file ≡ other.now.file) }
        ensures mismatch { IsErrOf result join_error.SpecMismatch ↔ (self.old.file.text ≢ other.now.file.text) }
    {
        self.known();
        other.known();
        if self.text() != other.text() {
            return Err(JoinError::SpecMismatch);
        }
        match add_parts(
            &mut self.table,
            &mut self.runs,
            &other.table,
            other.runs.as_slice(),
        ) {
            Ok(()) => Ok(()),
            Err(_) => Err(JoinError::NoMemory),
        }
    }
}

/// Adds outcomes and runs to those of a book. Where memory is refused they say what they said.
fn add_parts(
    table: &mut Table,
    runs: &mut Vec<Run>,
    other: &Table,
    others: &[Run],
) -> Result<(), AllocError>
    requires kept { IsKept table.old runs.old.items }
    requires others_kept { IsKept other.now others.now }
    ensures kept { IsKept table.new runs.new.items }
    ensures added { OnOk result (facts_in table.new runs.new.items ≡ set.union (facts_in table.old runs.old.items) (facts_in other.now others.now)) }
    ensures back { OnErr result (facts_in table.new runs.new.items ≡ facts_in table.old runs.old.items) }
{
    let alloc = *runs.allocator();
    let numbers = table.numbers(alloc, other.outcomes())?;
    let more = renumber(alloc, numbers.as_slice(), others)?;
    add_runs(table.outcomes().len(), runs, more.as_slice())
}

/// Adds runs, of which those there that end before the first of them stay as they are.
fn add_runs(outcomes: usize, runs: &mut Vec<Run>, more: &[Run]) -> Result<(), AllocError>
    requires rising { IsRising (firsts runs.old.items) }
    requires more_rising { IsRising (firsts more.now) }
    ensures ok { OnOk result (AreAdded runs.old.items more.now runs.new.items) }
    ensures err { OnErr result (runs.new.items ≡ runs.old.items) }
{
    if more.is_empty() {
        return Ok(());
    }
    let alloc = *runs.allocator();
    let kept = ended_before(runs.as_slice(), more[0].first);
    let behind = merge(alloc, outcomes, &runs[kept..], more)?;
    put_behind(runs, kept, behind.as_slice())
}

/// How many runs there are up to the last one that ends before a rank.
fn ended_before(runs: &[Run], rank: u64) -> usize
    requires { IsRising (firsts runs.now) }
    ensures few { result ≤ length runs.now }
    ensures low { AllTo rank (firsts (take result runs.now)) }
{
    let mut count = runs.len();
    while count > 0 {
        let last = runs[count - 1];
        if last.first <= rank && last.end < rank {
            return count;
        }
        count -= 1;
    }
    0
}

/// Puts other runs in the place of those behind so many.
fn put_behind(runs: &mut Vec<Run>, kept: usize, behind: &[Run]) -> Result<(), AllocError>
    requires { kept ≤ length runs.old.items }
    ensures ok { OnOk result (runs.new.items ≡ take kept runs.old.items ++ behind.now) }
    ensures err { OnErr result (runs.new.items ≡ runs.old.items) }
{
    runs.reserve(behind.len())?;
    runs.truncate(kept);
    let Ok(()) = runs.extend_from_slice(behind) else {
        unreachable!()
    };
    Ok(())
}
