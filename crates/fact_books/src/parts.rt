//! What a book is kept as.

ghost use Rattle.std.specs.Prelude.{◌≡◌};
ghost use Rattle.fact_books.specs.Books.{facts_in, IsKept};

use crate::book::Book;
use crate::run::Run;
use compact_outcomes::CompactOutcomes;

impl Book {
    /// The outcomes of the book in the order of their numbers, and the runs that name them by these. Runs may overlap, and an outcome
    /// may stand twice.
    pub fn parts(&self) -> (&CompactOutcomes, &[Run])
        ensures facts { facts_in result.0.now result.1.now ≡ self.now.facts }
        ensures kept { IsKept result.0.now result.1.now }
    {
        (self.table.outcomes(), self.runs.as_slice())
    }
}
