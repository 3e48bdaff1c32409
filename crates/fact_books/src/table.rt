//! The outcomes that a book has, each under its number.

ghost use Rattle.std.specs.Prelude.{◌≡◌, ◌<◌, IfOk, IfSome, IsTrue, length, slice_index_or, []};
ghost use Rattle.fact_books.specs.Tables.{Extends, Names};

use crate::index::{Index, LOOKS};
use compact_outcomes::{CompactOutcome, CompactOutcomes};
use std::alloc::{AllocError, Global};
use std::marker::Model;

/// Outcomes in the order of their numbers, seen by contracts as their list. What the index tells is looked up and compared, so that nothing
/// but time, the table's size and the number of an outcome that stands there twice depends on it. A number has 32 bits: the outcome that would get
/// one past them is refused as if there were no memory for it.
pub(crate) struct Table {
    outcomes: CompactOutcomes,
    index: Index,
}

// Written out and not derived, so that who owns one calls this and does not let its parts go one by one.
impl Drop for Table {
    fn drop(self) {
        let Table {
            outcomes: _outcomes,
            index: _index,
        } = self;
    }
}

impl Model for Table {
    ghost use Rattle.std.specs.Prelude.{List};
    ghost use Rattle.fact_books.specs.Entries.{Told};

    ghost Value = { List Told };

    ghost view = { λ t. t.outcomes };
}

impl Table {
    pub(crate) fn new(alloc: Global) -> Table
        ensures { result ≡ [] }
    {
        Table::of(alloc, CompactOutcomes::new(alloc))
    }

    /// No outcomes, with room for so many whose texts have so many bytes in all.
    pub(crate) fn with_room(
        alloc: Global,
        outcomes: usize,
        bytes: usize,
    ) -> Result<Table, AllocError>
        ensures { IfOk result (λ table. table ≡ []) }
    {
        Ok(Table {
            outcomes: CompactOutcomes::with_room(alloc, outcomes, bytes)?,
            index: Index::with_room(alloc, outcomes)?,
        })
    }

    /// These outcomes under their numbers.
    pub(crate) fn of(alloc: Global, outcomes: CompactOutcomes) -> Table
        ensures { result ≡ outcomes }
    {
        Table {
            outcomes,
            index: Index::new(alloc),
        }
    }

    /// The outcomes in the order of their numbers.
    pub(crate) fn outcomes(&self) -> &CompactOutcomes
        ensures { result.now ≡ self.now }
    {
        &self.outcomes
    }

    /// The number of an outcome with this fingerprint, if the index knows it.
    fn find(&self, print: u64, outcome: &CompactOutcome<'_>) -> Option<u32>
        ensures bound { IfSome result (λ n. n < length self.now) }
        ensures at { IfSome result (λ n. slice_index_or self.now n [] ≡ outcome.now) }
    {
        for others in 0..LOOKS {
            let n = self.index.number(print, others)?;
            if self.is_at(n, outcome) {
                return Some(n);
            }
        }
        None
    }

    /// Whether an outcome has this number.
    fn is_at(&self, n: u32, outcome: &CompactOutcome<'_>) -> bool
        ensures bound { IsTrue result → n < length self.now }
        ensures at { IsTrue result → slice_index_or self.now n [] ≡ outcome.now }
    {
        let place = n as usize;
        place < self.outcomes.len() && self.outcomes.get(place).is_same(outcome)
    }

    /// The outcome's number; it is added where the index does not find it. Where it is refused, what was there stays.
    pub(crate) fn number(&mut self, outcome: &CompactOutcome<'_>) -> Result<u32, AllocError>
        ensures bound { IfOk result (λ n. n < length self.new) }
        ensures at { IfOk result (λ n. slice_index_or self.new n [] ≡ outcome.now) }
        ensures extends { Extends self.old self.new }
    {
        self.make_room()?;
        let print = outcome.fingerprint();
        if let Some(n) = self.find(print, outcome) {
            return Ok(n);
        }
        let Ok(n) = u32::try_from(self.outcomes.len()) else {
            return Err(AllocError);
        };
        self.outcomes.push(outcome)?;
        self.index.note(print, n);
        Ok(n)
    }

    /// Makes room in the index for one outcome more.
    fn make_room(&mut self) -> Result<(), AllocError>
        ensures { self.new ≡ self.old }
    {
        if self.index.has_room(self.outcomes.len()) {
            return Ok(());
        }
        fill(&mut self.index, &self.outcomes)
    }

    /// The numbers of these outcomes, which are added where the index does not find them.
    pub(crate) fn numbers(
        &mut self,
        alloc: Global,
        more: &CompactOutcomes,
    ) -> Result<Vec<u32>, AllocError>
        ensures names { IfOk result (λ ns. Names self.new ns.items more.now) }
        ensures extends { Extends self.old self.new }
    {
        let mut all = Vec::with_capacity(alloc, more.len())?;
        for n in 0..more.len() {
            all.push(self.number(&more.get(n))?)?;
        }
        Ok(all)
    }

    /// The same outcomes under the same numbers.
    pub(crate) fn copied(&self, alloc: Global) -> Result<Table, AllocError>
        ensures { IfOk result (λ t. t ≡ self.now) }
    {
        Ok(Table::of(alloc, self.outcomes.copied(alloc)?))
    }
}

/// Notes all outcomes in an index, with room for more.
fn fill(index: &mut Index, outcomes: &CompactOutcomes) -> Result<(), AllocError> {
    index.clear_for(outcomes.len())?;
    for place in 0..outcomes.len() {
        if let Ok(n) = u32::try_from(place) {
            index.note(outcomes.get(place).fingerprint(), n);
        }
    }
    Ok(())
}
