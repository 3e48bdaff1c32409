//! Outcomes, each once, under the numbers of their classes.

ghost use Rattle.std.specs.Prelude.{◌≡◌, ℕ, ◌+◌, ◌^◌, ◌<◌, ◌++◌, ◌∷◌, [], Some, IfOk, OnErr, MatchOption, length, slice_get};
ghost use Rattle.class_stretches.specs.Groups.{AllDiffer};
ghost use Rattle.book_stretches.specs.Classes.{HasNumber};

use crate::numbers::Numbers;
use compact_outcomes::CompactOutcome;
use std::alloc::{AllocError, Global};
use std::marker::Model;

/// Outcomes, each once, in the order of the classes that tell them, seen by contracts as that list.
pub(crate) struct Classes<'a> {
    outcomes: Vec<CompactOutcome<'a>>,
    numbers: Numbers<'a>,
}

// Written out and not derived, so that who owns one calls this and does not let its parts go one by one.
impl Drop for Classes<'_> {
    fn drop(self) {
        let Classes {
            outcomes: _outcomes,
            numbers: _numbers,
        } = self;
    }
}

impl<'a> Model for Classes<'a> {
    ghost use Rattle.std.specs.Prelude.{List};
    ghost use Rattle.fact_books.specs.Entries.{Told};
    ghost use Rattle.book_stretches.specs.Classes.{AreNumbered};

    ghost Value = { List Told };

    ghost view = { λ c. c.outcomes.items };

    ghost invariant = { λ c. AreNumbered c.outcomes.items c.numbers };
}

impl<'a> Classes<'a> {
    pub fn new(alloc: Global) -> Classes<'a>
        ensures { result ≡ [] }
    {
        Classes {
            outcomes: Vec::new(alloc),
            numbers: Numbers::new(alloc),
        }
    }

    /// Each is there once.
    pub fn known(&self)
        ensures { AllDiffer self.now }
    {
        let _outcomes = &self.outcomes; // for the proof
    }

    /// The outcome of a class.
    pub fn outcome(&self, class: u32) -> &CompactOutcome<'a>
        requires { class < length self.now }
        ensures { slice_get self.now class ≡ Some result.now }
    {
        &self.outcomes[class as usize]
    }

    /// The class of an outcome, if it is there.
    fn find(&self, outcome: &CompactOutcome<'a>) -> Option<u32>
        ensures number { MatchOption result ((n : ℕ) → slice_get self.now n ≡ Some outcome.now → ⊥) (λ n. slice_get self.now n ≡ Some outcome.now) }
        ensures few { length self.now < 2 ^ 32 }
    {
        match self.numbers.get(outcome) {
            Some(number) => Some(*number),
            None => None,
        }
    }

    /// The class of an outcome, which is added behind the others where it is not there.
    pub fn number(&mut self, outcome: &CompactOutcome<'a>) -> Result<u32, AllocError>
        ensures ok { IfOk result (HasNumber self.old self.new outcome.now) }
        ensures err { OnErr result (self.new ≡ self.old) }
    {
        if let Some(number) = self.find(outcome) {
            return Ok(number);
        }
        self.add(outcome)
    }

    /// Adds what is not there.
    fn add(&mut self, outcome: &CompactOutcome<'a>) -> Result<u32, AllocError>
        requires { (n : ℕ) → slice_get self.old n ≡ Some outcome.now → ⊥ }
        ensures ok { IfOk result (λ n. (n ≡ length self.old) × (n + 1 < 2 ^ 32) × (self.new ≡ self.old ++ outcome.now ∷ [])) }
        ensures err { OnErr result (self.new ≡ self.old) }
    {
        // No memory has room for so many.
        let Ok(number) = u32::try_from(self.outcomes.len()) else {
            return Err(AllocError);
        };
        if number == u32::MAX {
            return Err(AllocError);
        }
        self.outcomes.reserve(1)?;
        self.numbers.put(outcome.again(), number)?;
        self.outcomes.push_reserved(outcome.again());
        Ok(number)
    }

    /// All of them, in the order of their classes.
    pub fn into_outcomes(self) -> Vec<CompactOutcome<'a>>
        ensures { result.items ≡ self.entry }
    {
        let Classes {
            outcomes,
            numbers: _numbers,
        } = self;
        outcomes
    }
}
