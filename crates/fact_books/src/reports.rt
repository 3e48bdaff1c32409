//! What a book reports.

ghost use Rattle.std.specs.Prelude.{◌≡◌, length, slice_get};
ghost use Rattle.std.specs.Option.{option_copied};
ghost use Rattle.fact_books.specs.Values.{HasFewSessions};
ghost use Rattle.fact_books.specs.Sweep.{values_of, AllBelow, IsReport};

use std::marker::Model;
use transcripts::Outcome;

/// The value of each rank of a spec, seen by contracts as their list. Equal values are kept once.
pub struct Report {
    outcomes: Vec<Outcome>,
    numbers: Vec<usize>,
}

// Written out and not derived, so that who owns one calls this and does not let its parts go one by one.
impl Drop for Report {
    fn drop(self) {
        let Report {
            outcomes: _outcomes,
            numbers: _numbers,
        } = self;
    }
}

impl Model for Report {
    ghost use Rattle.std.specs.Prelude.{List};
    ghost use Rattle.fact_books.specs.Entries.{Told};
    ghost use Rattle.fact_books.specs.Sweep.{values_of, IsReport};

    ghost Value = { List Told };

    ghost view = { λ r. values_of r.outcomes.items r.numbers.items };

    ghost invariant = { λ r. IsReport r.outcomes.items r.numbers.items };
}

impl Report {
    pub(crate) fn from_parts(outcomes: Vec<Outcome>, numbers: Vec<usize>) -> Report
        requires { IsReport outcomes.items numbers.items }
        ensures { result ≡ values_of outcomes.items numbers.items }
    {
        Report { outcomes, numbers }
    }

    /// What every report keeps: its outcomes have so few sessions that a byte has the number of each.
    pub fn known(&self)
        ensures { HasFewSessions self.now }
    {
        let _numbers = &self.numbers; // for the proof
    }

    /// How many ranks there are.
    pub fn len(&self) -> u64
        ensures { result ≡ length self.now }
    {
        self.numbers.len() as u64
    }

    /// The values, and for each rank the number of its own among them. Equal values may have several numbers.
    pub fn parts(&self) -> (&[Outcome], &[usize])
        ensures values { values_of result.0.now result.1.now ≡ self.now }
        ensures numbered { AllBelow (length result.0.now) result.1.now }
    {
        (self.outcomes.as_slice(), self.numbers.as_slice())
    }

    /// The value of a rank. None from `len` on.
    pub fn outcome(&self, rank: u64) -> Option<&Outcome>
        ensures { option_copied result ≡ slice_get self.now rank }
    {
        if rank >= self.numbers.len() as u64 {
            return None;
        }
        let numbers = self.numbers.as_slice();
        let outcomes = self.outcomes.as_slice();
        let n = numbers[rank as usize];
        Some(&outcomes[n])
    }
}
