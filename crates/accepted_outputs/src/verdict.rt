//! What a report is judged to be.

ghost use Rattle.std.specs.Prelude.{◌≡◌};

use std::marker::Model;

/// For each accepted report in order the first rank at which it differs from the judged one, and there the first session that does,
/// seen by contracts as their list.
#[derive(Drop)]
pub struct Differences {
    places: Vec<(u64, u8)>,
}

impl Model for Differences {
    ghost use Rattle.std.specs.Prelude.{ℕ, List};

    ghost Value = { List (ℕ × ℕ) };

    ghost view = { λ d. d.places.items };
}

impl Differences {
    /// These ranks with their sessions.
    pub fn from_vec(places: Vec<(u64, u8)>) -> Differences
        ensures { result ≡ places.items }
    {
        Differences { places }
    }

    /// The ranks with their sessions, in the order of the accepted reports.
    pub fn as_slice(&self) -> &[(u64, u8)]
        ensures { result.now ≡ self.now }
    {
        self.places.as_slice()
    }

    /// The ranks with their sessions, in the order of the accepted reports.
    pub fn into_vec(self) -> Vec<(u64, u8)>
        ensures { result.items ≡ self }
    {
        self.places
    }
}

/// What a report is judged to be by accepted reports, which are numbered from 0.
#[derive(Drop)]
pub enum Verdict {
    /// The accepted report with this number is equal to it, and none before that one is.
    Matches(usize),
    /// No accepted report is equal to it.
    Differs(Differences),
}
