//! What is told of classes: their rows, their letters and the totals.

use crate::shows::Shows;
use bound_specs::Line;

/// By what orders are grouped.
#[derive(Clone, Copy, PartialEq, Eq)]
pub enum Grouping {
    /// By all that they show.
    Shows,
    /// By the rows, counts and errors told, and the rows left.
    Answers,
}

/// What a class shows, letter by letter.
#[derive(Clone, Copy)]
pub struct Letters {
    /// W: a session waits.
    pub waits: bool,
    /// D: a session loses a deadlock.
    pub deadlock: bool,
    /// E: a session is told of another error of its own.
    pub error: bool,
    /// N: a step is not sent.
    pub unsent: bool,
    /// S: a session still waits at the end.
    pub stuck: bool,
    /// R: an anomaly. None of a spec with permutation lines.
    pub not_serial: Option<bool>,
}

/// How many orders there are of some kind, and in how many classes.
#[derive(Clone, Copy)]
pub struct Total {
    pub orders: u64,
    pub classes: u64,
}

/// The totals of all letters.
#[derive(Clone, Copy)]
pub struct Totals {
    pub all: Total,
    pub waits: Total,
    pub deadlock: Total,
    pub error: Total,
    pub unsent: Total,
    pub stuck: Total,
    /// None of a spec with permutation lines.
    pub not_serial: Option<Total>,
}

/// A class as it is told.
pub struct ClassRow {
    /// The least rank.
    pub least: u64,
    /// How many orders it has.
    pub count: u64,
    pub letters: Letters,
    /// The order of the least rank.
    pub line: Line,
    /// What that order shows.
    pub shows: Shows,
}

// Written out and not derived, so that who owns one calls this and does not let its parts go one by one.
impl Drop for ClassRow {
    fn drop(self) {
        let ClassRow {
            least: _,
            count: _,
            letters: _,
            line: _line,
            shows: _shows,
        } = self;
    }
}
