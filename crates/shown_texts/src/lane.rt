//! What lanes are made of.

use sqlite_items::Items;

/// What an event is to whom reads a lane.
#[derive(Clone, Copy, PartialEq, Eq)]
pub(crate) enum Tone {
    /// Nothing is told of it.
    Untold,
    Plain,
    Fails,
    Waits,
    /// A step is not sent.
    Skips,
}

/// A line of a lane, beside its rail.
pub(crate) struct Cell {
    pub rail: char,
    pub text: Items<char>,
}

// Written out and not derived, so that who owns one calls this and does not let its parts go one by one.
impl Drop for Cell {
    fn drop(self) {
        let Cell {
            rail: _,
            text: _text,
        } = self;
    }
}

/// A session's lane beside a moment.
pub(crate) struct Lane {
    pub lines: Items<Cell>,
    /// The rail beneath the lines.
    pub below: char,
}

// Written out and not derived, so that who owns one calls this and does not let its parts go one by one.
impl Drop for Lane {
    fn drop(self) {
        let Lane {
            lines: _lines,
            below: _,
        } = self;
    }
}

/// The lanes beside each other on one line.
pub(crate) struct LaneRow {
    pub left: Items<char>,
    /// Of each session, in their order.
    pub cells: Items<Cell>,
}

// Written out and not derived, so that who owns one calls this and does not let its parts go one by one.
impl Drop for LaneRow {
    fn drop(self) {
        let LaneRow {
            left: _left,
            cells: _cells,
        } = self;
    }
}
