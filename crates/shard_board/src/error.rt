//! Why a board is not made, and why a call that takes a turn is refused.

ghost use Rattle.std.specs.Prelude.{◌≡◌};
ghost use Rattle.shard_board.specs.declared.error.BoardError.TheVariants as board_error;

use fact_books::Book;
use std::alloc::AllocError;
use std::fmt;

/// The shards of a plan, at most.
pub const MAX_SHARDS: usize = 4_096;

/// The seats of a board, at most.
pub const MAX_SEATS: u8 = 16;

/// The turns of a seat, at most.
pub const MAX_TURNS: u32 = 100_000;

/// Why no board is made. Each refusal is tried before those below it.
#[derive(Clone, Copy, PartialEq, Eq)]
pub enum BoardError {
    /// A shard is none of the spec, there are over 4,096 shards, or the seats are not 1 to 16.
    BadPlan,
    /// Memory ran out.
    NoMemory,
}

impl fmt::Display for BoardError {
    fn fmt<W: fmt::Write>(&self, f: &mut fmt::Formatter<W>) -> fmt::Result {
        match self {
            BoardError::BadPlan => f.write_str("the plan is not lawful"),
            BoardError::NoMemory => f.write_str("no memory"),
        }
    }
}

impl From<AllocError> for BoardError {
    ghost from_gives = { λ _ e. e ≡ board_error.NoMemory };

    fn from(_error: AllocError) -> BoardError {
        BoardError::NoMemory
    }
}

/// Why a delivery is refused. Each refusal is tried before those below it, and only the last takes a turn.
#[derive(Clone, Copy, Debug, PartialEq, Eq)]
pub enum DeliverErrorKind {
    /// The book's spec text is not the board's.
    SpecMismatch,
    /// The seat did not claim the number.
    NotClaimed,
    /// The seat has had 100,000 turns.
    SeatSpent,
    /// Memory ran out.
    NoMemory,
}

impl fmt::Display for DeliverErrorKind {
    fn fmt<W: fmt::Write>(&self, f: &mut fmt::Formatter<W>) -> fmt::Result {
        match self {
            DeliverErrorKind::SpecMismatch => f.write_str("the book is of another spec"),
            DeliverErrorKind::NotClaimed => f.write_str("the seat did not claim the number"),
            DeliverErrorKind::SeatSpent => f.write_str("the seat has had all its turns"),
            DeliverErrorKind::NoMemory => f.write_str("no memory"),
        }
    }
}

/// A delivery that was refused, and its book.
#[derive(Drop)]
pub struct DeliverError {
    pub kind: DeliverErrorKind,
    pub book: Book,
}

/// Why no book is given. Only want of memory takes a turn.
#[derive(Clone, Copy, PartialEq, Eq)]
pub enum LatestError {
    /// The seat has had 100,000 turns.
    SeatSpent,
    /// Memory ran out.
    NoMemory,
}

impl fmt::Display for LatestError {
    fn fmt<W: fmt::Write>(&self, f: &mut fmt::Formatter<W>) -> fmt::Result {
        match self {
            LatestError::SeatSpent => f.write_str("the seat has had all its turns"),
            LatestError::NoMemory => f.write_str("no memory"),
        }
    }
}
