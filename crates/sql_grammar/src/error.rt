//! Why a block is no SQL of the subset.

ghost use Rattle.std.specs.Prelude.{◌≡◌};
ghost use Rattle.sql_grammar.specs.declared.error.Stop.TheVariants.{Memory};
ghost use Rattle.sql_grammar.specs.declared.error.Failure.TheVariants.{Memory as OutOfMemory};
ghost use Rattle.sql_grammar.specs.Refusals.{number_of};

use crate::token::Placed;
use std::alloc::{AllocError, AllocFailed};
use std::error::Error;
use std::fmt;

/// What is wrong with a block.
#[derive(Clone, Copy, Debug, PartialEq, Eq)]
pub enum SqlErrorKind {
    /// No token begins here.
    BadToken,
    /// A text without its closing quote.
    Unclosed,
    /// A token that the grammar does not allow here, or the block ends where a token is required.
    Syntax,
    /// The first word of a statement begins none of its forms.
    Unsupported,
    /// A whole number outside i64.
    NumberTooLarge,
    /// The 101st row of an INSERT, or the 33rd level of parentheses and NOT.
    TooLarge,
    /// CREATE TABLE outside a main setup block. Reading never answers it, binding does.
    NotHere,
    /// Memory ran out. The offset is 0.
    NoMemory,
}

impl SqlErrorKind {
    /// The number that fault lines show.
    pub fn number(self) -> u8
        ensures { result ≡ number_of self }
    {
        match self {
            SqlErrorKind::BadToken => 1,
            SqlErrorKind::Unclosed => 2,
            SqlErrorKind::Syntax => 3,
            SqlErrorKind::Unsupported => 4,
            SqlErrorKind::NumberTooLarge => 5,
            SqlErrorKind::TooLarge => 6,
            SqlErrorKind::NotHere => 7,
            SqlErrorKind::NoMemory => 8,
        }
    }
}

impl fmt::Display for SqlErrorKind {
    fn fmt<W: fmt::Write>(&self, f: &mut fmt::Formatter<W>) -> fmt::Result {
        let words = match self {
            SqlErrorKind::BadToken => "no token",
            SqlErrorKind::Unclosed => "a text without its closing quote",
            SqlErrorKind::Syntax => "a token that cannot stand here",
            SqlErrorKind::Unsupported => "no statement of the subset",
            SqlErrorKind::NumberTooLarge => "a whole number outside i64",
            SqlErrorKind::TooLarge => "too large",
            SqlErrorKind::NotHere => "CREATE TABLE outside a main setup",
            SqlErrorKind::NoMemory => "out of memory",
        };
        write!(f, "{words}")
    }
}

impl Error for SqlErrorKind {}

/// Why a block was not read, and where.
#[derive(Clone, Copy, Debug, PartialEq, Eq)]
pub struct SqlError {
    pub kind: SqlErrorKind,
    /// The byte of the block at which the fault begins.
    pub offset: usize,
}

impl fmt::Display for SqlError {
    fn fmt<W: fmt::Write>(&self, f: &mut fmt::Formatter<W>) -> fmt::Result {
        write!(f, "{} at byte {}", self.kind, self.offset)
    }
}

impl Error for SqlError {}

/// A limit of the subset.
#[derive(Clone, Copy, PartialEq, Eq)]
pub enum Limit {
    /// A number outside i64.
    NumberTooLarge,
    /// The 101st row of an INSERT, or the 33rd level of parentheses and NOT.
    TooLarge,
}

/// Why a token stops the reading of a part.
#[derive(Clone, Copy, PartialEq, Eq)]
pub enum Why {
    /// It cannot stand here.
    CannotStand,
    /// It passes a limit.
    Passes(Limit),
}

/// Why reading stopped.
#[derive(Drop)]
pub enum Stop<'a> {
    Memory,
    /// At this token.
    At(Why, Placed<'a>),
}

impl From<AllocError> for Stop<'_> {
    ghost from_gives = { λ _ e. e ≡ Memory };

    fn from(_e: AllocError) -> Self {
        Stop::Memory
    }
}

impl<T: Drop> From<AllocFailed<T>> for Stop<'_> {
    ghost from_gives = { λ _ e. e ≡ Memory };

    fn from(_e: AllocFailed<T>) -> Self {
        Stop::Memory
    }
}

/// Why a block is not read.
#[derive(Drop)]
pub enum Failure {
    Memory,
    Refused(SqlError),
}

impl From<AllocError> for Failure {
    ghost from_gives = { λ _ e. e ≡ OutOfMemory };

    fn from(_e: AllocError) -> Failure {
        Failure::Memory
    }
}

impl<T: Drop> From<AllocFailed<T>> for Failure {
    ghost from_gives = { λ _ e. e ≡ OutOfMemory };

    fn from(_e: AllocFailed<T>) -> Failure {
        Failure::Memory
    }
}
