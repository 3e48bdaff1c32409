//! Why books are refused.

ghost use Rattle.std.specs.Prelude.{◌≡◌};
ghost use Rattle.book_format.specs.declared.error.BookError.TheVariants as book_error;
ghost use Rattle.book_format.specs.Reading.{book_number_of};

use std::alloc::{AllocError, AllocFailed};
use std::error::Error;
use std::fmt;

/// Why a file is no book. The first that applies is answered, in the order of the format.
#[derive(Clone, Copy, Debug, PartialEq, Eq)]
pub enum BookError {
    /// The bytes are no JSON value.
    NotJson,
    /// A member or an item that is missing, too many, or of no form; or an outcome that no fact names.
    BadField,
    /// A format with another number.
    BadVersion,
    /// The text of the spec is refused.
    BadSpec,
    /// A rank that the spec does not have.
    BadRank,
    /// Facts or outcomes that do not rise, or runs of one fact that overlap or touch.
    OutOfOrder,
    /// A swap that leads nowhere.
    BadSwap,
    /// Over 268,435,456 bytes, or over 30,000,000 facts.
    TooLarge,
    /// Memory ran out.
    NoMemory,
    /// The reader failed.
    ReadFault,
}

impl BookError {
    /// The number that fault lines show.
    pub fn number(self) -> u8
        ensures { result ≡ book_number_of self }
    {
        match self {
            BookError::NotJson => 1,
            BookError::BadField => 2,
            BookError::BadVersion => 3,
            BookError::BadSpec => 4,
            BookError::BadRank => 5,
            BookError::OutOfOrder => 6,
            BookError::BadSwap => 7,
            BookError::TooLarge => 8,
            BookError::NoMemory => 9,
            BookError::ReadFault => 10,
        }
    }
}

impl fmt::Display for BookError {
    fn fmt<W: fmt::Write>(&self, f: &mut fmt::Formatter<W>) -> fmt::Result {
        f.write_str(match self {
            BookError::NotJson => "no JSON value",
            BookError::BadField => "a field of no form",
            BookError::BadVersion => "a format of another number",
            BookError::BadSpec => "a spec that is refused",
            BookError::BadRank => "a rank that the spec does not have",
            BookError::OutOfOrder => "facts out of order",
            BookError::BadSwap => "a swap that leads nowhere",
            BookError::TooLarge => "a book that is too large",
            BookError::NoMemory => "no memory",
            BookError::ReadFault => "read fault",
        })
    }
}

impl Error for BookError {}

impl From<AllocError> for BookError {
    ghost from_gives = { λ _ e. e ≡ book_error.NoMemory };

    fn from(_error: AllocError) -> BookError {
        BookError::NoMemory
    }
}

impl<T: Drop> From<AllocFailed<T>> for BookError {
    ghost from_gives = { λ _ e. e ≡ book_error.NoMemory };

    fn from(_error: AllocFailed<T>) -> BookError {
        BookError::NoMemory
    }
}
