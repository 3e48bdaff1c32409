ghost use Rattle.std.specs.Prelude.{◌≡◌};
ghost use Rattle.book_stretches.specs.declared.error.TellError.TheVariants as tell_error;

use std::alloc::AllocError;
use std::error::Error;
use std::fmt;

/// Why it is not told what a book says of each rank.
#[derive(Clone, Copy, Debug, PartialEq, Eq)]
pub enum TellError {
    /// The least rank with more than one value.
    Clash(u64),
    /// Memory ran out.
    NoMemory,
}

impl fmt::Display for TellError {
    fn fmt<W: fmt::Write>(&self, f: &mut fmt::Formatter<W>) -> fmt::Result {
        match self {
            TellError::Clash(rank) => write!(f, "clash at rank {rank}"),
            TellError::NoMemory => f.write_str("no memory"),
        }
    }
}

impl Error for TellError {}

impl From<AllocError> for TellError {
    ghost from_gives = { λ _ e. e ≡ tell_error.NoMemory };

    fn from(_error: AllocError) -> TellError {
        TellError::NoMemory
    }
}
