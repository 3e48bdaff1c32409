ghost use Rattle.std.specs.Prelude.{◌≡◌};
ghost use Rattle.book_format.specs.declared.write_error.WriteError.TheVariants as write_error;

use std::alloc::AllocError;
use std::error::Error;
use std::fmt;

/// Why a book is not written. Each refusal is tried before those below it, but that memory may run out wherever it is asked for.
#[derive(Clone, Copy, Debug, PartialEq, Eq)]
pub enum WriteError {
    /// The text, or the number of facts, is over its limit. Nothing was written.
    TooLarge,
    /// Memory ran out. Nothing was written.
    NoMemory,
    /// The writer failed, and has a front of the text.
    WriteFault,
}

impl fmt::Display for WriteError {
    fn fmt<W: fmt::Write>(&self, f: &mut fmt::Formatter<W>) -> fmt::Result {
        f.write_str(match self {
            WriteError::TooLarge => "a book over its limit",
            WriteError::NoMemory => "no memory",
            WriteError::WriteFault => "write fault",
        })
    }
}

impl Error for WriteError {}

impl From<AllocError> for WriteError {
    ghost from_gives = { λ _ e. e ≡ write_error.NoMemory };

    fn from(_error: AllocError) -> WriteError {
        WriteError::NoMemory
    }
}
