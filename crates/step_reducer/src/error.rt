ghost use Rattle.std.specs.Prelude.{◌≡◌};
ghost use Rattle.step_reducer.specs.declared.error.WalkError.TheVariants as walk_error;

use std::alloc::AllocError;
use std::error::Error;
use std::fmt;

/// Why a walker gives no fact.
#[derive(Clone, Copy, Debug, PartialEq, Eq)]
pub enum WalkError {
    /// Memory ran out; the walker is spent from then on.
    NoMemory,
    /// An earlier call was refused memory.
    Spent,
}

impl fmt::Display for WalkError {
    fn fmt<W: fmt::Write>(&self, f: &mut fmt::Formatter<W>) -> fmt::Result {
        f.write_str(match self {
            WalkError::NoMemory => "no memory",
            WalkError::Spent => "the walker is spent",
        })
    }
}

impl Error for WalkError {}

impl From<AllocError> for WalkError {
    ghost from_gives = { λ _ e. e ≡ walk_error.NoMemory };

    fn from(_error: AllocError) -> WalkError {
        WalkError::NoMemory
    }
}
