ghost use Rattle.std.specs.Prelude.{◌≡◌};
ghost use Rattle.session_machine.specs.declared.error.RunError.TheVariants as run_error;

use session_steps::StartError;
use std::alloc::AllocError;
use std::error::Error;
use std::fmt;

/// Why permutations of a spec were not run.
#[derive(Clone, Copy, Debug, PartialEq, Eq)]
pub enum RunError {
    /// A range that ends before it begins, or past the last rank.
    OutOfRange,
    /// A range of too many ranks.
    TooLong,
    /// The spec does not start. Want of memory in a start is `NoMemory`.
    Start(StartError),
    /// Memory ran out.
    NoMemory,
    /// A job of too many levels.
    TooDeep,
}

impl fmt::Display for RunError {
    fn fmt<W: fmt::Write>(&self, f: &mut fmt::Formatter<W>) -> fmt::Result {
        match self {
            RunError::OutOfRange => f.write_str("ranks out of range"),
            RunError::TooLong => f.write_str("too many ranks"),
            RunError::Start(error) => write!(f, "{error}"),
            RunError::NoMemory => f.write_str("no memory"),
            RunError::TooDeep => f.write_str("too many levels"),
        }
    }
}

impl Error for RunError {}

impl From<AllocError> for RunError {
    ghost from_gives = { λ _ e. e ≡ run_error.NoMemory };

    fn from(_error: AllocError) -> RunError {
        RunError::NoMemory
    }
}
