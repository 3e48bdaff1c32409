use std::alloc::{AllocError, AllocFailed};
use std::error::Error;
use std::fmt;

/// Why a JSON value gives no outcome.
#[derive(Clone, Copy, Debug, PartialEq, Eq)]
pub enum ValueError {
    /// It is no value of an outcome.
    BadField,
    /// Memory ran out.
    NoMemory,
}

impl From<AllocError> for ValueError {
    ghost use Rattle.std.specs.Prelude.{◌≡◌};
    ghost use Rattle.transcripts.specs.declared.error.ValueError.TheVariants.{NoMemory};

    ghost from_gives = { λ _ e. e ≡ NoMemory };

    fn from(_error: AllocError) -> ValueError {
        ValueError::NoMemory
    }
}

impl<T: Drop> From<AllocFailed<T>> for ValueError {
    ghost use Rattle.std.specs.Prelude.{◌≡◌};
    ghost use Rattle.transcripts.specs.declared.error.ValueError.TheVariants.{NoMemory};

    ghost from_gives = { λ _ e. e ≡ NoMemory };

    fn from(_error: AllocFailed<T>) -> ValueError {
        ValueError::NoMemory
    }
}

impl fmt::Display for ValueError {
    fn fmt<W: fmt::Write>(&self, f: &mut fmt::Formatter<W>) -> fmt::Result {
        match self {
            ValueError::BadField => f.write_str("no value of an outcome"),
            ValueError::NoMemory => f.write_str("no memory"),
        }
    }
}

impl Error for ValueError {}
