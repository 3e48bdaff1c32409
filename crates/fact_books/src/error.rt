ghost use Rattle.std.specs.Prelude.{◌≡◌};
ghost use Rattle.fact_books.specs.declared.error.JoinError.TheVariants as join_error;
ghost use Rattle.fact_books.specs.declared.error.ReportError.TheVariants as report_error;

use std::alloc::AllocError;
use std::error::Error;
use std::fmt;

/// Why two books are not joined.
#[derive(Clone, Copy, Debug, PartialEq, Eq)]
pub enum JoinError {
    /// They are of different specs: their texts differ.
    SpecMismatch,
    /// Memory ran out.
    NoMemory,
}

impl fmt::Display for JoinError {
    fn fmt<W: fmt::Write>(&self, f: &mut fmt::Formatter<W>) -> fmt::Result {
        f.write_str(match self {
            JoinError::SpecMismatch => "books of different specs",
            JoinError::NoMemory => "no memory",
        })
    }
}

impl Error for JoinError {}

impl From<AllocError> for JoinError {
    ghost from_gives = { λ _ e. e ≡ join_error.NoMemory };

    fn from(_error: AllocError) -> JoinError {
        JoinError::NoMemory
    }
}

/// The ranks of a report, at most.
pub const MAX_REPORTED: u64 = 1_000_000;

/// Why a book has no report.
#[derive(Clone, Copy, Debug, PartialEq, Eq)]
pub enum ReportError {
    /// The spec has more ranks than a report may have.
    TooMany,
    /// The least rank that has not exactly one value has none.
    Missing(u64),
    /// The least rank that has not exactly one value has more than one.
    Clash(u64),
    /// Memory ran out.
    NoMemory,
}

impl fmt::Display for ReportError {
    fn fmt<W: fmt::Write>(&self, f: &mut fmt::Formatter<W>) -> fmt::Result {
        match self {
            ReportError::TooMany => f.write_str("too many ranks"),
            ReportError::Missing(rank) => write!(f, "missing rank {rank}"),
            ReportError::Clash(rank) => write!(f, "clash at rank {rank}"),
            ReportError::NoMemory => f.write_str("no memory"),
        }
    }
}

impl Error for ReportError {}

impl From<AllocError> for ReportError {
    ghost from_gives = { λ _ e. e ≡ report_error.NoMemory };

    fn from(_error: AllocError) -> ReportError {
        ReportError::NoMemory
    }
}
