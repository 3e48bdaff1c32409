ghost use Rattle.std.specs.Prelude.{◌≡◌};
ghost use Rattle.book_audit.specs.declared.error.AuditError.TheVariants as audit_error;

use std::alloc::AllocError;
use std::error::Error;
use std::fmt;

/// Why a book does not pass an audit.
#[derive(Clone, Copy, Debug, PartialEq, Eq)]
pub enum AuditError {
    /// This is the least rank with a fact that is not true.
    False(u64),
    /// Memory ran out.
    NoMemory,
}

impl fmt::Display for AuditError {
    fn fmt<W: fmt::Write>(&self, f: &mut fmt::Formatter<W>) -> fmt::Result {
        match self {
            AuditError::False(rank) => write!(f, "false at rank {rank}"),
            AuditError::NoMemory => f.write_str("no memory"),
        }
    }
}

impl Error for AuditError {}

impl From<AllocError> for AuditError {
    ghost from_gives = { λ _ e. e ≡ audit_error.NoMemory };

    fn from(_error: AllocError) -> AuditError {
        AuditError::NoMemory
    }
}
