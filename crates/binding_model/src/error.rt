//! Why a spec file was not bound.

ghost use Rattle.std.specs.Prelude.{◌≡◌};
ghost use Rattle.binding_model.specs.declared.error.BindStop.TheVariants.{Memory};
ghost use Rattle.binding_model.specs.Refusals.{bind_number_of};

use sql_grammar::SqlErrorKind;
use std::alloc::{AllocError, AllocFailed};
use std::error::Error;
use std::fmt;

/// What is wrong with a spec file that is read. For a statement the first of these that holds is answered, and an unknown table hides all behind it.
#[derive(Clone, Copy, Debug, PartialEq, Eq)]
pub enum BindErrorKind {
    /// A block is no SQL of the subset, or has a statement that cannot stand there, or too many columns or tables are declared.
    Sql(SqlErrorKind),
    /// No statement before declares a table of this name.
    UnknownTable,
    /// The table has no column of this name, or no column has the name of a declared key.
    UnknownColumn,
    /// Arithmetic or a sum on a text, a comparison of two types, or a value of another type than its column.
    TypeMismatch,
    /// The primary key is set.
    KeyChanged,
    /// A second table of this name.
    DuplicateTable,
    /// New rows without each column once, a column that is set or declared twice, or two primary keys.
    WrongCount,
    /// Over 8 sessions, over 255 steps with permutation lines, or without them over 28 steps or orders whose ranks do not have 63 bits.
    Shape,
    /// Memory ran out. The offset is 0.
    NoMemory,
}

impl BindErrorKind {
    /// The number that fault lines show.
    pub fn number(self) -> u8
        ensures { result ≡ bind_number_of self }
    {
        match self {
            BindErrorKind::Sql(_) => 1,
            BindErrorKind::UnknownTable => 2,
            BindErrorKind::UnknownColumn => 3,
            BindErrorKind::TypeMismatch => 4,
            BindErrorKind::KeyChanged => 5,
            BindErrorKind::DuplicateTable => 6,
            BindErrorKind::WrongCount => 7,
            BindErrorKind::Shape => 8,
            BindErrorKind::NoMemory => 9,
        }
    }
}

/// A statement that begins at this offset is refused.
pub fn refused(at: usize, kind: BindErrorKind) -> BindStop
    ensures { result ≡ BindStop.Refused (record { kind = kind; offset = at }) }
{
    BindStop::Refused(BindError { kind, offset: at })
}

impl fmt::Display for BindErrorKind {
    fn fmt<W: fmt::Write>(&self, f: &mut fmt::Formatter<W>) -> fmt::Result {
        let words = match self {
            BindErrorKind::Sql(kind) => return write!(f, "{kind}"),
            BindErrorKind::UnknownTable => "no table of this name",
            BindErrorKind::UnknownColumn => "no column of this name",
            BindErrorKind::TypeMismatch => "a value of another type",
            BindErrorKind::KeyChanged => "a key is set",
            BindErrorKind::DuplicateTable => "a second table of this name",
            BindErrorKind::WrongCount => "another number of values than columns",
            BindErrorKind::Shape => "too many sessions or steps",
            BindErrorKind::NoMemory => "out of memory",
        };
        write!(f, "{words}")
    }
}

impl Error for BindErrorKind {}

/// Why a spec file was not bound, and where.
#[derive(Clone, Copy, Debug, PartialEq, Eq)]
pub struct BindError {
    pub kind: BindErrorKind,
    /// The byte of the file at which the fault or its statement begins.
    pub offset: usize,
}

impl fmt::Display for BindError {
    fn fmt<W: fmt::Write>(&self, f: &mut fmt::Formatter<W>) -> fmt::Result {
        write!(f, "{} at byte {}", self.kind, self.offset)
    }
}

impl Error for BindError {}

/// Why binding stopped.
#[derive(Drop)]
pub enum BindStop {
    Memory,
    Refused(BindError),
}

impl From<AllocError> for BindStop {
    ghost from_gives = { λ _ e. e ≡ Memory };

    fn from(_e: AllocError) -> BindStop {
        BindStop::Memory
    }
}

impl<T: Drop> From<AllocFailed<T>> for BindStop {
    ghost from_gives = { λ _ e. e ≡ Memory };

    fn from(_e: AllocFailed<T>) -> BindStop {
        BindStop::Memory
    }
}
