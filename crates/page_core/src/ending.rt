//! How a call ends.

ghost use Rattle.std.specs.Prelude.{◌≡◌};
ghost use Rattle.page_core.specs.Ends.{binding_end, classes_end, end_of, level_end, level_number, run_end, show_end, spec_end, start_end, text_end};

use class_commands::ClassesFault;
use session_machine::{RunError, StartError};
use spec_binding::{BindError, BindErrorKind, SpecFault};
use spec_commands::ShowFault;
use spec_levels::{LevelFault, LevelFaultKind};
use spec_reader::{SpecError, SpecErrorKind};

/// There is an answer.
pub const ANSWERED: u64 = 0;
/// The bytes are no spec file. The kind is that of a spec error, and the place an offset in the bytes.
pub const NO_SPEC: u64 = 1;
/// A block of the spec is no SQL that is known. The kind is that of an SQL error, and the place an offset in the bytes.
pub const NO_SQL: u64 = 2;
/// The statements of the spec do not fit its tables. The kind is that of a bind error, and the place an offset in the bytes.
pub const UNBOUND: u64 = 3;
/// The spec has no order of this rank.
pub const NO_RANK: u64 = 4;
/// The spec does not start. The kind is that of a start error, and the place the number of the setup block or of the session.
pub const NO_START: u64 = 5;
/// Memory ran out.
pub const NO_MEMORY: u64 = 6;
/// The buffer has no room for the text.
pub const NO_ROOM: u64 = 7;
/// The name of the spec is no UTF-8.
pub const NO_NAME: u64 = 8;
/// The orders of the spec lead to more different states than there is room for. The place is how many were noted.
pub const TOO_MANY: u64 = 9;
/// What the spec says of levels is wrong. The kind is 1 for a level that there is not, 2 for a second level, 3 for REPEATABLE READ where levels are asked
/// for, which is not modelled; and the place the number of the line, from 1.
pub const NO_LEVEL: u64 = 10;

/// How a call ended.
#[derive(Clone, Copy)]
#[repr(C)]
pub struct End {
    /// `ANSWERED`, or which fault.
    pub fault: u64,
    /// Of a fault its number among those of its kind, from 1, or 0.
    pub kind: u64,
    /// Of a fault where it is, or 0.
    pub place: u64,
}

pub(crate) fn end_of(fault: u64) -> End
    ensures { result ≡ end_of fault }
{
    End {
        fault,
        kind: 0,
        place: 0,
    }
}

pub(crate) fn spec_end(fault: SpecFault) -> End
    ensures { result ≡ spec_end fault }
{
    match fault {
        SpecFault::Text(error) => text_end(error),
        SpecFault::Binding(error) => binding_end(error),
    }
}

#[tactic(auto, using(crate::proofs::EndLemmas::text_other))]
fn text_end(error: SpecError) -> End
    ensures { result ≡ text_end error.offset error.kind }
{
    match error.kind {
        SpecErrorKind::NoMemory => end_of(NO_MEMORY),
        kind => End {
            fault: NO_SPEC,
            kind: u64::from(kind.number()),
            place: error.offset as u64,
        },
    }
}

#[tactic(auto, using(crate::proofs::EndLemmas::binding_other))]
fn binding_end(error: BindError) -> End
    ensures { result ≡ binding_end error.offset error.kind }
{
    let place = error.offset as u64;
    match error.kind {
        BindErrorKind::NoMemory => end_of(NO_MEMORY),
        BindErrorKind::Sql(kind) => End {
            fault: NO_SQL,
            kind: u64::from(kind.number()),
            place,
        },
        kind => End {
            fault: UNBOUND,
            kind: u64::from(kind.number()),
            place,
        },
    }
}

fn run_end(error: RunError) -> End
    ensures { result ≡ run_end error }
{
    match error {
        RunError::OutOfRange | RunError::TooLong => end_of(NO_RANK),
        RunError::Start(error) => start_end(error),
        RunError::NoMemory | RunError::TooDeep => end_of(NO_MEMORY),
    }
}

fn start_end(error: StartError) -> End
    ensures { result ≡ start_end error }
{
    let kind = u64::from(error.number());
    match error {
        StartError::SetupFailed { block } => End {
            fault: NO_START,
            kind,
            place: block,
        },
        StartError::SessionSetupFailed { session } | StartError::SessionSetupWaits { session } => {
            End {
                fault: NO_START,
                kind,
                place: session,
            }
        }
        StartError::NoMemory => end_of(NO_MEMORY),
    }
}

/// The end of a call over a spec that says something wrong of levels: the kind is its number, from 1, and the place its line.
pub(crate) fn level_end(fault: LevelFault) -> End
    ensures { result ≡ level_end fault.line fault.kind }
{
    End {
        fault: NO_LEVEL,
        kind: level_number(fault.kind),
        place: fault.line as u64,
    }
}

fn level_number(kind: LevelFaultKind) -> u64
    ensures { result ≡ level_number kind }
{
    match kind {
        LevelFaultKind::NoSuchLevel => 1,
        LevelFaultKind::SecondLevel => 2,
        LevelFaultKind::NotModelled => 3,
    }
}

/// The end of a call that shows the order of a rank. A write to memory fails where that runs out.
pub(crate) fn show_end(fault: ShowFault) -> End
    ensures { result ≡ show_end fault }
{
    match fault {
        ShowFault::Spec(fault) => spec_end(fault),
        ShowFault::Level(fault) => level_end(fault),
        ShowFault::NoRank(_) | ShowFault::OutOfRange => end_of(NO_RANK),
        ShowFault::Run(error) => run_end(error),
        ShowFault::NoMemory | ShowFault::Write(_) => end_of(NO_MEMORY),
    }
}

/// The end of a call that tells classes of all orders. Nothing is asked that could be refused, but for want of memory.
pub(crate) fn classes_end(fault: ClassesFault<'_>) -> End
    ensures { result ≡ classes_end fault.entry }
{
    match fault {
        ClassesFault::Spec(fault) => spec_end(fault),
        ClassesFault::Level(fault) => level_end(fault),
        ClassesFault::Run(error) => run_end(error),
        ClassesFault::TooMany(noted) => End {
            fault: TOO_MANY,
            kind: 0,
            place: noted,
        },
        ClassesFault::Asked(_) | ClassesFault::NoMemory | ClassesFault::Write(_) => {
            end_of(NO_MEMORY)
        }
    }
}
