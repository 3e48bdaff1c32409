//! One spec beside its accepted record.

ghost use Rattle.std.specs.Prelude.{◌≡◌, ℕ, IfErr, IfOk, List, None, Option, Some, true};
ghost use Rattle.bound_statements.specs.declared.statement.Level.{Level};
ghost use Rattle.test_commands.specs.Testing.{IsNotTested, IsTested, IsText, IsVerdict, WantsAll, told_as};

use book_commands::{FileReader, Opener};
use bound_statements::Level;
use class_commands::{ClassesFault, classes};
use schedule_counts::Unwatched;
use std::alloc::Global;
use transcripts::{Counted, ReadError};
use wanted_classes::{DEFAULT_MEMORY, WantedClasses, WantedForm};

/// The bytes of an accepted record that are read, at most, but that one byte more is read than the text has with which it is compared.
pub const MAX_ACCEPTED: usize = 67_108_864;

/// A spec that is tested.
#[derive(Drop)]
pub struct Tested {
    /// Its record.
    pub text: Vec<u8>,
    pub verdict: Verdict,
}

/// What the accepted record of a spec is, beside that of today.
#[derive(Drop)]
pub enum Verdict {
    /// The same, byte for byte.
    Same,
    /// Another one, which is this.
    Other(Vec<u8>),
    /// There is none that is opened.
    Missing,
}

/// Why a spec is not tested.
#[derive(Clone, Copy, Drop)]
pub enum TestFault {
    /// It has no record.
    Classes(ClassesFault<'static>),
    /// The accepted record is not read.
    Accepted,
    /// Memory ran out.
    NoMemory,
}

/// Makes the record of the spec file that bytes are, under a name and at a level, and compares it with the accepted one. Where no level is asked for, it is
/// the one for which the file asks.
pub fn test_spec<O: Opener>(
    alloc: Global,
    opener: &O,
    bytes: &[u8],
    name: &str,
    accepted: &str,
    level: Option<Level>,
) -> Result<Tested, TestFault>
    ensures tested { IfOk result (IsTested (O.bytes opener.now accepted.now) level bytes.now name.now) }
    ensures refused { IfErr result (IsNotTested (O.bytes opener.now accepted.now) level bytes.now name.now) }
{
    let text = match text_of(alloc, bytes, name, level) {
        Ok(text) => text,
        Err(fault) => return Err(fault),
    };
    match verdict_on(alloc, opener, text.as_slice(), accepted) {
        Ok(verdict) => Ok(Tested { text, verdict }),
        Err(fault) => Err(fault),
    }
}

/// The record at a level of the spec file that bytes are.
fn text_of(
    alloc: Global,
    bytes: &[u8],
    name: &str,
    level: Option<Level>,
) -> Result<Vec<u8>, TestFault>
    ensures text { IfOk result (λ text. IsText level bytes.now name.now text.items) }
    ensures refused { IfErr result (λ fault. (known : Option (List ℕ)) → IsNotTested known level bytes.now name.now fault) }
{
    let wanted = all_of_classes(alloc, level);
    let mut out = Counted::new(Vec::new(alloc));
    match classes(alloc, bytes, name, &wanted, &Unwatched, &mut out) {
        Ok(_) => Ok(out.into_inner()),
        Err(fault) => Err(told_as(fault)),
    }
}

/// Why a spec is not tested whose classes are not told. A text in memory is not written where there is none left.
fn told_as(fault: ClassesFault<'static>) -> TestFault
    ensures { result ≡ told_as fault.entry }
{
    match fault {
        ClassesFault::Spec(fault) => TestFault::Classes(ClassesFault::Spec(fault)),
        ClassesFault::Level(fault) => TestFault::Classes(ClassesFault::Level(fault)),
        ClassesFault::Asked(fault) => TestFault::Classes(ClassesFault::Asked(fault)),
        ClassesFault::Run(error) => TestFault::Classes(ClassesFault::Run(error)),
        ClassesFault::TooMany(noted) => TestFault::Classes(ClassesFault::TooMany(noted)),
        ClassesFault::NoMemory | ClassesFault::Write(_) => TestFault::NoMemory,
    }
}

/// The record of the results of the orders that clients can send, at a level, or at the one for which the file asks.
fn all_of_classes(alloc: Global, level: Option<Level>) -> WantedClasses<'static>
    ensures { WantsAll level result }
{
    WantedClasses {
        all_orders: false,
        sample: None,
        memory: DEFAULT_MEMORY,
        by_result: true,
        filters: Vec::new(alloc),
        queries: Vec::new(alloc),
        expectations: Vec::new(alloc),
        brief: false,
        outcomes: false,
        final_rows: false,
        form: WantedForm::Record,
        level,
    }
}

/// What the file at a path is beside the text.
fn verdict_on<O: Opener>(
    alloc: Global,
    opener: &O,
    text: &[u8],
    path: &str,
) -> Result<Verdict, TestFault>
    ensures verdict { IfOk result (IsVerdict (O.bytes opener.now path.now) text.now) }
    ensures refused { IfErr result (λ fault. (level : Option Level) (bytes name : List ℕ) → IsNotTested (O.bytes opener.now path.now) level bytes name fault) }
{
    let Some(reader) = opener.open(path) else {
        return Ok(Verdict::Missing);
    };
    let mut input = Counted::new(reader);
    match input.read_up_to(alloc, text.len().max(MAX_ACCEPTED).saturating_add(1)) {
        Ok(accepted) => Ok(compared(accepted, text)),
        Err(ReadError::Fault) => Err(read_fault(input.into_inner().has_failed())),
        Err(ReadError::NoMemory) => Err(TestFault::NoMemory),
    }
}

fn compared(accepted: Vec<u8>, text: &[u8]) -> Verdict
    ensures { IsVerdict (Some accepted.items) text.now result }
{
    if accepted.as_slice() == text {
        return Verdict::Same;
    }
    Verdict::Other(accepted)
}

/// A read fault is told of a reader that has failed. That no other is told of one is known to what reads, and not from its contract.
fn read_fault(has_failed: bool) -> TestFault
    ensures { (known : Option (List ℕ)) → (has_failed ≡ true → known ≡ None) → (level : Option Level) (bytes name : List ℕ) → IsNotTested known level bytes name result }
{
    if has_failed {
        return TestFault::Accepted;
    }
    TestFault::NoMemory
}
