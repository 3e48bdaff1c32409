//! How much a spec has, and what of it has no effect, from its bytes to the text.

ghost use Rattle.std.specs.Prelude.{◌<◌, ℕ, IfErr, IfOk, List, None, string_bytes};
ghost use Rattle.spec_binding.specs.SpecFiles.{IsNoSpec};
ghost use Rattle.spec_levels.specs.Levelled.{IsNoLevelledSpec};
ghost use Rattle.transcripts.specs.Counted.{failures_of};
ghost use Rattle.spec_checks.specs.Checking.{IsChecked, IsIdle, IsNotRead};
ghost use Rattle.spec_checks.specs.Idle.{IsIdleText};

use crate::idle::idle_lines;
use bound_statements::Level;
use spec_binding::SpecFault;
use spec_commands::{CountFault, check as check_counts};
use spec_levels::{LevelFault, LevelledFault, levelled_spec};
use spec_reader::{SpecError, SpecErrorKind, read_spec};
use std::alloc::Global;
use std::io::Write;
use transcripts::{Counted, WriteFault};

/// Why it was not written what a check tells of a spec. Each is tried before those below it, but for want of memory.
#[derive(Clone, Copy, PartialEq, Eq)]
pub enum CheckFault {
    /// The bytes are no spec file.
    Spec(SpecFault),
    /// What the file says of levels is wrong.
    Level(LevelFault),
    /// Memory ran out.
    NoMemory,
    /// The text was not written; a front of it may be.
    Write(WriteFault),
}

const NO_MEMORY: SpecError = SpecError {
    kind: SpecErrorKind::NoMemory,
    offset: 0,
};

/// Reads a spec, and writes how many sessions, steps and permutations it has, and then a line for each kind of part that it has and that has no
/// effect: isolation levels unless the file asks for one, settings, NOT NULL, teardowns and markers, by the lines of the file on which they begin.
pub fn check<W: Write>(alloc: Global, bytes: &[u8], out: &mut Counted<W>) -> Result<(), CheckFault>
    requires { failures_of out.old < u64.MAX }
    ensures { IsChecked W.contents out.old out.new bytes.now result }
{
    let idle = match idle_of(alloc, bytes) {
        Ok(idle) => idle,
        Err(fault) => return Err(fault),
    };
    match check_counts(alloc, bytes, out) {
        Ok(()) => {}
        Err(CountFault::Spec(fault)) => return Err(CheckFault::Spec(fault)),
        Err(CountFault::Write(fault)) => return Err(CheckFault::Write(fault)),
    }
    match out.write_str(&idle) {
        Ok(()) => Ok(()),
        Err(fault) => Err(CheckFault::Write(fault)),
    }
}

/// What is told of the parts of a spec that have no effect at the level for which its file asks.
fn idle_of(alloc: Global, bytes: &[u8]) -> Result<String, CheckFault>
    ensures told { IfOk result (λ told. IsIdle bytes.now (string_bytes told)) }
    ensures refused { IfErr result (IsNotRead bytes.now) }
{
    let spec = match levelled_spec(alloc, bytes, None) {
        Ok(spec) => spec,
        Err(fault) => return Err(not_read(fault)),
    };
    match idle_text(alloc, bytes, spec.levels()) {
        Ok(told) => Ok(told),
        Err(fault) => Err(CheckFault::Spec(fault)),
    }
}

/// Why nothing is told of bytes that are no spec at the level for which they ask.
fn not_read(fault: LevelledFault) -> CheckFault
    ensures { (bytes : List ℕ) → IsNoLevelledSpec bytes None fault → IsNotRead bytes result }
{
    match fault {
        LevelledFault::Spec(fault) => CheckFault::Spec(fault),
        LevelledFault::Level(fault) => CheckFault::Level(fault),
        LevelledFault::NoMemory => CheckFault::NoMemory,
    }
}

/// What is told of the parts of a file that have no effect where this level is asked for. It is not looked at whether the file can be bound.
fn idle_text(alloc: Global, bytes: &[u8], asked: Option<Level>) -> Result<String, SpecFault>
    ensures told { IfOk result (λ told. IsIdleText bytes.now asked (string_bytes told)) }
    ensures refused { IfErr result (IsNoSpec bytes.now) }
{
    let file = match read_spec(alloc, bytes) {
        Ok(file) => file,
        Err(error) => return Err(SpecFault::Text(error)),
    };
    match idle_lines(alloc, &file, asked) {
        Ok(told) => Ok(told),
        Err(_) => Err(SpecFault::Text(NO_MEMORY)),
    }
}
