//! A spec at the level that is asked for.

ghost use Rattle.std.specs.Prelude.{◌≡◌, IfErr, IfOk, None, Option, is_some, slice_get, true};
ghost use Rattle.bound_statements.specs.declared.statement.Level.{Level as Asked};
ghost use Rattle.fault_texts.specs.Places.{place};
ghost use Rattle.spec_levels.specs.Levelled.{IsLevelledSpec, IsNoLevelledSpec};
ghost use Rattle.spec_levels.specs.Parts.{IsFirstUnmodelled, IsLevelFor, IsModelled, IsNoLevelFor, IsUnmodelled};

use crate::asking::{LevelFault, LevelFaultKind, WrongLine, asking_lines, level_asked};
use bound_specs::Spec;
use bound_statements::Level;
use fault_texts::place_of;
use spec_binding::{SpecFault, spec_at, spec_of};
use spec_texts::repeatable_lines;
use std::alloc::{AllocError, Global};
use std::str;

/// Why bytes are no spec at the level that is asked for.
#[derive(Clone, Copy, PartialEq, Eq)]
pub enum LevelledFault {
    /// The bytes are no spec file.
    Spec(SpecFault),
    /// What the file says of levels is wrong: first its lines that ask for one, where no word does.
    Level(LevelFault),
    /// Memory ran out.
    NoMemory,
}

/// The spec that bytes are the file of, at the level that a word asks for; else at the one for which a line of the file asks; else where levels are not asked
/// for.
pub fn levelled_spec(
    alloc: Global,
    bytes: &[u8],
    word: Option<Level>,
) -> Result<Spec, LevelledFault>
    ensures file { IfOk result (IsLevelledSpec bytes.now word) }
    ensures text { IfOk result (λ spec. spec.text ≡ bytes.now) }
    ensures refused { IfErr result (IsNoLevelledSpec bytes.now word) }
{
    let asked = match level_for(alloc, bytes, word) {
        Ok(asked) => asked,
        Err(fault) => return Err(behind_spec(alloc, bytes, fault)),
    };
    match spec_at(alloc, bytes, asked) {
        Ok(spec) => modelled(alloc, spec),
        Err(fault) => Err(LevelledFault::Spec(fault)),
    }
}

/// Why bytes are no spec at a level where their lines that ask for one are wrong: that is told of a spec file alone.
fn behind_spec(alloc: Global, bytes: &[u8], fault: LevelledFault) -> LevelledFault
    ensures { (word : Option Asked) → IsNoLevelFor bytes.now word fault → IsNoLevelledSpec bytes.now word result }
{
    match spec_of(alloc, bytes) {
        Ok(_) => fault,
        Err(error) => LevelledFault::Spec(error),
    }
}

/// The level that is asked for, by a word or else by a line of the file.
fn level_for(
    alloc: Global,
    bytes: &[u8],
    word: Option<Level>,
) -> Result<Option<Level>, LevelledFault>
    ensures level { IfOk result (IsLevelFor bytes.now word) }
    ensures refused { IfErr result (IsNoLevelFor bytes.now word) }
{
    match word {
        Some(level) => Ok(Some(level)),
        None => level_in(alloc, bytes),
    }
}

fn level_in(alloc: Global, bytes: &[u8]) -> Result<Option<Level>, LevelledFault>
    ensures level { IfOk result (IsLevelFor bytes.now None) }
    ensures refused { IfErr result (IsNoLevelFor bytes.now None) }
{
    match str::from_utf8(bytes) {
        Ok(text) => level_in_text(alloc, text),
        Err(_) => Ok(None),
    }
}

fn level_in_text(alloc: Global, text: &str) -> Result<Option<Level>, LevelledFault>
    ensures level { IfOk result (IsLevelFor text.now None) }
    ensures refused { IfErr result (IsNoLevelFor text.now None) }
{
    let Ok(lines) = asking_lines(alloc, text) else {
        return Err(LevelledFault::NoMemory);
    };
    match level_asked(&lines) {
        Ok(level) => Ok(level),
        Err(wrong) => Err(LevelledFault::Level(fault_at(text, wrong))),
    }
}

/// A wrong line, by its number.
fn fault_at(text: &str, wrong: WrongLine) -> LevelFault
    ensures kind { result.kind ≡ wrong.kind }
    ensures line { result.line ≡ (place text.now wrong.at).line }
{
    LevelFault {
        kind: wrong.kind,
        line: place_of(text.as_bytes(), wrong.at).line,
    }
}

/// The spec, unless a level is asked for and a transaction of it begins at REPEATABLE READ.
fn modelled(alloc: Global, spec: Spec) -> Result<Spec, LevelledFault>
    ensures kept { IfOk result (λ s. s ≡ spec) }
    ensures modelled { IfOk result IsModelled }
    ensures refused { IfErr result (IsUnmodelled spec) }
{
    match unmodelled_line(alloc, &spec) {
        Ok(None) => Ok(spec),
        Ok(Some(line)) => Err(LevelledFault::Level(LevelFault {
            kind: LevelFaultKind::NotModelled,
            line,
        })),
        Err(AllocError) => Err(LevelledFault::NoMemory),
    }
}

/// The first line on which a transaction begins at a level that is not modelled, where levels are asked for.
fn unmodelled_line(alloc: Global, spec: &Spec) -> Result<Option<usize>, AllocError>
    ensures { IfOk result (IsFirstUnmodelled spec.now) }
{
    spec.known();
    match spec.levels() {
        None => Ok(None),
        Some(_) => first_repeatable(alloc, spec),
    }
}

/// The first line on which a transaction begins at REPEATABLE READ.
fn first_repeatable(alloc: Global, spec: &Spec) -> Result<Option<usize>, AllocError>
    requires { is_some spec.now.asked ≡ true }
    ensures { IfOk result (IsFirstUnmodelled spec.now) }
{
    let lines = repeatable_lines(alloc, spec)?;
    Ok(first_of(&lines))
}

fn first_of(lines: &[usize]) -> Option<usize>
    ensures { result ≡ slice_get lines.now 0 }
{
    match lines {
        [] => None,
        [line, ..] => Some(*line),
    }
}
