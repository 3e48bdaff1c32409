//! What is found of one spec beside the accepted record of its classes.

ghost use Rattle.std.specs.Prelude.{◌≡◌, ◌⊎◌, ℕ, List, Option, false, true};
ghost use Rattle.bound_statements.specs.declared.statement.Level.{Level};
ghost use Rattle.book_commands.specs.Joining.{Files};
ghost use Rattle.book_commands.specs.declared.finding.Finding.TheVariants.{Bad, NoMemory};
ghost use Rattle.test_commands.specs.Testing.{IsTested};
ghost use Rattle.program_commands.specs.Testing.{IsFoundOf, IsSpecAt, fault_found, testing_told};

use crate::faults::classes_fault;
use crate::files::read_spec_file;
use accepted_classes::{Changes, accepted_path, changes_text, compare_texts, file_name};
use book_commands::Finding;
use bound_statements::Level;
use fault_texts::ProgramFault;
use std::alloc::{AllocError, Global};
use test_commands::{Folder, TestFault, Tested, Verdict, test_spec};

/// What a fault's line begins with, which is not told of one spec among several.
const PROGRAM: &str = "isofarm: ";

/// What is found of a spec, and what is told of it behind its path.
#[derive(Drop)]
pub(crate) struct Found {
    pub(crate) finding: Finding,
    pub(crate) told: Told,
}

/// What is told of a spec: a line that is always the same, or lines of its own.
#[derive(Drop)]
pub(crate) enum Told {
    AsAccepted,
    Accepted,
    NoneAccepted,
    NotWritten,
    NoMemory,
    Lines(String),
}

impl Told {
    pub(crate) fn as_str(&self) -> &str {
        match self {
            Told::AsAccepted => "as accepted\n",
            Told::Accepted => "accepted\n",
            Told::NoneAccepted => "no accepted text\n",
            Told::NotWritten => "accepted text not written\n",
            Told::NoMemory => "no memory\n",
            Told::Lines(lines) => lines.as_str(),
        }
    }
}

/// What is found of the spec at a path at a level, or at the one for which it asks.
pub(crate) fn test_of_file<F: Folder>(
    alloc: Global,
    path: &str,
    level: Option<Level>,
    updates: bool,
    folder: &F,
) -> Found
    ensures { IsFoundOf (F.bytes folder.now) level updates path.now result.finding }
{
    let bytes = match read_spec_file(alloc, folder, path) {
        Ok(bytes) => bytes,
        Err(fault) => return refused(alloc, path, &fault),
    };
    let Ok(accepted) = accepted_path(alloc, path) else {
        return no_memory();
    };
    let accepted = accepted.as_str();
    let bytes = bytes.as_slice();
    match test_spec(alloc, folder, bytes, file_name(path), accepted, level) {
        Ok(tested) if updates => updated(alloc, accepted, &tested, folder),
        Ok(tested) => compared(alloc, bytes, &tested),
        Err(fault) => refused(alloc, path, &fault_of(path, accepted, fault)),
    }
}

fn found_as(finding: Finding, told: Told) -> Found
    ensures { result.finding ≡ finding }
{
    Found { finding, told }
}

/// What is found where memory ran out.
fn no_memory() -> Found
    ensures { result.finding ≡ NoMemory }
{
    found_as(Finding::NoMemory, Told::NoMemory)
}

/// The fault that is told of a spec that is not tested.
fn fault_of<'p>(path: &'p str, accepted: &'p str, fault: TestFault) -> ProgramFault<'p>
    ensures { result ≡ testing_told path.entry accepted.entry fault }
{
    match fault {
        TestFault::Classes(fault) => classes_fault(path, fault),
        TestFault::Accepted => ProgramFault::Read { path: accepted },
        TestFault::NoMemory => ProgramFault::NoMemory,
    }
}

/// Whether the accepted record is that of the classes, or how it differs.
fn compared(alloc: Global, bytes: &[u8], tested: &Tested) -> Found
    ensures { (files : Files) (level : Option Level) (path name accepted : List ℕ) → IsSpecAt files path bytes.now name accepted → IsTested (files accepted) level bytes.now name tested.now → IsFoundOf files level false path result.finding }
{
    match &tested.verdict {
        Verdict::Same => found_as(Finding::Good, Told::AsAccepted),
        Verdict::Missing => found_as(Finding::Bad, Told::NoneAccepted),
        Verdict::Other(other) => changed(alloc, other, &tested.text),
    }
}

/// How the record differs from the accepted one.
fn changed(alloc: Global, accepted: &[u8], text: &[u8]) -> Found
    ensures { (result.finding ≡ Bad) ⊎ (result.finding ≡ NoMemory) }
{
    match changes_of(alloc, accepted, text) {
        Ok(lines) => found_as(Finding::Bad, Told::Lines(lines)),
        Err(_) => no_memory(),
    }
}

/// How the record differs from the accepted one, in lines.
fn changes_of(alloc: Global, accepted: &[u8], text: &[u8]) -> Result<String, AllocError> {
    let Ok(was) = str::from_utf8(accepted) else {
        return changes_text(alloc, &Changes::Unread);
    };
    let Ok(is) = str::from_utf8(text) else {
        return changes_text(alloc, &Changes::Unread);
    };
    changes_text(alloc, &compare_texts(alloc, was, is)?)
}

/// Accepts the classes as they are, and tells whether their text was written.
fn updated<F: Folder>(alloc: Global, accepted: &str, tested: &Tested, folder: &F) -> Found
    ensures { (files : Files) (level : Option Level) (path bytes name : List ℕ) → IsSpecAt files path bytes name accepted.now → IsTested (files accepted.now) level bytes name tested.now → IsFoundOf files level true path result.finding }
{
    if let Verdict::Same = &tested.verdict {
        return found_as(Finding::Good, Told::AsAccepted);
    }
    match folder.put(alloc, accepted, &tested.text) {
        Ok(true) => found_as(Finding::Good, Told::Accepted),
        Ok(false) => found_as(Finding::Unread, Told::NotWritten),
        Err(_) => no_memory(),
    }
}

/// Why a spec is not tested.
fn refused(alloc: Global, path: &str, fault: &ProgramFault<'_>) -> Found
    ensures { (result.finding ≡ fault_found fault.now) ⊎ (result.finding ≡ NoMemory) }
{
    match refused_text(alloc, path, fault) {
        Ok(line) => found_as(fault_found(fault), Told::Lines(line)),
        Err(_) => no_memory(),
    }
}

/// How a fault ends.
fn fault_found(fault: &ProgramFault<'_>) -> Finding
    ensures { result ≡ fault_found fault.now }
{
    match fault {
        ProgramFault::NoMemory => Finding::NoMemory,
        ProgramFault::Read { .. } | ProgramFault::Write => Finding::Unread,
        _ => Finding::Refused,
    }
}

/// What a fault's line tells behind the program's name and the path.
fn refused_text(alloc: Global, path: &str, fault: &ProgramFault<'_>) -> Result<String, AllocError> {
    let line = format!(in alloc; "{fault}\n")?;
    let mut text = String::new(alloc);
    text.push_str(behind(path, line.as_str()))?;
    Ok(text)
}

fn behind<'t>(path: &str, line: &'t str) -> &'t str {
    let told = match line.strip_prefix(PROGRAM) {
        Some(told) => told,
        None => line,
    };
    let rest = match told.strip_prefix(path) {
        Some(rest) => rest,
        None => return told,
    };
    // Another path may begin with this one, as that of an accepted record does.
    match rest.strip_prefix(": ") {
        Some(text) => text,
        None => told,
    }
}
