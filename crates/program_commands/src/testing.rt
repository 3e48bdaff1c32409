//! Specs beside the accepted records of their classes.

ghost use Rattle.std.specs.Prelude.{◌≡◌, ℕ, Bool, true, false, Err, List, Option, IfOk, IfErr, OnOk, is_some, length, map, string_bytes, vec_len};
ghost use Rattle.bound_statements.specs.declared.statement.Level.{Level};
ghost use Rattle.transcripts.specs.Counted.{failures_of};
ghost use Rattle.book_commands.specs.Joining.{Files};
ghost use Rattle.test_commands.specs.Testing.{AreNoSpecs};
ghost use Rattle.program_commands.specs.Testing.{IsReportEnd, IsTestRun, IsWorstOf, worse, worst_with};
ghost use Rattle.program_commands.specs.SideBySide.{findings_in};

use crate::one_spec::{Found, test_of_file};
use crate::side_by_side::test_side_by_side;
use book_commands::Finding;
use bound_statements::Level;
use fault_texts::ProgramFault;
use shard_board::Workers;
use std::alloc::{AllocError, Global};
use std::io::Write;
use std::thread::Threads;
use test_commands::{Case, Ending, Folder, SpecsFault, junit_text, specs_in};
use transcripts::{Counted, WriteFault};

/// How many specs are tested before what is found of them is told.
const AHEAD: usize = 64;

/// What is to be tested, and what is written of it.
#[derive(Clone, Copy)]
pub(crate) struct TestWords<'w, 'a> {
    /// Spec files, and folders of them.
    pub(crate) paths: &'w [&'a str],
    /// Whether accepted records are written that are not those of today.
    pub(crate) updates: bool,
    /// Where a report in the form of JUnit is written.
    pub(crate) junit: Option<&'a str>,
    /// The level at which they are tested; where there is none, each is tested at the one for which its file asks.
    pub(crate) level: Option<Level>,
}

/// What is found of specs: the worst of what is found of each; and of their report, whether it could be made and written.
#[derive(Clone, Copy)]
struct Ended {
    specs: Finding,
    report: Finding,
}

/// Tells of each spec at some paths whether its classes are as accepted, or how they differ. What is found is the worst of what is found of each.
pub(crate) fn test_of_files<'a, R: Threads + Sync, F: Folder + Sync, W: Write>(
    rt: &R,
    alloc: Global,
    words: &TestWords<'_, 'a>,
    workers: &Workers,
    folder: &F,
    out: &mut Counted<W>,
) -> Result<Finding, ProgramFault<'a>>
where
    F::Reader: Send,
    requires { failures_of out.old ≡ 0 }
    ensures done { IsTestRun (F.bytes folder.now) (map (λ p. p.now) words.now.paths.now) words.now.level words.now.updates (is_some words.now.junit) result }
    ensures failures { OnOk result (failures_of out.new ≡ 0) }
{
    let specs = match specs_in(alloc, folder, words.paths) {
        Ok(specs) => specs,
        Err(fault) => return Err(specs_fault(fault)),
    };
    let mut cases = Vec::new(alloc);
    let ended = match test_all(
        rt,
        alloc,
        &specs,
        words.level,
        words.updates,
        workers,
        folder,
        &mut cases,
        out,
    ) {
        Ok(ended) => ended,
        Err(fault) => return Err(fault),
    };
    match words.junit {
        Some(path) => {
            let finding = report(alloc, path, &cases, ended.report, folder);
            match tell_report(path, finding, out) {
                Ok(()) => Ok(worse(ended.specs, finding)),
                Err(_) => Err(ProgramFault::Write),
            }
        }
        None => Ok(ended.specs),
    }
}

/// Why there are no specs to test.
fn specs_fault(fault: SpecsFault<'_>) -> ProgramFault<'_>
    ensures { (files : Files) (paths : List (List ℕ)) (level : Option Level) (updates reports : Bool) → AreNoSpecs files paths fault.entry → IsTestRun files paths level updates reports (Err result) }
{
    match fault {
        SpecsFault::NoneIn(path) => ProgramFault::NoSpecs { path },
        SpecsFault::TooMany => ProgramFault::TooManySpecs,
        SpecsFault::NoMemory => ProgramFault::NoMemory,
    }
}

/// Tells of each spec what is found of it, and keeps that as a case.
fn test_all<'a, R: Threads + Sync, F: Folder + Sync, W: Write>(
    rt: &R,
    alloc: Global,
    specs: &[String],
    level: Option<Level>,
    updates: bool,
    workers: &Workers,
    folder: &F,
    cases: &mut Vec<Case>,
    out: &mut Counted<W>,
) -> Result<Ended, ProgramFault<'a>>
where
    F::Reader: Send,
    requires { failures_of out.old ≡ 0 }
    ensures specs { IfOk result (λ ended. IsWorstOf (F.bytes folder.now) level updates (map string_bytes specs.now) ended.specs) }
    ensures report { IfOk result (λ ended. IsReportEnd ended.report) }
    ensures failures { OnOk result (failures_of out.new ≡ 0) }
    ensures refused { IfErr result (λ fault. (files : Files) (paths : List (List ℕ)) (level : Option Level) (updates reports : Bool) → IsTestRun files paths level updates reports (Err fault)) }
{
    if updates {
        return update_each(alloc, specs, level, folder, cases, out);
    }
    test_each(rt, alloc, specs, level, workers, folder, cases, out)
}

/// Tests specs side by side, some at a time, and tells of them in their order.
fn test_each<'a, R: Threads + Sync, F: Folder + Sync, W: Write>(
    rt: &R,
    alloc: Global,
    specs: &[String],
    level: Option<Level>,
    workers: &Workers,
    folder: &F,
    cases: &mut Vec<Case>,
    out: &mut Counted<W>,
) -> Result<Ended, ProgramFault<'a>>
where
    F::Reader: Send,
    requires { failures_of out.old ≡ 0 }
    ensures specs { IfOk result (λ ended. IsWorstOf (F.bytes folder.now) level false (map string_bytes specs.now) ended.specs) }
    ensures report { IfOk result (λ ended. IsReportEnd ended.report) }
    ensures failures { OnOk result (failures_of out.new ≡ 0) }
    ensures refused { IfErr result (λ fault. (files : Files) (paths : List (List ℕ)) (level : Option Level) (updates reports : Bool) → IsTestRun files paths level updates reports (Err fault)) }
{
    let mut ended = Ended {
        specs: Finding::Good,
        report: Finding::Good,
    };
    let mut told = 0;
    while told < specs.len() {
        let end = told.saturating_add(AHEAD).min(specs.len());
        let some = &specs[told..end];
        let Ok(found) = test_side_by_side(rt, alloc, some, level, workers, folder) else {
            return Err(ProgramFault::NoMemory);
        };
        ended = match tell_each(alloc, some, found.as_slice(), ended, cases, out) {
            Ok(ended) => ended,
            Err(_) => return Err(ProgramFault::Write),
        };
        told = end;
    }
    Ok(ended)
}

/// Tests one spec after another and accepts its classes. It is told before the next is begun, so that whatever is written is told, and no two write
/// one accepted record at a time.
fn update_each<'a, F: Folder, W: Write>(
    alloc: Global,
    specs: &[String],
    level: Option<Level>,
    folder: &F,
    cases: &mut Vec<Case>,
    out: &mut Counted<W>,
) -> Result<Ended, ProgramFault<'a>>
    requires { failures_of out.old ≡ 0 }
    ensures specs { IfOk result (λ ended. IsWorstOf (F.bytes folder.now) level true (map string_bytes specs.now) ended.specs) }
    ensures report { IfOk result (λ ended. IsReportEnd ended.report) }
    ensures failures { OnOk result (failures_of out.new ≡ 0) }
    ensures refused { IfErr result (λ fault. (files : Files) (paths : List (List ℕ)) (level : Option Level) (updates reports : Bool) → IsTestRun files paths level updates reports (Err fault)) }
{
    let mut ended = Ended {
        specs: Finding::Good,
        report: Finding::Good,
    };
    for place in 0..specs.len() {
        let path = specs[place].as_str();
        let found = test_of_file(alloc, path, level, true, folder);
        ended = match tell_one(alloc, path, &found, ended, cases, out) {
            Ok(ended) => ended,
            Err(_) => return Err(ProgramFault::Write),
        };
    }
    Ok(ended)
}

/// Tells of each of some specs what is found of it, and keeps that as a case.
fn tell_each<W: Write>(
    alloc: Global,
    specs: &[String],
    found: &[Found],
    before: Ended,
    cases: &mut Vec<Case>,
    out: &mut Counted<W>,
) -> Result<Ended, WriteFault>
    requires many { length found.now ≡ length specs.now }
    requires report { IsReportEnd before.report }
    requires failures { failures_of out.old ≡ 0 }
    ensures specs { IfOk result (λ ended. ended.specs ≡ worst_with before.specs (findings_in found.now)) }
    ensures report { IfOk result (λ ended. IsReportEnd ended.report) }
    ensures failures { OnOk result (failures_of out.new ≡ 0) }
{
    let mut ended = before;
    for place in 0..specs.len() {
        let path = specs[place].as_str();
        let next = &found[place];
        ended = tell_one(alloc, path, next, ended, cases, out)?;
    }
    Ok(ended)
}

/// Tells what is found of a spec, and keeps that as a case.
fn tell_one<W: Write>(
    alloc: Global,
    path: &str,
    found: &Found,
    before: Ended,
    cases: &mut Vec<Case>,
    out: &mut Counted<W>,
) -> Result<Ended, WriteFault>
    requires report { IsReportEnd before.report }
    requires failures { failures_of out.old ≡ 0 }
    ensures specs { IfOk result (λ ended. ended.specs ≡ worse before.specs found.now.finding) }
    ensures report { IfOk result (λ ended. IsReportEnd ended.report) }
    ensures failures { OnOk result (failures_of out.new ≡ 0) }
{
    write_told(path, found.told.as_str(), out)?;
    Ok(Ended {
        specs: worse(before.specs, found.finding),
        report: with_case(alloc, path, found, before.report, cases),
    })
}

/// Keeps what is found of a spec as a case. What is found of the report is worse where there is no memory for it.
fn with_case(
    alloc: Global,
    path: &str,
    found: &Found,
    report: Finding,
    cases: &mut Vec<Case>,
) -> Finding
    requires { IsReportEnd report }
    ensures { IsReportEnd result }
{
    match add_case(alloc, path, found, cases) {
        Ok(()) => report,
        Err(_) => Finding::NoMemory,
    }
}

fn add_case(
    alloc: Global,
    path: &str,
    found: &Found,
    cases: &mut Vec<Case>,
) -> Result<(), AllocError> {
    let mut name = String::new(alloc);
    name.push_str(path)?;
    let mut told = String::new(alloc);
    told.push_str(found.told.as_str())?;
    cases.push(Case {
        name,
        ending: ending_of(found.finding),
        told,
    })?;
    Ok(())
}

fn ending_of(finding: Finding) -> Ending {
    match finding {
        Finding::Good => Ending::Passed,
        Finding::Bad => Ending::Failed,
        Finding::Refused | Finding::NoMemory | Finding::Unread => Ending::Refused,
    }
}

/// Writes the report of some cases to a file. Where a case could not be kept there is none.
fn report<F: Folder>(
    alloc: Global,
    path: &str,
    cases: &[Case],
    kept: Finding,
    folder: &F,
) -> Finding
    requires { IsReportEnd kept }
    ensures { IsReportEnd result }
{
    if kept != Finding::Good {
        return kept;
    }
    match junit_text(alloc, cases) {
        Ok(text) => put_report(alloc, path, text.as_bytes(), folder),
        Err(_) => Finding::NoMemory,
    }
}

fn put_report<F: Folder>(alloc: Global, path: &str, bytes: &[u8], folder: &F) -> Finding
    ensures { IsReportEnd result }
{
    match folder.put(alloc, path, bytes) {
        Ok(true) => Finding::Good,
        Ok(false) => Finding::Unread,
        Err(_) => Finding::NoMemory,
    }
}

/// Tells of a report that is not written.
fn tell_report<W: Write>(
    path: &str,
    finding: Finding,
    out: &mut Counted<W>,
) -> Result<(), WriteFault>
    requires { failures_of out.old ≡ 0 }
    ensures { OnOk result (failures_of out.new ≡ 0) }
{
    match finding {
        Finding::Good | Finding::Bad | Finding::Refused => Ok(()),
        Finding::NoMemory => write_told(path, "no memory\n", out),
        Finding::Unread => write_told(path, "report not written\n", out),
    }
}

/// Of two findings the one that ends worse.
fn worse(a: Finding, b: Finding) -> Finding
    ensures { result ≡ worse a b }
{
    if a.status() < b.status() { b } else { a }
}

fn write_told<W: Write>(path: &str, told: &str, out: &mut Counted<W>) -> Result<(), WriteFault>
    requires { failures_of out.old ≡ 0 }
    ensures { OnOk result (failures_of out.new ≡ 0) }
{
    out.write_str(path)?;
    out.write_str(": ")?;
    out.write_str(told)?;
    Ok(())
}
