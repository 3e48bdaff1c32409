//! The report of the book in a file, judged by those of accepted books.

ghost use Rattle.std.specs.Prelude.{◌≡◌, ◌<◌, ◌++◌, List, IfOk, IfErr, decimal, length, map};
ghost use Rattle.transcripts.specs.Counted.{Prints, failures_of};
ghost use Rattle.fact_books.specs.Books.{Contents};
ghost use Rattle.fact_books.specs.Values.{IsNotReported};
ghost use Rattle.accepted_outputs.specs.Judging.{IsVerdict};
ghost use Rattle.book_commands.specs.Judging.{AreFilesKept, IsFileKept, IsJudged, IsJudgeRun, IsNotAccepted, difference_line, difference_lines, finding_of, verdict_text};
ghost use Rattle.book_commands.specs.Kept.{AreKept, IsKept};
ghost use Rattle.book_commands.specs.Nearest.{IsAskedBeneath};

use crate::finding::Finding;
use crate::joining::{FileFault, book_of_file};
use crate::nearest::{Accepted, Reported, beneath};
use crate::opener::Opener;
use accepted_outputs::{Verdict, judge};
use book_stretches::spec_of_book;
use fact_books::{Book, ReportError, report};
use itoa::Buffer;
use std::alloc::{AllocError, Global};
use std::io::Write;
use transcripts::{Counted, WriteFault, write_count, write_number};

/// Why the file at a path gives no report. The first is tried before the second.
#[derive(Clone, Copy, PartialEq, Eq)]
pub enum NoReport {
    /// The file gives no book.
    File(FileFault),
    /// The book has no report, or memory ran out.
    Report(ReportError),
}

/// Why a verdict was not written. Files are opened in order, and each is read and reported before the next.
#[derive(Clone, Copy, PartialEq, Eq)]
pub enum JudgeFault {
    /// The file of the judged book gives no report.
    Book(NoReport),
    /// The accepted file at this place, from 0, gives no report.
    Accepted { place: usize, fault: NoReport },
    /// Memory ran out.
    NoMemory,
    /// The verdict was not written; a front of it may be.
    Write(WriteFault),
}

/// What is written of a judgement: the verdict, and what stands beneath it.
struct Judgement {
    verdict: Verdict,
    beneath: Vec<u8>,
}

// Written out and not derived, so that who owns one calls this and does not let its parts go one by one.
impl Drop for Judgement {
    fn drop(self) {
        let Judgement {
            verdict: _verdict,
            beneath: _beneath,
        } = self;
    }
}

/// Reads the book at a path and those at the accepted paths, and writes the first whose report is equal, or for each of them where it
/// differs first. If asked to show it, beneath these it writes what the nearest of them and the judged one tell where they differ.
pub fn judge_files<O: Opener, W: Write>(
    alloc: Global,
    opener: &O,
    path: &str,
    accepted: &[&str],
    show: bool,
    out: &mut Counted<W>,
) -> Result<Finding, JudgeFault>
    requires { failures_of out.old < u64.MAX }
    ensures { IsJudgeRun (O.bytes opener.now) path.now (map (λ p. p.now) accepted.now) show W.contents out.old out.new result }
{
    let judgement = match judgement_of_files(alloc, opener, path, accepted, show) {
        Ok(judgement) => judgement,
        Err(fault) => return Err(fault),
    };
    match write_judgement(&judgement, out) {
        Ok(()) => Ok(finding_of(&judgement.verdict)),
        Err(fault) => Err(JudgeFault::Write(fault)),
    }
}

/// The verdict on the report at a path by those at the accepted paths, and what stands beneath it.
fn judgement_of_files<O: Opener>(
    alloc: Global,
    opener: &O,
    path: &str,
    accepted: &[&str],
    show: bool,
) -> Result<Judgement, JudgeFault>
    ensures { IsJudged (O.bytes opener.now) path.now (map (λ p. p.now) accepted.now) show result }
{
    let judged = match report_of_file(alloc, opener, path) {
        Ok(judged) => judged,
        Err(fault) => return Err(JudgeFault::Book(fault)),
    };
    let reports = match reports_of_files(alloc, opener, accepted) {
        Ok(reports) => reports,
        Err(fault) => return Err(fault),
    };
    match judgement_of(alloc, &judged, &reports, show) {
        Ok(judgement) => Ok(judgement),
        Err(_) => Err(JudgeFault::NoMemory),
    }
}

/// The verdict on a report by accepted ones, and what stands beneath it.
fn judgement_of(
    alloc: Global,
    judged: &Reported,
    accepted: &Accepted,
    show: bool,
) -> Result<Judgement, AllocError>
    requires here { (here : Contents) × IsKept here judged.now.spec judged.now.report }
    requires there { (books : List Contents) × AreKept books accepted.now.specs.items accepted.now.reports.items }
    ensures verdict { IfOk result (λ judgement. IsVerdict judged.now.report accepted.now.reports.items judgement.verdict) }
    ensures beneath { IfOk result (λ judgement. (here : Contents) → IsKept here judged.now.spec judged.now.report
        → (books : List Contents) → AreKept books accepted.now.specs.items accepted.now.reports.items
        → IsAskedBeneath show here judged.now.report books accepted.now.reports.items judgement.verdict judgement.beneath.items) }
{
    let verdict = judge(alloc, &judged.report, accepted.reports.as_slice())?;
    let beneath = beneath(alloc, judged, accepted, &verdict, show)?;
    Ok(Judgement { verdict, beneath })
}

/// The specs and the reports of the books at the accepted paths.
fn reports_of_files<O: Opener>(
    alloc: Global,
    opener: &O,
    paths: &[&str],
) -> Result<Accepted, JudgeFault>
    ensures reports { IfOk result (λ accepted. AreFilesKept (O.bytes opener.now) (map (λ p. p.now) paths.now) accepted.specs.items accepted.reports.items) }
    ensures refused { IfErr result (IsNotAccepted (O.bytes opener.now) (map (λ p. p.now) paths.now)) }
{
    let mut specs = Vec::new(alloc);
    let mut reports = Vec::new(alloc);
    for place in 0..paths.len() {
        let next = match report_of_file(alloc, opener, paths[place]) {
            Ok(next) => next,
            Err(fault) => return Err(JudgeFault::Accepted { place, fault }),
        };
        let Reported { spec, report } = next;
        let Ok(()) = specs.push(spec) else {
            return Err(JudgeFault::NoMemory);
        };
        let Ok(()) = reports.push(report) else {
            return Err(JudgeFault::NoMemory);
        };
    }
    Ok(Accepted { specs, reports })
}

/// The spec and the report of the book at a path.
fn report_of_file<O: Opener>(alloc: Global, opener: &O, path: &str) -> Result<Reported, NoReport>
    ensures { IsFileKept (O.bytes opener.now path.now) result }
{
    let book = match book_of_file(alloc, opener, path) {
        Ok(book) => book,
        Err(fault) => return Err(NoReport::File(fault)),
    };
    match reported(alloc, &book) {
        Ok(reported) => Ok(reported),
        Err(error) => Err(NoReport::Report(error)),
    }
}

/// The spec and the report of a book.
fn reported(alloc: Global, book: &Book) -> Result<Reported, ReportError>
    ensures kept { IfOk result (λ kept. IsKept book.now kept.spec kept.report) }
    ensures refused { IfErr result (IsNotReported book.now) }
{
    let report = report(alloc, book)?;
    book.known();
    match spec_of_book(alloc, book) {
        Ok(spec) => Ok(Reported { spec, report }),
        Err(_) => Err(ReportError::NoMemory),
    }
}

/// Writes a verdict, and what stands beneath it.
fn write_judgement<W: Write>(judgement: &Judgement, out: &mut Counted<W>) -> Result<(), WriteFault>
    requires { failures_of out.old < u64.MAX }
    ensures { Prints W.contents out.old out.new result (verdict_text judgement.now.verdict ++ judgement.now.beneath.items) }
{
    write_verdict(&judgement.verdict, out)?;
    out.write_all(judgement.beneath.as_slice())
}

fn finding_of(verdict: &Verdict) -> Finding
    ensures { result ≡ finding_of verdict.now }
{
    match verdict {
        Verdict::Matches(_) => Finding::Good,
        Verdict::Differs(_) => Finding::Bad,
    }
}

fn write_verdict<W: Write>(verdict: &Verdict, out: &mut Counted<W>) -> Result<(), WriteFault>
    requires { failures_of out.old < u64.MAX }
    ensures { Prints W.contents out.old out.new result (verdict_text verdict.now) }
{
    match verdict {
        Verdict::Matches(index) => write_count("matches ", *index as u64, out),
        Verdict::Differs(differences) => write_differences(differences.as_slice(), out),
    }
}

/// Writes a line for each accepted report.
fn write_differences<W: Write>(
    differences: &[(u64, u8)],
    out: &mut Counted<W>,
) -> Result<(), WriteFault>
    requires { failures_of out.old < u64.MAX }
    ensures { Prints W.contents out.old out.new result (difference_lines differences.now (length differences.now)) }
{
    for index in 0..differences.len() {
        write_difference(index, differences[index], out)?;
    }
    Ok(())
}

/// Writes where the accepted report with this number differs.
fn write_difference<W: Write>(
    index: usize,
    difference: (u64, u8),
    out: &mut Counted<W>,
) -> Result<(), WriteFault>
    requires { failures_of out.old < u64.MAX }
    ensures { Prints W.contents out.old out.new result (difference_line index difference) }
{
    let (rank, session) = difference;
    write_before(index as u64, " differs at rank ", out)?;
    write_before(rank, " session ", out)?;
    write_number(session as u64, out)
}

/// Writes a number before its word.
pub(crate) fn write_before<W: Write>(
    number: u64,
    word: &str,
    out: &mut Counted<W>,
) -> Result<(), WriteFault>
    requires { failures_of out.old < u64.MAX }
    ensures { Prints W.contents out.old out.new result (decimal number ++ word.now) }
{
    out.write_str(Buffer::new().format(number))?;
    out.write_str(word)
}
