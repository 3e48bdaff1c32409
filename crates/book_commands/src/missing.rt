//! Which ranks books miss, from the files of the books to the lines that are written.

ghost use Rattle.std.specs.Prelude.{◌≡◌, ◌<◌, IfErr, IfOk, length, map};
ghost use Rattle.transcripts.specs.Counted.{Prints, failures_of};
ghost use Rattle.book_stretches.specs.Telling.{AreTold};
ghost use Rattle.book_commands.specs.Missing.{AreAsked, AreMissingIn, IsMissingRun, IsNotMissing, finding_of, missing_text, pair_line, ranks_line, run_line};

use crate::finding::Finding;
use crate::joining::{JoinFault, joined_files};
use crate::judging::write_before;
use crate::opener::Opener;
use book_stretches::{TellError, ToldRanks, runs_to_run, told_ranks, untold_runs};
use class_stretches::RankRun;
use fact_books::Book;
use std::alloc::{AllocError, Global};
use std::io::Write;
use transcripts::{Counted, WriteFault, write_number};

/// Which ranks are asked for.
#[derive(Clone, Copy, PartialEq, Eq)]
pub enum MissingRanks {
    /// Those that are missing: the books tell nothing of them.
    Untold,
    /// Those that are to be run so that none is missing: the books have no fact of them.
    ToRun,
}

/// Why it was not written which ranks books miss. Each is tried before those below it, but for want of memory.
#[derive(Clone, Copy, PartialEq, Eq)]
pub enum MissingFault {
    /// The books were not joined.
    Join(JoinFault),
    /// The books tell two outcomes of this rank, and of none before it.
    Clash(u64),
    /// Memory ran out.
    NoMemory,
    /// The lines were not written; a front of them may be.
    Write(WriteFault),
}

/// Joins the books at these paths, and writes which ranks of their spec are missing, or which are to be run: a line for each range of them, of
/// which no two touch.
pub fn missing_files<O: Opener, W: Write>(
    alloc: Global,
    opener: &O,
    paths: &[&str],
    asked: MissingRanks,
    out: &mut Counted<W>,
) -> Result<Finding, MissingFault>
    requires some { 0 < length paths.now }
    requires countable { failures_of out.old < u64.MAX }
    ensures { IsMissingRun (O.bytes opener.now) (map (λ p. p.now) paths.now) asked W.contents out.old out.new result }
{
    let book = match joined_files(alloc, opener, paths) {
        Ok(book) => book,
        Err(fault) => return Err(MissingFault::Join(fault)),
    };
    let runs = match missing_in(alloc, &book, asked) {
        Ok(runs) => runs,
        Err(fault) => return Err(fault),
    };
    match write_runs(asked, runs.as_slice(), out) {
        Ok(()) => Ok(finding_of(runs.as_slice())),
        Err(fault) => Err(MissingFault::Write(fault)),
    }
}

fn missing_in(alloc: Global, book: &Book, asked: MissingRanks) -> Result<Vec<RankRun>, MissingFault>
    ensures missing { IfOk result (λ runs. AreMissingIn book.now asked runs.items) }
    ensures refused { IfErr result (IsNotMissing book.now) }
{
    let told = match told_ranks(alloc, book) {
        Ok(told) => told,
        Err(TellError::Clash(rank)) => return Err(MissingFault::Clash(rank)),
        Err(TellError::NoMemory) => return Err(MissingFault::NoMemory),
    };
    match asked_runs(alloc, book, &told, asked) {
        Ok(runs) => Ok(runs),
        Err(_) => Err(MissingFault::NoMemory),
    }
}

/// The ranks that are asked for, where it is told what the book tells of each.
fn asked_runs(
    alloc: Global,
    book: &Book,
    told: &ToldRanks<'_>,
    asked: MissingRanks,
) -> Result<Vec<RankRun>, AllocError>
    requires { AreTold book.now told.now }
    ensures { IfOk result (λ runs. AreAsked book.now asked runs.items) }
{
    match asked {
        MissingRanks::Untold => untold_runs(alloc, book, told),
        MissingRanks::ToRun => runs_to_run(alloc, book),
    }
}

fn finding_of(runs: &[RankRun]) -> Finding
    ensures { result ≡ finding_of runs.now }
{
    match runs {
        [] => Finding::Good,
        [_, ..] => Finding::Bad,
    }
}

/// Writes a line for each run.
fn write_runs<W: Write>(
    asked: MissingRanks,
    runs: &[RankRun],
    out: &mut Counted<W>,
) -> Result<(), WriteFault>
    requires { failures_of out.old < u64.MAX }
    ensures { Prints W.contents out.old out.new result (missing_text asked runs.now) }
{
    for place in 0..runs.len() {
        write_run(asked, runs[place], out)?;
    }
    Ok(())
}

fn write_run<W: Write>(
    asked: MissingRanks,
    run: RankRun,
    out: &mut Counted<W>,
) -> Result<(), WriteFault>
    requires { failures_of out.old < u64.MAX }
    ensures { Prints W.contents out.old out.new result (run_line asked run) }
{
    match asked {
        MissingRanks::Untold => write_ranks(run.first, run.end.saturating_sub(1), out),
        MissingRanks::ToRun => write_pair(run.first, " ", run.end, out),
    }
}

/// Writes the ranks from the first to the last, or one alone.
fn write_ranks<W: Write>(first: u64, last: u64, out: &mut Counted<W>) -> Result<(), WriteFault>
    requires { failures_of out.old < u64.MAX }
    ensures { Prints W.contents out.old out.new result (ranks_line first last) }
{
    if first == last {
        return write_number(first, out);
    }
    write_pair(first, "-", last, out)
}

fn write_pair<W: Write>(
    first: u64,
    between: &str,
    last: u64,
    out: &mut Counted<W>,
) -> Result<(), WriteFault>
    requires { failures_of out.old < u64.MAX }
    ensures { Prints W.contents out.old out.new result (pair_line first between.now last) }
{
    write_before(first, between, out)?;
    write_number(last, out)
}
