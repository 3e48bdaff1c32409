//! The report of a book, rank by rank, and from the file of the book.

ghost use Rattle.std.specs.Prelude.{◌≡◌, ◌<◌, ◌++◌, [], length, slice_index_or};
ghost use Rattle.machine_model.specs.Outcome.{IsOutcomeOf};
ghost use Rattle.spec_binding.specs.SpecFiles.{IsMemory};
ghost use Rattle.transcripts.specs.Counted.{Prints, failures_of};
ghost use Rattle.transcripts.specs.Text.{rank_text, outcome_text};
ghost use Rattle.fact_books.specs.Sweep.{values_of, AllBelow};
ghost use Rattle.book_commands.specs.Reporting.{AllOwn, IsReported, IsFileReported, values_text};
ghost use Rattle.book_commands.specs.Texts.{AreTexts};

use crate::joining::{FileFault, book_of_file};
use crate::opener::Opener;
use crate::texts::Texts;
use bound_specs::Spec;
use fact_books::{Book, ReportError, report};
use spec_binding::{SpecFault, spec_of};
use std::alloc::Global;
use std::io::Write;
use transcripts::{Counted, Outcome, WriteFault, print_rank};

/// Why a report was not written. The first is tried before the second.
#[derive(Clone, Copy, PartialEq, Eq)]
pub enum ReportFault {
    /// The book has no report, or memory ran out.
    Report(ReportError),
    /// The report was not written; a front of it may be.
    Write(WriteFault),
}

/// Why the report of the book at a path was not written. The first is tried before the second.
#[derive(Clone, Copy, PartialEq, Eq)]
pub enum ReportFileFault {
    /// The file gives no book.
    File(FileFault),
    /// The book's report was not written.
    Report(ReportFault),
}

/// Reads the book at a path, and writes its report.
pub fn report_file<O: Opener, W: Write>(
    alloc: Global,
    opener: &O,
    path: &str,
    out: &mut Counted<W>,
) -> Result<(), ReportFileFault>
    requires { failures_of out.old < u64.MAX }
    ensures { IsFileReported (O.bytes opener.now path.now) W.contents out.old out.new result }
{
    let book = match book_of_file(alloc, opener, path) {
        Ok(book) => book,
        Err(fault) => return Err(ReportFileFault::File(fault)),
    };
    match write_report(alloc, &book, out) {
        Ok(()) => Ok(()),
        Err(fault) => Err(ReportFileFault::Report(fault)),
    }
}

/// Writes for each rank of the book's spec in order the rank and its one value. The text is never in memory as a whole.
pub fn write_report<W: Write>(
    alloc: Global,
    book: &Book,
    out: &mut Counted<W>,
) -> Result<(), ReportFault>
    requires { failures_of out.old < u64.MAX }
    ensures { IsReported W.contents out.old out.new book.now result }
{
    book.known();
    let values = match report(alloc, book) {
        Ok(values) => values,
        Err(error) => return Err(ReportFault::Report(error)),
    };
    let spec = match spec_of(alloc, book.text().as_bytes()) {
        Ok(spec) => spec,
        Err(fault) => {
            wants_memory(fault);
            return Err(ReportFault::Report(ReportError::NoMemory));
        }
    };
    let (outcomes, numbers) = values.parts();
    let Ok(mut texts) = Texts::new(alloc, outcomes.len()) else {
        return Err(ReportFault::Report(ReportError::NoMemory));
    };
    match write_values(&spec, outcomes, numbers, &mut texts, out) {
        Ok(()) => Ok(()),
        Err(fault) => Err(ReportFault::Write(fault)),
    }
}

/// A refusal of a text that was bound before, when the book was made: it has no other reason than want of memory.
fn wants_memory(_fault: SpecFault)
    requires { IsMemory _fault }
{}

/// Writes for each rank in order the rank and the outcome with its number.
fn write_values<W: Write>(
    spec: &Spec,
    outcomes: &[Outcome],
    numbers: &[usize],
    texts: &mut Texts,
    out: &mut Counted<W>,
) -> Result<(), WriteFault>
    requires countable { failures_of out.old < u64.MAX }
    requires numbered { AllBelow (length outcomes.now) numbers.now }
    requires own { AllOwn spec.now.run (values_of outcomes.now numbers.now) }
    requires texts { AreTexts spec.now outcomes.now texts.old }
    ensures { Prints W.contents out.old out.new result (values_text spec.now (values_of outcomes.now numbers.now) (length numbers.now)) }
{
    for rank in 0..numbers.len() {
        write_value(spec, outcomes, rank as u64, numbers[rank], texts, out)?;
    }
    Ok(())
}

/// Writes the rank and the outcome with this number.
fn write_value<W: Write>(
    spec: &Spec,
    outcomes: &[Outcome],
    rank: u64,
    number: usize,
    texts: &mut Texts,
    out: &mut Counted<W>,
) -> Result<(), WriteFault>
    requires inside { number < length outcomes.now }
    requires own { IsOutcomeOf spec.now.run (slice_index_or outcomes.now number []) }
    requires countable { failures_of out.old < u64.MAX }
    requires texts { AreTexts spec.now outcomes.now texts.old }
    ensures written { Prints W.contents out.old out.new result (rank_text rank ++ outcome_text spec.now.session_names spec.now.step_names (slice_index_or outcomes.now number [])) }
    ensures texts { AreTexts spec.now outcomes.now texts.new }
{
    print_rank(rank, out)?;
    texts.write(spec, outcomes, number, out)
}
