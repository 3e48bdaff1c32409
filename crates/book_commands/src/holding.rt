//! Whether a book holds a range of a spec's ranks.

ghost use Rattle.std.specs.Prelude.{◌≡◌, ◌<◌};
ghost use Rattle.transcripts.specs.Counted.{Prints, failures_of};
ghost use Rattle.book_commands.specs.Holding.{IsHeldBy, IsHoldRun, finding_of, holding_text};

use crate::finding::Finding;
use crate::joining::{FileFault, book_of_file};
use crate::opener::Opener;
use fact_books::{Book, missing_from};
use std::alloc::Global;
use std::io::Write;
use transcripts::{Counted, WriteFault, write_count};

/// What a book holds of a range of a spec's ranks.
#[derive(Clone, Copy, PartialEq, Eq)]
pub enum Holding {
    /// A fact of each of them.
    All,
    /// The book is of another spec text.
    OtherSpec,
    /// No fact of this rank, which is the least such one.
    Missing(u64),
}

/// Why it was not written what a book holds. The first is tried before the second.
#[derive(Clone, Copy, PartialEq, Eq)]
pub enum HoldFault {
    /// The file gives no book.
    File(FileFault),
    /// What it holds was not written; a front of it may be.
    Write(WriteFault),
}

/// Reads the book at a path, and writes whether it is of this spec text, byte for byte, and has a fact of each rank from the first up to but not the
/// end: `true`, or `another spec`, or the least rank without one.
pub fn hold_file<O: Opener, W: Write>(
    alloc: Global,
    opener: &O,
    path: &str,
    text: &[u8],
    first: u64,
    end: u64,
    out: &mut Counted<W>,
) -> Result<Finding, HoldFault>
    requires { failures_of out.old < u64.MAX }
    ensures { IsHoldRun (O.bytes opener.now path.now) text.now first end W.contents out.old out.new result }
{
    let book = match book_of_file(alloc, opener, path) {
        Ok(book) => book,
        Err(fault) => return Err(HoldFault::File(fault)),
    };
    let holding = holding_of(&book, text, first, end);
    match write_holding(holding, out) {
        Ok(()) => Ok(finding_of(holding)),
        Err(fault) => Err(HoldFault::Write(fault)),
    }
}

fn holding_of(book: &Book, text: &[u8], first: u64, end: u64) -> Holding
    ensures { IsHeldBy book.now text.now first end result }
{
    if book.text().as_bytes() != text {
        return Holding::OtherSpec;
    }
    let rank = missing_from(book, first);
    if rank < end {
        Holding::Missing(rank)
    } else {
        Holding::All
    }
}

fn finding_of(holding: Holding) -> Finding
    ensures { result ≡ finding_of holding }
{
    match holding {
        Holding::All => Finding::Good,
        Holding::OtherSpec | Holding::Missing(_) => Finding::Bad,
    }
}

fn write_holding<W: Write>(holding: Holding, out: &mut Counted<W>) -> Result<(), WriteFault>
    requires { failures_of out.old < u64.MAX }
    ensures { Prints W.contents out.old out.new result (holding_text holding) }
{
    match holding {
        Holding::All => out.write_str("true\n"),
        Holding::OtherSpec => out.write_str("another spec\n"),
        Holding::Missing(rank) => write_count("missing rank ", rank, out),
    }
}
