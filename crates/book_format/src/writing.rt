//! Writing a book.

ghost use Rattle.std.specs.Prelude.{◌<◌, OnOk};
ghost use Rattle.transcripts.specs.Counted.{failures_of};
ghost use Rattle.book_format.specs.Writing.{IsWritten, ReadsBack};

use crate::pieces::{Pieces, pieces_of};
use crate::printing::print_book;
use crate::write_error::WriteError;
use fact_books::Book;
use std::alloc::Global;
use std::io::Write;
use transcripts::Counted;

/// Writes the one text of a book: a JSON object without spaces, with the runs, the format's number, the outcomes and the spec's text,
/// and a line feed. The writer gets it in many small pieces.
///
/// The text is never in memory as a whole, but the texts of the outcomes are.
pub fn write_book<W: Write>(
    alloc: Global,
    book: &Book,
    out: &mut Counted<W>,
) -> Result<(), WriteError>
    requires { failures_of out.old < u64.MAX }
    ensures written { IsWritten W.contents out.old out.new book.now result }
    ensures back { OnOk result (ReadsBack W.contents out.old out.new book.now) }
{
    book.known();
    let pieces = pieces_of(alloc, book)?;
    match print_book(&pieces, out) {
        Ok(()) => Ok(()),
        Err(_) => Err(WriteError::WriteFault),
    }
}
