//! The book of a text that is written of it, without a look at the text's JSON value.

ghost use Rattle.std.specs.Prelude.{◌≡◌, ◌+◌, ◌<◌, ◌≤◌, ◌++◌, length, take, None, Ok, IfOk, IfSome, IsTrue, IsUtf8, Some};
ghost use Rattle.book_format.specs.declared.pieces.TheConstants.{MAX_TEXT};
ghost use Rattle.book_format.specs.Pieces.{parts_text};
ghost use Rattle.book_format.specs.Reading.{IsListed};
ghost use Rattle.book_format.specs.ReadingBooks.{IsBookFile};

use crate::canonical::number_at;
use crate::lengths::facts_in;
use crate::pieces::{MAX_FACTS, MAX_TEXT};
use crate::printing::print_parts;
use crate::reading::{Listed, are_runs};
use bound_specs::Spec;
use compact_outcomes::{CompactOutcome, CompactOutcomes, string_text};
use fact_books::{Book, Run};
use std::alloc::{AllocError, Global};
use std::io::Write;
use std::{io, str};
use transcripts::Counted;

/// The book of a spec with these outcomes and runs, if these bytes are the text that is written of it. Where there is none the bytes are to be read in
/// full.
pub fn book_of_text(
    alloc: Global,
    bytes: &[u8],
    listed: Listed<'_>,
    runs: Vec<Run>,
) -> Result<Option<Book>, AllocError>
    ensures { IfOk result (λ book. IfSome book (λ book. IsBookFile bytes.now (Ok book))) }
{
    let (spec, outcomes) = listed.into_parts();
    book_of_listed(alloc, bytes, spec, outcomes, runs)
}

/// The same of outcomes that are read as a file has them.
fn book_of_listed(
    alloc: Global,
    bytes: &[u8],
    spec: &Spec,
    outcomes: CompactOutcomes,
    runs: Vec<Run>,
) -> Result<Option<Book>, AllocError>
    requires unasked { spec.now.asked ≡ None }
    requires listed { IsListed spec.now.run outcomes }
    ensures { IfOk result (λ book. IfSome book (λ book. IsBookFile bytes.now (Ok book))) }
{
    spec.known();
    if !are_text(bytes) || facts_in(runs.as_slice()) > MAX_FACTS {
        return Ok(None);
    }
    let count = number_at(outcomes.len())?;
    let stand = are_runs(alloc, spec, count, runs.as_slice())?;
    if !stand {
        return Ok(None);
    }
    let quoted = string_text(alloc, spec.text())?;
    let same = is_text_of(alloc, bytes, runs.as_slice(), &outcomes, quoted.as_str())?;
    if !same {
        return Ok(None);
    }
    Ok(Some(Book::of_runs(alloc, spec, outcomes, runs)?))
}

/// Whether bytes are a text, and few enough for a book.
fn are_text(bytes: &[u8]) -> bool
    ensures few { IsTrue result → length bytes.now ≤ MAX_TEXT }
    ensures text { IsTrue result → IsUtf8 bytes.now }
{
    bytes.len() <= MAX_TEXT as usize && str::from_utf8(bytes).is_ok()
}

/// Whether these bytes are the text of runs, of outcomes and of a spec's text as a JSON string.
fn is_text_of(
    alloc: Global,
    bytes: &[u8],
    runs: &[Run],
    outcomes: &CompactOutcomes,
    quoted: &str,
) -> Result<bool, AllocError>
    ensures { IfOk result (λ is. IsTrue is → bytes.now ≡ parts_text runs.now outcomes.now quoted.now) }
{
    let outcomes = outcomes.all(alloc)?;
    Ok(is_text(bytes, runs, outcomes.as_slice(), quoted))
}

/// The same of outcomes one by one.
fn is_text(bytes: &[u8], runs: &[Run], outcomes: &[CompactOutcome<'_>], quoted: &str) -> bool
    ensures { IsTrue result → bytes.now ≡ parts_text runs.now outcomes.now quoted.now }
{
    let mut out = Counted::new(Expected { bytes, done: 0 });
    match print_parts(runs, outcomes, quoted, &mut out) {
        Ok(()) => has_taken(&out.into_inner(), bytes),
        Err(_) => false,
    }
}

/// A writer that takes these bytes and no others. So many of them were written.
#[derive(Drop)]
struct Expected<'a> {
    bytes: &'a [u8],
    done: usize,
}

impl Write for Expected<'_> {
    ghost contents = { λ expected. Some (take expected.done expected.bytes.now) };

    fn write(&mut self, bytes: &[u8]) -> io::Result<usize> {
        if !is_next(self.bytes, self.done, bytes) {
            return Err(io::Error::from(io::ErrorKind::InvalidData));
        }
        self.done += bytes.len();
        Ok(bytes.len())
    }

    fn flush(&mut self) -> io::Result<()> {
        Ok(())
    }
}

/// Whether it took these bytes, and all of them. No contract of a writer says that it still has the bytes that it was made with.
fn has_taken(out: &Expected<'_>, bytes: &[u8]) -> bool
    ensures { IsTrue result → take out.now.done out.now.bytes.now ≡ bytes.now }
{
    out.done >= out.bytes.len() && out.bytes == bytes
}

/// Whether some bytes are those of a text behind so many of it.
fn is_next(text: &[u8], done: usize, bytes: &[u8]) -> bool
    ensures inside { IsTrue result → done + length bytes.now ≤ length text.now }
    ensures next { IsTrue result → take (done + length bytes.now) text.now ≡ take done text.now ++ bytes.now }
{
    done <= text.len() && text[done..].starts_with(bytes)
}
