//! A book from the bytes of its file.

ghost use Rattle.std.specs.Prelude.{◌≡◌, ◌≢◌, ◌+◌, ◌<◌, IfErr, IfSome};
ghost use Rattle.serde_json.specs.View.{view};
ghost use Rattle.transcripts.specs.Counted.{LosesFront, failures_of, unread};
ghost use Rattle.book_format.specs.Compacting.{AreAlike};
ghost use Rattle.book_format.specs.declared.error.BookError.TheVariants as book_error;
ghost use Rattle.book_format.specs.Reading.{Given, Gives, Meets};
ghost use Rattle.book_format.specs.ReadingBooks.{AreTakenFor, IsBookFile, IsBookOf, IsBookValue, IsFactsBook, IsReadOf, IsRunsBook, IsValueOf, read_faults_of};

use crate::pieces::book_by_pieces;
use crate::spec_of_text::spec_of_text;
use crate::written::written_book;
use book_format::{
    BookError, MAX_TEXT, Version, book_of_facts, book_of_runs, compacted, fact_parts, run_parts,
    version_of,
};
use fact_books::Book;
use serde_json::Value as Json;
use std::alloc::Global;
use std::io::Read;
use std::str;
use transcripts::{Counted, ReadError};

/// The book that an input is the file of: of runs that have one fact, or of facts one by one. The input is read to its end, or up to
/// one byte past the longest file and no further; any error of a read is a read fault at once.
pub fn read_book<R: Read>(alloc: Global, input: &mut Counted<R>) -> Result<Book, BookError>
    requires { failures_of input.old < u64.MAX }
    ensures book { IfSome (unread R.remaining input.old) (λ bytes. IsReadOf bytes result) }
    ensures taken { LosesFront (unread R.remaining input.old) (unread R.remaining input.new) (AreTakenFor result) }
    ensures failures { failures_of input.new ≡ failures_of input.old + read_faults_of result }
{
    match input.read_up_to(alloc, MAX_TEXT as usize + 1) {
        Ok(bytes) => book_of_bytes(alloc, bytes),
        Err(ReadError::Fault) => Err(BookError::ReadFault),
        Err(ReadError::NoMemory) => Err(BookError::NoMemory),
    }
}

/// The book that bytes are.
fn book_of_bytes(alloc: Global, bytes: Vec<u8>) -> Result<Book, BookError>
    ensures book { Meets (λ book. book) (IsBookFile bytes.items) result }
    ensures plain { IfErr result (λ e. e ≢ book_error.ReadFault) }
{
    if bytes.len() > MAX_TEXT as usize {
        return Err(BookError::TooLarge);
    }
    let mut bytes = bytes;
    bytes.shrink_to_fit();
    book_of_few(alloc, bytes)
}

/// The book that bytes are, which are few enough for one.
fn book_of_few(alloc: Global, bytes: Vec<u8>) -> Result<Book, BookError>
    ensures { Meets (λ book. book) (Given book_error.NotJson (IsValueOf bytes.items) IsBookValue) result }
{
    match written_book(alloc, bytes.as_slice()) {
        Some(book) => Ok(book),
        None => book_of_text(alloc, laid_out(alloc, bytes)),
    }
}

/// The bytes as the writer lays them out, where they are a text of tokens and there is memory, and else as they are.
fn laid_out(alloc: Global, bytes: Vec<u8>) -> Vec<u8>
    ensures { AreAlike bytes.items result.items }
{
    match compact_bytes(alloc, bytes.as_slice()) {
        Some(compact) => compact,
        None => bytes,
    }
}

/// The same bytes without what stands between their tokens, where they are a text of tokens and there is memory.
fn compact_bytes(alloc: Global, bytes: &[u8]) -> Option<Vec<u8>>
    ensures { IfSome result (λ compact. AreAlike bytes.now compact.items) }
{
    match str::from_utf8(bytes) {
        Ok(text) => compacted(alloc, text),
        Err(_) => None,
    }
}

/// The book that bytes are which are laid out as far as they can be.
fn book_of_text(alloc: Global, bytes: Vec<u8>) -> Result<Book, BookError>
    ensures { Meets (λ book. book) (Given book_error.NotJson (IsValueOf bytes.items) IsBookValue) result }
{
    match written_book(alloc, bytes.as_slice()) {
        Some(book) => Ok(book),
        None => book_of_any(alloc, bytes),
    }
}

/// The book that bytes are in any layout: piece by piece, or what tells that they are none.
fn book_of_any(alloc: Global, bytes: Vec<u8>) -> Result<Book, BookError>
    ensures { Meets (λ book. book) (Given book_error.NotJson (IsValueOf bytes.items) IsBookValue) result }
{
    match book_by_pieces(alloc, bytes.as_slice()) {
        Some(book) => Ok(book),
        None => book_of_json(alloc, bytes),
    }
}

/// The book that bytes are by their JSON value, which is in memory as a whole.
fn book_of_json(alloc: Global, bytes: Vec<u8>) -> Result<Book, BookError>
    ensures { Meets (λ book. book) (Given book_error.NotJson (IsValueOf bytes.items) IsBookValue) result }
{
    match value_of_bytes(alloc, bytes) {
        Ok(value) => book_of_value(alloc, &value),
        Err(error) => Err(error),
    }
}

/// The JSON value that bytes are the text of. The bytes are let go before the value is looked at.
fn value_of_bytes(alloc: Global, bytes: Vec<u8>) -> Result<Json, BookError>
    ensures { Meets view (Given book_error.NotJson (IsValueOf bytes.items) Gives) result }
{
    match Json::from_slice(alloc, bytes.as_slice()) {
        Ok(value) => Ok(value),
        Err(error) => {
            if error.is_memory() {
                return Err(BookError::NoMemory);
            }
            Err(BookError::NotJson)
        }
    }
}

/// The book that a JSON value is.
fn book_of_value(alloc: Global, value: &Json) -> Result<Book, BookError>
    ensures { Meets (λ book. book) (IsBookValue (view value.now)) result }
{
    match version_of(value) {
        Some(version) => book_of_version(alloc, version, value),
        None => Err(BookError::BadField),
    }
}

/// The book that a JSON value is by its format.
fn book_of_version(alloc: Global, version: Version, value: &Json) -> Result<Book, BookError>
    ensures { Meets (λ book. book) (IsBookOf version (view value.now)) result }
{
    match version {
        Version::Facts => facts_book(alloc, value),
        Version::Runs => runs_book(alloc, value),
        Version::Other => Err(BookError::BadVersion),
    }
}

/// The book of facts that a value is.
fn facts_book(alloc: Global, value: &Json) -> Result<Book, BookError>
    ensures { Meets (λ book. book) (IsFactsBook (view value.now)) result }
{
    let Some(parts) = fact_parts(value) else {
        return Err(BookError::BadField);
    };
    match spec_of_text(alloc, parts.text) {
        Ok(spec) => book_of_facts(alloc, &spec, parts.facts),
        Err(error) => Err(error),
    }
}

/// The book of runs that a value is.
fn runs_book(alloc: Global, value: &Json) -> Result<Book, BookError>
    ensures { Meets (λ book. book) (IsRunsBook (view value.now)) result }
{
    let Some(parts) = run_parts(value) else {
        return Err(BookError::BadField);
    };
    match spec_of_text(alloc, parts.text) {
        Ok(spec) => book_of_runs(alloc, &spec, parts.facts, parts.outcomes),
        Err(error) => Err(error),
    }
}
