//! Books from their files, and the text of their join.

ghost use Rattle.std.specs.Prelude.{◌≡◌, ◌<◌, ◌⊎◌, true, length, map};
ghost use Rattle.transcripts.specs.Counted.{failures_of};
ghost use Rattle.book_format.specs.declared.error.BookError.TheVariants.{NoMemory as BookMemory, ReadFault};
ghost use Rattle.book_commands.specs.Joining.{IsFileBook, IsJoinRun, IsJoined, IsNext};

use crate::opener::{FileReader, Opener};
use book_files::read_book;
use book_format::{BookError, WriteError, write_book};
use fact_books::{Book, JoinError, join};
use std::alloc::Global;
use std::io::Write;
use transcripts::Counted;

/// Why the file at a path gives no book.
#[derive(Clone, Copy, PartialEq, Eq)]
pub enum FileFault {
    /// It can't be opened.
    Unopened,
    /// It is not read, or is no book.
    Book(BookError),
}

/// Why the join of the books at some paths was not written. Files are opened in order, and each is read and joined before the next.
#[derive(Clone, Copy, PartialEq, Eq)]
pub enum JoinFault {
    /// The file at this place, from 0, gives no book.
    File { place: usize, fault: FileFault },
    /// The book at this place is of another spec than those before it.
    OtherSpec { place: usize },
    /// Memory ran out.
    NoMemory,
    /// The joined book was not written.
    Write(WriteError),
}

/// Writes the join of the books at these paths.
pub fn join_files<O: Opener, W: Write>(
    alloc: Global,
    opener: &O,
    paths: &[&str],
    out: &mut Counted<W>,
) -> Result<(), JoinFault>
    requires some { 0 < length paths.now }
    requires countable { failures_of out.old < u64.MAX }
    ensures { IsJoinRun (O.bytes opener.now) (map (λ p. p.now) paths.now) W.contents out.old out.new result }
{
    let book = match joined_files(alloc, opener, paths) {
        Ok(book) => book,
        Err(fault) => return Err(fault),
    };
    match write_book(alloc, &book, out) {
        Ok(()) => Ok(()),
        Err(error) => Err(JoinFault::Write(error)),
    }
}

/// The join of the books at these paths.
pub fn joined_files<O: Opener>(alloc: Global, opener: &O, paths: &[&str]) -> Result<Book, JoinFault>
    requires { 0 < length paths.now }
    ensures { IsJoined (O.bytes opener.now) (map (λ p. p.now) paths.now) result }
{
    let mut book = match book_of_file(alloc, opener, paths[0]) {
        Ok(book) => book,
        Err(fault) => return Err(JoinFault::File { place: 0, fault }),
    };
    for place in 1..paths.len() {
        book = with_next(alloc, opener, paths, place, &book)?;
    }
    Ok(book)
}

/// A book with what the book at the path at this place has.
fn with_next<O: Opener>(
    alloc: Global,
    opener: &O,
    paths: &[&str],
    place: usize,
    book: &Book,
) -> Result<Book, JoinFault>
    requires { place < length paths.now }
    ensures { IsNext (O.bytes opener.now) (map (λ p. p.now) paths.now) place book.now result }
{
    let next = match book_of_file(alloc, opener, paths[place]) {
        Ok(next) => next,
        Err(fault) => return Err(JoinFault::File { place, fault }),
    };
    match join(book, &next) {
        Ok(joined) => Ok(joined),
        Err(JoinError::SpecMismatch) => Err(JoinFault::OtherSpec { place }),
        Err(JoinError::NoMemory) => Err(JoinFault::NoMemory),
    }
}

/// The book at a path.
pub(crate) fn book_of_file<O: Opener>(
    alloc: Global,
    opener: &O,
    path: &str,
) -> Result<Book, FileFault>
    ensures { IsFileBook (O.bytes opener.now path.now) result }
{
    let Some(reader) = opener.open(path) else {
        return Err(FileFault::Unopened);
    };
    let mut input = Counted::new(reader);
    match read_book(alloc, &mut input) {
        Ok(book) => {
            book.known();
            Ok(book)
        }
        Err(error) => Err(FileFault::Book(told_of(error, &input.into_inner()))),
    }
}

/// Why a reader gave no book. A read fault is told of one that has failed alone; that of no other is one is known to the reader of books, and
/// not from its contract.
fn told_of<R: FileReader>(error: BookError, reader: &R) -> BookError
    ensures same { (result ≡ error) ⊎ (result ≡ BookMemory) }
    ensures fault { result ≡ ReadFault → R.may_fail ≡ true }
{
    match error {
        BookError::ReadFault => read_fault_of(reader.has_failed()),
        other => other,
    }
}

fn read_fault_of(has_failed: bool) -> BookError
    ensures same { (result ≡ ReadFault) ⊎ (result ≡ BookMemory) }
    ensures fault { result ≡ ReadFault → has_failed ≡ true }
{
    if has_failed {
        return BookError::ReadFault;
    }
    BookError::NoMemory
}
