//! What books tell of orders, in classes, from the files of the books to what is written.

ghost use Rattle.std.specs.Prelude.{◌≡◌, ◌<◌, ◌++◌, IfErr, IfOk, codes, decimal, length, map, string_bytes};
ghost use Rattle.transcripts.specs.Counted.{failures_of};
ghost use Rattle.book_rows.specs.Classes.{IsClassedBook};
ghost use Rattle.class_commands.specs.Booking.{IsBookClassesRun, IsBookText, books_name};
ghost use Rattle.class_commands.specs.BookParts.{IsBookFound, IsBookNotFound, WritesBook};
ghost use Rattle.class_commands.specs.Written.{written_bytes};

use crate::written::{Written, ranks_of, written_page};
use book_commands::{JoinFault, Opener, joined_files};
use book_rows::{BookClasses, classes_of};
use book_stretches::{TellError, spec_of_book, told_ranks};
use bound_specs::Spec;
use class_texts::{ClassKind, Page};
use fact_books::Book;
use itoa::Buffer;
use spec_levels::levels_of;
use std::alloc::{AllocError, Global};
use std::io::Write;
use transcripts::{Counted, WriteFault};
use wanted_classes::WantedOutcomes;

/// Why the classes of books were not written. Each is tried before those below it, but for want of memory.
#[derive(Clone, Copy, PartialEq, Eq)]
pub enum BookClassesFault {
    /// The books were not joined.
    Join(JoinFault),
    /// The books tell two outcomes of this rank, and of none before it.
    Clash(u64),
    /// Memory ran out.
    NoMemory,
    /// The text was not written; a front of it may be.
    Write(WriteFault),
}

/// Joins the books at these paths, and writes the classes of what they tell of the orders of their spec.
pub fn book_classes<O: Opener, W: Write>(
    alloc: Global,
    opener: &O,
    paths: &[&str],
    wanted: &WantedOutcomes,
    out: &mut Counted<W>,
) -> Result<(), BookClassesFault>
    requires some { 0 < length paths.now }
    requires countable { failures_of out.old < u64.MAX }
    ensures { IsBookClassesRun (O.bytes opener.now) (map (λ p. p.now) paths.now) W.contents out.old out.new wanted.now result }
{
    let book = match joined_files(alloc, opener, paths) {
        Ok(book) => book,
        Err(fault) => return Err(BookClassesFault::Join(fault)),
    };
    let found = match find_outcomes(alloc, &book) {
        Ok(found) => found,
        Err(fault) => return Err(fault),
    };
    write_outcomes(alloc, paths, &found, wanted, out)
}

/// The spec of books, and the classes of what they tell.
#[derive(Drop)]
struct Found<'a> {
    spec: Spec,
    classes: BookClasses<'a>,
}

fn find_outcomes(alloc: Global, book: &Book) -> Result<Found<'_>, BookClassesFault>
    ensures found { IfOk result (IsBookFound book.now) }
    ensures refused { IfErr result (IsBookNotFound book.now) }
{
    let told = match told_ranks(alloc, book) {
        Ok(told) => told,
        Err(TellError::Clash(rank)) => return Err(BookClassesFault::Clash(rank)),
        Err(TellError::NoMemory) => return Err(BookClassesFault::NoMemory),
    };
    let Ok(spec) = spec_of_book(alloc, book) else {
        return Err(BookClassesFault::NoMemory);
    };
    match classes_of(alloc, book, &spec, told) {
        Ok(classes) => Ok(Found { spec, classes }),
        Err(_) => Err(BookClassesFault::NoMemory),
    }
}

fn write_outcomes<W: Write>(
    alloc: Global,
    paths: &[&str],
    found: &Found<'_>,
    wanted: &WantedOutcomes,
    out: &mut Counted<W>,
) -> Result<(), BookClassesFault>
    requires { failures_of out.old < u64.MAX }
    ensures { WritesBook W.contents out.old out.new (IsBookText (map (λ p. p.now) paths.now) found.now.spec found.now.classes wanted.now) result }
{
    let Ok(written) = outcomes_told(alloc, paths, found, wanted) else {
        return Err(BookClassesFault::NoMemory);
    };
    match out.write_all(written.bytes()) {
        Ok(()) => Ok(()),
        Err(fault) => Err(BookClassesFault::Write(fault)),
    }
}

/// What is written of the classes of books.
fn outcomes_told(
    alloc: Global,
    paths: &[&str],
    found: &Found<'_>,
    wanted: &WantedOutcomes,
) -> Result<Written, AllocError>
    ensures { IfOk result (λ w. IsBookText (map (λ p. p.now) paths.now) found.now.spec found.now.classes wanted.now (written_bytes w)) }
{
    let spec = &found.spec;
    let classes = &found.classes;
    let name = name_of(alloc, paths)?;
    let ranks = ranks_of(alloc, wanted.ranks, &classes.told.stretches)?;
    let levels = levels_of(alloc, spec)?;
    let page = Page {
        path: name.as_str(),
        orders: spec.ranks(),
        all_orders: false,
        sample: None,
        sessions: spec.session_names(),
        steps: spec.step_names(),
        tables: &[],
        by: ClassKind::Outcomes,
        is_filtered: classes.missing.is_some(),
        filters: "",
        missing: classes.missing,
        levels: &levels,
        expectations: &[],
        totals: classes.totals,
        rows: classes.rows.as_slice(),
        is_brief: wanted.brief,
        with_ranks: wanted.ranks,
        ranks: ranks.as_slice(),
        with_outcomes: wanted.outcomes,
        with_left: false,
        looks: &[],
    };
    let written = written_page(alloc, spec, &page, wanted.json)?;
    Ok(written)
}

/// What books are called: the path of the one, or how many they are.
fn name_of(alloc: Global, paths: &[&str]) -> Result<String, AllocError>
    ensures { IfOk result (λ name. string_bytes name ≡ books_name (map (λ p. p.now) paths.now)) }
{
    if paths.len() == 1 {
        return String::from_str(alloc, paths[0]);
    }
    many_books(alloc, paths.len())
}

fn many_books(alloc: Global, number: usize) -> Result<String, AllocError>
    ensures { IfOk result (λ name. string_bytes name ≡ decimal number ++ codes " books") }
{
    let mut name = String::new(alloc);
    name.push_str(Buffer::new().format(number))?;
    name.push_str(" books")?;
    Ok(name)
}
