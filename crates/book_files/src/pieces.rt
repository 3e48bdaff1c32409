//! The book of bytes in any layout, read piece by piece: beside the bytes there are in memory the book that is made, a scratch of the
//! bytes' length, and one fact or outcome as a JSON value.

ghost use Rattle.std.specs.Prelude.{◌≡◌, IfSome, Ok, Some, length};
ghost use Rattle.serde_json.specs.Data.{Data, Members, object};
ghost use Rattle.serde_json.specs.Read.{read};
ghost use Rattle.fact_books.specs.Books.{facts_in};
ghost use Rattle.book_format.specs.ReadingBooks.{IsBookFile, IsBookValue};
ghost use Rattle.book_files.specs.Pieces.{AreParts, HasParts, IsFactsPart, IsGuess, IsOutcomesPart};

use crate::guess::{Guess, guess_of};
use crate::parts::{Facts, Parts, parts_of};
use book_format::MAX_TEXT;
use compact_outcomes::CompactOutcomes;
use fact_books::{Book, Builder, Run};
use json::Scratch;
use std::alloc::Global;
use std::str;

/// The book that bytes are. There may be none for want of memory too.
pub(crate) fn book_by_pieces(alloc: Global, bytes: &[u8]) -> Option<Book>
    ensures { IfSome result (λ book. IsBookFile bytes.now (Ok book)) }
{
    if bytes.len() > MAX_TEXT as usize {
        return None;
    }
    match str::from_utf8(bytes) {
        Ok(text) => book_of_str(alloc, text),
        Err(_) => None,
    }
}

/// The book that a text is.
fn book_of_str(alloc: Global, text: &str) -> Option<Book>
    ensures { IfSome result (λ book. (d : Data) × (read text.now ≡ Some d) × IsBookValue d (Ok book)) }
{
    let mut scratch = Scratch::new(alloc);
    match guess_of(alloc, text, &mut scratch) {
        Some(guess) => guessed_book(alloc, text, &guess, &mut scratch),
        None => None,
    }
}

/// The book that a text is whose parts were guessed.
fn guessed_book(alloc: Global, text: &str, guess: &Guess, scratch: &mut Scratch) -> Option<Book>
    requires { IsGuess guess.now }
    ensures { IfSome result (λ book. (d : Data) × (read text.now ≡ Some d) × IsBookValue d (Ok book)) }
{
    match parts_of(alloc, text, guess, scratch) {
        Some(parts) => book_of_parts(alloc, guess, parts),
        None => None,
    }
}

/// The book of its parts.
fn book_of_parts(alloc: Global, guess: &Guess, parts: Parts) -> Option<Book>
    requires guess { IsGuess guess.now }
    requires parts { HasParts guess.now parts }
    ensures { IfSome result (λ book. (found : Members) → AreParts guess.now found parts → IsBookValue (object found) (Ok book)) }
{
    let Parts {
        facts,
        format,
        outcomes,
        spec,
    } = parts;
    match (facts, format, outcomes, spec) {
        (Some(Facts::Each(builder)), Some(1), None, true) => facts_book(alloc, guess, builder),
        (Some(Facts::Runs(runs)), Some(2), Some(outcomes), true) => {
            if outcomes.len() == guess.outcomes as usize {
                runs_book(alloc, guess, outcomes, runs)
            } else {
                None
            }
        }
        _ => None,
    }
}

/// The book of facts one by one.
fn facts_book(alloc: Global, guess: &Guess, builder: Builder) -> Option<Book>
    requires guess { IsGuess guess.now }
    requires facts { (d : Data) × IsFactsPart guess.now (Facts.Each builder) d }
    ensures { IfSome result (λ book. (book.file ≡ guess.now.spec) × (book.facts ≡ builder.facts)) }
{
    match Book::of_facts(alloc, &guess.spec, builder) {
        Ok(book) => Some(book),
        Err(_) => None,
    }
}

/// The book of runs.
fn runs_book(
    alloc: Global,
    guess: &Guess,
    outcomes: CompactOutcomes,
    runs: Vec<Run>,
) -> Option<Book>
    requires guess { IsGuess guess.now }
    requires size { length outcomes ≡ guess.now.outcomes }
    requires outcomes { (d : Data) × IsOutcomesPart guess.now outcomes d }
    requires runs { (d : Data) × IsFactsPart guess.now (Facts.Runs runs) d }
    ensures { IfSome result (λ book. (book.file ≡ guess.now.spec) × (book.facts ≡ facts_in outcomes runs.items)) }
{
    match Book::of_runs(alloc, &guess.spec, outcomes, runs) {
        Ok(book) => Some(book),
        Err(_) => None,
    }
}
