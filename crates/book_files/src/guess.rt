//! What a book's text is guessed to say of that against which its facts are read, and which may stand behind them.

ghost use Rattle.std.specs.Prelude.{IfSome};
ghost use Rattle.book_files.specs.Pieces.{IsGuess};

use crate::spec_of_text::spec_of_text;
use crate::written::MIN_RUN;
use bound_specs::Spec;
use json::{MAX_DEPTH, Reader, Scratch, Token};
use std::alloc::Global;

/// A guess: whatever it says is looked over when the members are read.
#[derive(Drop)]
pub(crate) struct Guess {
    /// The text of the spec.
    pub(crate) text: String,
    /// The spec of that text.
    pub(crate) spec: Spec,
    /// The number of the format.
    pub(crate) format: u64,
    /// How many facts or runs there are, or fewer where the text is too short for so many runs.
    pub(crate) facts: usize,
    /// How many outcomes there are.
    pub(crate) outcomes: u32,
    /// How many bytes the text has.
    pub(crate) bytes: usize,
}

/// What is seen of the members in a first pass.
#[derive(Drop)]
struct Hints {
    text: String,
    format: u64,
    facts: usize,
    outcomes: usize,
}

/// A guess from the tokens of a text.
pub(crate) fn guess_of(alloc: Global, text: &str, scratch: &mut Scratch) -> Option<Guess>
    ensures { IfSome result IsGuess }
{
    match hints_of(alloc, text, scratch) {
        Some(hints) => guess_from(alloc, hints, text.len()),
        None => None,
    }
}

/// The guess of what was seen.
fn guess_from(alloc: Global, hints: Hints, bytes: usize) -> Option<Guess>
    ensures { IfSome result IsGuess }
{
    let outcomes = u32::try_from(hints.outcomes).ok()?;
    match spec_of_text(alloc, hints.text.as_str()) {
        Ok(spec) => Some(Guess {
            text: hints.text,
            spec,
            format: hints.format,
            facts: hints.facts,
            outcomes,
            bytes,
        }),
        Err(_) => None,
    }
}

fn hints_of(alloc: Global, text: &str, scratch: &mut Scratch) -> Option<Hints> {
    let mut hints = Hints {
        text: String::new(alloc),
        format: 0,
        facts: 0,
        outcomes: 0,
    };
    let mut reader = match Reader::new(text, scratch) {
        Ok(reader) => reader,
        Err(_) => return None,
    };
    if !sees_all(&mut hints, text.len(), &mut reader) {
        return None;
    }
    hints.facts = hints.facts.min(text.len() / MIN_RUN);
    Some(hints)
}

/// Looks at each member of an object, of which there are no more than this.
fn sees_all(hints: &mut Hints, limit: usize, reader: &mut Reader<'_>) -> bool {
    if !matches!(reader.next(), Some(Token::BeginObject)) {
        return false;
    }
    for _ in 0..limit {
        match reader.next_key() {
            Ok(Some(name)) => {
                if !sees(hints, name, limit, reader) {
                    return false;
                }
            }
            Ok(None) => return true,
            Err(_) => return false,
        }
    }
    false
}

/// Looks at the member with this name, whose value is next.
fn sees(hints: &mut Hints, name: &str, limit: usize, reader: &mut Reader<'_>) -> bool {
    match name {
        "facts" => sees_count(&mut hints.facts, limit, reader),
        "format" => sees_number(&mut hints.format, reader),
        "outcomes" => sees_count(&mut hints.outcomes, limit, reader),
        "spec" => sees_text(&mut hints.text, reader),
        _ => false,
    }
}

/// Notes how many items the array has that is next.
fn sees_count(count: &mut usize, limit: usize, reader: &mut Reader<'_>) -> bool {
    if !matches!(reader.next(), Some(Token::BeginArray)) {
        return false;
    }
    for passed in 0..limit {
        if reader.take_end_array() {
            *count = passed;
            return true;
        }
        if reader.skip_value(MAX_DEPTH).is_err() {
            return false;
        }
    }
    false
}

/// Notes the number that is next.
fn sees_number(number: &mut u64, reader: &mut Reader<'_>) -> bool {
    match reader.next() {
        Some(Token::Number(digits)) => match digits.parse::<u64>() {
            Ok(read) => {
                *number = read;
                true
            }
            Err(_) => false,
        },
        _ => false,
    }
}

/// Notes the text that is next.
fn sees_text(text: &mut String, reader: &mut Reader<'_>) -> bool {
    match reader.next() {
        Some(Token::String(read)) => {
            text.clear();
            text.push_str(read).is_ok()
        }
        _ => false,
    }
}
