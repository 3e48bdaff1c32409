//! The members of a book's object, read against what was guessed of them.

ghost use Rattle.std.specs.Prelude.{◌≡◌, [], ◌∷◌, IfSome, IsTrue, Some, codes};
ghost use Rattle.json.specs.Lex.{tokens};
ghost use Rattle.json.specs.Token.{begin_object};
ghost use Rattle.serde_json.specs.Data.{Data, string};
ghost use Rattle.book_format.specs.Tokens.{IsValueAt, member_depth};
ghost use Rattle.book_files.specs.Pieces.{AreAllParts, AreNone, IsFactsPart, IsFormatPart, Takes};

use crate::guess::Guess;
use book_format::{facts_at, outcomes_at, runs_at, value_at};
use compact_outcomes::CompactOutcomes;
use fact_books::{Builder, Run};
use json::{Reader, Scratch, Token};
use std::alloc::Global;

/// How deep a member may be.
const MEMBER_DEPTH: usize = 126;

/// The facts of a book by its format.
#[derive(Drop)]
pub(crate) enum Facts {
    Each(Builder),
    Runs(Vec<Run>),
}

/// What is read of the members so far.
#[derive(Drop)]
pub(crate) struct Parts {
    pub(crate) facts: Option<Facts>,
    pub(crate) format: Option<u64>,
    pub(crate) outcomes: Option<CompactOutcomes>,
    /// Whether the text of the spec is read, which is the one that was guessed.
    pub(crate) spec: bool,
}

/// The parts of the object that a text is.
pub(crate) fn parts_of(
    alloc: Global,
    text: &str,
    guess: &Guess,
    scratch: &mut Scratch,
) -> Option<Parts>
    ensures { IfSome result (AreAllParts guess.now (tokens text.now)) }
{
    match Reader::new(text, scratch) {
        Ok(reader) => parts_read(alloc, guess, reader),
        Err(_) => None,
    }
}

/// The parts of the object whose tokens are next.
fn parts_read(alloc: Global, guess: &Guess, mut reader: Reader<'_>) -> Option<Parts>
    ensures { IfSome result (AreAllParts guess.now reader.entry) }
{
    let mut parts = Parts {
        facts: None,
        format: None,
        outcomes: None,
        spec: false,
    };
    if takes_all(alloc, guess, &mut parts, &mut reader) {
        Some(parts)
    } else {
        None
    }
}

/// Reads the members of an object, and that nothing stands behind it.
fn takes_all(alloc: Global, guess: &Guess, parts: &mut Parts, reader: &mut Reader<'_>) -> bool
    requires { AreNone parts.old }
    ensures { IsTrue result → AreAllParts guess.now reader.old parts.new }
{
    if !begins_object(reader) {
        return false;
    }
    while let Ok(next) = reader.next_key() {
        match next {
            None => return ends(reader),
            Some(name) => {
                if !takes(alloc, guess, parts, name, reader) {
                    return false;
                }
            }
        }
    }
    false
}

/// Goes past the brace that begins an object, if it is next.
fn begins_object(reader: &mut Reader<'_>) -> bool
    ensures { IsTrue result → reader.old ≡ begin_object ∷ reader.new }
{
    match reader.next() {
        Some(Token::BeginObject) => true,
        _ => false,
    }
}

/// Whether no token is left.
fn ends(reader: &mut Reader<'_>) -> bool
    ensures { IsTrue result → reader.old ≡ [] }
{
    match reader.next() {
        None => true,
        Some(_) => false,
    }
}

/// Reads the member with this name, if it is one of a book's, the first with that name, and what was guessed.
fn takes(
    alloc: Global,
    guess: &Guess,
    parts: &mut Parts,
    name: &str,
    reader: &mut Reader<'_>,
) -> bool
    ensures { IsTrue result → Takes guess.now name.now reader.old reader.new parts.old parts.new }
{
    if name == "facts" {
        takes_facts(alloc, guess, parts, reader)
    } else if name == "format" {
        takes_format(alloc, guess, parts, reader)
    } else if name == "outcomes" {
        takes_outcomes(alloc, guess, parts, reader)
    } else if name == "spec" {
        takes_spec(guess, parts, reader)
    } else {
        false
    }
}

/// Reads the facts or runs, if there are none yet.
fn takes_facts(alloc: Global, guess: &Guess, parts: &mut Parts, reader: &mut Reader<'_>) -> bool
    ensures { IsTrue result → Takes guess.now (codes "facts") reader.old reader.new parts.old parts.new }
{
    if parts.facts.is_some() {
        return false;
    }
    match facts_part(alloc, guess, reader) {
        Some(facts) => {
            parts.facts = Some(facts);
            true
        }
        None => false,
    }
}

/// The facts or runs that are next, by the format that was guessed.
fn facts_part(alloc: Global, guess: &Guess, reader: &mut Reader<'_>) -> Option<Facts>
    ensures { IfSome result (λ facts. (d : Data) × IsValueAt member_depth reader.old d reader.new × IsFactsPart guess.now facts d) }
{
    if guess.format == 1 {
        match facts_at(alloc, &guess.spec, guess.facts, guess.bytes, reader) {
            Some(builder) => Some(Facts::Each(builder)),
            None => None,
        }
    } else {
        match runs_at(alloc, &guess.spec, guess.outcomes, guess.facts, reader) {
            Some(runs) => Some(Facts::Runs(runs)),
            None => None,
        }
    }
}

/// Reads the number of the format, if there is none yet.
fn takes_format(alloc: Global, guess: &Guess, parts: &mut Parts, reader: &mut Reader<'_>) -> bool
    ensures { IsTrue result → Takes guess.now (codes "format") reader.old reader.new parts.old parts.new }
{
    if parts.format.is_some() {
        return false;
    }
    match format_part(alloc, reader) {
        Some(format) => {
            parts.format = Some(format);
            true
        }
        None => false,
    }
}

/// The number of a format that is next.
fn format_part(alloc: Global, reader: &mut Reader<'_>) -> Option<u64>
    ensures { IfSome result (λ n. (d : Data) × IsValueAt member_depth reader.old d reader.new × IsFormatPart n d) }
{
    match value_at(alloc, reader, MEMBER_DEPTH) {
        Some(value) => value.as_u64(),
        None => None,
    }
}

/// Reads the outcomes, if there are none yet.
fn takes_outcomes(alloc: Global, guess: &Guess, parts: &mut Parts, reader: &mut Reader<'_>) -> bool
    ensures { IsTrue result → Takes guess.now (codes "outcomes") reader.old reader.new parts.old parts.new }
{
    if parts.outcomes.is_some() {
        return false;
    }
    match outcomes_at(alloc, &guess.spec, reader) {
        Some(outcomes) => {
            parts.outcomes = Some(outcomes);
            true
        }
        None => false,
    }
}

/// Reads the text of the spec, if it is the first one and the one that was guessed.
fn takes_spec(guess: &Guess, parts: &mut Parts, reader: &mut Reader<'_>) -> bool
    ensures { IsTrue result → Takes guess.now (codes "spec") reader.old reader.new parts.old parts.new }
{
    if parts.spec {
        return false;
    }
    if is_text(guess.text.as_str(), reader) {
        parts.spec = true;
        true
    } else {
        false
    }
}

/// Whether this text is next.
fn is_text(text: &str, reader: &mut Reader<'_>) -> bool
    ensures { IsTrue result → IsValueAt member_depth reader.old (string text.now) reader.new }
{
    match reader.next() {
        Some(Token::String(next)) => next == text,
        _ => false,
    }
}
