//! What a book's text is made of.

ghost use Rattle.std.specs.Prelude.{◌≡◌, ◌↔◌, All, IsTrue, false, IfOk, IfErr, length, min};
ghost use Rattle.book_format.specs.Laws.{RunFits};
ghost use Rattle.book_format.specs.Pieces.{text_in, IsUtf8Told};
ghost use Rattle.book_format.specs.Writing.{ArePieces, AreTooLarge, IsRefused};

use crate::lengths::{facts_in, outcomes_len, runs_len};
use crate::one_form::one_form;
use crate::write_error::WriteError;
use compact_outcomes::{CompactOutcome, string_text};
use fact_books::{Book, Run};
use std::alloc::{AllocError, Global};

/// The bytes of a book's text, at most.
pub const MAX_TEXT: u64 = 268_435_456;

/// The facts of a book that is written, at most.
pub const MAX_FACTS: u64 = 30_000_000;

/// How many bytes stand in every book's text beside its runs, its outcomes and its spec's text.
const FIXED_LEN: u64 = 46;

/// The runs of a book, its outcomes, and its spec's text as a JSON string.
pub(crate) struct Pieces<'a> {
    pub(crate) runs: Vec<Run>,
    pub(crate) outcomes: Vec<CompactOutcome<'a>>,
    pub(crate) quoted: String,
}

// Written out and not derived, so that who owns one calls this and does not let its parts go one by one.
impl Drop for Pieces<'_> {
    fn drop(self) {
        let Pieces {
            runs: _runs,
            outcomes: _outcomes,
            quoted: _quoted,
        } = self;
    }
}

/// The pieces of a book's one text, if neither it nor the facts are over their limit.
pub(crate) fn pieces_of(alloc: Global, book: &Book) -> Result<Pieces<'_>, WriteError>
    ensures pieces { IfOk result (ArePieces book.now) }
    ensures fit { IfOk result (λ pieces. AreTooLarge pieces → ⊥) }
    ensures widths { IfOk result (λ pieces. All RunFits pieces.runs.items) }
    ensures utf8 { IfOk result (λ pieces. All IsUtf8Told pieces.outcomes.items) }
    ensures refused { IfErr result (IsRefused book.now) }
{
    let pieces = all_pieces(alloc, book)?;
    if are_too_large(&pieces) {
        return Err(WriteError::TooLarge);
    }
    known_texts(pieces.outcomes.as_slice());
    Ok(pieces)
}

fn all_pieces(alloc: Global, book: &Book) -> Result<Pieces<'_>, AllocError>
    ensures { IfOk result (ArePieces book.now) }
{
    let (outcomes, runs) = book.parts();
    let outcomes = outcomes.all(alloc)?;
    let form = one_form(alloc, outcomes.as_slice(), runs)?;
    let quoted = string_text(alloc, book.text())?;
    Ok(Pieces {
        runs: form.runs,
        outcomes: form.outcomes,
        quoted,
    })
}

/// What holds of outcomes that are kept as texts.
fn known_texts(outcomes: &[CompactOutcome<'_>])
    ensures { All IsUtf8Told outcomes.now }
{
    for outcome in outcomes {
        outcome.known();
    }
}

/// Whether the text that the pieces make, or the number of facts, is over its limit.
fn are_too_large(pieces: &Pieces<'_>) -> bool
    ensures large { IsTrue result ↔ AreTooLarge pieces.now }
    ensures widths { result ≡ false → All RunFits pieces.now.runs.items }
{
    text_len(pieces) > MAX_TEXT || facts_in(pieces.runs.as_slice()) > MAX_FACTS
}

/// How long the text is that the pieces make, or the largest number where it is longer.
fn text_len(pieces: &Pieces<'_>) -> u64
    ensures { result ≡ min (length (text_in pieces.now)) u64.MAX }
{
    runs_len(pieces.runs.as_slice())
        .saturating_add(outcomes_len(pieces.outcomes.as_slice()))
        .saturating_add(pieces.quoted.len() as u64)
        .saturating_add(FIXED_LEN)
}
