//! The book of bytes that were written of one. They are read in one pass, without a JSON value, as what the writer lays out; and what
//! comes of that is a book only if its text is these bytes.

ghost use Rattle.std.specs.Prelude.{◌≡◌, None, Ok, IfSome};
ghost use Rattle.book_format.specs.ReadingBooks.{IsBookFile};

use crate::cursor::Cursor;
use crate::outcomes::outcome_at;
use crate::spec_of_text::spec_of_text;
use book_format::{Listed, book_of_text};
use bound_specs::Spec;
use fact_books::{Book, Run, Tag};
use serde_json::Value as Json;
use std::alloc::Global;
use std::str;

/// A run has so many bytes at least: `[0,1,"ran",0]`.
pub(crate) const MIN_RUN: usize = 13;

/// What stands before the text of the spec. It stands nowhere else: quotes are escaped in texts.
const SPEC: &[u8] = b",\"spec\":\"";

/// The book that bytes are the one text of. There may be none for want of memory too.
pub(crate) fn written_book(alloc: Global, bytes: &[u8]) -> Option<Book>
    ensures { IfSome result (λ book. IsBookFile bytes.now (Ok book)) }
{
    // Else all of it would be read in vain.
    if !bytes.ends_with(b"}\n") {
        return None;
    }
    let mut cursor = Cursor::new(bytes);
    let runs = runs_at(alloc, &mut cursor)?;
    let outcomes = outcomes_text(&mut cursor)?;
    let text = spec_at(alloc, &mut cursor)?;
    let spec = match spec_of_text(alloc, text.as_str()) {
        Ok(spec) => spec,
        Err(_) => return None,
    };
    let listed = listed_in(alloc, &spec, &mut Cursor::new(outcomes))?;
    book_of_text(alloc, bytes, listed, runs).ok()?
}

/// The runs that a text begins with.
fn runs_at(alloc: Global, cursor: &mut Cursor<'_>) -> Option<Vec<Run>> {
    if !cursor.passes(b"{\"facts\":[") {
        return None;
    }
    // Each run has one opening bracket, and the first letter of the next member's name is in none.
    let count = cursor.count(b'[', b'f').min(cursor.len() / MIN_RUN);
    let mut runs = Vec::with_capacity(alloc, count).ok()?;
    if cursor.passes(b"]") {
        return Some(runs);
    }
    for _ in 0..cursor.len() {
        runs.push(run_at(cursor)?).ok()?;
        if !cursor.passes(b",") {
            break;
        }
    }
    if !cursor.passes(b"]") {
        return None;
    }
    Some(runs)
}

/// The run that is next.
fn run_at(cursor: &mut Cursor<'_>) -> Option<Run> {
    if !cursor.passes(b"[") {
        return None;
    }
    let first = cursor.number()?;
    if !cursor.passes(b",") {
        return None;
    }
    let end = first.checked_add(cursor.number()?)?;
    let tag = tag_at(cursor)?;
    if !cursor.passes(b"]") {
        return None;
    }
    Some(Run { first, end, tag })
}

/// The tag that is next, behind a comma.
fn tag_at(cursor: &mut Cursor<'_>) -> Option<Tag> {
    if cursor.passes(b",\"swap\",") {
        let place = u8::try_from(cursor.number()?).ok()?;
        return Some(Tag::Swap(place));
    }
    if cursor.passes(b",\"ran\",") {
        let number = u32::try_from(cursor.number()?).ok()?;
        return Some(Tag::Ran(number));
    }
    None
}

/// The text of the outcomes, behind the runs.
fn outcomes_text<'a>(cursor: &mut Cursor<'a>) -> Option<&'a [u8]> {
    if !cursor.passes(b",\"format\":2,\"outcomes\":") {
        return None;
    }
    cursor.up_to_last(SPEC)
}

/// The outcomes of the array that is next, which are those of a spec for which levels are not asked for.
fn listed_in<'a>(alloc: Global, spec: &'a Spec, cursor: &mut Cursor<'_>) -> Option<Listed<'a>>
    requires unasked { spec.now.asked ≡ None }
{
    if !cursor.passes(b"[") {
        return None;
    }
    let mut listed = Listed::new(alloc, spec);
    if cursor.passes(b"]") {
        return Some(listed);
    }
    for _ in 0..cursor.len() {
        let outcome = outcome_at(alloc, cursor)?;
        if !listed.push(alloc, &outcome).ok()? {
            return None;
        }
        if !cursor.passes(b",") {
            break;
        }
    }
    if !cursor.passes(b"]") {
        return None;
    }
    Some(listed)
}

/// The text of the spec, behind the outcomes.
fn spec_at(alloc: Global, cursor: &mut Cursor<'_>) -> Option<String> {
    if !cursor.passes(SPEC) {
        return None;
    }
    let (text, _) = cursor.quoted()?;
    text_of_quoted(alloc, text)
}

/// The text that stands between quotes so.
pub(crate) fn text_of_quoted(alloc: Global, text: &[u8]) -> Option<String> {
    let mut quoted = String::new(alloc);
    quoted.push_str("\"").ok()?;
    quoted.push_str(str::from_utf8(text).ok()?).ok()?;
    quoted.push_str("\"").ok()?;
    match Json::from_str(alloc, quoted.as_str()).ok()? {
        Json::String(text) => Some(text),
        _ => None,
    }
}
