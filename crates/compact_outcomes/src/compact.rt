//! The compact JSON text of an outcome, pushed to a text piece by piece.

ghost use Rattle.std.specs.Prelude.{◌≡◌, ◌++◌, EachIndex, IsTrue, OnOk, codes, slice_index, string_bytes};
ghost use Rattle.json.specs.Print.{quoted};
ghost use Rattle.compact_outcomes.specs.CompactTexts.{IsPlain, array_text, cell_text, event_text, numbered_text, others_text, row_text, session_text};

use crate::quoted::string_text;
use events::{Event, Transcript, fault_number, warning_number};
use itoa::Buffer;
use lock_modes::Value;
use std::alloc::AllocError;

/// Pushes the text of an outcome, whose sessions these are.
pub(crate) fn push_sessions(sessions: &[Transcript], text: &mut String) -> Result<(), AllocError>
    ensures { OnOk result (string_bytes text.new ≡ string_bytes text.old ++ array_text session_text sessions.now) }
{
    match sessions.split_first() {
        None => push("[]", text),
        Some((first, others)) => {
            push("[", text)?;
            push_session(first.events(), text)?;
            push_other_sessions(others, text)
        }
    }
}

/// Each session after a comma, and the closing bracket.
fn push_other_sessions(sessions: &[Transcript], text: &mut String) -> Result<(), AllocError>
    ensures { OnOk result (string_bytes text.new ≡ string_bytes text.old ++ others_text session_text sessions.now) }
{
    for session in sessions {
        push(",", text)?;
        push_session(session.events(), text)?;
    }
    push("]", text)
}

fn push_session(events: &[Event], text: &mut String) -> Result<(), AllocError>
    ensures { OnOk result (string_bytes text.new ≡ string_bytes text.old ++ session_text events.now) }
{
    match events.split_first() {
        None => push("[]", text),
        Some((first, others)) => {
            push("[", text)?;
            push_event(first, text)?;
            push_other_events(others, text)
        }
    }
}

/// Each event after a comma, and the closing bracket.
fn push_other_events(events: &[Event], text: &mut String) -> Result<(), AllocError>
    ensures { OnOk result (string_bytes text.new ≡ string_bytes text.old ++ others_text event_text events.now) }
{
    for event in events {
        push(",", text)?;
        push_event(event, text)?;
    }
    push("]", text)
}

fn push_event(event: &Event, text: &mut String) -> Result<(), AllocError>
    ensures { OnOk result (string_bytes text.new ≡ string_bytes text.old ++ event_text event.now) }
{
    match event {
        Event::Sent(step) => push_numbered("[\"sent\",", u64::from(*step), text),
        Event::Row(row) => push_row(row.values(), text),
        Event::Rows(count) => push_numbered("[\"rows\",", *count, text),
        Event::Inserted(count) => push_numbered("[\"inserted\",", *count, text),
        Event::Updated(count) => push_numbered("[\"updated\",", *count, text),
        Event::Deleted(count) => push_numbered("[\"deleted\",", *count, text),
        Event::Began => push("\"began\"", text),
        Event::Committed => push("\"committed\"", text),
        Event::RolledBack => push("\"rolledback\"", text),
        Event::Locked => push("\"locked\"", text),
        Event::Set => push("\"set\"", text),
        Event::Warned(warning) => {
            push_numbered("[\"warned\",", u64::from(warning_number(*warning)), text)
        }
        Event::Failed(fault) => {
            push_numbered("[\"failed\",", u64::from(fault_number(*fault)), text)
        }
        Event::Waiting => push("\"waiting\"", text),
        Event::Resumed => push("\"resumed\"", text),
        Event::Done => push("\"done\"", text),
        Event::NotSent(step) => push_numbered("[\"notsent\",", u64::from(*step), text),
    }
}

/// What stands before a number, the number, and a closing bracket.
fn push_numbered(front: &str, number: u64, text: &mut String) -> Result<(), AllocError>
    ensures { OnOk result (string_bytes text.new ≡ string_bytes text.old ++ numbered_text front.now number) }
{
    push(front, text)?;
    push(Buffer::new().format(number), text)?;
    push("]", text)
}

fn push_row(values: &[Value], text: &mut String) -> Result<(), AllocError>
    ensures { OnOk result (string_bytes text.new ≡ string_bytes text.old ++ row_text values.now) }
{
    push("[\"row\",", text)?;
    push_cells(values, text)?;
    push("]", text)
}

fn push_cells(values: &[Value], text: &mut String) -> Result<(), AllocError>
    ensures { OnOk result (string_bytes text.new ≡ string_bytes text.old ++ array_text cell_text values.now) }
{
    match values.split_first() {
        None => push("[]", text),
        Some((first, others)) => {
            push("[", text)?;
            push_cell(first, text)?;
            push_other_cells(others, text)
        }
    }
}

/// Each value after a comma, and the closing bracket.
fn push_other_cells(values: &[Value], text: &mut String) -> Result<(), AllocError>
    ensures { OnOk result (string_bytes text.new ≡ string_bytes text.old ++ others_text cell_text values.now) }
{
    for value in values {
        push(",", text)?;
        push_cell(value, text)?;
    }
    push("]", text)
}

fn push_cell(value: &Value, text: &mut String) -> Result<(), AllocError>
    ensures { OnOk result (string_bytes text.new ≡ string_bytes text.old ++ cell_text value.now) }
{
    match value {
        Value::Int(number) => push(Buffer::new().format(*number), text),
        Value::Text(words) => push_quoted(words.as_str(), text),
    }
}

/// A text as a JSON string. Few texts have a byte that needs an escape; only for these is a string of its own made.
fn push_quoted(words: &str, text: &mut String) -> Result<(), AllocError>
    ensures { OnOk result (string_bytes text.new ≡ string_bytes text.old ++ quoted words.now) }
{
    if are_plain(words.as_bytes()) {
        return push_plain(words, text);
    }
    let escaped = string_text(*text.allocator(), words)?;
    push(escaped.as_str(), text)
}

/// A text in quotes, as it is.
fn push_plain(words: &str, text: &mut String) -> Result<(), AllocError>
    ensures { OnOk result (string_bytes text.new ≡ string_bytes text.old ++ (codes "\"" ++ (words.now ++ codes "\""))) }
{
    push("\"", text)?;
    push(words, text)?;
    push("\"", text)
}

/// Whether each byte stands for itself in a JSON string. A no costs time alone.
fn are_plain(bytes: &[u8]) -> bool
    ensures { IsTrue result → EachIndex bytes.now (λ k. IsPlain (slice_index bytes.now k)) }
{
    bytes
        .iter()
        .all(|byte| *byte >= 32 && *byte != b'"' && *byte != b'\\')
}

fn push(part: &str, text: &mut String) -> Result<(), AllocError>
    ensures { OnOk result (string_bytes text.new ≡ string_bytes text.old ++ part.now) }
{
    text.push_str(part)?;
    Ok(())
}
