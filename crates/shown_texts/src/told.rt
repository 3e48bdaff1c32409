//! Values and events in the words of outcome texts.

ghost use Rattle.std.specs.Prelude.{◌≡◌, ◌<◌, ◌+◌, ◌++◌, ◌∷◌, [], IfOk, OnOk, codes, decimal, false, flat_map, get_or, length, string_bytes};
ghost use Rattle.std.specs.List.{join_by};
ghost use Rattle.transcripts.specs.Text.{barred, doubled, event_text, fault_text, quoted, row_text, value_text, warning_text};
ghost use Rattle.shown_texts.specs.Words.{begins_quote};

use byte_runs::{Class, after_first, run_of};
use events::{Event, Fault, Warning};
use itoa::Buffer;
use lock_modes::{Text, Value};
use std::alloc::AllocError;

/// Puts a value behind a text.
pub(crate) fn push_value(text: &mut String, value: &Value) -> Result<(), AllocError>
    ensures { OnOk result (string_bytes text.new ≡ string_bytes text.old ++ value_text value.now) }
{
    match value {
        Value::Int(number) => text.push_str(Buffer::new().format(*number)),
        Value::Text(word) => push_quoted(text, word.as_str()),
    }
}

/// Puts a word in single quotes behind a text.
fn push_quoted(text: &mut String, word: &str) -> Result<(), AllocError>
    ensures { OnOk result (string_bytes text.new ≡ string_bytes text.old ++ quoted word.now) }
{
    text.push_str("'")?;
    push_doubled(text, word)?;
    text.push_str("'")
}

/// Puts a word behind a text, with two quotes for each.
fn push_doubled(text: &mut String, word: &str) -> Result<(), AllocError>
    ensures { OnOk result (string_bytes text.new ≡ string_bytes text.old ++ flat_map doubled word.now) }
{
    let mut rest = push_unquoted(text, word)?;
    while begins_quote(rest) {
        text.push_str("''")?;
        rest = push_unquoted(text, after_first(rest))?;
    }
    Ok(())
}

/// Puts the front of a word that has no quote behind a text, and gives what follows.
fn push_unquoted<'a>(text: &mut String, word: &'a str) -> Result<&'a str, AllocError>
    ensures whole { IfOk result (λ rest. string_bytes text.new ++ flat_map doubled rest.now ≡ string_bytes text.old ++ flat_map doubled word.now) }
    ensures quote { IfOk result (λ rest. begins_quote rest.now ≡ false → rest.now ≡ []) }
    ensures shorter { IfOk result (λ rest. length rest.now < length word.now + 1) }
{
    let (plain, rest) = run_of(Class::SingleQuoted, word);
    text.push_str(plain)?;
    Ok(rest)
}

fn begins_quote(text: &str) -> bool
    ensures { result ≡ begins_quote text.now }
{
    matches!(text.as_bytes(), [b'\'', ..])
}

/// Puts values behind a text, with a bar between each two.
pub(crate) fn push_values(text: &mut String, values: &[Value]) -> Result<(), AllocError>
    ensures { OnOk result (string_bytes text.new ≡ string_bytes text.old ++ join_by value_text (codes "|") values.now) }
{
    match values.split_first() {
        None => Ok(()),
        Some((first, others)) => {
            push_value(text, first)?;
            push_others(text, others)
        }
    }
}

/// Puts values behind a text, each after a bar.
fn push_others(text: &mut String, values: &[Value]) -> Result<(), AllocError>
    ensures { OnOk result (string_bytes text.new ≡ string_bytes text.old ++ flat_map barred values.now) }
{
    for value in values {
        text.push_str("|")?;
        push_value(text, value)?;
    }
    Ok(())
}

/// Puts an event behind a text, where these are the names of the steps. It fails for want of memory alone.
pub fn push_event(text: &mut String, steps: &[Text], event: &Event) -> Result<(), AllocError>
    ensures { OnOk result (string_bytes text.new ≡ string_bytes text.old ++ event_text steps.now event.now) }
{
    match event {
        Event::Sent(step) => push_step(text, "step ", steps, *step),
        Event::Row(row) => push_row(text, row.values()),
        Event::Rows(count) => push_count(text, "rows ", *count),
        Event::Inserted(count) => push_count(text, "inserted ", *count),
        Event::Updated(count) => push_count(text, "updated ", *count),
        Event::Deleted(count) => push_count(text, "deleted ", *count),
        Event::Began => text.push_str("begun"),
        Event::Committed => text.push_str("committed"),
        Event::RolledBack => text.push_str("rolled back"),
        Event::Locked => text.push_str("locked"),
        Event::Set => text.push_str("set"),
        Event::Warned(warning) => text.push_str(warning_words(*warning)),
        Event::Failed(fault) => text.push_str(fault_words(*fault)),
        Event::Waiting => text.push_str("waiting"),
        Event::Resumed => text.push_str("resumed"),
        Event::Done => text.push_str("done"),
        Event::NotSent(step) => push_step(text, "not sent ", steps, *step),
    }
}

fn push_step(text: &mut String, word: &str, steps: &[Text], step: u8) -> Result<(), AllocError>
    ensures { OnOk result (string_bytes text.new ≡ string_bytes text.old ++ (word.now ++ get_or steps.now step [])) }
{
    text.push_str(word)?;
    text.push_str(step_name(steps, step))
}

/// The name of a step, or none where there is no such step.
pub fn step_name(steps: &[Text], step: u8) -> &str
    ensures { result.now ≡ get_or steps.now step [] }
{
    match steps.get(usize::from(step)) {
        Some(name) => name.as_str(),
        None => "",
    }
}

fn push_row(text: &mut String, values: &[Value]) -> Result<(), AllocError>
    ensures { OnOk result (string_bytes text.new ≡ string_bytes text.old ++ row_text values.now) }
{
    text.push_str("row ")?;
    push_values(text, values)
}

fn push_count(text: &mut String, word: &str, count: u64) -> Result<(), AllocError>
    ensures { OnOk result (string_bytes text.new ≡ string_bytes text.old ++ (word.now ++ decimal count)) }
{
    text.push_str(word)?;
    text.push_str(Buffer::new().format(count))
}

fn warning_words(warning: Warning) -> &'static str
    ensures { result.now ≡ warning_text warning }
{
    match warning {
        Warning::InBlock => "warning: already in a transaction block",
        Warning::NoBlock => "warning: no transaction block",
    }
}

fn fault_words(fault: Fault) -> &'static str
    ensures { result.now ≡ fault_text fault }
{
    match fault {
        Fault::Duplicate => "error: duplicate key",
        Fault::OutOfRange => "error: integer out of range",
        Fault::Deadlock => "error: deadlock",
        Fault::Aborted => "error: transaction is aborted",
        Fault::Unavailable => "error: lock not available",
    }
}
