//! The texts of resources, rows and events, and these as JSON strings.

ghost use Rattle.std.specs.Prelude.{◌≡◌, ◌++◌, OnOk, codes, get_or, [] as no_name};
ghost use Rattle.std.specs.List.{join_by};
ghost use Rattle.transcripts.specs.Text.{doubled, event_text, fault_text, quoted, row_text, value_text, warning_text};
ghost use Rattle.shown_values.specs.Words as spec;

use crate::strings::{push, push_before, push_count, push_string, push_word};
use events::{Event, Fault, Warning};
use itoa::Buffer;
use line_moments::Left;
use lock_modes::{Resource, Row, Text, Value};
use sqlite_items::Items;
use std::alloc::AllocError;

/// Pushes a label and what a lock is taken on behind it, as a JSON string.
pub(crate) fn push_resource(
    label: &str,
    tables: &Items<Left>,
    resource: &Resource,
    out: &mut Vec<u8>,
) -> Result<(), AllocError>
    ensures { OnOk result (out.new.items ≡ out.old.items ++ (label.now ++ spec.resource_json tables.now resource.now)) }
{
    let mut text = Vec::new(*out.allocator());
    push_resource_name(tables, resource, &mut text)?;
    push_string(label, text.as_slice(), out)
}

/// Pushes the values of a row, as a JSON string.
pub(crate) fn push_tuple(row: &Row, out: &mut Vec<u8>) -> Result<(), AllocError>
    ensures { OnOk result (out.new.items ≡ out.old.items ++ spec.tuple_json row.now) }
{
    let mut text = Vec::new(*out.allocator());
    push_values(row.values(), &mut text)?;
    push_string("", text.as_slice(), out)
}

/// Pushes the line of an event, as a JSON string.
pub(crate) fn push_line(event: &Event, steps: &[Text], out: &mut Vec<u8>) -> Result<(), AllocError>
    ensures { OnOk result (out.new.items ≡ out.old.items ++ spec.line_json steps.now event.now) }
{
    let mut text = Vec::new(*out.allocator());
    push_event(event, steps, &mut text)?;
    push_string("", text.as_slice(), out)
}

/// Pushes a table's name, of a row with its key in brackets behind it.
fn push_resource_name(
    tables: &Items<Left>,
    resource: &Resource,
    text: &mut Vec<u8>,
) -> Result<(), AllocError>
    ensures { OnOk result (text.new.items ≡ text.old.items ++ spec.resource_text tables.now resource.now) }
{
    match resource {
        Resource::Table(table) => push(table_name(tables, *table), text),
        Resource::Row(table, key) => {
            push_word(table_name(tables, *table), "[", text)?;
            push_value(key, text)?;
            push("]", text)
        }
    }
}

/// The name of the table with this number.
fn table_name(tables: &Items<Left>, number: u16) -> &str
    ensures { result.now ≡ spec.table_text tables.now number }
{
    match tables.as_slice().get(usize::from(number)) {
        Some(left) => left.table.name.as_str(),
        None => "",
    }
}

/// Pushes values with a bar between each two.
fn push_values(values: &[Value], text: &mut Vec<u8>) -> Result<(), AllocError>
    ensures { OnOk result (text.new.items ≡ text.old.items ++ join_by value_text (codes "|") values.now) }
{
    for (place, value) in values.iter().enumerate() {
        push_before("|", place, text)?;
        push_value(value, text)?;
    }
    Ok(())
}

/// Pushes a value as it stands in a row.
pub fn push_value(value: &Value, text: &mut Vec<u8>) -> Result<(), AllocError>
    ensures { OnOk result (text.new.items ≡ text.old.items ++ value_text value.now) }
{
    match value {
        Value::Int(number) => push(Buffer::new().format(*number), text),
        Value::Text(words) => push_quoted(words.as_str(), text),
    }
}

/// In single quotes, each quote in it doubled.
fn push_quoted(words: &str, text: &mut Vec<u8>) -> Result<(), AllocError>
    ensures { OnOk result (text.new.items ≡ text.old.items ++ quoted words.now) }
{
    push("'", text)?;
    for byte in words.as_bytes() {
        push_doubled(*byte, text)?;
    }
    push("'", text)
}

fn push_doubled(byte: u8, text: &mut Vec<u8>) -> Result<(), AllocError>
    ensures { OnOk result (text.new.items ≡ text.old.items ++ doubled byte) }
{
    if byte == b'\'' {
        push("''", text)
    } else {
        text.extend_from_slice(&[byte])
    }
}

fn push_event(event: &Event, steps: &[Text], text: &mut Vec<u8>) -> Result<(), AllocError>
    ensures { OnOk result (text.new.items ≡ text.old.items ++ event_text steps.now event.now) }
{
    match event {
        Event::Sent(step) => push_word("step ", step_name(steps, *step), text),
        Event::Row(row) => push_row(row, text),
        Event::Rows(count) => push_count("rows ", *count, text),
        Event::Inserted(count) => push_count("inserted ", *count, text),
        Event::Updated(count) => push_count("updated ", *count, text),
        Event::Deleted(count) => push_count("deleted ", *count, text),
        Event::Began => push("begun", text),
        Event::Committed => push("committed", text),
        Event::RolledBack => push("rolled back", text),
        Event::Locked => push("locked", text),
        Event::Set => push("set", text),
        Event::Warned(warning) => push(warning_words(*warning), text),
        Event::Failed(fault) => push(fault_words(*fault), text),
        Event::Waiting => push("waiting", text),
        Event::Resumed => push("resumed", text),
        Event::Done => push("done", text),
        Event::NotSent(step) => push_word("not sent ", step_name(steps, *step), text),
    }
}

fn warning_words(warning: Warning) -> &'static str
    ensures { result.now ≡ warning_text warning }
{
    match warning {
        Warning::InBlock => "warning: already in a transaction block",
        Warning::NoBlock => "warning: no transaction block",
    }
}

fn fault_words(fault: Fault) -> &'static str
    ensures { result.now ≡ fault_text fault }
{
    match fault {
        Fault::Duplicate => "error: duplicate key",
        Fault::OutOfRange => "error: integer out of range",
        Fault::Deadlock => "error: deadlock",
        Fault::Aborted => "error: transaction is aborted",
        Fault::Unavailable => "error: lock not available",
    }
}

fn push_row(row: &Row, text: &mut Vec<u8>) -> Result<(), AllocError>
    ensures { OnOk result (text.new.items ≡ text.old.items ++ row_text row.now) }
{
    push("row ", text)?;
    push_values(row.values(), text)
}

/// The name of the step with this number.
fn step_name(steps: &[Text], step: u8) -> &str
    ensures { result.now ≡ get_or steps.now step no_name }
{
    match steps.get(usize::from(step)) {
        Some(name) => name.as_str(),
        None => "",
    }
}
