//! Rows as the writer lays them out.

use crate::cursor::Cursor;
use crate::written::text_of_quoted;
use lock_modes::{Row, Text, Value};
use std::alloc::Global;
use std::str;

/// The row that is next, whose bracket is passed.
pub(crate) fn row_at(alloc: Global, cursor: &mut Cursor<'_>) -> Option<Row> {
    if cursor.passes(b"]") {
        return Row::from_values(Vec::new(alloc)).ok();
    }
    let commas = cursor.count(b',', b']');
    let mut values = Vec::with_capacity(alloc, commas.saturating_add(1)).ok()?;
    for _ in 0..cursor.len() {
        values.push(cell_at(alloc, cursor)?).ok()?;
        if !cursor.passes(b",") {
            break;
        }
    }
    if !cursor.passes(b"]") {
        return None;
    }
    Row::from_values(values).ok()
}

/// The cell that is next.
fn cell_at(alloc: Global, cursor: &mut Cursor<'_>) -> Option<Value> {
    if cursor.passes(b"\"") {
        return Some(Value::Text(text_at(alloc, cursor)?));
    }
    let digits = str::from_utf8(cursor.signed()?).ok()?;
    Some(Value::Int(digits.parse::<i64>().ok()?))
}

/// The text that is next, whose quote is passed.
fn text_at(alloc: Global, cursor: &mut Cursor<'_>) -> Option<Text> {
    let (bytes, is_plain) = cursor.quoted()?;
    if !cursor.passes(b"\"") {
        return None;
    }
    if is_plain {
        return Text::from_str(alloc, str::from_utf8(bytes).ok()?).ok();
    }
    Some(Text::from_string(text_of_quoted(alloc, bytes)?))
}
