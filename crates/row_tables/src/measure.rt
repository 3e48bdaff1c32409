//! A number that is made of a row, and how much memory one takes.

use lock_modes::{Row, Value};
use std::hash::{FoldHasher, Hasher};

/// So many bytes are taken by a row beside its values, with what its allocations take.
const ROW_BYTES: usize = 80;

/// So many by each of its values.
const VALUE_BYTES: usize = 32;

/// So many by a text beside its bytes.
const TEXT_BYTES: usize = 16;

/// Writes the values of a row to a hasher, so that the same rows make the same number, and others seldom do.
pub fn print_row(hasher: &mut FoldHasher, row: &Row) {
    for value in row.values() {
        print_value(hasher, value);
    }
}

fn print_value(hasher: &mut FoldHasher, value: &Value) {
    match value {
        Value::Int(number) => hasher.write_i64(*number),
        Value::Text(text) => hasher.write(text.as_str().as_bytes()),
    }
}

/// About how many bytes a row takes.
pub fn row_bytes(row: &Row) -> usize {
    let mut bytes = ROW_BYTES;
    for value in row.values() {
        bytes = bytes.saturating_add(value_bytes(value));
    }
    bytes
}

/// About how many bytes a value takes, with its text, since each row has texts of its own.
fn value_bytes(value: &Value) -> usize {
    match value {
        Value::Int(_) => VALUE_BYTES,
        Value::Text(text) => text.as_str().len().saturating_add(VALUE_BYTES + TEXT_BYTES),
    }
}
