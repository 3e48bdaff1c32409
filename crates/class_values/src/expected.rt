//! What is expected of orders, and of how many it is so.

ghost use Rattle.std.specs.Prelude.{◌≡◌, ◌++◌, OnOk, decimal};
ghost use Rattle.shown_values.specs.Strings.{array_json};
ghost use Rattle.class_texts.specs.Expected.{met_from};
ghost use Rattle.class_values.specs.Expected as spec;

use class_texts::{Expected, first_miss, met_of};
use itoa::Buffer;
use lock_modes::Value;
use order_classes::ClassRow;
use shown_values::{push, push_before, push_count, push_string, push_value, push_word};
use std::alloc::AllocError;

/// Pushes a label, and behind it what is expected of the orders of these classes.
pub(crate) fn push_expectations(
    label: &str,
    rows: &[ClassRow],
    expectations: &[Expected<'_>],
    out: &mut Vec<u8>,
) -> Result<(), AllocError>
    ensures { OnOk result (out.new.items ≡ out.old.items ++ (label.now ++ array_json (spec.expected_json rows.now) expectations.now)) }
{
    push_word(label, "[", out)?;
    for (place, expected) in expectations.iter().enumerate() {
        push_before(",", place, out)?;
        push_expected(rows, expected, out)?;
    }
    push("]", out)
}

fn push_expected(
    rows: &[ClassRow],
    expected: &Expected<'_>,
    out: &mut Vec<u8>,
) -> Result<(), AllocError>
    ensures { OnOk result (out.new.items ≡ out.old.items ++ spec.expected_json rows.now expected.now) }
{
    push_wanted(expected, out)?;
    push_so(rows, expected, out)
}

/// Pushes the SELECT as it was given, and the values of the row that it is to see.
fn push_wanted(expected: &Expected<'_>, out: &mut Vec<u8>) -> Result<(), AllocError>
    ensures { OnOk result (out.new.items ≡ out.old.items ++ spec.wanted_json expected.now) }
{
    push_string("{\"select\":", expected.text.as_bytes(), out)?;
    push_values(",\"values\":", expected.values, out)
}

/// Pushes of how many orders it is so, and the first of which it is not.
fn push_so(rows: &[ClassRow], expected: &Expected<'_>, out: &mut Vec<u8>) -> Result<(), AllocError>
    ensures { OnOk result (out.new.items ≡ out.old.items ++ spec.so_json rows.now expected.now) }
{
    push_met(",\"holds_in\":", rows, expected, out)?;
    push_first(",\"first\":", rows, expected, out)?;
    push("}", out)
}

/// Pushes a label and values behind it.
fn push_values(label: &str, values: &[Value], out: &mut Vec<u8>) -> Result<(), AllocError>
    ensures { OnOk result (out.new.items ≡ out.old.items ++ (label.now ++ array_json spec.value_json values.now)) }
{
    push_word(label, "[", out)?;
    for (place, value) in values.iter().enumerate() {
        push_before(",", place, out)?;
        push_value_string(value, out)?;
    }
    push("]", out)
}

fn push_value_string(value: &Value, out: &mut Vec<u8>) -> Result<(), AllocError>
    ensures { OnOk result (out.new.items ≡ out.old.items ++ spec.value_json value.now) }
{
    let mut text = Vec::new(*out.allocator());
    push_value(value, &mut text)?;
    push_string("", text.as_slice(), out)
}

/// Pushes a label, and behind it of how many orders it is so.
fn push_met(
    label: &str,
    rows: &[ClassRow],
    expected: &Expected<'_>,
    out: &mut Vec<u8>,
) -> Result<(), AllocError>
    ensures { OnOk result (out.new.items ≡ out.old.items ++ (label.now ++ decimal (met_from expected.now 0 rows.now))) }
{
    push_word(label, Buffer::new().format(met_of(expected, rows)), out)
}

/// Pushes a label and the least rank behind it of which it is not so, or null where there is none.
fn push_first(
    label: &str,
    rows: &[ClassRow],
    expected: &Expected<'_>,
    out: &mut Vec<u8>,
) -> Result<(), AllocError>
    ensures { OnOk result (out.new.items ≡ out.old.items ++ (label.now ++ spec.first_json expected.now rows.now)) }
{
    match first_miss(expected, rows) {
        None => push_word(label, "null", out),
        Some((row, _)) => push_count(label, row.least, out),
    }
}
