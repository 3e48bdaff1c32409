//! The JSON of classes.

ghost use Rattle.std.specs.Prelude.{◌≡◌, ◌++◌, IfOk, OnOk, Some};
ghost use Rattle.shown_values.specs.Strings.{array_json};
ghost use Rattle.class_values.specs.Page as spec;

use crate::expected::push_expectations;
use crate::label::Label;
use crate::rows::push_classes;
use crate::sheet::Sheet;
use crate::totals::push_totals;
use class_stretches::Missing;
use class_texts::{ClassKind, Looked, Page, seen_once};
use lock_modes::Text;
use order_classes::ClassRow;
use shown_values::{
    push, push_before, push_count, push_levels, push_line_numbers, push_names, push_steps,
    push_string, push_word,
};
use spec_levels::Levels;
use std::alloc::{AllocError, Global};

/// The JSON of classes: one object without spaces, and a line feed. It fails for want of memory alone.
pub fn classes_json(alloc: Global, sheet: &Sheet<'_>) -> Result<Vec<u8>, AllocError>
    ensures { IfOk result (λ text. text.items ≡ spec.classes_json sheet.now.page.now sheet.now.step_sessions.now sheet.now.statements.now) }
{
    let mut out = Vec::new(alloc);
    push_counts(sheet.page, &mut out)?;
    push_numbers(sheet.page, sheet.step_sessions, sheet.statements, &mut out)?;
    push_levels_of(sheet.page, &mut out)?;
    push_grouped(sheet.page, &mut out)?;
    push_classes(sheet.page, &mut out)?;
    push("}\n", &mut out)?;
    Ok(out)
}

/// Pushes of which spec the classes are, of how many orders, and which are missing.
fn push_counts(page: &Page<'_>, out: &mut Vec<u8>) -> Result<(), AllocError>
    ensures { OnOk result (out.new.items ≡ out.old.items ++ spec.counts_json page.now) }
{
    push_orders(page, out)?;
    push_sample(page.rows, page.sample, out)?;
    push_missing_by(page.by, page.missing, out)
}

/// Pushes by which seed the orders were drawn, where they are a sample, and how many classes were seen once.
fn push_sample(rows: &[ClassRow], sample: Option<u64>, out: &mut Vec<u8>) -> Result<(), AllocError>
    ensures { OnOk result (out.new.items ≡ out.old.items ++ spec.sample_json rows.now sample) }
{
    match sample {
        None => Ok(()),
        Some(seed) => push_seed(rows, seed, out),
    }
}

fn push_seed(rows: &[ClassRow], seed: u64, out: &mut Vec<u8>) -> Result<(), AllocError>
    ensures { OnOk result (out.new.items ≡ out.old.items ++ spec.sample_json rows.now (Some seed)) }
{
    push_count(",\"sample\":{\"seed\":", seed, out)?;
    push_count(",\"seen_once\":", seen_once(rows), out)?;
    push("}", out)
}

/// Pushes of which spec the classes are, and of how many orders.
fn push_orders(page: &Page<'_>, out: &mut Vec<u8>) -> Result<(), AllocError>
    ensures { OnOk result (out.new.items ≡ out.old.items ++ spec.orders_json page.now) }
{
    push_string("{\"format\":2,\"name\":", page.path.as_bytes(), out)?;
    push_count(",\"orders\":", page.orders, out)?;
    push_count(",\"asked\":", page.totals.all.orders, out)
}

/// Pushes which orders are missing, where books are told of.
fn push_missing_by(
    by: ClassKind,
    missing: Option<Missing>,
    out: &mut Vec<u8>,
) -> Result<(), AllocError>
    ensures { OnOk result (out.new.items ≡ out.old.items ++ spec.missing_by by missing) }
{
    match by {
        ClassKind::Shows | ClassKind::Answers => Ok(()),
        ClassKind::Outcomes => push_missing(",\"missing\":", missing, out),
    }
}

/// Pushes a label, and behind it how many orders are missing and the first of them, or null where none is.
fn push_missing(label: &str, missing: Option<Missing>, out: &mut Vec<u8>) -> Result<(), AllocError>
    ensures { OnOk result (out.new.items ≡ out.old.items ++ (label.now ++ spec.missing_json missing)) }
{
    match missing {
        None => push_word(label, "null", out),
        Some(missing) => push_some_missing(label, missing, out),
    }
}

fn push_some_missing(label: &str, missing: Missing, out: &mut Vec<u8>) -> Result<(), AllocError>
    ensures { OnOk result (out.new.items ≡ out.old.items ++ (label.now ++ spec.missing_json (Some missing))) }
{
    push(label, out)?;
    push_count("{\"orders\":", missing.ranks, out)?;
    push_count(",\"first\":", missing.first, out)?;
    push("}", out)
}

/// Pushes what the numbers of sessions and steps stand for.
fn push_numbers(
    page: &Page<'_>,
    step_sessions: &[u8],
    statements: &[Text],
    out: &mut Vec<u8>,
) -> Result<(), AllocError>
    ensures { OnOk result (out.new.items ≡ out.old.items ++ spec.numbers_json page.now step_sessions.now statements.now) }
{
    push_names(",\"sessions\":", page.sessions, out)?;
    push_steps(",\"steps\":", page.steps, step_sessions, statements, out)
}

/// Pushes under which level the spec stands.
fn push_levels_of(page: &Page<'_>, out: &mut Vec<u8>) -> Result<(), AllocError>
    ensures { OnOk result (out.new.items ≡ out.old.items ++ spec.levels_part page.now) }
{
    push_level_members(page.levels, out)
}

/// Pushes the level that is asked for, or the lines of the file with a level that has no effect.
fn push_level_members(levels: &Levels, out: &mut Vec<u8>) -> Result<(), AllocError>
    ensures { OnOk result (out.new.items
        ≡ out.old.items ++ spec.level_members levels.now.asked levels.now.other_lines.items) }
{
    push_levels(levels, out)?;
    push_idle(levels, out)
}

/// Pushes the lines of the file with a level that has no effect: none where a level is asked for.
fn push_idle(levels: &Levels, out: &mut Vec<u8>) -> Result<(), AllocError>
    ensures { OnOk result (out.new.items ≡ out.old.items ++ spec.idle_json levels.now.asked levels.now.other_lines.items) }
{
    match levels.asked {
        None => push_line_numbers(",\"level_lines\":", levels.other_lines.as_slice(), out),
        Some(_) => push(",\"level_lines\":[]", out),
    }
}

/// Pushes by what the orders are grouped, and what is told of all of them.
fn push_grouped(page: &Page<'_>, out: &mut Vec<u8>) -> Result<(), AllocError>
    ensures { OnOk result (out.new.items ≡ out.old.items ++ spec.grouped_json page.now) }
{
    push_word(",\"by\":", by_word(page.by), out)?;
    push_totals(",\"totals\":", page.by, page.all_orders, page.totals, out)?;
    push_asked(page, out)
}

/// Pushes what is expected, and what looks are at.
fn push_asked(page: &Page<'_>, out: &mut Vec<u8>) -> Result<(), AllocError>
    ensures { OnOk result (out.new.items ≡ out.old.items ++ spec.asked_json page.now) }
{
    push_expectations(
        Label::Expectations.text(),
        page.rows,
        page.expectations,
        out,
    )?;
    push_looks(Label::Queries.text(), page.looks, out)
}

/// By what the orders are grouped, as a JSON string.
fn by_word(by: ClassKind) -> &'static str
    ensures { result.now ≡ spec.by_json by }
{
    match by {
        ClassKind::Shows => "\"shows\"",
        ClassKind::Answers => "\"answers\"",
        ClassKind::Outcomes => "\"outcomes\"",
    }
}

/// Pushes a label and the SELECTs of looks behind it.
fn push_looks(label: &str, looks: &[Looked<'_>], out: &mut Vec<u8>) -> Result<(), AllocError>
    ensures { OnOk result (out.new.items ≡ out.old.items ++ (label.now ++ array_json spec.look_json looks.now)) }
{
    push_word(label, "[", out)?;
    for (place, look) in looks.iter().enumerate() {
        push_before(",", place, out)?;
        push_string("", look.text.as_bytes(), out)?;
    }
    push("]", out)
}
