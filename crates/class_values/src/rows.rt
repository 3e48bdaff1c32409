//! The JSON of each class.

ghost use Rattle.std.specs.Prelude.{◌≡◌, ◌++◌, OnOk};
ghost use Rattle.shown_values.specs.Strings.{array_json};
ghost use Rattle.class_values.specs.Class as spec;

use crate::label::Label;
use crate::left::push_left_part;
use class_stretches::RankRun;
use class_texts::{ClassKind, Looked, Page, letters_text, runs_at, seen_at};
use events::Transcript;
use lock_modes::Text;
use order_classes::{ClassRow, Letters, Shows};
use shown_values::{
    push, push_before, push_count, push_indices, push_lines, push_string, push_word,
};
use std::alloc::AllocError;

/// Pushes the classes, unless the totals are told alone.
pub(crate) fn push_classes(page: &Page<'_>, out: &mut Vec<u8>) -> Result<(), AllocError>
    ensures { OnOk result (out.new.items ≡ out.old.items ++ spec.classes_part page.now) }
{
    if page.is_brief {
        return Ok(());
    }
    push_all(page, out)
}

/// Pushes the classes.
fn push_all(page: &Page<'_>, out: &mut Vec<u8>) -> Result<(), AllocError>
    ensures { OnOk result (out.new.items ≡ out.old.items ++ spec.all_json page.now) }
{
    push(",\"classes\":[", out)?;
    push_rows(page, page.rows, out)?;
    push("]", out)
}

fn push_rows(page: &Page<'_>, rows: &[ClassRow], out: &mut Vec<u8>) -> Result<(), AllocError>
    ensures { OnOk result (out.new.items ≡ out.old.items ++ spec.classes_from page.now 0 rows.now) }
{
    for place in 0..rows.len() {
        push_row(page, place, &rows[place], out)?;
    }
    Ok(())
}

/// Pushes the class at a place.
fn push_row(
    page: &Page<'_>,
    place: usize,
    row: &ClassRow,
    out: &mut Vec<u8>,
) -> Result<(), AllocError>
    ensures { OnOk result (out.new.items ≡ out.old.items ++ spec.class_at page.now place row.now) }
{
    push_before(",", place, out)?;
    push_class(page, place, row, out)
}

fn push_class(
    page: &Page<'_>,
    place: usize,
    row: &ClassRow,
    out: &mut Vec<u8>,
) -> Result<(), AllocError>
    ensures { OnOk result (out.new.items ≡ out.old.items ++ spec.class_json page.now place row.now) }
{
    push_head(page, row, out)?;
    push_shows(page, &row.shows, out)?;
    push_seen(Label::QueryRows.text(), page.steps, place, page.looks, out)?;
    push_ranks_part(page, place, out)?;
    push("}", out)
}

/// Pushes which orders a class has, what they show, and the least one.
fn push_head(page: &Page<'_>, row: &ClassRow, out: &mut Vec<u8>) -> Result<(), AllocError>
    ensures { OnOk result (out.new.items ≡ out.old.items ++ spec.head_json page.now row.now) }
{
    push_count(Label::FirstRank.text(), row.least, out)?;
    push_count(Label::ClassOrders.text(), row.count, out)?;
    push_letters(
        Label::Letters.text(),
        page.by,
        page.all_orders,
        row.letters,
        out,
    )?;
    push_indices(Label::Order.text(), row.line.as_slice(), out)
}

/// Pushes a label and the letters that are told behind it, as a JSON string.
fn push_letters(
    label: &str,
    by: ClassKind,
    all_orders: bool,
    letters: Letters,
    out: &mut Vec<u8>,
) -> Result<(), AllocError>
    ensures { OnOk result (out.new.items ≡ out.old.items ++ (label.now ++ spec.letters_json by all_orders letters)) }
{
    let text = letters_text(*out.allocator(), by, all_orders, letters)?;
    push_string(label, text.as_str().as_bytes(), out)
}

/// Pushes what is told, and what is left.
fn push_shows(page: &Page<'_>, shows: &Shows, out: &mut Vec<u8>) -> Result<(), AllocError>
    ensures { OnOk result (out.new.items ≡ out.old.items ++ spec.shows_json page.now shows.now) }
{
    push_told(
        Label::Transcripts.text(),
        page.steps,
        shows.told.sessions(),
        out,
    )?;
    push_left_part(page.by, page.tables, shows, out)
}

/// Pushes a label, and behind it what each session is told.
fn push_told(
    label: &str,
    steps: &[Text],
    told: &[Transcript],
    out: &mut Vec<u8>,
) -> Result<(), AllocError>
    ensures { OnOk result (out.new.items ≡ out.old.items ++ (label.now ++ array_json (spec.lines_json steps.now) told.now)) }
{
    push_word(label, "[", out)?;
    for (place, transcript) in told.iter().enumerate() {
        push_before(",", place, out)?;
        push_lines("", steps, transcript.events(), out)?;
    }
    push("]", out)
}

/// Pushes a label, and behind it what each look sees of the class at a place.
fn push_seen(
    label: &str,
    steps: &[Text],
    class: usize,
    looks: &[Looked<'_>],
    out: &mut Vec<u8>,
) -> Result<(), AllocError>
    ensures { OnOk result (out.new.items ≡ out.old.items ++ (label.now ++ array_json (spec.seen_json steps.now class) looks.now)) }
{
    push_word(label, "[", out)?;
    for (place, look) in looks.iter().enumerate() {
        push_before(",", place, out)?;
        push_lines("", steps, seen_at(&look.seen, class), out)?;
    }
    push("]", out)
}

/// Pushes the ranks of the class at a place, where they are asked for.
fn push_ranks_part(page: &Page<'_>, place: usize, out: &mut Vec<u8>) -> Result<(), AllocError>
    ensures { OnOk result (out.new.items ≡ out.old.items ++ spec.ranks_part page.now place) }
{
    if page.with_ranks {
        return push_ranks(",\"ranks\":", runs_at(page.ranks, place), out);
    }
    Ok(())
}

fn push_ranks(label: &str, runs: &[RankRun], out: &mut Vec<u8>) -> Result<(), AllocError>
    ensures { OnOk result (out.new.items ≡ out.old.items ++ (label.now ++ array_json spec.range_json runs.now)) }
{
    push_word(label, "[", out)?;
    for (place, run) in runs.iter().enumerate() {
        push_before(",", place, out)?;
        push_range(*run, out)?;
    }
    push("]", out)
}

/// Pushes the first rank of a range and its last one.
fn push_range(run: RankRun, out: &mut Vec<u8>) -> Result<(), AllocError>
    ensures { OnOk result (out.new.items ≡ out.old.items ++ spec.range_json run) }
{
    push_count("[", run.first, out)?;
    push_count(",", run.end.saturating_sub(1), out)?;
    push("]", out)
}
