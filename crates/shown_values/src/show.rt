//! The JSON of what is shown of an order.

ghost use Rattle.std.specs.Prelude.{◌≡◌, ◌++◌, ◌∷◌, IfOk, MatchOption, OnOk, ℕ, codes, decimal, zip, [] as none};
ghost use Rattle.shown_values.specs.Strings.{array_json, string_json};
ghost use Rattle.shown_values.specs.Moments.{lock_json};
ghost use Rattle.shown_values.specs.Page as spec;

use crate::levels::push_levels;
use crate::moments::{push_lock, push_moments};
use crate::page::Page;
use crate::strings::{
    push, push_before, push_count, push_index, push_name, push_string, push_word,
};
use crate::texts::push_tuple;
use crate::words::push_status;
use line_moments::{Begun, Left, Shown, Standing};
use lock_modes::{Mode, Resource, Row, Text, Value};
use sqlite_items::Items;
use std::alloc::{AllocError, Global};

/// The JSON of an order: one object without spaces, and a line feed. It fails for want of memory alone.
pub fn show_json(alloc: Global, page: &Page<'_>) -> Result<Vec<u8>, AllocError>
    ensures { IfOk result (λ text. text.items ≡ spec.page_json (spec.sheet_of page.now)) }
{
    let mut out = Vec::new(alloc);
    push_order(page, &mut out)?;
    push_levels(page.levels, &mut out)?;
    push_numbers(page, &mut out)?;
    push_shown(page.step_names, page.shown, &mut out)?;
    push("}\n", &mut out)?;
    Ok(out)
}

/// Pushes what the order is.
fn push_order(page: &Page<'_>, out: &mut Vec<u8>) -> Result<(), AllocError>
    ensures { OnOk result (out.new.items ≡ out.old.items ++ spec.order_json (spec.sheet_of page.now)) }
{
    push_string("{\"format\":1,\"name\":", page.name.as_bytes(), out)?;
    push_count(",\"rank\":", page.rank, out)?;
    push_count(",\"orders\":", page.orders, out)
}

/// Pushes what its numbers stand for.
fn push_numbers(page: &Page<'_>, out: &mut Vec<u8>) -> Result<(), AllocError>
    ensures { OnOk result (out.new.items ≡ out.old.items ++ spec.numbers_json (spec.sheet_of page.now)) }
{
    push_names(",\"sessions\":", page.session_names, out)?;
    push_steps(
        ",\"steps\":",
        page.step_names,
        page.step_sessions,
        page.statements,
        out,
    )?;
    push_indices(",\"order\":", page.line, out)
}

/// Pushes a label and names behind it.
pub fn push_names(label: &str, names: &[Text], out: &mut Vec<u8>) -> Result<(), AllocError>
    ensures { OnOk result (out.new.items ≡ out.old.items ++ (label.now ++ array_json string_json names.now)) }
{
    push_word(label, "[", out)?;
    for (place, name) in names.iter().enumerate() {
        push_before(",", place, out)?;
        push_name("", name, out)?;
    }
    push("]", out)
}

/// Pushes a label, and steps behind it by their names, their sessions and their statements.
pub fn push_steps(
    label: &str,
    names: &[Text],
    sessions: &[u8],
    statements: &[Text],
    out: &mut Vec<u8>,
) -> Result<(), AllocError>
    ensures { OnOk result (out.new.items
        ≡ out.old.items ++ (label.now ++ array_json spec.step_json (zip names.now (zip sessions.now statements.now)))) }
{
    push_word(label, "[", out)?;
    for place in 0..names.len().min(sessions.len().min(statements.len())) {
        push_before(",", place, out)?;
        push_step(&names[place], sessions[place], &statements[place], out)?;
    }
    push("]", out)
}

fn push_step(
    name: &Text,
    session: u8,
    statements: &Text,
    out: &mut Vec<u8>,
) -> Result<(), AllocError>
    ensures { OnOk result (out.new.items ≡ out.old.items ++ spec.step_json (name.now, (session, statements.now))) }
{
    push_name("{\"name\":", name, out)?;
    push_index(",\"session\":", session, out)?;
    push_name(",\"sql\":", statements, out)?;
    push("}", out)
}

/// Pushes a label and the numbers of sessions or steps behind it.
pub fn push_indices(label: &str, indices: &[u8], out: &mut Vec<u8>) -> Result<(), AllocError>
    ensures { OnOk result (out.new.items ≡ out.old.items ++ (label.now ++ array_json decimal indices.now)) }
{
    push_word(label, "[", out)?;
    for (place, index) in indices.iter().enumerate() {
        push_before(",", place, out)?;
        push_index("", *index, out)?;
    }
    push("]", out)
}

/// Pushes what is shown of the order, with the names of the steps.
fn push_shown(steps: &[Text], shown: &Shown, out: &mut Vec<u8>) -> Result<(), AllocError>
    ensures { OnOk result (out.new.items ≡ out.old.items ++ spec.shown_json steps.now shown.now) }
{
    push_begins(",\"begun\":", &shown.first, &shown.begun, out)?;
    push_tables(",\"first\":", &shown.first, out)?;
    push_moments(",\"moments\":", &shown.first, steps, &shown.moments, out)?;
    push_tables(",\"left\":", &shown.left, out)?;
    push_open(",\"open\":", &shown.standings, out)
}

fn push_begins(
    label: &str,
    tables: &Items<Left>,
    begins: &Items<Begun>,
    out: &mut Vec<u8>,
) -> Result<(), AllocError>
    ensures { OnOk result (out.new.items ≡ out.old.items ++ (label.now ++ array_json (spec.begun_json tables.now) begins.now)) }
{
    push_word(label, "[", out)?;
    for (place, begun) in begins.as_slice().iter().enumerate() {
        push_before(",", place, out)?;
        push_begun(tables, begun, out)?;
    }
    push("]", out)
}

fn push_begun(tables: &Items<Left>, begun: &Begun, out: &mut Vec<u8>) -> Result<(), AllocError>
    ensures { OnOk result (out.new.items ≡ out.old.items ++ spec.begun_json tables.now begun.now) }
{
    push_status("{\"status\":", begun.status, out)?;
    push_locks(",\"locks\":", tables, &begun.locks, out)?;
    push("}", out)
}

fn push_locks(
    label: &str,
    tables: &Items<Left>,
    locks: &Items<(Resource, Mode)>,
    out: &mut Vec<u8>,
) -> Result<(), AllocError>
    ensures { OnOk result (out.new.items ≡ out.old.items ++ (label.now ++ array_json (lock_json tables.now) locks.now)) }
{
    push_word(label, "[", out)?;
    for (place, lock) in locks.as_slice().iter().enumerate() {
        push_before(",", place, out)?;
        push_lock(tables, &lock.0, lock.1, out)?;
    }
    push("]", out)
}

fn push_tables(label: &str, tables: &Items<Left>, out: &mut Vec<u8>) -> Result<(), AllocError>
    ensures { OnOk result (out.new.items ≡ out.old.items ++ (label.now ++ array_json spec.left_json tables.now)) }
{
    push_word(label, "[", out)?;
    for (place, left) in tables.as_slice().iter().enumerate() {
        push_before(",", place, out)?;
        push_left(left, out)?;
    }
    push("]", out)
}

fn push_left(left: &Left, out: &mut Vec<u8>) -> Result<(), AllocError>
    ensures { OnOk result (out.new.items ≡ out.old.items ++ spec.left_json left.now) }
{
    push_table(&left.table.name, left.rows.as_slice(), out)
}

/// Pushes a table by its name and its rows.
pub fn push_table(
    name: &Text,
    entries: &[(Value, Row)],
    out: &mut Vec<u8>,
) -> Result<(), AllocError>
    ensures { OnOk result (out.new.items ≡ out.old.items ++ spec.table_json name.now entries.now) }
{
    push_name("{\"table\":", name, out)?;
    push_entries(",\"rows\":", entries, out)?;
    push("}", out)
}

fn push_entries(label: &str, entries: &[(Value, Row)], out: &mut Vec<u8>) -> Result<(), AllocError>
    ensures { OnOk result (out.new.items ≡ out.old.items ++ (label.now ++ array_json spec.entry_json entries.now)) }
{
    push_word(label, "[", out)?;
    for (place, entry) in entries.iter().enumerate() {
        push_before(",", place, out)?;
        push_tuple(&entry.1, out)?;
    }
    push("]", out)
}

/// Pushes a label and how the sessions stand that have not ended.
fn push_open(label: &str, standings: &Items<Standing>, out: &mut Vec<u8>) -> Result<(), AllocError>
    ensures { OnOk result (out.new.items ≡ out.old.items ++ (label.now ++ array_json spec.open_json (spec.open_from 0 standings.now))) }
{
    push_word(label, "[", out)?;
    let mut place = 0;
    for (session, standing) in standings.as_slice().iter().enumerate() {
        if let Some(word) = open_word(standing) {
            push_before(",", place, out)?;
            push_standing(session, word, out)?;
            place += 1;
        }
    }
    push("]", out)
}

/// Pushes the number of a session, and the word for how it stands.
pub fn push_standing(session: usize, word: &str, out: &mut Vec<u8>) -> Result<(), AllocError>
    ensures { OnOk result (out.new.items ≡ out.old.items ++ spec.open_json (session, word.now)) }
{
    push_count("[", session as u64, out)?;
    push_word(",", word, out)?;
    push("]", out)
}

/// How a session stands that has not ended.
fn open_word(standing: &Standing) -> Option<&'static str>
    ensures { MatchOption result ((session : ℕ) → spec.open_of session standing.now ≡ none)
        (λ word. (session : ℕ) → spec.open_of session standing.now ≡ (session, word.now) ∷ none) }
{
    match standing {
        Standing::HasEnded => None,
        Standing::IsOpen => Some("\"in\""),
        Standing::HasFailed => Some("\"failed\""),
        Standing::StillWaits(_) => Some("\"waits\""),
    }
}
