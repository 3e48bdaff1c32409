//! What the orders of a class leave.

ghost use Rattle.std.specs.Prelude.{◌≡◌, ◌++◌, ◌∷◌, MatchOption, OnOk, ℕ, [] as none};
ghost use Rattle.class_values.specs.Class as spec;

use crate::label::Label;
use binding_model::Table;
use class_texts::{ClassKind, rows_at};
use line_moments::TableRows;
use lock_modes::{Row, Value};
use order_classes::{Rest, Shows};
use shown_values::{push, push_before, push_standing, push_table, push_word};
use std::alloc::AllocError;

/// Pushes each table and the rows that are left in it.
fn push_tables(tables: &[Table], left: &[TableRows], out: &mut Vec<u8>) -> Result<(), AllocError>
    ensures { OnOk result (out.new.items ≡ out.old.items ++ spec.tables_from left.now 0 tables.now) }
{
    for place in 0..tables.len() {
        push_table_at(place, &tables[place], rows_at(left, place), out)?;
    }
    Ok(())
}

fn push_table_at(
    place: usize,
    table: &Table,
    rows: &[(Value, Row)],
    out: &mut Vec<u8>,
) -> Result<(), AllocError>
    ensures { OnOk result (out.new.items ≡ out.old.items ++ spec.table_at place table.now rows.now) }
{
    push_before(",", place, out)?;
    push_table(&table.name, rows, out)
}

/// Pushes what is left, and by all that is shown how the sessions stand that have not ended. Books know nothing of either.
pub(crate) fn push_left_part(
    by: ClassKind,
    tables: &[Table],
    shows: &Shows,
    out: &mut Vec<u8>,
) -> Result<(), AllocError>
    ensures { OnOk result (out.new.items ≡ out.old.items ++ spec.left_part by tables.now shows.now) }
{
    match by {
        ClassKind::Shows => {
            push_left(Label::FinalRows.text(), tables, shows.left.as_slice(), out)?;
            push_open(Label::Open.text(), shows.rests.as_slice(), out)
        }
        ClassKind::Answers => push_left(
            Label::FinalRows.text(),
            tables,
            shows.left.as_slice(),
            out,
        ),
        ClassKind::Outcomes => Ok(()),
    }
}

/// Pushes a label, and behind it the tables with the rows that are left.
fn push_left(
    label: &str,
    tables: &[Table],
    left: &[TableRows],
    out: &mut Vec<u8>,
) -> Result<(), AllocError>
    ensures { OnOk result (out.new.items ≡ out.old.items ++ (label.now ++ spec.tables_json tables.now left.now)) }
{
    push_word(label, "[", out)?;
    push_tables(tables, left, out)?;
    push("]", out)
}

fn push_open(label: &str, rests: &[Rest], out: &mut Vec<u8>) -> Result<(), AllocError>
    ensures { OnOk result (out.new.items ≡ out.old.items ++ (label.now ++ spec.rests_json rests.now)) }
{
    push_word(label, "[", out)?;
    let mut place = 0;
    for (session, rest) in rests.iter().enumerate() {
        if let Some(word) = open_word(*rest) {
            push_before(",", place, out)?;
            push_standing(session, word, out)?;
            place += 1;
        }
    }
    push("]", out)
}

/// How a session stands that has not ended.
fn open_word(rest: Rest) -> Option<&'static str>
    ensures { MatchOption result ((session : ℕ) → spec.open_of session rest ≡ none)
        (λ word. (session : ℕ) → spec.open_of session rest ≡ (session, word.now) ∷ none) }
{
    match rest {
        Rest::HasEnded => None,
        Rest::IsOpen => Some("\"in\""),
        Rest::HasFailed => Some("\"failed\""),
        Rest::StillWaits => Some("\"waits\""),
    }
}
