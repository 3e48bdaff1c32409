//! The final rows of a class.

ghost use Rattle.std.specs.Prelude.{◌≡◌, ◌++◌, [], IfOk, OnOk, get_or};
ghost use Rattle.class_texts.specs.Beneath as spec;

use crate::kind::ClassKind;
use crate::rows::{put_rows, values_of};
use binding_model::Table;
use line_moments::TableRows;
use lock_modes::{Row, Text, Value};
use order_classes::{Rest, Shows};
use shown_texts::{put, put_shown};
use sqlite_items::Items;
use std::alloc::{AllocError, Global};

/// What stands beneath a class stands behind so many blanks.
#[tactic(auto, unfolding(crate::specs::Beneath::margin))]
pub(crate) fn margin() -> &'static str
    ensures { result.now ≡ spec.margin }
{
    "          "
}

/// A line that begins with the margin.
pub(crate) fn begun(alloc: Global) -> Result<Items<char>, AllocError>
    ensures { IfOk result (λ line. line ≡ spec.margin) }
{
    let mut line = Items::new(alloc);
    put(&mut line, margin())?;
    Ok(line)
}

/// The rows of the table at a place, or none where there is no such place.
pub fn rows_at(left: &[TableRows], table: usize) -> &[(Value, Row)]
    ensures { result.now ≡ get_or left.now table [] }
{
    match left.get(table) {
        Some(rows) => rows.as_slice(),
        None => &[],
    }
}

fn table_line(
    alloc: Global,
    margin: &str,
    table: &Table,
    rows: &[(Value, Row)],
) -> Result<Items<char>, AllocError>
    ensures { IfOk result (λ line. line ≡ spec.table_line margin.now table.now rows.now) }
{
    let values = values_of(alloc, rows)?;
    let mut line = Items::new(alloc);
    put(&mut line, margin)?;
    put_shown(&mut line, table.name.as_str())?;
    put(&mut line, ": ")?;
    put_rows(alloc, &mut line, values.as_slice())?;
    Ok(line)
}

/// Puts each table with its final rows, behind a margin, behind other lines.
pub(crate) fn put_tables(
    alloc: Global,
    lines: &mut Items<Items<char>>,
    margin: &str,
    tables: &[Table],
    left: &[TableRows],
) -> Result<(), AllocError>
    ensures { OnOk result (lines.new ≡ lines.old ++ spec.tables_from margin.now left.now 0 tables.now) }
{
    for table in 0..tables.len() {
        let line = table_line(alloc, margin, &tables[table], rows_at(left, table))?;
        lines.push(line)?;
    }
    Ok(())
}

/// How a session stands that has not ended, as `show` tells it.
fn rest_text(rest: Rest) -> &'static str
    ensures { result.now ≡ spec.rest_text rest }
{
    match rest {
        Rest::HasEnded => "",
        Rest::IsOpen => " is in a transaction",
        Rest::HasFailed => " is in a failed block",
        Rest::StillWaits => " waits",
    }
}

/// The name of a session, or none where there is no such session.
pub(crate) fn session_name(sessions: &[Text], session: usize) -> &str
    ensures { result.now ≡ get_or sessions.now session [] }
{
    match sessions.get(session) {
        Some(name) => name.as_str(),
        None => "",
    }
}

/// Puts how a session stands behind other lines, if there is something to say.
fn put_rest(
    alloc: Global,
    lines: &mut Items<Items<char>>,
    name: &str,
    text: &str,
) -> Result<(), AllocError>
    ensures { OnOk result (lines.new ≡ lines.old ++ spec.rest_lines name.now text.now) }
{
    if text.is_empty() {
        return Ok(());
    }
    let mut line = begun(alloc)?;
    put_shown(&mut line, name)?;
    put(&mut line, text)?;
    lines.push(line)
}

fn put_rests(
    alloc: Global,
    lines: &mut Items<Items<char>>,
    sessions: &[Text],
    rests: &[Rest],
) -> Result<(), AllocError>
    ensures { OnOk result (lines.new ≡ lines.old ++ spec.rests_from sessions.now 0 rests.now) }
{
    for session in 0..rests.len() {
        put_rest(
            alloc,
            lines,
            session_name(sessions, session),
            rest_text(rests[session]),
        )?;
    }
    Ok(())
}

/// Puts how sessions stand behind other lines, unless orders are grouped by their results.
fn put_rests_by(
    alloc: Global,
    lines: &mut Items<Items<char>>,
    by: ClassKind,
    sessions: &[Text],
    rests: &[Rest],
) -> Result<(), AllocError>
    ensures { OnOk result (lines.new ≡ lines.old ++ spec.rests_by by sessions.now rests.now) }
{
    match by {
        ClassKind::Shows => put_rests(alloc, lines, sessions, rests),
        ClassKind::Answers | ClassKind::Outcomes => Ok(()),
    }
}

/// Puts that there is nothing where there are no lines.
fn put_nothing(alloc: Global, lines: &mut Items<Items<char>>) -> Result<(), AllocError>
    ensures { OnOk result (lines.new ≡ spec.or_nothing lines.old) }
{
    if lines.is_empty() {
        let mut line = begun(alloc)?;
        put(&mut line, "nothing")?;
        lines.push(line)?;
    }
    Ok(())
}

/// The final rows where this is shown, and how sessions stand, in lines.
pub(crate) fn left_lines(
    alloc: Global,
    by: ClassKind,
    tables: &[Table],
    sessions: &[Text],
    shows: &Shows,
) -> Result<Items<Items<char>>, AllocError>
    ensures { IfOk result (λ lines. lines ≡ spec.left_lines by tables.now sessions.now shows.now) }
{
    let mut lines = Items::new(alloc);
    put_tables(alloc, &mut lines, margin(), tables, shows.left.as_slice())?;
    put_rests_by(alloc, &mut lines, by, sessions, shows.rests.as_slice())?;
    put_nothing(alloc, &mut lines)?;
    Ok(lines)
}
