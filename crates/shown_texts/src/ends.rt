//! How an order ends: who still waits, the rows that it leaves, and who has not ended.

ghost use Rattle.std.specs.Prelude.{◌≡◌, ◌++◌, ◌∷◌, [], IfOk, OnOk, flat_map};
ghost use Rattle.shown_texts.specs.Characters.{shown_text};
ghost use Rattle.shown_texts.specs.Pages as spec;
ghost use Rattle.shown_texts.specs.Words.{values_text};

use crate::breaking::{COLUMNS, broken, hanging_lines};
use crate::characters::{put, put_line, put_shown};
use crate::frame::{Frame, shown_name};
use crate::names::name_at;
use crate::told::push_values;
use crate::words::{put_reason, put_want};
use line_moments::{Left, Shown, Standing};
use lock_modes::{Row, Value};
use lock_queues::{Edge, Want};
use sqlite_items::Items;
use std::alloc::{AllocError, Global};

/// Puts reasons, each behind a comma, behind a line.
fn put_further_reasons(
    line: &mut Items<char>,
    names: &[Items<char>],
    edges: &[Edge],
) -> Result<(), AllocError>
    ensures { OnOk result (line.new ≡ line.old ++ flat_map (spec.further_reason names.now) edges.now) }
{
    for edge in edges {
        put(line, ", ")?;
        put_reason(line, names, *edge)?;
    }
    Ok(())
}

fn waiting_text(
    alloc: Global,
    frame: &Frame,
    name: &[char],
    want: &Want,
) -> Result<Items<char>, AllocError>
    ensures { IfOk result (λ line. line ≡ spec.waiting_text frame.now name.now want.now) }
{
    let mut line = Items::new(alloc);
    put_line(&mut line, name)?;
    put(&mut line, " still waits at the end: ")?;
    put_whole_want(alloc, &mut line, frame, want)?;
    Ok(line)
}

/// Puts what a session wants, and each reason why it has it not, behind a line.
fn put_whole_want(
    alloc: Global,
    line: &mut Items<char>,
    frame: &Frame,
    want: &Want,
) -> Result<(), AllocError>
    ensures { OnOk result (line.new ≡ line.old ++ spec.whole_want frame.now want.now) }
{
    put_want(alloc, line, frame.tables.as_slice(), want)?;
    put_further_reasons(line, frame.whole.as_slice(), want.edges.as_slice())
}

/// Puts what a session that waits wants behind other lines.
fn put_waiting_want(
    alloc: Global,
    lines: &mut Items<Items<char>>,
    frame: &Frame,
    name: &[char],
    want: &Want,
) -> Result<(), AllocError>
    ensures { OnOk result (lines.new ≡ lines.old ++ spec.hanging_lines (spec.waiting_text frame.now name.now want.now)) }
{
    let text = waiting_text(alloc, frame, name, want)?;
    lines.append(hanging_lines(alloc, text.as_slice())?)
}

/// Puts that a session waits, if it does, behind other lines.
fn put_waiting(
    alloc: Global,
    lines: &mut Items<Items<char>>,
    frame: &Frame,
    name: &[char],
    standing: &Standing,
) -> Result<(), AllocError>
    ensures { OnOk result (lines.new ≡ lines.old ++ spec.waiting_lines frame.now name.now standing.now) }
{
    match standing {
        Standing::HasEnded => Ok(()),
        Standing::IsOpen => Ok(()),
        Standing::HasFailed => Ok(()),
        Standing::StillWaits(want) => put_waiting_want(alloc, lines, frame, name, want),
    }
}

/// The sessions that wait at the end.
pub(crate) fn waiting_lines(
    alloc: Global,
    frame: &Frame,
    standings: &[Standing],
) -> Result<Items<Items<char>>, AllocError>
    ensures { IfOk result (λ lines. lines ≡ spec.waiting_from frame.now 0 standings.now) }
{
    let mut lines = Items::new(alloc);
    for session in 0..standings.len() {
        put_waiting(
            alloc,
            &mut lines,
            frame,
            name_at(frame.whole.as_slice(), session),
            &standings[session],
        )?;
    }
    Ok(lines)
}

/// Puts a row behind other lines.
fn put_values(
    alloc: Global,
    lines: &mut Items<Items<char>>,
    row: &(Value, Row),
) -> Result<(), AllocError>
    ensures { OnOk result (lines.new ≡ lines.old ++ spec.row_lines row.now) }
{
    let line = values_line(alloc, row.1.values())?;
    lines.append(broken(alloc, COLUMNS, 2, 4, line.as_slice())?)
}

/// The values of a row with a bar between each two, as they are shown. It fails for want of memory alone.
pub fn values_line(alloc: Global, values: &[Value]) -> Result<Items<char>, AllocError>
    ensures { IfOk result (λ line. line ≡ shown_text (values_text values.now)) }
{
    let mut text = String::new(alloc);
    push_values(&mut text, values)?;
    shown_name(alloc, text.as_str())
}

/// The rows of a table, or that there are none.
fn rows_lines(alloc: Global, rows: &[(Value, Row)]) -> Result<Items<Items<char>>, AllocError>
    ensures { IfOk result (λ lines. lines ≡ spec.or_nothing (flat_map spec.row_lines rows.now)) }
{
    let mut lines = Items::new(alloc);
    for row in rows {
        put_values(alloc, &mut lines, row)?;
    }
    put_nothing(alloc, &mut lines)?;
    Ok(lines)
}

/// Puts that there is nothing where there is no line.
fn put_nothing(alloc: Global, lines: &mut Items<Items<char>>) -> Result<(), AllocError>
    ensures { OnOk result (lines.new ≡ spec.or_nothing lines.old) }
{
    match lines.as_slice() {
        [] => put_word(alloc, lines, "  nothing"),
        [_, ..] => Ok(()),
    }
}

fn put_word(alloc: Global, lines: &mut Items<Items<char>>, word: &str) -> Result<(), AllocError>
    ensures { OnOk result (lines.new ≡ lines.old ++ word.now ∷ []) }
{
    let mut line = Items::new(alloc);
    put(&mut line, word)?;
    lines.push(line)
}

/// Puts a table by its name, and the rows that are left in it, behind other lines. It fails for want of memory alone.
fn put_left_in(
    alloc: Global,
    lines: &mut Items<Items<char>>,
    name: &str,
    rows: &[(Value, Row)],
) -> Result<(), AllocError>
    ensures { OnOk result (lines.new ≡ lines.old ++ spec.left_in name.now rows.now) }
{
    put_table_name(alloc, lines, name)?;
    lines.append(rows_lines(alloc, rows)?)
}

/// Puts a table and its committed rows behind other lines.
fn put_table(alloc: Global, lines: &mut Items<Items<char>>, left: &Left) -> Result<(), AllocError>
    ensures { OnOk result (lines.new ≡ lines.old ++ spec.table_lines left.now) }
{
    put_left_in(alloc, lines, left.table.name.as_str(), left.rows.as_slice())
}

fn put_table_name(
    alloc: Global,
    lines: &mut Items<Items<char>>,
    name: &str,
) -> Result<(), AllocError>
    ensures { OnOk result (lines.new ≡ lines.old ++ spec.table_head name.now) }
{
    let mut line = Items::new(alloc);
    put(&mut line, "left in ")?;
    put_shown(&mut line, name)?;
    lines.append(hanging_lines(alloc, line.as_slice())?)
}

fn put_tables(
    alloc: Global,
    lines: &mut Items<Items<char>>,
    left: &[Left],
) -> Result<(), AllocError>
    ensures { OnOk result (lines.new ≡ lines.old ++ flat_map spec.table_lines left.now) }
{
    for one in left {
        put_table(alloc, lines, one)?;
    }
    Ok(())
}

/// How a session stands that has not ended.
fn standing_text(standing: &Standing) -> &'static str
    ensures { result.now ≡ spec.standing_text standing.now }
{
    match standing {
        Standing::HasEnded => "",
        Standing::IsOpen => " is in a transaction",
        Standing::HasFailed => " is in a failed block",
        Standing::StillWaits(_) => " waits",
    }
}

/// Puts how a session stands behind other lines, if there is something to say. It fails for want of memory alone.
fn put_standing(
    alloc: Global,
    lines: &mut Items<Items<char>>,
    name: &[char],
    text: &str,
) -> Result<(), AllocError>
    ensures { OnOk result (lines.new ≡ lines.old ++ spec.standing_lines name.now text.now) }
{
    if text.is_empty() {
        return Ok(());
    }
    let mut line = Items::new(alloc);
    put_line(&mut line, name)?;
    put(&mut line, text)?;
    lines.append(hanging_lines(alloc, line.as_slice())?)
}

fn put_standings(
    alloc: Global,
    lines: &mut Items<Items<char>>,
    frame: &Frame,
    standings: &[Standing],
) -> Result<(), AllocError>
    ensures { OnOk result (lines.new ≡ lines.old ++ spec.standing_from frame.now 0 standings.now) }
{
    for session in 0..standings.len() {
        put_standing(
            alloc,
            lines,
            name_at(frame.whole.as_slice(), session),
            standing_text(&standings[session]),
        )?;
    }
    Ok(())
}

/// What the order leaves.
pub(crate) fn left_lines(
    alloc: Global,
    frame: &Frame,
    shown: &Shown,
) -> Result<Items<Items<char>>, AllocError>
    ensures { IfOk result (λ lines. lines ≡ spec.left_lines frame.now shown.now) }
{
    let mut lines = Items::new(alloc);
    put_tables(alloc, &mut lines, shown.left.as_slice())?;
    put_standings(alloc, &mut lines, frame, shown.standings.as_slice())?;
    Ok(lines)
}
