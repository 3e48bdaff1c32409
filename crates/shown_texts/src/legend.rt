//! What the rails mean, and the statements of the steps.

ghost use Rattle.std.specs.Prelude.{◌≡◌, ◌++◌, [], IfOk, OnOk, get_or};
ghost use Rattle.shown_texts.specs.Pages as spec;

use crate::breaking::COLUMNS;
use crate::characters::{put, put_padded, put_shown};
use crate::frame::shown_shortened;
use crate::lane::{Cell, LaneRow};
use crate::names::put_cut;
use crate::orders::{comes_in, widest};
use crate::page::Page;
use line_moments::Moment;
use lock_modes::Text;
use sqlite_items::Items;
use std::alloc::{AllocError, Global};

fn is_beside(rail: char, cell: &Cell) -> bool
    ensures { result ≡ spec.is_beside rail cell.now }
{
    cell.rail == rail
}

/// Whether the rail stands in a row.
fn has_rail(rail: char, row: &LaneRow) -> bool
    ensures { result ≡ spec.has_rail rail row.now }
{
    row.cells
        .as_slice()
        .iter()
        .any(|cell| is_beside(rail, cell))
}

/// Whether the rail stands in one of the rows.
fn stands(rail: char, rows: &[LaneRow]) -> bool
    ensures { result ≡ spec.stands rail rows.now }
{
    rows.iter().any(|row| has_rail(rail, row))
}

/// Puts what a rail means behind a line, if it stands in the lanes.
fn put_meaning(
    line: &mut Items<char>,
    rail: char,
    meaning: &str,
    rows: &[LaneRow],
) -> Result<(), AllocError>
    ensures { OnOk result (line.new ≡ line.old ++ spec.meaning_if rail meaning.now rows.now) }
{
    if stands(rail, rows) {
        return put(line, meaning);
    }
    Ok(())
}

fn key_text(alloc: Global, rows: &[LaneRow]) -> Result<Items<char>, AllocError>
    ensures { IfOk result (λ line. line ≡ spec.key_text rows.now) }
{
    let mut line = Items::new(alloc);
    put_meaning(&mut line, '|', "| in a transaction   ", rows)?;
    put_meaning(&mut line, ':', ": waits   ", rows)?;
    put_meaning(&mut line, '!', "! failed, up to the end of its block", rows)?;
    Ok(line)
}

/// What the rails mean that stand in the lanes.
pub(crate) fn key_lines(alloc: Global, rows: &[LaneRow]) -> Result<Items<Items<char>>, AllocError>
    ensures { IfOk result (λ lines. lines ≡ spec.key_lines (spec.key_text rows.now)) }
{
    let line = key_text(alloc, rows)?;
    let mut lines = Items::new(alloc);
    put_some(&mut lines, line)?;
    Ok(lines)
}

/// Puts a line behind others, if there is something on it.
fn put_some(lines: &mut Items<Items<char>>, line: Items<char>) -> Result<(), AllocError>
    ensures { OnOk result (lines.new ≡ lines.old ++ spec.key_lines line) }
{
    if line.len() == 0 {
        return Ok(());
    }
    lines.push(line)
}

/// The statements of a step, or none where there is no such step.
fn statements_at(statements: &[Text], step: usize) -> &str
    ensures { result.now ≡ get_or statements.now step [] }
{
    match statements.get(step) {
        Some(text) => text.as_str(),
        None => "",
    }
}

/// A step and its statements.
fn legend_line(
    alloc: Global,
    most: usize,
    name: &[char],
    statements: &str,
) -> Result<Items<char>, AllocError>
    ensures { IfOk result (λ line. line ≡ spec.legend_line most name.now statements.now) }
{
    let mut whole = Items::new(alloc);
    put_padded(&mut whole, most, name)?;
    put(&mut whole, "  ")?;
    put_shown(&mut whole, statements)?;
    let mut line = Items::new(alloc);
    put_cut(&mut line, COLUMNS, whole.as_slice())?;
    Ok(line)
}

/// Puts a step and its statements behind other lines, if it comes in the order.
fn put_legend_item(
    alloc: Global,
    lines: &mut Items<Items<char>>,
    most: usize,
    name: &[char],
    statements: &str,
    comes: bool,
) -> Result<(), AllocError>
    ensures { OnOk result (lines.new ≡ lines.old ++ spec.legend_item most name.now statements.now comes) }
{
    if !comes {
        return Ok(());
    }
    lines.push(legend_line(alloc, most, name, statements)?)
}

/// The steps of the order, under these names.
fn legend_by(
    alloc: Global,
    page: &Page<'_>,
    names: &[Items<char>],
) -> Result<Items<Items<char>>, AllocError>
    ensures { IfOk result (λ lines. lines ≡ spec.legend_by page.now names.now) }
{
    let moments = page.shown.moments.as_slice();
    legend_of(
        alloc,
        page.statements,
        moments,
        widest(moments, names),
        names,
    )
}

fn legend_of(
    alloc: Global,
    statements: &[Text],
    moments: &[Moment],
    most: usize,
    names: &[Items<char>],
) -> Result<Items<Items<char>>, AllocError>
    ensures { IfOk result (λ lines. lines ≡ spec.legend_from statements.now moments.now most 0 names.now) }
{
    let mut lines = Items::new(alloc);
    for step in 0..names.len() {
        put_legend_item(
            alloc,
            &mut lines,
            most,
            names[step].as_slice(),
            statements_at(statements, step),
            comes_in(moments, step),
        )?;
    }
    Ok(lines)
}

/// The steps of the order, each with its statements.
pub(crate) fn legend(alloc: Global, page: &Page<'_>) -> Result<Items<Items<char>>, AllocError>
    ensures { IfOk result (λ lines. lines ≡ spec.legend page.now) }
{
    let names = shown_shortened(alloc, 24, page.steps)?;
    legend_by(alloc, page, names.as_slice())
}
