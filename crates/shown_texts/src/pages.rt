//! The page that shows one order.

ghost use Rattle.std.specs.Prelude.{◌≡◌, ◌++◌, ◌∷◌, IfOk, OnOk, decimal, encode_utf8_all, flat_map, map, string_bytes};
ghost use Rattle.shown_texts.specs.Orders.{order_text};
ghost use Rattle.shown_texts.specs.Lanes.{cell, row_text};
ghost use Rattle.shown_texts.specs.Pages as spec;

use crate::breaking::{COLUMNS, plain_lines};
use crate::characters::{put, put_number, put_shown, put_size, trimmed_len};
use crate::ends::{left_lines, waiting_lines};
use crate::frame::{Frame, frame_of};
use crate::lane::{Cell, LaneRow};
use crate::lanes::{row_line, rows};
use crate::legend::{key_lines, legend};
use crate::levels::level_text;
use crate::names::shortened;
use crate::notes::{put_cells, width};
use crate::orders::put_order;
use crate::page::Page;
use sqlite_items::Items;
use std::alloc::{AllocError, Global};

/// The text that shows an order. It fails for want of memory alone.
pub fn show_text(alloc: Global, page: &Page<'_>) -> Result<String, AllocError>
    ensures { IfOk result (λ text. string_bytes text ≡ spec.page_bytes page.now) }
{
    let lines = all_lines(alloc, page)?;
    text_of(alloc, lines.as_slice())
}

fn all_lines(alloc: Global, page: &Page<'_>) -> Result<Items<Items<char>>, AllocError>
    ensures { IfOk result (λ lines. lines ≡ spec.all_lines page.now) }
{
    let frame = frame_of(alloc, page)?;
    lines_in(alloc, page, &frame)
}

fn lines_in(alloc: Global, page: &Page<'_>, frame: &Frame) -> Result<Items<Items<char>>, AllocError>
    ensures { IfOk result (λ lines. lines ≡ spec.lines_in page.now frame.now) }
{
    let rows = rows(alloc, frame, page.steps, page.shown)?;
    page_lines(alloc, page, frame, rows.as_slice())
}

/// The lines, each without the blanks at its end and with a line feed behind it.
fn text_of(alloc: Global, lines: &[Items<char>]) -> Result<String, AllocError>
    ensures { IfOk result (λ text. string_bytes text ≡ flat_map spec.line_bytes lines.now) }
{
    let mut text = String::new(alloc);
    push_lines(&mut text, lines)?;
    Ok(text)
}

/// Puts lines behind a text, each without the blanks at its end and with a line feed behind it. It fails for want of memory alone.
pub fn push_lines(text: &mut String, lines: &[Items<char>]) -> Result<(), AllocError>
    ensures { OnOk result (string_bytes text.new ≡ string_bytes text.old ++ flat_map spec.line_bytes lines.now) }
{
    for line in lines {
        push_line(text, line.as_slice())?;
    }
    Ok(())
}

/// Puts a line behind a text, without the blanks at its end and with a line feed behind it. It fails for want of memory alone.
pub fn push_line(text: &mut String, line: &[char]) -> Result<(), AllocError>
    ensures { OnOk result (string_bytes text.new ≡ string_bytes text.old ++ spec.line_bytes line.now) }
{
    push_characters(text, &line[..trimmed_len(line)])?;
    text.push_str("\n")
}

fn push_characters(text: &mut String, line: &[char]) -> Result<(), AllocError>
    ensures { OnOk result (string_bytes text.new ≡ string_bytes text.old ++ encode_utf8_all line.now) }
{
    for c in line {
        text.push(*c)?;
    }
    Ok(())
}

/// Puts how many columns there are behind a line, where they are more than wanted.
fn put_wide(line: &mut Items<char>, columns: usize) -> Result<(), AllocError>
    ensures { OnOk result (line.new ≡ line.old ++ spec.wide_text columns) }
{
    if columns > COLUMNS {
        return put_around(line, ", ", columns, " columns wide");
    }
    Ok(())
}

/// Puts a size between two words behind a line.
fn put_around(
    line: &mut Items<char>,
    before: &str,
    size: usize,
    behind: &str,
) -> Result<(), AllocError>
    ensures { OnOk result (line.new ≡ line.old ++ (before.now ++ (decimal size ++ behind.now))) }
{
    put(line, before)?;
    put_size(line, size)?;
    put(line, behind)
}

/// The names of the sessions above their lanes.
fn head_row(alloc: Global, frame: &Frame) -> Result<LaneRow, AllocError>
    ensures { IfOk result (λ row. row ≡ spec.head_row frame.now) }
{
    let cells = head_cells(alloc, frame)?;
    Ok(LaneRow {
        left: Items::new(alloc),
        cells,
    })
}

fn head_cells(alloc: Global, frame: &Frame) -> Result<Items<Cell>, AllocError>
    ensures { IfOk result (λ cells. cells ≡ map (cell 32) (spec.heads frame.now)) }
{
    let names = shortened(alloc, width(frame), frame.whole.as_slice())?;
    let mut cells = Items::new(alloc);
    put_cells(alloc, &mut cells, ' ', names.as_slice())?;
    Ok(cells)
}

fn head_line(alloc: Global, frame: &Frame) -> Result<Items<char>, AllocError>
    ensures { IfOk result (λ line. line ≡ row_text frame.now (spec.head_row frame.now)) }
{
    let row = head_row(alloc, frame)?;
    row_line(alloc, frame, &row)
}

/// The columns of the lanes with what stands at the left.
fn full_width(alloc: Global, frame: &Frame) -> Result<usize, AllocError>
    ensures { IfOk result (λ columns. columns ≡ spec.full_width frame.now) }
{
    let line = head_line(alloc, frame)?;
    Ok(line.len())
}

fn title(alloc: Global, frame: &Frame, page: &Page<'_>) -> Result<Items<char>, AllocError>
    ensures { IfOk result (λ line. line ≡ spec.title frame.now page.now) }
{
    let columns = full_width(alloc, frame)?;
    let mut line = Items::new(alloc);
    put_shown(&mut line, page.path)?;
    put_rank(&mut line, page.rank, page.orders)?;
    put_wide(&mut line, columns)?;
    Ok(line)
}

fn put_rank(line: &mut Items<char>, rank: u64, orders: u64) -> Result<(), AllocError>
    ensures { OnOk result (line.new ≡ line.old ++ spec.rank_text rank orders) }
{
    put(line, ": rank ")?;
    put_number(line, rank)?;
    put(line, " of ")?;
    put_number(line, orders)
}

/// The title and the order.
fn top_lines(
    alloc: Global,
    frame: &Frame,
    page: &Page<'_>,
) -> Result<Items<Items<char>>, AllocError>
    ensures { IfOk result (λ lines. lines ≡ spec.top_lines frame.now page.now) }
{
    let title = title(alloc, frame, page)?;
    let mut lines = plain_lines(alloc, title.as_slice())?;
    put_levels(alloc, &mut lines, page)?;
    put_order_lines(alloc, &mut lines, page)?;
    Ok(lines)
}

/// Puts what is said of levels behind other lines.
fn put_levels(
    alloc: Global,
    lines: &mut Items<Items<char>>,
    page: &Page<'_>,
) -> Result<(), AllocError>
    ensures { OnOk result (lines.new ≡ lines.old ++ spec.level_part page.now) }
{
    let texts = level_text(alloc, page.levels)?;
    put_plain(alloc, lines, texts.as_slice())
}

fn put_plain(
    alloc: Global,
    lines: &mut Items<Items<char>>,
    texts: &[Items<char>],
) -> Result<(), AllocError>
    ensures { OnOk result (lines.new ≡ lines.old ++ flat_map spec.plain_lines texts.now) }
{
    for text in texts {
        lines.append(plain_lines(alloc, text.as_slice())?)?;
    }
    Ok(())
}

fn put_order_lines(
    alloc: Global,
    lines: &mut Items<Items<char>>,
    page: &Page<'_>,
) -> Result<(), AllocError>
    ensures { OnOk result (lines.new ≡ lines.old ++ spec.plain_lines (order_text page.now.steps page.now.shown.moments)) }
{
    let mut order = Items::new(alloc);
    put_order(alloc, &mut order, page.steps, page.shown.moments.as_slice())?;
    lines.append(plain_lines(alloc, order.as_slice())?)
}

/// The lanes with the names of the sessions above them.
fn lane_lines(
    alloc: Global,
    frame: &Frame,
    rows: &[LaneRow],
) -> Result<Items<Items<char>>, AllocError>
    ensures { IfOk result (λ lines. lines ≡ map (row_text frame.now) (spec.head_row frame.now ∷ rows.now)) }
{
    let mut lines = Items::new(alloc);
    lines.push(head_line(alloc, frame)?)?;
    put_row_lines(alloc, &mut lines, frame, rows)?;
    Ok(lines)
}

fn put_row_lines(
    alloc: Global,
    lines: &mut Items<Items<char>>,
    frame: &Frame,
    rows: &[LaneRow],
) -> Result<(), AllocError>
    ensures { OnOk result (lines.new ≡ lines.old ++ map (row_text frame.now) rows.now) }
{
    for row in rows {
        lines.push(row_line(alloc, frame, row)?)?;
    }
    Ok(())
}

/// Puts a part behind other lines and an empty one, if there is something of it. It fails for want of memory alone.
pub fn put_part(
    alloc: Global,
    lines: &mut Items<Items<char>>,
    part: Items<Items<char>>,
) -> Result<(), AllocError>
    ensures { OnOk result (lines.new ≡ lines.old ++ spec.part part) }
{
    if part.len() == 0 {
        return Ok(());
    }
    lines.push(Items::new(alloc))?;
    lines.append(part)
}

/// Puts the lanes, and the sessions that wait behind them, behind other lines.
fn put_lanes(
    alloc: Global,
    lines: &mut Items<Items<char>>,
    page: &Page<'_>,
    frame: &Frame,
    rows: &[LaneRow],
) -> Result<(), AllocError>
    ensures { OnOk result (lines.new ≡ lines.old ++ spec.lanes_part page.now frame.now rows.now) }
{
    put_part(alloc, lines, lane_lines(alloc, frame, rows)?)?;
    put_part(
        alloc,
        lines,
        waiting_lines(alloc, frame, page.shown.standings.as_slice())?,
    )
}

/// Puts what is left, the key and the legend behind other lines.
fn put_rest(
    alloc: Global,
    lines: &mut Items<Items<char>>,
    page: &Page<'_>,
    frame: &Frame,
    rows: &[LaneRow],
) -> Result<(), AllocError>
    ensures { OnOk result (lines.new ≡ lines.old ++ spec.rest_part page.now frame.now rows.now) }
{
    put_part(alloc, lines, left_lines(alloc, frame, page.shown)?)?;
    put_part(alloc, lines, key_lines(alloc, rows)?)?;
    put_part(alloc, lines, legend(alloc, page)?)
}

fn page_lines(
    alloc: Global,
    page: &Page<'_>,
    frame: &Frame,
    rows: &[LaneRow],
) -> Result<Items<Items<char>>, AllocError>
    ensures { IfOk result (λ lines. lines ≡ spec.page_lines page.now frame.now rows.now) }
{
    let mut lines = top_lines(alloc, frame, page)?;
    put_lanes(alloc, &mut lines, page, frame, rows)?;
    put_rest(alloc, &mut lines, page, frame, rows)?;
    Ok(lines)
}
