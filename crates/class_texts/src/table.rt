//! The table of classes.

ghost use Rattle.std.specs.Prelude.{◌≡◌, ◌<◌, ◌++◌, IfOk, OnOk, flat_map, string_bytes};
ghost use Rattle.shown_texts.specs.Pages.{part};
ghost use Rattle.class_texts.specs.Legend.{legend_lines};
ghost use Rattle.class_texts.specs.Letters.{sign};
ghost use Rattle.class_texts.specs.Pages as spec;

use crate::beneath::push_beneath;
use crate::columns::put_right;
use crate::intervals::{interval_part, interval_word};
use crate::kind::ClassKind;
use crate::legend::legend_lines;
use crate::letters::{Letter, letters_of, letters_text};
use crate::orders::put_order;
use crate::page::Page;
use crate::shares::share_text;
use crate::totals::{line_of, number_line};
use crate::widths::{TableWidths, class_word, table_widths};
use itoa::Buffer;
use order_classes::ClassRow;
use shown_texts::{push_line, push_lines, put, put_blanks, put_line, put_part};
use sqlite_items::Items;
use std::alloc::{AllocError, Global};

/// Puts how many orders a class has, and their share of all, behind a line.
fn put_shares(
    line: &mut Items<char>,
    widths: TableWidths,
    orders: &[char],
    share: &[char],
    interval: &[char],
) -> Result<(), AllocError>
    ensures { OnOk result (line.new ≡ line.old ++ spec.share_cells widths orders.now share.now interval.now) }
{
    put_right(line, widths.orders, orders)?;
    put_right(line, widths.share, share)?;
    put_line(line, interval)
}

/// A line with what stands in front of an order.
fn cells(
    alloc: Global,
    widths: TableWidths,
    number: &str,
    orders: &[char],
    share: &[char],
    interval: &[char],
    letters: &str,
    rank: &str,
) -> Result<Items<char>, AllocError>
    ensures { IfOk result (λ line. line ≡ spec.cells widths number.now orders.now share.now interval.now letters.now rank.now) }
{
    let rank = line_of(alloc, rank)?;
    let mut line = Items::new(alloc);
    put_blanks(&mut line, widths.number.saturating_sub(number.len()))?;
    put(&mut line, number)?;
    put_shares(&mut line, widths, orders, share, interval)?;
    put(&mut line, "  ")?;
    put(&mut line, letters)?;
    put_right(&mut line, widths.rank, rank.as_slice())?;
    put(&mut line, " ")?;
    Ok(line)
}

/// The letters that have a place.
fn letter_signs(alloc: Global, letters: &[Letter]) -> Result<String, AllocError>
    ensures { IfOk result (λ text. string_bytes text ≡ flat_map sign letters.now) }
{
    let mut text = String::new(alloc);
    for letter in letters {
        text.push_str(letter.sign())?;
    }
    Ok(text)
}

fn head(
    alloc: Global,
    widths: TableWidths,
    is_sample: bool,
    by: ClassKind,
    all_orders: bool,
) -> Result<Items<char>, AllocError>
    ensures { IfOk result (λ line. line ≡ spec.table_head widths is_sample by all_orders) }
{
    let orders = line_of(alloc, "orders")?;
    let share = line_of(alloc, "share")?;
    let interval = interval_word(alloc, is_sample, "95% interval")?;
    let letters = letter_signs(alloc, letters_of(by, all_orders))?;
    let mut line = cells(
        alloc,
        widths,
        class_word(by),
        orders.as_slice(),
        share.as_slice(),
        interval.as_slice(),
        letters.as_str(),
        "rank",
    )?;
    put(&mut line, " first order")?;
    Ok(line)
}

/// What stands in front of the order of a class.
fn row_front(
    alloc: Global,
    widths: TableWidths,
    page: &Page<'_>,
    number: usize,
    row: &ClassRow,
) -> Result<Items<char>, AllocError>
    ensures { IfOk result (λ line. line ≡ spec.row_front widths page.now number row.now) }
{
    let orders = number_line(alloc, row.count)?;
    let share = share_text(alloc, page.totals.all.orders, row.count)?;
    let interval = interval_part(
        alloc,
        page.sample.is_some(),
        page.totals.all.orders,
        row.count,
    )?;
    let letters = letters_text(alloc, page.by, page.all_orders, row.letters)?;
    cells(
        alloc,
        widths,
        Buffer::new().format(number),
        orders.as_slice(),
        share.as_slice(),
        interval.as_slice(),
        letters.as_str(),
        Buffer::new().format(row.least),
    )
}

fn row_line(
    alloc: Global,
    widths: TableWidths,
    page: &Page<'_>,
    number: usize,
    row: &ClassRow,
) -> Result<Items<char>, AllocError>
    ensures { IfOk result (λ line. line ≡ spec.row_line widths page.now number row.now) }
{
    let mut line = row_front(alloc, widths, page, number, row)?;
    put_order(
        alloc,
        &mut line,
        page.steps,
        row.shows.told.sessions(),
        row.line.as_slice(),
    )?;
    Ok(line)
}

fn push_row(
    alloc: Global,
    text: &mut String,
    widths: TableWidths,
    page: &Page<'_>,
    place: usize,
    row: &ClassRow,
) -> Result<(), AllocError>
    requires { place < usize.MAX }
    ensures { OnOk result (string_bytes text.new ≡ string_bytes text.old ++ spec.row_bytes widths page.now place row.now) }
{
    let line = row_line(alloc, widths, page, place + 1, row)?;
    push_line(text, line.as_slice())?;
    push_beneath(alloc, text, page, place, row)
}

/// Puts the classes, numbered from 1, behind a text.
fn push_rows(
    alloc: Global,
    text: &mut String,
    widths: TableWidths,
    page: &Page<'_>,
    rows: &[ClassRow],
) -> Result<(), AllocError>
    ensures { OnOk result (string_bytes text.new ≡ string_bytes text.old ++ spec.rows_bytes widths page.now 0 rows.now) }
{
    for place in 0..rows.len() {
        push_row(alloc, text, widths, page, place, &rows[place])?;
    }
    Ok(())
}

/// Puts the names of the columns behind a text and an empty line.
fn push_head(
    alloc: Global,
    text: &mut String,
    widths: TableWidths,
    page: &Page<'_>,
) -> Result<(), AllocError>
    ensures { OnOk result (string_bytes text.new ≡ string_bytes text.old ++ spec.head_bytes widths page.now) }
{
    let line = head(
        alloc,
        widths,
        page.sample.is_some(),
        page.by,
        page.all_orders,
    )?;
    text.push_str("\n")?;
    push_line(text, line.as_slice())
}

/// Puts what marks mean behind a text and an empty line, if there are any.
fn push_legend(alloc: Global, text: &mut String, page: &Page<'_>) -> Result<(), AllocError>
    ensures { OnOk result (string_bytes text.new ≡ string_bytes text.old ++ spec.lines_bytes (part (legend_lines page.now.steps page.now.rows))) }
{
    let legend = legend_lines(alloc, page.steps, page.rows)?;
    let mut lines = Items::new(alloc);
    put_part(alloc, &mut lines, legend)?;
    push_lines(text, lines.as_slice())
}

/// Puts the table behind a text, if there is one.
pub(crate) fn push_table(
    alloc: Global,
    text: &mut String,
    page: &Page<'_>,
) -> Result<(), AllocError>
    ensures { OnOk result (string_bytes text.new ≡ string_bytes text.old ++ spec.table_part page.now) }
{
    if page.is_brief || page.rows.len() == 0 {
        return Ok(());
    }
    let widths = table_widths(alloc, page.by, page.totals.all.orders, page.rows)?;
    push_head(alloc, text, widths, page)?;
    push_rows(alloc, text, widths, page, page.rows)?;
    push_legend(alloc, text, page)
}
