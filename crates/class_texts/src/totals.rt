//! How many orders and classes show what.

ghost use Rattle.std.specs.Prelude.{◌≡◌, ◌++◌, IfOk, None, OnOk, Some, map};
ghost use Rattle.shown_texts.specs.Pages.{part};
ghost use Rattle.class_texts.specs.Counted.{number_text};
ghost use Rattle.class_texts.specs.Pages as spec;

use crate::columns::put_right;
use crate::counted::put_number_text;
use crate::expected::expectations_lines;
use crate::head::head_lines;
use crate::intervals::{interval_part, interval_word};
use crate::kind::ClassKind;
use crate::letters::{Letter, letters_of};
use crate::page::Page;
use crate::shares::share_text;
use crate::widths::{TotalWidths, classes_word, total_widths};
use order_classes::{Total, Totals};
use shown_texts::{put, put_line, put_part};
use sqlite_items::Items;
use std::alloc::{AllocError, Global};

/// A text of ASCII as a line.
pub(crate) fn line_of(alloc: Global, text: &str) -> Result<Items<char>, AllocError>
    ensures { IfOk result (λ line. line ≡ text.now) }
{
    let mut line = Items::new(alloc);
    put(&mut line, text)?;
    Ok(line)
}

/// A number as a line.
pub(crate) fn number_line(alloc: Global, number: u64) -> Result<Items<char>, AllocError>
    ensures { IfOk result (λ line. line ≡ number_text number) }
{
    let mut line = Items::new(alloc);
    put_number_text(&mut line, number)?;
    Ok(line)
}

/// Puts what stands in the columns of the totals behind a line.
fn put_cells(
    line: &mut Items<char>,
    widths: TotalWidths,
    orders: &[char],
    share: &[char],
    interval: &[char],
    classes: &[char],
) -> Result<(), AllocError>
    ensures { OnOk result (line.new ≡ line.old ++ spec.total_cells widths orders.now share.now interval.now classes.now) }
{
    put_right(line, widths.orders, orders)?;
    put_right(line, widths.share, share)?;
    put_line(line, interval)?;
    put_right(line, widths.classes, classes)
}

/// Puts the names of the columns behind a line.
pub(crate) fn put_head(
    alloc: Global,
    line: &mut Items<char>,
    widths: TotalWidths,
    is_sample: bool,
    by: ClassKind,
) -> Result<(), AllocError>
    ensures { OnOk result (line.new ≡ line.old ++ spec.head_cells widths is_sample by) }
{
    let orders = line_of(alloc, "orders")?;
    let share = line_of(alloc, "share")?;
    let interval = interval_word(alloc, is_sample, "95% interval")?;
    let classes = line_of(alloc, classes_word(by))?;
    put_cells(
        line,
        widths,
        orders.as_slice(),
        share.as_slice(),
        interval.as_slice(),
        classes.as_slice(),
    )
}

/// Puts the numbers of a letter behind a line.
pub(crate) fn put_total(
    alloc: Global,
    line: &mut Items<char>,
    widths: TotalWidths,
    is_sample: bool,
    whole: u64,
    total: Option<Total>,
) -> Result<(), AllocError>
    ensures { OnOk result (line.new ≡ line.old ++ spec.cells_of widths is_sample whole total) }
{
    match total {
        None => put_unknown(alloc, line, widths, is_sample),
        Some(total) => put_numbers(alloc, line, widths, is_sample, whole, total),
    }
}

fn put_numbers(
    alloc: Global,
    line: &mut Items<char>,
    widths: TotalWidths,
    is_sample: bool,
    whole: u64,
    total: Total,
) -> Result<(), AllocError>
    ensures { OnOk result (line.new ≡ line.old ++ spec.cells_of widths is_sample whole (Some total)) }
{
    let orders = number_line(alloc, total.orders)?;
    let share = share_text(alloc, whole, total.orders)?;
    let interval = interval_part(alloc, is_sample, whole, total.orders)?;
    let classes = number_line(alloc, total.classes)?;
    put_cells(
        line,
        widths,
        orders.as_slice(),
        share.as_slice(),
        interval.as_slice(),
        classes.as_slice(),
    )
}

/// Puts that the numbers of a letter are not known behind a line.
fn put_unknown(
    alloc: Global,
    line: &mut Items<char>,
    widths: TotalWidths,
    is_sample: bool,
) -> Result<(), AllocError>
    ensures { OnOk result (line.new ≡ line.old ++ spec.cells_of widths is_sample 0 None) }
{
    let none = line_of(alloc, "-")?;
    let none = none.as_slice();
    let interval = interval_word(alloc, is_sample, "-")?;
    put_cells(line, widths, none, none, interval.as_slice(), none)
}

/// Puts a letter, in front of its numbers, behind a line.
pub(crate) fn put_letter(line: &mut Items<char>, letter: Letter) -> Result<(), AllocError>
    ensures { OnOk result (line.new ≡ line.old ++ spec.letter_front letter) }
{
    put(line, "  ")?;
    put(line, letter.sign())?;
    put(line, " ")
}

/// Puts what a letter means, or why it is not known, behind its numbers.
pub(crate) fn put_meaning(
    line: &mut Items<char>,
    is_sample: bool,
    letter: Letter,
    total: Option<Total>,
) -> Result<(), AllocError>
    ensures { OnOk result (line.new ≡ line.old ++ spec.meaning_of is_sample letter total) }
{
    match total {
        None => put(line, unknown_text(is_sample)),
        Some(_) => {
            put(line, "  ")?;
            put(line, letter.meaning())
        }
    }
}

/// Why R is not known.
fn unknown_text(is_sample: bool) -> &'static str
    ensures { result.now ≡ spec.unknown_text is_sample }
{
    if is_sample {
        "  anomaly: not known for samples"
    } else {
        "  anomaly: not known for permutation lines"
    }
}

fn totals_head(
    alloc: Global,
    widths: TotalWidths,
    is_sample: bool,
    by: ClassKind,
) -> Result<Items<char>, AllocError>
    ensures { IfOk result (λ line. line ≡ spec.totals_head widths is_sample by) }
{
    let mut line = Items::new(alloc);
    put(&mut line, "    ")?;
    put_head(alloc, &mut line, widths, is_sample, by)?;
    Ok(line)
}

fn total_line(
    alloc: Global,
    widths: TotalWidths,
    is_sample: bool,
    totals: Totals,
    letter: Letter,
) -> Result<Items<char>, AllocError>
    ensures { IfOk result (λ line. line ≡ spec.total_line widths is_sample totals letter) }
{
    let total = letter.total(totals);
    let mut line = Items::new(alloc);
    put_letter(&mut line, letter)?;
    put_total(
        alloc,
        &mut line,
        widths,
        is_sample,
        totals.all.orders,
        total,
    )?;
    put_meaning(&mut line, is_sample, letter, total)?;
    Ok(line)
}

/// Puts a line for each letter behind other lines.
fn put_totals(
    alloc: Global,
    lines: &mut Items<Items<char>>,
    widths: TotalWidths,
    is_sample: bool,
    totals: Totals,
    letters: &[Letter],
) -> Result<(), AllocError>
    ensures { OnOk result (lines.new ≡ lines.old ++ map (spec.total_line widths is_sample totals) letters.now) }
{
    for letter in letters {
        lines.push(total_line(alloc, widths, is_sample, totals, *letter)?)?;
    }
    Ok(())
}

fn totals_lines(alloc: Global, page: &Page<'_>) -> Result<Items<Items<char>>, AllocError>
    ensures { IfOk result (λ lines. lines ≡ spec.totals_lines page.now) }
{
    let letters = letters_of(page.by, page.all_orders);
    let widths = total_widths(alloc, page.by, page.totals, letters)?;
    let is_sample = page.sample.is_some();
    let mut lines = Items::new(alloc);
    lines.push(totals_head(alloc, widths, is_sample, page.by)?)?;
    put_totals(alloc, &mut lines, widths, is_sample, page.totals, letters)?;
    Ok(lines)
}

fn expected_lines(alloc: Global, page: &Page<'_>) -> Result<Items<Items<char>>, AllocError>
    ensures { IfOk result (λ lines. lines ≡ spec.expectations_lines page.now) }
{
    expectations_lines(
        alloc,
        page.steps,
        page.sample.is_some(),
        page.totals.all.orders,
        page.rows,
        page.expectations,
    )
}

/// The head, what is expected, and the totals.
pub(crate) fn top_lines(alloc: Global, page: &Page<'_>) -> Result<Items<Items<char>>, AllocError>
    ensures { IfOk result (λ lines. lines ≡ spec.top_lines page.now) }
{
    let mut lines = head_lines(alloc, page)?;
    let expected = expected_lines(alloc, page)?;
    put_part(alloc, &mut lines, expected)?;
    let totals = totals_lines(alloc, page)?;
    put_part(alloc, &mut lines, totals)?;
    Ok(lines)
}
