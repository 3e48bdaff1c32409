//! The head of a page: how many orders and classes there are, and what is said of all of them.

ghost use Rattle.std.specs.Prelude.{◌≡◌, ◌≤◌, ◌++◌, ◌∷◌, [], IfOk, OnOk, Some, flat_map};
ghost use Rattle.class_texts.specs.Pages as spec;

use crate::counted::{put_counted, put_number_text};
use crate::kind::ClassKind;
use crate::page::Page;
use crate::shares::share_text;
use crate::widths::{class_word, classes_word};
use class_stretches::Missing;
use order_classes::ClassRow;
use shown_texts::{level_text, put, put_line, put_number, put_shown};
use sqlite_items::Items;
use std::alloc::{AllocError, Global};

fn put_asked(line: &mut Items<char>, is_filtered: bool, number: u64) -> Result<(), AllocError>
    ensures { OnOk result (line.new ≡ line.old ++ spec.asked_text is_filtered number) }
{
    if is_filtered {
        put_number_text(line, number)?;
        return put(line, " of ");
    }
    Ok(())
}

/// Puts a number of orders, in so many classes, behind a line.
pub(crate) fn put_in_classes(
    line: &mut Items<char>,
    by: ClassKind,
    orders: u64,
    classes: u64,
) -> Result<(), AllocError>
    ensures { OnOk result (line.new ≡ line.old ++ spec.in_classes by orders classes) }
{
    put_counted(line, orders, "order", "orders")?;
    put(line, " in ")?;
    put_counted(line, classes, class_word(by), classes_word(by))
}

fn put_counts(line: &mut Items<char>, page: &Page<'_>) -> Result<(), AllocError>
    ensures { OnOk result (line.new ≡ line.old ++ spec.counts_text page.now) }
{
    put_asked(line, page.is_filtered, page.totals.all.orders)?;
    put_in_classes(line, page.by, page.orders, page.totals.all.classes)
}

/// Puts a line behind others.
fn put_text(alloc: Global, lines: &mut Items<Items<char>>, text: &str) -> Result<(), AllocError>
    ensures { OnOk result (lines.new ≡ lines.old ++ text.now ∷ []) }
{
    let mut line = Items::new(alloc);
    put(&mut line, text)?;
    lines.push(line)
}

/// Puts that the orders are drawn, if they are, behind other remarks.
fn put_sample_remark(
    alloc: Global,
    remarks: &mut Items<Items<char>>,
    sample: Option<u64>,
) -> Result<(), AllocError>
    ensures { OnOk result (remarks.new ≡ remarks.old ++ spec.sample_remark sample) }
{
    match sample {
        None => Ok(()),
        Some(seed) => remarks.push(seed_text(alloc, seed)?),
    }
}

fn seed_text(alloc: Global, seed: u64) -> Result<Items<char>, AllocError>
    ensures { IfOk result (λ line. line ≡ spec.seed_text seed) }
{
    let mut line = Items::new(alloc);
    put(&mut line, "sample of all permutations, seed ")?;
    put_number(&mut line, seed)?;
    Ok(line)
}

/// Puts that all permutations are counted behind other remarks, but for permutation lines.
fn put_all_remark(
    alloc: Global,
    remarks: &mut Items<Items<char>>,
    page: &Page<'_>,
) -> Result<(), AllocError>
    ensures { OnOk result (remarks.new ≡ remarks.old ++ spec.all_remark page.now) }
{
    if page.all_orders && page.totals.not_serial.is_some() {
        return put_text(alloc, remarks, "all permutations");
    }
    Ok(())
}

fn unsent_text(alloc: Global, orders: u64) -> Result<Items<char>, AllocError>
    ensures { IfOk result (λ line. line ≡ spec.unsent_text orders) }
{
    let mut line = Items::new(alloc);
    put_counted(&mut line, orders, "contains", "contain")?;
    put(&mut line, " a step that is not sent")?;
    Ok(line)
}

/// Puts how many of the orders no client can send behind other remarks.
fn put_unsent_remark(
    alloc: Global,
    remarks: &mut Items<Items<char>>,
    page: &Page<'_>,
) -> Result<(), AllocError>
    ensures { OnOk result (remarks.new ≡ remarks.old ++ spec.unsent_remark page.now) }
{
    if page.all_orders && 0 < page.totals.unsent.orders {
        return remarks.push(unsent_text(alloc, page.totals.unsent.orders)?);
    }
    Ok(())
}

/// Puts filters behind other remarks.
fn put_filters_remark(
    alloc: Global,
    remarks: &mut Items<Items<char>>,
    filters: &str,
) -> Result<(), AllocError>
    ensures { OnOk result (remarks.new ≡ remarks.old ++ spec.filters_remark filters.now) }
{
    if filters.is_empty() {
        return Ok(());
    }
    let mut line = Items::new(alloc);
    put_shown(&mut line, filters)?;
    remarks.push(line)
}

fn remarks(alloc: Global, page: &Page<'_>) -> Result<Items<Items<char>>, AllocError>
    ensures { IfOk result (λ remarks. remarks ≡ spec.remarks page.now) }
{
    let mut remarks = Items::new(alloc);
    put_sample_remark(alloc, &mut remarks, page.sample)?;
    put_all_remark(alloc, &mut remarks, page)?;
    put_unsent_remark(alloc, &mut remarks, page)?;
    put_filters_remark(alloc, &mut remarks, page.filters)?;
    Ok(remarks)
}

fn put_other_remarks(line: &mut Items<char>, remarks: &[Items<char>]) -> Result<(), AllocError>
    ensures { OnOk result (line.new ≡ line.old ++ flat_map spec.behind_semicolon remarks.now) }
{
    for remark in remarks {
        put(line, "; ")?;
        put_line(line, remark.as_slice())?;
    }
    Ok(())
}

/// Puts remarks in brackets behind a line, if there are any.
fn put_remarks(line: &mut Items<char>, remarks: &[Items<char>]) -> Result<(), AllocError>
    ensures { OnOk result (line.new ≡ line.old ++ spec.in_brackets remarks.now) }
{
    match remarks.split_first() {
        None => Ok(()),
        Some((first, others)) => {
            put(line, " (")?;
            put_line(line, first.as_slice())?;
            put_other_remarks(line, others)?;
            put(line, ")")
        }
    }
}

/// Puts how many orders are missing behind a line, if any are.
fn put_missing(line: &mut Items<char>, missing: Option<Missing>) -> Result<(), AllocError>
    ensures { OnOk result (line.new ≡ line.old ++ spec.missing_text missing) }
{
    match missing {
        None => Ok(()),
        Some(missing) => put_some_missing(line, missing),
    }
}

fn put_some_missing(line: &mut Items<char>, missing: Missing) -> Result<(), AllocError>
    ensures { OnOk result (line.new ≡ line.old ++ spec.missing_text (Some missing)) }
{
    put(line, "; ")?;
    put_counted(
        line,
        missing.ranks,
        "order is missing, rank ",
        "orders are missing, the first of rank ",
    )?;
    put_number(line, missing.first)
}

fn title(alloc: Global, page: &Page<'_>) -> Result<Items<char>, AllocError>
    ensures { IfOk result (λ line. line ≡ spec.title page.now) }
{
    let remarks = remarks(alloc, page)?;
    let mut line = Items::new(alloc);
    put_shown(&mut line, page.path)?;
    put(&mut line, ": ")?;
    put_counts(&mut line, page)?;
    put_remarks(&mut line, remarks.as_slice())?;
    put_missing(&mut line, page.missing)?;
    Ok(line)
}

/// Puts what books do not know behind other lines.
fn put_books(alloc: Global, lines: &mut Items<Items<char>>, by: ClassKind) -> Result<(), AllocError>
    ensures { OnOk result (lines.new ≡ lines.old ++ spec.books_line by) }
{
    match by {
        ClassKind::Shows | ClassKind::Answers => Ok(()),
        ClassKind::Outcomes => put_text(
            alloc,
            lines,
            "Books have no final rows: S and R are not known.",
        ),
    }
}

fn is_one(row: &ClassRow) -> u64
    ensures is { result ≡ spec.is_one row.now }
    ensures few { result ≤ 1 }
{
    if row.count == 1 { 1 } else { 0 }
}

/// How many classes have one order.
pub fn seen_once(rows: &[ClassRow]) -> u64
    ensures { result ≡ spec.seen_once rows.now }
{
    let mut once = 0;
    for row in rows {
        once += is_one(row);
    }
    once
}

/// What a sample says of shares, and of the orders whose classes it has not.
fn unseen_line(alloc: Global, orders: u64, rows: &[ClassRow]) -> Result<Items<char>, AllocError>
    ensures { IfOk result (λ line. line ≡ spec.unseen_line orders rows.now) }
{
    let share = share_text(alloc, orders, seen_once(rows))?;
    let mut line = Items::new(alloc);
    put(&mut line, "Shares have 95% intervals by Wilson. About ")?;
    put_line(&mut line, share.as_slice())?;
    put(
        &mut line,
        " of such orders are in classes not seen (Good and Turing).",
    )?;
    Ok(line)
}

/// Puts what a sample of so many orders says behind other lines.
fn put_unseen(
    alloc: Global,
    lines: &mut Items<Items<char>>,
    orders: u64,
    rows: &[ClassRow],
) -> Result<(), AllocError>
    ensures { OnOk result (lines.new ≡ lines.old ++ spec.unseen_line orders rows.now ∷ []) }
{
    lines.push(unseen_line(alloc, orders, rows)?)
}

/// Puts what a page of a sample says of it behind other lines.
fn put_sample(
    alloc: Global,
    lines: &mut Items<Items<char>>,
    page: &Page<'_>,
) -> Result<(), AllocError>
    ensures { OnOk result (lines.new ≡ lines.old ++ spec.sample_line page.now) }
{
    if page.sample.is_some() && 0 < page.totals.all.orders {
        return put_unseen(alloc, lines, page.totals.all.orders, page.rows);
    }
    Ok(())
}

/// The head of a page.
pub(crate) fn head_lines(alloc: Global, page: &Page<'_>) -> Result<Items<Items<char>>, AllocError>
    ensures { IfOk result (λ lines. lines ≡ spec.head_lines page.now) }
{
    let mut lines = Items::new(alloc);
    lines.push(title(alloc, page)?)?;
    lines.append(level_text(alloc, page.levels)?)?;
    put_books(alloc, &mut lines, page.by)?;
    put_sample(alloc, &mut lines, page)?;
    Ok(lines)
}
