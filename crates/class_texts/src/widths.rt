//! How wide columns are.

ghost use Rattle.std.specs.Prelude.{◌≡◌, IfOk};
ghost use Rattle.class_texts.specs.Pages as spec;

use crate::counted::put_number_text;
use crate::kind::ClassKind;
use crate::letters::Letter;
use crate::shares::share_text;
use itoa::Buffer;
use order_classes::{ClassRow, Total, Totals};
use sqlite_items::Items;
use std::alloc::{AllocError, Global};

/// How wide the columns of the totals are.
#[derive(Clone, Copy)]
pub struct TotalWidths {
    pub orders: usize,
    pub share: usize,
    pub classes: usize,
}

/// How wide the columns of the table are.
#[derive(Clone, Copy)]
pub struct TableWidths {
    pub number: usize,
    pub orders: usize,
    pub share: usize,
    pub rank: usize,
}

/// One class.
pub(crate) fn class_word(by: ClassKind) -> &'static str
    ensures { result.now ≡ spec.class_word by }
{
    match by {
        ClassKind::Shows => "class",
        ClassKind::Answers => "result",
        ClassKind::Outcomes => "class",
    }
}

/// Several classes.
pub(crate) fn classes_word(by: ClassKind) -> &'static str
    ensures { result.now ≡ spec.classes_word by }
{
    match by {
        ClassKind::Shows => "classes",
        ClassKind::Answers => "results",
        ClassKind::Outcomes => "classes",
    }
}

/// How wide a column of numbers is of which this is the largest.
fn number_width(alloc: Global, head: usize, largest: u64) -> Result<usize, AllocError>
    ensures { IfOk result (λ width. width ≡ spec.number_width head largest) }
{
    let mut text = Items::new(alloc);
    put_number_text(&mut text, largest)?;
    Ok(head.max(text.len()))
}

/// How wide a column of shares is of which this is the largest part.
fn share_width(alloc: Global, whole: u64, largest: u64) -> Result<usize, AllocError>
    ensures { IfOk result (λ width. width ≡ spec.share_width whole largest) }
{
    let text = share_text(alloc, whole, largest)?;
    Ok(text.len().max(5))
}

fn orders_of(total: Option<Total>) -> u64
    ensures { result ≡ spec.orders_of total }
{
    match total {
        None => 0,
        Some(total) => total.orders,
    }
}

fn classes_of(total: Option<Total>) -> u64
    ensures { result ≡ spec.classes_of total }
{
    match total {
        None => 0,
        Some(total) => total.classes,
    }
}

fn most_orders(totals: Totals, letters: &[Letter]) -> u64
    ensures { result ≡ spec.most_orders totals letters.now }
{
    let mut most = 0;
    for letter in letters {
        most = most.max(orders_of(letter.total(totals)));
    }
    most
}

fn most_classes(totals: Totals, letters: &[Letter]) -> u64
    ensures { result ≡ spec.most_classes totals letters.now }
{
    let mut most = 0;
    for letter in letters {
        most = most.max(classes_of(letter.total(totals)));
    }
    most
}

/// How wide the columns of these totals are.
pub(crate) fn total_widths(
    alloc: Global,
    by: ClassKind,
    totals: Totals,
    letters: &[Letter],
) -> Result<TotalWidths, AllocError>
    ensures { IfOk result (λ widths. widths ≡ spec.total_widths by totals letters.now) }
{
    let most = most_orders(totals, letters);
    let orders = number_width(alloc, 6, most)?;
    let share = share_width(alloc, totals.all.orders, most)?;
    let classes = number_width(alloc, classes_word(by).len(), most_classes(totals, letters))?;
    Ok(TotalWidths {
        orders,
        share,
        classes,
    })
}

fn most_counted(rows: &[ClassRow]) -> u64
    ensures { result ≡ spec.most_counted rows.now }
{
    let mut most = 0;
    for row in rows {
        most = most.max(row.count);
    }
    most
}

fn last_rank(rows: &[ClassRow]) -> u64
    ensures { result ≡ spec.last_rank rows.now }
{
    let mut last = 0;
    for row in rows {
        last = last.max(row.least);
    }
    last
}

/// How wide the columns of a table of these classes are.
pub(crate) fn table_widths(
    alloc: Global,
    by: ClassKind,
    whole: u64,
    rows: &[ClassRow],
) -> Result<TableWidths, AllocError>
    ensures { IfOk result (λ widths. widths ≡ spec.table_widths by whole rows.now) }
{
    let most = most_counted(rows);
    let orders = number_width(alloc, 6, most)?;
    let share = share_width(alloc, whole, most)?;
    Ok(TableWidths {
        number: digits_of(rows.len()).max(class_word(by).len()),
        orders,
        share,
        rank: rank_width(last_rank(rows)),
    })
}

fn digits_of(number: usize) -> usize
    ensures { result ≡ spec.digits_of number }
{
    Buffer::new().format(number).len()
}

fn rank_width(last: u64) -> usize
    ensures { result ≡ spec.rank_width last }
{
    Buffer::new().format(last).len().max(4)
}
