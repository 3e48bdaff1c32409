//! How many orders have which letters, and in how many classes.

ghost use Rattle.std.specs.Prelude.{◌≡◌, ◌<◌, ◌^◌, ◌∷◌, []};
ghost use Rattle.spec_classes.specs.Classes.{total_count};
ghost use Rattle.class_rows.specs.Pages.{rows_with};
ghost use Rattle.class_rows.specs.declared.letters.Letter.{Letter as Counted};
ghost use Rattle.class_rows.specs.Telling.{has_letter, orders_with, total_by, totals_by, where_told};

use crate::letters::Letter;
use crate::passing::Passing;
use order_classes::{ClassRow, Total, Totals};
use spec_classes::OrderClass;

/// The orders of all classes.
pub(crate) fn orders_of(classes: &[OrderClass]) -> u64
    requires { total_count classes.now < 2 ^ 63 }
    ensures { result ≡ total_count classes.now }
{
    let mut orders = 0;
    for class in classes {
        orders += class.count;
    }
    orders
}

/// The totals of all letters of these classes, which are told in these rows; that of R, if it is told.
pub(crate) fn totals_of(is_told: bool, passing: &[Passing<'_>], rows: &[ClassRow]) -> Totals
    requires { (letter : Counted) → orders_with (has_letter letter) passing.now < 2 ^ 64 }
    ensures { result ≡ totals_by is_told passing.now rows.now }
{
    Totals {
        all: total(Letter::All, passing, rows),
        waits: total(Letter::Waits, passing, rows),
        deadlock: total(Letter::Deadlock, passing, rows),
        error: total(Letter::Error, passing, rows),
        unsent: total(Letter::Unsent, passing, rows),
        stuck: total(Letter::Stuck, passing, rows),
        not_serial: where_told(is_told, total(Letter::NotSerial, passing, rows)),
    }
}

/// The total, if it is told.
fn where_told(is_told: bool, total: Total) -> Option<Total>
    ensures { result ≡ where_told is_told total }
{
    if is_told { Some(total) } else { None }
}

/// The orders of the classes that have the letter, and how many rows do.
fn total(letter: Letter, passing: &[Passing<'_>], rows: &[ClassRow]) -> Total
    requires { orders_with (has_letter letter) passing.now < 2 ^ 64 }
    ensures { result ≡ total_by (has_letter letter) passing.now rows.now }
{
    Total {
        orders: orders_with(letter, passing),
        classes: rows_with(letter, rows),
    }
}

fn orders_with(letter: Letter, passing: &[Passing<'_>]) -> u64
    requires { orders_with (has_letter letter) passing.now < 2 ^ 64 }
    ensures { result ≡ orders_with (has_letter letter) passing.now }
{
    let mut orders = 0;
    for class in passing {
        orders += counted(letter, *class);
    }
    orders
}

/// The orders of a class, if it has the letter.
fn counted(letter: Letter, passing: Passing<'_>) -> u64
    ensures { result ≡ orders_with (has_letter letter) (passing.entry ∷ []) }
{
    if letter.is_of(passing.letters) {
        passing.class.count
    } else {
        0
    }
}

fn rows_with(letter: Letter, rows: &[ClassRow]) -> u64
    ensures { result ≡ rows_with (has_letter letter) rows.now }
{
    let mut count = 0;
    for row in rows {
        if letter.is_of(row.letters) {
            count += 1;
        }
    }
    count
}
