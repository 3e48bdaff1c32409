//! How many orders and classes show what.

ghost use Rattle.std.specs.Prelude.{◌≡◌, ◌++◌, OnOk, codes};
ghost use Rattle.std.specs.List.{join_by};
ghost use Rattle.class_values.specs.Totals as spec;

use class_texts::{ClassKind, Letter, letters_of};
use order_classes::{Total, Totals};
use shown_values::{push, push_before, push_count, push_word};
use std::alloc::AllocError;

/// Pushes a label and the totals of all letters behind it.
pub(crate) fn push_totals(
    label: &str,
    by: ClassKind,
    all_orders: bool,
    totals: Totals,
    out: &mut Vec<u8>,
) -> Result<(), AllocError>
    ensures { OnOk result (out.new.items ≡ out.old.items ++ (label.now ++ spec.totals_json by all_orders totals)) }
{
    push_word(label, "{", out)?;
    push_letters(
        by,
        all_orders,
        totals,
        letters_of(ClassKind::Shows, true),
        out,
    )?;
    push("}", out)
}

fn push_letters(
    by: ClassKind,
    all_orders: bool,
    totals: Totals,
    letters: &[Letter],
    out: &mut Vec<u8>,
) -> Result<(), AllocError>
    ensures { OnOk result (out.new.items ≡ out.old.items ++ join_by (spec.letter_json by all_orders totals) (codes ",") letters.now) }
{
    for (place, letter) in letters.iter().enumerate() {
        push_before(",", place, out)?;
        push_letter(by, all_orders, totals, *letter, out)?;
    }
    Ok(())
}

fn push_letter(
    by: ClassKind,
    all_orders: bool,
    totals: Totals,
    letter: Letter,
    out: &mut Vec<u8>,
) -> Result<(), AllocError>
    ensures { OnOk result (out.new.items ≡ out.old.items ++ spec.letter_json by all_orders totals letter) }
{
    push_word("\"", letter.sign(), out)?;
    push_total("\":", told_total(by, all_orders, totals, letter), out)
}

/// How many orders and classes show a letter: none where it is not told.
fn told_total(by: ClassKind, all_orders: bool, totals: Totals, letter: Letter) -> Option<Total>
    ensures { result ≡ spec.told_total by all_orders totals letter }
{
    match by {
        ClassKind::Shows => class_total(all_orders, totals, letter),
        ClassKind::Answers => answered_total(totals, letter),
        ClassKind::Outcomes => outcome_total(totals, letter),
    }
}

/// The same of classes: whether a step is not sent is told where all permutations are counted.
fn class_total(all_orders: bool, totals: Totals, letter: Letter) -> Option<Total>
    ensures { result ≡ spec.class_total all_orders totals letter }
{
    if all_orders {
        return letter.total(totals);
    }
    sent_total(totals, letter)
}

fn sent_total(totals: Totals, letter: Letter) -> Option<Total>
    ensures { result ≡ spec.sent_total totals letter }
{
    match letter {
        Letter::Waits => Some(totals.waits),
        Letter::Deadlock => Some(totals.deadlock),
        Letter::Error => Some(totals.error),
        Letter::Unsent => None,
        Letter::Stuck => Some(totals.stuck),
        Letter::NotSerial => totals.not_serial,
    }
}

/// The same of books, which know no final rows.
fn outcome_total(totals: Totals, letter: Letter) -> Option<Total>
    ensures { result ≡ spec.outcome_total totals letter }
{
    match letter {
        Letter::Waits => Some(totals.waits),
        Letter::Deadlock => Some(totals.deadlock),
        Letter::Error => Some(totals.error),
        Letter::Unsent => Some(totals.unsent),
        Letter::Stuck | Letter::NotSerial => None,
    }
}

/// The same where orders are grouped by answers.
fn answered_total(totals: Totals, letter: Letter) -> Option<Total>
    ensures { result ≡ spec.answered_total totals letter }
{
    match letter {
        Letter::Waits => None,
        Letter::Deadlock => Some(totals.deadlock),
        Letter::Error => Some(totals.error),
        Letter::Unsent => None,
        Letter::Stuck => Some(totals.stuck),
        Letter::NotSerial => totals.not_serial,
    }
}

/// Pushes a label and a total behind it, or null where there is none.
fn push_total(label: &str, total: Option<Total>, out: &mut Vec<u8>) -> Result<(), AllocError>
    ensures { OnOk result (out.new.items ≡ out.old.items ++ (label.now ++ spec.total_json total)) }
{
    match total {
        None => push_word(label, "null", out),
        Some(total) => push_both(label, total, out),
    }
}

fn push_both(label: &str, total: Total, out: &mut Vec<u8>) -> Result<(), AllocError>
    ensures { OnOk result (out.new.items ≡ out.old.items ++ (label.now ++ spec.both_json total)) }
{
    push(label, out)?;
    push_count("[", total.orders, out)?;
    push_count(",", total.classes, out)?;
    push("]", out)
}
