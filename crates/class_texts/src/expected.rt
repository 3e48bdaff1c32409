//! What is expected of orders, and of how many it is so.

ghost use Rattle.std.specs.Prelude.{◌≡◌, ◌++◌, ℕ, IfOk, MatchOption, OnOk, flat_map, map, None as no_miss, Some as a_miss};
ghost use Rattle.std.specs.List.{list_all};
ghost use Rattle.class_texts.specs.Expected as spec;

use crate::counted::{put_counted, put_in_threes, put_number_text};
use crate::looks::seen_at;
use crate::orders::put_order;
use crate::rows::{has_failed, put_row, put_words, rows_of};
use events::{Event, are_same_values};
use itoa::Buffer;
use lock_modes::{Text, Value};
use order_classes::ClassRow;
use shown_texts::{put, put_number, put_shown};
use sqlite_items::Items;
use std::alloc::{AllocError, Global};
use std::marker::Model;
use std::slice::from_ref;

/// What is expected: that a SELECT sees one row of what an order leaves, with these values.
#[derive(Drop)]
pub struct Expected<'a> {
    /// The SELECT as it was given.
    pub text: &'a str,
    pub values: &'a [Value],
    /// What it sees, class by class in the order of the page's rows.
    pub seen: Vec<Vec<Event>>,
}

impl<'a> Model for Expected<'a> {
    ghost use Rattle.std.specs.Prelude.{Vec, map};
    ghost use Rattle.std.specs.Coded.{codes};
    ghost use Rattle.lock_modes.specs.contracts.value.Value as value;
    ghost use Rattle.events.specs.contracts.event.Event as event;
    ghost use Rattle.class_texts.specs.Expected as expected;

    ghost Value = { expected.Expectation };

    ghost coded = { Prim.hlevel (codes, value.the_row.coded, event.the_row.coded) };

    ghost view = { λ e. record { text = e.text.now; values = e.values.now; seen = map (λ v. v.items) e.seen.items } };
}

fn are_same(a: &[Value], b: &[Value]) -> bool
    ensures { result ≡ spec.same_values a.now b.now }
{
    are_same_values(a, b)
}

fn is_row(values: &[Value], event: &Event) -> bool
    ensures { result ≡ spec.is_row values.now event.now }
{
    match event {
        Event::Row(row) => are_same(values, row.values()),
        _ => false,
    }
}

fn is_one(event: &Event) -> bool
    ensures { result ≡ spec.is_one event.now }
{
    match event {
        Event::Rows(count) => *count == 1,
        _ => false,
    }
}

/// Whether one row is seen, with these values.
fn meets(values: &[Value], events: &[Event]) -> bool
    ensures { result ≡ spec.meets values.now events.now }
{
    match events {
        [row, count] => is_row(values, row) && is_one(count),
        _ => false,
    }
}

impl Expected<'_> {
    /// Whether it holds of all classes.
    pub fn is_met(&self) -> bool
        ensures { result ≡ spec.is_met self.now }
    {
        are_met(self.values, &self.seen)
    }
}

fn are_met(values: &[Value], seen: &[Vec<Event>]) -> bool
    ensures { result ≡ list_all (λ v. spec.meets values.now v.items) seen.now }
{
    seen.iter().all(|events: &Vec<Event>| meets(values, events))
}

/// Whether it holds of the class at a place.
fn is_met_at(expected: &Expected<'_>, place: usize) -> bool
    ensures { result ≡ spec.is_met_at expected.now place }
{
    meets(expected.values, seen_at(&expected.seen, place))
}

/// The orders of the class at a place, if it holds of them.
fn met_at(expected: &Expected<'_>, place: usize, row: &ClassRow) -> u64
    ensures { result ≡ spec.met_at expected.now place row.now }
{
    if is_met_at(expected, place) {
        return row.count;
    }
    0
}

/// The orders of which it holds.
pub fn met_of(expected: &Expected<'_>, rows: &[ClassRow]) -> u128
    ensures { result ≡ spec.met_from expected.now 0 rows.now }
{
    // So many numbers of 64 bits are too many for 64 bits.
    let mut met = 0_u128;
    for place in 0..rows.len() {
        met += u128::from(met_at(expected, place, &rows[place]));
    }
    met
}

/// The first class of which it does not hold, with what is seen there.
pub fn first_miss<'a>(
    expected: &'a Expected<'_>,
    rows: &'a [ClassRow],
) -> Option<(&'a ClassRow, &'a [Event])>
    ensures { MatchOption result (spec.first_miss expected.now 0 rows.now ≡ no_miss)
        (λ miss. spec.first_miss expected.now 0 rows.now ≡ a_miss (miss.0.now, miss.1.now)) }
{
    for place in 0..rows.len() {
        if !is_met_at(expected, place) {
            return Some((&rows[place], seen_at(&expected.seen, place)));
        }
    }
    None
}

/// The orders of the class at a place, unless it holds of them.
fn missed_at(expected: &Expected<'_>, place: usize, row: &ClassRow) -> u64
    ensures { result ≡ spec.missed_at expected.now place row.now }
{
    if is_met_at(expected, place) {
        return 0;
    }
    row.count
}

/// The orders of which it does not hold.
fn missed_of(expected: &Expected<'_>, rows: &[ClassRow]) -> u128
    ensures { result ≡ spec.missed_from expected.now 0 rows.now }
{
    let mut missed = 0_u128;
    for place in 0..rows.len() {
        missed += u128::from(missed_at(expected, place, &rows[place]));
    }
    missed
}

fn put_value(alloc: Global, line: &mut Items<char>, value: &Value) -> Result<(), AllocError>
    ensures { OnOk result (line.new ≡ line.old ++ spec.value_text value.now) }
{
    put_row(alloc, line, from_ref(value))
}

fn put_other_values(
    alloc: Global,
    line: &mut Items<char>,
    values: &[Value],
) -> Result<(), AllocError>
    ensures { OnOk result (line.new ≡ line.old ++ flat_map spec.behind_value values.now) }
{
    for value in values {
        put(line, ", ")?;
        put_value(alloc, line, value)?;
    }
    Ok(())
}

fn put_values(alloc: Global, line: &mut Items<char>, values: &[Value]) -> Result<(), AllocError>
    ensures { OnOk result (line.new ≡ line.old ++ spec.values_text values.now) }
{
    match values.split_first() {
        None => Ok(()),
        Some((first, others)) => {
            put_value(alloc, line, first)?;
            put_other_values(alloc, line, others)
        }
    }
}

/// What is expected, in words.
fn expected_text(alloc: Global, expected: &Expected<'_>) -> Result<Items<char>, AllocError>
    ensures { IfOk result (λ line. line ≡ spec.expected_text expected.now) }
{
    let mut line = Items::new(alloc);
    put(&mut line, "expect ")?;
    put_shown(&mut line, expected.text)?;
    put(&mut line, " = ")?;
    put_values(alloc, &mut line, expected.values)?;
    Ok(line)
}

/// Puts so many of so many orders behind a line.
fn put_of_orders(line: &mut Items<char>, number: u128, orders: u64) -> Result<(), AllocError>
    ensures { OnOk result (line.new ≡ line.old ++ spec.of_orders number orders) }
{
    put_in_threes(line, Buffer::new().format(number).as_bytes())?;
    put(line, " of ")?;
    put_counted(line, orders, "order", "orders")
}

/// Puts what is seen in place of the one row behind a line.
fn put_found_rows(
    alloc: Global,
    line: &mut Items<char>,
    rows: &[&[Value]],
) -> Result<(), AllocError>
    ensures { OnOk result (line.new ≡ line.old ++ spec.found_rows (map (λ r. r.now) rows.now)) }
{
    match rows {
        [] => put(line, "no row"),
        [row] => put_row(alloc, line, row),
        [row, _, ..] => put_several(alloc, line, rows.len(), row),
    }
}

fn put_several(
    alloc: Global,
    line: &mut Items<char>,
    number: usize,
    first: &[Value],
) -> Result<(), AllocError>
    ensures { OnOk result (line.new ≡ line.old ++ spec.several_rows number first.now) }
{
    put_number_text(line, number as u64)?;
    put(line, " rows, first ")?;
    put_row(alloc, line, first)
}

fn put_found(
    alloc: Global,
    line: &mut Items<char>,
    steps: &[Text],
    events: &[Event],
) -> Result<(), AllocError>
    ensures { OnOk result (line.new ≡ line.old ++ spec.found_text steps.now events.now) }
{
    if has_failed(events) {
        return put_words(alloc, line, steps, events);
    }
    let rows = rows_of(alloc, events)?;
    put_found_rows(alloc, line, rows.as_slice())
}

fn failed_line(alloc: Global, missed: u128, orders: u64) -> Result<Items<char>, AllocError>
    ensures { IfOk result (λ line. line ≡ spec.failed_line missed orders) }
{
    let mut line = Items::new(alloc);
    put(&mut line, "  FAILED in ")?;
    put_of_orders(&mut line, missed, orders)?;
    Ok(line)
}

fn put_rank(line: &mut Items<char>, rank: u64) -> Result<(), AllocError>
    ensures { OnOk result (line.new ≡ line.old ++ spec.rank_text rank) }
{
    put(line, "    (rank ")?;
    put_number(line, rank)?;
    put(line, ")")
}

/// The first order of a class.
fn first_line(alloc: Global, steps: &[Text], row: &ClassRow) -> Result<Items<char>, AllocError>
    ensures { IfOk result (λ line. line ≡ spec.first_line steps.now row.now) }
{
    let mut line = Items::new(alloc);
    put(&mut line, "  first:")?;
    put_order(
        alloc,
        &mut line,
        steps,
        row.shows.told.sessions(),
        row.line.as_slice(),
    )?;
    put_rank(&mut line, row.least)?;
    Ok(line)
}

fn found_line(alloc: Global, steps: &[Text], events: &[Event]) -> Result<Items<char>, AllocError>
    ensures { IfOk result (λ line. line ≡ spec.found_line steps.now events.now) }
{
    let mut line = Items::new(alloc);
    put(&mut line, "  found: ")?;
    put_found(alloc, &mut line, steps, events)?;
    Ok(line)
}

/// Puts a class of which it does not hold, and what is seen there, behind other lines.
fn put_miss(
    alloc: Global,
    lines: &mut Items<Items<char>>,
    steps: &[Text],
    row: &ClassRow,
    events: &[Event],
) -> Result<(), AllocError>
    ensures { OnOk result (lines.new ≡ lines.old ++ spec.miss_lines steps.now row.now events.now) }
{
    lines.push(first_line(alloc, steps, row)?)?;
    lines.push(found_line(alloc, steps, events)?)
}

/// Puts that none of a sample of so many orders speaks against it.
fn put_none_against(line: &mut Items<char>, orders: u64) -> Result<(), AllocError>
    ensures { OnOk result (line.new ≡ line.old ++ spec.none_against orders) }
{
    put(line, ": no counterexample in ")?;
    put_counted(line, orders, "order", "orders")
}

/// Puts that it holds of so many orders, or that none of a sample of so many speaks against it.
fn put_holds(line: &mut Items<char>, is_sample: bool, orders: u64) -> Result<(), AllocError>
    ensures { OnOk result (line.new ≡ line.old ++ spec.holds_text is_sample orders) }
{
    if is_sample {
        return put_none_against(line, orders);
    }
    put(line, ": holds in ")?;
    put_of_orders(line, u128::from(orders), orders)
}

/// Puts that it holds behind what is expected.
fn holds_line(
    alloc: Global,
    is_sample: bool,
    orders: u64,
    expected: &Expected<'_>,
) -> Result<Items<char>, AllocError>
    ensures { IfOk result (λ line. line ≡ spec.holds_line is_sample orders expected.now) }
{
    let mut line = expected_text(alloc, expected)?;
    put_holds(&mut line, is_sample, orders)?;
    Ok(line)
}

/// Puts what is expected, and whether it holds of all of so many orders in these classes, behind other lines.
fn put_expected(
    alloc: Global,
    lines: &mut Items<Items<char>>,
    steps: &[Text],
    is_sample: bool,
    orders: u64,
    rows: &[ClassRow],
    expected: &Expected<'_>,
) -> Result<(), AllocError>
    ensures { OnOk result (lines.new ≡ lines.old ++ spec.expected_lines steps.now is_sample orders rows.now expected.now) }
{
    match first_miss(expected, rows) {
        None => lines.push(holds_line(alloc, is_sample, orders, expected)?),
        Some((row, events)) => {
            put_failed(alloc, lines, steps, orders, rows, expected, row, events)
        }
    }
}

/// Puts what is expected, of how many orders it does not hold, and the first class of these, behind other lines.
fn put_failed(
    alloc: Global,
    lines: &mut Items<Items<char>>,
    steps: &[Text],
    orders: u64,
    rows: &[ClassRow],
    expected: &Expected<'_>,
    row: &ClassRow,
    events: &[Event],
) -> Result<(), AllocError>
    ensures { OnOk result (lines.new ≡ lines.old ++ spec.failed_lines steps.now orders rows.now expected.now row.now events.now) }
{
    put_missed(alloc, lines, orders, rows, expected)?;
    put_miss(alloc, lines, steps, row, events)
}

fn put_missed(
    alloc: Global,
    lines: &mut Items<Items<char>>,
    orders: u64,
    rows: &[ClassRow],
    expected: &Expected<'_>,
) -> Result<(), AllocError>
    ensures { OnOk result (lines.new ≡ lines.old ++ spec.missed_lines orders rows.now expected.now) }
{
    lines.push(expected_text(alloc, expected)?)?;
    lines.push(failed_line(alloc, missed_of(expected, rows), orders)?)
}

/// All that is expected of so many orders in these classes, in lines.
pub(crate) fn expectations_lines(
    alloc: Global,
    steps: &[Text],
    is_sample: bool,
    orders: u64,
    rows: &[ClassRow],
    expectations: &[Expected<'_>],
) -> Result<Items<Items<char>>, AllocError>
    ensures { IfOk result (λ lines. lines ≡ flat_map (spec.expected_lines steps.now is_sample orders rows.now) expectations.now) }
{
    let mut lines = Items::new(alloc);
    for expected in expectations {
        put_expected(alloc, &mut lines, steps, is_sample, orders, rows, expected)?;
    }
    Ok(lines)
}
