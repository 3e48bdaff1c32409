//! What a select tells of the rows that match.

ghost use Rattle.std.specs.Prelude.{◌≡◌, [], ◌∷◌, ◌++◌, IfOk, length, map, true};
ghost use Rattle.events.specs.declared.event.Event.TheVariants.{Row as RowEvent, Rows};
ghost use Rattle.statement_evaluation.specs.Effect as spec;
ghost use Rattle.statement_evaluation.specs.Borrowed.{effect_at};
ghost use Rattle.statement_evaluation.specs.Evaluate.{checked};
ghost use Rattle.statement_evaluation.specs.Matched.{selected};

use crate::effect::Given;
use crate::entry::{Entries, Entry};
use crate::few::Few;
use crate::value_ref::ValueRef;
use crate::write::Writes;
use bound_statements::{Aggregate, Output, SortKey};
use events::{Event, Fault};
use finite_maps::Fork;
use lock_modes::{Row, Value};
use std::alloc::{AllocError, Global};

/// What showing the rows that match, sorted, comes to. Where the condition has faulted, `found` is none, and the statement fails for
/// a number out of range. The call fails for want of memory alone.
pub fn selected(
    alloc: Global,
    order: &[SortKey],
    output: &Output,
    found: Option<Entries<'_>>,
) -> Result<Given, AllocError>
    ensures { IfOk result (λ given. effect_at given ≡ selected order.now output.now found.entry) }
{
    let Some(found) = found else {
        return Ok(Given::Failed(Fault::OutOfRange));
    };
    // Most selects have no order, and who sorts moves them.
    if order.is_empty() {
        return show(alloc, output, found.as_slice());
    }
    let found = found.sorted(order)?;
    show(alloc, output, found.as_slice())
}

fn show(alloc: Global, output: &Output, found: &[Entry<'_>]) -> Result<Given, AllocError>
    ensures { IfOk result (λ given. effect_at given ≡ spec.shown output.now found.now) }
{
    match output {
        Output::Columns(columns) => {
            let events = rows(alloc, columns.as_slice(), found)?;
            Ok(Given::Told(events, Writes::new(alloc)))
        }
        Output::Aggregates(each) => match aggregates(alloc, each.as_slice(), found)? {
            None => Ok(Given::Failed(Fault::OutOfRange)),
            Some(row) => {
                let mut events = Few::of_one(alloc, Event::Row(row));
                events.push(Event::Rows(1))?;
                Ok(Given::Told(events, Writes::new(alloc)))
            }
        },
    }
}

/// These columns of each row, and how many rows there are.
fn rows(alloc: Global, columns: &[u16], found: &[Entry<'_>]) -> Result<Few<Event>, AllocError>
    ensures { IfOk result (λ events. events ≡ map (λ e. RowEvent (spec.projected columns.now e.1)) found.now ++ Rows (length found.now) ∷ []) }
{
    let last = Event::Rows(found.len() as u64);
    if found.is_empty() {
        return Ok(Few::of_one(alloc, last));
    }
    let mut events = Vec::with_capacity(alloc, found.len() + 1)?;
    for entry in found {
        events.push(Event::Row(projection(alloc, columns, entry.row())?))?;
    }
    events.push(last)?;
    Ok(Few::of_items(events))
}

/// The values in these columns.
fn projection(alloc: Global, columns: &[u16], row: &Row) -> Result<Row, AllocError>
    ensures { IfOk result (λ shown. shown ≡ spec.projected columns.now row.now) }
{
    if shows_all(columns, row) {
        return row.fork();
    }
    let mut values = Vec::with_capacity(alloc, columns.len())?;
    for column in columns {
        values.push(ValueRef::in_column(row, *column).to_value()?)?;
    }
    Ok(Row::from_values(values)?)
}

/// Whether these are all columns of the row in their order.
fn shows_all(columns: &[u16], row: &Row) -> bool
    ensures { result ≡ true → spec.projected columns.now row.now ≡ row.now }
{
    if columns.len() != row.values().len() {
        return false;
    }
    for place in 0..columns.len() {
        if columns[place] as usize != place {
            return false;
        }
    }
    true
}

/// One row of these numbers, or none where one leaves the range of 64 bits.
fn aggregates(
    alloc: Global,
    each: &[Aggregate],
    found: &[Entry<'_>],
) -> Result<Option<Row>, AllocError>
    ensures { IfOk result (λ row. row ≡ spec.all_aggregated each.now found.now) }
{
    let mut values = Vec::with_capacity(alloc, each.len())?;
    for aggregate in each {
        let Some(value) = aggregated(*aggregate, found) else {
            return Ok(None);
        };
        values.push(value)?;
    }
    Ok(Some(Row::from_values(values)?))
}

fn aggregated(aggregate: Aggregate, found: &[Entry<'_>]) -> Option<Value>
    ensures { result ≡ spec.aggregated aggregate found.now }
{
    match aggregate {
        Aggregate::Count => Some(Value::Int(found.len() as i64)),
        Aggregate::Sum(column) => within(total(column, found)),
    }
}

/// The number where it is one of 64 bits.
fn within(number: i128) -> Option<Value>
    ensures { result ≡ checked number }
{
    match i64::try_from(number) {
        Ok(number) => Some(Value::Int(number)),
        Err(_) => None,
    }
}

/// The exact total of a column: 128 bits are enough for as many numbers of 64 as memory has room for.
fn total(column: u16, found: &[Entry<'_>]) -> i128
    ensures { result ≡ spec.total_of column found.now }
{
    let mut total = 0;
    for entry in found {
        total += number_in(column, entry.row()) as i128;
    }
    total
}

/// The number in a column, 0 where it has none.
fn number_in(column: u16, row: &Row) -> i64
    ensures { result ≡ spec.number_in column row.now }
{
    match ValueRef::in_column(row, column) {
        ValueRef::Int(number) => number,
        ValueRef::Text(_) => 0,
    }
}
