//! Rows that change or go.

ghost use Rattle.std.specs.Prelude.{◌≡◌, IfOk, None, map, set};
ghost use Rattle.lock_modes.specs.Rows.{Tuple};
ghost use Rattle.lock_modes.specs.RowPlace.{RowPlace};
ghost use Rattle.statement_evaluation.specs.Effect as spec;
ghost use Rattle.statement_evaluation.specs.Borrowed.{effect_at};
ghost use Rattle.statement_evaluation.specs.Matched.{updated, deleted};

use crate::effect::{Given, telling};
use crate::entry::{Entries, Entry};
use crate::evaluate::value_of;
use crate::write::{Write, Writes};
use bound_statements::Assignment;
use events::{Event, Fault};
use finite_maps::Fork;
use lock_modes::{Row, Value};
use std::alloc::{AllocError, Global};

/// What setting columns of the rows that match comes to. Where the condition has faulted, `found` is none, and the statement fails for
/// a number out of range. The call fails for want of memory alone.
pub fn updated(
    alloc: Global,
    sets: &[Assignment],
    found: Option<Entries<'_>>,
) -> Result<Given, AllocError>
    ensures { IfOk result (λ given. effect_at given ≡ updated sets.now found.entry) }
{
    let Some(found) = found else {
        return Ok(Given::Failed(Fault::OutOfRange));
    };
    let Some(writes) = assign_each(alloc, sets, found.as_slice())? else {
        return Ok(Given::Failed(Fault::OutOfRange));
    };
    let event = Event::Updated(writes.len() as u64);
    Ok(telling(alloc, event, writes))
}

/// What removing the rows that match comes to. Where the condition has faulted, `found` is none, and the statement fails for a number
/// out of range. The call fails for want of memory alone.
pub fn deleted(alloc: Global, found: Option<Entries<'_>>) -> Result<Given, AllocError>
    ensures { IfOk result (λ given. effect_at given ≡ deleted found.entry) }
{
    let Some(found) = found else {
        return Ok(Given::Failed(Fault::OutOfRange));
    };
    let writes = remove_each(alloc, found.as_slice())?;
    let event = Event::Deleted(writes.len() as u64);
    Ok(telling(alloc, event, writes))
}

/// The writes of these rows with their columns set, or none where a number leaves the range of 64 bits.
fn assign_each(
    alloc: Global,
    sets: &[Assignment],
    found: &[Entry<'_>],
) -> Result<Option<Writes>, AllocError>
    ensures { IfOk result (λ writes. writes ≡ spec.all_assigned sets.now found.now) }
{
    let mut writes = Writes::new(alloc);
    for entry in found {
        let Some(row) = assigned(alloc, sets, entry.row())? else {
            return Ok(None);
        };
        writes.push(Write::new(entry.table(), entry.key().fork()?, Some(row)))?;
    }
    Ok(Some(writes))
}

/// The row with the columns set to what the expressions give in the old row.
fn assigned(alloc: Global, sets: &[Assignment], old: &Row) -> Result<Option<Row>, AllocError>
    ensures { IfOk result (λ row. row ≡ spec.assigned old.now sets.now old.now) }
{
    let mut values = copied(alloc, old)?;
    for assignment in sets {
        let Some(value) = value_of(old, &assignment.value) else {
            return Ok(None);
        };
        put(&mut values, assignment.column, value.to_value()?);
    }
    Ok(Some(Row::from_values(values)?))
}

fn copied(alloc: Global, row: &Row) -> Result<Vec<Value>, AllocError>
    ensures { IfOk result (λ values. values.items ≡ row.now) }
{
    let mut values = Vec::with_capacity(alloc, row.values().len())?;
    for value in row.values() {
        values.push(value.fork()?)?;
    }
    Ok(values)
}

/// Puts a value into a column, if the row has that column.
fn put(values: &mut Vec<Value>, column: u16, value: Value)
    ensures { values.new.items ≡ set values.old.items column value }
{
    if let Some(place) = values.get_mut(column as usize) {
        *place = value;
    }
}

/// The writes that leave no row where these are.
fn remove_each(alloc: Global, found: &[Entry<'_>]) -> Result<Writes, AllocError>
    ensures { IfOk result (λ writes. writes ≡ map (λ (e : RowPlace × Tuple). record { place = e.0; left = None }) found.now) }
{
    let mut writes = Writes::new(alloc);
    for entry in found {
        writes.push(Write::new(entry.table(), entry.key().fork()?, None))?;
    }
    Ok(writes)
}
