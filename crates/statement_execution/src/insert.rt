//! New rows, at their keys or behind a hidden row number.

ghost use Rattle.std.specs.Prelude.{◌≡◌, ◌||◌, IfOk, Some, None, is_some};
ghost use Rattle.std.specs.FinMap.Entries.{find};
ghost use Rattle.finite_maps.specs.Map.{get};
ghost use Rattle.lock_modes.specs.Value.{value_cmp};
ghost use Rattle.events.specs.declared.event.Fault.TheVariants.{Duplicate};
ghost use Rattle.events.specs.declared.event.Event.TheVariants.{Inserted};
ghost use Rattle.bound_statements.specs.declared.statement.Bound.TheVariants.{Insert};
ghost use Rattle.row_tables.specs.Layers.{sight, IsOnlyWriterAt, IsOnlyWriterIn};
ghost use Rattle.statement_evaluation.specs.Effect as spec;
ghost use Rattle.statement_evaluation.specs.Borrowed.{effect_at};
ghost use Rattle.statement_execution.specs.Run.{SeesAlone};
ghost use Rattle.statement_execution.specs.Seen.{named, number_after, KeysAlone};

use crate::sights::Sight;
use events::{Event, Fault};
use finite_maps::Fork;
use lock_modes::{Row, Value};
use statement_evaluation::{Given, ValueRef, Write, Writes, telling};
use std::alloc::{AllocError, Global};
use version_tree::VMap;

/// How many rows are made, or a fault where a key is there already or comes twice.
pub(crate) fn inserted(alloc: Global, writes: Option<Writes>) -> Given
    ensures { effect_at result ≡ spec.or_fault Duplicate writes Inserted }
{
    let Some(writes) = writes else {
        return Given::Failed(Fault::Duplicate);
    };
    let event = Event::Inserted(writes.len() as u64);
    telling(alloc, event, writes)
}

/// The writes of new rows, or none where a key is there already or comes twice.
pub(crate) fn made<'a, S: Sight<'a>>(
    alloc: Global,
    rows: S,
    session: u8,
    table: u16,
    key_column: Option<u16>,
    new: &[Row],
) -> Result<Option<Writes>, AllocError>
    requires { SeesAlone session (Insert table key_column new.now) (S.layers rows) }
    ensures { IfOk result (λ writes. spec.or_fault Duplicate writes Inserted ≡ spec.effect (Insert table key_column new.now) (sight session (S.layers rows))) }
{
    match key_column {
        Some(key_column) => placed(alloc, rows, session, table, key_column, new),
        None => Ok(Some(numbered(alloc, rows, session, table, new)?)),
    }
}

/// The writes of new rows at their keys, or none where a key is there already or comes twice.
fn placed<'a, S: Sight<'a>>(
    alloc: Global,
    rows: S,
    session: u8,
    table: u16,
    key_column: u16,
    new: &[Row],
) -> Result<Option<Writes>, AllocError>
    requires { KeysAlone session table key_column new.now (S.layers rows) }
    ensures { IfOk result (λ writes. writes ≡ spec.placed table key_column new.now (sight session (S.layers rows))) }
{
    let mut writes = Writes::new(alloc);
    // The keys of the rows so far. What they lead to does not matter.
    let mut keys = VMap::new(alloc);
    for row in new {
        let key = ValueRef::in_column(row, key_column).to_value()?;
        if is_taken(rows, session, table, &key, &keys) {
            return Ok(None);
        }
        writes.push(Write::new(table, key.fork()?, Some(row.fork()?)))?;
        keys = keys.put(key, 0u8)?;
    }
    Ok(Some(writes))
}

/// Whether a key is there or came before.
fn is_taken<'a, S: Sight<'a>>(
    rows: S,
    session: u8,
    table: u16,
    key: &Value,
    keys: &VMap<Value, u8>,
) -> bool
    requires { IsOnlyWriterAt session (table, key.now) (S.layers rows) }
    ensures { result ≡ (is_some (get (sight session (S.layers rows)) (table, key.now)) || is_some (find value_cmp key.now keys.now)) }
{
    rows.read(session, table, key).is_some() || keys.get(key).is_some()
}

/// The writes of new rows whose keys are numbers one after another, the first one more than the greatest that is there, or 1.
fn numbered<'a, S: Sight<'a>>(
    alloc: Global,
    rows: S,
    session: u8,
    table: u16,
    new: &[Row],
) -> Result<Writes, AllocError>
    requires { IsOnlyWriterIn session table (S.layers rows) }
    ensures { IfOk result (λ writes. writes ≡ spec.numbered table (spec.next_number 1 (named table None (sight session (S.layers rows)))) new.now) }
{
    numbered_from(alloc, table, rows.next_number(session, table), new)
}

/// One more than the number that a key is, or else `next`.
pub fn number_after(key: &Value, next: u64) -> u64
    ensures { result ≡ number_after key.now next }
{
    match key {
        Value::Int(number) if *number >= 0 => *number as u64 + 1,
        _ => next,
    }
}

fn numbered_from(alloc: Global, table: u16, first: u64, new: &[Row]) -> Result<Writes, AllocError>
    ensures { IfOk result (λ writes. writes ≡ spec.numbered table first new.now) }
{
    let mut writes = Writes::new(alloc);
    let mut number = first;
    for row in new {
        // No memory has room for so many rows.
        if number > i64::MAX as u64 {
            return Err(AllocError);
        }
        writes.push(Write::new(table, Value::Int(number as i64), Some(row.fork()?)))?;
        number += 1;
    }
    Ok(writes)
}
