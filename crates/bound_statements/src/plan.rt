//! Lock plans.

ghost use Rattle.std.specs.Prelude.{◌≡◌, All, map, slice_get};
ghost use Rattle.std.specs.Option.{option_map, option_copied};
ghost use Rattle.lock_modes.specs.Resource.{resource_at};
ghost use Rattle.bound_statements.specs.Plan.{request, plan, table_plan, row_plan, insert_plan, key_lock, select_intent, select_mode, HasKeys, HasKey};
ghost use Rattle.bound_statements.specs.Plan as spec;
ghost use Rattle.bound_statements.specs.Levels as levels;
ghost use Rattle.bound_statements.specs.Levels.{at_level, is_committed};

use crate::statement::{Bound, Level, RowLock};
use lock_modes::{Mode, Place, Row, Value};

/// The request with this number of a statement's lock plan, in the order in which the statement asks for locks. None from their number on.
pub fn lock_plan(statement: &Bound, number: u8) -> Option<(Place<'_>, Mode)>
    requires { HasKeys statement.now }
    ensures { option_map (λ r. request (resource_at r.0) r.1) result ≡ slice_get (plan statement.now) number }
{
    match statement {
        Bound::Select(table, key, _, _, _, lock) => row_request(
            *table,
            key.as_ref(),
            select_intent(*lock),
            select_mode(*lock),
            number,
        ),
        Bound::Insert(table, Some(column), rows) => insert_request(
            *table,
            *column,
            rows.as_slice(),
            number,
        ),
        Bound::Insert(table, None, _) => table_request(*table, Mode::Exclusive, number),
        Bound::Update(table, key, ..) => row_request(
            *table,
            key.as_ref(),
            Mode::IntentExclusive,
            Mode::Exclusive,
            number,
        ),
        Bound::Delete(table, key, _) => row_request(
            *table,
            key.as_ref(),
            Mode::IntentExclusive,
            Mode::Exclusive,
            number,
        ),
        Bound::Lock(table, mode, _) => table_request(*table, *mode, number),
        Bound::Begin(_) | Bound::Commit | Bound::Rollback | Bound::SetVariable => None,
    }
}

/// Whether the requests of a statement refuse to wait.
pub fn nowait(statement: &Bound) -> bool
    ensures { result ≡ spec.nowait statement.now }
{
    match statement {
        Bound::Select(_, _, _, _, _, lock) => lock.nowait,
        Bound::Lock(_, _, nowait) => *nowait,
        Bound::Insert(_, _, _)
        | Bound::Update(_, _, _, _)
        | Bound::Delete(_, _, _)
        | Bound::Begin(_)
        | Bound::Commit
        | Bound::Rollback
        | Bound::SetVariable => false,
    }
}

/// Whether the statement asks for none of its plan, as a plain select at READ COMMITTED.
pub fn is_unlocked(statement: &Bound) -> bool
    ensures { result ≡ levels.is_unlocked statement.now }
{
    match statement {
        Bound::Select(_, _, _, _, _, lock) => is_committed(lock.level),
        _ => false,
    }
}

/// The same in a block of a level.
pub fn is_unlocked_at(level: Level, statement: &Bound) -> bool
    ensures { result ≡ levels.is_unlocked (at_level level statement.now) }
{
    match statement {
        Bound::Select(_, _, _, _, _, lock) => is_committed(lock.at(Some(level)).level),
        _ => false,
    }
}

fn is_committed(level: Option<Level>) -> bool
    ensures { result ≡ is_committed level }
{
    match level {
        None | Some(Level::Serializable) => false,
        Some(Level::Committed) => true,
    }
}

/// What a select that names one row by its key asks for on the table.
fn select_intent(lock: RowLock) -> Mode
    ensures { result ≡ select_intent lock.exclusive }
{
    if lock.exclusive {
        Mode::IntentExclusive
    } else {
        Mode::IntentShare
    }
}

/// What a select asks for on the row that it names, or else on the table.
fn select_mode(lock: RowLock) -> Mode
    ensures { result ≡ select_mode lock.exclusive }
{
    if lock.exclusive {
        Mode::Exclusive
    } else {
        Mode::Share
    }
}

/// The only request on a table as a whole.
fn table_request(table: u16, mode: Mode, number: u8) -> Option<(Place<'static>, Mode)>
    ensures { option_map (λ r. request (resource_at r.0) r.1) result ≡ slice_get (table_plan table mode) number }
{
    match number {
        0 => Some((Place::Table(table), mode)),
        _ => None,
    }
}

/// The requests of a statement that names one row by its key, or else looks at all rows of its table.
fn row_request(
    table: u16,
    key: Option<&Value>,
    intent: Mode,
    mode: Mode,
    number: u8,
) -> Option<(Place<'_>, Mode)>
    ensures { option_map (λ r. request (resource_at r.0) r.1) result ≡ slice_get (row_plan table (option_copied key.entry) intent mode) number }
{
    match (key, number) {
        (Some(_), 0) => Some((Place::Table(table), intent)),
        (Some(key), 1) => Some((Place::Row(table, key), mode)),
        (Some(_), _) => None,
        (None, _) => table_request(table, mode, number),
    }
}

/// The requests of an insert into a table with a key.
fn insert_request(table: u16, column: u16, rows: &[Row], number: u8) -> Option<(Place<'_>, Mode)>
    requires { All (HasKey column) rows.now }
    ensures { option_map (λ r. request (resource_at r.0) r.1) result ≡ slice_get (insert_plan table column rows.now) number }
{
    match number {
        0 => Some((Place::Table(table), Mode::IntentExclusive)),
        _ => key_request(table, column, rows, number as usize - 1),
    }
}

/// The request for the key of the row at this place.
fn key_request(table: u16, column: u16, rows: &[Row], at: usize) -> Option<(Place<'_>, Mode)>
    requires { All (HasKey column) rows.now }
    ensures { option_map (λ r. request (resource_at r.0) r.1) result ≡ slice_get (map (key_lock table column) rows.now) at }
{
    let row = rows.get(at)?;
    let key = &row.values()[column as usize];
    Some((Place::Row(table, key), Mode::Exclusive))
}
