//! Binds statements that are no declarations.

ghost use Rattle.std.specs.Prelude.{◌≡◌};
ghost use Rattle.sql_grammar.specs.Views.{view_form};
ghost use Rattle.binding_model.specs.Refusals.{Binds};
ghost use Rattle.binding_model.specs.Statements as spec;

use crate::changes::{delete, update};
use crate::inserts::insert;
use crate::queries::select;
use binding_model::{BindErrorKind, BindStop, Table, refused, table_named};
use bound_statements::{Bound, Level};
use lock_modes::Mode;
use sql_grammar::{EndWord, Form, Level as LevelText, LockMode, SqlErrorKind, Strength};
use std::alloc::Global;

/// The mode that LOCK TABLE asks: names and default are PostgreSQL's.
fn mode_of(mode: Option<LockMode>) -> Mode
    ensures { result ≡ spec.mode_of mode }
{
    match mode {
        None => Mode::Exclusive,
        Some(LockMode::Access(Strength::Share)) => Mode::IntentShare,
        Some(LockMode::Access(Strength::Exclusive)) => Mode::Exclusive,
        Some(LockMode::RowLevel(Strength::Share)) => Mode::IntentShare,
        Some(LockMode::RowLevel(Strength::Exclusive)) => Mode::IntentExclusive,
        Some(
            LockMode::Shared {
                row_exclusive: false,
            },
        ) => Mode::Share,
        Some(
            LockMode::Shared {
                row_exclusive: true,
            },
        ) => Mode::ShareIntent,
        Some(LockMode::Exclusively) => Mode::Exclusive,
    }
}

fn end_of(word: EndWord) -> Bound
    ensures { result ≡ spec.end_of word }
{
    match word {
        EndWord::Commit | EndWord::End => Bound::Commit,
        EndWord::Rollback | EndWord::Abort => Bound::Rollback,
    }
}

/// The level that a BEGIN names. REPEATABLE READ is SERIALIZABLE, and READ UNCOMMITTED is READ COMMITTED.
fn level_of(level: Option<LevelText>) -> Option<Level>
    ensures { result ≡ spec.level_of level }
{
    match level {
        None => None,
        Some(LevelText::Serializable | LevelText::RepeatableRead) => Some(Level::Serializable),
        Some(LevelText::Read(_)) => Some(Level::Committed),
    }
}

/// Binds a statement that begins at this offset.
pub fn statement(alloc: Global, tables: &[Table], at: usize, form: &Form) -> Result<Bound, BindStop>
    ensures { Binds (λ bound. bound) result (spec.statement tables.now at (view_form form.now)) }
{
    match form {
        Form::CreateTable(_) => Err(refused(at, BindErrorKind::Sql(SqlErrorKind::NotHere))),
        Form::Insert(text) => {
            let (number, table) = table_named(tables, at, text.table.as_str())?;
            insert(alloc, table, at, number, text)
        }
        Form::Select(text) => {
            let (number, table) = table_named(tables, at, text.table.as_str())?;
            select(alloc, table, at, number, text)
        }
        Form::Update(text) => {
            let (number, table) = table_named(tables, at, text.table.as_str())?;
            update(alloc, table, at, number, text)
        }
        Form::Delete(text) => {
            let (number, table) = table_named(tables, at, text.table.as_str())?;
            delete(alloc, table, at, number, text)
        }
        Form::Begin(text) => Ok(Bound::Begin(level_of(text.level))),
        Form::End(end) => Ok(end_of(end.word)),
        Form::Lock(text) => {
            let (number, _) = table_named(tables, at, text.table.as_str())?;
            Ok(Bound::Lock(number, mode_of(text.mode), text.nowait))
        }
        Form::Set(_) => Ok(Bound::SetVariable),
    }
}
