//! Binds UPDATE and DELETE.

ghost use Rattle.std.specs.Prelude.{◌≡◌, ℕ, ◌∷◌, IfOk};
ghost use Rattle.std.specs.List.{list_any};
ghost use Rattle.bound_statements.specs.declared.statement.Bound.TheVariants as variants;
ghost use Rattle.sql_grammar.specs.Views.{chain_by, option_by, view_assignment, view_condition};
ghost use Rattle.binding_model.specs.Refusals.{Binds, each};
ghost use Rattle.binding_model.specs.Statements as spec;
ghost use Rattle.binding_model.specs.Types as types;

use crate::conditions::where_of;
use crate::expressions::expression;
use crate::inserts::repeats;
use crate::keys::key_of;
use crate::types::{assignment_mixes, condition_mixes};
use binding_model::{BindErrorKind, BindStop, Table, refused};
use bound_statements::{Assignment, Bound, Condition};
use lock_modes::Value;
use sql_grammar::{Assignment as AssignmentText, Chain, Delete, Update};
use sqlite_items::Items;
use std::alloc::{AllocError, Global};

fn assignment(
    alloc: Global,
    table: &Table,
    at: usize,
    text: &AssignmentText,
) -> Result<Assignment, BindStop>
    ensures { Binds (λ a. a) result (spec.assignment table.now at (view_assignment text.now)) }
{
    let column = table.column(at, text.column.as_str())?;
    let value = expression(alloc, table, at, &text.value)?;
    Ok(Assignment { column, value })
}

fn assignments(
    alloc: Global,
    table: &Table,
    at: usize,
    texts: &Chain<AssignmentText>,
) -> Result<Vec<Assignment>, BindStop>
    ensures { Binds (λ all. all.items) result (each (λ a. spec.assignment table.now at (view_assignment a)) (texts.now.first ∷ texts.now.more)) }
{
    let mut all = Vec::new(alloc);
    all.push(assignment(alloc, table, at, &texts.first)?)?;
    for text in texts.more.as_slice() {
        all.push(assignment(alloc, table, at, text)?)?;
    }
    Ok(all)
}

/// The columns that are set.
fn set_columns(alloc: Global, sets: &[Assignment]) -> Result<Vec<u16>, AllocError>
    ensures { IfOk result (λ all. all.items ≡ spec.set_columns sets.now) }
{
    let mut all = Vec::new(alloc);
    for set in sets {
        all.push(set.column)?;
    }
    Ok(all)
}

fn sets_column(column: u16, sets: &[Assignment]) -> bool
    ensures { result ≡ spec.sets_column column sets.now }
{
    sets.iter().any(|set| set.column == column)
}

fn sets_key(key: Option<u16>, sets: &[Assignment]) -> bool
    ensures { result ≡ spec.sets_key key sets.now }
{
    match key {
        Some(key) => sets_column(key, sets),
        None => false,
    }
}

fn sets_mix(table: &Table, sets: &[Assignment]) -> bool
    ensures { result ≡ list_any (types.assignment_mixes table.now) sets.now }
{
    sets.iter().any(|set| assignment_mixes(table, set))
}

/// The key that an UPDATE names, where it is not refused.
fn updated_key(
    alloc: Global,
    table: &Table,
    at: usize,
    sets: &[Assignment],
    condition: &Condition,
) -> Result<Option<Value>, BindStop>
    ensures { (number : ℕ) → Binds (λ key. variants.Update number key sets.now condition.now) result (spec.update_rows table.now at number sets.now condition.now) }
{
    if sets_mix(table, sets) || condition_mixes(table, condition) {
        return Err(refused(at, BindErrorKind::TypeMismatch));
    }
    if sets_key(table.key(), sets) {
        return Err(refused(at, BindErrorKind::KeyChanged));
    }
    if repeats(&set_columns(alloc, sets)?) {
        return Err(refused(at, BindErrorKind::WrongCount));
    }
    Ok(key_of(table.key(), condition)?)
}

fn update_rows(
    alloc: Global,
    table: &Table,
    at: usize,
    number: u16,
    sets: Vec<Assignment>,
    condition: Condition,
) -> Result<Bound, BindStop>
    ensures { Binds (λ bound. bound) result (spec.update_rows table.now at number sets.items condition) }
{
    let key = updated_key(alloc, table, at, &sets, &condition)?;
    Ok(Bound::Update(number, key, Items::from_vec(sets), condition))
}

/// Binds an UPDATE that begins at this offset.
#[tactic(auto, using(crate::proofs::ChainLemmas::chains))]
pub(crate) fn update(
    alloc: Global,
    table: &Table,
    at: usize,
    number: u16,
    statement: &Update,
) -> Result<Bound, BindStop>
    ensures { Binds (λ bound. bound) result
        (spec.update table.now at number (chain_by view_assignment statement.now.assignments) (option_by view_condition statement.now.condition)) }
{
    let sets = assignments(alloc, table, at, &statement.assignments)?;
    let condition = where_of(alloc, table, at, &statement.condition)?;
    update_rows(alloc, table, at, number, sets, condition)
}

/// The key that a DELETE names, where it is not refused.
fn deleted_key(table: &Table, at: usize, condition: &Condition) -> Result<Option<Value>, BindStop>
    ensures { (number : ℕ) → Binds (λ key. variants.Delete number key condition.now) result (spec.delete_rows table.now at number condition.now) }
{
    if condition_mixes(table, condition) {
        return Err(refused(at, BindErrorKind::TypeMismatch));
    }
    Ok(key_of(table.key(), condition)?)
}

fn delete_rows(
    table: &Table,
    at: usize,
    number: u16,
    condition: Condition,
) -> Result<Bound, BindStop>
    ensures { Binds (λ bound. bound) result (spec.delete_rows table.now at number condition) }
{
    let key = deleted_key(table, at, &condition)?;
    Ok(Bound::Delete(number, key, condition))
}

/// Binds a DELETE that begins at this offset.
pub(crate) fn delete(
    alloc: Global,
    table: &Table,
    at: usize,
    number: u16,
    statement: &Delete,
) -> Result<Bound, BindStop>
    ensures { Binds (λ bound. bound) result (spec.delete table.now at number (option_by view_condition statement.now.condition)) }
{
    let condition = where_of(alloc, table, at, &statement.condition)?;
    delete_rows(table, at, number, condition)
}
