//! Binds SELECT.

ghost use Rattle.std.specs.Prelude.{◌≡◌, ℕ, List};
ghost use Rattle.bound_statements.specs.declared.statement.Bound.TheVariants as variants;
ghost use Rattle.bound_statements.specs.declared.statement.SortKey.{SortKey as Sorted};
ghost use Rattle.sql_grammar.specs.Views.{chain_of, option_by, view_selected, view_lock_of, view_condition};
ghost use Rattle.binding_model.specs.Names.{list_of};
ghost use Rattle.binding_model.specs.Refusals.{Binds, each};
ghost use Rattle.binding_model.specs.Statements as spec;
ghost use Rattle.sql_grammar.specs.Tree.{written_lock};
ghost use Rattle.bound_statements.specs.declared.statement.RowLock.{RowLock as Lock};

use crate::conditions::where_of;
use crate::inserts::{all_columns, columns};
use crate::keys::key_of;
use crate::types::{condition_mixes, output_mixes};
use binding_model::{BindErrorKind, BindStop, Table, refused};
use bound_statements::{Aggregate, Bound, Condition, Level, Order, Output, RowLock, SortKey};
use lock_modes::Value;
use sql_grammar::{
    Aggregate as AggregateText, Chain, Direction, LockedFor, RowLock as RowLockText, Select,
    Selected, SortKey as SortKeyText,
};
use sqlite_items::Items;
use std::alloc::Global;

fn aggregate(table: &Table, at: usize, text: &AggregateText) -> Result<Aggregate, BindStop>
    ensures { Binds (λ a. a) result (spec.aggregate table.now at text.now) }
{
    match text {
        AggregateText::Count => Ok(Aggregate::Count),
        AggregateText::Total(name) => Ok(Aggregate::Sum(table.column(at, name.as_str())?)),
    }
}

#[tactic(auto, using(crate::proofs::ChainLemmas::chains))]
fn aggregates(
    alloc: Global,
    table: &Table,
    at: usize,
    texts: &Chain<AggregateText>,
) -> Result<Vec<Aggregate>, BindStop>
    ensures { Binds (λ all. all.items) result (each (spec.aggregate table.now at) (list_of (chain_of texts.now))) }
{
    let mut all = Vec::new(alloc);
    all.push(aggregate(table, at, &texts.first)?)?;
    for text in texts.more.as_slice() {
        all.push(aggregate(table, at, text)?)?;
    }
    Ok(all)
}

fn output(alloc: Global, table: &Table, at: usize, selected: &Selected) -> Result<Output, BindStop>
    ensures { Binds (λ output. output) result (spec.output table.now at (view_selected selected.now)) }
{
    match selected {
        Selected::All(_) => Ok(Output::Columns(Items::from_vec(all_columns(alloc, table)?))),
        Selected::Columns(names, _) => Ok(Output::Columns(Items::from_vec(columns(
            alloc, table, at, names,
        )?))),
        Selected::Aggregates(texts) => Ok(Output::Aggregates(Items::from_vec(aggregates(
            alloc, table, at, texts,
        )?))),
    }
}

fn order_of(direction: Option<Direction>) -> Order
    ensures { result ≡ spec.order_of direction }
{
    match direction {
        None | Some(Direction::Ascending) => Order::Rises,
        Some(Direction::Descending) => Order::Falls,
    }
}

fn sort_key(table: &Table, at: usize, text: &SortKeyText) -> Result<SortKey, BindStop>
    ensures { Binds (λ key. key) result (spec.sort_key table.now at text.now) }
{
    let column = table.column(at, text.column.as_str())?;
    Ok(SortKey {
        column,
        order: order_of(text.direction),
    })
}

#[tactic(auto, using(crate::proofs::ChainLemmas::chains))]
fn keys(
    alloc: Global,
    table: &Table,
    at: usize,
    texts: &Chain<SortKeyText>,
) -> Result<Vec<SortKey>, BindStop>
    ensures { Binds (λ all. all.items) result (each (spec.sort_key table.now at) (list_of (chain_of texts.now))) }
{
    let mut all = Vec::new(alloc);
    all.push(sort_key(table, at, &texts.first)?)?;
    for text in texts.more.as_slice() {
        all.push(sort_key(table, at, text)?)?;
    }
    Ok(all)
}

fn sort_keys(
    alloc: Global,
    table: &Table,
    at: usize,
    order: &Option<Chain<SortKeyText>>,
) -> Result<Items<SortKey>, BindStop>
    ensures { Binds (λ all. all) result (spec.sort_keys table.now at (option_by chain_of order.now)) }
{
    match order {
        Some(texts) => Ok(Items::from_vec(keys(alloc, table, at, texts)?)),
        None => Ok(Items::new(alloc)),
    }
}

/// The key that a SELECT names, where it is not refused.
fn selected_key(
    table: &Table,
    at: usize,
    output: &Output,
    condition: &Condition,
) -> Result<Option<Value>, BindStop>
    ensures { (number : ℕ) → (order : List Sorted) → (lock : Lock) →
        Binds (λ key. variants.Select number key condition.now order output.now lock) result (spec.select_rows table.now at number output.now order lock condition.now) }
{
    if output_mixes(table, output) || condition_mixes(table, condition) {
        return Err(refused(at, BindErrorKind::TypeMismatch));
    }
    Ok(key_of(table.key(), condition)?)
}

/// How a SELECT of these items locks its rows.
fn lock_of(selected: &Selected) -> RowLock
    ensures { result ≡ spec.lock_of (written_lock (view_selected selected.now) (view_lock_of selected.now)) }
{
    match selected {
        Selected::All(lock) => written_lock_of(*lock),
        Selected::Columns(_, lock) => written_lock_of(*lock),
        Selected::Aggregates(_) => written_lock_of(None),
    }
}

fn written_lock_of(lock: Option<RowLockText>) -> RowLock
    ensures { result ≡ spec.lock_of lock }
{
    match lock {
        None => RowLock {
            exclusive: false,
            nowait: false,
            level: Some(Level::Serializable),
        },
        Some(lock) => RowLock {
            exclusive: is_update(lock.locked_for),
            nowait: lock.nowait,
            level: None,
        },
    }
}

fn is_update(locked_for: LockedFor) -> bool
    ensures { result ≡ spec.is_update locked_for }
{
    match locked_for {
        LockedFor::Update => true,
        LockedFor::Share => false,
    }
}

fn select_rows(
    table: &Table,
    at: usize,
    number: u16,
    output: Output,
    order: Items<SortKey>,
    lock: RowLock,
    condition: Condition,
) -> Result<Bound, BindStop>
    ensures { Binds (λ bound. bound) result (spec.select_rows table.now at number output order lock condition) }
{
    let key = selected_key(table, at, &output, &condition)?;
    Ok(Bound::Select(number, key, condition, order, output, lock))
}

/// Binds a SELECT that begins at this offset.
pub(crate) fn select(
    alloc: Global,
    table: &Table,
    at: usize,
    number: u16,
    statement: &Select,
) -> Result<Bound, BindStop>
    ensures { Binds (λ bound. bound) result (spec.select table.now at number
        (record {
          items = view_selected statement.now.items;
          table = statement.now.table;
          where' = option_by view_condition statement.now.condition;
          order = option_by chain_of statement.now.order;
          lock = view_lock_of statement.now.items;
        })) }
{
    let output = output(alloc, table, at, &statement.items)?;
    let order = sort_keys(alloc, table, at, &statement.order)?;
    let condition = where_of(alloc, table, at, &statement.condition)?;
    let lock = lock_of(&statement.items);
    select_rows(table, at, number, output, order, lock, condition)
}
