//! SELECT.

ghost use Rattle.std.specs.Prelude.{◌≡◌, ◌≤◌, length, IfOk, codes};
ghost use Rattle.sql_grammar.specs.Lexing.{view_token, views};
ghost use Rattle.sql_grammar.specs.Tokens.{Key, Word};
ghost use Rattle.sql_grammar.specs.declared.statement.Aggregate.{Aggregate};
ghost use Rattle.sql_grammar.specs.declared.statement.SortKey.{SortKey};
ghost use Rattle.sql_grammar.specs.Reading.{count_all, sum_of, aggregate, at_aggregate, items, direction, maybe_direction, sort_key, order_part, optional, row_lock, locked_for, lock_part, select};
ghost use Rattle.sql_grammar.specs.Views.{Gives, chain_of, option_by, view_condition, view_selected, view_select};
ghost use Rattle.sql_reader.specs.Selecting as selecting;

use crate::conditions::maybe_where;
use crate::lists::{Item, chain};
use crate::steps::{
    at_key, at_sign, at_word, behind, first, maybe_nowait, name, skip_key, skip_sign, skip_word,
    taken,
};
use lock_modes::Text;
use sql_grammar::{
    Aggregate, Chain, Condition, Direction, LockedFor, Placed, RowLock, Select, Selected, SortKey,
    Stop, Token,
};
use std::alloc::Global;

fn count_all<'a, 't>(tokens: &'t [Placed<'a>]) -> Result<(Aggregate, &'t [Placed<'a>]), Stop<'a>>
    ensures reads { Gives (λ x. (x.0, views x.1.now)) result (count_all (views tokens.now)) }
    ensures shorter { IfOk result (λ x. length x.1.now ≤ length tokens.now) }
{
    let rest = skip_word(tokens, "count")?;
    let rest = skip_sign(rest, "(")?;
    let rest = skip_sign(rest, "*")?;
    let rest = skip_sign(rest, ")")?;
    Ok((Aggregate::Count, rest))
}

fn sum_of<'a, 't>(
    alloc: Global,
    tokens: &'t [Placed<'a>],
) -> Result<(Aggregate, &'t [Placed<'a>]), Stop<'a>>
    ensures reads { Gives (λ x. (x.0, views x.1.now)) result (sum_of (views tokens.now)) }
    ensures shorter { IfOk result (λ x. length x.1.now ≤ length tokens.now) }
{
    let rest = skip_word(tokens, "sum")?;
    let rest = skip_sign(rest, "(")?;
    let (column, rest) = name(alloc, rest)?;
    let rest = skip_sign(rest, ")")?;
    Ok((Aggregate::Total(column), rest))
}

fn aggregate<'a, 't>(
    alloc: Global,
    tokens: &'t [Placed<'a>],
) -> Result<(Aggregate, &'t [Placed<'a>]), Stop<'a>>
    ensures reads { Gives (λ x. (x.0, views x.1.now)) result (aggregate (views tokens.now)) }
    ensures shorter { IfOk result (λ x. length x.1.now ≤ length tokens.now) }
{
    if at_word(tokens, "count") {
        count_all(tokens)
    } else {
        sum_of(alloc, tokens)
    }
}

impl Item for Aggregate {
    ghost Seen = { Aggregate };

    ghost view = { λ x. x };

    ghost rule = { λ k. aggregate };

    fn read<'a, 't>(
        alloc: Global,
        _number: usize,
        tokens: &'t [Placed<'a>],
    ) -> Result<(Aggregate, &'t [Placed<'a>]), Stop<'a>> {
        aggregate(alloc, tokens)
    }
}

/// Whether `count` or `sum` stands here with a parenthesis behind it.
fn at_aggregate(tokens: &[Placed]) -> bool
    ensures { result ≡ at_aggregate (views tokens.now) }
{
    (at_word(tokens, "count") || at_word(tokens, "sum")) && at_sign(behind(tokens), "(")
}

fn items<'a, 't>(
    alloc: Global,
    tokens: &'t [Placed<'a>],
) -> Result<(Selected, &'t [Placed<'a>]), Stop<'a>>
    ensures reads { Gives (λ x. (view_selected x.0, views x.1.now)) result (items (views tokens.now)) }
    ensures shorter { IfOk result (λ x. length x.1.now ≤ length tokens.now) }
{
    if at_sign(tokens, "*") {
        let rest = skip_sign(tokens, "*")?;
        Ok((Selected::All(None), rest))
    } else if at_aggregate(tokens) {
        let (aggregates, rest) = chain::<Aggregate>(alloc, ",", tokens)?;
        Ok((Selected::Aggregates(aggregates), rest))
    } else {
        let (columns, rest) = chain::<Text>(alloc, ",", tokens)?;
        Ok((Selected::Columns(columns, None), rest))
    }
}

fn direction(token: &Token) -> Option<Direction>
    ensures { result ≡ direction (view_token token.now) }
{
    if token.is_key("asc") {
        Some(Direction::Ascending)
    } else if token.is_key("desc") {
        Some(Direction::Descending)
    } else {
        None
    }
}

fn maybe_direction<'a, 't>(
    tokens: &'t [Placed<'a>],
) -> Result<(Option<Direction>, &'t [Placed<'a>]), Stop<'a>>
    ensures reads { Gives (λ x. (x.0, views x.1.now)) result (maybe_direction (views tokens.now)) }
    ensures shorter { IfOk result (λ x. length x.1.now ≤ length tokens.now) }
{
    match direction(&first(tokens).token) {
        Some(direction) => Ok((Some(direction), behind(tokens))),
        None => Ok((None, tokens)),
    }
}

fn sort_key<'a, 't>(
    alloc: Global,
    tokens: &'t [Placed<'a>],
) -> Result<(SortKey, &'t [Placed<'a>]), Stop<'a>>
    ensures reads { Gives (λ x. (x.0, views x.1.now)) result (sort_key (views tokens.now)) }
    ensures shorter { IfOk result (λ x. length x.1.now ≤ length tokens.now) }
{
    let (column, rest) = name(alloc, tokens)?;
    let (direction, rest) = maybe_direction(rest)?;
    Ok((SortKey { column, direction }, rest))
}

impl Item for SortKey {
    ghost Seen = { SortKey };

    ghost view = { λ x. x };

    ghost rule = { λ k. sort_key };

    fn read<'a, 't>(
        alloc: Global,
        _number: usize,
        tokens: &'t [Placed<'a>],
    ) -> Result<(SortKey, &'t [Placed<'a>]), Stop<'a>> {
        sort_key(alloc, tokens)
    }
}

fn order_part<'a, 't>(
    alloc: Global,
    tokens: &'t [Placed<'a>],
) -> Result<(Chain<SortKey>, &'t [Placed<'a>]), Stop<'a>>
    ensures reads { Gives (λ x. (chain_of x.0, views x.1.now)) result (order_part (views tokens.now)) }
    ensures shorter { IfOk result (λ x. length x.1.now ≤ length tokens.now) }
{
    let rest = skip_key(tokens, "order")?;
    let rest = skip_key(rest, "by")?;
    chain::<SortKey>(alloc, ",", rest)
}

fn maybe_order<'a, 't>(
    alloc: Global,
    tokens: &'t [Placed<'a>],
) -> Result<(Option<Chain<SortKey>>, &'t [Placed<'a>]), Stop<'a>>
    ensures reads { Gives (λ x. (option_by chain_of x.0, views x.1.now)) result (optional (Key (codes "order")) order_part (views tokens.now)) }
    ensures shorter { IfOk result (λ x. length x.1.now ≤ length tokens.now) }
{
    if at_key(tokens, "order") {
        let (order, rest) = order_part(alloc, tokens)?;
        Ok((Some(order), rest))
    } else {
        Ok((None, tokens))
    }
}

fn locked_for(token: &Token) -> Option<LockedFor>
    ensures { result ≡ locked_for (view_token token.now) }
{
    if token.is_word("update") {
        Some(LockedFor::Update)
    } else if token.is_word("share") {
        Some(LockedFor::Share)
    } else {
        None
    }
}

fn row_lock<'a, 't>(tokens: &'t [Placed<'a>]) -> Result<(RowLock, &'t [Placed<'a>]), Stop<'a>>
    ensures reads { Gives (λ x. (x.0, views x.1.now)) result (row_lock (views tokens.now)) }
    ensures shorter { IfOk result (λ x. length x.1.now ≤ length tokens.now) }
{
    let rest = skip_word(tokens, "for")?;
    let (locked_for, rest) = taken(locked_for(&first(rest).token), rest)?;
    let (nowait, rest) = maybe_nowait(rest)?;
    Ok((RowLock { locked_for, nowait }, rest))
}

fn maybe_lock<'a, 't>(
    tokens: &'t [Placed<'a>],
) -> Result<(Option<RowLock>, &'t [Placed<'a>]), Stop<'a>>
    ensures reads { Gives (λ x. (x.0, views x.1.now)) result (optional (Word (codes "for")) row_lock (views tokens.now)) }
    ensures shorter { IfOk result (λ x. length x.1.now ≤ length tokens.now) }
{
    if at_word(tokens, "for") {
        let (lock, rest) = row_lock(tokens)?;
        Ok((Some(lock), rest))
    } else {
        Ok((None, tokens))
    }
}

/// The lock that a SELECT of these items may end with.
fn lock_part<'a, 't>(
    items: &Selected,
    tokens: &'t [Placed<'a>],
) -> Result<(Option<RowLock>, &'t [Placed<'a>]), Stop<'a>>
    ensures reads { Gives (λ x. (x.0, views x.1.now)) result (lock_part (view_selected items.now) (views tokens.now)) }
    ensures shorter { IfOk result (λ x. length x.1.now ≤ length tokens.now) }
{
    match items {
        Selected::All(_) | Selected::Columns(_, _) => maybe_lock(tokens),
        Selected::Aggregates(_) => Ok((None, tokens)),
    }
}

/// A SELECT of these items that locks its rows so; behind aggregates there is no lock.
fn select_of(
    items: Selected,
    table: Text,
    condition: Option<Condition>,
    order: Option<Chain<SortKey>>,
    lock: Option<RowLock>,
) -> Select
    ensures { view_select result ≡ selecting.select_of (view_selected items) table (option_by view_condition condition) (option_by chain_of order) lock }
{
    let items = match items {
        Selected::All(_) => Selected::All(lock),
        Selected::Columns(columns, _) => Selected::Columns(columns, lock),
        Selected::Aggregates(aggregates) => Selected::Aggregates(aggregates),
    };
    Select {
        items,
        table,
        condition,
        order,
    }
}

// In three functions, since what is read has to be let go wherever the reading may stop.
fn select_by<'a, 't>(
    alloc: Global,
    items: Selected,
    table: Text,
    tokens: &'t [Placed<'a>],
) -> Result<(Select, &'t [Placed<'a>]), Stop<'a>>
    ensures reads { Gives (λ x. (view_select x.0, views x.1.now)) result (selecting.select_by (view_selected items) table (views tokens.now)) }
    ensures shorter { IfOk result (λ x. length x.1.now ≤ length tokens.now) }
{
    let (condition, rest) = maybe_where(alloc, tokens)?;
    let (order, rest) = maybe_order(alloc, rest)?;
    let (lock, rest) = lock_part(&items, rest)?;
    Ok((select_of(items, table, condition, order, lock), rest))
}

fn select_from<'a, 't>(
    alloc: Global,
    items: Selected,
    tokens: &'t [Placed<'a>],
) -> Result<(Select, &'t [Placed<'a>]), Stop<'a>>
    ensures reads { Gives (λ x. (view_select x.0, views x.1.now)) result (selecting.select_from (view_selected items) (views tokens.now)) }
    ensures shorter { IfOk result (λ x. length x.1.now ≤ length tokens.now) }
{
    let rest = skip_key(tokens, "from")?;
    let (table, rest) = name(alloc, rest)?;
    select_by(alloc, items, table, rest)
}

/// A SELECT, and the tokens behind it. It stops at a token that cannot stand there or passes a limit, or for want of memory.
pub(crate) fn select<'a, 't>(
    alloc: Global,
    tokens: &'t [Placed<'a>],
) -> Result<(Select, &'t [Placed<'a>]), Stop<'a>>
    ensures reads { Gives (λ x. (view_select x.0, views x.1.now)) result (select (views tokens.now)) }
    ensures shorter { IfOk result (λ x. length x.1.now ≤ length tokens.now) }
{
    let rest = skip_key(tokens, "select")?;
    let (items, rest) = items(alloc, rest)?;
    select_from(alloc, items, rest)
}
