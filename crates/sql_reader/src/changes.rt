//! UPDATE and DELETE.

ghost use Rattle.std.specs.Prelude.{◌≡◌, ◌≤◌, length, IfOk};
ghost use Rattle.sql_grammar.specs.Lexing.{views};
ghost use Rattle.sql_grammar.specs.Tree as tree;
ghost use Rattle.sql_grammar.specs.Reading.{assignment, update, delete};
ghost use Rattle.sql_grammar.specs.Views.{Gives, view_assignment, view_update, view_delete};

use crate::conditions::maybe_where;
use crate::lists::{Item, chain};
use crate::steps::{name, skip_key, skip_sign, skip_word};
use crate::values::sum;
use sql_grammar::{Assignment, Delete, Placed, Stop, Update};
use std::alloc::Global;

fn assignment<'a, 't>(
    alloc: Global,
    tokens: &'t [Placed<'a>],
) -> Result<(Assignment, &'t [Placed<'a>]), Stop<'a>>
    ensures reads { Gives (λ x. (view_assignment x.0, views x.1.now)) result (assignment (views tokens.now)) }
    ensures shorter { IfOk result (λ x. length x.1.now ≤ length tokens.now) }
{
    let (column, rest) = name(alloc, tokens)?;
    let rest = skip_sign(rest, "=")?;
    let (value, rest) = sum(alloc, rest)?;
    Ok((Assignment { column, value }, rest))
}

impl Item for Assignment {
    ghost Seen = { tree.Assignment };

    ghost view = { view_assignment };

    ghost rule = { λ k. assignment };

    fn read<'a, 't>(
        alloc: Global,
        _number: usize,
        tokens: &'t [Placed<'a>],
    ) -> Result<(Assignment, &'t [Placed<'a>]), Stop<'a>> {
        assignment(alloc, tokens)
    }
}

/// An UPDATE, and the tokens behind it. It stops at a token that cannot stand there or passes a limit, or for want of memory.
pub(crate) fn update<'a, 't>(
    alloc: Global,
    tokens: &'t [Placed<'a>],
) -> Result<(Update, &'t [Placed<'a>]), Stop<'a>>
    ensures reads { Gives (λ x. (view_update x.0, views x.1.now)) result (update (views tokens.now)) }
    ensures shorter { IfOk result (λ x. length x.1.now ≤ length tokens.now) }
{
    let rest = skip_word(tokens, "update")?;
    let (table, rest) = name(alloc, rest)?;
    let rest = skip_key(rest, "set")?;
    let (assignments, rest) = chain::<Assignment>(alloc, ",", rest)?;
    let (condition, rest) = maybe_where(alloc, rest)?;
    Ok((
        Update {
            table,
            assignments,
            condition,
        },
        rest,
    ))
}

/// A DELETE, and the tokens behind it. It stops at a token that cannot stand there or passes a limit, or for want of memory.
pub(crate) fn delete<'a, 't>(
    alloc: Global,
    tokens: &'t [Placed<'a>],
) -> Result<(Delete, &'t [Placed<'a>]), Stop<'a>>
    ensures reads { Gives (λ x. (view_delete x.0, views x.1.now)) result (delete (views tokens.now)) }
    ensures shorter { IfOk result (λ x. length x.1.now ≤ length tokens.now) }
{
    let rest = skip_word(tokens, "delete")?;
    let rest = skip_key(rest, "from")?;
    let (table, rest) = name(alloc, rest)?;
    let (condition, rest) = maybe_where(alloc, rest)?;
    Ok((Delete { table, condition }, rest))
}
