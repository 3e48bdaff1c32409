//! INSERT.

ghost use Rattle.std.specs.Prelude.{◌≡◌, ◌≤◌, ◌+◌, suc, length, IfOk, codes};
ghost use Rattle.sql_grammar.specs.Lexing.{views};
ghost use Rattle.sql_grammar.specs.Tokens.{Sign};
ghost use Rattle.sql_grammar.specs.Tree as tree;
ghost use Rattle.sql_grammar.specs.declared.expression.Literal.{Literal};
ghost use Rattle.sql_grammar.specs.Reading.{names_part, optional, literal, row, insert};
ghost use Rattle.sql_grammar.specs.Views.{Gives, chain_of, option_by, view_insert};

use crate::lists::{Item, chain};
use crate::steps::{at_sign, first, name, skip_key, skip_sign, skip_word};
use crate::values::literal;
use lock_modes::Text;
use sql_grammar::{Chain, Insert, Limit, Literal, MAX_ROWS, Placed, Stop, Why};
use std::alloc::Global;

fn names_part<'a, 't>(
    alloc: Global,
    tokens: &'t [Placed<'a>],
) -> Result<(Chain<Text>, &'t [Placed<'a>]), Stop<'a>>
    ensures reads { Gives (λ x. (chain_of x.0, views x.1.now)) result (names_part (views tokens.now)) }
    ensures shorter { IfOk result (λ x. length x.1.now ≤ length tokens.now) }
{
    let rest = skip_sign(tokens, "(")?;
    let (names, rest) = chain::<Text>(alloc, ",", rest)?;
    let rest = skip_sign(rest, ")")?;
    Ok((names, rest))
}

fn maybe_names<'a, 't>(
    alloc: Global,
    tokens: &'t [Placed<'a>],
) -> Result<(Option<Chain<Text>>, &'t [Placed<'a>]), Stop<'a>>
    ensures reads { Gives (λ x. (option_by chain_of x.0, views x.1.now)) result (optional (Sign (codes "(")) names_part (views tokens.now)) }
    ensures shorter { IfOk result (λ x. length x.1.now ≤ length tokens.now) }
{
    if at_sign(tokens, "(") {
        let (names, rest) = names_part(alloc, tokens)?;
        Ok((Some(names), rest))
    } else {
        Ok((None, tokens))
    }
}

impl Item for Literal {
    ghost Seen = { Literal };

    ghost view = { λ x. x };

    ghost rule = { λ k. literal };

    fn read<'a, 't>(
        alloc: Global,
        _number: usize,
        tokens: &'t [Placed<'a>],
    ) -> Result<(Literal, &'t [Placed<'a>]), Stop<'a>> {
        literal(alloc, tokens)
    }
}

/// The row of this number, from 0.
fn row<'a, 't>(
    alloc: Global,
    number: usize,
    tokens: &'t [Placed<'a>],
) -> Result<(Chain<Literal>, &'t [Placed<'a>]), Stop<'a>>
    ensures reads { Gives (λ x. (chain_of x.0, views x.1.now)) result (row number (views tokens.now)) }
    ensures shorter { IfOk result (λ x. length x.1.now ≤ length tokens.now) }
{
    if at_sign(tokens, "(") && number >= MAX_ROWS {
        return Err(Stop::At(Why::Passes(Limit::TooLarge), first(tokens)));
    }
    let rest = skip_sign(tokens, "(")?;
    let (row, rest) = chain::<Literal>(alloc, ",", rest)?;
    let rest = skip_sign(rest, ")")?;
    Ok((row, rest))
}

impl Item for Chain<Literal> {
    ghost Seen = { tree.Chain Literal };

    ghost view = { chain_of };

    ghost rule = { row };

    fn read<'a, 't>(
        alloc: Global,
        number: usize,
        tokens: &'t [Placed<'a>],
    ) -> Result<(Chain<Literal>, &'t [Placed<'a>]), Stop<'a>> {
        row(alloc, number, tokens)
    }
}

/// An INSERT, and the tokens behind it. It stops at a token that cannot stand there or passes a limit, or for want of memory.
pub(crate) fn insert<'a, 't>(
    alloc: Global,
    tokens: &'t [Placed<'a>],
) -> Result<(Insert, &'t [Placed<'a>]), Stop<'a>>
    ensures reads { Gives (λ x. (view_insert x.0, views x.1.now)) result (insert (views tokens.now)) }
    ensures shorter { IfOk result (λ x. length x.1.now ≤ length tokens.now) }
{
    let rest = skip_word(tokens, "insert")?;
    let rest = skip_key(rest, "into")?;
    let (table, rest) = name(alloc, rest)?;
    let (columns, rest) = maybe_names(alloc, rest)?;
    let rest = skip_key(rest, "values")?;
    let (rows, rest) = chain::<Chain<Literal>>(alloc, ",", rest)?;
    Ok((
        Insert {
            table,
            columns,
            rows,
        },
        rest,
    ))
}
