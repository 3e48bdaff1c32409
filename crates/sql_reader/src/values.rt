//! Literals, factors, terms and sums.

ghost use Rattle.std.specs.Prelude.{◌≡◌, ◌≤◌, length, IfOk, None, MatchOption};
ghost use Rattle.sql_grammar.specs.Lexing.{view_token, views};
ghost use Rattle.sql_grammar.specs.Grammar.{fits};
ghost use Rattle.sql_grammar.specs.declared.expression.Factor.{Factor};
ghost use Rattle.sql_grammar.specs.Reading.{first, whole, quoted_text, literal, factor, term, add_sign, sum};
ghost use Rattle.sql_grammar.specs.Views.{Gives, Passed, chain_of, view_sum};

use crate::lists::{Item, chain};
use crate::quotes::unquoted;
use crate::steps::{at_sign, behind, first, name, skip_sign};
use sql_grammar::{
    AddSign, Chain, Factor, Limit, Literal, Placed, SignedTerm, Stop, Sum, Token, Why,
};
use sqlite_items::Items;
use std::alloc::Global;

/// Whether a number of this sign is one of i64.
fn fits(negative: bool, digits: u64) -> bool
    ensures { result ≡ fits negative digits }
{
    if negative {
        digits <= 1 << 63
    } else {
        digits < 1 << 63
    }
}

/// A whole number, behind its sign.
fn whole<'a, 't>(
    negative: bool,
    tokens: &'t [Placed<'a>],
) -> Result<(Literal, &'t [Placed<'a>]), Stop<'a>>
    ensures reads { Gives (λ x. (x.0, views x.1.now)) result (whole negative (views tokens.now)) }
    ensures shorter { IfOk result (λ x. length x.1.now ≤ length tokens.now) }
{
    let here = first(tokens);
    let Token::Number(digits) = here.token else {
        return Err(Stop::At(Why::CannotStand, here));
    };
    if !fits(negative, digits) {
        return Err(Stop::At(Why::Passes(Limit::NumberTooLarge), here));
    }
    Ok((Literal::Whole { negative, digits }, behind(tokens)))
}

/// A text, as its token has it.
fn quoted_text<'a, 't>(
    alloc: Global,
    tokens: &'t [Placed<'a>],
) -> Result<(Literal, &'t [Placed<'a>]), Stop<'a>>
    ensures reads { Gives (λ x. (x.0, views x.1.now)) result (quoted_text (views tokens.now)) }
    ensures shorter { IfOk result (λ x. length x.1.now ≤ length tokens.now) }
{
    let here = first(tokens);
    let Token::Text(after) = here.token else {
        return Err(Stop::At(Why::CannotStand, here));
    };
    match unquoted(alloc, after)? {
        Some(text) => Ok((Literal::Quoted(text), behind(tokens))),
        None => Err(Stop::At(Why::CannotStand, here)),
    }
}

/// A literal, and the tokens behind it. It stops at a token that cannot stand there or passes a limit, or for want of memory.
pub(crate) fn literal<'a, 't>(
    alloc: Global,
    tokens: &'t [Placed<'a>],
) -> Result<(Literal, &'t [Placed<'a>]), Stop<'a>>
    ensures reads { Gives (λ x. (x.0, views x.1.now)) result (literal (views tokens.now)) }
    ensures shorter { IfOk result (λ x. length x.1.now ≤ length tokens.now) }
{
    if let Token::Text(_) = first(tokens).token {
        quoted_text(alloc, tokens)
    } else if at_sign(tokens, "-") {
        let rest = skip_sign(tokens, "-")?;
        whole(true, rest)
    } else {
        whole(false, tokens)
    }
}

/// A column or a literal, and the tokens behind it. It stops at a token that cannot stand there or passes a limit, or for want of memory.
pub(crate) fn factor<'a, 't>(
    alloc: Global,
    tokens: &'t [Placed<'a>],
) -> Result<(Factor, &'t [Placed<'a>]), Stop<'a>>
    ensures reads { Gives (λ x. (x.0, views x.1.now)) result (factor (views tokens.now)) }
    ensures shorter { IfOk result (λ x. length x.1.now ≤ length tokens.now) }
{
    if let Token::Word(_) = first(tokens).token {
        let (column, rest) = name(alloc, tokens)?;
        Ok((Factor::Column(column), rest))
    } else {
        let (value, rest) = literal(alloc, tokens)?;
        Ok((Factor::Value(value), rest))
    }
}

impl Item for Factor {
    ghost Seen = { Factor };

    ghost view = { λ x. x };

    ghost rule = { λ k. factor };

    fn read<'a, 't>(
        alloc: Global,
        _number: usize,
        tokens: &'t [Placed<'a>],
    ) -> Result<(Factor, &'t [Placed<'a>]), Stop<'a>> {
        factor(alloc, tokens)
    }
}

/// Factors with `*` between them.
fn term<'a, 't>(
    alloc: Global,
    tokens: &'t [Placed<'a>],
) -> Result<(Chain<Factor>, &'t [Placed<'a>]), Stop<'a>>
    ensures reads { Gives (λ x. (chain_of x.0, views x.1.now)) result (term (views tokens.now)) }
    ensures shorter { IfOk result (λ x. length x.1.now ≤ length tokens.now) }
{
    chain::<Factor>(alloc, "*", tokens)
}

fn add_sign(token: &Token) -> Option<AddSign>
    ensures { result ≡ add_sign (view_token token.now) }
{
    if token.is_sign("+") {
        Some(AddSign::Plus)
    } else if token.is_sign("-") {
        Some(AddSign::Minus)
    } else {
        None
    }
}

/// The sign that goes on with a sum, and the tokens behind it.
fn past_add_sign<'a, 't>(tokens: &'t [Placed<'a>]) -> Option<(AddSign, &'t [Placed<'a>])>
    ensures { MatchOption result
        (add_sign (first (views tokens.now)).token ≡ None)
        (λ x. Passed add_sign x.0 tokens.now x.1.now) }
{
    let [token, rest @ ..] = tokens else {
        return None;
    };
    match add_sign(&token.token) {
        Some(sign) => Some((sign, rest)),
        None => None,
    }
}

/// Terms with `+` and `-` between them, and the tokens behind. It stops at a token that cannot stand there or passes a limit, or for want of memory.
pub(crate) fn sum<'a, 't>(
    alloc: Global,
    tokens: &'t [Placed<'a>],
) -> Result<(Sum, &'t [Placed<'a>]), Stop<'a>>
    ensures reads { Gives (λ x. (view_sum x.0, views x.1.now)) result (sum (views tokens.now)) }
    ensures shorter { IfOk result (λ x. length x.1.now ≤ length tokens.now) }
{
    let (first, mut rest) = term(alloc, tokens)?;
    let mut more = Vec::new(alloc);
    'signs: while let Some((sign, after)) = past_add_sign(rest) {
        let (term, behind) = term(alloc, after)?;
        more.push(SignedTerm { sign, term })?;
        rest = behind;
    }
    let more = Items::from_vec(more);
    Ok((Sum { first, more }, rest))
}
