//! The steps that every rule is made of: one token at a time.

ghost use Rattle.std.specs.Prelude.{◌≡◌, ◌≤◌, length, IfOk, Some, None, MatchOption};
ghost use Rattle.sql_grammar.specs.Tokens.{Sign};
ghost use Rattle.sql_grammar.specs.Lexing.{key_of, other_of, view, view_token, views};
ghost use Rattle.sql_grammar.specs.Reading.{first, rest, at, skip, taken, the, name, inside, maybe_nowait};
ghost use Rattle.sql_grammar.specs.Views.{Gives, Passed};

use lock_modes::Text;
use sql_grammar::{Placed, Stop, Token, Why};
use std::alloc::Global;

/// The first token. Behind the last one there is none but the end.
pub(crate) fn first<'a>(tokens: &[Placed<'a>]) -> Placed<'a>
    ensures { view result ≡ first (views tokens.now) }
{
    match tokens {
        [token, ..] => *token,
        [] => Placed {
            at: 0,
            token: Token::End,
        },
    }
}

/// The tokens behind the first one.
pub(crate) fn behind<'a, 't>(tokens: &'t [Placed<'a>]) -> &'t [Placed<'a>]
    ensures rest { views result.now ≡ rest (views tokens.now) }
    ensures shorter { length result.now ≤ length tokens.now }
{
    match tokens {
        [_, rest @ ..] => rest,
        [] => tokens,
    }
}

/// Whether a reserved word stands here, which is given in lower case.
pub(crate) fn at_key(tokens: &[Placed], word: &str) -> bool
    ensures { result ≡ at (key_of word.now) (views tokens.now) }
{
    first(tokens).token.is_key(word)
}

/// Whether a word stands here that is not reserved, which is given in lower case.
pub(crate) fn at_word(tokens: &[Placed], word: &str) -> bool
    ensures { result ≡ at (other_of word.now) (views tokens.now) }
{
    first(tokens).token.is_word(word)
}

/// Whether a sign stands here.
pub(crate) fn at_sign(tokens: &[Placed], sign: &str) -> bool
    ensures { result ≡ at (Sign sign.now) (views tokens.now) }
{
    first(tokens).token.is_sign(sign)
}

/// Whether the token belongs to a statement: it is no semicolon, and not the end.
pub(crate) fn inside(token: &Token) -> bool
    ensures { result ≡ inside (view_token token.now) }
{
    !(token.is_sign(";") || token.is_end())
}

/// The tokens behind a reserved word, which is given in lower case. It stops at any other token.
pub(crate) fn skip_key<'a, 't>(
    tokens: &'t [Placed<'a>],
    word: &str,
) -> Result<&'t [Placed<'a>], Stop<'a>>
    ensures reads { Gives (λ rest. (tt, views rest.now)) result (skip (key_of word.now) (views tokens.now)) }
    ensures shorter { IfOk result (λ rest. length rest.now ≤ length tokens.now) }
{
    if at_key(tokens, word) {
        Ok(behind(tokens))
    } else {
        Err(Stop::At(Why::CannotStand, first(tokens)))
    }
}

/// The tokens behind a word that is not reserved, which is given in lower case. It stops at any other token.
pub(crate) fn skip_word<'a, 't>(
    tokens: &'t [Placed<'a>],
    word: &str,
) -> Result<&'t [Placed<'a>], Stop<'a>>
    ensures reads { Gives (λ rest. (tt, views rest.now)) result (skip (other_of word.now) (views tokens.now)) }
    ensures shorter { IfOk result (λ rest. length rest.now ≤ length tokens.now) }
{
    if at_word(tokens, word) {
        Ok(behind(tokens))
    } else {
        Err(Stop::At(Why::CannotStand, first(tokens)))
    }
}

/// The tokens behind a sign. It stops at any other token.
pub(crate) fn skip_sign<'a, 't>(
    tokens: &'t [Placed<'a>],
    sign: &str,
) -> Result<&'t [Placed<'a>], Stop<'a>>
    ensures reads { Gives (λ rest. (tt, views rest.now)) result (skip (Sign sign.now) (views tokens.now)) }
    ensures shorter { IfOk result (λ rest. length rest.now ≤ length tokens.now) }
{
    if at_sign(tokens, sign) {
        Ok(behind(tokens))
    } else {
        Err(Stop::At(Why::CannotStand, first(tokens)))
    }
}

/// A name, in lower case, and the tokens behind it. It stops at any token but a word that is not reserved, or for want of memory.
pub(crate) fn name<'a, 't>(
    alloc: Global,
    tokens: &'t [Placed<'a>],
) -> Result<(Text, &'t [Placed<'a>]), Stop<'a>>
    ensures reads { Gives (λ x. (x.0, views x.1.now)) result (name (views tokens.now)) }
    ensures shorter { IfOk result (λ x. length x.1.now ≤ length tokens.now) }
{
    let here = first(tokens);
    let Token::Word(word) = here.token else {
        return Err(Stop::At(Why::CannotStand, here));
    };
    let name = Text::from_string(word.to_ascii_lowercase(alloc)?);
    Ok((name, behind(tokens)))
}

/// The tokens behind a sign, if it stands here.
pub(crate) fn past_sign<'a, 't>(tokens: &'t [Placed<'a>], sign: &str) -> Option<&'t [Placed<'a>]>
    ensures { MatchOption result
        (the (Sign sign.now) (first (views tokens.now)).token ≡ None)
        (λ after. Passed (the (Sign sign.now)) tt tokens.now after.now) }
{
    match tokens {
        [token, rest @ ..] if token.token.is_sign(sign) => Some(rest),
        _ => None,
    }
}

/// What the first token is taken for, and the tokens behind it. It stops at a token that is taken for nothing.
pub(crate) fn taken<'a, 't, T: Drop>(
    what: Option<T>,
    tokens: &'t [Placed<'a>],
) -> Result<(T, &'t [Placed<'a>]), Stop<'a>>
    ensures reads { Gives (λ x. (x.0, views x.1.now)) result (taken what (views tokens.now)) }
    ensures shorter { IfOk result (λ x. length x.1.now ≤ length tokens.now) }
{
    match what {
        Some(x) => Ok((x, behind(tokens))),
        None => Err(Stop::At(Why::CannotStand, first(tokens))),
    }
}

/// Whether NOWAIT stands here, and the tokens behind it.
pub(crate) fn maybe_nowait<'a, 't>(
    tokens: &'t [Placed<'a>],
) -> Result<(bool, &'t [Placed<'a>]), Stop<'a>>
    ensures reads { Gives (λ x. (x.0, views x.1.now)) result (maybe_nowait (views tokens.now)) }
    ensures shorter { IfOk result (λ x. length x.1.now ≤ length tokens.now) }
{
    if at_word(tokens, "nowait") {
        let rest = skip_word(tokens, "nowait")?;
        Ok((true, rest))
    } else {
        Ok((false, tokens))
    }
}
