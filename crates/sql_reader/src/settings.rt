//! SET. LOCAL, SESSION and TO are no reserved words, so there are two readings.

ghost use Rattle.std.specs.Prelude.{◌≡◌, ◌≤◌, length, IfOk};
ghost use Rattle.sql_grammar.specs.Lexing.{view_token, views};
ghost use Rattle.sql_grammar.specs.Tree.{Set};
ghost use Rattle.sql_grammar.specs.Reading.{set_sign, scope, statement_end, setting_after, scoped_setting, has_scope, set, is_name};
ghost use Rattle.sql_grammar.specs.Views.{Gives};

use crate::steps::{at_sign, at_word, behind, first, inside, name, skip_key, taken};
use crate::values::factor;
use sql_grammar::{Placed, Scope, SetSign, Setting, Stop, Token, Why};
use std::alloc::Global;

fn set_sign(token: &Token) -> Option<SetSign>
    ensures { result ≡ set_sign (view_token token.now) }
{
    if token.is_sign("=") {
        Some(SetSign::EqualSign)
    } else if token.is_word("to") {
        Some(SetSign::ToWord)
    } else {
        None
    }
}

fn scope(token: &Token) -> Option<Scope>
    ensures { result ≡ scope (view_token token.now) }
{
    if token.is_word("local") {
        Some(Scope::Local)
    } else if token.is_word("session") {
        Some(Scope::Session)
    } else {
        None
    }
}

fn is_name(token: &Token) -> bool
    ensures { result ≡ is_name (view_token token.now) }
{
    matches!(token, Token::Word(_))
}

/// Tests that the statement ends here.
fn statement_end<'a, 't>(tokens: &'t [Placed<'a>]) -> Result<&'t [Placed<'a>], Stop<'a>>
    ensures reads { Gives (λ rest. (tt, views rest.now)) result (statement_end (views tokens.now)) }
    ensures shorter { IfOk result (λ rest. length rest.now ≤ length tokens.now) }
{
    let here = first(tokens);
    if inside(&here.token) {
        return Err(Stop::At(Why::CannotStand, here));
    }
    Ok(tokens)
}

/// What follows the scope, if there is one.
fn setting_after<'a, 't>(
    alloc: Global,
    scope: Option<Scope>,
    tokens: &'t [Placed<'a>],
) -> Result<(Setting, &'t [Placed<'a>]), Stop<'a>>
    ensures reads { Gives (λ x. (Set x.0, views x.1.now)) result (setting_after scope (views tokens.now)) }
    ensures shorter { IfOk result (λ x. length x.1.now ≤ length tokens.now) }
{
    let (name, rest) = name(alloc, tokens)?;
    let (sign, rest) = taken(set_sign(&first(rest).token), rest)?;
    let (value, rest) = factor(alloc, rest)?;
    let rest = statement_end(rest)?;
    Ok((
        Setting {
            scope,
            name,
            sign,
            value,
        },
        rest,
    ))
}

fn scoped_setting<'a, 't>(
    alloc: Global,
    tokens: &'t [Placed<'a>],
) -> Result<(Setting, &'t [Placed<'a>]), Stop<'a>>
    ensures reads { Gives (λ x. (Set x.0, views x.1.now)) result (scoped_setting (views tokens.now)) }
    ensures shorter { IfOk result (λ x. length x.1.now ≤ length tokens.now) }
{
    let (scope, rest) = taken(scope(&first(tokens).token), tokens)?;
    setting_after(alloc, Some(scope), rest)
}

/// Whether LOCAL and SESSION are the scope, and no name: a name that is not TO comes next; or TO comes, then `=`, or then
/// TO with more behind it.
fn has_scope(tokens: &[Placed]) -> bool
    ensures { result ≡ has_scope (views tokens.now) }
{
    let second = behind(tokens);
    let third = behind(second);
    if !(at_word(tokens, "local") || at_word(tokens, "session")) {
        false
    } else if at_word(second, "to") {
        at_sign(third, "=") || (at_word(third, "to") && inside(&first(behind(third)).token))
    } else {
        is_name(&first(second).token)
    }
}

/// A SET, and the tokens behind it. It stops at a token that cannot stand there or passes a limit, or for want of memory.
pub(crate) fn set<'a, 't>(
    alloc: Global,
    tokens: &'t [Placed<'a>],
) -> Result<(Setting, &'t [Placed<'a>]), Stop<'a>>
    ensures reads { Gives (λ x. (Set x.0, views x.1.now)) result (set (views tokens.now)) }
    ensures shorter { IfOk result (λ x. length x.1.now ≤ length tokens.now) }
{
    let rest = skip_key(tokens, "set")?;
    if has_scope(rest) {
        scoped_setting(alloc, rest)
    } else {
        setting_after(alloc, None, rest)
    }
}
