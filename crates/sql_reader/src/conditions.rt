//! Conditions.

ghost use Rattle.std.specs.Prelude.{◌≡◌, ◌≤◌, length, IfOk, None, MatchOption, codes, map};
ghost use Rattle.sql_grammar.specs.Lexing.{view_token, views};
ghost use Rattle.sql_grammar.specs.Tokens.{Key};
ghost use Rattle.sql_grammar.specs.Tree.{Compares, Not, Group};
ghost use Rattle.sql_grammar.specs.Lexing.{key_of};
ghost use Rattle.sql_grammar.specs.Reading.{first, the, comparison, compares, part_of, condition_of, negated, group, atom, condition, where_part, optional};
ghost use Rattle.sql_grammar.specs.Views.{Gives, Passed, view_sum, view_atom, view_part, view_condition, part_by, condition_by, option_by};

use crate::steps::{at_key, at_sign, first, skip_key, skip_sign, taken};
use crate::values::sum;
use sql_grammar::{
    Atom, Comparison, Condition, Limit, MAX_DEPTH, Part, Placed, Stop, Sum, Token, Why,
};
use sqlite_items::{Boxed, Items};
use std::alloc::{AllocError, Global};

/// The tokens behind a reserved word, if it stands here.
fn past_key<'a, 't>(tokens: &'t [Placed<'a>], word: &str) -> Option<&'t [Placed<'a>]>
    ensures { MatchOption result
        (the (key_of word.now) (first (views tokens.now)).token ≡ None)
        (λ after. Passed (the (key_of word.now)) tt tokens.now after.now) }
{
    match tokens {
        [token, rest @ ..] if token.token.is_key(word) => Some(rest),
        _ => None,
    }
}

fn comparison(token: &Token) -> Option<Comparison>
    ensures { result ≡ comparison (view_token token.now) }
{
    if token.is_sign("=") {
        Some(Comparison::Equal)
    } else if token.is_sign("<>") {
        Some(Comparison::Unequal)
    } else if token.is_sign("!=") {
        Some(Comparison::Differs)
    } else if token.is_sign("<") {
        Some(Comparison::Less)
    } else if token.is_sign("<=") {
        Some(Comparison::AtMost)
    } else if token.is_sign(">") {
        Some(Comparison::Greater)
    } else if token.is_sign(">=") {
        Some(Comparison::AtLeast)
    } else {
        None
    }
}

#[tactic(auto, unfolding(sql_grammar::specs::Views::view_atom))]
fn comparing(a: Sum, c: Comparison, b: Sum) -> Atom
    ensures { view_atom result ≡ Compares (view_sum a) c (view_sum b) }
{
    Atom::Compares(a, c, b)
}

#[tactic(auto, unfolding(sql_grammar::specs::Views::view_atom))]
fn not(alloc: Global, atom: Atom) -> Result<Atom, AllocError>
    ensures { IfOk result (λ x. view_atom x ≡ Not (view_atom atom)) }
{
    Ok(Atom::Not(Boxed::new(alloc, atom)?))
}

#[tactic(auto, unfolding(sql_grammar::specs::Views::view_atom, sql_grammar::specs::Views::view_condition))]
fn in_parentheses(alloc: Global, condition: Condition) -> Result<Atom, AllocError>
    ensures { IfOk result (λ x. view_atom x ≡ Group (view_condition condition)) }
{
    Ok(Atom::Group(Boxed::new(alloc, condition)?))
}

#[tactic(auto, unfolding(sql_grammar::specs::Views::view_atom, sql_grammar::specs::Views::view_part))]
fn part(first: Atom, more: Vec<Atom>) -> Part
    ensures { view_part result ≡ part_by (λ a. a) (view_atom first) (map view_atom more.items) }
{
    let more = Items::from_vec(more);
    Part { first, more }
}

#[tactic(auto, unfolding(sql_grammar::specs::Views::view_part, sql_grammar::specs::Views::view_condition))]
fn condition_from(first: Part, more: Vec<Part>) -> Condition
    ensures { view_condition result ≡ condition_by (λ p. p) (view_part first) (map view_part more.items) }
{
    let more = Items::from_vec(more);
    Condition { first, more }
}

/// Atoms with AND between them.
fn all_of(first: Atom, more: Vec<Atom>) -> Part
    ensures { view_part result ≡ part_by view_atom (view_atom first) more.items }
{
    part(first, more)
}

/// Parts with OR between them.
fn any_of(first: Part, more: Vec<Part>) -> Condition
    ensures { view_condition result ≡ condition_by view_part (view_part first) more.items }
{
    condition_from(first, more)
}

fn compares<'a, 't>(
    alloc: Global,
    tokens: &'t [Placed<'a>],
) -> Result<(Atom, &'t [Placed<'a>]), Stop<'a>>
    ensures reads { Gives (λ x. (view_atom x.0, views x.1.now)) result (compares (views tokens.now)) }
    ensures shorter { IfOk result (λ x. length x.1.now ≤ length tokens.now) }
{
    let (left, rest) = sum(alloc, tokens)?;
    let (sign, rest) = taken(comparison(&first(rest).token), rest)?;
    let (right, rest) = sum(alloc, rest)?;
    Ok((comparing(left, sign, right), rest))
}

#[cycle(condition)]
fn negated<'a, 't>(
    alloc: Global,
    levels: usize,
    tokens: &'t [Placed<'a>],
) -> Result<(Atom, &'t [Placed<'a>]), Stop<'a>>
    ensures reads { Gives (λ x. (view_atom x.0, views x.1.now)) result (negated (atom levels) (views tokens.now)) }
    ensures shorter { IfOk result (λ x. length x.1.now ≤ length tokens.now) }
{
    let rest = skip_key(tokens, "not")?;
    let (inner, rest) = atom(alloc, levels, rest)?;
    Ok((not(alloc, inner)?, rest))
}

#[cycle(condition)]
fn group<'a, 't>(
    alloc: Global,
    levels: usize,
    tokens: &'t [Placed<'a>],
) -> Result<(Atom, &'t [Placed<'a>]), Stop<'a>>
    ensures reads { Gives (λ x. (view_atom x.0, views x.1.now)) result (group (atom levels) (views tokens.now)) }
    ensures shorter { IfOk result (λ x. length x.1.now ≤ length tokens.now) }
{
    let rest = skip_sign(tokens, "(")?;
    let (inner, rest) = condition_of(alloc, levels, rest)?;
    let rest = skip_sign(rest, ")")?;
    Ok((in_parentheses(alloc, inner)?, rest))
}

/// A comparison, NOT or parentheses, of which so many levels may still be opened.
#[cycle(condition)]
fn atom<'a, 't>(
    alloc: Global,
    levels: usize,
    tokens: &'t [Placed<'a>],
) -> Result<(Atom, &'t [Placed<'a>]), Stop<'a>>
    ensures reads { Gives (λ x. (view_atom x.0, views x.1.now)) result (atom levels (views tokens.now)) }
    ensures shorter { IfOk result (λ x. length x.1.now ≤ length tokens.now) }
{
    if at_key(tokens, "not") {
        if levels == 0 {
            Err(Stop::At(Why::Passes(Limit::TooLarge), first(tokens)))
        } else {
            negated(alloc, levels - 1, tokens)
        }
    } else if at_sign(tokens, "(") {
        if levels == 0 {
            Err(Stop::At(Why::Passes(Limit::TooLarge), first(tokens)))
        } else {
            group(alloc, levels - 1, tokens)
        }
    } else {
        compares(alloc, tokens)
    }
}

/// One or more with AND between them.
#[cycle(condition)]
fn part_of<'a, 't>(
    alloc: Global,
    levels: usize,
    tokens: &'t [Placed<'a>],
) -> Result<(Part, &'t [Placed<'a>]), Stop<'a>>
    ensures reads { Gives (λ x. (view_part x.0, views x.1.now)) result (part_of (atom levels) (views tokens.now)) }
    ensures shorter { IfOk result (λ x. length x.1.now ≤ length tokens.now) }
{
    let (first, mut rest) = atom(alloc, levels, tokens)?;
    let mut more = Vec::new(alloc);
    'ands: while let Some(after) = past_key(rest, "and") {
        let (next, behind) = atom(alloc, levels, after)?;
        more.push(next)?;
        rest = behind;
    }
    Ok((all_of(first, more), rest))
}

/// One or more with OR between them.
#[cycle(condition)]
fn condition_of<'a, 't>(
    alloc: Global,
    levels: usize,
    tokens: &'t [Placed<'a>],
) -> Result<(Condition, &'t [Placed<'a>]), Stop<'a>>
    ensures reads { Gives (λ x. (view_condition x.0, views x.1.now)) result (condition_of (atom levels) (views tokens.now)) }
    ensures shorter { IfOk result (λ x. length x.1.now ≤ length tokens.now) }
{
    let (first, mut rest) = part_of(alloc, levels, tokens)?;
    let mut more = Vec::new(alloc);
    'ors: while let Some(after) = past_key(rest, "or") {
        let (next, behind) = part_of(alloc, levels, after)?;
        more.push(next)?;
        rest = behind;
    }
    Ok((any_of(first, more), rest))
}

#[tactic(auto, unfolding(sql_grammar::specs::Reading::condition))]
fn condition<'a, 't>(
    alloc: Global,
    tokens: &'t [Placed<'a>],
) -> Result<(Condition, &'t [Placed<'a>]), Stop<'a>>
    ensures reads { Gives (λ x. (view_condition x.0, views x.1.now)) result (condition (views tokens.now)) }
    ensures shorter { IfOk result (λ x. length x.1.now ≤ length tokens.now) }
{
    condition_of(alloc, MAX_DEPTH, tokens)
}

fn where_part<'a, 't>(
    alloc: Global,
    tokens: &'t [Placed<'a>],
) -> Result<(Condition, &'t [Placed<'a>]), Stop<'a>>
    ensures reads { Gives (λ x. (view_condition x.0, views x.1.now)) result (where_part (views tokens.now)) }
    ensures shorter { IfOk result (λ x. length x.1.now ≤ length tokens.now) }
{
    let rest = skip_key(tokens, "where")?;
    condition(alloc, rest)
}

/// WHERE and a condition, or nothing, and the tokens behind. It stops at a token that cannot stand there or passes a limit, or for want of memory.
pub(crate) fn maybe_where<'a, 't>(
    alloc: Global,
    tokens: &'t [Placed<'a>],
) -> Result<(Option<Condition>, &'t [Placed<'a>]), Stop<'a>>
    ensures reads { Gives (λ x. (option_by view_condition x.0, views x.1.now)) result (optional (Key (codes "where")) where_part (views tokens.now)) }
    ensures shorter { IfOk result (λ x. length x.1.now ≤ length tokens.now) }
{
    if at_key(tokens, "where") {
        let (condition, rest) = where_part(alloc, tokens)?;
        Ok((Some(condition), rest))
    } else {
        Ok((None, tokens))
    }
}
