//! Binds conditions. Parentheses leave no trace, and a missing WHERE is a condition that every row meets.

ghost use Rattle.std.specs.Prelude.{◌≡◌, IfOk};
ghost use Rattle.sql_grammar.specs.Tree.{Compares};
ghost use Rattle.sql_grammar.specs.Views.{option_by, view_sum, view_atom, view_part, view_condition};
ghost use Rattle.bound_statements.specs.Conditions as conditions;
ghost use Rattle.binding_model.specs.Refusals.{Binds};
ghost use Rattle.binding_model.specs.Translation as spec;

use crate::expressions::expression;
use crate::joining::joined;
use crate::lists::push_bound;
use binding_model::{BindStop, Joint, Table};
use bound_statements::{Comparison, Condition};
use sql_grammar::{
    Atom, Comparison as ComparisonWord, Condition as ConditionText, Part as PartText, Sum,
};
use sqlite_items::Boxed;
use std::alloc::{AllocError, Global};

fn comparison(sign: ComparisonWord) -> Comparison
    ensures { result ≡ spec.comparison sign }
{
    match sign {
        ComparisonWord::Equal => Comparison::Same,
        ComparisonWord::Unequal | ComparisonWord::Differs => Comparison::Differs,
        ComparisonWord::Less => Comparison::Below,
        ComparisonWord::AtMost => Comparison::AtMost,
        ComparisonWord::Greater => Comparison::Above,
        ComparisonWord::AtLeast => Comparison::AtLeast,
    }
}

#[tactic(auto, using(bound_statements::proofs::ConditionLemmas::making))]
fn negation(alloc: Global, part: Condition) -> Result<Condition, AllocError>
    ensures { IfOk result (λ condition. condition ≡ conditions.negation part) }
{
    Ok(Condition::Not(Boxed::new(alloc, part)?))
}

// Apart from the ring of conditions, since it owns an expression where the other one may be refused.
fn compares(
    alloc: Global,
    table: &Table,
    at: usize,
    a: &Sum,
    sign: ComparisonWord,
    b: &Sum,
) -> Result<Condition, BindStop>
    ensures { Binds (λ condition. condition) result (spec.atom (Compares (view_sum a.now) sign (view_sum b.now)) table.now at) }
{
    let left = expression(alloc, table, at, a)?;
    let right = expression(alloc, table, at, b)?;
    Ok(Condition::Compares(left, comparison(sign), right))
}

#[cycle(condition)]
#[tactic(auto, unfolding(sql_grammar::specs::Views::view_atom, sql_grammar::specs::Views::view_condition))]
fn atom(alloc: Global, table: &Table, at: usize, atom_text: &Atom) -> Result<Condition, BindStop>
    ensures { Binds (λ condition. condition) result (spec.atom (view_atom atom_text.now) table.now at) }
{
    match atom_text {
        Atom::Compares(a, sign, b) => compares(alloc, table, at, a, *sign, b),
        Atom::Not(part) => {
            let part = atom(alloc, table, at, part.get())?;
            Ok(negation(alloc, part)?)
        }
        Atom::Group(group) => condition(alloc, table, at, group.get()),
    }
}

/// Parts with AND between them.
#[cycle(condition)]
#[tactic(auto, using(crate::proofs::ConditionLemmas::viewed), unfolding(sql_grammar::specs::Views::view_atom, sql_grammar::specs::Views::view_part))]
fn part(alloc: Global, table: &Table, at: usize, text: &PartText) -> Result<Condition, BindStop>
    ensures { Binds (λ condition. condition) result (spec.part (view_part text.now) table.now at) }
{
    let mut all = Vec::new(alloc);
    push_bound(&mut all, atom(alloc, table, at, &text.first))?;
    'ands: for next in text.more.as_slice() {
        push_bound(&mut all, atom(alloc, table, at, next))?;
    }
    Ok(joined(alloc, Joint::All, all)?)
}

/// Parts with OR between them.
#[cycle(condition)]
#[tactic(auto, using(crate::proofs::ConditionLemmas::viewed), unfolding(sql_grammar::specs::Views::view_part, sql_grammar::specs::Views::view_condition))]
fn condition(
    alloc: Global,
    table: &Table,
    at: usize,
    text: &ConditionText,
) -> Result<Condition, BindStop>
    ensures { Binds (λ condition. condition) result (spec.condition (view_condition text.now) table.now at) }
{
    let mut all = Vec::new(alloc);
    push_bound(&mut all, part(alloc, table, at, &text.first))?;
    'ors: for next in text.more.as_slice() {
        push_bound(&mut all, part(alloc, table, at, next))?;
    }
    Ok(joined(alloc, Joint::Any, all)?)
}

/// Binds what follows WHERE, of a statement that begins at this offset.
pub(crate) fn where_of(
    alloc: Global,
    table: &Table,
    at: usize,
    text: &Option<ConditionText>,
) -> Result<Condition, BindStop>
    ensures { Binds (λ condition. condition) result (spec.where_of table.now at (option_by view_condition text.now)) }
{
    match text {
        Some(text) => condition(alloc, table, at, text),
        None => Ok(Condition::Always),
    }
}
