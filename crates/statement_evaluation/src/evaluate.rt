//! Expressions and conditions over a row. Nothing is copied.

ghost use Rattle.std.specs.Prelude.{◌≡◌, IfSome, List, Some, ◌*ℤ◌};
ghost use Rattle.lock_modes.specs.declared.value.Value.{Value};
ghost use Rattle.statement_evaluation.specs.Borrowed.{value_at, value_if, int_if};
ghost use Rattle.statement_evaluation.specs.Evaluate as spec;
ghost use Rattle.statement_evaluation.specs.Evaluate.{on_numbers, plus_or_minus, operand_value, product_value, value_of};

use crate::value_ref::ValueRef;
use bound_statements::{AddSign, Comparison, Condition, Expression, Operand, Product};
use lock_modes::Row;
use std::cmp::Ordering;

/// The value of an expression, or none where a number leaves the range of 64 bits.
#[inline(always)]
pub(crate) fn value_of<'a>(row: &'a Row, expression: &'a Expression) -> Option<ValueRef<'a>>
    ensures { value_if result ≡ value_of row.now expression.now }
{
    let mut value = product(row, &expression.first);
    for part in expression.more.as_slice() {
        value = add(part.sign, value, product(row, &part.product));
    }
    value
}

#[inline(always)]
fn product<'a>(row: &'a Row, product: &'a Product) -> Option<ValueRef<'a>>
    ensures { value_if result ≡ product_value row.now product.now }
{
    let mut value = Some(operand(row, &product.first));
    for factor in product.more.as_slice() {
        value = multiply(value, Some(operand(row, factor)));
    }
    value
}

fn operand<'a>(row: &'a Row, operand: &'a Operand) -> ValueRef<'a>
    ensures { Some (value_at result) ≡ operand_value row.now operand.now }
{
    match operand {
        Operand::Literal(value) => ValueRef::of(value),
        Operand::Column(column) => ValueRef::in_column(row, *column),
    }
}

fn multiply<'a>(a: Option<ValueRef<'a>>, b: Option<ValueRef<'a>>) -> Option<ValueRef<'a>>
    ensures { value_if result ≡ on_numbers (λ x y. x *ℤ y) (value_if a.entry) (value_if b.entry) }
{
    match (a, b) {
        (Some(ValueRef::Int(a)), Some(ValueRef::Int(b))) => number(a.checked_mul(b)),
        _ => None,
    }
}

fn add<'a>(sign: AddSign, a: Option<ValueRef<'a>>, b: Option<ValueRef<'a>>) -> Option<ValueRef<'a>>
    ensures { value_if result ≡ plus_or_minus sign (value_if a.entry) (value_if b.entry) }
{
    match (sign, a, b) {
        (AddSign::Plus, Some(ValueRef::Int(a)), Some(ValueRef::Int(b))) => number(a.checked_add(b)),
        (AddSign::Minus, Some(ValueRef::Int(a)), Some(ValueRef::Int(b))) => number(a.checked_sub(
            b,
        )),
        _ => None,
    }
}

fn number<'a>(number: Option<i64>) -> Option<ValueRef<'a>>
    ensures { value_if result ≡ int_if number }
{
    Some(ValueRef::Int(number?))
}

/// Whether a row meets a condition, or none where a number leaves the range of 64 bits before that is known.
#[tactic(auto, using(bound_statements::proofs::ConditionLemmas::telling))]
pub fn holds(row: &Row, condition: &Condition) -> Option<bool>
    ensures { result ≡ spec.holds row.now condition.now }
{
    match condition {
        Condition::Always => Some(true),
        Condition::Compares(a, comparison, b) => compared(row, a, *comparison, b),
        Condition::Not(part) => Some(!holds(row, part.get())?),
        Condition::And(a, b) => {
            if holds(row, a.get())? {
                holds(row, b.get())
            } else {
                Some(false)
            }
        }
        Condition::Or(a, b) => {
            if holds(row, a.get())? {
                Some(true)
            } else {
                holds(row, b.get())
            }
        }
    }
}

/// Whether the values of two expressions pass. Most are of one operand each, of which nothing is computed.
fn compared(row: &Row, a: &Expression, comparison: Comparison, b: &Expression) -> Option<bool>
    ensures { result ≡ spec.compared comparison (value_of row.now a.now) (value_of row.now b.now) }
{
    match (alone(a), alone(b)) {
        (Some(a), Some(b)) => Some(passes(comparison, operand(row, a).order(operand(row, b)))),
        (None, Some(b)) => compares(value_of(row, a), comparison, Some(operand(row, b))),
        _ => compares(value_of(row, a), comparison, value_of(row, b)),
    }
}

/// The operand that is all of an expression, if one is.
fn alone(expression: &Expression) -> Option<&Operand>
    ensures { IfSome result (λ part. (row : List Value) → value_of row expression.now ≡ operand_value row part.now) }
{
    if expression.more.as_slice().is_empty() && expression.first.more.as_slice().is_empty() {
        Some(&expression.first.first)
    } else {
        None
    }
}

fn compares(
    a: Option<ValueRef<'_>>,
    comparison: Comparison,
    b: Option<ValueRef<'_>>,
) -> Option<bool>
    ensures { result ≡ spec.compared comparison (value_if a.entry) (value_if b.entry) }
{
    Some(passes(comparison, a?.order(b?)))
}

fn passes(comparison: Comparison, order: Ordering) -> bool
    ensures { result ≡ spec.passes comparison order }
{
    match comparison {
        Comparison::Same => order.is_eq(),
        Comparison::Differs => order.is_ne(),
        Comparison::Below => order.is_lt(),
        Comparison::AtMost => order.is_le(),
        Comparison::Above => order.is_gt(),
        Comparison::AtLeast => order.is_ge(),
    }
}
