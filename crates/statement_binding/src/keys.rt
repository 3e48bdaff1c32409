//! The key that a condition names.

ghost use Rattle.std.specs.Prelude.{◌≡◌, IfOk};
ghost use Rattle.std.specs.Option.{option_copied};
ghost use Rattle.binding_model.specs.KeyParts as spec;

use bound_statements::{Comparison, Condition, Expression, Operand};
use finite_maps::Fork;
use lock_modes::Value;
use std::alloc::AllocError;

/// The operand of an expression that is one alone.
pub(crate) fn single(expression: &Expression) -> Option<&Operand>
    ensures { option_copied result ≡ spec.single expression.now }
{
    if expression.more.is_empty() && expression.first.more.is_empty() {
        Some(&expression.first.first)
    } else {
        None
    }
}

/// The literal, where the column is the key.
fn literal_at<'a>(key: u16, left: Option<&Operand>, right: Option<&'a Operand>) -> Option<&'a Value>
    ensures { option_copied result ≡ spec.literal_at key (option_copied left.entry) (option_copied right.entry) }
{
    match (left, right) {
        (Some(Operand::Column(column)), Some(Operand::Literal(value))) if *column == key => {
            Some(value)
        }
        _ => None,
    }
}

/// The key that a comparison names, with the column on the left.
fn key_compared<'a>(
    key: u16,
    comparison: Comparison,
    left: Option<&Operand>,
    right: Option<&'a Operand>,
) -> Option<&'a Value>
    ensures { option_copied result ≡ spec.key_compared key comparison (option_copied left.entry) (option_copied right.entry) }
{
    match comparison {
        Comparison::Same => literal_at(key, left, right),
        Comparison::Differs
        | Comparison::Below
        | Comparison::AtMost
        | Comparison::Above
        | Comparison::AtLeast => None,
    }
}

/// The key that the first of the parts names that are joined by AND.
#[tactic(auto, using(bound_statements::proofs::ConditionLemmas::telling))]
fn key_in(key: u16, condition: &Condition) -> Option<&Value>
    ensures { option_copied result ≡ spec.key_in key condition.now }
{
    match condition {
        Condition::Always | Condition::Not(_) | Condition::Or(..) => None,
        Condition::Compares(a, comparison, b) => {
            key_compared(key, *comparison, single(a), single(b))
        }
        Condition::And(a, b) => match key_in(key, a.get()) {
            Some(value) => Some(value),
            None => key_in(key, b.get()),
        },
    }
}

/// The key of the row that a condition names, if its table has this key.
pub(crate) fn key_of(key: Option<u16>, condition: &Condition) -> Result<Option<Value>, AllocError>
    ensures { IfOk result (λ value. value ≡ spec.key_of key condition.now) }
{
    let Some(key) = key else {
        return Ok(None);
    };
    match key_in(key, condition) {
        Some(value) => Ok(Some(value.fork()?)),
        None => Ok(None),
    }
}
