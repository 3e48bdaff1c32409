//! Which statements mix numbers and texts.

ghost use Rattle.std.specs.Prelude.{◌≡◌};
ghost use Rattle.std.specs.Option.{option_copied};
ghost use Rattle.binding_model.specs.Types as spec;

use crate::keys::single;
use binding_model::{ColumnType, Table};
use bound_statements::{
    Aggregate, Assignment, Condition, Expression, Operand, Output, Product, SignedProduct,
};
use lock_modes::Value;

fn differ(a: ColumnType, b: ColumnType) -> bool
    ensures { result ≡ spec.differ a b }
{
    match (a, b) {
        (ColumnType::Number, ColumnType::Number) | (ColumnType::Text, ColumnType::Text) => false,
        (ColumnType::Number, ColumnType::Text) | (ColumnType::Text, ColumnType::Number) => true,
    }
}

fn is_text(kind: ColumnType) -> bool
    ensures { result ≡ spec.is_text kind }
{
    match kind {
        ColumnType::Number => false,
        ColumnType::Text => true,
    }
}

fn value_type(value: &Value) -> ColumnType
    ensures { result ≡ spec.value_type value.now }
{
    match value {
        Value::Int(_) => ColumnType::Number,
        Value::Text(_) => ColumnType::Text,
    }
}

fn operand_type(table: &Table, operand: &Operand) -> ColumnType
    ensures { result ≡ spec.operand_type table.now operand.now }
{
    match operand {
        Operand::Literal(value) => value_type(value),
        Operand::Column(column) => table.type_of(*column),
    }
}

fn any_text(table: &Table, operands: &[Operand]) -> bool
    ensures { result ≡ spec.any_text table.now operands.now }
{
    operands
        .iter()
        .any(|operand| is_text(operand_type(table, operand)))
}

/// Whether one of the factors is a text.
fn product_has_text(table: &Table, product: &Product) -> bool
    ensures { result ≡ spec.product_has_text table.now product.now }
{
    is_text(operand_type(table, &product.first)) || any_text(table, product.more.as_slice())
}

fn any_has_text(table: &Table, terms: &[SignedProduct]) -> bool
    ensures { result ≡ spec.any_has_text table.now terms.now }
{
    terms
        .iter()
        .any(|signed| product_has_text(table, &signed.product))
}

/// Whether one of the operands is a text.
fn has_text(table: &Table, expression: &Expression) -> bool
    ensures { result ≡ spec.has_text table.now expression.now }
{
    product_has_text(table, &expression.first) || any_has_text(table, expression.more.as_slice())
}

/// An operand alone has its type, and a sum, difference or product is a number.
fn expression_type(table: &Table, expression: &Expression) -> ColumnType
    ensures { result ≡ spec.expression_type table.now expression.now }
{
    match single(expression) {
        Some(operand) => operand_type(table, operand),
        None => ColumnType::Number,
    }
}

/// Whether there is arithmetic on a text.
fn expression_mixes(table: &Table, expression: &Expression) -> bool
    ensures { result ≡ spec.expression_mixes table.now expression.now }
{
    match single(expression) {
        Some(_) => false,
        None => has_text(table, expression),
    }
}

fn comparison_mixes(table: &Table, a: &Expression, b: &Expression) -> bool
    ensures { result ≡ spec.comparison_mixes table.now a.now b.now }
{
    expression_mixes(table, a)
        || expression_mixes(table, b)
        || differ(expression_type(table, a), expression_type(table, b))
}

#[tactic(auto, using(bound_statements::proofs::ConditionLemmas::telling))]
pub(crate) fn condition_mixes(table: &Table, condition: &Condition) -> bool
    ensures { result ≡ spec.condition_mixes table.now condition.now }
{
    match condition {
        Condition::Always => false,
        Condition::Compares(a, _, b) => comparison_mixes(table, a, b),
        Condition::Not(part) => condition_mixes(table, part.get()),
        Condition::And(a, b) | Condition::Or(a, b) => {
            condition_mixes(table, a.get()) || condition_mixes(table, b.get())
        }
    }
}

pub(crate) fn assignment_mixes(table: &Table, assignment: &Assignment) -> bool
    ensures { result ≡ spec.assignment_mixes table.now assignment.now }
{
    expression_mixes(table, &assignment.value)
        || differ(
            table.type_of(assignment.column),
            expression_type(table, &assignment.value),
        )
}

fn aggregate_mixes(table: &Table, aggregate: Aggregate) -> bool
    ensures { result ≡ spec.aggregate_mixes table.now aggregate }
{
    match aggregate {
        Aggregate::Count => false,
        Aggregate::Sum(column) => is_text(table.type_of(column)),
    }
}

fn any_mixes(table: &Table, aggregates: &[Aggregate]) -> bool
    ensures { result ≡ spec.any_mixes table.now aggregates.now }
{
    aggregates
        .iter()
        .any(|aggregate| aggregate_mixes(table, *aggregate))
}

pub(crate) fn output_mixes(table: &Table, output: &Output) -> bool
    ensures { result ≡ spec.output_mixes table.now output.now }
{
    match output {
        Output::Columns(_) => false,
        Output::Aggregates(aggregates) => any_mixes(table, aggregates.as_slice()),
    }
}

/// Whether a value has another type than its column, as far as both lists go.
pub(crate) fn row_mixes(table: &Table, columns: &[u16], row: &[Value]) -> bool
    ensures { result ≡ spec.row_mixes table.now columns.now row.now }
{
    for (n, column) in columns.iter().enumerate() {
        match row.get(n) {
            Some(value) => {
                if differ(table.type_of(*column), value_type(value)) {
                    return true;
                }
            }
            None => return false,
        }
    }
    false
}
