//! Conditions over the columns of a row.

use crate::expression::Expression;
use sqlite_items::Boxed;

/// How two values are compared.
#[derive(Clone, Copy, PartialEq, Eq)]
pub enum Comparison {
    Same,
    Differs,
    Below,
    AtMost,
    Above,
    AtLeast,
}

/// A condition over the columns of a row.
#[derive(Drop)]
pub enum Condition {
    /// Every row meets it: the condition of a statement without WHERE.
    Always,
    Compares(Expression, Comparison, Expression),
    Not(Boxed<Condition>),
    And(Boxed<Condition>, Boxed<Condition>),
    Or(Boxed<Condition>, Boxed<Condition>),
}
