//! Statements over the numbers of tables and columns, and their lock plans.
#![tactic(auto)]

mod condition;
mod expression;
mod plan;
mod statement;

pub use condition::{Comparison, Condition};
pub use expression::{AddSign, Expression, Operand, Product, SignedProduct};
pub use plan::{is_unlocked, is_unlocked_at, lock_plan, nowait};
pub use statement::{Aggregate, Assignment, Bound, Level, Order, Output, RowLock, SortKey};
