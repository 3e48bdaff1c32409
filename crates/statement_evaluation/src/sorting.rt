//! Rows in the order that a select asks for.

ghost use Rattle.std.specs.Prelude.{◌≡◌};
ghost use Rattle.statement_evaluation.specs.Effect as spec;

use crate::value_ref::ValueRef;
use bound_statements::{Order, SortKey};
use lock_modes::Row;
use std::cmp::Ordering;

/// How two rows stand by one column after another.
pub(crate) fn compare(keys: &[SortKey], x: &Row, y: &Row) -> Ordering
    ensures { result ≡ spec.sort_cmp keys.now x.now y.now }
{
    for key in keys {
        let order = ValueRef::in_column(x, key.column).order(ValueRef::in_column(y, key.column));
        if order.is_ne() {
            return directed(key.order, order);
        }
    }
    Ordering::Equal
}

fn directed(order: Order, rising: Ordering) -> Ordering
    ensures { result ≡ spec.in_order order rising }
{
    match order {
        Order::Rises => rising,
        Order::Falls => rising.reverse(),
    }
}
