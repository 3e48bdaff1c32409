//! The order of the rows that are left.

ghost use Rattle.std.specs.Prelude.{◌≡◌};
ghost use Rattle.order_classes.specs.Order.{row_cmp, rows_cmp, tables_cmp};

use line_moments::TableRows;
use lock_modes::{Row, Value};
use std::cmp::Ordering;

/// The order of the rows of tables: by the first table that differs, and then by how many there are.
pub(crate) fn tables_order(a: &[TableRows], b: &[TableRows]) -> Ordering
    ensures { result ≡ tables_cmp a.now b.now }
{
    for place in 0..a.len().min(b.len()) {
        let order = rows_order(a[place].as_slice(), b[place].as_slice());
        if order.is_ne() {
            return order;
        }
    }
    a.len().cmp(&b.len())
}

/// The order of the rows of a table: by the first row that differs, and then by how many there are.
fn rows_order(a: &[(Value, Row)], b: &[(Value, Row)]) -> Ordering
    ensures { result ≡ rows_cmp a.now b.now }
{
    for place in 0..a.len().min(b.len()) {
        let order = row_order(&a[place], &b[place]);
        if order.is_ne() {
            return order;
        }
    }
    a.len().cmp(&b.len())
}

/// The order of two rows: by their keys, and then by their values.
fn row_order(a: &(Value, Row), b: &(Value, Row)) -> Ordering
    ensures { result ≡ row_cmp a.now b.now }
{
    let keys = a.0.cmp(&b.0);
    if keys.is_ne() {
        return keys;
    }
    a.1.values().cmp(&b.1.values())
}
