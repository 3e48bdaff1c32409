//! Values that are borrowed, so that looking at them takes no memory.

ghost use Rattle.std.specs.Prelude.{◌≡◌, IfOk, get_or, pos};
ghost use Rattle.lock_modes.specs.Value.{value_cmp};
ghost use Rattle.lock_modes.specs.declared.value.Value.TheVariants.{Int};
ghost use Rattle.statement_evaluation.specs.Borrowed.{value_at};

use finite_maps::Fork;
use lock_modes::{Row, Text, Value};
use std::alloc::AllocError;
use std::cmp::Ordering;

/// A number, or a text of a row or statement.
#[derive(Clone, Copy)]
pub enum ValueRef<'a> {
    /// A number, which is copied.
    Int(i64),
    /// A text, which stays where it is.
    Text(&'a Text),
}

impl<'a> ValueRef<'a> {
    /// A value as it is borrowed.
    pub fn of(value: &'a Value) -> ValueRef<'a>
        ensures { value_at result ≡ value.now }
    {
        match value {
            Value::Int(number) => ValueRef::Int(*number),
            Value::Text(text) => ValueRef::Text(text),
        }
    }

    /// The value in a column, 0 where the row has no such column.
    pub fn in_column(row: &'a Row, column: u16) -> ValueRef<'a>
        ensures { value_at result ≡ get_or row.now column (Int (pos 0)) }
    {
        match row.get(column as usize) {
            Some(value) => ValueRef::of(value),
            None => ValueRef::Int(0),
        }
    }

    /// Numbers stand by value before texts by bytes.
    pub fn order(self, other: ValueRef<'a>) -> Ordering
        ensures { result ≡ value_cmp (value_at self.entry) (value_at other.entry) }
    {
        match (self, other) {
            (ValueRef::Int(a), ValueRef::Int(b)) => a.cmp(&b),
            (ValueRef::Int(_), ValueRef::Text(_)) => Ordering::Less,
            (ValueRef::Text(_), ValueRef::Int(_)) => Ordering::Greater,
            (ValueRef::Text(a), ValueRef::Text(b)) => a.cmp(b),
        }
    }

    /// The value, with a text of its own. It fails for want of memory alone.
    pub fn to_value(self) -> Result<Value, AllocError>
        ensures { IfOk result (λ value. value ≡ value_at self.entry) }
    {
        match self {
            ValueRef::Int(number) => Ok(Value::Int(number)),
            ValueRef::Text(text) => Ok(Value::Text(text.fork()?)),
        }
    }
}
