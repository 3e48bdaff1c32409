//! Whether events, rows and values are the same. No texts are made and no order is told.

ghost use Rattle.std.specs.Prelude.{◌≡◌, ◌↔◌, IsTrue};

use crate::event::Event;
use event_tree::Same;
use lock_modes::Value;

impl Same for Event {
    fn is_same(&self, other: &Event) -> bool {
        is_same_event(self, other)
    }
}

/// Whether two lists of events are the same.
pub(crate) fn are_same_events(a: &[Event], b: &[Event]) -> bool
    ensures { IsTrue result ↔ (a.now ≡ b.now) }
{
    if a.len() != b.len() {
        return false;
    }
    for place in 0..a.len() {
        if !is_same_event(&a[place], &b[place]) {
            return false;
        }
    }
    true
}

/// Whether two rows have the same values.
pub fn are_same_values(a: &[Value], b: &[Value]) -> bool
    ensures { IsTrue result ↔ (a.now ≡ b.now) }
{
    if a.len() != b.len() {
        return false;
    }
    for place in 0..a.len() {
        if !is_same_value(&a[place], &b[place]) {
            return false;
        }
    }
    true
}

/// Whether two events are the same: an event is told by its kind, its number and its row.
#[inline(always)]
fn is_same_event(a: &Event, b: &Event) -> bool
    ensures { IsTrue result ↔ (a.now ≡ b.now) }
{
    a.kind() == b.kind() && a.number() == b.number() && are_same_values(a.values(), b.values())
}

/// Whether two values are the same.
pub fn is_same_value(a: &Value, b: &Value) -> bool
    ensures { IsTrue result ↔ (a.now ≡ b.now) }
{
    match (a, b) {
        (Value::Int(a), Value::Int(b)) => *a == *b,
        (Value::Text(a), Value::Text(b)) => a.as_str() == b.as_str(),
        (Value::Int(_), Value::Text(_)) | (Value::Text(_), Value::Int(_)) => false,
    }
}
