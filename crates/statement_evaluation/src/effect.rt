//! The effect of a statement, before any of it is done.

ghost use Rattle.std.specs.Prelude.{◌≡◌, ◌∷◌, []};
ghost use Rattle.statement_evaluation.specs.Effect as spec;
ghost use Rattle.statement_evaluation.specs.Borrowed.{effect_at};

use crate::few::Few;
use crate::write::Writes;
use events::{Event, Fault};
use std::alloc::Global;

/// What a statement tells and writes, or why it fails.
#[derive(Drop)]
pub enum Given {
    /// It tells these events and leaves these writes.
    Told(Few<Event>, Writes),
    /// It fails: it tells nothing and leaves nothing.
    Failed(Fault),
}

/// One event, and writes.
pub fn telling(alloc: Global, event: Event, writes: Writes) -> Given
    ensures { effect_at result ≡ spec.Gives (event ∷ []) writes }
{
    Given::Told(Few::of_one(alloc, event), writes)
}

/// Neither an event nor a write.
pub fn nothing(alloc: Global) -> Given
    ensures { effect_at result ≡ spec.Gives [] [] }
{
    Given::Told(Few::new(alloc), Writes::new(alloc))
}
