//! The effect of a statement, before any of it is done.

ghost use Rattle.std.specs.Prelude.{◌≡◌, IfOk};
ghost use Rattle.row_tables.specs.Layers.{sight};
ghost use Rattle.statement_evaluation.specs.Effect.{effect};
ghost use Rattle.statement_evaluation.specs.Borrowed.{effect_at};
ghost use Rattle.statement_execution.specs.Run.{SeesAlone};

use crate::insert::{inserted, made};
use crate::matching::matching;
use crate::sights::Sight;
use bound_statements::Bound;
use events::Event;
use statement_evaluation::{Given, Writes, deleted, nothing, selected, telling, updated};
use std::alloc::{AllocError, Global};

/// The effect of a statement on the rows that a session sees: what it tells and leaves, or why it fails. Nothing of it is done yet. No other session
/// may have a write, neither kept nor undone, where the statement looks. It fails for want of memory alone.
pub fn effect_of<'a, S: Sight<'a>>(
    alloc: Global,
    statement: &'a Bound,
    session: u8,
    rows: S,
) -> Result<Given, AllocError>
    requires { SeesAlone session statement.now (S.layers rows) }
    ensures { IfOk result (λ given. effect_at given ≡ effect statement.now (sight session (S.layers rows))) }
{
    match statement {
        Bound::Select(table, key, condition, order, output, _) => {
            let found = matching(alloc, rows, session, *table, key.as_ref(), condition)?;
            selected(alloc, order.as_slice(), output, found)
        }
        Bound::Insert(table, key_column, new) => {
            let writes = made(alloc, rows, session, *table, *key_column, new.as_slice())?;
            Ok(inserted(alloc, writes))
        }
        Bound::Update(table, key, sets, condition) => {
            let found = matching(alloc, rows, session, *table, key.as_ref(), condition)?;
            updated(alloc, sets.as_slice(), found)
        }
        Bound::Delete(table, key, condition) => {
            let found = matching(alloc, rows, session, *table, key.as_ref(), condition)?;
            deleted(alloc, found)
        }
        Bound::Lock(_, _, _) => Ok(telling(alloc, Event::Locked, Writes::new(alloc))),
        Bound::SetVariable => Ok(telling(alloc, Event::Set, Writes::new(alloc))),
        Bound::Begin(_) | Bound::Commit | Bound::Rollback => Ok(nothing(alloc)),
    }
}
