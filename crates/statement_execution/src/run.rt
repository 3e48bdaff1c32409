//! Running a statement whose locks are had.

ghost use Rattle.std.specs.Prelude.{◌≡◌, ◌++◌, ◌∷◌, [], IfOk, OnOk};
ghost use Rattle.row_tables.specs.Layers.{sight};
ghost use Rattle.statement_evaluation.specs.Effect.{effect};
ghost use Rattle.statement_evaluation.specs.Borrowed.{effect_at};
ghost use Rattle.statement_execution.specs.Run.{MayLook, fault_of, left_by, events_of, wrote_each, WritesAlone};

use crate::effects::effect_of;
use bound_statements::Bound;
use events::{Event, Fault, Log};
use row_tables::Store;
use statement_evaluation::{Few, Given, Write, Writes};
use std::alloc::{AllocError, Global};

/// Runs a statement that has asked for its locks: its whole effect on the rows that its session sees, or none where it fails. Tells of
/// it; where it fails, the fault is the answer and nothing is told. Where others have written, a select shows what is committed.
pub fn run_statement(
    alloc: Global,
    statement: &Bound,
    session: u8,
    store: &mut Store,
    log: &mut Log,
) -> Result<Option<Fault>, AllocError>
    requires { MayLook session statement.now store.old }
    ensures fault { IfOk result (λ fault. fault ≡ fault_of (effect statement.now (sight session store.old))) }
    ensures left { OnOk result (store.new ≡ left_by session (effect statement.now (sight session store.old)) store.old) }
    ensures told { OnOk result (log.new ≡ log.old ++ events_of (effect statement.now (sight session store.old))) }
{
    match effect_in(alloc, statement, session, &*store)? {
        Given::Failed(fault) => Ok(Some(fault)),
        Given::Told(events, writes) => {
            write_each(store, session, writes)?;
            tell_each(log, events)?;
            Ok(None)
        }
    }
}

/// The effect of a statement on the rows that its session sees.
fn effect_in(
    alloc: Global,
    statement: &Bound,
    session: u8,
    store: &Store,
) -> Result<Given, AllocError>
    requires { MayLook session statement.now store.now }
    ensures { IfOk result (λ given. effect_at given ≡ effect statement.now (sight session store.now)) }
{
    match statement {
        Bound::Select(_, _, _, _, _, _) => {
            let only = store.only(session)?;
            effect_of(alloc, statement, session, &only)
        }
        _ => effect_of(alloc, statement, session, store),
    }
}

/// Leaves these in the store. Where memory runs out, some of them may be left there.
fn write_each(store: &mut Store, session: u8, writes: Writes) -> Result<(), AllocError>
    requires { WritesAlone session writes store.old }
    ensures { OnOk result (store.new ≡ wrote_each session writes store.old) }
{
    let (one, items) = writes.into_parts();
    match one {
        Some(write) => write_one(store, session, write),
        None => write_items(store, session, items),
    }
}

fn write_one(store: &mut Store, session: u8, write: Write) -> Result<(), AllocError>
    requires { WritesAlone session (write ∷ []) store.old }
    ensures { OnOk result (store.new ≡ wrote_each session (write ∷ []) store.old) }
{
    let (table, key, left) = write.into_parts();
    store.write(session, table, key, left)
}

fn write_items(store: &mut Store, session: u8, writes: Vec<Write>) -> Result<(), AllocError>
    requires { WritesAlone session writes.items store.old }
    ensures { OnOk result (store.new ≡ wrote_each session writes.items store.old) }
{
    for write in writes {
        let (table, key, left) = write.into_parts();
        store.write(session, table, key, left)?;
    }
    Ok(())
}

fn tell_each(log: &mut Log, events: Few<Event>) -> Result<(), AllocError>
    ensures { OnOk result (log.new ≡ log.old ++ events) }
{
    let (one, items) = events.into_parts();
    match one {
        Some(event) => log.push(event),
        None => tell_items(log, items),
    }
}

fn tell_items(log: &mut Log, events: Vec<Event>) -> Result<(), AllocError>
    ensures { OnOk result (log.new ≡ log.old ++ events.items) }
{
    for event in events {
        log.push(event)?;
    }
    Ok(())
}
