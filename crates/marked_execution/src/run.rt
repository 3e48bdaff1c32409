//! Running a statement whose locks are had.

ghost use Rattle.std.specs.Prelude.{◌≡◌, ◌<◌, ◌++◌, ◌∷◌, [], IfOk, OnOk, length, set};
ghost use Rattle.row_tables.specs.Layers.{sight};
ghost use Rattle.statement_evaluation.specs.Effect.{effect};
ghost use Rattle.statement_evaluation.specs.Borrowed.{effect_at};
ghost use Rattle.statement_execution.specs.Run.{MayLook, WritesAlone, events_of, fault_of, left_by, wrote_each};
ghost use Rattle.event_tree.specs.Lists.{Keeps};
ghost use Rattle.marked_logs.specs.Logs.{told_to};

use crate::marked_sight::MarkedSight;
use bound_statements::Bound;
use events::{Event, Fault};
use marked_logs::MarkedLogs;
use marked_rows::MarkedRows;
use statement_evaluation::{Few, Given, Write, Writes};
use statement_execution::effect_of;
use std::alloc::{AllocError, Global};

/// Runs a statement that has asked for its locks: its whole effect on the rows that its session sees now, or none where it fails. Tells the session of it;
/// where it fails, the fault is the answer and nothing is told. Where others have written, a select shows what is committed.
///
/// The call fails for want of memory alone. Then what stands now is good for nothing more; what was there at marks stays. Lists that were told stay
/// whatever comes of it, also where nobody is told them any more.
pub fn run_statement(
    alloc: Global,
    statement: &Bound,
    session: u8,
    rows: &mut MarkedRows,
    logs: &mut MarkedLogs<Event>,
) -> Result<Option<Fault>, AllocError>
    requires alone { MayLook session statement.now rows.old.now }
    requires inside { session < length logs.old.now }
    ensures fault { IfOk result (λ fault. fault ≡ fault_of (effect statement.now (sight session rows.old.now))) }
    ensures left { OnOk result (rows.new.now ≡ left_by session (effect statement.now (sight session rows.old.now)) rows.old.now) }
    ensures told { OnOk result (logs.new.now ≡ set logs.old.now session (told_to logs.old.now session ++ events_of (effect statement.now (sight session rows.old.now)))) }

    // Whatever comes of it, also after want of memory.
    ensures rows_marked { rows.new.marked ≡ rows.old.marked }
    ensures logs_marked { logs.new.marked ≡ logs.old.marked }
    ensures sessions { length logs.new.now ≡ length logs.old.now }
    ensures lists { Keeps logs.old.lists logs.new.lists }
{
    match effect_in(alloc, statement, session, &*rows)? {
        Given::Failed(fault) => Ok(Some(fault)),
        Given::Told(events, writes) => {
            write_each(rows, session, writes)?;
            tell_each(logs, session, events)?;
            Ok(None)
        }
    }
}

/// The effect of a statement on the rows that its session sees now.
fn effect_in(
    alloc: Global,
    statement: &Bound,
    session: u8,
    rows: &MarkedRows,
) -> Result<Given, AllocError>
    ensures { IfOk result (λ given. effect_at given ≡ effect statement.now (sight session rows.now.now)) }
{
    effect_of(alloc, statement, session, MarkedSight { rows, session })
}

/// Leaves these in the rows. Where memory runs out the rows now are good for nothing more.
fn write_each(rows: &mut MarkedRows, session: u8, writes: Writes) -> Result<(), AllocError>
    requires { WritesAlone session writes rows.old.now }
    ensures left { OnOk result (rows.new.now ≡ wrote_each session writes rows.old.now) }
    ensures marked { rows.new.marked ≡ rows.old.marked }
{
    let (one, items) = writes.into_parts();
    match one {
        Some(write) => write_one(rows, session, write),
        None => write_items(rows, session, items),
    }
}

fn write_one(rows: &mut MarkedRows, session: u8, write: Write) -> Result<(), AllocError>
    requires { WritesAlone session (write ∷ []) rows.old.now }
    ensures left { OnOk result (rows.new.now ≡ wrote_each session (write ∷ []) rows.old.now) }
    ensures marked { rows.new.marked ≡ rows.old.marked }
{
    let (table, key, left) = write.into_parts();
    rows.write(session, table, &key, left)
}

fn write_items(rows: &mut MarkedRows, session: u8, writes: Vec<Write>) -> Result<(), AllocError>
    requires { WritesAlone session writes.items rows.old.now }
    ensures left { OnOk result (rows.new.now ≡ wrote_each session writes.items rows.old.now) }
    ensures marked { rows.new.marked ≡ rows.old.marked }
{
    for write in writes {
        let (table, key, left) = write.into_parts();
        rows.write(session, table, &key, left)?;
    }
    Ok(())
}

/// Tells the session of these. Where memory runs out what is told now is good for nothing more.
fn tell_each(
    logs: &mut MarkedLogs<Event>,
    session: u8,
    events: Few<Event>,
) -> Result<(), AllocError>
    requires { session < length logs.old.now }
    ensures told { OnOk result (logs.new.now ≡ set logs.old.now session (told_to logs.old.now session ++ events)) }
    ensures marked { logs.new.marked ≡ logs.old.marked }
    ensures sessions { length logs.new.now ≡ length logs.old.now }
    ensures lists { Keeps logs.old.lists logs.new.lists }
{
    let (one, items) = events.into_parts();
    match one {
        Some(event) => tell_one(logs, session, event),
        None => tell_items(logs, session, items),
    }
}

fn tell_one(logs: &mut MarkedLogs<Event>, session: u8, event: Event) -> Result<(), AllocError>
    requires { session < length logs.old.now }
    ensures told { OnOk result (logs.new.now ≡ set logs.old.now session (told_to logs.old.now session ++ event ∷ [])) }
    ensures marked { logs.new.marked ≡ logs.old.marked }
    ensures sessions { length logs.new.now ≡ length logs.old.now }
    ensures lists { Keeps logs.old.lists logs.new.lists }
{
    logs.tell(session, event)
}

fn tell_items(
    logs: &mut MarkedLogs<Event>,
    session: u8,
    events: Vec<Event>,
) -> Result<(), AllocError>
    requires { session < length logs.old.now }
    ensures told { OnOk result (logs.new.now ≡ set logs.old.now session (told_to logs.old.now session ++ events.items)) }
    ensures marked { logs.new.marked ≡ logs.old.marked }
    ensures sessions { length logs.new.now ≡ length logs.old.now }
    ensures lists { Keeps logs.old.lists logs.new.lists }
{
    for event in events {
        logs.tell(session, event)?;
    }
    Ok(())
}
