//! The reads of others that a session made stale that went from one stage to the other.

ghost use Rattle.std.specs.Prelude.{◌≡◌, ◌++◌, ◌<◌, ◌≤◌, true, IfOk, OnOk, get_or, length, slice_get};
ghost use Rattle.bound_specs.specs.Spec.{no_step};
ghost use Rattle.line_moments.specs.Stale as reads;
ghost use Rattle.row_tables.specs.Layers.{sight};
ghost use Rattle.session_machine.specs.SharedStage.{staged_of};
ghost use Rattle.session_machine.specs.Telling as telling;
ghost use Rattle.statement_evaluation.specs.Effect.{effect};
ghost use Rattle.std.specs.Option.{option_copied};
ghost use Rattle.session_steps.specs.Stage.{member_at};

use crate::stage::SharedStage;
use bound_specs::Spec;
use bound_statements::Bound;
use events::{Log, Transcript};
use finite_maps::Fork;
use line_moments::{OpenRead, Stale, note_stale, open_reads};
use row_tables::Store;
use session_steps::Stage;
use sqlite_items::Items;
use statement_execution::run_statement;
use std::alloc::{AllocError, Global};

fn is_select(statement: &Bound) -> bool
    ensures { result ≡ reads.is_select statement.now }
{
    match statement {
        Bound::Select(_, _, _, _, _, _) => true,
        Bound::Insert(_, _, _)
        | Bound::Update(_, _, _, _)
        | Bound::Delete(_, _, _)
        | Bound::Begin(_)
        | Bound::Commit
        | Bound::Rollback
        | Bound::Lock(_, _, _)
        | Bound::SetVariable => false,
    }
}

/// What a SELECT tells a session of the rows that it sees, and nothing where it fails. It asks for no lock and leaves all as it is.
fn select_again(
    alloc: Global,
    store: &Store,
    session: u8,
    statement: &Bound,
) -> Result<Transcript, AllocError>
    requires { reads.is_select statement.now ≡ true }
    ensures { IfOk result (λ told. told ≡ reads.events_of (effect statement.now (sight session store.now))) }
{
    let mut own = store.fork()?;
    let mut log = Log::new(alloc);
    run_statement(alloc, statement, session, &mut own, &mut log)?;
    log.to_transcript()
}

/// What a statement tells a session of the rows that it sees, if it is a SELECT.
fn told_again(
    alloc: Global,
    store: &Store,
    session: u8,
    statement: &Bound,
) -> Result<Transcript, AllocError>
    ensures { IfOk result (λ told. told ≡ reads.told_of statement.now (sight session store.now)) }
{
    if !is_select(statement) {
        return Ok(Transcript::new(alloc));
    }
    select_again(alloc, store, session, statement)
}

/// The statement of a step at a place, if there is one.
fn statement_at(spec: &Spec, step: u8, place: usize) -> Option<&Bound>
    ensures { option_copied result ≡ slice_get (get_or spec.now.run.steps step no_step).statements place }
{
    if usize::from(step) >= spec.step_names().len() {
        return None;
    }
    spec.statements(step).get(place)
}

impl SharedStage {
    /// Notes a session's read, which it did before, if it is stale now.
    fn note_read(
        &self,
        alloc: Global,
        spec: &Spec,
        before: &SharedStage,
        session: u8,
        read: &OpenRead,
        stale: &mut Items<Stale>,
    ) -> Result<(), AllocError>
        ensures { OnOk result (stale.new
            ≡ stale.old ++ reads.stale_read spec.now.run.steps session (sight session before.now.store) (sight session self.now.store) read.now) }
    {
        let Some(statement) = statement_at(spec, read.step, read.place) else {
            return Ok(());
        };
        let old = told_again(alloc, &before.store, session, statement)?;
        let now = told_again(alloc, &self.store, session, statement)?;
        note_stale(session, read, &old, now, stale)
    }

    /// Notes those of a session's open reads that are stale and were not on the stage before.
    fn note_reads(
        &self,
        alloc: Global,
        spec: &Spec,
        before: &SharedStage,
        session: u8,
        stale: &mut Items<Stale>,
    ) -> Result<(), AllocError>
        requires { session < length before.now.members.items }
        ensures { OnOk result (stale.new ≡ stale.old ++ telling.stale_since spec.now.run.steps session (staged_of before.now) (staged_of self.now)) }
    {
        let told = before.members[session as usize].log().to_transcript()?;
        let open = open_reads(alloc, before.status(session), told.events())?;
        for read in open.as_slice() {
            self.note_read(alloc, spec, before, session, read, stale)?;
        }
        Ok(())
    }

    /// Of so many sessions but this one, the open reads that are stale and were not on the stage before.
    pub(crate) fn stale_since(
        &self,
        alloc: Global,
        spec: &Spec,
        before: &SharedStage,
        session: u8,
        count: u8,
    ) -> Result<Items<Stale>, AllocError>
        requires { count ≤ length before.now.members.items }
        ensures { IfOk result (λ stale. stale ≡ telling.stale_told spec.now.run.steps count session (staged_of before.now) (staged_of self.now)) }
    {
        let mut stale = Items::new(alloc);
        for other in 0..count {
            if other != session {
                self.note_reads(alloc, spec, before, other, &mut stale)?;
            }
        }
        Ok(stale)
    }
}
