//! Transaction blocks of a session, and the ends of its steps.

ghost use Rattle.std.specs.Prelude.{◌≡◌, ◌≢◌, ◌<◌, OnOk};
ghost use Rattle.machine_model.specs.Session.{after_fault};
ghost use Rattle.machine_model.specs.declared.status.Status.TheVariants as of;
ghost use Rattle.session_steps.specs.Acting as act;
ghost use Rattle.session_steps.specs.Going.{begins_in, commits_in, ends_block_in, failed_in, finished_in, rolls_back_in};
ghost use Rattle.session_steps.specs.Stage.{member_at, others, standing_at};

use crate::stage::Stage;
use bound_statements::Level;
use events::{Event, Fault, Warning};
use machine_model::Status;
use std::alloc::AllocError;

/// Drops what a session wrote in its transaction, and its locks.
fn drop_transaction<S: Stage>(stage: &mut S, session: u8) -> Result<(), AllocError>
    requires { session < S.count (S.past stage.old) }
    ensures dropped { OnOk result (standing_at session (S.staged stage.new)
        ≡ act.let_go session (act.undone session (standing_at session (S.staged stage.old)))) }
    ensures others { OnOk result (others session (S.staged stage.new) ≡ others session (S.staged stage.old)) }
    ensures past { S.past stage.new ≡ S.past stage.old }
{
    stage.undo(session)?;
    stage.let_go(session)
}

/// Keeps what a session wrote in its transaction, and drops its locks.
fn keep_transaction<S: Stage>(stage: &mut S, session: u8) -> Result<(), AllocError>
    requires { session < S.count (S.past stage.old) }
    ensures kept { OnOk result (standing_at session (S.staged stage.new)
        ≡ act.let_go session (act.kept session (standing_at session (S.staged stage.old)))) }
    ensures others { OnOk result (others session (S.staged stage.new) ≡ others session (S.staged stage.old)) }
    ensures past { S.past stage.new ≡ S.past stage.old }
{
    stage.keep(session)?;
    stage.let_go(session)
}

/// Ends a step by a fault: the transaction is undone, its locks go, and its block has failed.
pub(crate) fn fail<S: Stage>(stage: &mut S, session: u8, fault: Fault) -> Result<(), AllocError>
    requires { session < S.count (S.past stage.old) }
    ensures failed { OnOk result (standing_at session (S.staged stage.new) ≡ failed_in session (standing_at session (S.staged stage.old)) fault) }
    ensures others { OnOk result (others session (S.staged stage.new) ≡ others session (S.staged stage.old)) }
    ensures past { S.past stage.new ≡ S.past stage.old }
{
    drop_transaction(stage, session)?;
    let status = stage.status(session);
    stage.set_status(session, status_after_fault(status))?;
    stage.tell(session, Event::Failed(fault))?;
    stage.tell(session, Event::Done)
}

/// A block that a fault meets has failed.
fn status_after_fault(status: Status) -> Status
    ensures { result ≡ after_fault status }
{
    match status {
        Status::Outside => Status::Outside,
        Status::InBlock(_) | Status::Broken => Status::Broken,
    }
}

/// Ends a step. Outside a block its statements were a transaction, which commits.
pub(crate) fn finish<S: Stage>(stage: &mut S, session: u8) -> Result<(), AllocError>
    requires { session < S.count (S.past stage.old) }
    ensures finished { OnOk result (standing_at session (S.staged stage.new) ≡ finished_in session (standing_at session (S.staged stage.old))) }
    ensures others { OnOk result (others session (S.staged stage.new) ≡ others session (S.staged stage.old)) }
    ensures past { S.past stage.new ≡ S.past stage.old }
{
    if stage.status(session).is_outside() {
        keep_transaction(stage, session)?;
    }
    stage.tell(session, Event::Done)
}

/// BEGIN, in a session whose block has not failed. A block that is there keeps its level.
pub(crate) fn begin<S: Stage>(stage: &mut S, session: u8, level: Level) -> Result<(), AllocError>
    requires inside { session < S.count (S.past stage.old) }
    requires whole { (member_at (S.staged stage.old) session).state.status ≢ of.Broken }
    ensures began { OnOk result (standing_at session (S.staged stage.new) ≡ begins_in level (standing_at session (S.staged stage.old))) }
    ensures others { OnOk result (others session (S.staged stage.new) ≡ others session (S.staged stage.old)) }
    ensures past { S.past stage.new ≡ S.past stage.old }
{
    if stage.status(session).is_outside() {
        stage.set_status(session, Status::InBlock(level))?;
    } else {
        stage.tell(session, Event::Warned(Warning::InBlock))?;
    }
    stage.tell(session, Event::Began)
}

/// COMMIT. A block that has failed is rolled back.
pub(crate) fn commit<S: Stage>(stage: &mut S, session: u8) -> Result<(), AllocError>
    requires { session < S.count (S.past stage.old) }
    ensures commits { OnOk result (standing_at session (S.staged stage.new) ≡ commits_in session (standing_at session (S.staged stage.old))) }
    ensures others { OnOk result (others session (S.staged stage.new) ≡ others session (S.staged stage.old)) }
    ensures past { S.past stage.new ≡ S.past stage.old }
{
    if stage.status(session).is_broken() {
        return roll_back(stage, session);
    }
    keep_transaction(stage, session)?;
    end_block(stage, session, Event::Committed)
}

/// ROLLBACK.
pub(crate) fn roll_back<S: Stage>(stage: &mut S, session: u8) -> Result<(), AllocError>
    requires { session < S.count (S.past stage.old) }
    ensures rolls_back { OnOk result (standing_at session (S.staged stage.new) ≡ rolls_back_in session (standing_at session (S.staged stage.old))) }
    ensures others { OnOk result (others session (S.staged stage.new) ≡ others session (S.staged stage.old)) }
    ensures past { S.past stage.new ≡ S.past stage.old }
{
    drop_transaction(stage, session)?;
    end_block(stage, session, Event::RolledBack)
}

/// Leaves a session outside a block, and tells it how its transaction ended.
fn end_block<S: Stage>(stage: &mut S, session: u8, event: Event) -> Result<(), AllocError>
    requires { session < S.count (S.past stage.old) }
    ensures ended { OnOk result (standing_at session (S.staged stage.new) ≡ ends_block_in (standing_at session (S.staged stage.old)) event) }
    ensures others { OnOk result (others session (S.staged stage.new) ≡ others session (S.staged stage.old)) }
    ensures past { S.past stage.new ≡ S.past stage.old }
{
    if stage.status(session).is_outside() {
        stage.tell(session, Event::Warned(Warning::NoBlock))?;
    }
    stage.set_status(session, Status::Outside)?;
    stage.tell(session, event)
}
