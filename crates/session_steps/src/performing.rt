//! What a statement does whose requests are had.

ghost use Rattle.std.specs.Prelude.{◌≡◌, ◌<◌, ◌⊎◌, false, IfOk, OnOk};
ghost use Rattle.lock_queues.specs.Locks.{waits_now};
ghost use Rattle.statement_execution.specs.Run.{MayLook};
ghost use Rattle.bound_statements.specs.declared.statement.Level.{Level};
ghost use Rattle.machine_model.specs.Session.{Begins, Works, kind};
ghost use Rattle.session_steps.specs.Going.{Does};
ghost use Rattle.session_steps.specs.Stage.{others, standing_at};

use crate::blocks::{begin, commit, roll_back};
use crate::stage::Stage;
use bound_statements::{Bound, Level};
use events::Fault;
use std::alloc::{AllocError, Global};

/// Does a statement whose requests are had. Where it fails, its fault is returned and nothing is changed.
pub fn perform<S: Stage>(
    alloc: Global,
    stage: &mut S,
    session: u8,
    statement: &Bound,
) -> Result<Option<Fault>, AllocError>
    requires inside { session < S.count (S.past stage.old) }
    requires idle { waits_now (S.staged stage.old).locks.waits session ≡ false }
    requires alone { MayLook session statement.now (S.staged stage.old).store }
    ensures does { IfOk result (Does session (standing_at session (S.staged stage.old)) statement.now (standing_at session (S.staged stage.new))) }
    ensures others { OnOk result (others session (S.staged stage.new) ≡ others session (S.staged stage.old)) }
    ensures past { S.past stage.new ≡ S.past stage.old }
{
    match statement {
        Bound::Commit => {
            commit(stage, session)?;
            Ok(None)
        }
        Bound::Rollback => {
            roll_back(stage, session)?;
            Ok(None)
        }
        _ => work(alloc, stage, session, statement),
    }
}

/// Does a statement that ends no transaction. In a block that has failed it fails.
fn work<S: Stage>(
    alloc: Global,
    stage: &mut S,
    session: u8,
    statement: &Bound,
) -> Result<Option<Fault>, AllocError>
    requires inside { session < S.count (S.past stage.old) }
    requires ends_none { ((level : Level) × (kind statement.now ≡ Begins level)) ⊎ (kind statement.now ≡ Works) }
    requires alone { MayLook session statement.now (S.staged stage.old).store }
    ensures does { IfOk result (Does session (standing_at session (S.staged stage.old)) statement.now (standing_at session (S.staged stage.new))) }
    ensures others { OnOk result (others session (S.staged stage.new) ≡ others session (S.staged stage.old)) }
    ensures past { S.past stage.new ≡ S.past stage.old }
{
    if stage.status(session).is_broken() {
        return Ok(Some(Fault::Aborted));
    }
    match statement {
        Bound::Begin(named) => {
            begin(stage, session, Level::of_transaction(*named))?;
            Ok(None)
        }
        _ => stage.run(alloc, session, statement),
    }
}
