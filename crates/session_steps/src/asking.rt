//! The requests of a statement.

ghost use Rattle.std.specs.Prelude.{◌≡◌, ◌<◌, ℕ, false, true, IfOk, OnOk};
ghost use Rattle.lock_queues.specs.LockTable.{Locks};
ghost use Rattle.bound_statements.specs.Levels.{is_unlocked};
ghost use Rattle.bound_statements.specs.Plan.{HasKeys, IsShort};
ghost use Rattle.machine_model.specs.Go.{is_broken};
ghost use Rattle.machine_model.specs.Session.{in_status};
ghost use Rattle.session_steps.specs.State.{SessionState};
ghost use Rattle.session_steps.specs.Acting as act;
ghost use Rattle.session_steps.specs.Going.{HasAsked, IsToAsk};
ghost use Rattle.session_steps.specs.Stage.{member_at, others, standing_at};

use crate::point::Origin;
use crate::stage::Stage;
use bound_statements::{Bound, is_unlocked, is_unlocked_at, lock_plan};
use events::Fault;
use machine_model::{Reply, Status};
use std::alloc::AllocError;

/// What asking for the locks of a statement came to.
#[derive(Clone, Copy, PartialEq, Eq)]
pub enum Asked {
    /// All of them are had.
    Had,
    /// The request with this number waits.
    Waits(u8),
    /// A request is refused.
    Refused(Fault),
}

/// Asks for the locks of a statement in the order of its plan, from the request with this number on, until one is not had. A plain select at READ COMMITTED
/// asks for none, and nor does a session whose block has failed.
pub(crate) fn ask_all<S: Stage>(
    stage: &mut S,
    session: u8,
    statement: &Bound,
    origin: Origin,
    place: usize,
    first: u8,
) -> Result<Asked, AllocError>
    requires keys { HasKeys statement.now }
    requires short { IsShort statement.now }
    requires known { S.knows (S.past stage.old) origin place statement.now }
    requires inside { session < S.count (S.past stage.old) }
    requires ready { IsToAsk session (S.staged stage.old).locks (in_status (member_at (S.staged stage.old) session).state.status statement.now) first }
    ensures asked { IfOk result (HasAsked session (S.staged stage.old).locks (member_at (S.staged stage.old) session).state (in_status (member_at (S.staged stage.old) session).state.status statement.now) first
        (S.staged stage.new).locks) }
    ensures locks { OnOk result (standing_at session (S.staged stage.new) ≡ act.locked (standing_at session (S.staged stage.old)) (S.staged stage.new).locks) }
    ensures others { OnOk result (others session (S.staged stage.new) ≡ others session (S.staged stage.old)) }
    ensures past { S.past stage.new ≡ S.past stage.old }
{
    let status = stage.status(session);
    if is_unlocked_in(status, statement) {
        return Ok(Asked::Had);
    }
    if status.is_broken() {
        return Ok(ask_broken(statement, first));
    }
    ask_each(stage, session, statement, origin, place, first)
}

/// Whether a statement asks for none of its plan where its session stands so with its block.
pub fn is_unlocked_in(status: Status, statement: &Bound) -> bool
    ensures { result ≡ is_unlocked (in_status status statement.now) }
{
    match status {
        Status::Outside | Status::Broken => is_unlocked(statement),
        Status::InBlock(level) => is_unlocked_at(level, statement),
    }
}

/// What asking comes to in a block that has failed.
fn ask_broken(statement: &Bound, first: u8) -> Asked
    requires { HasKeys statement.now }
    ensures { (i : ℕ) (t : Locks) (s : SessionState) → is_broken s.status ≡ true → is_unlocked (in_status s.status statement.now) ≡ false
        → IsToAsk i t (in_status s.status statement.now) first → HasAsked i t s (in_status s.status statement.now) first t result }
{
    match lock_plan(statement, first) {
        None => Asked::Had,
        Some(_) => Asked::Refused(Fault::Aborted),
    }
}

/// Asks for the locks of a statement that asks for its plan, in a session whose block has not failed.
fn ask_each<S: Stage>(
    stage: &mut S,
    session: u8,
    statement: &Bound,
    origin: Origin,
    place: usize,
    first: u8,
) -> Result<Asked, AllocError>
    requires keys { HasKeys statement.now }
    requires short { IsShort statement.now }
    requires known { S.knows (S.past stage.old) origin place statement.now }
    requires inside { session < S.count (S.past stage.old) }
    requires locked { is_unlocked (in_status (member_at (S.staged stage.old) session).state.status statement.now) ≡ false }
    requires whole { is_broken (member_at (S.staged stage.old) session).state.status ≡ false }
    requires ready { IsToAsk session (S.staged stage.old).locks (in_status (member_at (S.staged stage.old) session).state.status statement.now) first }
    ensures asked { IfOk result (HasAsked session (S.staged stage.old).locks (member_at (S.staged stage.old) session).state (in_status (member_at (S.staged stage.old) session).state.status statement.now) first
        (S.staged stage.new).locks) }
    ensures locks { OnOk result (standing_at session (S.staged stage.new) ≡ act.locked (standing_at session (S.staged stage.old)) (S.staged stage.new).locks) }
    ensures others { OnOk result (others session (S.staged stage.new) ≡ others session (S.staged stage.old)) }
    ensures past { S.past stage.new ≡ S.past stage.old }
{
    for number in first..u8::MAX {
        let Some(reply) = stage.ask(session, statement, origin, place, number)? else {
            return Ok(Asked::Had);
        };
        match reply {
            Reply::Had => {}
            Reply::Waits => return Ok(Asked::Waits(number)),
            Reply::Refused(fault) => return Ok(Asked::Refused(fault)),
        }
    }
    Ok(Asked::Had)
}
