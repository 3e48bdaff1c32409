//! One request of a statement.

ghost use Rattle.std.specs.Prelude.{◌≡◌, false, IfOk};
ghost use Rattle.lock_modes.specs.Resource.{resource_at};
ghost use Rattle.lock_queues.specs.Locks.{waits_now};
ghost use Rattle.bound_statements.specs.Plan as plan;
ghost use Rattle.session_steps.specs.Going.{IsReply, after_reply};

use bound_statements::{Bound, nowait};
use events::Fault;
use lock_modes::{Mode, Place};
use lock_queues::{Answer, LockTable, Taken};
use machine_model::Reply;
use std::alloc::AllocError;

/// Asks for one mode of a statement. The request waits where it may not be had at once, unless it would close a ring or refuses to wait.
pub(crate) fn ask_one(
    locks: &mut LockTable,
    session: u8,
    statement: &Bound,
    place: Place<'_>,
    mode: Mode,
) -> Result<Reply, AllocError>
    requires { waits_now locks.old.waits session ≡ false }
    ensures reply { IfOk result (IsReply locks.old session (resource_at place.entry) mode (plan.nowait statement.now)) }
    ensures change { IfOk result (λ reply. locks.new ≡ after_reply locks.old session (resource_at place.entry) mode reply) }
{
    if nowait(statement) {
        return match locks.ask_now(session, place, mode)? {
            Taken::Granted => Ok(Reply::Had),
            Taken::Refused => Ok(Reply::Refused(Fault::Unavailable)),
        };
    }
    match locks.ask(session, place, mode)? {
        Answer::Granted => Ok(Reply::Had),
        Answer::Waits => Ok(Reply::Waits),
        Answer::Ring => Ok(Reply::Refused(Fault::Deadlock)),
    }
}
