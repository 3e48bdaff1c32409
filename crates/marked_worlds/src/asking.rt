//! The requests of a statement by the numbers of resources.

ghost use Rattle.std.specs.Prelude.{◌≡◌, ◌<◌, false, length, slice_get, IfOk, IfSome, OnErr};
ghost use Rattle.std.specs.Option.{option_map};
ghost use Rattle.std.specs.List.{Contains};
ghost use Rattle.lock_modes.specs.declared.resource.Resource.{Resource as Named};
ghost use Rattle.bound_statements.specs.Plan.{HasKeys, plan};
ghost use Rattle.bound_statements.specs.Plan as of_plan;
ghost use Rattle.lock_queues.specs.Locks.{waits_now};
ghost use Rattle.numbered_specs.specs.Numbers.{asked_by, HasNumber, request_of, resource_of};
ghost use Rattle.session_steps.specs.Going.{IsReply, after_reply};
ghost use Rattle.marked_worlds.specs.Stages.{IsKnown};

use bound_statements::{Bound, lock_plan, nowait};
use events::Fault;
use lock_queues::{Answer, Taken};
use machine_model::Reply;
use marked_locks::MarkedLocks;
use marked_modes::MAX_HOLDERS;
use numbered_specs::{NumberedRequest, SpecNumbers};
use session_steps::Origin;
use std::alloc::AllocError;

/// The request with a number of the lock plan of a statement, which stands at this place of what is sent; none where there is no such request.
pub(crate) fn request_at(
    numbers: &SpecNumbers,
    statement: &Bound,
    origin: Origin,
    place: usize,
    number: u8,
) -> Result<Option<NumberedRequest>, AllocError>
    requires keys { HasKeys statement.now }
    requires known { IsKnown numbers.now origin place statement.now }
    ensures known { IfOk result (λ found. IfSome found (λ q. HasNumber numbers.now.resources q.resource)) }
    ensures request { IfOk result (λ found. option_map (request_of numbers.now.resources) found ≡ slice_get (plan statement.now) number) }
{
    match origin {
        Origin::Setup => named_at(numbers, statement, number),
        Origin::Step(step) => Ok(planned_at(numbers.plan(step, place), number)),
    }
}

fn planned_at(plan: &[NumberedRequest], number: u8) -> Option<NumberedRequest>
    ensures { result ≡ slice_get plan.now number }
{
    plan.get(number as usize).copied()
}

/// The request with a number of a statement whose resources are looked up by their names.
fn named_at(
    numbers: &SpecNumbers,
    statement: &Bound,
    number: u8,
) -> Result<Option<NumberedRequest>, AllocError>
    requires keys { HasKeys statement.now }
    requires known { (r : Named) → Contains (asked_by statement.now) r → Contains numbers.now.resources r }
    ensures known { IfOk result (λ found. IfSome found (λ q. HasNumber numbers.now.resources q.resource)) }
    ensures request { IfOk result (λ found. option_map (request_of numbers.now.resources) found ≡ slice_get (plan statement.now) number) }
{
    let Some((place, mode)) = lock_plan(statement, number) else {
        return Ok(None);
    };
    let name = place.to_resource()?;
    let Some(resource) = numbers.number_of(&name) else {
        unreachable!()
    };
    Ok(Some(NumberedRequest { resource, mode }))
}

/// Asks for one mode of a statement. The request waits where it may not be had at once, unless it would close a ring or refuses to wait. Without
/// memory everything stays as it was.
pub(crate) fn ask_one(
    locks: &mut MarkedLocks,
    session: u8,
    statement: &Bound,
    request: NumberedRequest,
) -> Result<Reply, AllocError>
    requires free { waits_now locks.old.now.waits session ≡ false }
    requires session { session < MAX_HOLDERS }
    requires number { HasNumber locks.old.resources request.resource }
    ensures reply { IfOk result (IsReply locks.old.now session (resource_of locks.old.resources request.resource) request.mode (of_plan.nowait statement.now)) }
    ensures change { IfOk result (λ reply.
        locks.new ≡ record locks.old { now = after_reply locks.old.now session (resource_of locks.old.resources request.resource) request.mode reply }) }
    ensures kept { OnErr result (locks.new ≡ locks.old) }
{
    if nowait(statement) {
        return match locks.ask_now(session, request.resource, request.mode)? {
            Taken::Granted => Ok(Reply::Had),
            Taken::Refused => Ok(Reply::Refused(Fault::Unavailable)),
        };
    }
    match locks.ask(session, request.resource, request.mode)? {
        Answer::Granted => Ok(Reply::Had),
        Answer::Waits => Ok(Reply::Waits),
        Answer::Ring => Ok(Reply::Refused(Fault::Deadlock)),
    }
}
