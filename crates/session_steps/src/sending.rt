//! Steps that are sent, and waits that are granted.

ghost use Rattle.std.specs.Prelude.{◌≡◌, ◌<◌, false, length, get_or, drop, OnOk};
ghost use Rattle.lock_queues.specs.Locks.{waits_now};
ghost use Rattle.lock_queues.specs.Rules.{IsNextOf};
ghost use Rattle.bound_specs.specs.Spec.{no_step};
ghost use Rattle.machine_model.specs.World.{send, settle};
ghost use Rattle.session_steps.specs.Going.{tasks_from, IsToGo};
ghost use Rattle.session_steps.specs.Stage as spec;
ghost use Rattle.session_steps.specs.Stage.{member_at, statements_of, world_in, HasGone, HasResumed, HasStarted, HasTold, IsSettled, IsStage, KnowsSteps};

use crate::point::{Origin, Point, Rest};
use crate::stage::Stage;
use crate::stepping::go_on;
use bound_specs::Spec;
use events::Event;
use std::alloc::{AllocError, Global};

/// Sends a step: its session goes, and then each wait that is ripe is granted, the first one first. A session that waits is told that it was not sent.
/// It fails for want of memory alone; of the stage no more than its past is told then.
pub fn send<S: Stage>(alloc: Global, stage: &mut S, spec: &Spec, step: u8) -> Result<(), AllocError>
    requires known { step < length spec.now.run.steps }
    requires knows { KnowsSteps (S.knows (S.past stage.old)) spec.now.run.steps }
    requires settled { IsSettled spec.now.run.sessions spec.now.run.steps (S.staged stage.old) }
    ensures sent { OnOk result (world_in spec.now.run.steps (S.staged stage.new) ≡ send spec.now.run.steps (world_in spec.now.run.steps (S.staged stage.old)) step) }
    ensures settled { OnOk result (IsSettled spec.now.run.sessions spec.now.run.steps (S.staged stage.new)) }
    ensures past { S.past stage.new ≡ S.past stage.old }
{
    let session = spec.session_of(step);
    if stage.waits(session) {
        return tell(stage, session, Event::NotSent(step));
    }
    start_step(alloc, stage, spec, session, step)?;
    settle(alloc, stage, spec)
}

/// Sends a step to its session, which does not wait, and lets it go. It fails for want of memory alone.
pub fn start_step<S: Stage>(
    alloc: Global,
    stage: &mut S,
    spec: &Spec,
    session: u8,
    step: u8,
) -> Result<(), AllocError>
    requires known { step < length spec.now.run.steps }
    requires knows { KnowsSteps (S.knows (S.past stage.old)) spec.now.run.steps }
    requires stage { IsStage spec.now.run.steps (S.staged stage.old) }
    requires inside { session < length (S.staged stage.old).members }
    requires sender { session ≡ (get_or spec.now.run.steps step no_step).session }
    requires idle { waits_now (S.staged stage.old).locks.waits session ≡ false }
    ensures started { OnOk result (HasStarted spec.now.run.steps step (S.staged stage.old) (S.staged stage.new)) }
    ensures past { S.past stage.new ≡ S.past stage.old }
{
    tell(stage, session, Event::Sent(step))?;
    go(alloc, stage, spec, session, step, Point::start())
}

/// Tells a session of an event.
fn tell<S: Stage>(stage: &mut S, session: u8, event: Event) -> Result<(), AllocError>
    requires { session < length (S.staged stage.old).members }
    ensures told { OnOk result (HasTold session event (S.staged stage.old) (S.staged stage.new)) }
    ensures past { S.past stage.new ≡ S.past stage.old }
{
    stage.tell(session, event)
}

/// Lets a session go on in a step from a place in it. What is left where a request waits is kept.
fn go<S: Stage>(
    alloc: Global,
    stage: &mut S,
    spec: &Spec,
    session: u8,
    step: u8,
    from: Point,
) -> Result<(), AllocError>
    requires known { step < length spec.now.run.steps }
    requires knows { KnowsSteps (S.knows (S.past stage.old)) spec.now.run.steps }
    requires inside { session < length (S.staged stage.old).members }
    requires ready { IsToGo session (S.staged stage.old).store (S.staged stage.old).locks (member_at (S.staged stage.old) session).state.status (statements_of spec.now.run.steps step) from.statement from.request }
    ensures gone { OnOk result (HasGone spec.now.run.steps session
        (tasks_from (member_at (S.staged stage.old) session).state.status (drop from.statement (statements_of spec.now.run.steps step)) from.request) (S.staged stage.old) (S.staged stage.new)) }
    ensures past { S.past stage.new ≡ S.past stage.old }
{
    let statements = spec.statements(step);
    let stopped = go_on(alloc, stage, session, Origin::Step(step), statements, from)?;
    stage.set_rest(session, rest_at(step, stopped))
}

/// While a wait is ripe, the first one is granted and its session goes on.
fn settle<S: Stage>(alloc: Global, stage: &mut S, spec: &Spec) -> Result<(), AllocError>
    requires knows { KnowsSteps (S.knows (S.past stage.old)) spec.now.run.steps }
    requires stage { IsStage spec.now.run.steps (S.staged stage.old) }
    ensures settled { OnOk result (world_in spec.now.run.steps (S.staged stage.new) ≡ settle (world_in spec.now.run.steps (S.staged stage.old))) }
    ensures stage { OnOk result (IsStage spec.now.run.steps (S.staged stage.new)) }
    ensures count { OnOk result (length (S.staged stage.new).members ≡ length (S.staged stage.old).members) }
    ensures past { S.past stage.new ≡ S.past stage.old }
{
    'ripe: while let Some(session) = stage.next_grant() {
        resume(alloc, stage, spec, session)?;
    }
    Ok(())
}

/// Grants the wait of a session, which goes on in its step. It fails for want of memory alone.
pub fn resume<S: Stage>(
    alloc: Global,
    stage: &mut S,
    spec: &Spec,
    session: u8,
) -> Result<(), AllocError>
    requires knows { KnowsSteps (S.knows (S.past stage.old)) spec.now.run.steps }
    requires stage { IsStage spec.now.run.steps (S.staged stage.old) }
    requires next { IsNextOf (S.staged stage.old).locks session }
    requires inside { session < length (S.staged stage.old).members }
    ensures resumed { OnOk result (HasResumed spec.now.run.steps (S.staged stage.old) (S.staged stage.new)) }
    ensures past { S.past stage.new ≡ S.past stage.old }
{
    stage.grant(session)?;
    let Some(rest) = stage.rest(session) else {
        unreachable!()
    };
    tell(stage, session, Event::Resumed)?;
    go(alloc, stage, spec, session, rest.step, rest.point)
}

/// What is left of a step that stopped there.
fn rest_at(step: u8, stopped: Option<Point>) -> Option<Rest>
    ensures { result ≡ spec.rest_at step stopped }
{
    match stopped {
        None => None,
        Some(point) => Some(Rest { step, point }),
    }
}
