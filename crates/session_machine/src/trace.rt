//! What a session comes to while it goes: the locks that it gets and lets go, and why it is refused a request, if it is.

ghost use Rattle.std.specs.Prelude.{◌≡◌, ◌++◌, ◌<◌, All, IfOk, OnOk, length, true, false, drop, None};
ghost use Rattle.bound_statements.specs.Plan as plan;
ghost use Rattle.bound_statements.specs.Plan.{HasKeys, IsShort};
ghost use Rattle.line_moments.specs.Moments as moments;
ghost use Rattle.lock_modes.specs.Resource.{resource_at};
ghost use Rattle.lock_queues.specs.Laws.{IsBelow};
ghost use Rattle.lock_queues.specs.Locks.{waits_now, closes_ring};
ghost use Rattle.lock_queues.specs.LockTable.{look_in, queued, slice};
ghost use Rattle.bound_statements.specs.Levels.{is_unlocked};
ghost use Rattle.machine_model.specs.Session.{Held, in_status, kind};
ghost use Rattle.session_machine.specs.SharedStage.{staged_of};
ghost use Rattle.session_machine.specs.Tracing.{Traces, TracesAsking, had_by, refusal_at};
ghost use Rattle.session_steps.specs.Going.{tasks_from, IsToAsk, IsToGo};
ghost use Rattle.session_steps.specs.Stage.{member_at, standing_at};
ghost use Rattle.session_steps.specs.State.{SessionState};

use crate::asking::ask_one;
use crate::stage::SharedStage;
use bound_statements::{Bound, lock_plan, nowait};
use line_moments::{Change, Refusal};
use lock_modes::{Mode, Place, Resource};
use lock_queues::LockTable;
use machine_model::{Reply, Status};
use session_steps::{Point, Stage, is_unlocked_in, perform};
use sqlite_items::Items;
use std::alloc::{AllocError, Global};

/// What a session comes to.
pub(crate) struct Trace {
    pub(crate) changes: Items<Change>,
    pub(crate) refusal: Option<Refusal>,
}

// Written out and not derived, so that who owns one calls this and does not let its parts go one by one.
impl Drop for Trace {
    fn drop(self) {
        let Trace {
            changes: _changes,
            refusal: _refusal,
        } = self;
    }
}

impl Trace {
    /// Of a session that goes: nothing more than these changes.
    pub(crate) fn of(changes: Items<Change>) -> Trace
        ensures { result ≡ record { changes = changes; refusal = None } }
    {
        Trace {
            changes,
            refusal: None,
        }
    }

    /// The changes, and why a request is refused, if one is.
    pub(crate) fn into_parts(self) -> (Items<Change>, Option<Refusal>)
        ensures { result ≡ (self.changes, self.refusal) }
    {
        let Trace { changes, refusal } = self;
        (changes, refusal)
    }
}

/// What asking for the locks of a statement comes to.
#[derive(Clone, Copy, PartialEq, Eq)]
pub(crate) enum Course {
    /// All of them are had.
    AllHad,
    /// The session stops at one that waits or is refused.
    Stops,
}

/// Tells what a session has at a place.
fn tell_had(
    locks: &LockTable,
    session: u8,
    place: Place<'_>,
    changes: &mut Items<Change>,
) -> Result<(), AllocError>
    ensures { OnOk result (changes.new
        ≡ changes.old ++ had_by (resource_at place.entry) (look_in locks.now session (resource_at place.entry))) }
{
    match locks.holds(session, place) {
        None => Ok(()),
        Some(mode) => {
            let resource = place.to_resource()?;
            changes.push(Change::Had(resource, mode))
        }
    }
}

/// That all this is let go, if it is anything.
fn let_go_by(alloc: Global, held: &[(Resource, Mode)]) -> Result<Items<Change>, AllocError>
    ensures { IfOk result (λ changes. changes ≡ moments.let_go_by held.now) }
{
    let mut changes = Items::new(alloc);
    if let [_, ..] = held {
        changes.push(Change::LetGo)?;
    }
    Ok(changes)
}

/// That a session lets go of what it holds, if it holds anything.
fn let_go(alloc: Global, locks: &LockTable, session: u8) -> Result<Items<Change>, AllocError>
    ensures { IfOk result (λ changes. changes ≡ moments.let_go (slice session locks.now.held)) }
{
    let held = locks.held_by(session)?;
    let_go_by(alloc, &held)
}

/// What a statement lets go that goes.
fn did_changes(alloc: Global, statement: &Bound, gone: Items<Change>) -> Items<Change>
    ensures { (h : Held) → gone ≡ moments.let_go h → result ≡ moments.did_changes (kind statement.now) h }
{
    match statement {
        Bound::Commit | Bound::Rollback => gone,
        _ => Items::new(alloc),
    }
}

/// What the end of a step lets go.
fn end_changes(alloc: Global, status: Status, gone: Items<Change>) -> Items<Change>
    ensures { (h : Held) → gone ≡ moments.let_go h → result ≡ moments.end_changes status h }
{
    match status {
        Status::Outside => gone,
        Status::InBlock(_) | Status::Broken => Items::new(alloc),
    }
}

/// Why a request is refused.
fn refusal_of(
    alloc: Global,
    count: u8,
    locks: &LockTable,
    session: u8,
    statement: &Bound,
    place: Place<'_>,
    mode: Mode,
) -> Result<Refusal, AllocError>
    requires free { waits_now locks.now.waits session ≡ false }
    requires known { session < count }
    requires closes { plan.nowait statement.now ≡ false
        → closes_ring count (look_in locks.now) (queued locks.now session (resource_at place) mode).waits session ≡ true }
    ensures { IfOk result (λ refusal. refusal ≡ refusal_at count locks.now session (plan.nowait statement.now) (resource_at place.entry) mode) }
{
    if nowait(statement) {
        let want = locks.want_for(alloc, session, place, mode, count)?;
        return Ok(Refusal::Wants(want));
    }
    let ring = locks.ring(alloc, session, place, mode, count)?;
    Ok(Refusal::Closes(Items::from_vec(ring)))
}

/// Asks for the locks of a statement in the order of its plan, from the request with this number on, until one is not had. Tells those that are had, and
/// where one is refused, why and what is let go. A plain select at READ COMMITTED asks for none.
fn trace_asks(
    alloc: Global,
    count: u8,
    locks: &mut LockTable,
    session: u8,
    status: Status,
    statement: &Bound,
    first: u8,
    trace: &mut Trace,
) -> Result<Course, AllocError>
    requires keys { HasKeys statement.now }
    requires short { IsShort statement.now }
    requires ready { IsToAsk session locks.old (in_status status statement.now) first }
    requires known { session < count }
    requires below { IsBelow count locks.old }
    requires whole { trace.old.refusal ≡ None }
    ensures { IfOk result (λ course. (s : SessionState) → s.status ≡ status
        → TracesAsking count session locks.old s (in_status status statement.now) first locks.new trace.old.changes trace.new course) }
{
    if is_unlocked_in(status, statement) {
        return Ok(Course::AllHad);
    }
    trace_each(
        alloc, count, locks, session, status, statement, first, trace,
    )
}

/// The same for a statement that asks for its plan.
fn trace_each(
    alloc: Global,
    count: u8,
    locks: &mut LockTable,
    session: u8,
    status: Status,
    statement: &Bound,
    first: u8,
    trace: &mut Trace,
) -> Result<Course, AllocError>
    requires keys { HasKeys statement.now }
    requires short { IsShort statement.now }
    requires locked { is_unlocked (in_status status statement.now) ≡ false }
    requires ready { IsToAsk session locks.old (in_status status statement.now) first }
    requires known { session < count }
    requires below { IsBelow count locks.old }
    requires whole { trace.old.refusal ≡ None }
    ensures { IfOk result (λ course. (s : SessionState) → s.status ≡ status
        → TracesAsking count session locks.old s (in_status status statement.now) first locks.new trace.old.changes trace.new course) }
{
    for number in first..u8::MAX {
        let Some((place, mode)) = lock_plan(statement, number) else {
            return Ok(Course::AllHad);
        };
        if status.is_broken() {
            let gone = let_go(alloc, locks, session)?;
            trace.changes.append(gone)?;
            return Ok(Course::Stops);
        }
        match ask_one(locks, session, statement, place, mode)? {
            Reply::Had => tell_had(locks, session, place, &mut trace.changes)?,
            Reply::Waits => return Ok(Course::Stops),
            Reply::Refused(_) => {
                let refusal = refusal_of(alloc, count, locks, session, statement, place, mode)?;
                let gone = let_go(alloc, locks, session)?;
                trace.changes.append(gone)?;
                trace.refusal = Some(refusal);
                return Ok(Course::Stops);
            }
        }
    }
    Ok(Course::AllHad)
}

/// Goes on with statements from a request of one of them, as a step does, and tells what that comes to behind these changes.
pub(crate) fn trace_on(
    alloc: Global,
    count: u8,
    stage: &mut SharedStage,
    session: u8,
    statements: &[Bound],
    from: Point,
    changes: Items<Change>,
) -> Result<Trace, AllocError>
    requires keys { All HasKeys statements.now }
    requires short { All IsShort statements.now }
    requires ready { IsToGo session stage.old.store stage.old.locks (member_at (staged_of stage.old) session).state.status statements.now from.statement from.request }
    requires inside { session < length stage.old.members.items }
    requires known { session < count }
    requires below { IsBelow count stage.old.locks }
    ensures { IfOk result (Traces count session changes (standing_at session (staged_of stage.old))
        (tasks_from (member_at (staged_of stage.old) session).state.status (drop from.statement statements.now) from.request)) }
{
    let mut trace = Trace::of(changes);
    let mut request = from.request;
    for number in from.statement..statements.len() {
        let statement = &statements[number];
        let status = stage.status(session);
        match trace_asks(
            alloc,
            count,
            &mut stage.locks,
            session,
            status,
            statement,
            request,
            &mut trace,
        )? {
            Course::AllHad => {}
            Course::Stops => return Ok(trace),
        }
        stage.sound();
        let gone = let_go(alloc, &stage.locks, session)?;
        if let Some(_fault) = perform(alloc, stage, session, statement)? {
            trace.changes.append(gone)?;
            return Ok(trace);
        }
        trace.changes.append(did_changes(alloc, statement, gone))?;
        request = 0;
    }
    let gone = let_go(alloc, &stage.locks, session)?;
    trace
        .changes
        .append(end_changes(alloc, stage.status(session), gone))?;
    Ok(trace)
}
