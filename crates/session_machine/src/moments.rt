//! The moments of a step that is sent.

ghost use Rattle.std.specs.Prelude.{◌≡◌, ◌++◌, ◌<◌, suc, true, false, [], ◌∷◌, Some, IfOk, OnOk, length, get_or, drop};
ghost use Rattle.bound_specs.specs.Spec.{no_step};
ghost use Rattle.line_moments.specs.Moments as moments;
ghost use Rattle.lock_queues.specs.LockTable.{look_in};
ghost use Rattle.lock_queues.specs.Locks as locks;
ghost use Rattle.lock_queues.specs.Reasons.{want_of};
ghost use Rattle.lock_queues.specs.Rules.{IsNext, IsNextOf};
ghost use Rattle.machine_model.specs.World.{send, settle};
ghost use Rattle.session_machine.specs.SharedStage.{staged_of};
ghost use Rattle.session_machine.specs.Telling as telling;
ghost use Rattle.session_steps.specs.Going.{tasks_from};
ghost use Rattle.session_steps.specs.Stage.{statements_of, world_in, member_at, IsStage, IsSettled, HasTold, HasStarted, HasResumed};
ghost use Rattle.events.specs.declared.event.Event.TheVariants as event;

use crate::stage::SharedStage;
use crate::telling::{events_behind, had_of, last_step, still_of};
use crate::trace::{Trace, trace_on};
use bound_specs::Spec;
use events::{Event, Log, Transcript};
use line_moments::{Ending, Manner, Moment, Stale, Still};
use session_steps::{Point, Stage, resume, start_step};
use sqlite_items::Items;
use std::alloc::{AllocError, Global};

impl SharedStage {
    /// What a session was told.
    fn log(&self, session: u8) -> &Log
        requires { session < length self.now.members.items }
        ensures { result.now ≡ (member_at (staged_of self.now) session).state.transcript }
    {
        self.members[session as usize].log()
    }

    /// The moment of a session that stands so at its end.
    fn moment(
        &self,
        alloc: Global,
        count: u8,
        session: u8,
        manner: Manner,
        step: Option<u8>,
        events: Transcript,
        still: Items<Still>,
        stale: Items<Stale>,
        trace: Trace,
    ) -> Result<Moment, AllocError>
        requires { session < length self.now.members.items }
        ensures { IfOk result (λ moment. moment
            ≡ record {
              session = session;
              manner = manner;
              step = step;
              events = events;
              changes = trace.changes;
              status = (member_at (staged_of self.now) session).state.status;
              ending = moments.ending_by (want_of count (look_in self.now.locks) self.now.locks.waits session) trace.refusal;
              still = still;
              stale = stale;
            }) }
    {
        let want = self.locks.want_of(alloc, session, count)?;
        let (changes, refusal) = trace.into_parts();
        Ok(Moment {
            session,
            manner,
            step,
            events,
            changes,
            status: self.status(session),
            ending: Ending::new(want, refusal),
            still,
            stale,
        })
    }

    /// The moment of a session that is not sent a step, which came to this stage from that one.
    fn skipped_moment(
        &self,
        alloc: Global,
        spec: &Spec,
        before: &SharedStage,
        session: u8,
        step: u8,
    ) -> Result<Moment, AllocError>
        requires inside { session < length before.now.members.items }
        requires count { length before.now.members.items ≡ suc spec.now.run.sessions }
        requires told { HasTold session (event.NotSent step) (staged_of before.now) (staged_of self.now) }
        ensures { IfOk result (λ moment. moment
            ≡ telling.moment_told spec.now.run.steps (suc spec.now.run.sessions) (staged_of before.now) (staged_of self.now) session Manner.IsNotSent (Some step) telling.no_trace) }
    {
        let count = spec.sessions() + 1;
        let still = still_of(alloc, &before.locks, &self.locks, session, count)?;
        let stale = self.stale_since(alloc, spec, before, session, count)?;
        let events = events_behind(alloc, before.log(session), self.log(session))?;
        let trace = Trace::of(Items::new(alloc));
        let manner = Manner::IsNotSent;
        let moment = self.moment(
            alloc,
            count,
            session,
            manner,
            Some(step),
            events,
            still,
            stale,
            trace,
        )?;
        Ok(moment)
    }

    /// The moment of a session that went on in a step, which came to this stage from that one.
    fn sent_moment(
        &self,
        alloc: Global,
        spec: &Spec,
        mut before: SharedStage,
        session: u8,
        step: u8,
    ) -> Result<Moment, AllocError>
        requires stage { IsStage spec.now.run.steps (staged_of before) }
        requires known { step < length spec.now.run.steps }
        requires inside { session < length before.members.items }
        requires count { length before.members.items ≡ suc spec.now.run.sessions }
        requires same { length self.now.members.items ≡ length before.members.items }
        requires sender { session ≡ (get_or spec.now.run.steps step no_step).session }
        requires idle { locks.waits_now before.locks.waits session ≡ false }
        ensures { IfOk result (telling.IsTold spec.now.run.steps (suc spec.now.run.sessions) (staged_of before) (staged_of self.now) session Manner.IsSent (Some step) []
            (telling.sent_standing (staged_of before) session step) (tasks_from (member_at (staged_of before) session).state.status (drop 0 (statements_of spec.now.run.steps step)) 0)) }
    {
        let count = spec.sessions() + 1;
        let still = still_of(alloc, &before.locks, &self.locks, session, count)?;
        let stale = self.stale_since(alloc, spec, &before, session, count)?;
        let events = events_behind(alloc, before.log(session), self.log(session))?;
        before.forget(session)?;
        before.tell(session, Event::Sent(step))?;
        let trace = trace_on(
            alloc,
            count,
            &mut before,
            session,
            spec.statements(step),
            Point::start(),
            Items::new(alloc),
        )?;
        let manner = Manner::IsSent;
        let moment = self.moment(
            alloc,
            count,
            session,
            manner,
            Some(step),
            events,
            still,
            stale,
            trace,
        )?;
        Ok(moment)
    }

    /// The moment of a session whose wait was granted, which came to this stage from that one.
    fn resumed_moment(
        &self,
        alloc: Global,
        spec: &Spec,
        mut before: SharedStage,
        session: u8,
    ) -> Result<Moment, AllocError>
        requires stage { IsStage spec.now.run.steps (staged_of before) }
        requires next { IsNextOf before.locks session }
        requires inside { session < length before.members.items }
        requires count { length before.members.items ≡ suc spec.now.run.sessions }
        requires same { length self.now.members.items ≡ length before.members.items }
        ensures { IfOk result (λ moment. (s : locks.Spot) → IsNext before.locks s → s.wait.session ≡ session
            → telling.IsResumedSo (suc spec.now.run.sessions) spec.now.run.steps (staged_of before) (staged_of self.now) s moment) }
    {
        let count = spec.sessions() + 1;
        let still = still_of(alloc, &before.locks, &self.locks, session, count)?;
        let stale = self.stale_since(alloc, spec, &before, session, count)?;
        let events = events_behind(alloc, before.log(session), self.log(session))?;
        let step = last_step(before.log(session))?;
        let changes = had_of(alloc, &before.locks, session)?;
        let Some(rest) = before.rest(session) else {
            unreachable!()
        };
        before.grant(session)?;
        before.forget(session)?;
        before.tell(session, Event::Resumed)?;
        let trace = trace_on(
            alloc,
            count,
            &mut before,
            session,
            spec.statements(rest.step),
            rest.point,
            changes,
        )?;
        let manner = Manner::IsResumed;
        let moment = self.moment(
            alloc, count, session, manner, step, events, still, stale, trace,
        )?;
        Ok(moment)
    }
}

impl SharedStage {
    /// Tells a session that waits that it is not sent a step, and tells the moment.
    fn skip_told(
        &mut self,
        alloc: Global,
        spec: &Spec,
        session: u8,
        step: u8,
        told: &mut Items<Moment>,
    ) -> Result<(), AllocError>
        requires known { step < length spec.now.run.steps }
        requires settled { IsSettled spec.now.run.sessions spec.now.run.steps (staged_of self.old) }
        requires sender { session ≡ (get_or spec.now.run.steps step no_step).session }
        requires inside { session < length self.old.members.items }
        requires waits { locks.waits_now self.old.locks.waits session ≡ true }
        ensures kept { OnOk result (HasTold session (event.NotSent step) (staged_of self.old) (staged_of self.new)) }
        ensures told { OnOk result (told.new
            ≡ told.old ++ telling.moment_in spec.now.run.steps (staged_of self.old) (moments.Skips step) ∷ []) }
    {
        let before = self.fork()?;
        self.tell(session, Event::NotSent(step))?;
        let moment = self.skipped_moment(alloc, spec, &before, session, step)?;
        told.push(moment)?;
        Ok(())
    }

    /// Sends a step to its session, which does not wait, and tells the moment.
    fn start_told(
        &mut self,
        alloc: Global,
        spec: &Spec,
        session: u8,
        step: u8,
        told: &mut Items<Moment>,
    ) -> Result<(), AllocError>
        requires known { step < length spec.now.run.steps }
        requires stage { IsStage spec.now.run.steps (staged_of self.old) }
        requires count { length self.old.members.items ≡ suc spec.now.run.sessions }
        requires sender { session ≡ (get_or spec.now.run.steps step no_step).session }
        requires inside { session < length self.old.members.items }
        requires idle { locks.waits_now self.old.locks.waits session ≡ false }
        ensures started { OnOk result (HasStarted spec.now.run.steps step (staged_of self.old) (staged_of self.new)) }
        ensures told { OnOk result (told.new
            ≡ told.old ++ telling.moment_in spec.now.run.steps (staged_of self.old) (moments.Sends step) ∷ []) }
    {
        let before = self.fork()?;
        start_step(alloc, self, spec, session, step)?;
        let moment = self.sent_moment(alloc, spec, before, session, step)?;
        told.push(moment)?;
        Ok(())
    }

    /// Grants the wait of a session, which goes on in its step, and tells the moment.
    fn resume_told(
        &mut self,
        alloc: Global,
        spec: &Spec,
        session: u8,
        told: &mut Items<Moment>,
    ) -> Result<(), AllocError>
        requires stage { IsStage spec.now.run.steps (staged_of self.old) }
        requires count { length self.old.members.items ≡ suc spec.now.run.sessions }
        requires next { IsNextOf self.old.locks session }
        requires inside { session < length self.old.members.items }
        ensures resumed { OnOk result (HasResumed spec.now.run.steps (staged_of self.old) (staged_of self.new)) }
        ensures told { OnOk result ((s : locks.Spot) → IsNext self.old.locks s → s.wait.session ≡ session
            → told.new ≡ told.old ++ telling.moment_in spec.now.run.steps (staged_of self.old) (moments.GoesOn s) ∷ []) }
    {
        self.locks.known();
        let before = self.fork()?;
        resume(alloc, self, spec, session)?;
        let moment = self.resumed_moment(alloc, spec, before, session)?;
        told.push(moment)?;
        Ok(())
    }

    /// While a wait is ripe, the first one is granted and its session goes on, as in `settle`. Each moment is told.
    fn settle_told(
        &mut self,
        alloc: Global,
        spec: &Spec,
        told: &mut Items<Moment>,
    ) -> Result<(), AllocError>
        requires stage { IsStage spec.now.run.steps (staged_of self.old) }
        requires count { length self.old.members.items ≡ suc spec.now.run.sessions }
        ensures settled { OnOk result (world_in spec.now.run.steps (staged_of self.new) ≡ settle (world_in spec.now.run.steps (staged_of self.old))) }
        ensures stage { OnOk result (IsStage spec.now.run.steps (staged_of self.new)) }
        ensures count { OnOk result (length self.new.members.items ≡ length self.old.members.items) }
        ensures told { OnOk result (told.new
            ≡ told.old ++ telling.settling spec.now.run.steps (world_in spec.now.run.steps (staged_of self.old))) }
    {
        'ripe: while let Some(session) = self.locks.next_grant() {
            self.resume_told(alloc, spec, session, told)?;
        }
        Ok(())
    }

    /// Sends a step as `send`, and tells each of its moments.
    pub(crate) fn send_told(
        &mut self,
        alloc: Global,
        spec: &Spec,
        step: u8,
        told: &mut Items<Moment>,
    ) -> Result<(), AllocError>
        requires known { step < length spec.now.run.steps }
        requires settled { IsSettled spec.now.run.sessions spec.now.run.steps (staged_of self.old) }
        ensures sent { OnOk result (world_in spec.now.run.steps (staged_of self.new) ≡ send spec.now.run.steps (world_in spec.now.run.steps (staged_of self.old)) step) }
        ensures settled { OnOk result (IsSettled spec.now.run.sessions spec.now.run.steps (staged_of self.new)) }
        ensures told { OnOk result (told.new
            ≡ told.old ++ moments.moments spec.now.run.steps (world_in spec.now.run.steps (staged_of self.old)) step) }
    {
        let session = spec.session_of(step);
        if self.locks.waits(session) {
            return self.skip_told(alloc, spec, session, step, told);
        }
        self.start_told(alloc, spec, session, step, told)?;
        self.settle_told(alloc, spec, told)
    }
}
