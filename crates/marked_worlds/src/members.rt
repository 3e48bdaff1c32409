//! The sessions of a world, now and at marks.

ghost use mathlib.Core.List.{IsPrefix};
ghost use Rattle.std.specs.Prelude.{◌≡◌, ◌≤◌, ◌<◌, ◌∷◌, [], IfOk, None, OnErr, OnOk, Some, get_or, length, replicate, set, slice_get, take, true};
ghost use Rattle.std.specs.List.{list_any};
ghost use Rattle.row_tables.specs.Layers.{sight};
ghost use Rattle.statement_evaluation.specs.Effect.{effect};
ghost use Rattle.statement_execution.specs.Run.{MayLook, events_of, fault_of, left_by};
ghost use Rattle.machine_model.specs.Start.{is_failure};
ghost use Rattle.session_steps.specs.Stage.{no_member, note_member, transcripts_of};
ghost use Rattle.marked_worlds.specs.Members.{silenced, told_all, with_rest, with_status};

use crate::seen::SeenSessions;
use crate::told::{ToldTable, print_of};
use bound_statements::Bound;
use events::{Event, Fault};
use machine_model::Status;
use marked_execution::run_statement;
use marked_lists::MarkedList;
use marked_logs::MarkedLogs;
use marked_rows::MarkedRows;
use session_steps::Rest;
use std::alloc::{AllocError, Global};
use std::marker::Model;
use transcripts::Outcome;

/// What is kept of a session beside what it was told.
#[derive(Clone, Copy)]
pub(crate) struct StatusAndRest {
    pub(crate) status: Status,
    pub(crate) rest: Option<Rest>,
}

/// The sessions of a world, with marks to go back to.
///
/// Contracts see the sessions now, and at the marks that stand, the newest first, the outcomes that were told of them, and the sessions as they were noted.
/// What a call leaves for want of memory is told of each; what was at marks stays, and so do outcomes and what was noted.
#[derive(Drop)]
pub(crate) struct MarkedMembers {
    logs: MarkedLogs<Event>,
    kept: MarkedList<StatusAndRest>,
    /// What was told so far, also where the world has gone back since.
    told: ToldTable,
    /// The sessions as they were noted.
    seen: Vec<SeenSessions>,
}

impl Model for MarkedMembers {
    ghost use Rattle.std.specs.Coded.{codes};
    ghost use Rattle.events.specs.contracts.event.Event as event;
    ghost use Rattle.marked_worlds.specs.Members.{AreKept, MarkedSessions, sessions_of};

    ghost Value = { MarkedSessions };

    ghost coded = { Prim.hlevel (codes, event.the_row.coded) };

    ghost view = { λ m. sessions_of m.logs m.kept m.told.kept.items m.seen.items };

    ghost invariant = { λ m. AreKept m.logs m.kept m.told.kept.items m.seen.items };
}

impl MarkedMembers {
    /// So many sessions that have done nothing, and no mark.
    pub(crate) fn new(alloc: Global, count: u8) -> Result<MarkedMembers, AllocError>
        ensures { IfOk result (λ members. members ≡ record { list = replicate count no_member; marked = []; told = []; seen = [] }) }
    {
        let logs = MarkedLogs::new(alloc, count)?;
        let kept = blank_members(alloc, count)?;
        Ok(MarkedMembers {
            logs,
            kept,
            told: ToldTable::new(alloc),
            seen: Vec::new(alloc),
        })
    }

    pub(crate) fn status(&self, session: u8) -> Status
        requires { session < length self.now.list }
        ensures { result ≡ (get_or self.now.list session no_member).state.status }
    {
        self.kept.get(session as usize).status
    }

    pub(crate) fn rest(&self, session: u8) -> Option<Rest>
        requires { session < length self.now.list }
        ensures { result ≡ (get_or self.now.list session no_member).rest }
    {
        self.kept.get(session as usize).rest
    }

    /// Whether the session was told of a fault.
    pub(crate) fn has_failed(&self, alloc: Global, session: u8) -> Result<bool, AllocError>
        requires { session < length self.now.list }
        ensures { IfOk result (λ failed. failed ≡ list_any is_failure (get_or self.now.list session no_member).state.transcript) }
    {
        let events = self.logs.events(alloc, self.logs.log(session))?;
        Ok(any_failure(events.as_slice()))
    }

    /// The number of what the first so many sessions were told, among the outcomes that were told. It is made where they were not told so before.
    pub(crate) fn number(&mut self, alloc: Global, count: u8) -> Result<usize, AllocError>
        requires { count ≤ length self.old.list }
        ensures outcome { IfOk result (λ number. slice_get self.new.told number ≡ Some (transcripts_of (take count self.old.list))) }
        ensures front { IsPrefix self.old.told self.new.told }
        ensures same { self.new ≡ record self.old { told = self.new.told } }
    {
        self.told.number(alloc, &self.logs, count)
    }

    /// The outcome with a number.
    pub(crate) fn outcome(&self, number: usize) -> &Outcome
        requires { number < length self.now.told }
        ensures { slice_get self.now.told number ≡ Some result.now }
    {
        self.told.outcome(number)
    }

    /// A number that is the same where the first so many sessions were told the same, and seldom else.
    pub(crate) fn print(&self, count: u8) -> u64
        requires { count ≡ length self.now.list }
    {
        print_of(&self.logs, count)
    }

    /// Notes the sessions now, of which there are so many. The answer is their number among those that were noted.
    pub(crate) fn note(&mut self, alloc: Global, count: u8) -> Result<usize, AllocError>
        requires { count ≡ length self.old.list }
        ensures number { IfOk result (λ number. slice_get self.new.seen number ≡ Some self.old.list) }
        ensures front { IsPrefix self.old.seen self.new.seen }
        ensures same { self.new ≡ record self.old { seen = self.new.seen } }
    {
        let now = SeenSessions::of(alloc, &self.logs, &self.kept, count)?;
        let number = self.seen.len();
        self.seen.push(now)?;
        Ok(number)
    }

    /// Whether the sessions now, of which there are so many, are those that were noted with a number.
    pub(crate) fn are_seen(&self, number: usize, count: u8) -> bool
        requires number { number < length self.now.seen }
        requires count { count ≡ length self.now.list }
        ensures { result ≡ true → slice_get self.now.seen number ≡ Some self.now.list }
    {
        self.seen[number].are(&self.logs, &self.kept, count)
    }

    pub(crate) fn tell(&mut self, session: u8, event: Event) -> Result<(), AllocError>
        requires { session < length self.old.list }
        ensures told { OnOk result (self.new.list ≡ set self.old.list session (note_member (get_or self.old.list session no_member) event)) }
        ensures kept { OnErr result (self.new.list ≡ self.old.list) }
        ensures marked { self.new.marked ≡ self.old.marked }
        ensures outcomes { self.new.told ≡ self.old.told }
        ensures seen { self.new.seen ≡ self.old.seen }
    {
        self.logs.tell(session, event)
    }

    /// Forgets what the session was told.
    pub(crate) fn forget(&mut self, session: u8) -> Result<(), AllocError>
        requires { session < length self.old.list }
        ensures forgot { OnOk result (self.new.list ≡ set self.old.list session (silenced (get_or self.old.list session no_member))) }
        ensures kept { OnErr result (self.new.list ≡ self.old.list) }
        ensures marked { self.new.marked ≡ self.old.marked }
        ensures outcomes { self.new.told ≡ self.old.told }
        ensures seen { self.new.seen ≡ self.old.seen }
    {
        self.logs.forget(session)
    }

    pub(crate) fn set_status(&mut self, session: u8, status: Status) -> Result<(), AllocError>
        requires { session < length self.old.list }
        ensures stands { OnOk result (self.new.list ≡ set self.old.list session (with_status (get_or self.old.list session no_member) status)) }
        ensures kept { OnErr result (self.new.list ≡ self.old.list) }
        ensures marked { self.new.marked ≡ self.old.marked }
        ensures outcomes { self.new.told ≡ self.old.told }
        ensures seen { self.new.seen ≡ self.old.seen }
    {
        let rest = self.kept.get(session as usize).rest;
        self.kept
            .set(session as usize, StatusAndRest { status, rest })
    }

    pub(crate) fn set_rest(&mut self, session: u8, rest: Option<Rest>) -> Result<(), AllocError>
        requires { session < length self.old.list }
        ensures left { OnOk result (self.new.list ≡ set self.old.list session (with_rest (get_or self.old.list session no_member) rest)) }
        ensures kept { OnErr result (self.new.list ≡ self.old.list) }
        ensures marked { self.new.marked ≡ self.old.marked }
        ensures outcomes { self.new.told ≡ self.old.told }
        ensures seen { self.new.seen ≡ self.old.seen }
    {
        let StatusAndRest {
            status,
            rest: before,
        } = self.kept.get(session as usize);
        // So it is at most steps, and then nothing has to be undone.
        if before.is_none() && rest.is_none() {
            return Ok(());
        }
        self.kept
            .set(session as usize, StatusAndRest { status, rest })
    }

    /// Runs a statement whose locks are had on these rows, and tells the session of it. Where it fails, the fault is the answer and nothing is done.
    pub(crate) fn run(
        &mut self,
        alloc: Global,
        statement: &Bound,
        session: u8,
        rows: &mut MarkedRows,
    ) -> Result<Option<Fault>, AllocError>
        requires alone { MayLook session statement.now rows.old.now }
        requires inside { session < length self.old.list }
        ensures fault { IfOk result (λ fault. fault ≡ fault_of (effect statement.now (sight session rows.old.now))) }
        ensures left { OnOk result (rows.new.now ≡ left_by session (effect statement.now (sight session rows.old.now)) rows.old.now) }
        ensures told { OnOk result (self.new.list ≡ set self.old.list session
            (told_all (get_or self.old.list session no_member) (events_of (effect statement.now (sight session rows.old.now))))) }
        ensures sessions { length self.new.list ≡ length self.old.list }
        ensures rows_marked { rows.new.marked ≡ rows.old.marked }
        ensures marked { self.new.marked ≡ self.old.marked }
        ensures outcomes { self.new.told ≡ self.old.told }
        ensures seen { self.new.seen ≡ self.old.seen }
    {
        run_statement(alloc, statement, session, rows, &mut self.logs)
    }

    /// Sets a mark. Without memory everything stays as it was.
    pub(crate) fn mark(&mut self) -> Result<(), AllocError>
        ensures marked { OnOk result (self.new ≡ record self.old { marked = self.old.list ∷ self.old.marked }) }
        ensures kept { OnErr result (self.new ≡ self.old) }
    {
        self.logs.mark()?;
        match self.kept.mark() {
            Ok(()) => Ok(()),
            Err(error) => {
                self.logs.go_back();
                Err(error)
            }
        }
    }

    /// Goes back to the newest mark, which is gone then. It takes no memory.
    pub(crate) fn go_back(&mut self)
        requires { 0 < length self.old.marked }
        ensures marked { self.old.marked ≡ self.new.list ∷ self.new.marked }
        ensures outcomes { self.new.told ≡ self.old.told }
        ensures seen { self.new.seen ≡ self.old.seen }
    {
        self.logs.go_back();
        self.kept.go_back();
    }
}

/// So many sessions outside a block, with nothing left to do.
fn blank_members(alloc: Global, count: u8) -> Result<MarkedList<StatusAndRest>, AllocError>
    ensures { IfOk result (λ kept. kept ≡ record { list = replicate count (record { status = Status.Outside; rest = None }); marked = [] }) }
{
    let mut kept = MarkedList::new(alloc);
    for _session in 0..count {
        kept.push(StatusAndRest {
            status: Status::Outside,
            rest: None,
        })?;
    }
    Ok(kept)
}

fn any_failure(events: &[&Event]) -> bool
    ensures { result ≡ list_any (λ e. is_failure e.now) events.now }
{
    for place in 0..events.len() {
        if is_failure(events[place]) {
            return true;
        }
    }
    false
}

fn is_failure(event: &Event) -> bool
    ensures { result ≡ is_failure event.now }
{
    matches!(event, Event::Failed(_))
}
