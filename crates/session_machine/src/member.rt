//! A session as one of a world's.

ghost use Rattle.std.specs.Prelude.{◌≡◌, ◌++◌, [], IfOk, OnOk};
ghost use Rattle.std.specs.List.{list_any};
ghost use Rattle.row_tables.specs.Layers.{sight};
ghost use Rattle.statement_evaluation.specs.Effect.{effect};
ghost use Rattle.statement_execution.specs.Run.{MayLook, events_of, fault_of, left_by};
ghost use Rattle.machine_model.specs.Start.{is_failure};
ghost use Rattle.session_steps.specs.Stage.{no_member, note_member};

use bound_statements::Bound;
use events::{Event, Fault, Log};
use finite_maps::Fork;
use machine_model::Status;
use row_tables::Store;
use session_steps::Rest;
use statement_execution::run_statement;
use std::alloc::{AllocError, Global};
use std::marker::Model;

/// A session of a world: how it stands with its block, what it was told, and what is left of its step while it waits.
pub(crate) struct Member {
    status: Status,
    log: Log,
    rest: Option<Rest>,
}

// Written out and not derived, so that who owns one calls this and does not let its parts go one by one.
impl Drop for Member {
    fn drop(self) {
        let Member {
            status: _,
            log: _log,
            rest: _,
        } = self;
    }
}

impl Model for Member {
    ghost use Rattle.std.specs.Coded.{codes};
    ghost use Rattle.events.specs.contracts.event.Event as event;
    ghost use Rattle.session_steps.specs.Stage.{Member as Kept};

    ghost Value = { Kept };

    ghost coded = { Prim.hlevel (codes, event.the_row.coded) };

    ghost view = { λ m. record { state = record { status = m.status; transcript = m.log }; rest = m.rest } };
}

impl Member {
    /// A session that has done nothing.
    pub(crate) fn new(alloc: Global) -> Member
        ensures { result ≡ no_member }
    {
        Member {
            status: Status::Outside,
            log: Log::new(alloc),
            rest: None,
        }
    }

    /// How it stands with its block.
    pub(crate) fn status(&self) -> Status
        ensures { result ≡ self.now.state.status }
    {
        self.status
    }

    /// What it was told.
    pub(crate) fn log(&self) -> &Log
        ensures { result.now ≡ self.now.state.transcript }
    {
        &self.log
    }

    /// Whether it was told of a fault.
    pub(crate) fn has_failed(&self) -> Result<bool, AllocError>
        ensures { IfOk result (λ failed. failed ≡ list_any is_failure self.now.state.transcript) }
    {
        let transcript = self.log.to_transcript()?;
        Ok(any_failure(transcript.events()))
    }

    /// What is left of its step.
    pub(crate) fn rest(&self) -> Option<Rest>
        ensures { result ≡ self.now.rest }
    {
        self.rest
    }

    /// Tells it of an event.
    pub(crate) fn tell(&mut self, event: Event) -> Result<(), AllocError>
        ensures { OnOk result (self.new ≡ note_member self.old event) }
    {
        self.log.push(event)
    }

    /// Forgets what it was told.
    pub(crate) fn forget(&mut self, alloc: Global)
        ensures { self.new ≡ record { state = record { status = self.old.state.status; transcript = [] }; rest = self.old.rest } }
    {
        self.log = Log::new(alloc);
    }

    /// Notes how it stands with its block.
    pub(crate) fn set_status(&mut self, status: Status)
        ensures { self.new ≡ record { state = record { status = status; transcript = self.old.state.transcript }; rest = self.old.rest } }
    {
        self.status = status;
    }

    /// Notes what is left of its step.
    pub(crate) fn set_rest(&mut self, rest: Option<Rest>)
        ensures { self.new ≡ record { state = self.old.state; rest = rest } }
    {
        self.rest = rest;
    }

    /// Runs a statement whose locks are had, and is told of it; where it fails, the fault is the answer and nothing is told.
    pub(crate) fn run(
        &mut self,
        alloc: Global,
        statement: &Bound,
        session: u8,
        store: &mut Store,
    ) -> Result<Option<Fault>, AllocError>
        requires { MayLook session statement.now store.old }
        ensures fault { IfOk result (λ fault. fault ≡ fault_of (effect statement.now (sight session store.old))) }
        ensures left { OnOk result (store.new ≡ left_by session (effect statement.now (sight session store.old)) store.old) }
        ensures told { OnOk result (self.new ≡ record {
          state = record {
            status = self.old.state.status;
            transcript = self.old.state.transcript ++ events_of (effect statement.now (sight session store.old));
          };
          rest = self.old.rest;
        }) }
    {
        run_statement(alloc, statement, session, store, &mut self.log)
    }
}

fn any_failure(events: &[Event]) -> bool
    ensures { result ≡ list_any is_failure events.now }
{
    events.iter().any(|event| matches!(event, Event::Failed(_)))
}

impl Fork for Member {
    fn fork(&self) -> Result<Member, AllocError> {
        Ok(Member {
            status: self.status,
            log: self.log.fork()?,
            rest: self.rest,
        })
    }
}
