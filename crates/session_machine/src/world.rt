//! A world of a spec: its rows, its locks, and what each session was told.

ghost use Rattle.std.specs.Prelude.{◌≡◌, ◌<◌, ◌↔◌, ◌++◌, true, false, length, All, IfOk, IfErr, OnOk, OnErr, IsErrOf};
ghost use Rattle.std.specs.Option.{option_map};
ghost use Rattle.lock_modes.specs.Resource.{resource_at};
ghost use Rattle.bound_specs.specs.Spec.{IsBound};
ghost use Rattle.line_moments.specs.Left.{begun, left_in, standings, shown_from};
ghost use Rattle.line_moments.specs.Moments.{moments, line_moments};
ghost use Rattle.machine_model.specs.World.{send, send_all, outcome_of};
ghost use Rattle.machine_model.specs.Outcome.{IsOutcomeOf};
ghost use Rattle.machine_model.specs.Start.{Started, start};
ghost use Rattle.session_machine.specs.Running.{IsKnown, held_in, wait_in};
ghost use Rattle.session_steps.specs.Refused.{IsRefusedBy};
ghost use Rattle.session_steps.specs.Stage.{transcripts_of};

use crate::member::Member;
use crate::stage::SharedStage;
use binding_model::Table;
use bound_specs::Spec;
use events::Transcript;
use finite_maps::Fork;
use line_moments::{Begun, Left, Moment, Shown, Standing};
use lock_modes::{Mode, Place};
use session_steps::{SendError, StartError, run_setups, send};
use sqlite_items::Items;
use std::alloc::{AllocError, Global};
use std::marker::Model;
use transcripts::Outcome;

/// The sequential machine over a spec. Contracts see the spec, the world and whether it is spent.
pub struct World<'a> {
    spec: &'a Spec,
    alloc: Global,
    stage: SharedStage,
    is_spent: bool,
}

// Written out and not derived, so that who owns one calls this and does not let its parts go one by one.
impl Drop for World<'_> {
    fn drop(self) {
        let World {
            spec: _,
            alloc: _,
            stage: _stage,
            is_spent: _,
        } = self;
    }
}

impl<'a> Model for World<'a> {
    ghost use Rattle.std.specs.Coded.{codes};
    ghost use Rattle.finite_maps.specs.Codes.{map_code};
    ghost use Rattle.lock_modes.specs.contracts.value.Value as value;
    ghost use Rattle.lock_modes.specs.contracts.resource.Resource as resource;
    ghost use Rattle.lock_queues.specs.contracts.wait.Wait as waiting;
    ghost use Rattle.bound_statements.specs.contracts.statement.Bound as bound;
    ghost use Rattle.events.specs.contracts.event.Event as event;
    ghost use Rattle.session_steps.specs.Stage.{world_in, IsSettledUnless};
    ghost use Rattle.session_machine.specs.SharedStage.{staged_of};
    ghost use Rattle.session_machine.specs.Running.{Running};

    ghost Value = { Running };

    ghost coded = { Prim.hlevel (codes, map_code, value.the_row.coded, bound.the_row.coded, resource.the_row.coded, waiting.the_row.coded, event.the_row.coded) };

    ghost view = { λ w. record { file = w.spec.now; world = world_in w.spec.now.run.steps (staged_of w.stage); spent = w.is_spent } };

    ghost invariant = { λ w. IsSettledUnless w.is_spent w.spec.now.run.sessions w.spec.now.run.steps (staged_of w.stage) };
}

impl<'a> World<'a> {
    /// The world after the setups of a spec: its main setups in order, then the setup of each session.
    pub fn start(alloc: Global, spec: &'a Spec) -> Result<World<'a>, StartError>
        ensures started { IfOk result (λ world. start spec.now.run ≡ Started world.world) }
        ensures of_spec { IfOk result (λ world. world.file ≡ spec.now) }
        ensures bound { IfOk result (λ world. IsBound world.file.run) }
        ensures whole { IfOk result (λ world. world.spent ≡ false) }
        ensures refused { IfErr result (λ error. IsRefusedBy error (start spec.now.run)) }
    {
        let mut stage = SharedStage::new(alloc, spec.sessions() + 1)?;
        run_setups(alloc, &mut stage, spec)?;
        Ok(World {
            spec,
            alloc,
            stage,
            is_spent: false,
        })
    }

    /// An equal world, which shares rows, locks and transcripts with this one. Each goes on alone.
    pub fn fork(&self) -> Result<World<'a>, SendError>
        ensures same { IfOk result (λ world. world ≡ self.now) }
        ensures spent { IsErrOf result SendError.Spent ↔ (self.now.spent ≡ true) }
    {
        if self.is_spent {
            return Err(SendError::Spent);
        }
        Ok(World {
            spec: self.spec,
            alloc: self.alloc,
            stage: self.stage.fork()?,
            is_spent: false,
        })
    }

    /// The spec that the world is of.
    pub fn spec(&self) -> &'a Spec
        ensures { result.now ≡ self.now.file }
    {
        self.spec
    }
}

impl World<'_> {
    /// Sends a step. A session that waits is not sent it. Else its statements run in order, until the step ends, a request
    /// waits or a fault ends it; then the waits that are ripe are granted in turn, and their sessions go on. After want of
    /// memory the world is spent.
    pub fn send(&mut self, step: u8) -> Result<(), SendError>
        requires { step < length self.old.file.run.steps }
        ensures sent { OnOk result (self.new.world ≡ send self.old.file.run.steps self.old.world step) }
        ensures whole { OnOk result (self.new.spent ≡ false) }
        ensures spent { IsErrOf result SendError.Spent ↔ (self.old.spent ≡ true) }
        ensures after { OnErr result (self.new.spent ≡ true) }
        ensures of_spec { self.new.file ≡ self.old.file }
    {
        if self.is_spent {
            return Err(SendError::Spent);
        }
        self.is_spent = true;
        send(self.alloc, &mut self.stage, self.spec, step)?;
        self.is_spent = false;
        Ok(())
    }

    /// `send`, which also tells each moment of the step, behind those that were told before.
    pub fn send_told(&mut self, step: u8, told: &mut Items<Moment>) -> Result<(), SendError>
        requires { step < length self.old.file.run.steps }
        ensures sent { OnOk result (self.new.world ≡ send self.old.file.run.steps self.old.world step) }
        ensures told { OnOk result (told.new ≡ told.old ++ moments self.old.file.run.steps self.old.world step) }
        ensures whole { OnOk result (self.new.spent ≡ false) }
        ensures spent { IsErrOf result SendError.Spent ↔ (self.old.spent ≡ true) }
        ensures after { OnErr result (self.new.spent ≡ true) }
        ensures of_spec { self.new.file ≡ self.old.file }
    {
        if self.is_spent {
            return Err(SendError::Spent);
        }
        self.is_spent = true;
        self.stage.send_told(self.alloc, self.spec, step, told)?;
        self.is_spent = false;
        Ok(())
    }

    /// How each session stands and what it holds, in the order of resources.
    fn begun(&self) -> Result<Items<Begun>, SendError>
        ensures begun { IfOk result (λ all. all ≡ begun self.now.file.run.sessions self.now.world) }
        ensures spent { IsErrOf result SendError.Spent ↔ (self.now.spent ≡ true) }
    {
        if self.is_spent {
            return Err(SendError::Spent);
        }
        Ok(self.stage.begun(self.alloc, self.spec.sessions())?)
    }

    /// How each session stands, with what it wants where it waits.
    pub fn standings(&self) -> Result<Items<Standing>, SendError>
        ensures standings { IfOk result (λ all. all ≡ standings self.now.file.run.sessions self.now.world) }
        ensures spent { IsErrOf result SendError.Spent ↔ (self.now.spent ≡ true) }
    {
        if self.is_spent {
            return Err(SendError::Spent);
        }
        let sessions = self.spec.sessions();
        Ok(self.stage.standings(self.alloc, sessions, sessions + 1)?)
    }

    /// The committed rows of these tables, in the order of their keys.
    pub fn left(&self, tables: &[Table]) -> Result<Items<Left>, SendError>
        ensures left { IfOk result (λ left. left ≡ left_in tables.now self.now.world) }
        ensures spent { IsErrOf result SendError.Spent ↔ (self.now.spent ≡ true) }
    {
        if self.is_spent {
            return Err(SendError::Spent);
        }
        Ok(
            self.stage
                .lefts(self.alloc, self.spec.sessions() + 1, tables)?,
        )
    }

    /// Sends the steps of a line in turn, and tells their moments.
    fn tell_line(&mut self, line: &[u8]) -> Result<Items<Moment>, SendError>
        requires known { All (λ k. k < length self.old.file.run.steps) line.now }
        requires whole { self.old.spent ≡ false }
        ensures told { IfOk result (λ all. all ≡ line_moments self.old.file.run.steps self.old.world line.now) }
        ensures sent { OnOk result (self.new ≡ record self.old { world = send_all self.old.file.run.steps self.old.world line.now }) }
        ensures refused { IfErr result (λ error. error ≡ SendError.NoMemory) }
    {
        let mut told = Items::new(self.alloc);
        for step in line {
            self.send_told(*step, &mut told)?;
        }
        Ok(told)
    }

    /// What is shown of a line from here on, with the committed rows of these tables.
    pub(crate) fn show(&mut self, tables: &[Table], line: &[u8]) -> Result<Shown, SendError>
        requires known { All (λ k. k < length self.old.file.run.steps) line.now }
        requires whole { self.old.spent ≡ false }
        ensures shown { IfOk result (λ x. x ≡ shown_from tables.now self.old.file.run self.old.world line.now) }
        ensures refused { IfErr result (λ error. error ≡ SendError.NoMemory) }
    {
        let begun = self.begun()?;
        let first = self.left(tables)?;
        let moments = self.tell_line(line)?;
        let left = self.left(tables)?;
        let standings = self.standings()?;
        Ok(Shown {
            begun,
            first,
            moments,
            left,
            standings,
        })
    }

    /// The transcripts so far, a copy for each session.
    pub fn outcome(&self) -> Result<Outcome, SendError>
        ensures told { IfOk result (λ outcome. outcome ≡ outcome_of self.now.file.run.sessions self.now.world) }
        ensures own { IfOk result (IsOutcomeOf self.now.file.run) }
        ensures spent { IsErrOf result SendError.Spent ↔ (self.now.spent ≡ true) }
    {
        if self.is_spent {
            return Err(SendError::Spent);
        }
        let sessions = self.spec.sessions() as usize;
        let transcripts = transcripts_of(self.alloc, &self.stage.members[..sessions])?;
        Ok(Outcome::new(self.alloc, transcripts)?)
    }

    /// What holds of every world that is not spent: held modes of different sessions are compatible, what a session wrote lies
    /// under its locks, no wait is ripe and no session waits for itself; and nobody was told of a step of another session.
    pub fn known(&self)
        ensures known { self.now.spent ≡ false → IsKnown self.now }
        ensures bound { IsBound self.now.file.run }
    {
        let _sessions = self.spec.sessions(); // for the proof
    }

    /// Whether an earlier step was refused memory.
    pub fn spent(&self) -> bool
        ensures { result ≡ self.now.spent }
    {
        self.is_spent
    }

    /// The mode that a session holds at a place. A spent world tells of none.
    pub fn holds(&self, session: u8, place: Place<'_>) -> Option<Mode>
        ensures { result ≡ held_in self.now session (resource_at place.entry) }
    {
        if self.is_spent {
            return None;
        }
        self.stage.locks.holds(session, place)
    }

    /// What a session waits for, with the mode that it is to get there. A spent world tells of no wait.
    pub fn wait_of(&self, session: u8) -> Option<(Place<'_>, Mode)>
        ensures { option_map (λ p. (resource_at p.0, p.1)) result ≡ wait_in self.now session }
    {
        if self.is_spent {
            return None;
        }
        self.stage.locks.wait_of(session)
    }
}

/// A transcript of each session.
fn transcripts_of(alloc: Global, members: &[Member]) -> Result<Vec<Transcript>, AllocError>
    ensures { IfOk result (λ transcripts. transcripts.items ≡ transcripts_of members.now) }
{
    let mut transcripts = Vec::with_capacity(alloc, members.len())?;
    for member in members {
        transcripts.push(member.log().to_transcript()?)?;
    }
    Ok(transcripts)
}
