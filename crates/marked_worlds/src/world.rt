//! A world of a spec that goes back to marks.

ghost use mathlib.Core.List.{IsPrefix};
ghost use Rattle.std.specs.Prelude.{◌≡◌, ◌≤◌, ◌<◌, ◌↔◌, ◌==◌, ◌∷◌, [], true, false, length, slice_get, All, IfErr, IfOk, IfSome, IsErrOf, IsTrue, OnErr, OnOk, Some};
ghost use Rattle.std.specs.List.{find};
ghost use Rattle.std.specs.Option.{option_map};
ghost use Rattle.row_tables.specs.Layers.{rows_of};
ghost use Rattle.lock_queues.specs.declared.wait.Wait.{Wait};
ghost use Rattle.lock_queues.specs.Locks.{waits_now};
ghost use Rattle.lock_queues.specs.LockTable.{Fits};
ghost use Rattle.bound_specs.specs.Spec.{IsBound};
ghost use Rattle.numbered_specs.specs.Numbers.{HasNumber, IsNumbering, resource_of};
ghost use Rattle.machine_model.specs.World.{look_of, outcome_of, send, session_at};
ghost use Rattle.machine_model.specs.Outcome.{IsOutcomeOf};
ghost use Rattle.machine_model.specs.Start.{Started, start};
ghost use Rattle.session_steps.specs.Refused.{IsRefusedBy};
ghost use Rattle.marked_worlds.specs.Worlds.{IsOfSpec};

use crate::stage::MarkedStage;
use bound_specs::Spec;
use lock_modes::Mode;
use machine_model::Status;
use marked_rows::Scan;
use numbered_specs::{ResourceNumber, SpecNumbers};
use session_steps::{SendError, Stage, StartError, run_setups, send};
use std::alloc::{AllocError, Global};
use std::marker::Model;
use std::sync::Arc;
use transcripts::Outcome;

/// The sequential machine over a spec, with marks to go back to, in place of forks.
///
/// Contracts see the spec and its numbers, the world now, the worlds at the marks that stand, the newest first, the outcomes that were told of it, the
/// worlds that were noted, and whether the world is spent. A world is spent by a step that is refused memory; what was at marks stays, and where it goes
/// back to one it is spent no more. Outcomes that were told stay told, and worlds that were noted stay noted, wherever the world goes.
pub struct MarkedWorld<'a> {
    spec: &'a Spec,
    alloc: Global,
    stage: MarkedStage,
    is_spent: bool,
}

// Written out and not derived, so that who owns one calls this and does not let its parts go one by one.
impl Drop for MarkedWorld<'_> {
    fn drop(self) {
        let MarkedWorld {
            spec: _,
            alloc: _,
            stage: _stage,
            is_spent: _,
        } = self;
    }
}

impl<'a> Model for MarkedWorld<'a> {
    ghost use Rattle.std.specs.Coded.{codes};
    ghost use Rattle.finite_maps.specs.Codes.{map_code};
    ghost use Rattle.lock_modes.specs.contracts.value.Value as value;
    ghost use Rattle.lock_modes.specs.contracts.resource.Resource as resource;
    ghost use Rattle.lock_queues.specs.contracts.wait.Wait as waiting;
    ghost use Rattle.bound_statements.specs.contracts.statement.Bound as bound;
    ghost use Rattle.numbered_specs.specs.contracts.request.NumberedRequest as request;
    ghost use Rattle.events.specs.contracts.event.Event as event;
    ghost use Rattle.marked_worlds.specs.Worlds.{AreSettled, MarkedRunning, running_of};

    ghost Value = { MarkedRunning };

    ghost coded = { Prim.hlevel (codes, map_code, value.the_row.coded, bound.the_row.coded, resource.the_row.coded, waiting.the_row.coded, request.the_row.coded, event.the_row.coded) };

    ghost view = { λ w. running_of w.spec.now w.stage w.is_spent };

    ghost invariant = { λ w. AreSettled w.spec.now w.stage w.is_spent };
}

impl<'a> MarkedWorld<'a> {
    /// The world after the setups of a spec: its main setups in order, then the setup of each session. No mark stands.
    pub fn start(
        alloc: Global,
        spec: &'a Spec,
        numbers: Arc<SpecNumbers>,
    ) -> Result<MarkedWorld<'a>, StartError>
        requires { IsNumbering spec.now.run numbers.value }
        ensures started { IfOk result (λ world. start spec.now.run ≡ Started world.world) }
        ensures of_spec { IfOk result (λ world. world.file ≡ spec.now) }
        ensures numbers { IfOk result (λ world. world.numbers ≡ numbers.value) }
        ensures marked { IfOk result (λ world. world.marked ≡ []) }
        ensures told { IfOk result (λ world. world.told ≡ []) }
        ensures seen { IfOk result (λ world. world.seen ≡ []) }
        ensures whole { IfOk result (λ world. world.spent ≡ false) }
        ensures refused { IfErr result (λ error. IsRefusedBy error (start spec.now.run)) }
    {
        let mut stage = MarkedStage::new(alloc, numbers, spec.sessions() + 1)?;
        run_setups(alloc, &mut stage, spec)?;
        Ok(MarkedWorld {
            spec,
            alloc,
            stage,
            is_spent: false,
        })
    }

    /// The spec that the world is of.
    pub fn spec(&self) -> &'a Spec
        ensures { result.now ≡ self.now.file }
    {
        self.spec
    }
}

impl MarkedWorld<'_> {
    /// Sends a step. A session that waits is not sent it, and is told so. Else its statements run in order, until the step ends, a request waits or a
    /// fault ends it; then the waits that are ripe are granted in turn, and their sessions go on. After want of memory the world is spent, and a spent
    /// one takes no step.
    pub fn send(&mut self, step: u8) -> Result<(), SendError>
        requires { step < length self.old.file.run.steps }
        ensures sent { OnOk result (self.new.world ≡ send self.old.file.run.steps self.old.world step) }
        ensures whole { OnOk result (self.new.spent ≡ false) }
        ensures spent { IsErrOf result SendError.Spent ↔ (self.old.spent ≡ true) }
        ensures after { OnErr result (self.new.spent ≡ true) }
        ensures kept { IsErrOf result SendError.Spent → self.new ≡ self.old }
        ensures of_spec { self.new.file ≡ self.old.file }
        ensures numbers { self.new.numbers ≡ self.old.numbers }
        ensures marked { self.new.marked ≡ self.old.marked }
        ensures told { self.new.told ≡ self.old.told }
        ensures seen { self.new.seen ≡ self.old.seen }
    {
        if self.is_spent {
            return Err(SendError::Spent);
        }
        self.is_spent = true;
        send(self.alloc, &mut self.stage, self.spec, step)?;
        self.is_spent = false;
        Ok(())
    }

    /// Sets a mark, to which the world can go back; a spent one sets none. Where it is refused everything stays as it was.
    pub fn mark(&mut self) -> Result<(), SendError>
        ensures marked { OnOk result (self.new ≡ record self.old { marked = self.old.world ∷ self.old.marked }) }
        ensures spent { IsErrOf result SendError.Spent ↔ (self.old.spent ≡ true) }
        ensures kept { OnErr result (self.new ≡ self.old) }
    {
        if self.is_spent {
            return Err(SendError::Spent);
        }
        self.stage.mark()?;
        Ok(())
    }

    /// Goes back to the newest mark, which is gone then. The world is not spent then, whatever it was. It takes no memory.
    pub fn go_back(&mut self)
        requires { 0 < length self.old.marked }
        ensures marked { self.old.marked ≡ self.new.world ∷ self.new.marked }
        ensures whole { self.new.spent ≡ false }
        ensures of_spec { self.new.file ≡ self.old.file }
        ensures numbers { self.new.numbers ≡ self.old.numbers }
        ensures told { self.new.told ≡ self.old.told }
        ensures seen { self.new.seen ≡ self.old.seen }
    {
        self.stage.go_back();
        self.is_spent = false;
    }

    /// Tells the transcripts so far, one for each session: the answer is their number among the outcomes that were told. They are copied where the sessions
    /// were not told the same before, also on the way to other worlds. A spent world tells of none.
    pub fn outcome(&mut self) -> Result<usize, SendError>
        ensures told { IfOk result (λ number. slice_get self.new.told number ≡ Some (outcome_of self.old.file.run.sessions self.old.world)) }
        ensures own { IfOk result (λ number. IfSome (slice_get self.new.told number) (IsOutcomeOf self.old.file.run)) }
        ensures spent { IsErrOf result SendError.Spent ↔ (self.old.spent ≡ true) }
        ensures front { IsPrefix self.old.told self.new.told }
        ensures same { self.new ≡ record self.old { told = self.new.told } }
    {
        if self.is_spent {
            return Err(SendError::Spent);
        }
        Ok(self.stage.number(self.spec.sessions())?)
    }

    /// The number of the world now among those that were noted. It is noted behind all others where it was not found among them; none where it is passed
    /// over, since much was noted already, or it has many rows and seems to come for the first time. A spent world
    /// is not noted. That a world is found where it comes again is not promised, so one may have two numbers.
    pub fn number(&mut self) -> Result<Option<usize>, SendError>
        ensures known { IfOk result (λ answer. IfSome answer (λ number. slice_get self.new.seen number ≡ Some self.old.world)) }
        ensures spent { IsErrOf result SendError.Spent ↔ (self.old.spent ≡ true) }
        ensures front { IsPrefix self.old.seen self.new.seen }
        ensures same { self.new ≡ record self.old { seen = self.new.seen } }
    {
        if self.is_spent {
            return Err(SendError::Spent);
        }
        Ok(self.stage.note(self.spec.sessions() + 1)?)
    }

    /// As `number`, but each world is noted, large ones too, while all that is noted takes fewer bytes than `room`: none says that the world was not found
    /// and the room is used up.
    pub fn number_within(&mut self, room: usize) -> Result<Option<usize>, SendError>
        ensures known { IfOk result (λ answer. IfSome answer (λ number. slice_get self.new.seen number ≡ Some self.old.world)) }
        ensures spent { IsErrOf result SendError.Spent ↔ (self.old.spent ≡ true) }
        ensures front { IsPrefix self.old.seen self.new.seen }
        ensures same { self.new ≡ record self.old { seen = self.new.seen } }
    {
        if self.is_spent {
            return Err(SendError::Spent);
        }
        Ok(self.stage.note_within(self.spec.sessions() + 1, room)?)
    }

    /// How many bytes all that is noted of worlds takes, or a few more, with what walks remember beside those that `number` noted.
    pub fn noted_bytes(&self) -> usize {
        self.stage.noted_bytes()
    }

    /// The outcome that was told with a number.
    pub fn told(&self, number: usize) -> &Outcome
        requires { number < length self.now.told }
        ensures { slice_get self.now.told number ≡ Some result.now }
    {
        self.stage.outcome(number)
    }

    /// What holds of every world that is not spent, and of those at marks: held modes of different sessions are compatible, what a session wrote
    /// lies under its locks, no wait is ripe and no session waits for itself; and nobody was told of a step of another session. The numbers are those of
    /// the spec.
    pub fn known(&self)
        ensures now { self.now.spent ≡ false → IsOfSpec self.now.file self.now.world }
        ensures marked { All (IsOfSpec self.now.file) self.now.marked }
        ensures numbering { IsNumbering self.now.file.run self.now.numbers }
        ensures bound { IsBound self.now.file.run }
    {
        let _sessions = self.spec.sessions(); // for the proof
    }

    /// The numbers of the resources that the spec's statements ask for, and their plans by them.
    pub fn numbers(&self) -> &SpecNumbers
        ensures { result.now ≡ self.now.numbers }
    {
        self.stage.numbers()
    }

    /// Whether the session waits.
    pub fn waits(&self, session: u8) -> bool
        requires { self.now.spent ≡ false }
        ensures { result ≡ waits_now self.now.world.waits session }
    {
        self.stage.waits(session)
    }

    /// The number of the resource for which the session waits, if it waits.
    pub fn wait_at(&self, session: u8) -> Option<ResourceNumber>
        requires { self.now.spent ≡ false }
        ensures known { IfSome result (HasNumber self.now.numbers.resources) }
        ensures wait { option_map (resource_of self.now.numbers.resources) result
            ≡ option_map (λ (w : Wait). w.resource) (find (λ (w : Wait). w.session == session) self.now.world.waits) }
    {
        self.stage.wait_at(session)
    }

    /// How a session, or the control session behind all others, stands to its block.
    pub fn status(&self, session: u8) -> Status
        requires whole { self.now.spent ≡ false }
        requires session { session ≤ self.now.file.run.sessions }
        ensures { result ≡ (session_at self.now.world session).status }
    {
        self.stage.status(session)
    }

    /// The committed rows of a table in the order of their keys, whatever sessions have written and not kept. It takes no memory.
    pub fn committed(&self, table: u16) -> Scan<'_>
        ensures { result ≡ rows_of table self.now.world.rows }
    {
        self.stage.committed(table)
    }

    /// The mode that a session, or the control session behind all others, holds on a resource, if it holds one there.
    pub fn holds(&self, session: u8, number: ResourceNumber) -> Option<Mode>
        requires whole { self.now.spent ≡ false }
        requires session { session ≤ self.now.file.run.sessions }
        requires number { HasNumber self.now.numbers.resources number }
        ensures { result ≡ look_of self.now.world session (resource_of self.now.numbers.resources number) }
    {
        self.stage.holds(session, number)
    }

    /// Whether the mode is compatible with what every other session holds on a resource.
    pub fn fits(&self, session: u8, number: ResourceNumber, mode: Mode) -> bool
        requires whole { self.now.spent ≡ false }
        requires number { HasNumber self.now.numbers.resources number }
        ensures { IsTrue result ↔ Fits (look_of self.now.world) session (resource_of self.now.numbers.resources number) mode }
    {
        self.stage.fits(session, number, mode)
    }

    /// Whether a step was refused memory and the world has not gone back to a mark since.
    pub fn spent(&self) -> bool
        ensures { result ≡ self.now.spent }
    {
        self.is_spent
    }
}
