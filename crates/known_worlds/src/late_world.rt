//! A world whose machine runs only when something is asked of it.

ghost use mathlib.Core.List.{IsPrefix};
ghost use Rattle.std.specs.Prelude.{◌≡◌, ◌<◌, ◌∷◌, [], IfErr, IfOk, IfSome, OnErr, OnOk, Some, false, length, slice_get};
ghost use Rattle.machine_model.specs.Outcome.{IsOutcomeOf};
ghost use Rattle.machine_model.specs.Start.{Started, start};
ghost use Rattle.machine_model.specs.World.{outcome_of, send};
ghost use Rattle.session_steps.specs.Refused.{IsRefusedBy};
ghost use Rattle.known_worlds.specs.Remembered.{are_quiet};

use crate::follower::Follower;
use crate::moves::{Move, newest_mark};
use bound_specs::Spec;
use marked_quiet::quiet;
use marked_worlds::MarkedWorld;
use numbered_specs::SpecNumbers;
use plan_pairs::StepPairs;
use session_steps::StartError;
use std::alloc::{AllocError, Global};
use std::marker::Model;
use std::sync::Arc;
use transcripts::Outcome;

/// A world with marks to go back to, whose machine makes the moves that are asked for when something is asked of the world behind them. So moves that are
/// gone back from before that cost nothing.
///
/// It is seen as a world that has made all moves, and is never spent: what is refused memory may be asked again.
#[derive(Drop)]
pub(crate) struct LateWorld<'a> {
    follower: Follower<'a>,
    pairs: StepPairs,
    /// What was asked for since the start, and not gone back from.
    path: Vec<Move>,
}

impl<'a> Model for LateWorld<'a> {
    ghost use Rattle.std.specs.Coded.{codes};
    ghost use Rattle.finite_maps.specs.Codes.{map_code};
    ghost use Rattle.lock_modes.specs.contracts.value.Value as value;
    ghost use Rattle.lock_modes.specs.contracts.resource.Resource as resource;
    ghost use Rattle.lock_queues.specs.contracts.wait.Wait as waiting;
    ghost use Rattle.bound_statements.specs.contracts.statement.Bound as bound;
    ghost use Rattle.numbered_specs.specs.contracts.request.NumberedRequest as request;
    ghost use Rattle.events.specs.contracts.event.Event as event;
    ghost use Rattle.known_worlds.specs.Late.{LateRunning};
    ghost use Rattle.known_worlds.specs.Following.{IsLate, is_level, led};

    ghost Value = { LateRunning };

    ghost coded = { Prim.hlevel (codes, map_code, value.the_row.coded, bound.the_row.coded, resource.the_row.coded, waiting.the_row.coded, request.the_row.coded, event.the_row.coded) };

    ghost view = { λ w. led w.follower.machine (is_level w.follower w.path.items) w.path.items };

    ghost invariant = { λ w. IsLate w.follower w.pairs w.path.items };
}

impl<'a> LateWorld<'a> {
    /// The world in which the spec starts, without a mark.
    pub(crate) fn start(alloc: Global, spec: &'a Spec) -> Result<LateWorld<'a>, StartError>
        ensures started { IfOk result (λ world. start spec.now.run ≡ Started world.world) }
        ensures of_spec { IfOk result (λ world. world.file ≡ spec.now) }
        ensures marked { IfOk result (λ world. world.marked ≡ []) }
        ensures told { IfOk result (λ world. world.told ≡ []) }
        ensures refused { IfErr result (λ error. IsRefusedBy error (start spec.now.run)) }
    {
        let numbers = SpecNumbers::of_spec(alloc, spec)?;
        let pairs = StepPairs::of_spec(alloc, spec, &numbers)?;
        let numbers = shared(alloc, numbers)?;
        let machine = MarkedWorld::start(alloc, spec, numbers)?;
        Ok(LateWorld {
            follower: Follower {
                machine,
                made: 0,
                is_rooted: false,
            },
            pairs,
            path: Vec::new(alloc),
        })
    }

    /// The spec that the world is of.
    pub(crate) fn spec(&self) -> &'a Spec
        ensures { result.now ≡ self.now.file }
    {
        self.follower.machine.spec()
    }
}

impl LateWorld<'_> {
    /// Sends a step.
    pub(crate) fn send(&mut self, step: u8) -> Result<(), AllocError>
        requires { step < length self.old.file.run.steps }
        ensures sent { OnOk result (self.new ≡ record self.old { world = send self.old.file.run.steps self.old.world step; level = self.new.level }) }
        ensures refused { OnErr result (self.new ≡ self.old) }
    {
        self.path.push(Move::Send(step))?;
        Ok(())
    }

    /// Sets a mark.
    pub(crate) fn mark(&mut self) -> Result<(), AllocError>
        ensures marked { OnOk result (self.new ≡ record self.old { marked = self.old.world ∷ self.old.marked; level = false }) }
        ensures refused { OnErr result (self.new ≡ self.old) }
    {
        self.path.push(Move::Mark)?;
        Ok(())
    }

    /// Goes back to the newest mark, which is gone then. It takes no memory.
    pub(crate) fn go_back(&mut self)
        requires { 0 < length self.old.marked }
        ensures marked { self.old.marked ≡ self.new.world ∷ self.new.marked }
        ensures same { self.new ≡ record self.old { world = self.new.world; marked = self.new.marked; level = self.new.level } }
    {
        let Some(place) = newest_mark(self.path.as_slice(), self.path.len()) else {
            return;
        };
        self.follower.leave(self.path.as_slice(), place);
        self.path.truncate(place);
    }

    /// The number of the world now among those that were noted.
    pub(crate) fn number(&mut self) -> Result<Option<usize>, AllocError>
        ensures known { IfOk result (λ answer. IfSome answer (λ number. slice_get self.new.seen number ≡ Some self.old.world)) }
        ensures front { IsPrefix self.old.seen self.new.seen }
        ensures same { self.new ≡ record self.old { seen = self.new.seen; level = self.new.level } }
    {
        self.follower.catch_up(self.path.as_slice())?;
        match self.follower.machine.number() {
            Ok(number) => Ok(number),
            Err(_) => Err(AllocError),
        }
    }

    /// Tells the transcripts so far: the answer is their number among the outcomes that were told.
    pub(crate) fn outcome(&mut self) -> Result<usize, AllocError>
        ensures told { IfOk result (λ number. slice_get self.new.told number ≡ Some (outcome_of self.old.file.run.sessions self.old.world)) }
        ensures own { IfOk result (λ number. IfSome (slice_get self.new.told number) (IsOutcomeOf self.old.file.run)) }
        ensures front { IsPrefix self.old.told self.new.told }
        ensures same { self.new ≡ record self.old { told = self.new.told; level = self.new.level } }
    {
        self.follower.catch_up(self.path.as_slice())?;
        match self.follower.machine.outcome() {
            Ok(number) => Ok(number),
            Err(_) => Err(AllocError),
        }
    }

    /// The outcome that was told with a number.
    pub(crate) fn told(&self, number: usize) -> &Outcome
        requires { number < length self.now.told }
        ensures { slice_get self.now.told number ≡ Some result.now }
    {
        self.follower.machine.told(number)
    }

    /// Whether two steps are quiet in the world now.
    pub(crate) fn is_quiet(&mut self, step: u8, other: u8) -> Result<bool, AllocError>
        requires step { step < length self.old.file.run.steps }
        requires other { other < length self.old.file.run.steps }
        ensures answer { IfOk result (λ yes. yes ≡ are_quiet self.old self.old.world step other) }
        ensures same { self.new ≡ record self.old { level = self.new.level } }
    {
        self.follower.catch_up(self.path.as_slice())?;
        Ok(quiet(&self.follower.machine, &self.pairs, step, other))
    }
}

fn shared(alloc: Global, numbers: SpecNumbers) -> Result<Arc<SpecNumbers>, AllocError>
    ensures { IfOk result (λ shared. shared.value ≡ numbers) }
{
    Ok(Arc::new(alloc, numbers)?)
}
