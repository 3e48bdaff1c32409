//! A line with the world behind it.

ghost use mathlib.Core.List.{IsPrefix};
ghost use Rattle.std.specs.Prelude.{◌≡◌, ◌<◌, All, IfErr, IfOk, OnOk, Some, [], get_or, length, slice_get};
ghost use Rattle.bound_specs.specs.Spec.{no_step};
ghost use Rattle.machine_model.specs.Start.{start};
ghost use Rattle.machine_model.specs.World.{outcome_of, send_all};
ghost use Rattle.rank_facts.specs.Quiet as quiet;
ghost use Rattle.session_steps.specs.Refused.{IsRefusedBy};
ghost use Rattle.known_worlds.specs.Fronts.{front};
ghost use Rattle.known_worlds.specs.Paths.{first_world, IsPath};

use crate::KnownWorld;
use crate::front::shared_front;
use crate::steps::{go_back, go_on};
use bound_specs::{Line, Spec};
use session_steps::StartError;
use std::alloc::{AllocError, Global};
use transcripts::Outcome;

/// The steps of a spec that were sent last, in a world with a mark before each of them. Lines that begin alike share what was sent of them.
#[derive(Drop)]
pub struct MarkedPath<'a> {
    pub(crate) world: KnownWorld<'a>,
    pub(crate) line: Line,
}

impl<'a> MarkedPath<'a> {
    /// No steps yet, in the world in which the spec starts.
    pub fn start(alloc: Global, spec: &'a Spec) -> Result<MarkedPath<'a>, StartError>
        ensures path { IfOk result (IsPath spec.now) }
        ensures line { IfOk result (λ path. path.line.items ≡ []) }
        ensures told { IfOk result (λ path. path.world.told ≡ []) }
        ensures refused { IfErr result (λ error. IsRefusedBy error (start spec.now.run)) }
    {
        let world = KnownWorld::start(alloc, spec)?;
        Ok(MarkedPath {
            world,
            line: Line::new(),
        })
    }

    /// The spec.
    pub fn spec(&self) -> &'a Spec
        ensures { result.now ≡ self.now.world.file }
    {
        self.world.spec()
    }

    /// Goes to other steps, and answers how many of them were sent already: only those behind the front that both lines share are sent.
    /// Where memory is refused the path is good for nothing more.
    #[tactic(auto, using(crate::proofs::FrontLemmas::few_old, crate::proofs::FrontLemmas::few_new, crate::proofs::FrontLemmas::same_front))]
    pub fn go_to(&mut self, line: Line) -> Result<usize, AllocError>
        requires path { IsPath self.old.world.file self.old }
        requires known { All (λ k. k < length self.old.world.file.run.steps) line.items }
        ensures path { OnOk result (IsPath self.old.world.file self.new) }
        ensures line { OnOk result (self.new.line.items ≡ line.items) }
        ensures shared { IfOk result (λ n. n ≡ front self.old.line.items line.items) }
        ensures file { self.new.world.file ≡ self.old.world.file }
        ensures numbers { self.new.world.numbers ≡ self.old.world.numbers }
        ensures told { self.new.world.told ≡ self.old.world.told }
    {
        let shared = shared_front(self.line.as_slice(), line.as_slice());
        go_back(&mut self.world, self.line.as_slice(), shared);
        go_on(&mut self.world, line.as_slice(), shared)?;
        self.line = line;
        Ok(shared)
    }

    /// Tells the transcripts behind all steps: the answer is their number among the outcomes that were told.
    pub fn outcome(&mut self) -> Result<usize, AllocError>
        requires { IsPath self.old.world.file self.old }
        ensures told { IfOk result (λ number. slice_get self.new.world.told number ≡ Some (outcome_of self.old.world.file.run.sessions
            (send_all self.old.world.file.run.steps (first_world self.old.world.file.run) self.old.line.items))) }
        ensures front { IsPrefix self.old.world.told self.new.world.told }
        ensures same { self.new ≡ record self.old { world = record self.old.world { told = self.new.world.told; level = self.new.world.level } } }
    {
        match self.world.outcome() {
            Ok(number) => Ok(number),
            Err(_) => Err(AllocError),
        }
    }

    /// The outcome that was told with a number.
    pub fn told(&self, number: usize) -> &Outcome
        requires { number < length self.now.world.told }
        ensures { slice_get self.now.world.told number ≡ Some result.now }
    {
        self.world.told(number)
    }

    /// Whether two steps are quiet behind all steps. The path stays as it is, but for whether the machine stands behind all steps.
    pub fn is_quiet(&mut self, step: u8, other: u8) -> Result<bool, AllocError>
        requires path { IsPath self.old.world.file self.old }
        requires step { step < length self.old.world.file.run.steps }
        requires other { other < length self.old.world.file.run.steps }
        ensures answer { IfOk result (λ yes. yes ≡ quiet.is_quiet (send_all self.old.world.file.run.steps (first_world self.old.world.file.run) self.old.line.items)
            (get_or self.old.world.file.run.steps step no_step) (get_or self.old.world.file.run.steps other no_step)) }
        ensures path { IsPath self.old.world.file self.new }
        ensures same { self.new ≡ record self.old { world = record self.old.world { level = self.new.world.level } } }
    {
        self.world.is_quiet(step, other)
    }
}
