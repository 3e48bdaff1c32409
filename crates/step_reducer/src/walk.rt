//! A walk of words or of lines.

ghost use mathlib.Core.List.{IsPrefix};
ghost use Rattle.std.specs.Prelude.{◌≡◌, ℕ, ◌<◌, ◌≤◌, IfErr, IfOk, OnOk, Some, [], length, slice_get};
ghost use Rattle.bound_specs.specs.Spec.{ranks};
ghost use Rattle.machine_model.specs.Start.{start};
ghost use Rattle.session_steps.specs.Refused.{IsRefusedBy};
ghost use Rattle.step_reducer.specs.Saying.{IsTold, giving_of};
ghost use Rattle.step_reducer.specs.Walking.{walk_at, walk_end, walk_told, moved_to, IsGoing, IsWalkOf, HasMoved, HasWalked, Starts};

use crate::fact::Given;
use crate::line_walk::LineWalk;
use crate::word_walk::WordWalk;
use bound_specs::Spec;
use known_worlds::KnownWorld;
use session_steps::StartError;
use std::alloc::{AllocError, Global};
use transcripts::Outcome;

/// How the ranks are walked.
pub(crate) enum Walk<'a> {
    Words(WordWalk<'a>),
    Lines(LineWalk<'a>),
}

// Written out and not derived, so that who owns one calls this and does not let its parts go one by one.
impl Drop for Walk<'_> {
    fn drop(self) {
        match self {
            Walk::Words(_a) => {}
            Walk::Lines(_a) => {}
        }
    }
}

impl<'a> Walk<'a> {
    /// A walk from the start of a spec, which stands before the first rank and may be asked for those up to the end.
    pub(crate) fn start(
        alloc: Global,
        spec: &'a Spec,
        first: u64,
        end: u64,
        reduce: bool,
    ) -> Result<Walk<'a>, StartError>
        requires order { first ≤ end }
        requires few { end ≤ ranks spec.now.run }
        ensures walk { IfOk result (IsWalkOf spec.now reduce first end) }
        ensures at { IfOk result (λ walk. walk_at walk ≡ first) }
        ensures told { IfOk result (λ walk. walk_told walk ≡ []) }
        ensures started { OnOk result (Starts spec.now.run) }
        ensures refused { IfErr result (λ error. IsRefusedBy error (start spec.now.run)) }
    {
        match spec.shape() {
            Some(shape) => {
                let start = KnownWorld::start(alloc, spec)?;
                let walk = WordWalk::new(alloc, spec, shape, start, first, end, reduce)?;
                Ok(Walk::Words(walk))
            }
            None => {
                let walk = LineWalk::start(alloc, spec, first)?;
                Ok(Walk::Lines(walk))
            }
        }
    }

    /// What is said of the next ranks, at least of one, none of them past an end. Of a walk that came from a first rank on, the steps sent
    /// may be counted.
    pub(crate) fn next_run(
        &mut self,
        spec: &Spec,
        reduce: bool,
        end: u64,
    ) -> Result<Given, AllocError>
        requires going { IsGoing spec.now reduce self.old }
        requires some { walk_at self.old < end }
        requires inside { end ≤ walk_end spec.now self.old }
        ensures moved { IfOk result (λ given. HasMoved spec.now reduce end self.old (giving_of (walk_told self.new) given) self.new) }
        ensures walked { IfOk result (λ given. (first : ℕ) → IsWalkOf spec.now reduce first end self.old
            → HasWalked spec.now reduce first end self.old (giving_of (walk_told self.new) given) self.new) }
        ensures number { IfOk result (λ given. IsTold (walk_told self.new) given.run.said) }
        ensures front { IsPrefix (walk_told self.old) (walk_told self.new) }
    {
        match self {
            Walk::Words(walk) => walk.next_run(end),
            Walk::Lines(walk) => walk.next_run(),
        }
    }

    /// The outcome that was told with a number.
    pub(crate) fn told(&self, number: usize) -> &Outcome
        requires { number < length (walk_told self.now) }
        ensures { slice_get (walk_told self.now) number ≡ Some result.now }
    {
        match self {
            Walk::Words(walk) => walk.stack.told(number),
            Walk::Lines(walk) => walk.path.told(number),
        }
    }

    /// Goes on before another rank. What the ranks given share with that one stays.
    pub(crate) fn reach(&mut self, rank: u64)
        ensures { self.new ≡ moved_to rank self.old }
    {
        match self {
            Walk::Words(walk) => walk.at = rank,
            Walk::Lines(walk) => walk.at = rank,
        }
    }
}
