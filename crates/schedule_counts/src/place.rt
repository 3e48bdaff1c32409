//! How far the sessions are.

ghost use Rattle.std.specs.Prelude.{◌≡◌, ◌<◌, ◌↔◌, ℕ, [], true, length, get_or, IfSome, IsTrue, MatchOption};
ghost use Rattle.bound_specs.specs.Spec.{counts_of, queues_of};
ghost use Rattle.perm_ranks.specs.Counting.{words_before};
ghost use Rattle.spec_schedules.specs.Points.{is_some_left};
ghost use Rattle.schedule_counts.specs.Searching.{IsPlaceOf, IsTaken, left_at};

use bound_specs::Spec;
use perm_ranks::{Block, MAX_SESSIONS, Shape};

/// What is still to be sent.
#[derive(Drop)]
pub(crate) struct Place {
    /// For each session the number from which on its steps are still to be sent.
    pub(crate) next: [u8; MAX_SESSIONS],
    /// The words that begin with what was sent.
    pub(crate) block: Block,
}

impl Place {
    /// The place at the start of a spec of this shape.
    pub(crate) fn start(spec: &Spec, shape: &Shape) -> Place
        requires { shape.now ≡ counts_of (queues_of spec.now.run) }
        ensures place { IsPlaceOf spec.now.run result }
        ensures all { left_at spec.now.run result.next ≡ queues_of spec.now.run }
    {
        let _sessions = spec.sessions(); // for the proof
        Place {
            next: [0; MAX_SESSIONS],
            block: shape.block(),
        }
    }

    /// The same place.
    pub(crate) fn copy(&self) -> Place
        ensures { result ≡ self.now }
    {
        Place {
            next: self.next,
            block: self.block.copy(),
        }
    }

    /// Whether a session has a step left.
    pub(crate) fn has(&self, spec: &Spec, session: u8) -> bool
        requires { IsPlaceOf spec.now.run self.now }
        ensures { result ≡ is_some_left (get_or (left_at spec.now.run self.now.next) session []) }
    {
        let _sessions = spec.sessions(); // for the proof
        self.block.left_of(session) > 0
    }

    /// How much the session's next step adds to the rank.
    pub(crate) fn offset(&self, session: u8) -> u64
        requires { 0 < get_or self.now.block.left session 0 }
        ensures { result ≡ length (words_before self.now.block.left session) }
    {
        self.block.narrowed(session).first() - self.block.first()
    }

    /// Takes the session's next step, if it has one left.
    pub(crate) fn take(&mut self, spec: &Spec, session: u8) -> Option<u8>
        requires place { IsPlaceOf spec.now.run self.old }
        requires session { session < 8 }
        ensures place { IsPlaceOf spec.now.run self.new }
        ensures taken { IfSome result (IsTaken spec.now.run self.old self.new session) }
        ensures known { IfSome result (λ step. step < length spec.now.run.steps) }
    {
        if !self.has(spec, session) {
            return None;
        }
        let _steps = spec.steps(); // for the proof
        let step = spec.step_from(session, self.next[session as usize])?;
        self.next[session as usize] = step + 1;
        self.block = self.block.narrowed(session);
        Some(step)
    }
}
