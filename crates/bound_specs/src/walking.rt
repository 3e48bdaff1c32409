//! The line of a word: each letter takes the next step of its session.

ghost use Rattle.std.specs.Prelude.{◌≡◌, ℕ, ◌<◌, ◌≤◌, ◌+◌, [], ◌∷◌, List, length, All, MatchOption};
ghost use Rattle.perm_ranks.specs.declared.TheConstants.{MAX_SESSIONS, MAX_STEPS};
ghost use Rattle.bound_specs.specs.declared.TheConstants.{MAX_LINED_STEPS};
ghost use Rattle.perm_ranks.specs.Words.{Word};
ghost use Rattle.bound_specs.specs.Spec.{line, queues_from};
ghost use Rattle.bound_specs.specs.Walking.{steps_from, queues_at};

use crate::block::Step;
use crate::orders::Line;
use perm_ranks::MAX_SESSIONS;

pub(crate) fn line_of_word(steps: &[Step], sessions: u8, word: &[u8]) -> Line
    requires few { length steps.now ≤ MAX_LINED_STEPS }
    requires sessions { sessions ≤ MAX_SESSIONS }
    requires short { length word.now ≤ MAX_STEPS }
    ensures line { result.items ≡ line (queues_from 0 sessions steps.now) word.now }
    ensures known { All (λ k. k < length steps.now) result.items }
{
    let mut next = [0; MAX_SESSIONS];
    let mut line = Line::new();
    for letter in word {
        if let Some(step) = take_step(steps, sessions, &mut next, *letter) {
            line.push(step);
        }
    }
    line
}

// `next` has for each session the step number from which on its steps are still to be sent.
fn take_step(steps: &[Step], sessions: u8, next: &mut [u8; MAX_SESSIONS], letter: u8) -> Option<u8>
    requires few { length steps.now ≤ MAX_LINED_STEPS }
    requires sessions { sessions ≤ MAX_SESSIONS }
    ensures line { (word : Word) →
        MatchOption result
        (line (queues_at 0 sessions next.old steps.now) (letter ∷ word) ≡ line (queues_at 0 sessions next.new steps.now) word)
        (λ k. line (queues_at 0 sessions next.old steps.now) (letter ∷ word) ≡ k ∷ line (queues_at 0 sessions next.new steps.now) word) }
    ensures known { MatchOption result (Unit {0}) (λ k. k < length steps.now) }
{
    if letter >= sessions {
        return None;
    }
    let step = step_from(steps, letter, next[letter as usize])?;
    next[letter as usize] = step + 1;
    Some(step)
}

// The session's first step from this number on.
pub(crate) fn step_from(steps: &[Step], session: u8, from: u8) -> Option<u8>
    requires { length steps.now ≤ MAX_LINED_STEPS }
    ensures next { MatchOption result (steps_from session from steps.now ≡ []) (λ k. steps_from session from steps.now ≡ k ∷ steps_from session (k + 1) steps.now) }
    ensures known { MatchOption result (Unit {0}) (λ k. k < length steps.now) }
{
    for k in from..steps.len() as u8 {
        if steps[k as usize].session() == session {
            return Some(k);
        }
    }
    None
}
