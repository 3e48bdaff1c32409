//! The rank of an order where a spec's orders are all that keep each session's steps in turn.

ghost use Rattle.std.specs.Prelude.{◌≡◌, ◌<◌, [], IfOk, IfErr, All, length};
ghost use Rattle.bound_specs.specs.Spec.{IsReady, counts_of, queues_of};
ghost use Rattle.order_names.specs.Steps.{IsRankOfLine, IsNoLine, IsWrongLine, IsWrongAt, IsLeftOut};

use crate::error::OrderError;
use bound_specs::Spec;
use perm_ranks::{MAX_SESSIONS, Shape};

/// The rank at which these steps are sent. Each narrows the block of words that begin like the order by one letter, its session.
pub(crate) fn rank_of_word(spec: &Spec, shape: &Shape, line: &[u8]) -> Result<u64, OrderError>
    requires words { spec.now.run.lines ≡ [] }
    requires shape { shape.now ≡ counts_of (queues_of spec.now.run) }
    requires known { All (λ k. k < length spec.now.run.steps) line.now }
    ensures rank { IfOk result (IsRankOfLine spec.now.run line.now) }
    ensures refused { IfErr result (IsWrongLine spec.now.run.steps line.now) }
    ensures none { IfErr result (λ error. IsNoLine spec.now.run line.now) }
{
    spec.ready();
    let mut next = [0; MAX_SESSIONS];
    let mut block = shape.block();
    for place in 0..line.len() {
        let step = line[place];
        let session = spec.session_of(step);
        let due = spec.step_from(session, next[session as usize]);
        if let Some(error) = wrong_at(place, step, due) {
            return Err(error);
        }
        next[session as usize] = step + 1;
        block = block.narrowed(session);
    }
    match left_out(spec, &next) {
        Some(due) => Err(OrderError::LeftOut(due)),
        None => Ok(block.first()),
    }
}

/// What is wrong where a step is to be sent at a place, and this one is due of its session.
fn wrong_at(place: usize, step: u8, due: Option<u8>) -> Option<OrderError>
    ensures { IsWrongAt place step due result }
{
    match due {
        Some(due) => {
            if due == step {
                return None;
            }
            if due < step {
                return Some(OrderError::OutOfTurn { place, due });
            }
            Some(OrderError::Again(place))
        }
        None => Some(OrderError::Again(place)),
    }
}

/// The first step that is not sent, by the numbers from which on each session's steps are not.
fn left_out(spec: &Spec, next: &[u8; MAX_SESSIONS]) -> Option<u8>
    ensures { IsLeftOut spec.now.run next.now result }
{
    for session in 0..spec.sessions() {
        if let Some(due) = spec.step_from(session, next[session as usize]) {
            return Some(due);
        }
    }
    None
}
