//! What is known of worlds that were noted.

ghost use Rattle.std.specs.Prelude.{◌≡◌, IfSome};
ghost use Rattle.machine_model.specs.World.{World, send};
ghost use Rattle.known_worlds.specs.Late.{LateRunning};
ghost use Rattle.known_worlds.specs.Remembered.{are_quiet, IsGraph, IsNoted, IsToldAs};

use crate::places::{item_at, put_at};
use bound_specs::Spec;
use std::alloc::Global;

/// A step that leads from one world to another.
#[derive(Clone, Copy)]
pub(crate) struct Edge {
    pub(crate) from: u32,
    pub(crate) step: u8,
    pub(crate) to: u32,
}

/// The number of the outcome that was told of a world.
#[derive(Clone, Copy)]
pub(crate) struct ToldWorld {
    pub(crate) at: u32,
    pub(crate) outcome: usize,
}

/// Whether two steps are quiet in a world.
#[derive(Clone, Copy)]
pub(crate) struct PairAnswer {
    pub(crate) at: u32,
    pub(crate) step: u8,
    pub(crate) other: u8,
    pub(crate) is_quiet: bool,
}

/// What is known of worlds by their numbers. Each item says itself of what it is, and counts for that alone: where it stands serves to find it. It is
/// found by one look. Where memory is refused something is not remembered.
#[derive(Drop)]
pub(crate) struct Graph {
    /// How many sessions the spec has.
    pub(crate) sessions: u8,
    /// For each world an item for each session, for its next step. Lines that send the steps of a session in another order share the item.
    pub(crate) edges: Vec<Option<Edge>>,
    /// For each world one item.
    pub(crate) told: Vec<Option<ToldWorld>>,
    /// For each world an item for each session of the one step and each of the other.
    pub(crate) quiet: Vec<Option<PairAnswer>>,
}

impl Graph {
    /// Nothing is known. It takes no memory.
    pub(crate) fn new(alloc: Global, spec: &Spec) -> Graph
        ensures { (r : LateRunning) → IsGraph r result }
    {
        Graph {
            sessions: spec.sessions(),
            edges: Vec::new(alloc),
            told: Vec::new(alloc),
            quiet: Vec::new(alloc),
        }
    }

    /// The number of the world to which a step of this session leads, if it is known.
    pub(crate) fn next(&self, at: Option<u32>, session: u8, step: u8) -> Option<u32>
        ensures { (r : LateRunning) → IsGraph r self.now → IsNoted r.seen at r.world → IsNoted r.seen result (send r.file.run.steps r.world step) }
    {
        let from = at?;
        let edge = item_at(
            self.edges.as_slice(),
            edge_place(self.sessions, from, session),
        )?;
        if edge.from == from && edge.step == step {
            Some(edge.to)
        } else {
            None
        }
    }

    /// Remembers where a step of this session leads.
    pub(crate) fn note_next(&mut self, at: Option<u32>, session: u8, step: u8, to: Option<u32>)
        ensures { (r : LateRunning) (w : World) → IsGraph r self.old → IsNoted r.seen at w → IsNoted r.seen to (send r.file.run.steps w step) → IsGraph r self.new }
    {
        if let Some(from) = at {
            if let Some(to) = to {
                put_at(
                    &mut self.edges,
                    edge_place(self.sessions, from, session),
                    Edge { from, step, to },
                );
            }
        }
    }

    /// The number of the outcome of a world, if it is known.
    pub(crate) fn outcome(&self, at: Option<u32>) -> Option<usize>
        ensures { (r : LateRunning) → IsGraph r self.now → IsNoted r.seen at r.world → IfSome result (IsToldAs r r.world) }
    {
        let at = at?;
        let told = item_at(self.told.as_slice(), at as usize)?;
        if told.at == at {
            Some(told.outcome)
        } else {
            None
        }
    }

    /// Remembers the outcome of a world.
    pub(crate) fn note_outcome(&mut self, at: Option<u32>, outcome: usize)
        ensures { (r : LateRunning) → IsGraph r self.old → IsNoted r.seen at r.world → IsToldAs r r.world outcome → IsGraph r self.new }
    {
        if let Some(at) = at {
            put_at(&mut self.told, at as usize, ToldWorld { at, outcome });
        }
    }

    /// Whether two steps are quiet in a world, if it is known.
    pub(crate) fn quiet(&self, at: Option<u32>, cell: usize, step: u8, other: u8) -> Option<bool>
        ensures { (r : LateRunning) → IsGraph r self.now → IsNoted r.seen at r.world → IfSome result (λ yes. yes ≡ are_quiet r r.world step other) }
    {
        let at = at?;
        let answer = item_at(self.quiet.as_slice(), pair_place(self.sessions, at, cell))?;
        if answer.at == at && answer.step == step && answer.other == other {
            Some(answer.is_quiet)
        } else {
            None
        }
    }

    /// Remembers whether two steps are quiet in a world.
    pub(crate) fn note_quiet(
        &mut self,
        at: Option<u32>,
        cell: usize,
        step: u8,
        other: u8,
        is_quiet: bool,
    )
        ensures { (r : LateRunning) → IsGraph r self.old → IsNoted r.seen at r.world → is_quiet ≡ are_quiet r r.world step other → IsGraph r self.new }
    {
        if let Some(at) = at {
            put_at(
                &mut self.quiet,
                pair_place(self.sessions, at, cell),
                PairAnswer {
                    at,
                    step,
                    other,
                    is_quiet,
                },
            );
        }
    }

    /// Which of the items of a world is for two steps of these sessions.
    pub(crate) fn cell(&self, session: u8, other: u8) -> usize {
        session as usize * self.sessions as usize + other as usize
    }
}

#[inline(always)]
fn edge_place(sessions: u8, from: u32, session: u8) -> usize {
    (from as usize)
        .wrapping_mul(sessions as usize)
        .wrapping_add(session as usize)
}

#[inline(always)]
fn pair_place(sessions: u8, at: u32, cell: usize) -> usize {
    (at as usize)
        .wrapping_mul(sessions as usize * sessions as usize)
        .wrapping_add(cell)
}
