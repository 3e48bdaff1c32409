//! Exploring in depth.

ghost use Rattle.std.specs.Prelude.{◌≡◌, ◌<◌, ◌≤◌, ◌∷◌, ℕ, true, false, length, drop, IfOk, OnOk, IsErrOf};
ghost use Rattle.world_graph.specs.Worlds.{IsGraph, GoesOn, LeadsBack};
ghost use Rattle.world_graph.specs.declared.exploring.ExploreError.TheVariants.{Memory, Refusal};
ghost use Rattle.world_graph.specs.Walking.{IsWalk, IsWalked, turns_left};

use crate::explored::{Explored, LETTERS, Refused};
use crate::walk::{Frame, State, Walk, put_state};
use path_counts::Edge;
use std::alloc::{AllocError, Global};

/// The graph of the worlds that were found. Its edges are in the order in which paths are counted.
#[derive(Drop)]
pub struct Graph {
    /// The number of the world at the start.
    pub root: u32,
    /// Above the number of each node.
    pub nodes: usize,
    pub edges: Vec<Edge>,
}

/// Why there is no graph.
#[derive(Clone, Copy, Debug)]
pub enum ExploreError {
    /// Out of memory.
    Memory,
    /// A step, a mark or a number was refused.
    Refusal,
    /// A world leads back to itself.
    Circle,
    /// More worlds were noted than are allowed.
    TooMany,
}

impl From<AllocError> for ExploreError {
    ghost from_gives = { λ _ e. e ≡ Memory };

    fn from(_error: AllocError) -> ExploreError {
        ExploreError::Memory
    }
}

impl From<Refused> for ExploreError {
    ghost from_gives = { λ _ e. e ≡ Refusal };

    fn from(_error: Refused) -> ExploreError {
        ExploreError::Refusal
    }
}

/// Explores all worlds to which words lead from the world now, each number once, and comes back to it. At most `most` worlds are noted, those that were
/// noted before among them: with one more it stops.
pub fn explore<E: Explored>(
    alloc: Global,
    explored: &mut E,
    most: usize,
) -> Result<Graph, ExploreError>
    ensures graph { IfOk result (λ graph. IsGraph E.rules (E.seen explored.new) (E.world explored.old) graph.root graph.nodes graph.edges.items) }
    ensures most { OnOk result (length (E.seen explored.old) ≤ most → length (E.seen explored.new) ≤ most) }

    ensures whole { OnOk result (E.is_whole explored.new) }
    ensures world { OnOk result (E.world explored.new ≡ E.world explored.old) }
    ensures marked { OnOk result (E.marked explored.new ≡ E.marked explored.old) }
    ensures seen { OnOk result (GoesOn (E.seen explored.old) (E.seen explored.new)) }
    ensures fixed { OnOk result (E.fixed explored.new ≡ E.fixed explored.old) }

    ensures circle { IsErrOf result ExploreError.Circle → LeadsBack E.rules }
    ensures many { IsErrOf result ExploreError.TooMany → most < length (E.seen explored.new) }
{
    let root = explored.number()?;
    if root as usize >= most {
        return Err(ExploreError::TooMany);
    }
    let mut states = Vec::new(alloc);
    put_state(&mut states, root, State::Open)?;
    let mut walk = Walk {
        root,
        states,
        parents: Vec::new(alloc),
        edges: Vec::new(alloc),
        at: Frame {
            node: root,
            letter: 0,
        },
    };
    'turns: loop {
        if walk.at.letter < LETTERS {
            forward(explored, &mut walk, most)?;
        } else if backward(explored, &mut walk)? {
            return Ok(Graph {
                root,
                nodes: walk.states.len(),
                edges: walk.edges,
            });
        }
    }
}

/// Tries the next letter of the node that is on.
fn forward<E: Explored>(explored: &mut E, walk: &mut Walk, most: usize) -> Result<(), ExploreError>
    requires walk { IsWalk E.rules (E.seen explored.old) (E.world explored.old) (E.marked explored.old) walk.old }
    requires more { walk.old.at.letter < 8 }
    requires whole { E.is_whole explored.old }
    ensures whole { OnOk result (E.is_whole explored.new) }
    ensures walk { OnOk result (IsWalk E.rules (E.seen explored.new) (E.world explored.new) (E.marked explored.new) walk.new) }
    ensures seen { OnOk result (GoesOn (E.seen explored.old) (E.seen explored.new)) }
    ensures fixed { OnOk result (E.fixed explored.new ≡ E.fixed explored.old) }
    ensures bottom { OnOk result (drop (length walk.new.parents.items) (E.world explored.new ∷ E.marked explored.new) ≡ drop (length walk.old.parents.items) (E.world explored.old ∷ E.marked explored.old)) }
    ensures root { OnOk result (walk.new.root ≡ walk.old.root) }
    ensures less { OnOk result (turns_left most walk.new < turns_left most walk.old) }
    ensures most { OnOk result (length (E.seen explored.old) ≤ most → length (E.seen explored.new) ≤ most) }
    ensures circle { IsErrOf result ExploreError.Circle → LeadsBack E.rules }
    ensures many { IsErrOf result ExploreError.TooMany → most < length (E.seen explored.new) }
{
    let at = walk.at;
    if !explored.enabled(at.letter) {
        walk.at = Frame {
            node: at.node,
            letter: at.letter + 1,
        };
        return Ok(());
    }
    let offset = explored.offset(at.letter);
    explored.mark()?;
    explored.step(at.letter)?;
    let to = explored.number()?;
    if to as usize >= most {
        return Err(ExploreError::TooMany);
    }
    match walk.state(to) {
        State::Fresh => {
            walk.enter(to)?;
            Ok(())
        }
        State::Open => Err(ExploreError::Circle),
        State::Done => {
            explored.go_back();
            walk.emit(at, to, offset)?;
            Ok(())
        }
    }
}

/// The node that is on is done: goes back to the one above it, and writes the edge between them. Says whether there was none above.
fn backward<E: Explored>(explored: &mut E, walk: &mut Walk) -> Result<bool, ExploreError>
    requires walk { IsWalk E.rules (E.seen explored.old) (E.world explored.old) (E.marked explored.old) walk.old }
    requires tried { walk.old.at.letter ≡ 8 }
    requires whole { E.is_whole explored.old }
    ensures whole { OnOk result (E.is_whole explored.new) }
    ensures walk { IfOk result (λ over. over ≡ false → IsWalk E.rules (E.seen explored.new) (E.world explored.new) (E.marked explored.new) walk.new) }
    ensures over { IfOk result (λ over. over ≡ true → IsWalked E.rules (E.seen explored.new) walk.new) }
    ensures seen { OnOk result (E.seen explored.new ≡ E.seen explored.old) }
    ensures fixed { OnOk result (E.fixed explored.new ≡ E.fixed explored.old) }
    ensures bottom { OnOk result (drop (length walk.new.parents.items) (E.world explored.new ∷ E.marked explored.new) ≡ drop (length walk.old.parents.items) (E.world explored.old ∷ E.marked explored.old)) }
    ensures empty { IfOk result (λ over. over ≡ true → length walk.new.parents.items ≡ 0) }
    ensures root { OnOk result (walk.new.root ≡ walk.old.root) }
    ensures less { IfOk result (λ over. over ≡ false → (most : ℕ) → turns_left most walk.new < turns_left most walk.old) }
    ensures circle { IsErrOf result ExploreError.Circle → ⊥ }
    ensures many { IsErrOf result ExploreError.TooMany → ⊥ }
{
    let node = walk.at.node;
    match walk.finish()? {
        None => Ok(true),
        Some(frame) => {
            explored.go_back();
            let offset = explored.offset(frame.letter);
            walk.emit(frame, node, offset)?;
            Ok(false)
        }
    }
}
