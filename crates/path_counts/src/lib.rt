//! Paths of a graph without cycles: how many lead to each node, and the least weight of one. No path is listed.
#![tactic(auto)]

ghost use Rattle.std.specs.Prelude.{◌≡◌, ℕ, List, ◌<◌, length, IfOk, IsErrOf, MatchOption};
ghost use Rattle.path_counts.specs.Paths.{AreWithin, IsInOrder, IsPath, IsCount, IsWordCount, AreSmall, word};
ghost use Rattle.path_counts.specs.declared.Edge.{Edge};
ghost use Rattle.path_counts.specs.Counted.{AreCounts, IsJoined, IsTooLarge};
ghost use Rattle.path_counts.specs.declared.CountError.TheVariants.{Memory};

use std::alloc::{AllocError, Global};
use std::convert::From;

/// A way from a node to a node. Nodes go by their numbers, from 0.
#[derive(Clone, Copy, Debug)]
pub struct Edge {
    pub from: u32,
    /// What the edge spells. A node has at most one edge for a letter.
    pub letter: u8,
    pub to: u32,
    /// How much the edge adds to the weight of a path.
    pub offset: u64,
}

/// The paths from the root to a node. Where there is none, `count` is 0 and `least` says nothing.
#[derive(Clone, Copy, Debug)]
pub struct Reached {
    /// How many paths there are.
    pub count: u64,
    /// The least weight of one.
    pub least: u64,
}

/// Why paths are not counted.
#[derive(Clone, Copy, Debug)]
pub enum CountError {
    /// Out of memory.
    Memory,
    /// A number of paths or a weight does not fit 64 bits.
    TooLarge,
}

impl From<AllocError> for CountError {
    ghost from_gives = { λ _ e. e ≡ Memory };

    fn from(_error: AllocError) -> CountError {
        CountError::Memory
    }
}

/// Counts the paths that lead from the root to each of the nodes `0..nodes`, in one pass from the last edge to the first.
///
/// The edges are in the order in which a search in depth leaves them: no edge can be taken behind one that is before it in the list.
pub fn counts(
    alloc: Global,
    nodes: usize,
    root: u32,
    edges: &[Edge],
) -> Result<Vec<Reached>, CountError>
    requires root { root < nodes }
    requires within { AreWithin nodes edges.now }
    requires order { IsInOrder edges.now }
    ensures counts { IfOk result (λ all. AreCounts edges.now root nodes all.items) }
    ensures nodes { IfOk result (λ all. length all.items ≡ nodes) }
    // Where each node has fewer than 2^64 paths, of weights below 2^64, the error does not come.
    ensures large { IsErrOf result CountError.TooLarge → AreSmall edges.now root → ⊥ }
{
    let mut all = vec![in alloc; Reached { count: 0, least: 0 }; nodes]?;
    all[root as usize] = Reached { count: 1, least: 0 };
    let mut rest = edges.len();
    while rest > 0 {
        rest -= 1;
        let edge = edges[rest];
        let before = all[edge.from as usize];
        let known = all[edge.to as usize];
        match joined(known, before, edge.offset) {
            Some(now) => all[edge.to as usize] = now,
            None => return Err(CountError::TooLarge),
        }
    }
    Ok(all)
}

/// The paths to a node where `known` are those that do not take one edge last, and `before` those to the node from which that edge leads.
/// `None` where a number does not fit.
fn joined(known: Reached, before: Reached, offset: u64) -> Option<Reached>
    ensures { MatchOption result (IsTooLarge known before offset) (IsJoined known before offset) }
{
    if before.count == 0 {
        return Some(known);
    }
    let Some(count) = known.count.checked_add(before.count) else {
        return None;
    };
    let Some(least) = before.least.checked_add(offset) else {
        return None;
    };
    if known.count == 0 {
        Some(Reached { count, least })
    } else {
        Some(Reached {
            count,
            least: known.least.min(least),
        })
    }
}

/// Paths from one node that spell one word are one path, since a node has one edge for a letter. So a number of paths is a number of words.
pub fn paths_are_words()
    ensures one { (edges one two : List Edge) (root to other : ℕ) → IsInOrder edges → IsPath edges root one to → IsPath edges root two other → word one ≡ word two → one ≡ two }
    ensures words { (edges : List Edge) (root to count least : ℕ) → IsInOrder edges → IsCount edges root to count least → IsWordCount edges root to count }
{}
