//! Schedules, counted by the worlds to which they lead: words of enabled letters that cannot be longer.

ghost use Rattle.std.specs.Prelude.{◌≡◌, ◌<◌, ◌≤◌, ℕ, true, length, get_or, IfOk, OnOk, IsErrOf};
ghost use Rattle.path_counts.specs.Paths.{AreWithin};
ghost use Rattle.path_counts.specs.declared.CountError.TheVariants.{Memory};
ghost use Rattle.world_graph.specs.Worlds.{IsGraph, GoesOn, LeadsBack, AreFewWords};
ghost use Rattle.world_graph.specs.declared.schedules.ScheduleError.TheVariants.{Explore, Count};
ghost use Rattle.world_graph.specs.Census.{IsCensus, AreFinals, AreEnds, finals_of};

use crate::explored::Explored;
use crate::exploring::{ExploreError, Graph, explore};
use path_counts::{CountError, Edge, Reached, counts, paths_are_words};
use std::alloc::{AllocError, Global};

/// A node at whose world no letter is enabled.
#[derive(Clone, Copy, Debug)]
pub struct Final {
    /// The number of the world.
    pub node: usize,
    /// How many schedules lead to the node, 1 at least.
    pub count: u64,
    /// The least of their ranks.
    pub least: u64,
}

/// A graph, with the words that lead from its root to each of its nodes.
#[derive(Drop)]
pub struct CountedGraph {
    pub graph: Graph,
    pub reached: Vec<Reached>,
}

/// Why schedules are not counted.
#[derive(Clone, Copy, Debug)]
pub enum ScheduleError {
    Explore(ExploreError),
    Count(CountError),
}

impl From<AllocError> for ScheduleError {
    ghost from_gives = { λ _ e. e ≡ Count Memory };

    fn from(_error: AllocError) -> ScheduleError {
        ScheduleError::Count(CountError::Memory)
    }
}

impl From<ExploreError> for ScheduleError {
    ghost from_gives = { λ x e. e ≡ Explore x };

    fn from(error: ExploreError) -> ScheduleError {
        ScheduleError::Explore(error)
    }
}

impl From<CountError> for ScheduleError {
    ghost from_gives = { λ x e. e ≡ Count x };

    fn from(error: CountError) -> ScheduleError {
        ScheduleError::Count(error)
    }
}

/// Explores all worlds to which words lead, at most `most` of them, and counts the words that lead to each.
pub fn census<E: Explored>(
    alloc: Global,
    explored: &mut E,
    most: usize,
) -> Result<CountedGraph, ScheduleError>
    ensures graph { IfOk result (λ found. IsGraph E.rules (E.seen explored.new) (E.world explored.old) found.graph.root found.graph.nodes found.graph.edges.items) }
    ensures census { IfOk result (λ found. IsCensus E.rules (E.seen explored.new) (E.world explored.old) found.graph.nodes found.graph.edges.items found.reached.items) }
    ensures long { IfOk result (λ found. length found.reached.items ≡ found.graph.nodes) }
    ensures most { OnOk result (length (E.seen explored.old) ≤ most → length (E.seen explored.new) ≤ most) }

    ensures whole { OnOk result (E.is_whole explored.new) }
    ensures world { OnOk result (E.world explored.new ≡ E.world explored.old) }
    ensures marked { OnOk result (E.marked explored.new ≡ E.marked explored.old) }
    ensures seen { OnOk result (GoesOn (E.seen explored.old) (E.seen explored.new)) }
    ensures fixed { OnOk result (E.fixed explored.new ≡ E.fixed explored.old) }

    ensures circle { IsErrOf result (ScheduleError.Explore ExploreError.Circle) → LeadsBack E.rules }
    ensures many { IsErrOf result (ScheduleError.Explore ExploreError.TooMany) → most < length (E.seen explored.new) }
    ensures large { IsErrOf result (ScheduleError.Count CountError.TooLarge) → AreFewWords E.rules (E.world explored.old) → ⊥ }
{
    let graph = explore(alloc, explored, most)?;
    paths_are_words();
    let reached = counts(alloc, graph.nodes, graph.root, graph.edges.as_slice())?;
    Ok(CountedGraph { graph, reached })
}

/// Counts the schedules, each at the node to which it leads. At most `most` worlds are noted.
pub fn finals<E: Explored>(
    alloc: Global,
    explored: &mut E,
    most: usize,
) -> Result<Vec<Final>, ScheduleError>
    ensures finals { IfOk result (λ finals. AreFinals E.rules (E.seen explored.new) (E.world explored.old) finals.items) }
    ensures most { OnOk result (length (E.seen explored.old) ≤ most → length (E.seen explored.new) ≤ most) }

    ensures whole { OnOk result (E.is_whole explored.new) }
    ensures world { OnOk result (E.world explored.new ≡ E.world explored.old) }
    ensures marked { OnOk result (E.marked explored.new ≡ E.marked explored.old) }
    ensures seen { OnOk result (GoesOn (E.seen explored.old) (E.seen explored.new)) }
    ensures fixed { OnOk result (E.fixed explored.new ≡ E.fixed explored.old) }

    ensures circle { IsErrOf result (ScheduleError.Explore ExploreError.Circle) → LeadsBack E.rules }
    ensures many { IsErrOf result (ScheduleError.Explore ExploreError.TooMany) → most < length (E.seen explored.new) }
    ensures large { IsErrOf result (ScheduleError.Count CountError.TooLarge) → AreFewWords E.rules (E.world explored.old) → ⊥ }
{
    let found = census(alloc, explored, most)?;
    let ends = ends_of(alloc, found.graph.nodes, found.graph.edges.as_slice())?;
    let finals = finals_at(alloc, ends.as_slice(), found.reached.as_slice())?;
    Ok(finals)
}

/// Which nodes have no edge.
fn ends_of(alloc: Global, nodes: usize, edges: &[Edge]) -> Result<Vec<bool>, AllocError>
    requires { AreWithin nodes edges.now }
    ensures { IfOk result (λ ends. AreEnds edges.now nodes ends.items) }
{
    let mut ends = vec![in alloc; true; nodes]?;
    for edge in edges {
        ends[edge.from as usize] = false;
    }
    Ok(ends)
}

/// The nodes without an edge to which paths lead.
fn finals_at(alloc: Global, ends: &[bool], counted: &[Reached]) -> Result<Vec<Final>, AllocError>
    requires { length ends.now ≡ length counted.now }
    ensures { IfOk result (λ finals. finals.items ≡ finals_of ends.now counted.now (length counted.now)) }
{
    let mut finals = Vec::new(alloc);
    for node in 0..counted.len() {
        let reached = counted[node];
        if ends[node] && reached.count > 0 {
            finals.push(Final {
                node,
                count: reached.count,
                least: reached.least,
            })?;
        }
    }
    Ok(finals)
}
