//! The outcomes that were told, each of which is made once.

ghost use mathlib.Core.List.{IsPrefix};
ghost use Rattle.std.specs.Prelude.{◌≡◌, ◌≤◌, ◌<◌, All, IfOk, IfSome, Some, [], length, map, slice_get, take, true};
ghost use Rattle.event_tree.specs.Lists.{HasNode, list_of};
ghost use Rattle.marked_logs.specs.Logs.{told_to};
ghost use Rattle.marked_worlds.specs.Told.{AreTold, outcomes_of};

use event_tree::NodeId;
use events::{Event, Transcript};
use finite_maps::Fork;
use marked_logs::MarkedLogs;
use std::alloc::{AllocError, Global};
use std::collections::BTreeMap;
use std::hash::{FoldHasher, Hasher};
use transcripts::Outcome;

/// An outcome, with the node of what each session was told.
#[derive(Drop)]
pub(crate) struct ToldOutcome {
    pub(crate) nodes: Vec<NodeId>,
    pub(crate) outcome: Outcome,
}

/// Outcomes that were told, in the order in which they were told first, found by the nodes of what sessions were told. The index has a place for a number
/// made of nodes. What it tells is compared node by node, so that nothing but speed and size depends on it.
#[derive(Drop)]
pub(crate) struct ToldTable {
    pub(crate) kept: Vec<ToldOutcome>,
    pub(crate) index: BTreeMap<u64, usize>,
}

impl ToldTable {
    /// No outcomes.
    pub(crate) fn new(alloc: Global) -> ToldTable
        ensures { result.kept.items ≡ [] }
    {
        ToldTable {
            kept: Vec::new(alloc),
            index: BTreeMap::new(alloc),
        }
    }

    /// The number of what the first so many sessions were told, among the outcomes that are kept. It is made, and kept behind all others, where they were
    /// not told so before. What is kept stays, whatever comes of it.
    pub(crate) fn number(
        &mut self,
        alloc: Global,
        logs: &MarkedLogs<Event>,
        count: u8,
    ) -> Result<usize, AllocError>
        requires few { count ≤ length logs.now.now }
        requires told { AreTold logs.now.lists self.old.kept.items }
        ensures outcome { IfOk result (λ number. slice_get (outcomes_of self.new.kept.items) number ≡ Some (take count logs.now.now)) }
        ensures front { IsPrefix (outcomes_of self.old.kept.items) (outcomes_of self.new.kept.items) }
        ensures told { AreTold logs.now.lists self.new.kept.items }
    {
        let print = print_of(logs, count);
        if let Some(number) = self.known(print, logs, count) {
            return Ok(number);
        }
        let nodes = nodes_of(alloc, logs, count)?;
        let outcome = Outcome::new(alloc, transcripts_of(alloc, logs, count)?)?;
        let number = self.kept.len();
        self.index.insert(print, number)?;
        self.kept.push(ToldOutcome { nodes, outcome })?;
        Ok(number)
    }

    /// The number of what the first so many sessions were told, looked for by the number that is made of their nodes.
    fn known(&self, print: u64, logs: &MarkedLogs<Event>, count: u8) -> Option<usize>
        requires few { count ≤ length logs.now.now }
        requires told { AreTold logs.now.lists self.now.kept.items }
        ensures { IfSome result (λ number. slice_get (outcomes_of self.now.kept.items) number ≡ Some (take count logs.now.now)) }
    {
        let number = *self.index.get(&print)?;
        let told = self.kept.as_slice().get(number)?;
        if are_of(told.nodes.as_slice(), logs, count) {
            Some(number)
        } else {
            None
        }
    }

    /// The outcome with a number.
    pub(crate) fn outcome(&self, number: usize) -> &Outcome
        requires { number < length (outcomes_of self.now.kept.items) }
        ensures { slice_get (outcomes_of self.now.kept.items) number ≡ Some result.now }
    {
        &self.kept[number].outcome
    }
}

/// Whether the first so many sessions were told the lists of these nodes.
pub(crate) fn are_of(nodes: &[NodeId], logs: &MarkedLogs<Event>, count: u8) -> bool
    requires few { count ≤ length logs.now.now }
    requires inside { All (HasNode logs.now.lists) nodes.now }
    ensures { result ≡ true → map (list_of logs.now.lists) nodes.now ≡ take count logs.now.now }
{
    if nodes.len() != count as usize {
        return false;
    }
    for session in 0..count {
        if !logs.is_same(nodes[session as usize], logs.log(session)) {
            return false;
        }
    }
    true
}

/// A number that is the same where the first so many sessions were told the same, and seldom else.
pub(crate) fn print_of(logs: &MarkedLogs<Event>, count: u8) -> u64
    requires { count ≤ length logs.now.now }
{
    let mut hasher = FoldHasher::default();
    for session in 0..count {
        hasher.write_usize(logs.log(session).number());
    }
    hasher.finish()
}

/// The nodes of what the first so many sessions were told.
pub(crate) fn nodes_of(
    alloc: Global,
    logs: &MarkedLogs<Event>,
    count: u8,
) -> Result<Vec<NodeId>, AllocError>
    requires { count ≤ length logs.now.now }
    ensures inside { IfOk result (λ nodes. All (HasNode logs.now.lists) nodes.items) }
    ensures lists { IfOk result (λ nodes. map (list_of logs.now.lists) nodes.items ≡ take count logs.now.now) }
{
    let mut nodes = Vec::with_capacity(alloc, count as usize)?;
    for session in 0..count {
        nodes.push(logs.log(session))?;
    }
    Ok(nodes)
}

/// Copies of what the first so many sessions were told.
fn transcripts_of(
    alloc: Global,
    logs: &MarkedLogs<Event>,
    count: u8,
) -> Result<Vec<Transcript>, AllocError>
    requires { count ≤ length logs.now.now }
    ensures { IfOk result (λ transcripts. transcripts.items ≡ take count logs.now.now) }
{
    let mut transcripts = Vec::with_capacity(alloc, count as usize)?;
    for session in 0..count {
        transcripts.push(transcript_of(alloc, logs, session)?)?;
    }
    Ok(transcripts)
}

/// A copy of what a session was told.
fn transcript_of(
    alloc: Global,
    logs: &MarkedLogs<Event>,
    session: u8,
) -> Result<Transcript, AllocError>
    requires { session < length logs.now.now }
    ensures { IfOk result (λ told. told ≡ told_to logs.now.now session) }
{
    let events = logs.events(alloc, logs.log(session))?;
    copied(alloc, events.as_slice())
}

/// A transcript of copies of these.
fn copied(alloc: Global, events: &[&Event]) -> Result<Transcript, AllocError>
    ensures { IfOk result (λ told. told ≡ map (λ e. e.now) events.now) }
{
    let mut told = Transcript::with_room(alloc, events.len())?;
    for event in events {
        told.push(event.fork()?)?;
    }
    Ok(told)
}
