//! What sessions were told, now and at marks.

ghost use Rattle.std.specs.Prelude.{◌≡◌, ◌<◌, ◌∷◌, ◌++◌, [], ◌↔◌, IfOk, IsTrue, OnErr, OnOk, length, map, replicate};
ghost use Rattle.event_tree.specs.Lists.{Grows, HasNode, Keeps, list_of};
ghost use Rattle.marked_logs.specs.Logs.{forgetting, telling, told_to};

use event_tree::{EventTree, NodeId, Same};
use marked_lists::MarkedList;
use std::alloc::{AllocError, Global};
use std::marker::Model;

/// Room for the events of a list of some ten steps, so that few lists of them grow while they are made. It costs time alone.
const ROOM: usize = 32;

/// What each of some sessions was told, event by event, with marks to go back to.
///
/// What a session was told is a list of a tree, known by its node, so that equal transcripts are told by their nodes. Contracts see the lists of the
/// tree, what each session was told, and what each was told at the marks that stand, the newest first. A call that takes memory fails for want of it
/// alone. Lists stay in the tree, also where nobody was told them any more.
#[derive(Drop)]
pub struct MarkedLogs<E> {
    tree: EventTree<E>,
    /// The list of each session.
    logs: MarkedList<NodeId>,
}

impl<E> Model for MarkedLogs<E> {
    ghost use Rattle.marked_logs.specs.Logs.{Logs, logs_code};
    ghost use Rattle.marked_logs.specs.Kept.{IsKept, logs_of};

    ghost Value = { Logs E };

    ghost coded = { logs_code E.code };

    ghost view = { λ m. logs_of m.tree m.logs };

    ghost invariant = { λ m. IsKept m.tree m.logs };
}

impl<E: Same> MarkedLogs<E> {
    /// So many sessions that were told nothing, and no mark.
    pub fn new(alloc: Global, count: u8) -> Result<MarkedLogs<E>, AllocError>
        ensures { IfOk result (λ logs. logs ≡ record { lists = [] ∷ []; now = replicate count []; marked = [] }) }
    {
        let tree = EventTree::new(alloc);
        let nothing = tree.root();
        let mut logs = MarkedList::new(alloc);
        for _session in 0..count {
            logs.push(nothing)?;
        }
        Ok(MarkedLogs { tree, logs })
    }

    /// What a session was told, by its node.
    pub fn log(&self, session: u8) -> NodeId
        requires { session < length self.now.now }
        ensures inside { HasNode self.now.lists result }
        ensures list { list_of self.now.lists result ≡ told_to self.now.now session }
    {
        self.logs.get(session as usize)
    }

    /// Whether two nodes stand for the same list, by one look.
    pub fn is_same(&self, one: NodeId, other: NodeId) -> bool
        requires one { HasNode self.now.lists one }
        requires other { HasNode self.now.lists other }
        ensures { IsTrue result ↔ list_of self.now.lists one ≡ list_of self.now.lists other }
    {
        self.tree.is_same(one, other)
    }

    /// The events of a list, in their order. They are not copied.
    pub fn events(&self, alloc: Global, id: NodeId) -> Result<Vec<&E>, AllocError>
        requires { HasNode self.now.lists id }
        ensures { IfOk result (λ events. map (λ e. e.now) events.items ≡ list_of self.now.lists id) }
    {
        events_of(alloc, &self.tree, id)
    }

    /// Tells a session of an event. Without memory what was told stays as it was.
    pub fn tell(&mut self, session: u8, event: E) -> Result<(), AllocError>
        requires { session < length self.old.now }
        ensures told { OnOk result (self.new.now ≡ telling self.old.now session event) }
        ensures kept { OnErr result (self.new.now ≡ self.old.now) }
        ensures marked { self.new.marked ≡ self.old.marked }

        // What nodes stand for stays, and no list comes but the session's.
        ensures lists { Keeps self.old.lists self.new.lists }
        ensures grows { Grows self.old.lists (told_to self.old.now session ++ event ∷ []) self.new.lists }
    {
        let before = self.logs.get(session as usize);
        let after = self.tree.child(before, event)?;
        self.logs.set(session as usize, after)
    }

    /// Forgets what a session was told. Without memory all stays as it was.
    pub fn forget(&mut self, session: u8) -> Result<(), AllocError>
        requires { session < length self.old.now }
        ensures forgot { OnOk result (self.new ≡ record self.old { now = forgetting self.old.now session }) }
        ensures kept { OnErr result (self.new ≡ self.old) }
    {
        self.logs.set(session as usize, self.tree.root())
    }

    /// Sets a mark. Without memory all stays as it was.
    pub fn mark(&mut self) -> Result<(), AllocError>
        ensures marked { OnOk result (self.new ≡ record self.old { marked = self.old.now ∷ self.old.marked }) }
        ensures kept { OnErr result (self.new ≡ self.old) }
    {
        self.logs.mark()
    }

    /// Goes back to the newest mark, which is gone then. It takes no memory.
    pub fn go_back(&mut self)
        requires { 0 < length self.old.marked }
        ensures marked { self.old.marked ≡ self.new.now ∷ self.new.marked }
        ensures lists { self.new.lists ≡ self.old.lists }
    {
        self.logs.go_back();
    }
}

/// The events of a list of a tree, in their order.
fn events_of<E: Same>(alloc: Global, tree: &EventTree<E>, id: NodeId) -> Result<Vec<&E>, AllocError>
    requires { HasNode tree.now id }
    ensures { IfOk result (λ events. map (λ e. e.now) events.items ≡ list_of tree.now id) }
{
    let mut events = Vec::with_capacity(alloc, ROOM)?;
    let mut at = id;
    while let Some((event, before)) = tree.split_last(at) {
        events.push(event)?;
        at = before;
    }
    events.reverse();
    Ok(events)
}
