ghost use Rattle.std.specs.Prelude.{◌≡◌, ◌∷◌, ◌++◌, [], ◌↔◌, IfOk, IfSome, IsTrue, MatchOption, OnErr, OnOk};
ghost use Rattle.event_tree.specs.Lists.{Grows, HasNode, Keeps, list_of};

use crate::children::{add_child, child_with, newest_child};
use crate::node::{Node, NodeId};
use crate::same::Same;
use std::alloc::{AllocError, Global};
use std::marker::Model;

/// Lists of events, each of which is there once and is known by its node. With a list each front of it is there.
///
/// Contracts see the lists by the numbers of their nodes. The first is the empty one, and all are different.
///
/// A list takes the memory of one event and some numbers. None is ever taken away.
#[derive(Drop)]
pub struct EventTree<E> {
    /// The newest child of the empty list's node.
    top: Option<NodeId>,
    /// All nodes but that of the empty list, which has number 0.
    nodes: Vec<Node<E>>,
}

impl<E> Model for EventTree<E> {
    ghost use Rattle.std.specs.Prelude.{List};

    ghost Value = { List (List E) };

    ghost use Rattle.event_tree.specs.Nodes.{IsSound, lists_of};

    ghost view = { λ t. lists_of t.nodes.items };

    ghost invariant = { λ t. IsSound t.top t.nodes.items };
}

impl<E: Same> EventTree<E> {
    /// A tree of the empty list alone. It takes no memory.
    pub fn new(alloc: Global) -> EventTree<E>
        ensures { result ≡ [] ∷ [] }
    {
        EventTree {
            top: None,
            nodes: Vec::new(alloc),
        }
    }

    /// The empty list.
    pub fn root(&self) -> NodeId
        ensures inside { HasNode self.now result }
        ensures list { list_of self.now result ≡ [] }
    {
        // For the proof.
        let _ = &self.nodes;
        NodeId { index: 0 }
    }

    /// Whether two nodes are one, which they are exactly where their lists are the same. It compares two numbers.
    pub fn is_same(&self, one: NodeId, other: NodeId) -> bool
        requires one { HasNode self.now one }
        requires other { HasNode self.now other }
        ensures { IsTrue result ↔ list_of self.now one ≡ list_of self.now other }
    {
        // For the proof.
        let _ = &self.nodes;
        one.index == other.index
    }

    /// The list with one event more, which is made where it is not there. It fails for want of memory alone, and then the tree stays as it was.
    ///
    /// It takes a step for each child of the list's node, from the newest one to the one that has the event.
    pub fn child(&mut self, parent: NodeId, event: E) -> Result<NodeId, AllocError>
        requires { HasNode self.old parent }
        ensures inside { IfOk result (λ id. HasNode self.new id) }
        ensures list { IfOk result (λ id. list_of self.new id ≡ list_of self.old parent ++ event ∷ []) }
        ensures grows { OnOk result (Grows self.old (list_of self.old parent ++ event ∷ []) self.new) }
        ensures refused { OnErr result (self.new ≡ self.old) }

        // What nodes stand for stays, whatever comes of it.
        ensures keeps { Keeps self.old self.new }
    {
        let newest = newest_child(self.top, self.nodes.as_slice(), parent);
        if let Some(id) = child_with(self.nodes.as_slice(), parent, newest, &event) {
            return Ok(id);
        }
        let id = add_child(&mut self.top, &mut self.nodes, parent, newest, event)?;
        Ok(id)
    }

    /// The last event of a list, with the list before it; of the empty list nothing.
    pub fn split_last(&self, id: NodeId) -> Option<(&E, NodeId)>
        requires { HasNode self.now id }
        ensures inside { IfSome result (λ r. HasNode self.now r.1) }
        ensures list { MatchOption result (list_of self.now id ≡ []) (λ r. list_of self.now id ≡ list_of self.now r.1 ++ r.0.now ∷ []) }
    {
        if id.index == 0 {
            // For the proof.
            let _ = &self.nodes;
            return None;
        }
        let node = &self.nodes[id.index - 1];
        Some((&node.event, node.parent))
    }
}
