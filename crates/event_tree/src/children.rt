//! The children of a node, from the newest to the oldest. These functions take a tree's parts, since its invariant does not hold between them.

ghost use Rattle.std.specs.Prelude.{◌≡◌, ◌≤◌, IfOk, MatchOption, OnErr, OnOk, length};
ghost use Rattle.event_tree.specs.Nodes.{AreNodes, HasNoChild, IsChild, linked, linked_top, new_id, newest, parents_of, with_child};

use crate::node::{Node, NodeId};
use crate::same::Same;
use std::alloc::AllocError;

/// The newest child of a node, where `top` is that of the empty list's node.
pub(crate) fn newest_child<E>(
    top: Option<NodeId>,
    nodes: &[Node<E>],
    parent: NodeId,
) -> Option<NodeId>
    requires top { top ≡ newest (parents_of nodes.now) 0 (length nodes.now) }
    requires nodes { AreNodes nodes.now }
    requires inside { parent.index ≤ length nodes.now }
    ensures { result ≡ newest (parents_of nodes.now) parent.index (length nodes.now) }
{
    if parent.index == 0 {
        top
    } else {
        nodes[parent.index - 1].newest_child
    }
}

/// The child of a node that has this event, looked for from the newest child on.
pub(crate) fn child_with<E: Same>(
    nodes: &[Node<E>],
    parent: NodeId,
    first: Option<NodeId>,
    event: &E,
) -> Option<NodeId>
    requires nodes { AreNodes nodes.now }
    requires first { first ≡ newest (parents_of nodes.now) parent.index (length nodes.now) }
    ensures { MatchOption result (HasNoChild nodes.now parent.index event.now) (IsChild nodes.now parent.index event.now) }
{
    let mut next = first;
    while let Some(id) = next {
        let node = &nodes[id.index - 1];
        if node.event.is_same(event) {
            return Some(id);
        }
        next = node.older_sibling;
    }
    None
}

/// Makes a node with this event the newest child of a node.
pub(crate) fn add_child<E: Same>(
    top: &mut Option<NodeId>,
    nodes: &mut Vec<Node<E>>,
    parent: NodeId,
    newest_child: Option<NodeId>,
    event: E,
) -> Result<NodeId, AllocError>
    requires inside { parent.index ≤ length nodes.old.items }
    requires newest { newest_child ≡ newest (parents_of nodes.old.items) parent.index (length nodes.old.items) }
    ensures id { IfOk result (λ id. id ≡ new_id nodes.old.items) }
    ensures top { OnOk result (top.new ≡ linked_top top.old parent.index (new_id nodes.old.items)) }
    ensures nodes { OnOk result (nodes.new.items ≡ with_child nodes.old.items parent event) }
    ensures refused { OnErr result ((top.new ≡ top.old) × (nodes.new.items ≡ nodes.old.items)) }
{
    let id = NodeId {
        index: nodes.len() + 1,
    };
    nodes.push(Node {
        event,
        parent,
        newest_child: None,
        older_sibling: newest_child,
    })?;
    link(top, nodes, parent, id);
    Ok(id)
}

/// Makes a node the newest child of its parent.
fn link<E>(top: &mut Option<NodeId>, nodes: &mut Vec<Node<E>>, parent: NodeId, id: NodeId)
    requires { parent.index ≤ length nodes.old.items }
    ensures top { top.new ≡ linked_top top.old parent.index id }
    ensures nodes { nodes.new.items ≡ linked nodes.old.items parent.index id }
{
    if parent.index == 0 {
        *top = Some(id);
        return;
    }
    nodes[parent.index - 1].newest_child = Some(id);
}
