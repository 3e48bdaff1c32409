ghost use Rattle.std.specs.Prelude.{◌≡◌};
ghost use Rattle.event_tree.specs.Lists.{number_of};

/// A list of a tree, by its node. It says nothing of another tree.
#[derive(Clone, Copy)]
pub struct NodeId {
    pub(crate) index: usize,
}

impl NodeId {
    /// The node's number, by which a table can find it: 0 for the empty list, and from there on in the order in which nodes were made.
    pub fn number(self) -> usize
        ensures { result ≡ number_of self }
    {
        self.index
    }
}

/// A list that has one event more than its parent's. In the list of nodes it stands one place before its number, since the empty list has none there.
#[derive(Drop)]
pub(crate) struct Node<E> {
    pub(crate) event: E,
    pub(crate) parent: NodeId,
    /// The newest node of which this is the parent.
    pub(crate) newest_child: Option<NodeId>,
    /// The newest node before this one with the same parent.
    pub(crate) older_sibling: Option<NodeId>,
}
