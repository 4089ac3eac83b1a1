use meta_types::{MetaKey, NodeId, Value};

/// One thing that happened to one node. Happenings of all nodes stand in one list; a place is a
/// number in that list, counted from 0.
#[derive(Debug, Drop)]
pub enum Happening {
    /// The node wrote a value, and had read what the `Looked` at the place `seen` saw, or nothing.
    Wrote {
        node: NodeId,
        key: MetaKey,
        value: Value,
        seen: Option<usize>,
    },
    /// The node was read under the key.
    Looked {
        node: NodeId,
        key: MetaKey,
    },
    /// The node sent what it knew under the key.
    Sent {
        node: NodeId,
        key: MetaKey,
    },
    /// The node took what the `Sent` at the place `sent` had sent.
    Got {
        node: NodeId,
        sent: usize,
    },
    /// The node kept what it knows under the key in its next image, without a write.
    Kept {
        node: NodeId,
        key: MetaKey,
    },
    /// The node began its next life from its image of this number; image 0 is the empty one.
    Restarted {
        node: NodeId,
        image: usize,
    },
}

impl Happening {
    ghost use Rattle.std.specs.Prelude.{◌≡◌, Some};
    ghost use Rattle.meta_types.specs.Node.{IsNode};
    ghost use Rattle.past_model.specs.Moment.{is_look_under, is_sending, is_write_under, makes_image, node_of, restarts_node};

    /// Returns the node that it happened to.
    pub(crate) fn node(&self) -> NodeId
        ensures value { result ≡ node_of self.now }
        ensures in_range { IsNode (node_of self.now) }
    {
        let node = match self {
            Happening::Wrote { node, .. } => *node,
            Happening::Looked { node, .. } => *node,
            Happening::Sent { node, .. } => *node,
            Happening::Got { node, .. } => *node,
            Happening::Kept { node, .. } => *node,
            Happening::Restarted { node, .. } => *node,
        };
        let _ = node.number();
        node
    }

    /// Returns whether it makes an image of the node, as a `Wrote` and a `Kept` do.
    pub(crate) fn makes_image(&self, of: NodeId) -> bool
        ensures { result ≡ makes_image of self.now }
    {
        match self {
            Happening::Wrote { node, .. } => *node == of,
            Happening::Looked { .. } => false,
            Happening::Sent { .. } => false,
            Happening::Got { .. } => false,
            Happening::Kept { node, .. } => *node == of,
            Happening::Restarted { .. } => false,
        }
    }

    pub(crate) fn restarts(&self, of: NodeId) -> bool
        ensures { result ≡ restarts_node of self.now }
    {
        match self {
            Happening::Wrote { .. } => false,
            Happening::Looked { .. } => false,
            Happening::Sent { .. } => false,
            Happening::Got { .. } => false,
            Happening::Kept { .. } => false,
            Happening::Restarted { node, .. } => *node == of,
        }
    }

    pub(crate) fn is_write_under(&self, key: &MetaKey) -> bool
        ensures { result ≡ is_write_under key.now (Some self.now) }
    {
        match self {
            Happening::Wrote { key: of, .. } => *of == *key,
            Happening::Looked { .. } => false,
            Happening::Sent { .. } => false,
            Happening::Got { .. } => false,
            Happening::Kept { .. } => false,
            Happening::Restarted { .. } => false,
        }
    }

    /// Returns whether it is a `Looked` under the key.
    pub(crate) fn is_look_under(&self, key: &MetaKey) -> bool
        ensures { result ≡ is_look_under key.now (Some self.now) }
    {
        match self {
            Happening::Wrote { .. } => false,
            Happening::Looked { key: of, .. } => *of == *key,
            Happening::Sent { .. } => false,
            Happening::Got { .. } => false,
            Happening::Kept { .. } => false,
            Happening::Restarted { .. } => false,
        }
    }

    /// Returns whether it is a `Sent`.
    pub(crate) fn is_sending(&self) -> bool
        ensures { result ≡ is_sending (Some self.now) }
    {
        match self {
            Happening::Wrote { .. } => false,
            Happening::Looked { .. } => false,
            Happening::Sent { .. } => true,
            Happening::Got { .. } => false,
            Happening::Kept { .. } => false,
            Happening::Restarted { .. } => false,
        }
    }
}
