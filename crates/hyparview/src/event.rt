use meta_frame::Message;
use meta_types::NodeId;

/// What happens to the views of a node.
#[derive(Debug, Drop, PartialEq, Eq)]
pub enum ViewEvent {
    /// The node joins the cluster through a node that it was told of.
    JoinThrough { contact: NodeId },
    /// A message came. Those that are none of HyParView's change nothing.
    Taken { from: NodeId, message: Message },
    /// A peer can't be reached any more.
    PeerDown { peer: NodeId },
    /// It is time to exchange some members of the views.
    ShuffleDue,
    /// The node leaves the cluster.
    Leave,
}

/// What a step of the views gives out.
#[derive(Debug, Drop, PartialEq, Eq)]
pub enum ViewOut {
    /// This message is to be sent to this node.
    Send(NodeId, Message),
    /// This node became a neighbour.
    Up(NodeId),
    /// This node is no longer a neighbour.
    Down(NodeId),
}
