use meta_types::NodeId;

/// What is called around each turn of a node, in the thread of its worker. A test waits in it, to
/// see that workers run side by side; a wait must have an end of its own.
pub trait TurnHook {
    /// Is called before the turn of the node is made.
    fn before(&self, node: NodeId, turn: u64);

    /// Is called after the turn was made. A turn that stopped its node counts too.
    fn after(&self, node: NodeId, turn: u64);
}

/// A hook that does nothing.
pub struct NoHook;

impl TurnHook for NoHook {
    fn before(&self, _node: NodeId, _turn: u64) {}

    fn after(&self, _node: NodeId, _turn: u64) {}
}
