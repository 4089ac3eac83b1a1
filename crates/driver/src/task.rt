use meta_types::NodeId;

/// What a driver does of itself.
#[derive(Clone, Copy, Debug, PartialEq, Eq)]
pub enum Task {
    /// Time passes.
    Tick,
    /// A hello to a member, before the first join through it.
    Hello(NodeId),
    /// A join through a member.
    Join(NodeId),
    /// An exchange with a member.
    BeginExchange(NodeId),
    /// A member doesn't answer.
    PeerDown(NodeId),
}
