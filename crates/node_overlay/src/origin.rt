use meta_types::NodeId;

/// Where a change of what is held comes from, as far as the peers are concerned.
#[derive(Clone, Copy)]
pub enum Origin {
    /// The node wrote.
    Write,
    /// A GOSSIP of this round brought what wasn't known.
    Gossip { from: NodeId, round: u16 },
}
