//! What a line of the overlay asks.

use dvvset::Vector;
use hyparview::ViewEvent;
use meta_types::{MetaKey, NodeId};

/// What a line asks.
#[derive(Drop)]
pub enum Asked {
    /// A new node, in place of one of the same number. It is the node of the next lines.
    Begin(NodeId),
    /// This is the node of the next lines.
    GoOn(NodeId),
    /// Both views are printed.
    Views,
    /// The eager and the lazy peers are printed.
    Peers,
    /// An event of the views, with its random word.
    Event { event: ViewEvent, word: u64 },
    /// A call of the broadcast.
    Call(CastCall),
}

/// A call of the broadcast.
#[derive(Drop)]
pub enum CastCall {
    Up(NodeId),
    Down(NodeId),
    Write(Known),
    Change(Known),
    Gossip { told: Told, is_fresh: bool },
    Announce { told: Told, is_stale: bool },
    Graft { told: Told, is_held: bool },
    Prune { from: NodeId },
    Tick,
}

/// A key, and the vector of what is known under it.
#[derive(Drop)]
pub struct Known {
    pub key: MetaKey,
    pub vector: Vector,
}

/// From which node a message came, in which round, and what it names.
#[derive(Drop)]
pub struct Told {
    pub from: NodeId,
    pub round: u16,
    pub known: Known,
}
