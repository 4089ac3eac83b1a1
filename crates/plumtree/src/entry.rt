use dvvset::Vector;
use meta_frame::Message;
use meta_types::{MetaKey, NodeId};
use std::marker::Model;

/// What a call of the broadcast gives out.
#[derive(Debug, Drop, PartialEq, Eq)]
pub enum CastOut {
    /// The object that is held under this key is to be sent to this node, in a GOSSIP of this
    /// round.
    Gossip {
        to: NodeId,
        round: u16,
        key: MetaKey,
    },
    /// This message is to be sent to this node.
    Send(NodeId, Message),
}

/// A change of who is a peer.
#[derive(Clone, Copy, Debug)]
pub enum PeerChange {
    /// This node becomes a peer.
    Up(NodeId),
    /// This node is no longer a peer.
    Down(NodeId),
}

/// An announcement that waits for the next tick.
#[derive(Debug, Drop)]
pub struct Announcement {
    pub peer: NodeId,
    pub round: u16,
    pub key: MetaKey,
    pub vector: Vector,
}

/// Who announced an object, and the round that came with it.
#[derive(Clone, Copy, Debug)]
pub struct Announcer {
    pub peer: NodeId,
    pub round: u16,
}

/// What an IHAVE changed of what is missing, so that it can be taken back.
#[derive(Clone, Copy, Debug, PartialEq, Eq)]
pub enum Noted {
    Nothing,
    /// One more object is missing, which goes last.
    Object,
    /// The missing object at this place has one more announcer, who goes last.
    Announcer(usize),
}

/// An object that was announced and isn't here.
#[derive(Debug, Drop)]
pub(crate) struct MissingObject {
    pub(crate) key: MetaKey,
    pub(crate) vector: Vector,
    pub(crate) announcers: Vec<Announcer>,
    pub(crate) ticks: u8,
}

impl Model for MissingObject {
    ghost use Rattle.plumtree.specs.Missing.{MissingObject as Parts};

    ghost Value = { Parts };

    ghost view = { λ m. record {
      key = m.key;
      vector = m.vector;
      announcers = m.announcers.items;
      ticks = m.ticks;
    } };
}
