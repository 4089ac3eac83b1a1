ghost use Rattle.std.specs.Prelude.{◌≡◌, IfOk};

use crate::kinds::copy_message;
use dvvset::{Entries, Vector};
use frame_fields::{Digest, Digests, KeyDigests, NeighborAnswer, Nodes, PrefixDigests, Priority};
use meta_types::{FullPrefix, MetaKey, NodeId};
use std::alloc::AllocError;

/// A message from one node to another: one variant for each kind.
#[derive(Debug, Drop, PartialEq, Eq)]
pub enum Message {
    /// 1: an object, passed on after a write or a merge. `round` counts how often it was passed on.
    Gossip {
        round: u16,
        key: MetaKey,
        object: Entries,
    },
    /// 2: an object of this vector is there to be asked for.
    IHave {
        round: u16,
        key: MetaKey,
        vector: Vector,
    },
    /// 3: asks for the object that was announced, and for objects on this link from now on.
    Graft {
        round: u16,
        key: MetaKey,
        vector: Vector,
    },
    /// 4: the sender wants only announcements on this link, not the objects.
    Prune,
    /// 5: the sender joins at this node.
    Join,
    /// 6: a node has joined; `ttl` bounds how far this is passed on.
    ForwardJoin {
        node: NodeId,
        ttl: u8,
    },
    /// 7: the sender takes the addressee out of its active view.
    Disconnect,
    /// 8: the sender wants the addressee in its active view.
    Neighbor {
        priority: Priority,
    },
    /// 9: whether the sender took the addressee into its active view.
    NeighborReply {
        answer: NeighborAnswer,
    },
    /// 10: some nodes that `origin` knows, on a walk that `ttl` bounds.
    Shuffle {
        origin: NodeId,
        ttl: u8,
        nodes: Nodes,
    },
    /// 11: some nodes that the sender knows, for those of a walk that ended with it.
    ShuffleReply {
        nodes: Nodes,
    },
    /// 12: the root of the sender's tree, which opens an exchange.
    XRoot {
        root: Digest,
    },
    /// 13: the prefixes under which the sender holds keys, with their roots.
    XPrefixes {
        prefixes: PrefixDigests,
    },
    /// 14: the sixteen inner nodes of a prefix.
    XInner {
        prefix: FullPrefix,
        digests: Digests,
    },
    /// 15: the sixteen leaves under an inner node, which is numbered from 0 to 15.
    XLeaves {
        prefix: FullPrefix,
        inner: u8,
        digests: Digests,
    },
    /// 16: the keys of a leaf, which is numbered from 0 to 255 in its prefix, with their objects'
    /// digests.
    XBucket {
        prefix: FullPrefix,
        leaf: u8,
        keys: KeyDigests,
    },
    /// 17: an object, in an exchange.
    XObject {
        key: MetaKey,
        object: Entries,
    },
    /// 18: asks for an object, in an exchange.
    XWant {
        key: MetaKey,
    },
    /// 19: the sender is in this life, which is numbered from 1.
    Hello {
        life: u32,
    },
    /// 20: the sender leaves.
    Bye,
}

/// A message on its way. The number counts the frames of the sender's life from 1; receivers don't
/// act on it.
#[derive(Debug, Drop, PartialEq, Eq)]
pub struct Frame {
    pub from: NodeId,
    pub to: NodeId,
    pub number: u64,
    pub message: Message,
}

impl Message {
    pub fn copy(&self) -> Result<Self, AllocError>
        ensures { IfOk result (λ copy. copy ≡ self.now) }
    {
        copy_message(self)
    }
}

impl Frame {
    pub fn copy(&self) -> Result<Self, AllocError>
        ensures { IfOk result (λ copy. copy ≡ self.now) }
    {
        Ok(Frame {
            from: self.from,
            to: self.to,
            number: self.number,
            message: self.message.copy()?,
        })
    }
}
