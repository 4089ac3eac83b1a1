//! A hosted node, and how it begins.

ghost use Rattle.std.specs.Prelude.{◌≡◌, ◌⊎◌, ◌≤◌, [], ◌∷◌, None, Some, IfOk, IfErr};
ghost use Rattle.node_core.specs.Node.{opening};
ghost use Rattle.node_file.specs.Refusal.{refusal_of_serve};
ghost use Rattle.node_file.specs.declared.fault.FileFault.TheVariants as OfFile;
ghost use Rattle.node_hosted.specs.Hosting.{FitsInFile, Serves, beginning, is_pending, next_gate};

use crate::unstored::Unstored;
use meta_store::Context;
use meta_types::{ByteString, NodeId};
use node_core::NodeState;
use node_events::Reply;
use node_file::{FileFault, Served, serve_bytes};
use std::alloc::{AllocError, Global};
use std::marker::Model;

/// A node in one of its lives, with what it still has to hand out.
///
/// The host keeps its file, if there is one, as `node_file` says: `record` is what he has to store,
/// and until he says that he did, neither the reply nor a frame is handed out.
#[derive(Drop)]
pub struct HostedNode {
    pub(crate) alloc: Global,
    pub(crate) state: NodeState,
    /// The offset of the closed gate of the host's file.
    pub(crate) gate: Option<usize>,
    pub(crate) to_store: Unstored,
    pub(crate) reply: Option<Reply>,
    pub(crate) outbox: Vec<ByteString>,
    /// How many frames of the outbox the host has sent.
    pub(crate) sent: usize,
    pub(crate) contexts: Vec<Option<Context>>,
    pub(crate) is_stopped: bool,
    /// Whether a batch is open: steps are made, and nothing is handed out.
    pub(crate) in_batch: bool,
}

impl Model for HostedNode {
    ghost use Rattle.node_hosted.specs.Hosting.{FitsInFile, HostedParts};

    ghost Value = { HostedParts };

    ghost view = { λ n. record {
      state = n.state;
      gate = n.gate;
      to_store = n.to_store;
      reply = n.reply;
      outbox = n.outbox.items;
      sent = n.sent;
      contexts = n.contexts.items;
      stopped = n.is_stopped;
      in_batch = n.in_batch;
    } };

    ghost invariant = { λ n. FitsInFile n.gate n.to_store };
}

impl HostedNode {
    /// Makes a node without a file that holds nothing and knows nobody, in the life of this number.
    /// Fails only when memory runs out.
    pub fn new(alloc: Global, node: NodeId, life: u32) -> Result<HostedNode, AllocError>
        requires { 1 ≤ life }
        ensures { IfOk result (λ n. n ≡ beginning (opening node life []) None []) }
    {
        let state = NodeState::new(alloc, node, life)?;
        Ok(HostedNode::of_state(alloc, state, None, Unstored::new(alloc)))
    }

    /// Serves a node from the bytes of its file, in its next life. The host stores the record of
    /// the life first: it is the first `record`.
    ///
    /// The bytes must be those that the disk holds. After a failed sync the operating system may
    /// hold others: the host writes what he read to a new file, syncs it, and renames it over the
    /// old one.
    ///
    /// Refused as `node_file::serve_bytes` is: 31 `Damaged`, 32 `OtherNode`, 25 `StoreFull`, 36
    /// `OldVersion`, 35 `IncarnationSpent`, 33 `FileFull`, or 99 `Memory`. It takes memory for the
    /// table.
    pub fn serve(
        alloc: Global,
        bytes: &[u8],
        asked: Option<NodeId>,
    ) -> Result<HostedNode, FileFault>
        ensures serves { IfOk result (Serves asked bytes.now) }
        ensures refused { IfErr result (λ fault. (fault ≡ OfFile.Memory)
            ⊎ (refusal_of_serve asked bytes.now ≡ Some fault)) }
    {
        let Served {
            node,
            table,
            life,
            gate,
            record,
        } = serve_bytes(alloc, bytes, asked)?;
        let mut to_store = Unstored::new(alloc);
        to_store.join(record)?;
        let state = NodeState::from_store(alloc, node, life, table)?;
        Ok(HostedNode::of_state(alloc, state, Some(gate), to_store))
    }

    /// Makes a node with nothing to hand out but these records.
    fn of_state(
        alloc: Global,
        state: NodeState,
        gate: Option<usize>,
        to_store: Unstored,
    ) -> HostedNode
        requires fits { FitsInFile gate to_store }
        ensures { result ≡ beginning state gate to_store }
    {
        HostedNode {
            alloc,
            state,
            gate,
            to_store,
            reply: None,
            outbox: Vec::new(alloc),
            sent: 0,
            contexts: Vec::new(alloc),
            is_stopped: false,
            in_batch: false,
        }
    }

    /// Returns the node as it is now. What it holds may not be stored yet.
    pub fn state(&self) -> &NodeState
        ensures { result.now ≡ self.now.state }
    {
        &self.state
    }

    /// Returns whether no batch is open and something is to be stored or fetched.
    pub(crate) fn is_pending(&self) -> bool
        ensures { result ≡ is_pending self.now }
    {
        !self.in_batch && (self.to_store.bytes().is_some() || self.sent < self.outbox.len())
    }

    /// Returns where the closed gate of the host's file stands once all is stored.
    pub(crate) fn next_gate(&self) -> Option<usize>
        ensures { result ≡ next_gate self.now }
    {
        match self.gate {
            Some(gate) => Some(gate + self.to_store.size()),
            None => None,
        }
    }

    /// Returns whether the host failed to store a record.
    pub fn is_stopped(&self) -> bool
        ensures { result ≡ self.now.stopped }
    {
        self.is_stopped
    }
}
