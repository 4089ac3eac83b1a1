ghost use Rattle.std.specs.Prelude.{◌≡◌, ◌↔◌, ◌≤◌, [], IfErr, IfOk, IsTrue, length, replicate};
ghost use Rattle.hash_tree.specs.Tree.{rows_of};
ghost use Rattle.meta_store.specs.Table.{IsTable};
ghost use Rattle.node_core.specs.Node.{IsNodeState, opening};
ghost use Rattle.node_overlay.specs.Overlay.{ArePeers};

use crate::table::store_of;
use dvvset::Entries;
use hash_tree::{Held, Tree};
use hyparview::Views;
use meta_store::Store;
use meta_types::node::MAX_NODES;
use meta_types::{MetaKey, NodeId, both};
use node_events::{Outbox, Reply};
use node_overlay::Overlay;
use plumtree::Cast;
use std::alloc::{AllocError, AllocFailed, Global};
use std::marker::Model;
use subscriptions::{Watch, Watches};

/// What a step gives: the reply, and the frames to send.
#[derive(Debug, Drop)]
pub struct Stepped {
    pub reply: Reply,
    pub outbox: Outbox,
}

impl PartialEq for Stepped {
    ghost use Rattle.std.specs.Prelude.{◌≡◌, ◌↔◌, IsTrue};
    ghost use Rattle.node_core.specs.Equal.{stepped_eq, stepped_equivalence};
    ghost use Rattle.std.specs.Cmp.{partial_equiv_from_equiv};

    ghost eq = { stepped_eq };

    ghost laws = { partial_equiv_from_equiv stepped_equivalence };

    fn eq(&self, other: &Stepped) -> bool
        ensures value { result ≡ stepped_eq self.now other.now }
        ensures same { IsTrue result ↔ (self.now ≡ other.now) }
    {
        self.reply == other.reply && self.outbox == other.outbox
    }
}

impl Eq for Stepped {
    ghost use Rattle.node_core.specs.Equal.{stepped_equivalence};

    ghost laws = { stepped_equivalence };
}

/// One node in one of its lives: what it holds, whom it talks to, who watches it, and the counts of
/// its life.
#[derive(Drop)]
pub struct NodeState {
    pub(crate) alloc: Global,
    pub(crate) node: NodeId,
    pub(crate) incarnation: u32,
    pub(crate) held: Held,
    pub(crate) overlay: Overlay,
    pub(crate) watches: Watches,
    /// The greatest life that was heard of each node, by its number.
    pub(crate) heard: [u32; MAX_NODES as usize],
    pub(crate) steps: u64,
    pub(crate) frames: u64,
    pub(crate) ticks: u64,
}

impl Model for NodeState {
    ghost use Rattle.node_core.specs.Node.{IsInLife, NodeParts, parts};

    ghost Value = { NodeParts };

    ghost view = { λ n. parts n.node n.incarnation n.held n.overlay n.watches n.heard n.steps
        n.frames n.ticks };

    ghost invariant = { λ n. IsInLife (parts n.node n.incarnation n.held n.overlay n.watches
        n.heard n.steps n.frames n.ticks) };
}

impl NodeState {
    /// Makes a node that holds nothing and knows nobody, in the life of this number. Fails only
    /// when memory runs out.
    pub fn new(alloc: Global, node: NodeId, incarnation: u32) -> Result<Self, AllocError>
        requires { 1 ≤ incarnation }
        ensures { IfOk result (λ state. state ≡ opening node incarnation []) }
    {
        NodeState::from_store(alloc, node, incarnation, Store::new(alloc))
    }

    /// Makes a node that begins the life of this number with what this store holds, and knows
    /// nobody. Fails only when memory runs out.
    pub fn from_store(
        alloc: Global,
        node: NodeId,
        incarnation: u32,
        store: Store,
    ) -> Result<Self, AllocError>
        requires { 1 ≤ incarnation }
        ensures { IfOk result (λ state. state ≡ opening node incarnation store) }
    {
        let held = Held::new(alloc, store)?;
        Ok(NodeState::of_held(alloc, node, incarnation, held))
    }

    /// Makes a node that begins the life of this number with these keys and their objects, and
    /// knows nobody. Fails only when memory runs out.
    pub fn from_table(
        alloc: Global,
        node: NodeId,
        incarnation: u32,
        rows: Vec<(MetaKey, Entries)>,
    ) -> Result<Self, AllocError>
        requires life { 1 ≤ incarnation }
        requires table { IsTable rows.items }
        ensures { IfOk result (λ state. state ≡ opening node incarnation rows.items) }
    {
        let store = store_of(alloc, rows)?;
        NodeState::from_store(alloc, node, incarnation, store)
    }

    /// As `from_store`; but if memory runs out, the store comes back.
    pub fn begin(
        alloc: Global,
        node: NodeId,
        incarnation: u32,
        store: Store,
    ) -> Result<Self, AllocFailed<Store>>
        requires { 1 ≤ incarnation }
        ensures begun { IfOk result (λ state. state ≡ opening node incarnation store) }
        ensures back { IfErr result (λ failed. failed.value ≡ store) }
    {
        match Held::from_store(alloc, store) {
            Ok(held) => Ok(NodeState::of_held(alloc, node, incarnation, held)),
            Err(failed) => Err(failed),
        }
    }

    /// Makes a node that begins the life of this number, holds this, and knows nobody.
    fn of_held(alloc: Global, node: NodeId, incarnation: u32, held: Held) -> Self
        requires { 1 ≤ incarnation }
        ensures { result ≡ opening node incarnation held }
    {
        NodeState {
            alloc,
            node,
            incarnation,
            held,
            overlay: Overlay::new(alloc, node),
            watches: Watches::new(alloc),
            heard: [0; MAX_NODES as usize],
            steps: 0,
            frames: 0,
            ticks: 0,
        }
    }

    /// Returns whether this is the beginning of a life: no step was made, and the node knows
    /// nobody, whatever it holds.
    pub fn is_opening(&self) -> bool
        ensures { IsTrue result
            ↔ (self.now ≡ opening self.now.node self.now.incarnation self.now.table) }
    {
        let uncounted = self.steps == 0 && self.frames == 0 && self.ticks == 0;
        let unwatched = self.watches.as_slice().is_empty();
        uncounted && unwatched && self.overlay.is_new() && has_heard_none(&self.heard)
    }

    /// Returns how many steps it made in its life; at the greatest number, the count stays.
    pub fn steps(&self) -> u64
        ensures { result ≡ self.now.steps }
    {
        self.steps
    }

    /// Returns what it holds, without taking memory.
    pub fn into_store(self) -> Store
        ensures { result ≡ self.table }
    {
        self.held.into_store()
    }

    pub fn node(&self) -> NodeId
        ensures { result ≡ self.now.node }
    {
        self.node
    }

    /// Returns the life that it is in, from 1.
    pub fn incarnation(&self) -> u32
        ensures { result ≡ self.now.incarnation }
    {
        self.incarnation
    }

    pub fn store(&self) -> &Store
        ensures { result.now ≡ self.now.table }
    {
        self.held.store()
    }

    /// Returns the tree that stands for what it holds.
    pub fn tree(&self) -> &Tree
        ensures { result.now ≡ rows_of self.now.table }
    {
        self.held.tree()
    }

    pub fn views(&self) -> &Views
        ensures value { result.now ≡ self.now.overlay.views }
        ensures peers { ArePeers self.now.overlay }
    {
        self.overlay.views()
    }

    /// Returns the broadcast, whose peers are the members of the active view.
    pub fn cast(&self) -> &Cast
        ensures value { result.now ≡ self.now.overlay.cast }
        ensures peers { ArePeers self.now.overlay }
    {
        self.overlay.cast()
    }

    /// Returns the watches, in the order in which they were made; they are numbered from 1.
    pub fn watches(&self) -> &[Watch]
        ensures value { result.now ≡ self.now.watches }
        ensures lawful { IsNodeState self.now }
    {
        // (for its type)
        let _ = self.overlay.views();
        reveal_heard(&self.heard);
        self.watches.as_slice()
    }

    /// Fails only when memory runs out.
    pub fn copy(&self) -> Result<Self, AllocError>
        ensures { IfOk result (λ copy. copy ≡ self.now) }
    {
        let rest = both(self.overlay.copy(), self.watches.copy());
        let (held, (overlay, watches)) = both(self.held.copy(), rest)?;
        Ok(NodeState {
            alloc: self.alloc,
            node: self.node,
            incarnation: self.incarnation,
            held,
            overlay,
            watches,
            heard: self.heard,
            steps: self.steps,
            frames: self.frames,
            ticks: self.ticks,
        })
    }
}

/// Does nothing: it reads the lives heard for the length that their type keeps.
fn reveal_heard(heard: &[u32; MAX_NODES as usize])
    ensures { length heard.now ≡ 16 }
{
    let _ = heard.len();
}

/// Returns whether no life was heard of.
fn has_heard_none(heard: &[u32; MAX_NODES as usize]) -> bool
    ensures { IsTrue result ↔ (heard.now ≡ replicate 16 0) }
{
    *heard == [0; MAX_NODES as usize]
}
