//! All nodes of a cluster, in one value.

ghost use Rattle.std.specs.Prelude.{◌≡◌, ◌≤◌, ◌<◌, ◌⊎◌, ◌↔◌, ℕ, All, List, Some, length, map, IfOk, IfErr, IfSome, IsNone};
ghost use Rattle.std.specs.List.{range_with_len};
ghost use Rattle.meta_types.specs.Failing.{FailsWith};
ghost use Rattle.meta_types.specs.Name.{Key};
ghost use Rattle.dvvset.specs.Object.{Entry};
ghost use Rattle.meta_frame.specs.Frame.{Spells};
ghost use Rattle.meta_frame.specs.declared.message.Frame.{Frame as F};
ghost use Rattle.meta_store.specs.Table.{object_at};
ghost use Rattle.past_model.specs.Past.{image, incarnation_of, known, past, writes};
ghost use Rattle.past_model.specs.Shown.{IsObjectOf};
ghost use Rattle.node_core.specs.Leaving.{carried_object};
ghost use Rattle.restart_images.specs.Images.{ChangeEarlier, holdings};
ghost use Rattle.restart_images.specs.Node.{new_node};
ghost use Rattle.world_core.specs.Knowledge.{CarriesLoad, HandsOut, OfAllTold, ShowsKnown};
ghost use Rattle.world_core.specs.Refusal.{IsFrameOf, node_at};
ghost use Rattle.world_core.specs.Numbers.{frames_at, numbered};
ghost use Rattle.world_core.specs.World.{HasLived, new_world};
ghost use Rattle.world_core.specs.declared.fault.WorldFault.TheVariants.{Memory, NoSuchNode};

use crate::answer::{Accepted, FrameNumbers};
use crate::chronicle::Chronicle;
use crate::fault::WorldFault;
use meta_types::node::MAX_NODES;
use meta_types::{ByteString, NodeId};
use node_core::NodeState;
use restart_images::{ImagedNode, Images};
use std::alloc::{AllocError, Global};
use std::marker::Model;

/// Nodes, with all that was accepted and sent, which tells a history.
#[derive(Drop)]
pub struct World {
    pub(crate) nodes: Vec<ImagedNode>,
    pub(crate) chronicle: Chronicle,
}

impl Model for World {
    ghost use Rattle.world_core.specs.World.{World as Parts};
    ghost use Rattle.world_core.specs.Invariant.{IsWholeWorld};
    ghost use Rattle.world_core.specs.Chronicle.{world_in};

    ghost Value = { Parts };

    ghost view = { λ w. world_in w.nodes.items w.chronicle };

    ghost invariant = { λ w. IsWholeWorld (world_in w.nodes.items w.chronicle) };
}

impl World {
    /// Makes a world of `nodes` new nodes. Refused with 44 `NoSuchNode` for none or more than 16,
    /// and with 99 `Memory`.
    pub fn new(alloc: Global, nodes: u64) -> Result<Self, WorldFault>
        ensures value { IfOk result (λ world. world ≡ new_world nodes) }
        ensures range { IfOk result (λ world. (1 ≤ nodes) × (nodes ≤ 16)) }
        ensures fault { FailsWith Memory (λ fault. (fault ≡ NoSuchNode)
            × ((nodes < 1) ⊎ (16 < nodes))) result }
    {
        if nodes == 0 || nodes > u64::from(MAX_NODES) {
            return Err(WorldFault::NoSuchNode);
        }
        Ok(World {
            nodes: new_nodes(alloc, nodes as u16)?,
            chronicle: Chronicle::new(alloc),
        })
    }

    pub(crate) fn alloc(&self) -> Global {
        *self.chronicle.accepted.allocator()
    }

    /// Returns the accepted events with their answers, in their order. A context that was handed
    /// out is the one of the answer's read number.
    pub fn accepted(&self) -> &[Accepted]
        ensures value { result.now ≡ self.now.accepted }
        ensures contexts { All (λ a. HandsOut self.now a.answer) self.now.accepted }
    {
        // (for its type)
        let _ = self.nodes.len();
        self.chronicle.accepted.as_slice()
    }

    /// Returns a copy of the bytes of the frame of that number, if one has it. The first frame that
    /// was sent has number 1. The bytes spell a frame; an object that it carries is of the writes
    /// that its sender knew when it was sent. Fails only when memory runs out.
    pub fn frame(&self, number: u64) -> Result<Option<ByteString>, AllocError>
        ensures value { IfOk result (λ bytes. bytes ≡ numbered self.now.frames number) }
        ensures spelled { IfOk result
            (λ found. IfSome found (λ bytes. (frame : F) × Spells frame bytes)) }
        ensures carries { (frame : F) (key : Key) (object : List Entry)
            → IsFrameOf self.now number frame → carried_object frame.message ≡ Some (key, object)
            → OfAllTold self.now (λ t. CarriesLoad t number frame.from key object) }
    {
        // (for its type)
        let _ = self.nodes.len();
        self.chronicle.frame(number)
    }

    /// Returns copies of the bytes of the frames of these numbers, such as an answer has. Numbers
    /// that no frame has give nothing. Fails only when memory runs out.
    pub fn frames_at(&self, numbers: FrameNumbers) -> Result<Vec<ByteString>, AllocError>
        ensures { IfOk result (λ frames. frames.items ≡ frames_at numbers self.now.frames) }
    {
        self.chronicle.frames_at(numbers)
    }

    /// Returns how many frames were sent.
    pub fn frame_count(&self) -> u64
        ensures { result ≡ length self.now.frames }
    {
        self.chronicle.frame_count()
    }

    /// Returns the images of the node, except image 0, which is empty; `None` for a node that the
    /// world doesn't have, and only then. What an image has under a key is read by
    /// `restart_images::image::object_in`. It is the object of the writes that this image has by
    /// the history: those that its node knew of the key when it was last written or kept on the way
    /// to the image.
    pub fn images(&self, node: u64) -> Option<&Images>
        ensures node { IsNone result ↔ (length self.now.nodes ≤ node) }
        ensures lends { IfSome result (λ images. images.now ≡ (node_at self.now node).images) }
        ensures number { IfSome result (λ images. OfAllTold self.now
            (λ t. length images.now ≡ (past t.history).last node)) }
        ensures objects { IfSome result (λ images. OfAllTold self.now (λ t. (number : ℕ)
            → number ≤ length images.now → (key : Key) → IsObjectOf (writes t.history) key
            (image t.history node number key) (holdings images.now number key))) }
        ensures earlier { IfSome result (λ images. ChangeEarlier images.now) }
    {
        match usize::try_from(node) {
            Ok(at) if at < self.nodes.len() => Some(self.nodes[at].images()),
            _ => None,
        }
    }

    /// Returns how many nodes there are: 1 to 16.
    pub fn node_count(&self) -> u64
        ensures value { result ≡ length self.now.nodes }
        ensures range { (1 ≤ result) × (result ≤ 16) }
    {
        self.nodes.len() as u64
    }

    /// Returns the node; `None` for one that the world doesn't have, and only then. Under each key
    /// it holds the object of the writes that it knows, whose values are those of the writes that
    /// no other of these had read. The accepted events took it there from a new node, life after
    /// life. The number of its life is that of the history.
    pub fn state(&self, node: u64) -> Option<&NodeState>
        ensures node { IsNone result ↔ (length self.now.nodes ≤ node) }
        ensures lends { IfSome result (λ state. state.now ≡ (node_at self.now node).state) }
        ensures shows { IfSome result (λ state. OfAllTold self.now (λ t. (key : Key)
            → ShowsKnown t.history node key (object_at state.now.table key))) }
        ensures objects { IfSome result (λ state. OfAllTold self.now (λ t. (key : Key)
            → IsObjectOf (writes t.history) key (known t.history node key)
            (object_at state.now.table key))) }
        ensures lived { IfSome result
            (λ state. HasLived self.now node (node_at self.now node)) }
        ensures life { IfSome result (λ state. OfAllTold self.now
            (λ t. state.now.incarnation ≡ incarnation_of (past t.history) node)) }
    {
        match usize::try_from(node) {
            Ok(at) if at < self.nodes.len() => Some(self.nodes[at].state()),
            _ => None,
        }
    }

    /// Returns the node of that number. Refused with 44 `NoSuchNode`.
    pub(crate) fn node_id(&self, node: u64) -> Result<NodeId, WorldFault>
        ensures value { IfOk result (λ id. (id ≡ node) × (node < length self.now.nodes)) }
        ensures fault { IfErr result (λ fault. (fault ≡ NoSuchNode)
            × (length self.now.nodes ≤ node)) }
    {
        if self.nodes.len() as u64 <= node {
            return Err(WorldFault::NoSuchNode);
        }
        let number = u16::try_from(node).unwrap();
        Ok(NodeId::new(number).unwrap())
    }
}

/// Makes `count` new nodes, numbered from 0.
fn new_nodes(alloc: Global, count: u16) -> Result<Vec<ImagedNode>, AllocError>
    requires { count ≤ 16 }
    ensures { IfOk result
        (λ nodes. nodes.items ≡ map new_node (range_with_len 0 count)) }
{
    let mut nodes = Vec::new(alloc);
    for number in 0..count {
        let number = NodeId::new(number).unwrap();
        nodes.push(ImagedNode::new(alloc, number)?)?;
    }
    Ok(nodes)
}
