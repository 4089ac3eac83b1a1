//! The history that accepted events tell.

ghost use Rattle.std.specs.Prelude.{◌≡◌, ◌+◌, ◌<◌, ◌≤◌, ℕ, List, Some, length, IfOk, OnOk};
ghost use Rattle.meta_types.specs.Failing.{FailsWith};
ghost use Rattle.meta_frame.specs.Frame.{Spells};
ghost use Rattle.meta_frame.specs.declared.fault.FrameFault.TheVariants as OfFrame;
ghost use Rattle.meta_frame.specs.declared.message.Frame.{Frame as F};
ghost use Rattle.meta_store.specs.Context.{Reading};
ghost use Rattle.node_core.specs.Leaving.{carried_object};
ghost use Rattle.past_model.specs.History.{IsHistory};
ghost use Rattle.past_model.specs.declared.happening.Happening.TheVariants.{Kept, Wrote};
ghost use Rattle.past_model.specs.Past.{known};
ghost use Rattle.past_model.specs.Shown.{ArePlaces};
ghost use Rattle.world_core.specs.Events.{node_of_event};
ghost use Rattle.world_core.specs.Knowledge.{CountsSeen, OfAllTold};
ghost use Rattle.world_core.specs.Refusal.{IsFrameOf};
ghost use Rattle.world_core.specs.Numbers.{frames_at, numbered};
ghost use Rattle.world_core.specs.Tells.{Pairwise, Tells, Told, nothing_told, sending_of};
ghost use Rattle.world_core.specs.Tells.{tell, tell_event, tell_frames, tell_got, tell_look, tell_sending, tell_step};
ghost use Rattle.world_core.specs.declared.fault.WorldFault.TheVariants.{Memory, NoSuchNode};

use crate::answer::FrameNumbers;
use crate::event::Event;
use crate::fault::WorldFault;
use crate::world::World;
use meta_frame::{Frame, FrameFault, Message, decode};
use meta_types::{MetaKey, NodeId, Value};
use node_events::NodeEvent;
use past_model::{Happening, Plain};
use std::alloc::{AllocError, Global};
use std::marker::Model;

/// What was told so far: the history, the place of the `Looked` of each read, and that of the
/// `Sent` of each frame that carries an object.
#[derive(Drop)]
struct Telling {
    history: Vec<Happening>,
    looks: Vec<usize>,
    sendings: Vec<Option<usize>>,
}

impl Model for Telling {
    ghost use Rattle.world_core.specs.Tells.{Told};

    ghost Value = { Told };

    ghost view = { λ t. record {
      history = t.history.items;
      looks = t.looks.items;
      sendings = t.sendings.items;
    } };
}

impl Telling {
    fn new(alloc: Global) -> Self
        ensures { result ≡ nothing_told }
    {
        Telling {
            history: Vec::new(alloc),
            looks: Vec::new(alloc),
            sendings: Vec::new(alloc),
        }
    }

    fn into_history(self) -> Vec<Happening>
        ensures { result.items ≡ self.history }
    {
        self.history
    }

    fn tell(&mut self, happening: Happening) -> Result<(), AllocError>
        ensures { OnOk result (self.new ≡ tell happening self.old) }
    {
        Ok(self.history.push(happening)?)
    }

    /// Adds a read, which has the next read number.
    fn look(&mut self, node: NodeId, key: &MetaKey) -> Result<(), AllocError>
        ensures { OnOk result (self.new ≡ tell_look node key.now self.old) }
    {
        let key = key.copy()?;
        self.looks.push(self.history.len())?;
        self.tell(Happening::Looked { node, key })
    }

    /// Adds what an event tells, before what it sends.
    fn event(&mut self, event: &Event) -> Result<(), AllocError>
        requires { node_of_event event.now < 16 }
        ensures { OnOk result (self.new ≡ tell_event event.now self.old) }
    {
        let node = id_of(event);
        match event {
            Event::Step { event, .. } => self.step(node, event),
            Event::Put {
                key,
                value,
                read,
                ..
            } => {
                let seen = numbered(self.looks.as_slice(), *read);
                self.write(node, key, value, seen)
            }
            Event::Deliver { frame, .. } => self.got(node, *frame),
            Event::Restart { image, .. } => self.tell(Happening::Restarted {
                node,
                image: *image as usize,
            }),
        }
    }

    /// Adds what a node tells by what it is asked.
    fn step(&mut self, node: NodeId, event: &NodeEvent) -> Result<(), AllocError>
        ensures { OnOk result (self.new ≡ tell_step node event.now self.old) }
    {
        match event {
            NodeEvent::Read { key } => self.look(node, key),
            NodeEvent::Write { key, value, .. } => self.write(node, key, value, None),
            NodeEvent::PutOver { key, value } => self.put_over(node, key, value),
            NodeEvent::Keep { key } => self.keep(node, key),
            _ => Ok(()),
        }
    }

    fn write(
        &mut self,
        node: NodeId,
        key: &MetaKey,
        value: &Value,
        seen: Option<usize>,
    ) -> Result<(), AllocError>
        ensures { OnOk result (self.new ≡ tell (Wrote node key.now value.now seen) self.old) }
    {
        let (key, value) = (key.copy()?, value.copy()?);
        self.tell(Happening::Wrote {
            node,
            key,
            value,
            seen,
        })
    }

    /// Adds a read, and a write that has read it.
    fn put_over(&mut self, node: NodeId, key: &MetaKey, value: &Value) -> Result<(), AllocError>
        ensures { OnOk result (self.new
            ≡ tell (Wrote node key.now value.now (Some (length self.old.history)))
            (tell_look node key.now self.old)) }
    {
        let place = self.history.len();
        self.look(node, key)?;
        self.write(node, key, value, Some(place))
    }

    fn keep(&mut self, node: NodeId, key: &MetaKey) -> Result<(), AllocError>
        ensures { OnOk result (self.new ≡ tell (Kept node key.now) self.old) }
    {
        let key = key.copy()?;
        self.tell(Happening::Kept { node, key })
    }

    /// Adds a delivery of the frame of that number, which tells something if it carries an object.
    fn got(&mut self, node: NodeId, frame: u64) -> Result<(), AllocError>
        ensures { OnOk result
            (self.new ≡ tell_got node (sending_of self.old frame) self.old) }
    {
        match numbered(self.sendings.as_slice(), frame) {
            Some(Some(sent)) => self.tell(Happening::Got { node, sent }),
            _ => Ok(()),
        }
    }

    /// Adds a frame of the node: a `Sent`, if it carries an object.
    fn frame(&mut self, node: NodeId, frame: &Frame) -> Result<(), AllocError>
        ensures { OnOk result (self.new
            ≡ tell_sending node (carried_object frame.now.message) self.old) }
    {
        match &frame.message {
            Message::Gossip { key, .. } | Message::XObject { key, .. } => {
                let key = key.copy()?;
                self.sendings.push(Some(self.history.len()))?;
                self.tell(Happening::Sent { node, key })
            }
            _ => Ok(self.sendings.push(None)?),
        }
    }
}

/// Returns the id of the event's node.
fn id_of(event: &Event) -> NodeId
    requires { node_of_event event.now < 16 }
    ensures { result ≡ node_of_event event.now }
{
    NodeId::new(event.node() as u16).unwrap()
}

/// Returns the item of this number, from 1, if there is one.
fn numbered<T: Copy>(list: &[T], number: u64) -> Option<T>
    ensures { result ≡ numbered list.now number }
{
    match usize::try_from(number) {
        Ok(number) if number > 0 => list.get(number - 1).copied(),
        _ => None,
    }
}

/// Returns that memory ran out: there is no other cause why a frame that was sent can't be read.
fn out_of_memory(fault: FrameFault) -> AllocError
    requires { fault ≡ OfFrame.Memory }
{
    drop(fault);
    AllocError
}

impl World {
    /// Returns what has happened, as the accepted events tell it: a history. The context of each
    /// read is of what its node knew at that time. Fails only when memory runs out. It takes time
    /// that grows with the number of events and frames.
    pub fn history(&self, alloc: Global) -> Result<Vec<Happening>, AllocError>
        ensures value { IfOk result (λ happenings. OfAllTold self.now
            (λ t. happenings.items ≡ t.history)) }
        ensures replays { IfOk result (λ happenings. IsHistory happenings.items) }
        ensures tells { (t : Told) × Tells self.now.accepted self.now.frames t }
        ensures is_history { OfAllTold self.now (λ t. IsHistory t.history) }
        ensures reads { (read : ℕ) (context : Reading)
            → numbered self.now.contexts read ≡ Some context
            → OfAllTold self.now (λ t. CountsSeen t read context) }
    {
        // (for its type)
        let _ = self.nodes.len();
        self.told(alloc)
    }

    /// Returns what the accepted events tell, one after the other.
    fn told(&self, alloc: Global) -> Result<Vec<Happening>, AllocError>
        ensures { IfOk result (λ happenings. OfAllTold self.now
            (λ t. happenings.items ≡ t.history)) }
    {
        let mut told = Telling::new(alloc);
        for accepted in self.chronicle.accepted.as_slice() {
            let node = id_of(&accepted.event);
            told.event(&accepted.event)?;
            self.tell_frames(&mut told, alloc, node, accepted.answer.sent)?;
        }
        Ok(told.into_history())
    }

    /// Tells of the node's frames of these numbers.
    fn tell_frames(
        &self,
        told: &mut Telling,
        alloc: Global,
        node: NodeId,
        numbers: FrameNumbers,
    ) -> Result<(), AllocError>
        requires first { 1 ≤ numbers.first }
        requires there { numbers.first + numbers.count ≤ length self.now.frames + 1 }
        ensures { OnOk result ((frames : List F) → Pairwise Spells frames self.now.frames
            → told.new ≡ tell_frames node (frames_at numbers frames) told.old) }
    {
        // (for its type)
        let _ = self.chronicle.frame_count();
        for offset in 0..numbers.count {
            self.tell_frame(told, alloc, node, numbers.first + offset)?;
        }
        Ok(())
    }

    /// Tells of the node's frame of that number, which was sent.
    fn tell_frame(
        &self,
        told: &mut Telling,
        alloc: Global,
        node: NodeId,
        number: u64,
    ) -> Result<(), AllocError>
        requires first { 1 ≤ number }
        requires there { number ≤ length self.now.frames }
        ensures { OnOk result ((frame : F) × (IsFrameOf self.now number frame
            × (told.new ≡ tell_sending node (carried_object frame.message) told.old))) }
    {
        let frame = self.sent_frame(alloc, number)?;
        let outcome = told.frame(node, &frame);
        // Dropped by a call, so that no case of the proof takes it apart.
        drop(frame);
        outcome
    }

    /// Returns the frame of that number, which was sent.
    fn sent_frame(&self, alloc: Global, number: u64) -> Result<Frame, AllocError>
        requires first { 1 ≤ number }
        requires there { number ≤ length self.now.frames }
        ensures { IfOk result (IsFrameOf self.now number) }
    {
        let bytes = self.chronicle.frame(number)?.unwrap();
        match decode(alloc, bytes.as_slice()) {
            Ok(frame) => Ok(frame),
            Err(fault) => Err(out_of_memory(fault)),
        }
    }

    /// Returns the places, in `history`, of the writes that the node knows under the key, rising.
    /// Refused with 44 `NoSuchNode` and 99 `Memory`. It is found from the history alone, by sets of
    /// places, and takes memory and time that grow with the square of the history's length.
    pub fn known(&self, alloc: Global, node: u64, key: &MetaKey) -> Result<Vec<usize>, WorldFault>
        ensures places { IfOk result (λ places. OfAllTold self.now
            (λ t. ArePlaces (known t.history node key.now) places.items)) }
        ensures node { OnOk result (node < length self.now.nodes) }
        ensures fault { FailsWith Memory (λ fault. (fault ≡ NoSuchNode)
            × (length self.now.nodes ≤ node)) result }
    {
        let id = self.node_id(node)?;
        let history = self.history(alloc)?;
        let plain = Plain::replay(alloc, history.as_slice())?;
        Ok(plain.known(alloc, id, key)?)
    }
}
