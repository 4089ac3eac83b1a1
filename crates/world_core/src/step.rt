//! Events that are steps of a node.

ghost use Rattle.std.specs.Prelude.{◌≡◌, ◌<◌, ℕ, List, None, Some, Err, length, IfOk, IfErr, OnOk};
ghost use Rattle.std.specs.Option.{option_copied};
ghost use Rattle.meta_types.specs.Failing.{FailsWith};
ghost use Rattle.meta_store.specs.Context.{Reading};
ghost use Rattle.node_events.specs.declared.event.NodeEvent.TheVariants.{Take, Write};
ghost use Rattle.world_core.specs.Events.{Step, node_of_event};
ghost use Rattle.world_core.specs.Outcome.{Outcome};
ghost use Rattle.world_core.specs.Refusal.{doing_in};
ghost use Rattle.world_core.specs.Steps.{CanBeAsked, HasNamed, IsNotAsked, IsOfStep, JunkFails, MayRefuse};
ghost use Rattle.world_core.specs.Numbers.{numbered};
ghost use Rattle.world_core.specs.declared.fault.WorldFault.TheVariants.{Memory, NoSuchFrame, NoSuchRead};

use crate::answer::Answer;
use crate::event::Event;
use crate::fault::WorldFault;
use crate::world::World;
use meta_frame::decode;
use meta_store::Context;
use meta_types::{ByteString, MetaKey, Value};
use node_events::{NodeEvent, StepFault};
use std::alloc::Global;

impl World {
    /// Makes the step that an event is at its node.
    pub(crate) fn step(&mut self, event: Event) -> Result<Answer, WorldFault>
        requires { IsOfStep event }
        ensures { Outcome self.old event result self.new }
    {
        let (place, step) = match self.step_at(&event) {
            Ok(found) => found,
            Err(fault) => return refuse(event, fault),
        };
        if self.chronicle.reserve().is_err() {
            drop(step);
            return refuse(event, WorldFault::Memory);
        }
        match self.nodes[place].step(step) {
            Ok(given) => Ok(self.chronicle.accept(event, given)),
            Err(fault) => refuse(event, WorldFault::from(fault)),
        }
    }

    /// Returns the place of the event's node, and the step that it is there. Refused if what it
    /// names isn't there.
    fn step_at(&self, event: &Event) -> Result<(usize, NodeEvent), WorldFault>
        requires { IsOfStep event.now }
        ensures place { IfOk result
            (λ found. (found.0 ≡ node_of_event event.now) × (found.0 < length self.now.nodes)) }
        ensures step { IfOk result (λ found. doing_in self.now event.now ≡ Step found.1) }
        ensures named { OnOk result (HasNamed self.now event.now) }
        ensures refused { IfErr result (MayRefuse self.now event.now) }
    {
        let node = self.node_id(event.node())?;
        let step = self.step_of(event)?;
        Ok((usize::from(node.number()), step))
    }

    /// Returns the step, with copies of what it names. Refused if that isn't there.
    fn step_of(&self, event: &Event) -> Result<NodeEvent, WorldFault>
        requires of_step { IsOfStep event.now }
        requires node { node_of_event event.now < length self.now.nodes }
        ensures step { IfOk result (λ step. doing_in self.now event.now ≡ Step step) }
        ensures named { OnOk result (HasNamed self.now event.now) }
        ensures refused { IfErr result (MayRefuse self.now event.now) }
    {
        match event {
            Event::Step { event, .. } => self.asked(event),
            Event::Put {
                key,
                value,
                read,
                ..
            } => self.write_of(key, value, *read),
            Event::Deliver { frame, word, .. } => self.delivery_of(*frame, *word),
            Event::Restart { .. } => unreachable!(),
        }
    }

    /// Returns a copy of what a node is asked. Refused if the other node that it names isn't there,
    /// and if it brings a context, or bytes, which only the world hands out.
    fn asked(&self, event: &NodeEvent) -> Result<NodeEvent, WorldFault>
        ensures step { IfOk result (λ step. step ≡ event.now) }
        ensures named { OnOk result (CanBeAsked self.now event.now) }
        ensures refused { IfErr result (IsNotAsked self.now event.now) }
    {
        if let Some(other) = event.other() {
            self.node_id(u64::from(other.number()))?;
        }
        match event {
            NodeEvent::Write {
                context: Some(_),
                ..
            } => Err(WorldFault::NoSuchRead),
            NodeEvent::Take { frame, .. } => Err(junk_fault(self.alloc(), frame)),
            event => Ok(event.copy()?),
        }
    }

    /// Returns a write, with the context of the read of that number.
    fn write_of(&self, key: &MetaKey, value: &Value, read: u64) -> Result<NodeEvent, WorldFault>
        ensures step { IfOk result (λ step. (context : Reading)
            × ((step ≡ Write key.now value.now (Some context))
            × (numbered self.now.contexts read ≡ Some context))) }
        ensures refused { FailsWith Memory (λ fault. (fault ≡ NoSuchRead)
            × (numbered self.now.contexts read ≡ None)) result }
    {
        let context = match self.context(read) {
            None => return Err(WorldFault::NoSuchRead),
            Some(context) => context.copy()?,
        };
        let (key, value) = (key.copy()?, value.copy()?);
        Ok(NodeEvent::Write {
            key,
            value,
            context: Some(context),
        })
    }

    /// Returns the context of the read of that number, if one has it.
    fn context(&self, read: u64) -> Option<&Context>
        ensures { option_copied result ≡ numbered self.now.contexts read }
    {
        if read == 0 {
            return None;
        }
        self.chronicle.contexts.get((read - 1) as usize)
    }

    /// Returns the event by which a node takes the frame of that number.
    fn delivery_of(&self, frame: u64, word: u64) -> Result<NodeEvent, WorldFault>
        ensures step { IfOk result (λ step. (bytes : List ℕ)
            × ((step ≡ Take bytes word) × (numbered self.now.frames frame ≡ Some bytes))) }
        ensures refused { FailsWith Memory (λ fault. (fault ≡ NoSuchFrame)
            × (numbered self.now.frames frame ≡ None)) result }
    {
        match self.chronicle.frame(frame)? {
            None => Err(WorldFault::NoSuchFrame),
            Some(frame) => Ok(NodeEvent::Take { frame, word }),
        }
    }
}

/// Refuses an event, which is dropped by a call, so that no case of a proof takes it apart.
fn refuse(event: Event, fault: WorldFault) -> Result<Answer, WorldFault>
    ensures { result ≡ Err fault }
{
    drop(event);
    Err(fault)
}

/// Returns why junk is refused: it is a frame, or no frame for its first cause.
fn junk_fault(alloc: Global, bytes: &ByteString) -> WorldFault
    ensures { JunkFails bytes.now result }
{
    match decode(alloc, bytes.as_slice()) {
        Ok(frame) => {
            drop(frame);
            WorldFault::LooksLikeFrame
        }
        Err(fault) => WorldFault::from(StepFault::from(fault)),
    }
}
