//! One step of a node.

ghost use Rattle.std.specs.Prelude.{◌≡◌, IfOk, IfErr};
ghost use Rattle.node_core.specs.Attempt.{IsAttempt};
ghost use Rattle.node_core.specs.Step.{IsNodeStep, Rejects};

use crate::attempt::Attempt;
use crate::state::{NodeState, Stepped};
use node_events::{NodeEvent, StepFault};

impl NodeState {
    /// Makes the step of an event. Returns the reply, and the frames to send. A refused event
    /// changes nothing, and doesn't count as a step.
    ///
    /// A `Join`, `PeerDown`, `Exchange` or `Hello` of the node itself is refused with 3 `BadNode`.
    /// A `Take` is refused as `meta_frame::decode` is, then with 40 `NotAddressed`, then for an
    /// object as `Store::merge` is. A write is refused as `Store::put` is, a watch with 28
    /// `BadWatch`, and its changes with 29 `NoSuchWatch`. 99 `Memory` may come at any of them.
    pub fn step(&mut self, event: NodeEvent) -> Result<Stepped, StepFault>
        ensures step { IfOk result (IsNodeStep self.old event self.new) }
        ensures refused { IfErr result (λ fault. Rejects self.old event fault self.new) }
    {
        // The event is dropped at the only way out, so that the proof has one case for it.
        let stepped = self.step_on(&event);
        drop(event);
        stepped
    }

    /// Makes the step of an event that stays the caller's. Refused as `step` is.
    pub fn step_on(&mut self, event: &NodeEvent) -> Result<Stepped, StepFault>
        ensures step { IfOk result (IsNodeStep self.old event.now self.new) }
        ensures refused { IfErr result (λ fault. Rejects self.old event.now fault self.new) }
    {
        let attempt = self.attempt(event)?;
        Ok(self.commit(attempt))
    }

    /// Attempts the step of an event: all is done that may fail, so that the step can then be
    /// committed, or taken back. Refused as `step` is, and then nothing changes.
    pub fn attempt(&mut self, event: &NodeEvent) -> Result<Attempt, StepFault>
        ensures attempt { IfOk result (IsAttempt self.old event.now self.new) }
        ensures refused { IfErr result (λ fault. Rejects self.old event.now fault self.new) }
    {
        match event {
            NodeEvent::Read { key } => self.read(key),
            NodeEvent::Write {
                key,
                value,
                context,
            } => self.write(key, value, context.as_ref()),
            NodeEvent::PutOver { key, value } => self.put_over(key, value),
            NodeEvent::Take { frame, word } => self.take(frame, *word),
            NodeEvent::Tick { word } => self.tick(*word),
            NodeEvent::Join { contact, word } => self.join(*contact, *word),
            NodeEvent::PeerDown { peer, word } => self.peer_down(*peer, *word),
            NodeEvent::Exchange { peer } => self.exchange(*peer),
            NodeEvent::Keep { key } => Ok(self.keep(key)),
            NodeEvent::Watch { prefix, capacity } => self.watch(prefix, *capacity),
            NodeEvent::Changes { number } => self.changes(*number),
            NodeEvent::Hello { peer } => self.hello(*peer),
            NodeEvent::Leave => self.leave(),
        }
    }
}
