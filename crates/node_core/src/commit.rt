//! How a step ends: messages become frames, and then the step counts. What can fail comes first, so
//! that a step that is refused memory leaves all as it was.

ghost use Rattle.std.specs.Prelude.{◌≡◌, ◌∷◌, [], All, IfOk, IfErr, length, map};
ghost use Rattle.meta_frame.specs.Frame.{spelling};
ghost use Rattle.node_overlay.specs.Outbox.{HasSpelling, MaySend, frames_from};
ghost use Rattle.node_overlay.specs.Overlay.{envelope};
ghost use Rattle.node_core.specs.Step.{with_counts};
ghost use Rattle.node_events.specs.declared.fault.StepFault.TheVariants.{Memory};

use crate::state::{NodeState, Stepped};
use meta_frame::Message;
use meta_types::NodeId;
use node_events::{Outbox, Reply, StepFault};
use node_overlay::{Envelope, outbox};

impl NodeState {
    /// Returns the frames of these messages, with the numbers that come next. Fails only when
    /// memory runs out.
    pub(crate) fn outbox(&self, sent: Vec<Envelope>) -> Result<Outbox, StepFault>
        requires { All (MaySend self.now.node) sent.items }
        ensures frames { IfOk result (λ outbox. outbox
            ≡ map spelling (frames_from self.now.node self.now.frames sent.items)) }
        ensures lawful { IfOk result (λ _.
            All HasSpelling (frames_from self.now.node self.now.frames sent.items)) }
        ensures memory { IfErr result (λ fault. fault ≡ Memory) }
    {
        Ok(outbox(self.alloc, self.node, self.frames, sent)?)
    }

    pub(crate) fn one_frame(&self, to: NodeId, message: Message) -> Result<Outbox, StepFault>
        requires { MaySend self.now.node (envelope to message) }
        ensures frames { IfOk result (λ outbox. outbox ≡ map spelling
            (frames_from self.now.node self.now.frames (envelope to message ∷ []))) }
        ensures lawful { IfOk result (λ _. All HasSpelling
            (frames_from self.now.node self.now.frames (envelope to message ∷ []))) }
        ensures memory { IfErr result (λ fault. fault ≡ Memory) }
    {
        let mut sent = Vec::new(self.alloc);
        sent.push(Envelope { to, message })?;
        self.outbox(sent)
    }

    pub(crate) fn nothing_sent(&self) -> Outbox
        ensures { result ≡ [] }
    {
        Outbox::new(Vec::new(self.alloc))
    }

    /// Ends a step: it counts, and so does each of its frames.
    pub(crate) fn finish(&mut self, reply: Reply, outbox: Outbox) -> Stepped
        ensures counts { self.new ≡ with_counts (length outbox) self.old }
        ensures value { result ≡ record { reply = reply; outbox = outbox } }
    {
        self.steps = self.steps.saturating_add(1);
        self.frames = self.frames.saturating_add(outbox.as_slice().len() as u64);
        Stepped { reply, outbox }
    }
}
