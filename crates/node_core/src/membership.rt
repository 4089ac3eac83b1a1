//! Events and messages of the views.

ghost use Rattle.std.specs.Prelude.{◌≡◌, ◌≢◌, None, Some, IfOk, IfErr};
ghost use Rattle.hyparview.specs.Lawful.{IsOfAnother, IsOfViews};
ghost use Rattle.meta_frame.specs.declared.message.Message.TheVariants.{Hello};
ghost use Rattle.node_core.specs.Draft.{step_views};
ghost use Rattle.node_core.specs.Rows.{Local, drop_neighbour};
ghost use Rattle.node_core.specs.Handling.{Attempts, AttemptsMessage, AttemptsTo, IsForeseen};
ghost use Rattle.node_core.specs.Step.{begun};
ghost use Rattle.node_events.specs.declared.event.NodeEvent.TheVariants.{Join, Leave, PeerDown};
ghost use Rattle.node_events.specs.declared.fault.StepFault.TheVariants.{Memory};

use crate::attempt::{Attempt, End};
use crate::state::NodeState;
use hyparview::ViewEvent;
use meta_frame::Message;
use meta_types::NodeId;
use node_events::{Outbox, Reply, StepFault};
use node_overlay::Pending;
use peer_lists::has;

impl NodeState {
    pub(crate) fn join(&self, contact: NodeId, word: u64) -> Result<Attempt, StepFault>
        ensures { Attempts self.now (Local (Join contact word)) result self.now }
    {
        self.is_another(contact)?;
        self.step_views(Reply::Done, &ViewEvent::JoinThrough { contact }, word)
    }

    /// Takes note that a peer doesn't answer.
    pub(crate) fn peer_down(&self, peer: NodeId, word: u64) -> Result<Attempt, StepFault>
        ensures { Attempts self.now (Local (PeerDown peer word)) result self.now }
    {
        self.is_another(peer)?;
        self.step_views(Reply::Done, &ViewEvent::PeerDown { peer }, word)
    }

    pub(crate) fn leave(&self) -> Result<Attempt, StepFault>
        ensures { Attempts self.now (Local Leave) result self.now }
    {
        self.step_views(Reply::Done, &ViewEvent::Leave, 0)
    }

    /// Takes a message of the views.
    pub(crate) fn on_views(
        &self,
        from: NodeId,
        word: u64,
        message: &Message,
    ) -> Result<Attempt, StepFault>
        requires another { from ≢ self.now.node }
        requires views { IsOfViews message.now }
        ensures { AttemptsMessage self.now from word message.now result self.now }
    {
        let message = message.copy()?;
        let event = ViewEvent::Taken { from, message };
        // The event is dropped at the only way out, so that the proof has one case for it.
        let attempt = self.step_views(Reply::Took, &event, word);
        drop(event);
        attempt
    }

    /// Takes a HELLO. A life that is greater than any heard of the sender is noted; and the sender,
    /// which may have restarted, is taken down if it is a neighbour.
    pub(crate) fn on_hello(&self, from: NodeId, word: u64, life: u32) -> Result<Attempt, StepFault>
        requires { from ≢ self.now.node }
        ensures { AttemptsMessage self.now from word (Hello life) result self.now }
    {
        let place = from.number() as usize;
        if self.heard[place] >= life {
            return Ok(Attempt {
                reply: Reply::Took,
                outbox: self.nothing_sent(),
                end: End::Count,
            });
        }
        let (overlay, outbox) = self.drop_neighbour(from, word)?;
        Ok(Attempt {
            reply: Reply::Took,
            outbox,
            end: End::Heard {
                node: from,
                life,
                overlay,
            },
        })
    }

    /// Foresees that the node goes down, if it is a neighbour. Returns the frames, too.
    fn drop_neighbour(
        &self,
        node: NodeId,
        word: u64,
    ) -> Result<(Option<Pending>, Outbox), StepFault>
        requires { node ≢ self.now.node }
        ensures foreseen { IfOk result (λ it.
            IsForeseen self.now (drop_neighbour node word (begun self.now)) it.0 it.1) }
        ensures memory { IfErr result (λ fault. fault ≡ Memory) }
    {
        if !has(self.overlay.views().active(), node) {
            return Ok((None, self.nothing_sent()));
        }
        let event = ViewEvent::PeerDown { peer: node };
        let (pending, outbox) = self.foresee_views(&event, word)?;
        Ok((Some(pending), outbox))
    }

    /// Attempts the step of an event of the views, with this reply.
    fn step_views(&self, reply: Reply, event: &ViewEvent, word: u64) -> Result<Attempt, StepFault>
        requires { IsOfAnother self.now.node event.now }
        ensures { AttemptsTo self.now None (step_views event.now word (begun self.now)) reply None
            result self.now }
    {
        // (for its type)
        let _ = self.overlay.views();
        let (pending, outbox) = self.foresee_views(event, word)?;
        Ok(Attempt {
            reply,
            outbox,
            end: End::Overlay(pending),
        })
    }

    /// Foresees an event of the views. Returns the frames, too.
    fn foresee_views(&self, event: &ViewEvent, word: u64) -> Result<(Pending, Outbox), StepFault>
        requires { IsOfAnother self.now.node event.now }
        ensures foreseen { IfOk result (λ it.
            IsForeseen self.now (step_views event.now word (begun self.now)) (Some it.0) it.1) }
        ensures memory { IfErr result (λ fault. fault ≡ Memory) }
    {
        // (for its type)
        let _ = self.overlay.views();
        let (alloc, number) = (self.alloc, self.frames);
        let (pending, outbox) = self.overlay.on_view_event(alloc, number, event, word)?;
        Ok((pending, outbox))
    }
}
