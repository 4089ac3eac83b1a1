//! Frames that come.

ghost use Rattle.std.specs.Prelude.{◌≡◌, ◌≢◌, IfOk, IfErr, All, map};
ghost use Rattle.exchange.specs.Answers.{answers_to};
ghost use Rattle.meta_frame.specs.Frame.{IsLawful, IsMessage};
ghost use Rattle.node_overlay.specs.Outbox.{MaySend};
ghost use Rattle.node_overlay.specs.Overlay.{envelope};
ghost use Rattle.node_core.specs.Attempt.{IsAttempt};
ghost use Rattle.node_core.specs.Rows.{Received};
ghost use Rattle.node_core.specs.Step.{Rejects};
ghost use Rattle.node_events.specs.declared.event.NodeEvent.TheVariants.{Take};
ghost use Rattle.node_events.specs.declared.fault.StepFault.TheVariants.{Memory};
ghost use Rattle.node_core.specs.Handling.{Attempts, AttemptsMessage, IsQuestion};

use crate::attempt::{Attempt, End};
use crate::state::NodeState;
use exchange::answer;
use meta_frame::{Frame, Message, decode};
use meta_types::{ByteString, NodeId};
use node_events::{Reply, StepFault};
use node_overlay::Envelope;
use std::alloc::{AllocError, Global};

impl NodeState {
    /// Takes bytes that should be a frame for the node.
    pub(crate) fn take(&mut self, bytes: &ByteString, word: u64) -> Result<Attempt, StepFault>
        ensures attempt { IfOk result (IsAttempt self.old (Take bytes.now word) self.new) }
        ensures refused { IfErr result
            (λ fault. Rejects self.old (Take bytes.now word) fault self.new) }
    {
        let frame = decode(self.alloc, bytes.as_slice())?;
        // The frame is dropped at the only way out, so that the proof has one case for it.
        let taken = self.receive(&frame, word);
        drop(frame);
        taken
    }

    fn receive(&mut self, frame: &Frame, word: u64) -> Result<Attempt, StepFault>
        requires { IsLawful frame.now }
        ensures { Attempts self.old (Received frame.now word) result self.new }
    {
        if frame.to != self.node {
            return Err(StepFault::NotAddressed);
        }
        self.on_message(frame.from, word, &frame.message)
    }

    /// Takes a message that came, by the row of its kind.
    fn on_message(
        &mut self,
        from: NodeId,
        word: u64,
        message: &Message,
    ) -> Result<Attempt, StepFault>
        requires another { from ≢ self.old.node }
        requires lawful { IsMessage message.now }
        ensures { AttemptsMessage self.old from word message.now result self.new }
    {
        match message {
            Message::Gossip { round, key, object } => self.on_gossip(from, *round, key, object),
            Message::IHave { round, key, vector } => self.on_ihave(from, *round, key, vector),
            Message::Graft { round, key, vector } => self.on_graft(from, *round, key, vector),
            Message::Prune => self.on_prune(from),
            Message::XRoot { .. }
            | Message::XPrefixes { .. }
            | Message::XInner { .. }
            | Message::XLeaves { .. }
            | Message::XBucket { .. }
            | Message::XWant { .. } => self.on_question(from, message),
            Message::XObject { key, object } => self.on_object(key, object),
            Message::Hello { life } => self.on_hello(from, word, *life),
            Message::Join
            | Message::ForwardJoin { .. }
            | Message::Disconnect
            | Message::Neighbor { .. }
            | Message::NeighborReply { .. }
            | Message::Shuffle { .. }
            | Message::ShuffleReply { .. }
            | Message::Bye => self.on_views(from, word, message),
        }
    }

    /// Takes a question of an exchange, and answers it to the sender.
    fn on_question(&self, from: NodeId, message: &Message) -> Result<Attempt, StepFault>
        requires another { from ≢ self.now.node }
        requires question { IsQuestion message.now }
        ensures { AttemptsMessage self.now from 0 message.now result self.now }
    {
        // (for its type)
        let _ = self.overlay.views();
        let sent = self.answers(from, message)?;
        let outbox = self.outbox(sent)?;
        Ok(Attempt {
            reply: Reply::Took,
            outbox,
            end: End::Count,
        })
    }

    /// Returns the answers to a question, each to the sender. Fails only when memory runs out.
    fn answers(&self, to: NodeId, message: &Message) -> Result<Vec<Envelope>, StepFault>
        requires { to ≢ self.now.node }
        ensures sent { IfOk result (λ sent. sent.items
            ≡ map (envelope to) (answers_to self.now.table message.now)) }
        ensures may { IfOk result (λ sent. All (MaySend self.now.node) sent.items) }
        ensures memory { IfErr result (λ fault. fault ≡ Memory) }
    {
        // (for its type)
        let _few = self.held.store().len();
        let messages = answer(self.alloc, &self.held, message)?;
        Ok(addressed(self.alloc, to, messages)?)
    }
}

/// Returns these messages, each addressed to the same node. Fails only when memory runs out.
fn addressed(alloc: Global, to: NodeId, messages: Vec<Message>) -> Result<Vec<Envelope>, AllocError>
    ensures { IfOk result (λ sent. sent.items ≡ map (envelope to) messages.items) }
{
    let mut sent = Vec::with_capacity(alloc, messages.len())?;
    for message in messages {
        sent.push(Envelope { to, message })?;
    }
    Ok(sent)
}
