ghost use Rattle.std.specs.Prelude.{◌≡◌, ◌↔◌, All, IfOk, IsTrue};
ghost use Rattle.hyparview.specs.Lawful.{IsOfAnother};
ghost use Rattle.hyparview.specs.Views.{draft_after, views_of};
ghost use Rattle.node_overlay.specs.Outbox.{AreFramesOf, MaySend};
ghost use Rattle.node_overlay.specs.Overlay.{IsOverlay, empty_overlay, messages_of};
ghost use Rattle.node_overlay.specs.Overlay.{overlay_after_view, peer_changes, sent_by_view};
ghost use Rattle.node_overlay.specs.Pending.{Pends};

use crate::envelope::Envelope;
use crate::pending::Pending;
use crate::sending::outbox;
use hyparview::{ViewEvent, ViewOut, Views};
use meta_types::{NodeId, both};
use node_events::Outbox;
use plumtree::{Cast, PeerChange};
use std::alloc::{AllocError, Global};
use std::marker::Model;

/// Whom a node talks to: its views, and its broadcast, whose peers are the members of the active
/// view.
#[derive(Drop)]
pub struct Overlay {
    pub(crate) views: Views,
    pub(crate) cast: Cast,
}

impl Model for Overlay {
    ghost use Rattle.node_overlay.specs.Overlay.{IsOverlay, Overlay as Parts, overlay_of};

    ghost Value = { Parts };

    ghost view = { λ o. overlay_of o.views o.cast };

    ghost invariant = { λ o. IsOverlay (overlay_of o.views o.cast) };
}

impl Overlay {
    /// Makes the overlay of a node that knows nobody. It takes no memory.
    pub fn new(alloc: Global, node: NodeId) -> Self
        ensures { result ≡ empty_overlay node }
    {
        Overlay {
            views: Views::new(alloc, node),
            cast: Cast::new(alloc),
        }
    }

    /// Returns whether the node knows nobody, and waits for nothing, as a new one.
    pub fn is_new(&self) -> bool
        ensures { IsTrue result ↔ (self.now ≡ empty_overlay self.now.views.node) }
    {
        self.views.is_new() && self.cast.is_new()
    }

    pub fn views(&self) -> &Views
        ensures value { result.now ≡ self.now.views }
        ensures lawful { IsOverlay self.now }
    {
        &self.views
    }

    pub fn cast(&self) -> &Cast
        ensures value { result.now ≡ self.now.cast }
        ensures lawful { IsOverlay self.now }
    {
        &self.cast
    }

    /// Fails only when memory runs out.
    pub fn copy(&self) -> Result<Self, AllocError>
        ensures { IfOk result (λ copy. copy ≡ self.now) }
    {
        let (views, cast) = both(self.views.copy(), self.cast.copy())?;
        Ok(Overlay { views, cast })
    }

    /// Returns what an event of the views changes, which the broadcast hears of, and the frames to
    /// send, numbered from the one after `number` on; the overlay stays as it is. Fails only when
    /// memory runs out. What waits is never copied.
    pub fn on_view_event(
        &self,
        alloc: Global,
        number: u64,
        event: &ViewEvent,
        word: u64,
    ) -> Result<(Pending, Outbox), AllocError>
        requires { IsOfAnother self.now.views.node event.now }
        ensures pending { IfOk result (λ seen. Pends seen.0 self.now self.now
            (overlay_after_view event.now word self.now)) }
        ensures sends { IfOk result (λ seen. AreFramesOf self.now.views.node number
            (sent_by_view event.now word self.now) seen.1) }
    {
        let (views, (changes, outbox)) = self.after_view_event(alloc, number, event, word)?;
        let peers = self.cast.foresee_changes(changes.as_slice())?;
        let pending = Pending::Views {
            views,
            peers,
            changes,
        };
        Ok((pending, outbox))
    }

    /// Returns the views after the event, who came and who went, and the frames.
    fn after_view_event(
        &self,
        alloc: Global,
        number: u64,
        event: &ViewEvent,
        word: u64,
    ) -> Result<(Views, (Vec<PeerChange>, Outbox)), AllocError>
        requires { IsOfAnother self.now.views.node event.now }
        ensures views { IfOk result (λ after.
            after.0 ≡ views_of (draft_after event.now word self.now.views)) }
        ensures changes { IfOk result (λ after. after.1.0.items
            ≡ peer_changes (draft_after event.now word self.now.views).out) }
        ensures sends { IfOk result (λ after. AreFramesOf self.now.views.node number
            (sent_by_view event.now word self.now) after.1.1) }
    {
        let (views, outs) = self.views.after(event, word)?;
        let told = told_by(alloc, self.views.node(), number, outs);
        both(Ok(views), told)
    }
}

/// Returns who came and who went, and the frames of the messages.
fn told_by(
    alloc: Global,
    node: NodeId,
    number: u64,
    outs: Vec<ViewOut>,
) -> Result<(Vec<PeerChange>, Outbox), AllocError>
    requires { All (MaySend node) (messages_of outs.items) }
    ensures changes { IfOk result (λ told. told.0.items ≡ peer_changes outs.items) }
    ensures sends { IfOk result (λ told.
        AreFramesOf node number (messages_of outs.items) told.1) }
{
    let (changes, sent) = parted(alloc, outs)?;
    let outbox = outbox(alloc, node, number, sent);
    both(Ok(changes), outbox)
}

/// Returns who came and who went, and the messages, each in order. Fails only when memory runs out.
pub(crate) fn parted(
    alloc: Global,
    outs: Vec<ViewOut>,
) -> Result<(Vec<PeerChange>, Vec<Envelope>), AllocError>
    ensures changes { IfOk result (λ parted. parted.0.items ≡ peer_changes outs.items) }
    ensures messages { IfOk result (λ parted. parted.1.items ≡ messages_of outs.items) }
{
    let mut changes = Vec::new(alloc);
    let mut sent = Vec::new(alloc);
    for out in outs {
        match out {
            ViewOut::Send(to, message) => sent.push(Envelope { to, message })?,
            ViewOut::Up(node) => changes.push(PeerChange::Up(node))?,
            ViewOut::Down(node) => changes.push(PeerChange::Down(node))?,
        }
    }
    Ok((changes, sent))
}
