//! A tick of the overlay: the broadcast's, and then a shuffle, if it is due. All that may fail is
//! made first, so that the broadcast makes its tick in place, and copies nothing of what waits.

ghost use Rattle.std.specs.Prelude.{◌≡◌, ◌++◌, All, IfOk};
ghost use Rattle.hyparview.specs.Views.{draft_after, views_of};
ghost use Rattle.hyparview.specs.declared.event.ViewEvent.TheVariants.{ShuffleDue};
ghost use Rattle.plumtree.specs.Broadcast.{Tick};
ghost use Rattle.plumtree.specs.Lawful.{after_call};
ghost use Rattle.plumtree.specs.Ticking.{peers_of};
ghost use Rattle.node_overlay.specs.Origin.{whole_messages};
ghost use Rattle.node_overlay.specs.Ticking.{overlay_after_tick, sent_by_tick};
ghost use Rattle.node_overlay.specs.Outbox.{AreFramesOf, MaySend};
ghost use Rattle.node_overlay.specs.Overlay.{out_of, overlay_after_call, overlay_after_view};
ghost use Rattle.node_overlay.specs.Overlay.{sent_by_view};
ghost use Rattle.node_overlay.specs.Pending.{Pends};

use crate::envelope::Envelope;
use crate::messages::whole_messages;
use crate::overlay::{Overlay, parted};
use crate::pending::Pending;
use crate::sending::outbox;
use hyparview::{ViewEvent, Views};
use meta_types::{NodeId, both};
use node_events::Outbox;
use plumtree::Foreseen;
use std::alloc::{AllocError, Global};

/// How many ticks there are from one shuffle of the views to the next.
const TICKS_OF_A_SHUFFLE: u64 = 10;

impl Overlay {
    /// Returns what the tick of this number changes, and the frames to send, numbered from the one
    /// after `number` on; the overlay stays as it is. Fails only when memory runs out.
    pub fn on_tick(
        &self,
        alloc: Global,
        number: u64,
        ticks: u64,
        word: u64,
    ) -> Result<(Pending, Outbox), AllocError>
        ensures pending { IfOk result (λ seen. Pends seen.0 self.now self.now
            (overlay_after_tick ticks word self.now)) }
        ensures sends { IfOk result (λ seen. AreFramesOf self.now.views.node number
            (sent_by_tick ticks word self.now) seen.1) }
    {
        if ticks % TICKS_OF_A_SHUFFLE == 0 {
            self.on_shuffling_tick(alloc, number, word)
        } else {
            self.on_quiet_tick(alloc, number)
        }
    }

    /// Foresees a tick of the broadcast alone.
    fn on_quiet_tick(&self, alloc: Global, number: u64) -> Result<(Pending, Outbox), AllocError>
        ensures pending { IfOk result (λ seen. Pends seen.0 self.now self.now
            (overlay_after_call Tick self.now)) }
        ensures sends { IfOk result (λ seen. AreFramesOf self.now.views.node number
            (whole_messages (out_of Tick self.now)) seen.1) }
    {
        let (peers, sent) = self.after_broadcast_tick(alloc)?;
        let outbox = outbox(alloc, self.views.node(), number, sent);
        let (peers, outbox) = both(Ok(peers), outbox)?;
        Ok((Pending::Tick(peers), outbox))
    }

    /// Foresees a tick of the broadcast and then a shuffle, in which nobody comes or goes.
    fn on_shuffling_tick(
        &self,
        alloc: Global,
        number: u64,
        word: u64,
    ) -> Result<(Pending, Outbox), AllocError>
        ensures pending { IfOk result (λ seen. Pends seen.0 self.now self.now
            (overlay_after_view ShuffleDue word (overlay_after_call Tick self.now))) }
        ensures sends { IfOk result (λ seen. AreFramesOf self.now.views.node number
            (whole_messages (out_of Tick self.now) ++ sent_by_view ShuffleDue word self.now)
            seen.1) }
    {
        let ticked = self.after_broadcast_tick(alloc);
        let ((peers, sent), (views, more)) = both(ticked, self.after_shuffle(alloc, word))?;
        let outbox = joined_outbox(alloc, self.views.node(), number, sent, more);
        let ((peers, views), outbox) = both(Ok((peers, views)), outbox)?;
        Ok((Pending::Shuffle(views, peers), outbox))
    }

    /// Returns the peers of the broadcast after a tick, and the messages that go out.
    fn after_broadcast_tick(&self, alloc: Global) -> Result<(Foreseen, Vec<Envelope>), AllocError>
        ensures peers { IfOk result
            (λ after. after.0 ≡ peers_of (after_call self.now.cast Tick)) }
        ensures sent { IfOk result
            (λ after. after.1.items ≡ whole_messages (out_of Tick self.now)) }
        ensures may { IfOk result (λ after. All (MaySend self.now.views.node) after.1.items) }
    {
        let (peers, outs) = self.cast.foresee_tick()?;
        let sent = whole_messages(alloc, outs);
        both(Ok(peers), sent)
    }

    /// Returns the views after a shuffle, and the messages that go out.
    fn after_shuffle(&self, alloc: Global, word: u64) -> Result<(Views, Vec<Envelope>), AllocError>
        ensures views { IfOk result (λ after.
            after.0 ≡ views_of (draft_after ShuffleDue word self.now.views)) }
        ensures sent { IfOk result
            (λ after. after.1.items ≡ sent_by_view ShuffleDue word self.now) }
        ensures may { IfOk result (λ after. All (MaySend self.now.views.node) after.1.items) }
    {
        let (views, outs) = self.views.after(&ViewEvent::ShuffleDue, word)?;
        let (views, (_, sent)) = both(Ok(views), parted(alloc, outs))?;
        Ok((views, sent))
    }
}

/// Returns the frames of the messages of the one list, and then of the other.
fn joined_outbox(
    alloc: Global,
    node: NodeId,
    number: u64,
    front: Vec<Envelope>,
    back: Vec<Envelope>,
) -> Result<Outbox, AllocError>
    requires front { All (MaySend node) front.items }
    requires back { All (MaySend node) back.items }
    ensures { IfOk result (AreFramesOf node number (front.items ++ back.items)) }
{
    let sent = joined(front, back)?;
    outbox(alloc, node, number, sent)
}

/// Returns the items of `front`, then those of `back`.
fn joined<T: Drop>(front: Vec<T>, back: Vec<T>) -> Result<Vec<T>, AllocError>
    ensures { IfOk result (λ all. all.items ≡ front.items ++ back.items) }
{
    let mut all = front;
    let mut back = back;
    all.append(&mut back)?;
    Ok(all)
}
