//! A step in two halves. What may fail is done first: it gives an attempt, in which the reply, the
//! frames, and the object that changed can be seen, and stored or copied. Then the attempt is
//! committed, which makes the step, or taken back, as if it had never been made. Neither fails, or
//! takes memory.

ghost use Rattle.std.specs.Prelude.{◌≡◌, map};
ghost use Rattle.std.specs.Option.{option_copied};
ghost use Rattle.node_core.specs.Attempt.{CanEnd, CanEndAt, CanEndOverlay, changed_key, committed, ended, overlay_ended, overlay_taken_back, stepped_by, taken_back, undone};
ghost use Rattle.node_core.specs.declared.attempt.End.TheVariants.{Change, Tick};
ghost use Rattle.node_overlay.specs.Overlay.{overlay_after_call};
ghost use Rattle.plumtree.specs.Broadcast.{Changes};
ghost use Rattle.subscriptions.specs.Watches.{hearing_count};
ghost use Rattle.subscriptions.specs.Watching.{with_change};

use crate::state::{NodeState, Stepped};
use dvvset::Entries;
use meta_types::{MetaKey, NodeId};
use node_events::{Outbox, Reply};
use node_overlay::{Overlay, Pending};
use subscriptions::{News, Watches};

/// A step that was attempted: its reply and its frames, and what is left to do. It is to be handed
/// to `NodeState::commit` or to `NodeState::take_back`; until then the node stands between two
/// steps, and is asked nothing else.
#[derive(Drop)]
pub struct Attempt {
    pub(crate) reply: Reply,
    pub(crate) outbox: Outbox,
    pub(crate) end: End,
}

/// What is left to do of a step, beside counting it, and what it takes to undo what was done.
#[derive(Drop)]
pub enum End {
    /// Nothing.
    Count,
    /// The overlay was asked something.
    Overlay(Pending),
    /// The overlay was asked to tick, and the tick counts.
    Tick(Pending),
    /// A greater life of a node is heard; if it was a neighbour, the overlay takes it down.
    Heard {
        node: NodeId,
        life: u32,
        overlay: Option<Pending>,
    },
    /// An object changed, and that is news; before that the key held `before`.
    Change {
        news: News,
        before: Option<Entries>,
        overlay: Option<Pending>,
    },
    /// A watch was added.
    Watch,
    /// What the watch of this number has noted leaves it.
    HandOut(u64),
}

impl Attempt {
    pub fn reply(&self) -> &Reply
        ensures { result.now ≡ self.now.reply }
    {
        &self.reply
    }

    /// Returns the frames to send once the attempt is committed.
    pub fn outbox(&self) -> &Outbox
        ensures { result.now ≡ self.now.outbox }
    {
        &self.outbox
    }

    /// Returns the key under which what is held changed, if it did: that of a write, or of an
    /// object that was taken fresh. The node's store has the new object already.
    pub fn changed(&self) -> Option<&MetaKey>
        ensures { option_copied result ≡ changed_key self.now }
    {
        match &self.end {
            End::Change { news, .. } => Some(news.key()),
            _ => None,
        }
    }
}

impl NodeState {
    /// Makes the step that was attempted, if nothing was asked of the node since. Returns the reply,
    /// and the frames to send.
    pub fn commit(&mut self, attempt: Attempt) -> Stepped
        requires { CanEnd attempt self.old }
        ensures node { self.new ≡ committed attempt self.old }
        ensures stepped { result ≡ stepped_by attempt }
    {
        let Attempt { reply, outbox, end } = attempt;
        self.end(end);
        self.finish(reply, outbox)
    }

    /// Takes the attempt back, if nothing was asked of the node since: it is as it was.
    pub fn take_back(&mut self, attempt: Attempt)
        requires { CanEnd attempt self.old }
        ensures { self.new ≡ taken_back attempt self.old }
    {
        let Attempt { reply, outbox, end } = attempt;
        drop((reply, outbox));
        self.undo(end);
    }

    /// Undoes what was done of a step.
    fn undo(&mut self, end: End)
        requires { CanEndAt end self.old }
        ensures { self.new ≡ undone end self.old }
    {
        match end {
            End::Count => {}
            End::Overlay(pending) => self.overlay.take_back(pending),
            End::Tick(pending) => self.overlay.take_back(pending),
            End::Heard { overlay, .. } => take_back_overlay(&mut self.overlay, overlay),
            End::Change {
                news,
                before,
                overlay,
            } => self.undo_change(news, before, overlay),
            End::Watch => self.watches.forget_last(),
            End::HandOut(_) => {}
        }
    }

    fn undo_change(&mut self, news: News, before: Option<Entries>, overlay: Option<Pending>)
        requires { CanEndAt (Change news before overlay) self.old }
        ensures { self.new ≡ undone (Change news before overlay) self.old }
    {
        take_back_overlay(&mut self.overlay, overlay);
        self.held.put_back(news.key(), before);
    }

    /// Does what is left of a step, beside counting it.
    fn end(&mut self, end: End)
        requires { CanEndAt end self.old }
        ensures { self.new ≡ ended end self.old }
    {
        match end {
            End::Count => {}
            End::Overlay(pending) => self.overlay.end(pending),
            End::Tick(pending) => self.end_tick(pending),
            End::Heard {
                node,
                life,
                overlay,
            } => {
                end_overlay(&mut self.overlay, overlay);
                self.heard[node.number() as usize] = life;
            }
            End::Change {
                news,
                before,
                overlay,
            } => {
                drop(before);
                end_overlay(&mut self.overlay, overlay);
                note(&mut self.overlay, &mut self.watches, news);
            }
            End::Watch => {}
            End::HandOut(number) => self.watches.clear(number),
        }
    }

    fn end_tick(&mut self, pending: Pending)
        requires { CanEndAt (Tick pending) self.old }
        ensures { self.new ≡ ended (Tick pending) self.old }
    {
        self.overlay.end(pending);
        self.ticks = self.ticks.saturating_add(1);
    }
}

/// Notes the change in the watches, and stops waiting for it.
fn note(overlay: &mut Overlay, watches: &mut Watches, news: News)
    requires { news.notes ≡ hearing_count news.change.key watches.old }
    ensures overlay { overlay.new
        ≡ overlay_after_call (Changes news.change.key news.change.vector) overlay.old }
    ensures watches { watches.new ≡ map (with_change news.change) watches.old }
{
    let mut news = news;
    watches.note(&mut news);
    overlay.on_change(news.key(), news.vector());
}

/// Ends what the overlay was asked, if it was asked something.
fn end_overlay(overlay: &mut Overlay, pending: Option<Pending>)
    requires { CanEndOverlay pending overlay.old }
    ensures { overlay.new ≡ overlay_ended pending overlay.old }
{
    if let Some(pending) = pending {
        overlay.end(pending);
    }
}

/// Takes back what the overlay was asked, if it was asked something.
fn take_back_overlay(overlay: &mut Overlay, pending: Option<Pending>)
    requires { CanEndOverlay pending overlay.old }
    ensures { overlay.new ≡ overlay_taken_back pending overlay.old }
{
    if let Some(pending) = pending {
        overlay.take_back(pending);
    }
}
