//! What an overlay was asked, made so far that nothing more can fail: it can then be ended, or
//! taken back, and neither takes memory.

ghost use Rattle.std.specs.Prelude.{◌≡◌};
ghost use Rattle.node_overlay.specs.Overlay.{IsOverlay};
ghost use Rattle.node_overlay.specs.Pending.{after_pending, before_pending};

use crate::overlay::Overlay;
use hyparview::Views;
use plumtree::{Foreseen, Noted, PeerChange, Savepoint};

/// What is pending. A call of the broadcast was made, and where it stood is kept; an event of the
/// views, or a tick, was foreseen, and isn't made yet.
#[derive(Drop)]
pub enum Pending {
    /// The broadcast stood here before it took a write, a GOSSIP, a PRUNE or a GRAFT.
    Called(Savepoint),
    /// It noted this of an IHAVE.
    Noted(Noted),
    /// The views change, and the broadcast hears of it.
    Views {
        views: Views,
        peers: Foreseen,
        changes: Vec<PeerChange>,
    },
    /// The broadcast makes a tick.
    Tick(Foreseen),
    /// The broadcast makes a tick, and then the views shuffle.
    Shuffle(Views, Foreseen),
}

impl Overlay {
    /// Ends what is pending. It never fails, and takes no memory.
    pub fn end(&mut self, pending: Pending)
        requires { IsOverlay (after_pending pending self.old) }
        ensures { self.new ≡ after_pending pending self.old }
    {
        match pending {
            Pending::Called(savepoint) => drop(savepoint),
            Pending::Noted(_) => {}
            Pending::Views {
                views,
                peers,
                changes,
            } => {
                self.views = views;
                self.cast.make_changes(peers, changes.as_slice());
            }
            Pending::Tick(peers) => self.cast.make_tick(peers),
            Pending::Shuffle(views, peers) => {
                self.views = views;
                self.cast.make_tick(peers);
            }
        }
    }

    /// Takes back what is pending, if nothing was asked of the overlay since. It never fails, and
    /// takes no memory.
    pub fn take_back(&mut self, pending: Pending)
        requires { IsOverlay (before_pending pending self.old) }
        ensures { self.new ≡ before_pending pending self.old }
    {
        match pending {
            Pending::Called(savepoint) => self.cast.roll_back(savepoint),
            Pending::Noted(noted) => self.cast.take_back_ihave(noted),
            Pending::Views {
                views,
                peers,
                changes,
            } => drop((views, (peers, changes))),
            Pending::Tick(peers) => drop(peers),
            Pending::Shuffle(views, peers) => drop((views, peers)),
        }
    }
}
