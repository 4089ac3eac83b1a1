//! Many changes of who is a peer at once, in two steps: who is a peer after them is made first,
//! beside the broadcast, which takes memory and may fail. Then what waits is changed in place.

ghost use Rattle.std.specs.Prelude.{◌≡◌, map, IfOk, OnOk, OnErr};
ghost use Rattle.plumtree.specs.Broadcast.{peer_call};
ghost use Rattle.plumtree.specs.Lawful.{broadcast_after};
ghost use Rattle.plumtree.specs.Ticking.{peers_of, with_peers};

use crate::cast::Cast;
use crate::entry::PeerChange;
use crate::foreseen::Foreseen;
use crate::missing::{leave_queue, lose_announcer};
use std::alloc::AllocError;

impl Cast {
    /// Returns the peers after these changes, for `make_changes`; the broadcast stays as it is.
    /// Fails only when memory runs out.
    pub fn foresee_changes(&self, changes: &[PeerChange]) -> Result<Foreseen, AllocError>
        ensures { IfOk result (λ peers.
            peers ≡ peers_of (broadcast_after self.now (map peer_call changes.now))) }
    {
        let mut peers = Foreseen {
            eager: self.eager.clone()?,
            lazy: self.lazy.clone()?,
        };
        for change in changes {
            peers.change(*change)?;
        }
        Ok(peers)
    }

    /// Makes the changes of who is a peer that were foreseen. It never fails, and takes no memory.
    pub fn make_changes(&mut self, peers: Foreseen, changes: &[PeerChange])
        ensures { self.new
            ≡ with_peers peers (broadcast_after self.old (map peer_call changes.now)) }
    {
        self.eager = peers.eager;
        self.lazy = peers.lazy;
        for change in changes {
            if let PeerChange::Down(node) = change {
                leave_queue(&mut self.queue, *node);
                lose_announcer(&mut self.missing, *node);
            }
        }
    }

    /// Makes these changes of who is a peer, in this order. Fails only when memory runs out, and
    /// then all is as before.
    pub fn change_peers(&mut self, changes: &[PeerChange]) -> Result<(), AllocError>
        ensures row { OnOk result
            (self.new ≡ broadcast_after self.old (map peer_call changes.now)) }
        ensures unchanged { OnErr result (self.new ≡ self.old) }
    {
        let peers = self.foresee_changes(changes)?;
        self.make_changes(peers, changes);
        Ok(())
    }
}

impl Foreseen {
    ghost use Rattle.plumtree.specs.Broadcast.{broadcast_with};
    ghost use Rattle.plumtree.specs.Lawful.{after_call};
    ghost use Rattle.std.specs.Prelude.{[]};

    /// Makes one change more. If memory runs out, it is dropped.
    #[tactic(auto, unfolding(crate::specs::Rows::up, crate::specs::Rows::down))]
    fn change(&mut self, change: PeerChange) -> Result<(), AllocError>
        ensures { OnOk result (self.new ≡ peers_of
            (after_call (broadcast_with self.old.eager self.old.lazy [] []) (peer_call change))) }
    {
        match change {
            PeerChange::Up(node) => {
                if !self.eager.contains(&node) && !self.lazy.contains(&node) {
                    self.eager.insert(node)?;
                }
            }
            PeerChange::Down(node) => {
                self.eager.shift_remove(&node);
                self.lazy.shift_remove(&node);
            }
        }
        Ok(())
    }
}
