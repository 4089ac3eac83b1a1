ghost use Rattle.std.specs.Prelude.{◌≡◌, ◌↔◌, [], IfOk, IsTrue, OnOk, OnErr};
ghost use Rattle.plumtree.specs.Broadcast.{Broadcasts, Changes, Down, IsCall, TakesFresh};
ghost use Rattle.plumtree.specs.Broadcast.{TakesGraft, TakesIHave, TakesPrune, TakesStale, Tick, Up};
ghost use Rattle.plumtree.specs.Broadcast.{gossip_call};
ghost use Rattle.plumtree.specs.Savepoint.{with_noted_back};

use crate::entry::{Announcement, Announcer, CastOut, MissingObject, Noted};
use crate::links::{become_eager, become_lazy};
use crate::missing::{
    announcements, copy_missing, copy_queue, gossips, leave_known, leave_queue, lose_announcer,
    note,
};
use dvvset::Vector;
use indexmap::IndexSet;
use meta_frame::Message;
use meta_types::{MetaKey, NodeId};
use peer_lists::without_all;
use std::alloc::{AllocError, Global};
use std::marker::Model;

/// The broadcast of a node: its eager and its lazy peers, what it will announce at the next tick,
/// and what it waits for. A peer stands in one of the two lists, once.
///
/// `down` and `on_change` take no memory and never fail. Each other call that changes something
/// fails only when memory runs out, and then all is as before.
///
/// A round counts how often an object was passed on, and stays at 65,535.
#[derive(Drop)]
pub struct Cast {
    pub(crate) alloc: Global,
    pub(crate) eager: IndexSet<NodeId>,
    pub(crate) lazy: IndexSet<NodeId>,
    pub(crate) queue: Vec<Announcement>,
    pub(crate) missing: Vec<MissingObject>,
}

impl Model for Cast {
    ghost use Rattle.plumtree.specs.Broadcast.{Broadcast};
    ghost use Rattle.plumtree.specs.Lawful.{AreLinks};

    ghost Value = { Broadcast };

    ghost view = { λ c. record {
      eager = c.eager.keys;
      lazy = c.lazy.keys;
      queue = c.queue.items;
      missing = c.missing.items;
    } };

    ghost invariant = { λ c. AreLinks c.eager.keys c.lazy.keys };
}

impl Cast {
    ghost use Rattle.plumtree.specs.Broadcast.{broadcast_of, draft_of, empty};
    ghost use Rattle.plumtree.specs.Draft.{becomes_lazy};
    ghost use Rattle.plumtree.specs.Lawful.{AreLinks};

    /// Makes the broadcast of a node without peers. It takes no memory.
    pub fn new(alloc: Global) -> Self
        ensures { result ≡ empty }
    {
        Cast {
            alloc,
            eager: IndexSet::new(alloc),
            lazy: IndexSet::new(alloc),
            queue: Vec::new(alloc),
            missing: Vec::new(alloc),
        }
    }

    /// Returns whether it has no peer and nothing to announce, and waits for nothing, as a new one.
    pub fn is_new(&self) -> bool
        ensures { IsTrue result ↔ (self.now ≡ empty) }
    {
        let has_no_peer = self.eager.is_empty() && self.lazy.is_empty();
        has_no_peer && self.queue.is_empty() && self.missing.is_empty()
    }

    /// Returns the peers that get objects at once, in their order.
    pub fn eager(&self) -> &[NodeId]
        ensures value { result.now ≡ self.now.eager }
        ensures lawful { AreLinks self.now.eager self.now.lazy }
    {
        self.eager.as_slice()
    }

    /// Returns the peers that get announcements, in their order.
    pub fn lazy(&self) -> &[NodeId]
        ensures value { result.now ≡ self.now.lazy }
        ensures lawful { AreLinks self.now.eager self.now.lazy }
    {
        self.lazy.as_slice()
    }

    /// Adds a node that became a peer, as an eager one.
    #[tactic(auto, unfolding(crate::specs::Rows::up))]
    pub fn up(&mut self, node: NodeId) -> Result<(), AllocError>
        ensures row { OnOk result (IsCall (Up node) self.old self.new []) }
        ensures unchanged { OnErr result (self.new ≡ self.old) }
    {
        if !self.eager.contains(&node) && !self.lazy.contains(&node) {
            self.eager.insert(node)?;
        }
        Ok(())
    }

    /// Takes out a node that is no longer a peer.
    #[tactic(auto, unfolding(crate::specs::Rows::down))]
    pub fn down(&mut self, node: NodeId)
        ensures { IsCall (Down node) self.old self.new [] }
    {
        self.eager.shift_remove(&node);
        self.lazy.shift_remove(&node);
        leave_queue(&mut self.queue, node);
        lose_announcer(&mut self.missing, node);
    }

    /// Broadcasts a write of the node under the key. The node's context of the key is now this
    /// vector.
    #[tactic(auto, unfolding(crate::specs::Rows::on_broadcast))]
    pub fn on_broadcast(
        &mut self,
        key: &MetaKey,
        vector: &Vector,
    ) -> Result<Vec<CastOut>, AllocError>
        ensures row { IfOk result
            (λ out. IsCall (Broadcasts key.now vector.now) self.old self.new out.items) }
        ensures unchanged { OnErr result (self.new ≡ self.old) }
    {
        let out = gossips(self.alloc, self.eager.as_slice(), 0, key)?;
        let mut queue = announcements(self.alloc, self.lazy.as_slice(), 0, key, vector)?;
        self.queue.append(&mut queue)?;
        Ok(out)
    }

    /// Takes a GOSSIP, by one of the two rows below. `fresh` says whether its object was fresh. The
    /// node's context of the key is now `own_vector`.
    pub fn on_gossip(
        &mut self,
        from: NodeId,
        round: u16,
        key: &MetaKey,
        own_vector: &Vector,
        fresh: bool,
    ) -> Result<Vec<CastOut>, AllocError>
        ensures row { IfOk result (λ out. IsCall
            (gossip_call from round key.now own_vector.now fresh) self.old self.new out.items) }
        ensures unchanged { OnErr result (self.new ≡ self.old) }
    {
        if fresh {
            self.on_fresh(from, round, key, own_vector)
        } else {
            self.on_stale(from)
        }
    }

    /// Takes a GOSSIP whose object was fresh and is merged: it is passed on to all peers except its
    /// sender.
    #[tactic(auto, unfolding(crate::specs::Rows::on_fresh))]
    pub fn on_fresh(
        &mut self,
        from: NodeId,
        round: u16,
        key: &MetaKey,
        own_vector: &Vector,
    ) -> Result<Vec<CastOut>, AllocError>
        ensures row { IfOk result (λ out. IsCall
            (TakesFresh from round key.now own_vector.now) self.old self.new out.items) }
        ensures unchanged { OnErr result (self.new ≡ self.old) }
    {
        let round = round.saturating_add(1);
        let eager = without_all(self.alloc, self.eager.as_slice(), &[from])?;
        let out = gossips(self.alloc, &eager, round, key)?;
        let lazy = without_all(self.alloc, self.lazy.as_slice(), &[from])?;
        let mut queue = announcements(self.alloc, &lazy, round, key, own_vector)?;
        self.eager.reserve(1)?;
        self.queue.append(&mut queue)?;
        become_eager(from, &mut self.eager, &mut self.lazy);
        Ok(out)
    }

    /// Takes a GOSSIP whose object was stale: it goes nowhere, and its sender is sent PRUNE.
    #[tactic(auto, unfolding(crate::specs::Rows::on_stale))]
    pub fn on_stale(&mut self, from: NodeId) -> Result<Vec<CastOut>, AllocError>
        ensures row { IfOk result
            (λ out. IsCall (TakesStale from) self.old self.new out.items) }
        ensures unchanged { OnErr result (self.new ≡ self.old) }
    {
        let mut out = Vec::new(self.alloc);
        out.push(CastOut::Send(from, Message::Prune))?;
        self.make_lazy(from)?;
        Ok(out)
    }

    /// Takes a PRUNE: its sender becomes lazy.
    #[tactic(auto, unfolding(crate::specs::Rows::on_prune))]
    pub fn on_prune(&mut self, from: NodeId) -> Result<Vec<CastOut>, AllocError>
        ensures row { IfOk result
            (λ out. IsCall (TakesPrune from) self.old self.new out.items) }
        ensures unchanged { OnErr result (self.new ≡ self.old) }
    {
        self.make_lazy(from)?;
        Ok(Vec::new(self.alloc))
    }

    fn make_lazy(&mut self, node: NodeId) -> Result<(), AllocError>
        ensures lazy { OnOk result
            (self.new ≡ broadcast_of (becomes_lazy node (draft_of self.old))) }
        ensures unchanged { OnErr result (self.new ≡ self.old) }
    {
        self.lazy.reserve(1)?;
        become_lazy(node, &mut self.eager, &mut self.lazy);
        Ok(())
    }

    /// Takes an IHAVE: unless it is stale, its object is waited for. `stale` says whether the
    /// node's context of the key descends the vector.
    pub fn on_ihave(
        &mut self,
        from: NodeId,
        round: u16,
        key: &MetaKey,
        vector: &Vector,
        stale: bool,
    ) -> Result<Vec<CastOut>, AllocError>
        ensures row { IfOk result (λ out. IsCall
            (TakesIHave from round key.now vector.now stale) self.old self.new out.items) }
        ensures unchanged { OnErr result (self.new ≡ self.old) }
    {
        self.note_ihave(from, round, key, vector, stale)?;
        Ok(Vec::new(self.alloc))
    }

    /// Takes an IHAVE, as `on_ihave` does. Returns what `take_back_ihave` takes to take this back.
    #[tactic(auto, unfolding(crate::specs::Rows::on_ihave))]
    pub fn note_ihave(
        &mut self,
        from: NodeId,
        round: u16,
        key: &MetaKey,
        vector: &Vector,
        stale: bool,
    ) -> Result<Noted, AllocError>
        ensures row { OnOk result (IsCall
            (TakesIHave from round key.now vector.now stale) self.old self.new []) }
        ensures back { IfOk result (λ noted. with_noted_back noted self.new ≡ self.old) }
        ensures unchanged { OnErr result (self.new ≡ self.old) }
    {
        if stale {
            return Ok(Noted::Nothing);
        }
        let announcer = Announcer { peer: from, round };
        note(self.alloc, &mut self.missing, announcer, key, vector)
    }

    /// Takes a GRAFT: its sender becomes eager, and is sent the object if it is held. `held` says
    /// whether the node's context of the key descends the vector that was asked for.
    #[tactic(auto, unfolding(crate::specs::Rows::on_graft))]
    pub fn on_graft(
        &mut self,
        from: NodeId,
        round: u16,
        key: &MetaKey,
        held: bool,
    ) -> Result<Vec<CastOut>, AllocError>
        ensures row { IfOk result (λ out. IsCall
            (TakesGraft from round key.now held) self.old self.new out.items) }
        ensures unchanged { OnErr result (self.new ≡ self.old) }
    {
        let out = if held {
            gossips(self.alloc, &[from], round, key)?
        } else {
            Vec::new(self.alloc)
        };
        self.eager.reserve(1)?;
        become_eager(from, &mut self.eager, &mut self.lazy);
        Ok(out)
    }

    /// Stops waiting for what this vector descends: the object under the key changed, by a write or
    /// a fresh merge, and the node's context of the key is now this vector. It is called before
    /// what the same change sends.
    #[tactic(auto, unfolding(crate::specs::Rows::on_change))]
    pub fn on_change(&mut self, key: &MetaKey, vector: &Vector)
        ensures { IsCall (Changes key.now vector.now) self.old self.new [] }
    {
        leave_known(&mut self.missing, key, vector);
    }

    /// Makes a tick: announcements go out, and what is overdue is asked for. What waits is changed
    /// in place.
    pub fn on_tick(&mut self) -> Result<Vec<CastOut>, AllocError>
        ensures row { IfOk result (λ out. IsCall Tick self.old self.new out.items) }
        ensures unchanged { OnErr result (self.new ≡ self.old) }
    {
        let (peers, out) = self.foresee_tick()?;
        self.make_tick(peers);
        Ok(out)
    }

    /// Fails only when memory runs out.
    pub fn copy(&self) -> Result<Self, AllocError>
        ensures { IfOk result (λ copy. copy ≡ self.now) }
    {
        Ok(Cast {
            alloc: self.alloc,
            eager: self.eager.clone()?,
            lazy: self.lazy.clone()?,
            queue: copy_queue(self.alloc, self.queue.as_slice())?,
            missing: copy_missing(self.alloc, self.missing.as_slice())?,
        })
    }
}
