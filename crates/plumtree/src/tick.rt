//! A tick, in two steps. What it gives out, and who is eager and lazy after it, is made first,
//! beside the broadcast: that takes memory and may fail. Then what waits is changed in place.

ghost use Rattle.std.specs.Prelude.{◌≡◌, IfOk, OnOk};
ghost use Rattle.plumtree.specs.Broadcast.{Tick, draft_of, row};
ghost use Rattle.plumtree.specs.Lawful.{after_call};
ghost use Rattle.plumtree.specs.Ticking.{peers_of, with_peers};

use crate::cast::Cast;
use crate::entry::{Announcer, CastOut, MissingObject};
use crate::foreseen::Foreseen;
use crate::links::become_eager;
use crate::missing::{announced, lose_ticks};
use indexmap::IndexSet;
use meta_frame::Message;
use meta_types::NodeId;
use std::alloc::AllocError;
use std::marker::Model;

impl Cast {
    ghost use Rattle.plumtree.specs.Rows.{none_missing, send_announcements};
    ghost use Rattle.plumtree.specs.Ticking.{graft_each};

    /// Returns what a tick gives out, and the peers after it, for `make_tick`; the broadcast stays
    /// as it is. Fails only when memory runs out.
    pub fn foresee_tick(&self) -> Result<(Foreseen, Vec<CastOut>), AllocError>
        ensures peers { IfOk result (λ seen. seen.0 ≡ peers_of (after_call self.now Tick)) }
        ensures out { IfOk result (λ seen. seen.1.items ≡ (row Tick (draft_of self.now)).out) }
    {
        let draft = self.tick_draft()?;
        let peers = Foreseen {
            eager: draft.eager,
            lazy: draft.lazy,
        };
        Ok((peers, draft.out))
    }

    /// Makes the tick that was foreseen. It never fails, takes no memory, and copies nothing of
    /// what waits.
    pub fn make_tick(&mut self, peers: Foreseen)
        ensures { self.new ≡ with_peers peers (after_call self.old Tick) }
    {
        self.eager = peers.eager;
        self.lazy = peers.lazy;
        self.queue.clear();
        lose_ticks(&mut self.missing);
    }

    /// Returns all that goes out at a tick: what is announced, and then what is asked for.
    fn tick_draft(&self) -> Result<Draft, AllocError>
        ensures { IfOk result (λ draft. draft
            ≡ graft_each self.now.missing (none_missing (send_announcements (draft_of self.now)))) }
    {
        let mut draft = Draft {
            eager: self.eager.clone()?,
            lazy: self.lazy.clone()?,
            out: announced(self.alloc, self.queue.as_slice())?,
        };
        draft.graft_each(self.missing.as_slice())?;
        Ok(draft)
    }
}

/// The broadcast in the midst of a tick, whose announcements have gone out; what waits isn't in it.
/// A tick that fails drops it.
#[derive(Drop)]
pub(crate) struct Draft {
    eager: IndexSet<NodeId>,
    lazy: IndexSet<NodeId>,
    out: Vec<CastOut>,
}

impl Model for Draft {
    ghost use Rattle.std.specs.Prelude.{[]};
    ghost use Rattle.plumtree.specs.Draft.{Draft as InTheMidst};
    ghost use Rattle.plumtree.specs.Lawful.{AreLinks};

    ghost Value = { InTheMidst };

    ghost view = { λ d. record {
      eager = d.eager.keys;
      lazy = d.lazy.keys;
      queue = [];
      missing = [];
      out = d.out.items;
    } };

    ghost invariant = { λ d. AreLinks d.eager.keys d.lazy.keys };
}

impl Draft {
    ghost use Rattle.meta_frame.specs.declared.message.Message.TheVariants.{Graft};
    ghost use Rattle.plumtree.specs.Draft.{becomes_eager, send};
    ghost use Rattle.meta_types.specs.Chain.{◌▷◌};
    ghost use Rattle.plumtree.specs.Ticking.{graft_each, graft_one};

    /// Asks for each missing object whose last tick this is, in order.
    fn graft_each(&mut self, missing: &[MissingObject]) -> Result<(), AllocError>
        ensures { OnOk result (self.new ≡ graft_each missing.now self.old) }
    {
        for object in missing {
            self.graft_one(object)?;
        }
        Ok(())
    }

    /// Asks the first that announced the object for it, if this tick is its last.
    #[tactic(auto, unfolding(crate::specs::Ticking::graft_one))]
    fn graft_one(&mut self, object: &MissingObject) -> Result<(), AllocError>
        ensures { OnOk result (self.new ≡ graft_one object.now self.old) }
    {
        if object.ticks > 1 {
            return Ok(());
        }
        match object.announcers.as_slice() {
            [] => Ok(()),
            [first, ..] => self.graft(object, *first),
        }
    }

    /// Asks an announcer for the object. It becomes eager.
    fn graft(&mut self, object: &MissingObject, announcer: Announcer) -> Result<(), AllocError>
        ensures { OnOk result (self.new ≡ (self.old ▷ becomes_eager announcer.peer
            ▷ send announcer.peer (Graft announcer.round object.now.key object.now.vector))) }
    {
        let key = object.key.copy()?;
        let vector = object.vector.copy()?;
        let round = announcer.round;
        self.eager.reserve(1)?;
        become_eager(announcer.peer, &mut self.eager, &mut self.lazy);
        self.out.push(CastOut::Send(announcer.peer, Message::Graft { round, key, vector }))?;
        Ok(())
    }
}
