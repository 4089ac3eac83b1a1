//! The messages of the broadcast that carry no object.

ghost use Rattle.std.specs.Prelude.{◌≡◌, ◌≢◌, true};
ghost use Rattle.meta_frame.specs.declared.message.Message.TheVariants.{Graft, IHave, Prune};
ghost use Rattle.meta_store.specs.Table.{is_stale};
ghost use Rattle.node_overlay.specs.Outbox.{IsSpelledVector};
ghost use Rattle.node_core.specs.Handling.{AttemptsMessage};

use crate::attempt::{Attempt, End};
use crate::state::NodeState;
use dvvset::Vector;
use meta_types::{MetaKey, NodeId};
use node_events::{Reply, StepFault};

impl NodeState {
    /// Takes an IHAVE: what isn't here is waited for.
    pub(crate) fn on_ihave(
        &mut self,
        from: NodeId,
        round: u16,
        key: &MetaKey,
        vector: &Vector,
    ) -> Result<Attempt, StepFault>
        requires another { from ≢ self.old.node }
        requires spelled { IsSpelledVector vector.now }
        ensures { AttemptsMessage self.old from 0 (IHave round key.now vector.now) result self.new }
    {
        let stale = self.held.store().is_stale(key, vector);
        let pending = self.overlay.on_ihave(from, round, key, vector, stale)?;
        Ok(Attempt {
            reply: Reply::Took,
            outbox: self.nothing_sent(),
            end: End::Overlay(pending),
        })
    }

    /// Takes a GRAFT: the sender is sent what it asks for, if it is here.
    pub(crate) fn on_graft(
        &mut self,
        from: NodeId,
        round: u16,
        key: &MetaKey,
        vector: &Vector,
    ) -> Result<Attempt, StepFault>
        requires another { from ≢ self.old.node }
        requires spelled { IsSpelledVector vector.now }
        ensures { AttemptsMessage self.old from 0 (Graft round key.now vector.now) result self.new }
    {
        let held = self.held.store().is_stale(key, vector);
        if held {
            self.on_held_graft(from, round, key, vector)
        } else {
            let pending = self.overlay.on_bare_graft(from, round, key)?;
            Ok(Attempt {
                reply: Reply::Took,
                outbox: self.nothing_sent(),
                end: End::Overlay(pending),
            })
        }
    }

    /// Takes a GRAFT whose vector, which has read something, is descended by what is held under the
    /// key.
    fn on_held_graft(
        &mut self,
        from: NodeId,
        round: u16,
        key: &MetaKey,
        vector: &Vector,
    ) -> Result<Attempt, StepFault>
        requires another { from ≢ self.old.node }
        requires spelled { IsSpelledVector vector.now }
        requires held { is_stale self.old.table key.now vector.now ≡ true }
        ensures { AttemptsMessage self.old from 0 (Graft round key.now vector.now) result self.new }
    {
        // Only the contract needs it.
        let _ = vector;
        let Some(object) = self.held.store().object(key) else {
            // This never happens: an absent object descends no vector that has read something.
            return Ok(Attempt {
                reply: Reply::Took,
                outbox: self.nothing_sent(),
                end: End::Count,
            });
        };
        let (alloc, number) = (self.alloc, self.frames);
        let (pending, outbox) = self
            .overlay
            .on_graft(alloc, number, from, round, key, object)?;
        Ok(Attempt {
            reply: Reply::Took,
            outbox,
            end: End::Overlay(pending),
        })
    }

    /// Takes a PRUNE: the sender wants only announcements.
    pub(crate) fn on_prune(&mut self, from: NodeId) -> Result<Attempt, StepFault>
        ensures { AttemptsMessage self.old from 0 Prune result self.new }
    {
        let pending = self.overlay.on_prune(from)?;
        Ok(Attempt {
            reply: Reply::Took,
            outbox: self.nothing_sent(),
            end: End::Overlay(pending),
        })
    }
}
