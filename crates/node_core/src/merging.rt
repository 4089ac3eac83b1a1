//! Objects that come, in a GOSSIP or in an exchange.

ghost use Rattle.std.specs.Prelude.{◌≡◌, ◌≢◌, true};
ghost use Rattle.dvvset.specs.Clock.{join};
ghost use Rattle.frame_fields.specs.Field.{object};
ghost use Rattle.meta_frame.specs.declared.message.Message.TheVariants.{Gossip, XObject};
ghost use Rattle.meta_store.specs.Table.{is_stale};
ghost use Rattle.node_core.specs.Handling.{AttemptsMessage};

use crate::attempt::{Attempt, End};
use crate::state::NodeState;
use dvvset::Entries;
use meta_types::{MetaKey, NodeId};
use node_events::{Reply, StepFault};
use node_overlay::Origin;

impl NodeState {
    /// Takes a GOSSIP: what wasn't known is merged and passed on.
    pub(crate) fn on_gossip(
        &mut self,
        from: NodeId,
        round: u16,
        key: &MetaKey,
        came: &Entries,
    ) -> Result<Attempt, StepFault>
        requires another { from ≢ self.old.node }
        requires spelled { object.Fits came.now }
        ensures { AttemptsMessage self.old from 0 (Gossip round key.now came.now) result self.new }
    {
        match self.held.store().preview_merge(key, came)? {
            Some(object) => {
                let news = self.news(key, &object)?;
                let (end, outbox) = self.change(Origin::Gossip { from, round }, object, news)?;
                Ok(Attempt {
                    reply: Reply::TookFresh,
                    outbox,
                    end,
                })
            }
            None => self.on_stale(from, round, key, came),
        }
    }

    /// Takes a GOSSIP that brought nothing new: its sender is sent PRUNE.
    fn on_stale(
        &mut self,
        from: NodeId,
        round: u16,
        key: &MetaKey,
        came: &Entries,
    ) -> Result<Attempt, StepFault>
        requires another { from ≢ self.old.node }
        requires stale { is_stale self.old.table key.now (join came.now) ≡ true }
        ensures { AttemptsMessage self.old from 0 (Gossip round key.now came.now) result self.new }
    {
        // Only the contract needs these.
        let _ = round;
        let _ = key;
        let _ = came;
        let (pending, outbox) = self.overlay.on_stale(self.alloc, self.frames, from)?;
        Ok(Attempt {
            reply: Reply::TookStale,
            outbox,
            end: End::Overlay(pending),
        })
    }

    /// Takes an XOBJECT: what wasn't known is merged, and not passed on.
    pub(crate) fn on_object(&mut self, key: &MetaKey, came: &Entries) -> Result<Attempt, StepFault>
        ensures { AttemptsMessage self.old 0 0 (XObject key.now came.now) result self.new }
    {
        match self.held.store().preview_merge(key, came)? {
            Some(object) => {
                let news = self.news(key, &object)?;
                let end = self.change_quietly(object, news)?;
                Ok(Attempt {
                    reply: Reply::TookFresh,
                    outbox: self.nothing_sent(),
                    end,
                })
            }
            None => Ok(Attempt {
                reply: Reply::TookStale,
                outbox: self.nothing_sent(),
                end: End::Count,
            }),
        }
    }
}
