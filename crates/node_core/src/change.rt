//! What a change of an object brings with it: store and tree hold it, the peers are told, the
//! watches note it, and it isn't waited for any more. What can fail comes first; what is left, the
//! end of the attempt does.

ghost use Rattle.std.specs.Prelude.{◌≡◌, false, Some, All, IfOk, IfErr, IfSome, OnOk, OnErr, map};
ghost use Rattle.std.specs.FinMap.{find};
ghost use Rattle.meta_types.specs.Order.{key_cmp};
ghost use Rattle.meta_store.specs.Step.{is_full_for};
ghost use Rattle.meta_store.specs.Table.{IsHeld};
ghost use Rattle.plumtree.specs.Lawful.{MayBeSent};
ghost use Rattle.node_core.specs.Changing.{AreNews, HasRound, gossips, holding, noting, spreading};
ghost use Rattle.node_core.specs.Attempt.{Undoes, ended};
ghost use Rattle.node_overlay.specs.Origin.{HasOtherSender, envelope_with};
ghost use Rattle.node_overlay.specs.Outbox.{AreFramesOf};
ghost use Rattle.node_events.specs.declared.fault.StepFault.TheVariants.{Memory};

use crate::attempt::End;
use crate::state::NodeState;
use dvvset::{Entries, join};
use meta_types::MetaKey;
use node_events::{Outbox, StepFault};
use node_overlay::{Origin, gossips};
use plumtree::CastOut;
use subscriptions::News;

impl NodeState {
    /// Holds this object under the key of its news, and tells the peers. Returns what is left to
    /// do, and the frames. Fails only when memory runs out, and then all is as before.
    pub(crate) fn change(
        &mut self,
        origin: Origin,
        object: Entries,
        news: News,
    ) -> Result<(End, Outbox), StepFault>
        requires held { IsHeld object }
        requires news { AreNews news.change.key object self.old news }
        requires room { is_full_for self.old.table news.change.key ≡ false }
        requires another { HasOtherSender self.old.node origin }
        ensures end { IfOk result (λ told. ended told.0 self.new ≡ noting news.change
            (spreading origin news.change.key object self.old)) }
        ensures undo { IfOk result
            (λ told. Undoes self.old self.new (Some news.change.key) told.0) }
        ensures frames { let sent = gossips origin news.change.key object self.old in
            IfOk result (λ told. AreFramesOf self.old.node self.old.frames sent told.1) }
        ensures memory { IfErr result (λ fault. fault ≡ Memory) }
        ensures same { OnErr result (self.new ≡ self.old) }
    {
        // (for their types)
        let _ = self.overlay.views();
        let _ = self.held.store().len();
        let _ = news.key().key();
        reveal_round(&origin);
        let (pending, outs) = self.overlay.spread(origin, news.key(), news.vector())?;
        match self.hold(outs, news.key(), object) {
            Ok((before, outbox)) => {
                let end = End::Change {
                    news,
                    before,
                    overlay: Some(pending),
                };
                Ok((end, outbox))
            }
            Err(fault) => {
                self.overlay.take_back(pending);
                Err(fault)
            }
        }
    }

    /// Holds this object under the key of its news, without telling the peers. Returns what is left
    /// to do. Fails only when memory runs out, and then all is as before.
    pub(crate) fn change_quietly(&mut self, object: Entries, news: News) -> Result<End, StepFault>
        requires held { IsHeld object }
        requires news { AreNews news.change.key object self.old news }
        requires room { is_full_for self.old.table news.change.key ≡ false }
        ensures end { IfOk result (λ end. ended end self.new
            ≡ noting news.change (holding news.change.key object self.old)) }
        ensures undo { IfOk result (Undoes self.old self.new (Some news.change.key)) }
        ensures memory { IfErr result (λ fault. fault ≡ Memory) }
        ensures same { OnErr result (self.new ≡ self.old) }
    {
        // (for its type)
        let _ = self.held.store().len();
        let before = self.held.replace(news.key(), object)?;
        Ok(End::Change {
            news,
            before,
            overlay: None,
        })
    }

    /// Returns the news of this object under the key. Fails only when memory runs out.
    pub(crate) fn news(&self, key: &MetaKey, object: &Entries) -> Result<News, StepFault>
        ensures news { IfOk result (AreNews key.now object.now self.now) }
        ensures memory { IfErr result (λ fault. fault ≡ Memory) }
    {
        let vector = join(self.alloc, object)?;
        Ok(self.watches.news(key, vector)?)
    }

    /// Holds the object under the key, and returns what was held there before, and the frames that
    /// take the object to the peers. Fails only when memory runs out, and then nothing changes.
    fn hold(
        &mut self,
        outs: Vec<CastOut>,
        key: &MetaKey,
        object: Entries,
    ) -> Result<(Option<Entries>, Outbox), StepFault>
        requires held { IsHeld object }
        requires room { is_full_for self.old.table key.now ≡ false }
        requires may { All (MayBeSent self.old.node) outs.items }
        ensures node { OnOk result (self.new ≡ holding key.now object self.old) }
        ensures before { IfOk result
            (λ held. held.0 ≡ find key_cmp key.now self.old.table) }
        ensures lawful { IfOk result (λ held. IfSome held.0 IsHeld) }
        ensures frames { IfOk result (λ held. AreFramesOf self.old.node self.old.frames
            (map (envelope_with object) outs.items) held.1) }
        ensures memory { IfErr result (λ fault. fault ≡ Memory) }
        ensures same { OnErr result (self.new ≡ self.old) }
    {
        let sent = gossips(self.alloc, outs, &object)?;
        let outbox = self.outbox(sent)?;
        let before = self.held.replace(key, object)?;
        Ok((before, outbox))
    }
}

/// Does nothing: it reads the round for the range that its type keeps.
fn reveal_round(origin: &Origin)
    ensures { HasRound origin.now }
{
    if let Origin::Gossip { round, .. } = origin {
        let _round = *round;
    }
}
