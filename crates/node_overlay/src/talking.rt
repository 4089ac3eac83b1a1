//! The calls of a node's broadcast. Each fails only when memory runs out, and then changes nothing.

ghost use Rattle.std.specs.Prelude.{◌≡◌, ◌≢◌, Ok, true, false, map, All, IfOk, OnOk, OnErr};
ghost use Rattle.meta_store.specs.Table.{IsHeld};
ghost use Rattle.plumtree.specs.Broadcast.{Changes, TakesGraft, TakesIHave, TakesPrune};
ghost use Rattle.plumtree.specs.Broadcast.{TakesStale};
ghost use Rattle.plumtree.specs.Lawful.{MayBeSent, MayCome};
ghost use Rattle.plumtree.specs.Savepoint.{rolled_back};
ghost use Rattle.node_overlay.specs.Origin.{call_of, envelope_with, whole_messages};
ghost use Rattle.node_overlay.specs.Outbox.{AreFramesOf, IsSpelledVector};
ghost use Rattle.node_overlay.specs.Overlay.{out_of, overlay_after_call};
ghost use Rattle.node_overlay.specs.Pending.{Pends};
ghost use Rattle.node_overlay.specs.declared.pending.Pending.TheVariants.{Called};

use crate::messages::{gossips, whole_messages};
use crate::origin::Origin;
use crate::overlay::Overlay;
use crate::pending::Pending;
use crate::sending::outbox;
use dvvset::{Entries, Vector};
use meta_types::{MetaKey, NodeId};
use node_events::Outbox;
use plumtree::{Cast, CastOut, Savepoint};
use std::alloc::{AllocError, Global};

impl Overlay {
    /// Broadcasts the object under the key, which changed. Returns what goes to whom.
    pub fn spread(
        &mut self,
        origin: Origin,
        key: &MetaKey,
        vector: &Vector,
    ) -> Result<(Pending, Vec<CastOut>), AllocError>
        requires { MayCome self.old.views.node (call_of origin key.now vector.now) }
        ensures pending { IfOk result (λ told. Pends told.0 self.old self.new
            (overlay_after_call (call_of origin key.now vector.now) self.old)) }
        ensures gives { IfOk result
            (λ told. told.1.items ≡ out_of (call_of origin key.now vector.now) self.old) }
        ensures may { IfOk result (λ told. All (MayBeSent self.old.views.node) told.1.items) }
        ensures unchanged { OnErr result (self.new ≡ self.old) }
    {
        let savepoint = self.cast.savepoint()?;
        let outs = self.call(origin, key, vector)?;
        Ok((Pending::Called(savepoint), outs))
    }

    /// Makes the call of the broadcast.
    fn call(
        &mut self,
        origin: Origin,
        key: &MetaKey,
        vector: &Vector,
    ) -> Result<Vec<CastOut>, AllocError>
        requires { MayCome self.old.views.node (call_of origin key.now vector.now) }
        ensures overlay { OnOk result
            (self.new ≡ overlay_after_call (call_of origin key.now vector.now) self.old) }
        ensures gives { IfOk result
            (λ outs. outs.items ≡ out_of (call_of origin key.now vector.now) self.old) }
        ensures may { IfOk result (λ outs. All (MayBeSent self.old.views.node) outs.items) }
        ensures unchanged { OnErr result (self.new ≡ self.old) }
    {
        match origin {
            Origin::Write => self.cast.on_broadcast(key, vector),
            Origin::Gossip { from, round } => self.cast.on_fresh(from, round, key, vector),
        }
    }

    /// Stops waiting for what the vector descends, since the object under the key changed. It never
    /// fails.
    pub fn on_change(&mut self, key: &MetaKey, vector: &Vector)
        ensures { self.new ≡ overlay_after_call (Changes key.now vector.now) self.old }
    {
        self.cast.on_change(key, vector);
    }

    /// Takes a GOSSIP that was stale: its sender becomes lazy, and is sent PRUNE. Returns the
    /// frames, numbered from the one after `number` on.
    pub fn on_stale(
        &mut self,
        alloc: Global,
        number: u64,
        from: NodeId,
    ) -> Result<(Pending, Outbox), AllocError>
        requires { from ≢ self.old.views.node }
        ensures pending { IfOk result (λ told. Pends told.0 self.old self.new
            (overlay_after_call (TakesStale from) self.old)) }
        ensures sends { IfOk result (λ told. AreFramesOf self.old.views.node number
            (whole_messages (out_of (TakesStale from) self.old)) told.1) }
        ensures unchanged { OnErr result (self.new ≡ self.old) }
    {
        let savepoint = self.cast.savepoint()?;
        let outs = self.cast.on_stale(from)?;
        let outbox = whole_outbox(alloc, self.views.node(), number, outs);
        or_take_back(&mut self.cast, savepoint, outbox)
    }

    /// Takes a PRUNE: its sender becomes lazy.
    pub fn on_prune(&mut self, from: NodeId) -> Result<Pending, AllocError>
        ensures pending { IfOk result (λ pending. Pends pending self.old self.new
            (overlay_after_call (TakesPrune from) self.old)) }
        ensures unchanged { OnErr result (self.new ≡ self.old) }
    {
        let savepoint = self.cast.savepoint()?;
        self.cast.on_prune(from)?;
        Ok(Pending::Called(savepoint))
    }

    /// Takes an IHAVE: unless it is stale, its object is waited for.
    pub fn on_ihave(
        &mut self,
        from: NodeId,
        round: u16,
        key: &MetaKey,
        vector: &Vector,
        stale: bool,
    ) -> Result<Pending, AllocError>
        requires another { from ≢ self.old.views.node }
        requires spelled { IsSpelledVector vector.now }
        ensures pending { IfOk result (λ pending. Pends pending self.old self.new
            (overlay_after_call (TakesIHave from round key.now vector.now stale) self.old)) }
        ensures unchanged { OnErr result (self.new ≡ self.old) }
    {
        // (for its type)
        let _ = key.key();
        let noted = self.cast.note_ihave(from, round, key, vector, stale)?;
        Ok(Pending::Noted(noted))
    }

    /// Takes a GRAFT of what is held: its sender becomes eager, and is sent the object. Returns the
    /// frames, numbered from the one after `number` on.
    pub fn on_graft(
        &mut self,
        alloc: Global,
        number: u64,
        from: NodeId,
        round: u16,
        key: &MetaKey,
        object: &Entries,
    ) -> Result<(Pending, Outbox), AllocError>
        requires another { from ≢ self.old.views.node }
        requires held { IsHeld object.now }
        ensures pending { IfOk result (λ told. Pends told.0 self.old self.new
            (overlay_after_call (TakesGraft from round key.now true) self.old)) }
        ensures sends { IfOk result (λ told. AreFramesOf self.old.views.node number
            (map (envelope_with object.now)
            (out_of (TakesGraft from round key.now true) self.old)) told.1) }
        ensures unchanged { OnErr result (self.new ≡ self.old) }
    {
        let savepoint = self.cast.savepoint()?;
        let outs = self.cast.on_graft(from, round, key, true)?;
        let outbox = object_outbox(alloc, self.views.node(), number, outs, object);
        or_take_back(&mut self.cast, savepoint, outbox)
    }

    /// Takes a GRAFT of what isn't held: its sender becomes eager, and is sent nothing.
    pub fn on_bare_graft(
        &mut self,
        from: NodeId,
        round: u16,
        key: &MetaKey,
    ) -> Result<Pending, AllocError>
        requires { from ≢ self.old.views.node }
        ensures pending { IfOk result (λ pending. Pends pending self.old self.new
            (overlay_after_call (TakesGraft from round key.now false) self.old)) }
        ensures unchanged { OnErr result (self.new ≡ self.old) }
    {
        let savepoint = self.cast.savepoint()?;
        self.cast.on_graft(from, round, key, false)?;
        Ok(Pending::Called(savepoint))
    }
}

/// Returns the frames of messages that are whole.
fn whole_outbox(
    alloc: Global,
    node: NodeId,
    number: u64,
    outs: Vec<CastOut>,
) -> Result<Outbox, AllocError>
    requires { All (MayBeSent node) outs.items }
    ensures { IfOk result (AreFramesOf node number (whole_messages outs.items)) }
{
    let sent = whole_messages(alloc, outs)?;
    outbox(alloc, node, number, sent)
}

/// Returns the frames of messages; each GOSSIP carries this object.
fn object_outbox(
    alloc: Global,
    node: NodeId,
    number: u64,
    outs: Vec<CastOut>,
    object: &Entries,
) -> Result<Outbox, AllocError>
    requires may { All (MayBeSent node) outs.items }
    requires held { IsHeld object.now }
    ensures { IfOk result
        (AreFramesOf node number (map (envelope_with object.now) outs.items)) }
{
    let sent = gossips(alloc, outs, object)?;
    outbox(alloc, node, number, sent)
}

/// Hands on the frames of a call of the broadcast, which is pending. If memory ran out, the
/// broadcast goes back to where it stood before the call.
fn or_take_back(
    cast: &mut Cast,
    savepoint: Savepoint,
    outbox: Result<Outbox, AllocError>,
) -> Result<(Pending, Outbox), AllocError>
    ensures pending { IfOk result (λ told. told.0 ≡ Called savepoint) }
    ensures outbox { IfOk result (λ told. outbox ≡ Ok told.1) }
    ensures kept { OnOk result (cast.new ≡ cast.old) }
    ensures back { OnErr result (cast.new ≡ rolled_back savepoint cast.old) }
{
    match outbox {
        Ok(outbox) => Ok((Pending::Called(savepoint), outbox)),
        Err(error) => {
            cast.roll_back(savepoint);
            Err(error)
        }
    }
}
