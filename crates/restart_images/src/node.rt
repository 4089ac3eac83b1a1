ghost use Rattle.std.specs.Prelude.{◌≡◌, ◌<◌, ◌≤◌, length, IfOk, IfErr, OnOk, OnErr};
ghost use Rattle.std.specs.Option.{option_map};
ghost use Rattle.meta_store.specs.Table.{IsTable};
ghost use Rattle.node_events.specs.Event.{stored_key};
ghost use Rattle.node_core.specs.Step.{CanComeOf};
ghost use Rattle.restart_images.specs.Keeping.{IsRestorable, change_at, most_incarnation};
ghost use Rattle.restart_images.specs.Node.{IsImagedStep, IsRestarted, context_read, images_with, keeping, new_node, standing_with};

use crate::Images;
use crate::restore::restore;
use meta_store::{Context, Store};
use meta_types::NodeId;
use node_core::{NodeState, Stepped};
use node_events::{NodeEvent, Outbox, Reply, StepFault};
use std::alloc::{AllocError, Global};
use std::marker::Model;
use std::mem::replace;

/// What a step of a node gives to whoever keeps it: what the step itself gave, the reply once more,
/// and the context of the read that it made, if it made one.
#[derive(Debug, Drop)]
pub struct ImagedStep {
    pub reply: Reply,
    pub copy: Reply,
    pub context: Option<Context>,
    pub outbox: Outbox,
}

/// A node with its images, and the number of the standing one, which the next image changes: the
/// one that was made last, or the one from which the node was restarted if that came later.
#[derive(Drop)]
pub struct ImagedNode {
    state: NodeState,
    images: Images,
    standing: usize,
}

impl Model for ImagedNode {
    ghost use Rattle.restart_images.specs.Keeping.{IsRestorable};
    ghost use Rattle.restart_images.specs.Node.{ImagedNode as Parts, keeping, with_images};

    ghost Value = { Parts };

    ghost view = { λ n. with_images n.state n.images n.standing };

    ghost invariant = { λ n. IsRestorable (keeping (with_images n.state n.images
        n.standing)) };
}

impl ImagedNode {
    /// Makes a node in its first life, which holds nothing and has no image except the empty one.
    /// Fails only when memory runs out.
    pub fn new(alloc: Global, number: NodeId) -> Result<Self, AllocError>
        ensures { IfOk result (λ node. node ≡ new_node number) }
    {
        Ok(ImagedNode {
            state: NodeState::new(alloc, number, 1)?,
            images: Images::new(alloc),
            standing: 0,
        })
    }

    pub fn state(&self) -> &NodeState
        ensures { result.now ≡ self.now.state }
    {
        &self.state
    }

    /// Returns the images, except image 0, which is empty.
    pub fn images(&self) -> &Images
        ensures value { result.now ≡ self.now.images }
        ensures restorable { IsRestorable (keeping self.now) }
    {
        &self.images
    }

    /// Makes the step of an event, as the node itself does; a write and a keeping leave an image of
    /// what is then held under their key. Refused as `NodeState::step` is; then nothing changes.
    pub fn step(&mut self, event: NodeEvent) -> Result<ImagedStep, StepFault>
        ensures step { IfOk result (IsImagedStep self.old event self.new) }
        ensures held { OnOk result (IsTable self.new.state.table) }
        ensures restorable { IsRestorable (keeping self.old) }
        ensures refused { IfErr result (CanComeOf self.old.state event) }
        ensures same { OnErr result (self.new ≡ self.old) }
    {
        // The event is dropped at the only way out, so that the proof has one case for it.
        let stepped = self.step_on(&event);
        drop(event);
        stepped
    }

    /// Makes the step of an event that stays the caller's.
    fn step_on(&mut self, event: &NodeEvent) -> Result<ImagedStep, StepFault>
        ensures step { IfOk result (IsImagedStep self.old event.now self.new) }
        ensures held { OnOk result (IsTable self.new.state.table) }
        ensures restorable { IsRestorable (keeping self.old) }
        ensures refused { IfErr result (CanComeOf self.old.state event.now) }
        ensures same { OnErr result (self.new ≡ self.old) }
    {
        let context = context_read(&self.state, event)?;
        let attempt = self.state.attempt(event)?;
        let store = self.state.store();
        match keep(
            &mut self.images,
            self.standing,
            store,
            event,
            attempt.reply(),
        ) {
            Ok((copy, standing)) => {
                let Stepped { reply, outbox } = self.state.commit(attempt);
                // (for its type)
                let _few = self.state.store().len();
                self.standing = standing;
                Ok(ImagedStep {
                    reply,
                    copy,
                    context,
                    outbox,
                })
            }
            Err(_) => {
                self.state.take_back(attempt);
                Err(StepFault::Memory)
            }
        }
    }

    /// Begins the next life from the image of that number, with a store that holds what the image
    /// has; the images stay. Fails only when memory runs out, and then nothing changes.
    pub fn restart(&mut self, number: usize) -> Result<(), AllocError>
        requires number { number ≤ length self.old.images }
        requires left { self.old.state.incarnation < most_incarnation }
        ensures restarted { OnOk result (IsRestarted self.old number self.new) }
        ensures same { OnErr result (self.new ≡ self.old) }
    {
        let alloc = self.images.alloc();
        let store = restore(alloc, &self.images, number)?;
        // (for its type)
        let _few = store.len();
        let life = self.state.incarnation() + 1;
        let state = NodeState::from_store(alloc, self.state.node(), life, store)?;
        drop(replace(&mut self.state, state));
        self.standing = number;
        Ok(())
    }
}

/// Returns the context that an event reads with, if it reads.
fn context_read(state: &NodeState, event: &NodeEvent) -> Result<Option<Context>, AllocError>
    ensures { IfOk result (λ context. context ≡ context_read event.now state.now) }
{
    match event {
        NodeEvent::Read { key } | NodeEvent::PutOver { key, .. } => {
            Ok(Some(state.store().context(key, state.source())?))
        }
        _ => Ok(None),
    }
}

/// Returns a copy of the reply, and which image stands then; if the event leaves an image, it is
/// added, with what the store holds under its key. If memory runs out, nothing changes.
fn keep(
    images: &mut Images,
    standing: usize,
    store: &Store,
    event: &NodeEvent,
    reply: &Reply,
) -> Result<(Reply, usize), AllocError>
    ensures copy { IfOk result (λ kept. kept.0 ≡ reply.now) }
    ensures images { let left = option_map (change_at store.now) (stored_key event.now) in
        OnOk result (images.new ≡ images_with left standing images.old) }
    ensures standing { let left = option_map (change_at store.now) (stored_key event.now) in
        IfOk result (λ kept. kept.1 ≡ standing_with left standing images.old) }
    ensures same { OnErr result (images.new ≡ images.old) }
{
    let copy = reply.copy()?;
    let standing = add(images, standing, store, event)?;
    Ok((copy, standing))
}

/// Adds an image, if the event leaves one: it changes the standing one. Returns which one stands
/// then.
fn add(
    images: &mut Images,
    standing: usize,
    store: &Store,
    event: &NodeEvent,
) -> Result<usize, AllocError>
    ensures images { let left = option_map (change_at store.now) (stored_key event.now) in
        OnOk result (images.new ≡ images_with left standing images.old) }
    ensures standing { let left = option_map (change_at store.now) (stored_key event.now) in
        IfOk result (λ number. number ≡ standing_with left standing images.old) }
    ensures same { OnErr result (images.new ≡ images.old) }
{
    // (for its type)
    let _ = store.len();
    match event.stored_key() {
        Some(key) => {
            images.push(standing, key, store.object(key))?;
            Ok(images.len())
        }
        None => Ok(standing),
    }
}
