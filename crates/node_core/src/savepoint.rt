//! Several steps of which all are made, or none. A savepoint has what it takes to undo the steps
//! that are made since.

ghost use Rattle.std.specs.Prelude.{◌≡◌, ◌≢◌, None, IfOk, IfErr, IfSome, OnOk, OnErr};
ghost use Rattle.std.specs.FinMap.{find};
ghost use Rattle.std.specs.Option.{option_copied};
ghost use Rattle.meta_types.specs.Order.{key_cmp};
ghost use Rattle.meta_store.specs.Table.{IsHeld, with_former};
ghost use Rattle.node_core.specs.Savepoint.{CanHoldAgain, CanRollBack, held_again, as_saved, with_formers_of};
ghost use Rattle.node_core.specs.Step.{IsNodeStep, Rejects};

use crate::attempt::{Attempt, End};
use crate::state::{NodeState, Stepped};
use dvvset::Entries;
use hash_tree::Held;
use meta_types::node::MAX_NODES;
use meta_types::{MetaKey, both};
use node_events::{NodeEvent, StepFault};
use node_overlay::Overlay;
use std::alloc::AllocError;
use std::marker::Model;
use subscriptions::Watches;

/// What a node was, beside what it holds, and what each key held that changed since. If it is
/// dropped, the steps since stay made.
#[derive(Drop)]
pub struct Savepoint {
    overlay: Overlay,
    watches: Watches,
    heard: [u32; MAX_NODES as usize],
    steps: u64,
    frames: u64,
    ticks: u64,
    /// In the order of the steps; a key stands there once for each change.
    formers: Vec<Former>,
}

/// A key, and what it held before it changed.
#[derive(Drop)]
pub(crate) struct Former {
    key: MetaKey,
    before: Option<Entries>,
}

impl Model for Savepoint {
    ghost use Rattle.node_core.specs.Savepoint.{SavepointParts};

    ghost Value = { SavepointParts };

    ghost view = { λ p. record {
      overlay = p.overlay;
      watches = p.watches;
      heard = p.heard;
      steps = p.steps;
      frames = p.frames;
      ticks = p.ticks;
      formers = p.formers.items;
    } };
}

impl Savepoint {
    /// Notes what the key held whose object the attempt changed, if it changed one. Fails only when
    /// memory runs out.
    fn note(&mut self, attempt: &Attempt) -> Result<(), AllocError>
        ensures noted { OnOk result (self.new ≡ with_formers_of attempt.now self.old) }
        ensures same { OnErr result (self.new ≡ self.old) }
    {
        if let End::Change { news, before, .. } = &attempt.end {
            let former = Former::of(news.key(), before.as_ref())?;
            self.formers.push(former)?;
        }
        Ok(())
    }
}

impl Former {
    /// Copies both. Fails only when memory runs out.
    fn of(key: &MetaKey, before: Option<&Entries>) -> Result<Former, AllocError>
        ensures { IfOk result
            (λ former. former ≡ record { key = key.now; before = option_copied before.entry }) }
    {
        let before = match before {
            Some(object) => Some(object.copy()?),
            None => None,
        };
        let (key, before) = both(key.copy(), Ok(before))?;
        Ok(Former { key, before })
    }

    /// Has the key hold what it held before.
    fn hold_again(self, held: &mut Held)
        requires there { find key_cmp self.key held.old ≢ None }
        requires lawful { IfSome self.before IsHeld }
        ensures { held.new ≡ with_former self.key self.before held.old }
    {
        let Former { key, before } = self;
        held.put_back(&key, before);
        drop(key);
    }
}

impl NodeState {
    /// Returns a savepoint. Fails only when memory runs out.
    pub fn savepoint(&self) -> Result<Savepoint, AllocError>
        ensures can { IfOk result (λ savepoint. CanRollBack savepoint self.now) }
        ensures back { IfOk result (λ savepoint. as_saved savepoint self.now ≡ self.now) }
    {
        let (overlay, watches) = both(self.overlay.copy(), self.watches.copy())?;
        Ok(Savepoint {
            overlay,
            watches,
            heard: self.heard,
            steps: self.steps,
            frames: self.frames,
            ticks: self.ticks,
            formers: Vec::new(self.alloc),
        })
    }

    /// Makes the step of an event, so that it can be taken back with all others since the
    /// savepoint. Refused as `step` is.
    pub fn step_since(
        &mut self,
        savepoint: &mut Savepoint,
        event: &NodeEvent,
    ) -> Result<Stepped, StepFault>
        requires { CanRollBack savepoint.old self.old }
        ensures step { IfOk result (IsNodeStep self.old event.now self.new) }
        ensures refused { IfErr result (λ fault. Rejects self.old event.now fault self.new) }
        ensures can { CanRollBack savepoint.new self.new }
        ensures back { as_saved savepoint.new self.new ≡ as_saved savepoint.old self.old }
    {
        let attempt = self.attempt(event)?;
        match savepoint.note(&attempt) {
            Ok(()) => Ok(self.commit(attempt)),
            Err(AllocError) => {
                self.take_back(attempt);
                Err(StepFault::Memory)
            }
        }
    }

    /// Takes back all steps that `step_since` made with it: the node is what it was. It takes no
    /// memory.
    pub fn roll_back(&mut self, savepoint: Savepoint)
        requires { CanRollBack savepoint self.old }
        ensures { self.new ≡ as_saved savepoint self.old }
    {
        let Savepoint {
            overlay,
            watches,
            heard,
            steps,
            frames,
            ticks,
            formers,
        } = savepoint;
        hold_again(&mut self.held, formers);
        self.overlay = overlay;
        self.watches = watches;
        self.heard = heard;
        self.steps = steps;
        self.frames = frames;
        self.ticks = ticks;
    }
}

/// Has each key hold what it held before, the last change first.
fn hold_again(held: &mut Held, formers: Vec<Former>)
    requires { CanHoldAgain formers.items held.old }
    ensures { held.new ≡ held_again formers.items held.old }
{
    let mut formers = formers;
    while let Some(former) = formers.pop() {
        former.hold_again(held);
    }
}
