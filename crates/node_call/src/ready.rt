//! What is made ready for an entry, so that keeping it can't fail.

ghost use Rattle.std.specs.Prelude.{◌≡◌, ◌≢◌, ◌<◌, ◌^◌, ◌-◌, ◌⊎◌, IsErrOf, IfOk, IfErr, IfSome, OnOk, OnErr, None, length, vec_len, vec_capacity};
ghost use Rattle.std.specs.FinMap.{find};
ghost use Rattle.std.specs.Option.{option_copied};
ghost use Rattle.meta_types.specs.Order.{key_cmp};
ghost use Rattle.node_core.specs.Attempt.{IsAttempt, changed_key, committed, stepped_by};
ghost use Rattle.node_core.specs.Growing.{TellsKeyChanged};
ghost use Rattle.node_core.specs.Step.{CanComeOf};
ghost use Rattle.node_call.specs.Journaled.{IsPublishedBy};
ghost use Rattle.node_call.specs.Ready.{CanStep, HoldsChanged, IsFullFor, IsHeldUnder, IsKnownStep, IsMade, IsReady, Prevents, entry_made, listed};
ghost use Rattle.node_call.specs.declared.fault.LockFault.TheVariants.{JournalFull, Memory};

use crate::fault::LockFault;
use meta_store::Store;
use meta_types::{MetaKey, both};
use node_core::laws::{each_step_counts, each_step_grows, what_is_held_is_kept};
use node_core::{Attempt, NodeState};
use node_events::{NodeEvent, StepFault};
use node_journal::Entry;
use node_readers::Published;
use std::alloc::AllocError;
use std::marker::Model;

/// What is ready: the event that was attempted, the entry to be handed out, and what it publishes.
#[derive(Drop)]
pub struct Ready {
    event: NodeEvent,
    entry: Entry,
    change: Option<Published>,
}

impl Model for Ready {
    ghost use Rattle.node_call.specs.Ready.{ReadyView};

    ghost Value = { ReadyView };

    ghost view = { λ r. record { event = r.event; entry = r.entry; change = r.change } };
}

impl Ready {
    /// Returns the event of the entry.
    pub fn event(&self) -> &NodeEvent
        ensures { result.now ≡ self.now.entry.event }
    {
        &self.entry.event
    }

    /// Takes what the entry publishes, which is then gone.
    pub fn take_change(&mut self) -> Option<Published>
        ensures change { result ≡ self.old.change }
        ensures rest { self.new ≡ record self.old { change = None } }
    {
        self.change.take()
    }

    /// Returns the event, and the entry to be handed out.
    pub fn into_parts(self) -> (NodeEvent, Entry)
        ensures { (result.0 ≡ self.event) × (result.1 ≡ self.entry) }
    {
        (self.event, self.entry)
    }
}

/// The entry of a step, and what it publishes.
#[derive(Drop)]
struct Made {
    entry: Entry,
    change: Option<Published>,
}

/// Attempts the step, makes room for one more entry in the journal, and makes copies of all that is
/// handed out and published. If it is refused, the state is as before.
///
/// Refused in this order: as `NodeState::step` is; 51 `JournalFull`. 99 `Memory` may come at any
/// time.
pub fn prepare(
    state: &mut NodeState,
    journal: &mut Vec<Entry>,
    limit: usize,
    event: NodeEvent,
) -> Result<(Attempt, Ready), LockFault>
    ensures attempt { IfOk result (λ it. IsAttempt state.old event state.new it.0) }
    ensures ready { IfOk result
        (λ it. IsReady state.old event (committed it.0 state.new) (stepped_by it.0) it.1) }
    ensures room { OnOk result (vec_len journal.new < vec_capacity journal.new) }
    ensures few { OnOk result
        ((length journal.old.items < limit) × (state.old.steps < 2 ^ 64 - 1)) }
    ensures journal { journal.new.items ≡ journal.old.items }
    ensures refused { IfErr result (Prevents state.old event limit (length journal.old.items)) }
    ensures same { OnErr result (state.new ≡ state.old) }
{
    let made = prepare_on(state, journal, limit, &event);
    // What is owned goes through `both`, so that nothing is owned if it fails.
    let (event, (attempt, made)) = both(Ok(event), made)?;
    let Made { entry, change } = made;
    let ready = Ready {
        event,
        entry,
        change,
    };
    Ok((attempt, ready))
}

/// Does what `prepare` does, with an event that stays the caller's.
fn prepare_on(
    state: &mut NodeState,
    journal: &mut Vec<Entry>,
    limit: usize,
    event: &NodeEvent,
) -> Result<(Attempt, Made), LockFault>
    ensures attempt { IfOk result (λ it. IsAttempt state.old event.now state.new it.0) }
    ensures made { IfOk result
        (λ it. IsMade state.old event.now (committed it.0 state.new) (stepped_by it.0) it.1) }
    ensures room { OnOk result (vec_len journal.new < vec_capacity journal.new) }
    ensures few { OnOk result
        ((length journal.old.items < limit) × (state.old.steps < 2 ^ 64 - 1)) }
    ensures journal { journal.new.items ≡ journal.old.items }
    ensures refused { IfErr result
        (Prevents state.old event.now limit (length journal.old.items)) }
    ensures same { OnErr result (state.new ≡ state.old) }
{
    let steps = state.steps();
    let attempt = attempt_known(state, event)?;
    match make(state.store(), &attempt, journal, limit, steps, event) {
        Ok(made) => Ok((attempt, made)),
        Err(fault) => {
            state.take_back(attempt);
            Err(fault)
        }
    }
}

/// Attempts the step. Its contract also says what the laws of steps say of it.
fn attempt_known(state: &mut NodeState, event: &NodeEvent) -> Result<Attempt, StepFault>
    ensures attempt { IfOk result (IsAttempt state.old event.now state.new) }
    ensures known { IfOk result
        (λ a. IsKnownStep state.old event.now (committed a state.new) (stepped_by a)) }
    ensures can { OnOk result (CanStep state.old event.now) }
    ensures refused { IfErr result (CanComeOf state.old event.now) }
    ensures same { OnErr result (state.new ≡ state.old) }
{
    each_step_counts();
    each_step_grows(event);
    what_is_held_is_kept();
    // (for its type)
    let _ = state.store().len();
    let attempt = state.attempt(event);
    let _ = state.store().len();
    attempt
}

/// Makes room in the journal, and the entry with what it publishes, of what the store then holds.
fn make(
    store: &Store,
    attempt: &Attempt,
    journal: &mut Vec<Entry>,
    limit: usize,
    steps: u64,
    event: &NodeEvent,
) -> Result<Made, LockFault>
    requires changed { TellsKeyChanged event.now attempt.now.reply (changed_key attempt.now) }
    requires held { HoldsChanged event.now attempt.now.reply store.now }
    ensures entry { IfOk result
        (λ made. made.entry ≡ entry_made event.now (stepped_by attempt.now)) }
    ensures change { IfOk result (λ made.
        IsPublishedBy event.now attempt.now.reply store.now (listed made.change)) }
    ensures room { OnOk result (vec_len journal.new < vec_capacity journal.new) }
    ensures few { OnOk result ((length journal.old.items < limit) × (steps < 2 ^ 64 - 1)) }
    ensures same { journal.new.items ≡ journal.old.items }
    ensures full { IsErrOf result JournalFull
        → IsFullFor limit (length journal.old.items) steps }
    ensures causes { IfErr result (λ fault. (fault ≡ JournalFull) ⊎ (fault ≡ Memory)) }
{
    make_room(journal, limit, steps)?;
    let entry = entry_of(event, attempt);
    let change = held_under(attempt.changed(), store);
    let (entry, change) = both(entry, change)?;
    Ok(Made { entry, change })
}

pub(crate) fn make_room(journal: &mut Vec<Entry>, limit: usize, steps: u64) -> Result<(), LockFault>
    ensures same { journal.new.items ≡ journal.old.items }
    ensures room { OnOk result (vec_len journal.new < vec_capacity journal.new) }
    ensures few { OnOk result ((length journal.old.items < limit) × (steps < 2 ^ 64 - 1)) }
    ensures full { IsErrOf result JournalFull
        → IsFullFor limit (length journal.old.items) steps }
    ensures causes { IfErr result (λ fault. (fault ≡ JournalFull) ⊎ (fault ≡ Memory)) }
{
    if journal.len() >= limit || steps == u64::MAX {
        return Err(LockFault::JournalFull);
    }
    journal.reserve(1)?;
    Ok(())
}

/// Returns the entry of the step that was attempted.
fn entry_of(event: &NodeEvent, attempt: &Attempt) -> Result<Entry, AllocError>
    ensures { IfOk result (λ entry. entry ≡ entry_made event.now (stepped_by attempt.now)) }
{
    Ok(Entry {
        event: event.copy()?,
        reply: attempt.reply().copy()?,
        outbox: attempt.outbox().copy()?,
    })
}

/// Returns a copy of what the store holds under the key, if there is a key.
pub(crate) fn held_under(
    key: Option<&MetaKey>,
    store: &Store,
) -> Result<Option<Published>, AllocError>
    requires { IfSome (option_copied key) (λ key. find key_cmp key store.now ≢ None) }
    ensures { IfOk result (IsHeldUnder (option_copied key.entry) store.now) }
{
    let Some(key) = key else {
        return Ok(None);
    };
    match store.object(key) {
        Some(object) => Ok(Some(Published::new(key.copy()?, object.copy()?))),
        None => unreachable!(),
    }
}
