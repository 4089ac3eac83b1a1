//! A write of a batch is made, so that it can be taken back with the others.

ghost use Rattle.std.specs.Prelude.{◌≡◌, ◌<◌, ◌⊎◌, ◌++◌, ◌∷◌, ◌^◌, ◌-◌, [], IsErrOf, IfOk, IfErr, OnOk, OnErr, length, vec_len, vec_capacity};
ghost use Rattle.node_core.specs.Savepoint.{CanRollBack, as_saved};
ghost use Rattle.node_core.specs.Step.{CanComeOf};
ghost use Rattle.node_call.specs.Batch.{IsMadeWrite, IsWrite, event_written};
ghost use Rattle.node_call.specs.Journaled.{IsPublishedBy};
ghost use Rattle.node_call.specs.Ready.{CanStep, HoldsChanged, IsFullFor, IsKnownStep, Prevents, entry_made};
ghost use Rattle.node_call.specs.declared.fault.LockFault.TheVariants.{JournalFull, Memory};

use crate::fault::LockFault;
use crate::ready::{held_under, make_room};
use crate::write::Write;
use meta_store::Store;
use meta_types::both;
use node_core::laws::{each_step_counts, each_step_grows, what_is_held_is_kept};
use node_core::{NodeState, Savepoint, Stepped};
use node_events::{NodeEvent, StepFault};
use node_journal::Entry;
use node_readers::Published;
use std::alloc::AllocError;

/// The step of a write, the entry to be handed out, and what it publishes.
#[derive(Drop)]
struct MadeWrite {
    stepped: Stepped,
    entry: Entry,
    change: Published,
}

/// Makes the write, since the savepoint, and puts its entry behind the journal. Returns a copy of
/// the entry, and what it publishes. If it is refused, the state may have made the step.
///
/// Refused in this order: as `NodeState::step` is; 51 `JournalFull`. 99 `Memory` may come at any
/// time.
pub(crate) fn make_write(
    state: &mut NodeState,
    savepoint: &mut Savepoint,
    journal: &mut Vec<Entry>,
    limit: usize,
    write: Write,
) -> Result<(Entry, Published), LockFault>
    requires { CanRollBack savepoint.old state.old }
    ensures made { IfOk result (λ it. IsMadeWrite state.old it.0 it.1 state.new) }
    ensures event { IfOk result (λ it. it.0.event ≡ event_written write) }
    ensures journal { IfOk result (λ it. journal.new.items ≡ journal.old.items ++ it.0 ∷ []) }
    ensures few { OnOk result
        ((length journal.old.items < limit) × (state.old.steps < 2 ^ 64 - 1)) }
    ensures refused { IfErr result
        (Prevents state.old (event_written write) limit (length journal.old.items)) }
    ensures same { OnErr result (journal.new.items ≡ journal.old.items) }
    ensures can { CanRollBack savepoint.new state.new }
    ensures back { as_saved savepoint.new state.new ≡ as_saved savepoint.old state.old }
{
    let event = write.into_event();
    let made = make_event(state, savepoint, journal, limit, &event);
    // What is owned goes through `both`, so that nothing is owned if it fails.
    let (event, made) = both(Ok(event), made)?;
    let MadeWrite {
        stepped,
        entry,
        change,
    } = made;
    let Stepped { reply, outbox } = stepped;
    journal.push_reserved(Entry {
        event,
        reply,
        outbox,
    });
    Ok((entry, change))
}

/// Makes the step, and room for its entry, and copies what is handed out.
fn make_event(
    state: &mut NodeState,
    savepoint: &mut Savepoint,
    journal: &mut Vec<Entry>,
    limit: usize,
    event: &NodeEvent,
) -> Result<MadeWrite, LockFault>
    requires can { CanRollBack savepoint.old state.old }
    requires write { IsWrite event.now }
    ensures made { IfOk result (λ m. IsMadeWrite state.old m.entry m.change state.new) }
    ensures entry { IfOk result (λ m. m.entry ≡ entry_made event.now m.stepped) }
    ensures room { OnOk result (vec_len journal.new < vec_capacity journal.new) }
    ensures few { OnOk result
        ((length journal.old.items < limit) × (state.old.steps < 2 ^ 64 - 1)) }
    ensures journal { journal.new.items ≡ journal.old.items }
    ensures refused { IfErr result
        (Prevents state.old event.now limit (length journal.old.items)) }
    ensures can { CanRollBack savepoint.new state.new }
    ensures back { as_saved savepoint.new state.new ≡ as_saved savepoint.old state.old }
{
    let steps = state.steps();
    let stepped = step_known(state, savepoint, event)?;
    let handed = hand_out(state.store(), journal, limit, steps, event, &stepped);
    let (stepped, (entry, change)) = both(Ok(stepped), handed)?;
    Ok(MadeWrite {
        stepped,
        entry,
        change,
    })
}

/// Makes the step. Its contract also says what the laws of steps say of it.
fn step_known(
    state: &mut NodeState,
    savepoint: &mut Savepoint,
    event: &NodeEvent,
) -> Result<Stepped, StepFault>
    requires { CanRollBack savepoint.old state.old }
    ensures known { IfOk result (IsKnownStep state.old event.now state.new) }
    ensures can_step { OnOk result (CanStep state.old event.now) }
    ensures refused { IfErr result (CanComeOf state.old event.now) }
    ensures can { CanRollBack savepoint.new state.new }
    ensures back { as_saved savepoint.new state.new ≡ as_saved savepoint.old state.old }
{
    each_step_counts();
    each_step_grows(event);
    what_is_held_is_kept();
    // (for its type)
    let _ = state.store().len();
    let stepped = state.step_since(savepoint, event);
    let _ = state.store().len();
    stepped
}

/// Makes room in the journal, and copies the entry, and the object that the store then holds under
/// the key of the write.
fn hand_out(
    store: &Store,
    journal: &mut Vec<Entry>,
    limit: usize,
    steps: u64,
    event: &NodeEvent,
    stepped: &Stepped,
) -> Result<(Entry, Published), LockFault>
    requires write { IsWrite event.now }
    requires held { HoldsChanged event.now stepped.now.reply store.now }
    ensures entry { IfOk result (λ it. it.0 ≡ entry_made event.now stepped.now) }
    ensures change { IfOk result
        (λ it. IsPublishedBy event.now stepped.now.reply store.now (it.1 ∷ [])) }
    ensures room { OnOk result (vec_len journal.new < vec_capacity journal.new) }
    ensures few { OnOk result ((length journal.old.items < limit) × (steps < 2 ^ 64 - 1)) }
    ensures same { journal.new.items ≡ journal.old.items }
    ensures full { IsErrOf result JournalFull
        → IsFullFor limit (length journal.old.items) steps }
    ensures causes { IfErr result (λ fault. (fault ≡ JournalFull) ⊎ (fault ≡ Memory)) }
{
    make_room(journal, limit, steps)?;
    let entry = entry_of(event, stepped);
    let change = held_under(event.stored_key(), store);
    let (entry, change) = both(entry, change)?;
    match change {
        Some(change) => Ok((entry, change)),
        None => unreachable!(),
    }
}

/// Returns the entry of a step.
fn entry_of(event: &NodeEvent, stepped: &Stepped) -> Result<Entry, AllocError>
    ensures { IfOk result (λ entry. entry ≡ entry_made event.now stepped.now) }
{
    Ok(Entry {
        event: event.copy()?,
        reply: stepped.reply.copy()?,
        outbox: stepped.outbox.copy()?,
    })
}
