//! A batch: writes that are all made, or none.

ghost use Rattle.std.specs.Prelude.{◌≡◌, ◌⊎◌, ◌≤◌, ◌++◌, ◌∷◌, ℕ, [], length, take, Err, IsOk, IfOk, IfErr, OnOk, OnErr};
ghost use Rattle.meta_store.specs.Table.{IsTable};
ghost use Rattle.node_core.specs.Savepoint.{CanRollBack, as_saved};
ghost use Rattle.node_call.specs.Batch.{HasRoomFor, IsBatch, IsRefusedAt, Keeps, entries_of};
ghost use Rattle.node_call.specs.declared.batch.BatchRefusal.TheVariants as refusals;
ghost use Rattle.node_call.specs.declared.fault.LockFault.{LockFault};
ghost use Rattle.node_call.specs.declared.fault.LockFault.TheVariants.{Memory};

use crate::fault::LockFault;
use crate::making::make_write;
use crate::write::Write;
use meta_types::NodeId;
use node_core::{NodeState, Savepoint};
use node_journal::{Entry, Receipt};
use node_readers::Published;
use std::alloc::{AllocError, Global};

/// Why a batch was refused.
#[derive(Debug, Drop)]
pub enum BatchRefusal {
    /// It has more than [`node_file::MAX_BATCH`] writes.
    TooMany,
    /// The write at this place, counted from 0, is the first that is refused.
    Write { place: usize, fault: LockFault },
    /// It isn't refused at one write: 34 `Stopped`, 30 `Device` or 99 `Memory`.
    Node(LockFault),
}

impl From<AllocError> for BatchRefusal {
    ghost from_gives = { λ _ refusal. refusal ≡ refusals.Node Memory };

    fn from(_error: AllocError) -> Self {
        BatchRefusal::Node(LockFault::Memory)
    }
}

/// What is ready of a batch: the receipts to be handed out, and what they publish, in order.
#[derive(Drop)]
pub struct Batch {
    pub receipts: Vec<Receipt>,
    pub changes: Vec<Published>,
}

impl Batch {
    pub fn new(alloc: Global) -> Batch
        ensures receipts { result.receipts.items ≡ [] }
        ensures changes { result.changes.items ≡ [] }
    {
        Batch {
            receipts: Vec::new(alloc),
            changes: Vec::new(alloc),
        }
    }

    /// Takes what it publishes, which is then gone.
    pub fn take_changes(&mut self, alloc: Global) -> Vec<Published>
        ensures changes { result.items ≡ self.old.changes.items }
        ensures receipts { self.new.receipts ≡ self.old.receipts }
    {
        std::mem::replace(&mut self.changes, Vec::new(alloc))
    }

    fn push(&mut self, receipt: Receipt, change: Published) -> Result<(), AllocError>
        ensures receipts { OnOk result
            (self.new.receipts.items ≡ self.old.receipts.items ++ receipt ∷ []) }
        ensures changes { OnOk result
            (self.new.changes.items ≡ self.old.changes.items ++ change ∷ []) }
    {
        self.receipts.push(receipt)?;
        self.changes.push(change)?;
        Ok(())
    }
}

/// Makes the writes one after another, since the savepoint, puts their entries behind the journal,
/// and copies of them, with what they publish, into the batch. If one is refused, the state is
/// where the refused one left it, and the journal goes on with the entries of those before.
///
/// Refused as the first write that is: as `NodeState::step` is; 51 `JournalFull`. 99 `Memory` may
/// come at any time.
pub fn make_all(
    state: &mut NodeState,
    savepoint: &mut Savepoint,
    journal: &mut Vec<Entry>,
    limit: usize,
    writes: Vec<Write>,
    batch: &mut Batch,
) -> Result<(), BatchRefusal>
    requires can { CanRollBack savepoint.old state.old }
    requires empty { (batch.old.receipts.items ≡ []) × (batch.old.changes.items ≡ []) }
    requires lawful { IsTable state.old.table }
    ensures made { OnOk result (IsBatch state.old writes.items batch.new.receipts.items
        batch.new.changes.items state.new) }
    ensures journal { OnOk result
        (journal.new.items ≡ journal.old.items ++ entries_of batch.new.receipts.items) }
    ensures room { OnOk result
        (HasRoomFor limit (length journal.old.items) state.old writes.items) }
    ensures refused { IfErr result (λ r. (place : ℕ) × (fault : LockFault)
        × (r ≡ refusals.Write place fault)
        × IsRefusedAt place state.old writes.items limit (length journal.old.items) fault) }
    ensures front { take (length journal.old.items) journal.new.items ≡ journal.old.items }
    ensures can { CanRollBack savepoint.new state.new }
    ensures back { as_saved savepoint.new state.new ≡ as_saved savepoint.old state.old }
{
    for write in writes {
        let place = batch.receipts.len();
        let (node, step) = (state.node(), state.steps());
        let made = make_write(state, savepoint, journal, limit, write);
        if let Err(fault) = keep(batch, node, step, made) {
            return Err(BatchRefusal::Write { place, fault });
        }
    }
    Ok(())
}

/// Puts what a write made into the batch, if it was made: the receipt of its entry, which stands at
/// this place, and what it published.
fn keep(
    batch: &mut Batch,
    node: NodeId,
    place: u64,
    made: Result<(Entry, Published), LockFault>,
) -> Result<(), LockFault>
    ensures kept { OnOk result (IfOk made (λ m. Keeps batch.old batch.new
        (record { node = node; place = place; entry = m.0 }) m.1)) }
    ensures ok { OnOk result (IsOk made) }
    ensures refused { IfErr result (λ fault. (made ≡ Err fault) ⊎ (fault ≡ Memory)) }
{
    let (entry, change) = made?;
    batch.push(Receipt { node, place, entry }, change)?;
    Ok(())
}
