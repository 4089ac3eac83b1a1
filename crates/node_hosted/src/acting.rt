//! A step of a hosted node.

ghost use Rattle.std.specs.Prelude.{◌≡◌, ◌≤◌, ◌+◌, ◌++◌, [], length, Err, None, Some, false, true, if◌then◌else◌, vec_capacity, vec_len, IfOk, IfErr, OnOk, OnErr};
ghost use Rattle.meta_store.specs.Table.{IsHeld};
ghost use Rattle.node_events.specs.Event.{stored_key};
ghost use Rattle.node_file.specs.File.{gated};
ghost use Rattle.node_file.specs.Record.{IsRecord};
ghost use Rattle.node_file.specs.Refusal.{most_file};
ghost use Rattle.node_file.specs.declared.record.Record.TheVariants.{Object};
ghost use Rattle.node_file.specs.Stored.{record_under};
ghost use Rattle.node_hosted.specs.Hosting.{Acts, FitsInFile, RefusesActing, RefusesSpelling, gate_after, is_pending, kept_in};
ghost use Rattle.node_hosted.specs.declared.fault.HostFault.{HostFault};

use crate::fault::HostFault;
use crate::node::HostedNode;
use crate::unstored::Unstored;
use dvvset::Entries;
use meta_store::Store;
use meta_types::{ByteString, MetaKey};
use node_core::Stepped;
use node_events::NodeEvent;
use node_file::{FileFault, spell_append};
use std::alloc::{AllocError, Global};

impl HostedNode {
    /// Makes the step of an event. The record to store is the next `record`; after it, the reply
    /// and the frames are handed out. In a batch the record joins those of the steps before.
    ///
    /// Refused in this order: 34 `Stopped`; 37 `Pending`, unless a batch is open; as
    /// `NodeState::step` is; 33 `FileFull`. 99 `Memory` may come at any time. A refused call leaves
    /// all as before, and a batch open.
    pub fn act(&mut self, event: NodeEvent) -> Result<(), HostFault>
        ensures acts { OnOk result (Acts self.old event self.new) }
        ensures stopped { self.old.stopped ≡ true → result ≡ Err HostFault.Stopped }
        ensures pending { self.old.stopped ≡ false → is_pending self.old ≡ true
            → result ≡ Err HostFault.Pending }
        ensures refused { IfErr result (RefusesActing self.old event self.new) }
    {
        // The event is dropped at the only way out, so that the proof has one case for it.
        let acted = self.act_on(&event);
        drop(event);
        acted
    }

    fn act_on(&mut self, event: &NodeEvent) -> Result<(), HostFault>
        ensures acts { OnOk result (Acts self.old event.now self.new) }
        ensures stopped { self.old.stopped ≡ true → result ≡ Err HostFault.Stopped }
        ensures pending { self.old.stopped ≡ false → is_pending self.old ≡ true
            → result ≡ Err HostFault.Pending }
        ensures refused { IfErr result (RefusesActing self.old event.now self.new) }
    {
        if self.is_stopped {
            return Err(HostFault::Stopped);
        }
        if self.is_pending() {
            return Err(HostFault::Pending);
        }
        let attempt = self.state.attempt(event)?;
        let frames = attempt.outbox().as_slice().len();
        if let Err(error) = make_room(self.in_batch, &mut self.outbox, frames) {
            self.state.take_back(attempt);
            return Err(error.into());
        }
        match join_record(
            self.alloc,
            &mut self.to_store,
            self.gate,
            event,
            self.state.store(),
        ) {
            Ok(()) => {
                let Stepped { reply, outbox } = self.state.commit(attempt);
                self.reply = Some(reply);
                join_frames(self.in_batch, &mut self.outbox, outbox.into_vec());
                self.sent = 0;
                Ok(())
            }
            Err(fault) => {
                self.state.take_back(attempt);
                Err(fault)
            }
        }
    }
}

/// Makes room for frames behind those of a batch.
fn make_room(in_batch: bool, outbox: &mut Vec<ByteString>, frames: usize) -> Result<(), AllocError>
    ensures same { outbox.new.items ≡ outbox.old.items }
    ensures room { OnOk result (in_batch ≡ true
        → vec_len outbox.new + frames ≤ vec_capacity outbox.new) }
{
    if in_batch {
        outbox.reserve(frames)?;
    }
    Ok(())
}

/// Puts frames behind those of a batch, or in place of those that were sent.
fn join_frames(in_batch: bool, outbox: &mut Vec<ByteString>, mut frames: Vec<ByteString>)
    requires room { in_batch ≡ true
        → vec_len outbox.old + vec_len frames ≤ vec_capacity outbox.old }
    ensures { outbox.new.items
        ≡ (if in_batch then outbox.old.items else []) ++ frames.items }
{
    if !in_batch {
        *outbox = frames;
        return;
    }
    // There is room.
    let _joined = outbox.append(&mut frames);
}

/// Puts what the host has to store, after an event that left the store like this, behind what he
/// has to store already. The closed gate of his file stands at this offset.
fn join_record(
    alloc: Global,
    to_store: &mut Unstored,
    gate: Option<usize>,
    event: &NodeEvent,
    store: &Store,
) -> Result<(), HostFault>
    requires fits { FitsInFile gate to_store.old }
    ensures joined { OnOk result (to_store.new
        ≡ to_store.old ++ kept_in gate (record_under (stored_key event.now) store.now)) }
    ensures fits { FitsInFile gate to_store.new }
    ensures refused { IfErr result (RefusesSpelling (gate_after gate to_store.old)
        (record_under (stored_key event.now) store.now)) }
    ensures same { OnErr result (to_store.new ≡ to_store.old) }
{
    let (Some(gate), Some(key)) = (gate, event.stored_key()) else {
        return Ok(());
    };
    let Some(object) = store.object(key) else {
        return Ok(());
    };
    let record = spell(alloc, gate + to_store.size(), key, object)?;
    to_store.join(record)?;
    Ok(())
}

/// Returns the record of what is held under a key, with its gates.
fn spell(alloc: Global, gate: usize, key: &MetaKey, object: &Entries) -> Result<Vec<u8>, HostFault>
    requires { IsHeld object.now }
    ensures record { IfOk result (λ bytes. bytes.items ≡ gated (Object key.now object.now)) }
    ensures lawful { OnOk result (IsRecord (Object key.now object.now)) }
    ensures fits { IfOk result (λ bytes. gate + length bytes.items ≤ most_file) }
    ensures refused { IfErr result
        (RefusesSpelling (Some gate) (Some (Object key.now object.now))) }
{
    match spell_append(alloc, gate, key, object) {
        Ok(record) => Ok(record),
        Err(FileFault::FileFull) => Err(HostFault::FileFull),
        Err(_) => Err(HostFault::Memory),
    }
}
