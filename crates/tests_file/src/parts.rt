//! Files, objects and what opening returns, in short.

ghost use Rattle.std.specs.Prelude.{◌≡◌, true, false, IfOk};
ghost use Rattle.devices.specs.Device.{IsDurable};
ghost use Rattle.node_file.specs.File.{file_state};

use devices::{Device, MemoryDevice};
use dvvset::{Entries, Entry};
use meta_store::Store;
use meta_store::size::may_be_held;
use meta_types::{Actor, FullPrefix, MetaKey, NodeId, Value};
use node_file::{FileFault, NodeFile, open_node};
use std::alloc::{AllocError, Global};
use std::process::Abort;

pub(crate) fn node(rt: &impl Abort, number: u16) -> NodeId {
    NodeId::new(number).expect(rt, "a node")
}

/// Returns the key a/b/k.
pub(crate) fn key(rt: &impl Abort, alloc: Global) -> MetaKey {
    let a = b"a".to_vec(alloc).expect(rt, "memory");
    let b = b"b".to_vec(alloc).expect(rt, "memory");
    let prefix = FullPrefix::new(a, b).expect(rt, "a prefix");
    MetaKey::new(prefix, b"k".to_vec(alloc).expect(rt, "memory")).expect(rt, "a key")
}

/// Returns the object of node 0 in its first life, whose event of this number shows the letter.
pub(crate) fn object(rt: &impl Abort, alloc: Global, count: u64, letter: u8) -> Entries {
    let mut body = Vec::new(alloc);
    body.push(letter).expect(rt, "memory");
    let mut values = Vec::new(alloc);
    let value = Value::new(0, Some(body)).expect(rt, "a value");
    values.push(value).ok().expect(rt, "memory");
    let mut entries = Vec::new(alloc);
    let entry = Entry::new(Actor::new(node(rt, 0), 1), count, values);
    entries.push(entry).ok().expect(rt, "memory");
    Entries::from_parts(entries).expect(rt, "an object")
}

/// Returns a device in memory that holds these bytes.
pub(crate) fn device(alloc: Global, bytes: &[u8]) -> Result<MemoryDevice, AllocError>
    ensures { IfOk result (λ d. IsDurable
        (⟦<MemoryDevice as Device>⟧.content d) (⟦<MemoryDevice as Device>⟧.may_leave d)) }
{
    MemoryDevice::new(alloc, bytes.to_vec(alloc)?)
}

/// Writes the object to the file and then to its table, as whoever holds both does. Returns the
/// number of the refusal, 0 for none, and 1 if the object or the key has no place in a store.
pub(crate) fn write<D: Device>(
    rt: &impl Abort,
    alloc: Global,
    file: &mut NodeFile<D>,
    table: &mut Store,
    object: Entries,
) -> u16
    requires served { file.old.is_served ≡ true }
    requires same { file.old.is_stopped ≡ false
        → (file_state (D.content file.old.device)).contents.table ≡ table.old }
    ensures served { file.new.is_served ≡ true }
    ensures same { file.new.is_stopped ≡ false
        → (file_state (D.content file.new.device)).contents.table ≡ table.new }
{
    let key = key(rt, alloc);
    if !may_be_held(&object) || !table.has_room_for(&key) {
        return 1;
    }
    match file.append(alloc, &key, &object) {
        Ok(()) => {
            table.hold(key, object).expect(rt, "memory");
            0
        }
        Err(fault) => fault.code(),
    }
}

/// Returns the number of a refusal, and the offset that it names, 0 for none.
pub(crate) fn told(fault: &FileFault) -> (u16, usize) {
    match fault {
        FileFault::Damaged { at } => (fault.code(), *at),
        _ => (fault.code(), 0),
    }
}

/// Returns what opening these bytes returns: the last life and the number of keys, or the number of
/// the refusal and its offset.
pub(crate) fn found_in(alloc: Global, bytes: &[u8]) -> Result<(u32, usize), (u16, usize)> {
    let Ok(device) = device(alloc, bytes) else {
        return Err((99, 0));
    };
    match open_node(alloc, device, None) {
        Ok((_, table, life)) => Ok((life, table.len())),
        Err((_, fault)) => Err(told(&fault)),
    }
}
