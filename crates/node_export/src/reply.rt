//! How a reply is spelled for the program.

ghost use Rattle.std.specs.Prelude.{◌≡◌, ◌++◌, IfOk, OnOk};
ghost use Rattle.std.specs.List.{flat_map};
ghost use Rattle.node_export.specs.Spelling.{change_bytes, changes_bytes, counter_bytes, reply_bytes, value_bytes, values_bytes, vector_bytes};

use dvvset::{Counter, Vector};
use frame_fields::writing::{write_key, write_node, write_u8, write_u32, write_u64};
use meta_types::Value;
use node_events::Reply;
use std::alloc::{AllocError, Global};
use subscriptions::Change;

/// Returns the bytes of a reply: a byte that says which reply it is, and its fields. Numbers have
/// their highest byte first; keys stand as in frames.
pub(crate) fn spell_reply(alloc: Global, reply: &Reply) -> Result<Vec<u8>, AllocError>
    ensures { IfOk result (λ bytes. bytes.items ≡ reply_bytes reply.now) }
{
    let mut bytes = Vec::new(alloc);
    match reply {
        Reply::Looked { values, .. } => {
            write_u8(&mut bytes, 1)?;
            add_values(&mut bytes, values.as_slice())?;
        }
        Reply::Wrote { .. } => write_u8(&mut bytes, 2)?,
        Reply::Took => write_u8(&mut bytes, 3)?,
        Reply::TookFresh => write_u8(&mut bytes, 4)?,
        Reply::TookStale => write_u8(&mut bytes, 5)?,
        Reply::Done => write_u8(&mut bytes, 6)?,
        Reply::Watching { number } => {
            write_u8(&mut bytes, 7)?;
            write_u64(&mut bytes, *number)?;
        }
        Reply::Changed { missed, changes } => {
            write_u8(&mut bytes, 8)?;
            write_u64(&mut bytes, *missed)?;
            add_changes(&mut bytes, changes.as_slice())?;
        }
    }
    Ok(bytes)
}

/// Adds the number of values, and each value.
pub(crate) fn add_values(bytes: &mut Vec<u8>, values: &[Value]) -> Result<(), AllocError>
    ensures { OnOk result (bytes.new.items ≡ bytes.old.items ++ values_bytes values.now) }
{
    write_u64(bytes, values.len() as u64)?;
    add_each_value(bytes, values)
}

fn add_each_value(bytes: &mut Vec<u8>, values: &[Value]) -> Result<(), AllocError>
    ensures { OnOk result (bytes.new.items ≡ bytes.old.items ++ flat_map value_bytes values.now) }
{
    for value in values {
        add_value(bytes, value)?;
    }
    Ok(())
}

/// Adds the stamp of a value, whether it has a body, and the length and the bytes of the body.
fn add_value(bytes: &mut Vec<u8>, value: &Value) -> Result<(), AllocError>
    ensures { OnOk result (bytes.new.items ≡ bytes.old.items ++ value_bytes value.now) }
{
    write_u64(bytes, value.stamp())?;
    match value.body() {
        Some(body) => {
            write_u8(bytes, 1)?;
            write_u64(bytes, body.len() as u64)?;
            bytes.extend_from_slice(body)
        }
        None => write_u8(bytes, 0),
    }
}

/// Adds the number of changes, and of each the key and the vector.
fn add_changes(bytes: &mut Vec<u8>, changes: &[Change]) -> Result<(), AllocError>
    ensures { OnOk result (bytes.new.items ≡ bytes.old.items ++ changes_bytes changes.now) }
{
    write_u64(bytes, changes.len() as u64)?;
    add_each_change(bytes, changes)
}

fn add_each_change(bytes: &mut Vec<u8>, changes: &[Change]) -> Result<(), AllocError>
    ensures { OnOk result (bytes.new.items ≡ bytes.old.items ++ flat_map change_bytes changes.now) }
{
    for change in changes {
        add_change(bytes, change)?;
    }
    Ok(())
}

fn add_change(bytes: &mut Vec<u8>, change: &Change) -> Result<(), AllocError>
    ensures { OnOk result (bytes.new.items ≡ bytes.old.items ++ change_bytes change.now) }
{
    write_key(bytes, &change.key)?;
    add_vector(bytes, &change.vector)
}

/// Adds the number of writers, and of each its node, its life, and how many of its writes are
/// known.
fn add_vector(bytes: &mut Vec<u8>, vector: &Vector) -> Result<(), AllocError>
    ensures { OnOk result (bytes.new.items ≡ bytes.old.items ++ vector_bytes vector.now) }
{
    write_u64(bytes, vector.counters().len() as u64)?;
    add_each_counter(bytes, vector.counters())
}

fn add_each_counter(bytes: &mut Vec<u8>, counters: &[Counter]) -> Result<(), AllocError>
    ensures { OnOk result
        (bytes.new.items ≡ bytes.old.items ++ flat_map counter_bytes counters.now) }
{
    for counter in counters {
        add_counter(bytes, *counter)?;
    }
    Ok(())
}

fn add_counter(bytes: &mut Vec<u8>, counter: Counter) -> Result<(), AllocError>
    ensures { OnOk result (bytes.new.items ≡ bytes.old.items ++ counter_bytes counter) }
{
    write_node(bytes, counter.id().node())?;
    write_u32(bytes, counter.id().incarnation())?;
    write_u64(bytes, counter.count())
}
