//! Writes.

ghost use Rattle.std.specs.Prelude.{◌≡◌, ◌⊎◌, None, Some, IfOk, IfErr, OnOk};
ghost use Rattle.std.specs.Option.{option_copied};
ghost use Rattle.meta_types.specs.Name.{IsKey};
ghost use Rattle.meta_types.specs.Value.{IsBody};
ghost use Rattle.node_hosted.specs.declared.fault.HostFault.TheVariants as OfHost;
ghost use Rattle.meta_types.specs.declared.fault.TypeFault.TheVariants as OfType;
ghost use Rattle.node_export.specs.Exports.{AnswersAs, InSlot, Writes, WritesOver, key_named};

use crate::numbers::{NO_NODE, answer_of};
use crate::slot::Slot;
use crate::steps::key_of;
use meta_types::{MetaKey, Value};
use node_events::NodeEvent;
use node_hosted::{HostFault, HostedNode};
use std::alloc::Global;

/// Returns the key of these names, and the value of this stamp and body; without a body, a
/// tombstone.
fn parts_of(
    alloc: Global,
    names: (&[u8], &[u8], &[u8]),
    body: Option<&[u8]>,
    stamp: u64,
) -> Result<(MetaKey, Value), HostFault>
    ensures key { IfOk result (λ parts. parts.0
        ≡ key_named names.entry.0.now names.entry.1.now names.entry.2.now) }
    ensures value { IfOk result (λ parts. parts.1
        ≡ record { stamp = stamp; body = option_copied body.entry }) }
    ensures key_in_range { OnOk result
        (IsKey (key_named names.entry.0.now names.entry.1.now names.entry.2.now)) }
    ensures value_in_range { OnOk result (IsBody (option_copied body.entry)) }
    ensures refused { IfErr result (λ fault. (fault ≡ OfHost.Memory)
        ⊎ (((fault ≡ OfHost.Argument OfType.BadName)
        × (IsKey (key_named names.entry.0.now names.entry.1.now names.entry.2.now) → ⊥))
        ⊎ ((fault ≡ OfHost.Argument OfType.ValueTooLong)
        × IsKey (key_named names.entry.0.now names.entry.1.now names.entry.2.now)
        × (IsBody (option_copied body.entry) → ⊥)))) }
{
    let (prefix, sub, key) = names;
    let key = key_of(alloc, prefix, sub, key)?;
    let body = match body {
        Some(body) => Some(body.to_vec(alloc)?),
        None => None,
    };
    Ok((key, Value::new(stamp, body)?))
}

/// Writes, having read what the context of this number says, or nothing for 0.
fn write_on(
    alloc: Global,
    node: &mut HostedNode,
    names: (&[u8], &[u8], &[u8]),
    body: Option<&[u8]>,
    stamp: u64,
    context: u64,
) -> Result<(), HostFault>
    ensures { Writes context (key_named names.entry.0.now names.entry.1.now names.entry.2.now)
        (record { stamp = stamp; body = option_copied body.entry }) node.old result node.new }
{
    let context = node.context(context)?;
    let (key, value) = parts_of(alloc, names, body, stamp)?;
    node.act(NodeEvent::Write {
        key,
        value,
        context,
    })
}

/// Writes over all that the node shows.
fn write_over_on(
    alloc: Global,
    node: &mut HostedNode,
    names: (&[u8], &[u8], &[u8]),
    body: Option<&[u8]>,
    stamp: u64,
) -> Result<(), HostFault>
    ensures { WritesOver (key_named names.entry.0.now names.entry.1.now names.entry.2.now)
        (record { stamp = stamp; body = option_copied body.entry }) node.old result node.new }
{
    let (key, value) = parts_of(alloc, names, body, stamp)?;
    node.act(NodeEvent::PutOver { key, value })
}

/// Writes a value, having read what the context of this number says, or nothing for 0. Refused with
/// 80 `NoNode`; 43 `NoSuchRead`; 1 `BadName`, 2 `ValueTooLong`; then as `HostedNode::act` is. 99
/// `Memory` of a copy may come in place of 34 and 37 too.
#[unsafe(no_mangle)]
pub extern "C" fn zomtagi_write(
    alloc: Global,
    slot: &mut Slot,
    prefix: &[u8],
    sub: &[u8],
    key: &[u8],
    body: &[u8],
    stamp: u64,
    context: u64,
) -> u16
    ensures { InSlot (AnswersAs (Writes context (key_named prefix.now sub.now key.now)
        (record { stamp = stamp; body = Some body.now })))
        slot.old.handle.held slot.new.handle.held result }
{
    let written = slot.with(
        alloc,
        |node| answer_of(write_on(alloc, node, (prefix, sub, key), Some(body), stamp, context)),
    );
    written.unwrap_or(NO_NODE)
}

/// Writes a tombstone, as `zomtagi_write` writes a value. Refused as `zomtagi_write` is, except for
/// 2.
#[unsafe(no_mangle)]
pub extern "C" fn zomtagi_delete(
    alloc: Global,
    slot: &mut Slot,
    prefix: &[u8],
    sub: &[u8],
    key: &[u8],
    stamp: u64,
    context: u64,
) -> u16
    ensures { InSlot (AnswersAs (Writes context (key_named prefix.now sub.now key.now)
        (record { stamp = stamp; body = None }))) slot.old.handle.held slot.new.handle.held result }
{
    let written = slot.with(
        alloc,
        |node| answer_of(write_on(alloc, node, (prefix, sub, key), None, stamp, context)),
    );
    written.unwrap_or(NO_NODE)
}

/// Writes a value over all that the node shows. Refused as `zomtagi_write` is, except for 43.
#[unsafe(no_mangle)]
pub extern "C" fn zomtagi_write_over(
    alloc: Global,
    slot: &mut Slot,
    prefix: &[u8],
    sub: &[u8],
    key: &[u8],
    body: &[u8],
    stamp: u64,
) -> u16
    ensures { InSlot (AnswersAs (WritesOver (key_named prefix.now sub.now key.now)
        (record { stamp = stamp; body = Some body.now })))
        slot.old.handle.held slot.new.handle.held result }
{
    let written = slot.with(
        alloc,
        |node| answer_of(write_over_on(alloc, node, (prefix, sub, key), Some(body), stamp)),
    );
    written.unwrap_or(NO_NODE)
}

/// Writes a tombstone over all that the node shows. Refused as `zomtagi_write` is, except for 43
/// and 2.
#[unsafe(no_mangle)]
pub extern "C" fn zomtagi_delete_over(
    alloc: Global,
    slot: &mut Slot,
    prefix: &[u8],
    sub: &[u8],
    key: &[u8],
    stamp: u64,
) -> u16
    ensures { InSlot (AnswersAs (WritesOver (key_named prefix.now sub.now key.now)
        (record { stamp = stamp; body = None }))) slot.old.handle.held slot.new.handle.held result }
{
    let written = slot.with(
        alloc,
        |node| answer_of(write_over_on(alloc, node, (prefix, sub, key), None, stamp)),
    );
    written.unwrap_or(NO_NODE)
}
