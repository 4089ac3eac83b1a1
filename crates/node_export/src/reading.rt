//! What a node holds, and what it is, without a step. It may not be stored yet, and a node that is
//! stopped or has a record to store tells it too.

ghost use Rattle.std.specs.Prelude.{◌≡◌, ◌≢◌, ◌++◌, [], Some, None, IfErr, IfOk, IfSome, OnOk};
ghost use Rattle.std.specs.List.{flat_map, list_all};
ghost use Rattle.dvvset.specs.Clock.{values_of};
ghost use Rattle.frame_fields.specs.Field.{prefix};
ghost use Rattle.hash_tree.specs.Tree.{rows_of, tree_root};
ghost use Rattle.node_export.specs.Exports.{Hands, HandsFrom, HandsList, HandsMade, HandsNeighbours, HandsNothing, HandsOf, HandsPrefixes, HandsShown, about_of, key_named};
ghost use Rattle.node_export.specs.Spelling.{is_tombstone, list_bytes, marked_key, nodes_bytes, prefixes_bytes, shown_bytes};

use crate::handing::copy_out;
use crate::numbers::{NO_NODE, OK};
use crate::reply::add_values;
use crate::slot::Slot;
use crate::steps::{key_of, prefix_of};
use dvvset::Entry;
use frame_fields::writing::{write_key, write_node, write_prefix, write_u8};
use meta_store::Store;
use meta_types::{FullPrefix, MetaKey, NodeId, TypeFault, Value};
use node_hosted::HostedNode;
use std::alloc::{AllocError, Global};

/// Hands out bytes that were made for it. Refused with 99 `Memory` if they weren't, and with 81
/// `ShortBuffer`.
fn copy_made(made: Result<Vec<u8>, AllocError>, buffer: &mut [u8], len: &mut usize) -> u16
    ensures bytes { IfOk made (λ bytes. Hands (Some bytes.items) buffer.old buffer.new
        len.old len.new result) }
    ensures refused { IfErr made (λ e. HandsNothing 99 buffer.old buffer.new
        len.old len.new result) }
{
    match made {
        Ok(bytes) => copy_out(Some(bytes.as_slice()), buffer, len),
        Err(_) => TypeFault::Memory.code(),
    }
}

/// Hands out the full prefixes that hold a key, in order, each as frames have it. Refused with 80
/// `NoNode`, 99 `Memory` and 81 `ShortBuffer`.
#[unsafe(no_mangle)]
pub extern "C" fn zomtagi_prefixes(
    alloc: Global,
    slot: &mut Slot,
    buffer: &mut [u8],
    len: &mut usize,
) -> u16
    ensures same { slot.new.handle.held ≡ slot.old.handle.held }
    ensures hands { HandsFrom slot.old.handle.held HandsPrefixes buffer.old buffer.new
        len.old len.new result }
{
    let number = slot.show(alloc, &mut |node| prefixes_of(alloc, node, buffer, len));
    number.unwrap_or(NO_NODE)
}

fn prefixes_of(alloc: Global, node: &HostedNode, buffer: &mut [u8], len: &mut usize) -> u16
    ensures { HandsPrefixes node.now buffer.old buffer.new len.old len.new result }
{
    copy_made(spell_prefixes(alloc, node.state().store()), buffer, len)
}

fn spell_prefixes(alloc: Global, store: &Store) -> Result<Vec<u8>, AllocError>
    ensures { IfOk result (λ bytes. bytes.items ≡ prefixes_bytes store.now) }
{
    let prefixes = store.prefixes()?;
    let mut bytes = Vec::new(alloc);
    add_prefixes(&mut bytes, prefixes.as_slice())?;
    Ok(bytes)
}

/// Adds each full prefix, as frames have it.
fn add_prefixes(bytes: &mut Vec<u8>, prefixes: &[FullPrefix]) -> Result<(), AllocError>
    ensures { OnOk result (bytes.new.items
        ≡ bytes.old.items ++ flat_map prefix.spell prefixes.now) }
{
    for prefix in prefixes {
        write_prefix(bytes, prefix)?;
    }
    Ok(())
}

/// Hands out the keys under a full prefix, in order: of each a byte, which is 1 if all that is
/// shown under it was deleted and else 0, and the key as frames have it. Refused with 80 `NoNode`,
/// 1 `BadName`, 99 `Memory` and 81 `ShortBuffer`.
#[unsafe(no_mangle)]
pub extern "C" fn zomtagi_list(
    alloc: Global,
    slot: &mut Slot,
    prefix: &[u8],
    sub: &[u8],
    buffer: &mut [u8],
    len: &mut usize,
) -> u16
    ensures same { slot.new.handle.held ≡ slot.old.handle.held }
    ensures hands { HandsFrom slot.old.handle.held
        (HandsList (key_named prefix.now sub.now []).prefix)
        buffer.old buffer.new len.old len.new result }
{
    let number = slot.show(
        alloc,
        &mut |node| list_of(alloc, node, (prefix, sub), buffer, len),
    );
    number.unwrap_or(NO_NODE)
}

fn list_of(
    alloc: Global,
    node: &HostedNode,
    names: (&[u8], &[u8]),
    buffer: &mut [u8],
    len: &mut usize,
) -> u16
    ensures { HandsList (key_named names.entry.0.now names.entry.1.now []).prefix node.now
        buffer.old buffer.new len.old len.new result }
{
    let (prefix, sub) = names;
    match prefix_of(alloc, prefix, sub) {
        Ok(prefix) => copy_list(alloc, node.state().store(), &prefix, buffer, len),
        Err(fault) => fault.code(),
    }
}

fn copy_list(
    alloc: Global,
    store: &Store,
    prefix: &FullPrefix,
    buffer: &mut [u8],
    len: &mut usize,
) -> u16
    ensures { HandsMade (list_bytes prefix.now store.now) buffer.old buffer.new
        len.old len.new result }
{
    copy_made(spell_list(alloc, store, prefix), buffer, len)
}

fn spell_list(alloc: Global, store: &Store, prefix: &FullPrefix) -> Result<Vec<u8>, AllocError>
    ensures { IfOk result (λ bytes. bytes.items ≡ list_bytes prefix.now store.now) }
{
    let keys = store.list(prefix)?;
    let mut bytes = Vec::new(alloc);
    add_keys(&mut bytes, store, keys.as_slice())?;
    Ok(bytes)
}

fn add_keys(bytes: &mut Vec<u8>, store: &Store, keys: &[MetaKey]) -> Result<(), AllocError>
    ensures { OnOk result (bytes.new.items
        ≡ bytes.old.items ++ flat_map (marked_key store.now) keys.now) }
{
    for key in keys {
        add_key(bytes, store, key)?;
    }
    Ok(())
}

/// Adds whether the key is deleted, and the key, as frames have it.
fn add_key(bytes: &mut Vec<u8>, store: &Store, key: &MetaKey) -> Result<(), AllocError>
    ensures { OnOk result (bytes.new.items ≡ bytes.old.items ++ marked_key store.now key.now) }
{
    let is_deleted = match store.object(key) {
        Some(object) => show_deletions(object.entries()),
        None => true,
    };
    write_u8(bytes, if is_deleted { 1 } else { 0 })?;
    write_key(bytes, key)
}

/// Returns whether the entries of an object show nothing but deletions.
fn show_deletions(entries: &[Entry]) -> bool
    ensures { result ≡ list_all is_tombstone (values_of entries.now) }
{
    let mut are_all = true;
    for entry in entries {
        are_all = are_all && are_tombstones(entry.values());
    }
    are_all
}

fn are_tombstones(values: &[Value]) -> bool
    ensures { result ≡ list_all is_tombstone values.now }
{
    let mut are_all = true;
    for value in values {
        are_all = are_all && value.body().is_none();
    }
    are_all
}

/// Hands out what is shown under a key: how many values, and each, as in a reply. It is no step,
/// and gives no context. Refused with 80 `NoNode`, 1 `BadName`, 99 `Memory` and 81 `ShortBuffer`.
#[unsafe(no_mangle)]
pub extern "C" fn zomtagi_peek(
    alloc: Global,
    slot: &mut Slot,
    prefix: &[u8],
    sub: &[u8],
    key: &[u8],
    buffer: &mut [u8],
    len: &mut usize,
) -> u16
    ensures same { slot.new.handle.held ≡ slot.old.handle.held }
    ensures hands { HandsFrom slot.old.handle.held
        (HandsShown (key_named prefix.now sub.now key.now))
        buffer.old buffer.new len.old len.new result }
{
    let number = slot.show(
        alloc,
        &mut |node| shown_of(alloc, node, (prefix, sub, key), buffer, len),
    );
    number.unwrap_or(NO_NODE)
}

fn shown_of(
    alloc: Global,
    node: &HostedNode,
    names: (&[u8], &[u8], &[u8]),
    buffer: &mut [u8],
    len: &mut usize,
) -> u16
    ensures { HandsShown (key_named names.entry.0.now names.entry.1.now names.entry.2.now)
        node.now buffer.old buffer.new len.old len.new result }
{
    let (prefix, sub, key) = names;
    match key_of(alloc, prefix, sub, key) {
        Ok(key) => copy_shown(alloc, node.state().store(), &key, buffer, len),
        Err(fault) => fault.code(),
    }
}

fn copy_shown(
    alloc: Global,
    store: &Store,
    key: &MetaKey,
    buffer: &mut [u8],
    len: &mut usize,
) -> u16
    ensures { HandsMade (shown_bytes key.now store.now) buffer.old buffer.new
        len.old len.new result }
{
    copy_made(spell_shown(alloc, store, key), buffer, len)
}

fn spell_shown(alloc: Global, store: &Store, key: &MetaKey) -> Result<Vec<u8>, AllocError>
    ensures { IfOk result (λ bytes. bytes.items ≡ shown_bytes key.now store.now) }
{
    let (values, _) = store.get(key)?;
    let mut bytes = Vec::new(alloc);
    add_values(&mut bytes, values.as_slice())?;
    Ok(bytes)
}

/// Hands out the neighbours, the one of longest standing first, each in 2 bytes. Refused with 80
/// `NoNode`, 99 `Memory` and 81 `ShortBuffer`.
#[unsafe(no_mangle)]
pub extern "C" fn zomtagi_neighbours(
    alloc: Global,
    slot: &mut Slot,
    buffer: &mut [u8],
    len: &mut usize,
) -> u16
    ensures same { slot.new.handle.held ≡ slot.old.handle.held }
    ensures hands { HandsFrom slot.old.handle.held HandsNeighbours buffer.old buffer.new
        len.old len.new result }
{
    let number = slot.show(alloc, &mut |node| neighbours_of(alloc, node, buffer, len));
    number.unwrap_or(NO_NODE)
}

fn neighbours_of(alloc: Global, node: &HostedNode, buffer: &mut [u8], len: &mut usize) -> u16
    ensures { HandsNeighbours node.now buffer.old buffer.new len.old len.new result }
{
    copy_made(
        spell_nodes(alloc, node.state().views().active()),
        buffer,
        len,
    )
}

fn spell_nodes(alloc: Global, nodes: &[NodeId]) -> Result<Vec<u8>, AllocError>
    ensures { IfOk result (λ bytes. bytes.items ≡ nodes_bytes nodes.now) }
{
    let mut bytes = Vec::new(alloc);
    add_nodes(&mut bytes, nodes)?;
    Ok(bytes)
}

fn add_nodes(bytes: &mut Vec<u8>, nodes: &[NodeId]) -> Result<(), AllocError>
    ensures { OnOk result (bytes.new.items ≡ bytes.old.items ++ nodes_bytes nodes.now) }
{
    for node in nodes {
        write_node(bytes, *node)?;
    }
    Ok(())
}

/// Hands out the 32 bytes of the root of the tree over all that the node holds, which may not be
/// stored yet. Refused with 80 `NoNode` and 81 `ShortBuffer`.
#[unsafe(no_mangle)]
pub extern "C" fn zomtagi_root(
    alloc: Global,
    slot: &mut Slot,
    buffer: &mut [u8],
    len: &mut usize,
) -> u16
    ensures same { slot.new.handle.held ≡ slot.old.handle.held }
    ensures hands { HandsFrom slot.old.handle.held
        (HandsOf (λ n. Some (tree_root (rows_of n.state.table))))
        buffer.old buffer.new len.old len.new result }
{
    let number = slot.show(alloc, &mut |node| copy_root(node, buffer, len));
    number.unwrap_or(NO_NODE)
}

fn copy_root(node: &HostedNode, buffer: &mut [u8], len: &mut usize) -> u16
    ensures { HandsOf (λ n. Some (tree_root (rows_of n.state.table))) node.now
        buffer.old buffer.new len.old len.new result }
{
    let root = node.state().tree().root();
    copy_out(Some(root.bytes()), buffer, len)
}

/// What is told of a node.
#[repr(C)]
#[derive(Drop)]
pub struct About {
    pub number: u16,
    /// 1 if the program failed to store a record, else 0.
    pub is_stopped: u8,
    /// The number of its life.
    pub life: u32,
    /// How many keys it holds, of at most 8,192.
    pub keys: usize,
    /// The offset of the closed gate of its file, or 0 without a file.
    pub gate: usize,
}

/// Says what the node in the slot is. Refused with 80 `NoNode`.
#[unsafe(no_mangle)]
pub extern "C" fn zomtagi_about(alloc: Global, slot: &mut Slot, about: &mut About) -> u16
    ensures same { slot.new.handle.held ≡ slot.old.handle.held }
    ensures says { IfSome slot.old.handle.held (λ n. (result ≡ OK) × (about.new ≡ about_of n)) }
    ensures none { slot.old.handle.held ≡ None → result ≡ NO_NODE }
    ensures kept { result ≢ OK → about.new ≡ about.old }
{
    let told = slot.show(alloc, &mut |node| *about = tell_of(node));
    told.map_or(NO_NODE, |()| OK)
}

fn tell_of(node: &HostedNode) -> About
    ensures { result ≡ about_of node.now }
{
    let state = node.state();
    About {
        number: state.node().number(),
        is_stopped: if node.is_stopped() { 1 } else { 0 },
        life: state.incarnation(),
        keys: state.store().len(),
        gate: node.gate().unwrap_or(0),
    }
}
