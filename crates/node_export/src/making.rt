//! Making a node, and freeing it.

ghost use Rattle.std.specs.Prelude.{◌≡◌, ◌≢◌, ◌⊎◌, ◌<◌, ◌≤◌, [], Some, None, MatchOption};
ghost use Rattle.node_core.specs.Node.{opening};
ghost use Rattle.node_file.specs.Fault.{code_of};
ghost use Rattle.node_file.specs.File.{empty_file};
ghost use Rattle.node_file.specs.Refusal.{refusal_of_serve};
ghost use Rattle.node_file.specs.declared.fault.FileFault.{FileFault};
ghost use Rattle.node_hosted.specs.Hosting.{Serves, beginning};
ghost use Rattle.node_export.specs.Exports.{Hands, HandsNothing};

use crate::handing::copy_out;
use crate::numbers::{BAD_LIFE, OK};
use crate::slot::Slot;
use meta_types::{NodeId, TypeFault};
use node_file::empty_file;
use node_hosted::HostedNode;
use std::alloc::Global;

/// Puts a node without a file into the slot, in the life of this number, and frees what was there.
/// The program must make sure that the node never had a life of this number or a greater one.
///
/// Refused with 3 `BadNode`, with 82 `BadLife` for a life of 0, and with 99 `Memory`.
#[unsafe(no_mangle)]
pub extern "C" fn zomtagi_new(alloc: Global, slot: &mut Slot, node: u16, life: u32) -> u16
    ensures made { result ≡ OK
        → slot.new.handle.held ≡ Some (beginning (opening node life []) None []) }
    ensures kept { result ≢ OK → slot.new.handle.held ≡ slot.old.handle.held }
    ensures bad_node { (node < 16 → ⊥) → result ≡ 3 }
    ensures bad_life { node < 16 → life ≡ 0 → result ≡ BAD_LIFE }
    ensures refused { node < 16 → 1 ≤ life → (result ≡ OK) ⊎ (result ≡ 99) }
{
    let Ok(node) = NodeId::new(node) else {
        return TypeFault::BadNode.code();
    };
    if life == 0 {
        return BAD_LIFE;
    }
    match HostedNode::new(alloc, node, life) {
        Ok(node) => put(alloc, slot, node),
        Err(_) => TypeFault::Memory.code(),
    }
}

/// Puts the node of this number into the slot, served from the bytes of its file, and frees what
/// was there. It begins its next life once the first record is stored.
///
/// Refused with 3 `BadNode`, and as `HostedNode::serve` is.
#[unsafe(no_mangle)]
pub extern "C" fn zomtagi_serve(alloc: Global, slot: &mut Slot, bytes: &[u8], node: u16) -> u16
    ensures served { result ≡ OK
        → MatchOption slot.new.handle.held ⊥ (Serves (Some node) bytes.now) }
    ensures kept { result ≢ OK → slot.new.handle.held ≡ slot.old.handle.held }
    ensures bad_node { (node < 16 → ⊥) → result ≡ 3 }
    ensures refused { node < 16 → (result ≡ OK) ⊎ ((result ≡ 99)
        ⊎ ((fault : FileFault) × (refusal_of_serve (Some node) bytes.now ≡ Some fault)
        × (result ≡ code_of fault))) }
{
    let Ok(node) = NodeId::new(node) else {
        return TypeFault::BadNode.code();
    };
    match HostedNode::serve(alloc, bytes, Some(node)) {
        Ok(node) => put(alloc, slot, node),
        Err(fault) => fault.code(),
    }
}

fn put(alloc: Global, slot: &mut Slot, node: HostedNode) -> u16
    ensures put { result ≡ OK → slot.new.handle.held ≡ Some node }
    ensures kept { result ≢ OK → slot.new.handle.held ≡ slot.old.handle.held }
    ensures refused { (result ≡ OK) ⊎ (result ≡ 99) }
{
    match Box::new(alloc, node) {
        Ok(node) => {
            slot.put(node);
            OK
        }
        Err(_) => TypeFault::Memory.code(),
    }
}

/// Frees the node in the slot, if there is one.
#[unsafe(no_mangle)]
pub extern "C" fn zomtagi_free(alloc: Global, slot: &mut Slot)
    ensures { slot.new.handle.held ≡ None }
{
    drop(slot.take(alloc));
}

/// Hands out the bytes of the file of a node that had no life. The program writes and syncs them
/// before it serves the node. Refused with 3 `BadNode` and 81 `ShortBuffer`. It takes no memory.
#[unsafe(no_mangle)]
pub extern "C" fn zomtagi_empty_file(node: u16, buffer: &mut [u8], len: &mut usize) -> u16
    ensures bad_node { (node < 16 → ⊥)
        → HandsNothing 3 buffer.old buffer.new len.old len.new result }
    ensures hands { node < 16
        → Hands (Some (empty_file node)) buffer.old buffer.new len.old len.new result }
{
    match NodeId::new(node) {
        Ok(node) => copy_out(Some(&empty_file(node)), buffer, len),
        Err(_) => TypeFault::BadNode.code(),
    }
}
