//! A clean copy of a file: no node is needed, and nothing changes.

ghost use Rattle.std.specs.Prelude.{◌<◌};
ghost use Rattle.node_export.specs.Exports.{HandsCopy, HandsNothing};

use crate::handing::copy_out;
use meta_types::{NodeId, TypeFault};
use node_file::clean_copy;
use std::alloc::Global;

/// Hands out the bytes of a clean copy of the file of the node of this number: of the same last
/// life and table, with one record for each key, and of version 2.
///
/// Refused in this order: 3 `BadNode`; 31 `Damaged`, 32 `OtherNode` and 25 `StoreFull` as by
/// `zomtagi_serve`; 81 `ShortBuffer`, and then `len` says how long the copy is. 99 `Memory` may
/// come in place of each except 3. It takes memory for the table, and for the copy three times.
#[unsafe(no_mangle)]
pub extern "C" fn zomtagi_clean_copy(
    alloc: Global,
    bytes: &[u8],
    node: u16,
    buffer: &mut [u8],
    len: &mut usize,
) -> u16
    ensures bad_node { (node < 16 → ⊥)
        → HandsNothing 3 buffer.old buffer.new len.old len.new result }
    ensures hands { node < 16
        → HandsCopy node bytes.now buffer.old buffer.new len.old len.new result }
{
    let Ok(node) = NodeId::new(node) else {
        return TypeFault::BadNode.code();
    };
    match clean_copy(alloc, bytes, Some(node)) {
        Ok(copy) => copy_out(Some(copy.as_slice()), buffer, len),
        Err(fault) => fault.code(),
    }
}
