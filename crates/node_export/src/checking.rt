//! What bytes are refused with, and where: no node is needed, and nothing changes.

ghost use Rattle.std.specs.Prelude.{◌≡◌, ◌⊎◌, ◌<◌, Some};
ghost use Rattle.node_file.specs.Refusal.{refusal_of_serve};
ghost use Rattle.node_export.specs.Exports.{TellsOfFile, TellsOfFrame};

use crate::numbers::OK;
use meta_frame::{FrameFault, decode};
use meta_types::{NodeId, TypeFault};
use node_file::{FileFault, serve_bytes};
use std::alloc::Global;

/// Returns what serving the node of this number from these bytes is refused with, or 0. With 31
/// `Damaged`, `at` says from which offset on they aren't what a file has there; otherwise it stays
/// as it was.
///
/// Refused with 3 `BadNode`, and as `zomtagi_serve` is. It takes memory for the table.
#[unsafe(no_mangle)]
pub extern "C" fn zomtagi_check_file(alloc: Global, bytes: &[u8], node: u16, at: &mut usize) -> u16
    ensures bad_node { (node < 16 → ⊥) → (result ≡ 3) × (at.new ≡ at.old) }
    ensures tells { node < 16
        → TellsOfFile (refusal_of_serve (Some node) bytes.now) at.old at.new result
        ⊎ ((result ≡ 99) × (at.new ≡ at.old)) }
{
    let Ok(node) = NodeId::new(node) else {
        return TypeFault::BadNode.code();
    };
    match serve_bytes(alloc, bytes, Some(node)) {
        Ok(served) => {
            drop(served);
            OK
        }
        Err(fault) => {
            if let FileFault::Damaged { at: offset } = fault {
                *at = offset;
            }
            fault.code()
        }
    }
}

/// Returns why these bytes are no frame, or 0 if they are one. With 15 `BadBody`, `at` is the
/// offset of the first field that is at fault, or of what is left after the last one; otherwise it
/// stays as it was.
///
/// Refused as `meta_frame::decode` is. It takes memory for the frame.
#[unsafe(no_mangle)]
pub extern "C" fn zomtagi_check_frame(alloc: Global, frame: &[u8], at: &mut usize) -> u16
    ensures { TellsOfFrame frame.now at.old at.new result
        ⊎ ((result ≡ 99) × (at.new ≡ at.old)) }
{
    match decode(alloc, frame) {
        Ok(decoded) => {
            drop(decoded);
            OK
        }
        Err(fault) => {
            if let FrameFault::BadBody { at: field } = fault {
                *at = field;
            }
            fault.code()
        }
    }
}
