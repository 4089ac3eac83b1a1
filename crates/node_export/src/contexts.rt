//! Contexts by their numbers.

ghost use Rattle.std.specs.Prelude.{◌≡◌, ◌≢◌};
ghost use Rattle.node_export.specs.Exports.{Forgets, InSlot, KeepsAs};

use crate::numbers::{NO_NODE, OK};
use crate::slot::Slot;
use std::alloc::Global;

/// Keeps the context of the last reply, which must be that of a read, and says its number. Refused
/// with 80 `NoNode`, 38 `Nothing` and 99 `Memory`.
#[unsafe(no_mangle)]
pub extern "C" fn zomtagi_keep_context(alloc: Global, slot: &mut Slot, number: &mut u64) -> u16
    ensures kept { InSlot (KeepsAs number.new) slot.old.handle.held slot.new.handle.held result }
    ensures number { result ≢ OK → number.new ≡ number.old }
{
    match slot.with(alloc, |node| node.keep_context()) {
        Some(Ok(kept)) => {
            *number = kept;
            OK
        }
        Some(Err(fault)) => fault.code(),
        None => NO_NODE,
    }
}

/// Forgets the context of a number, if there is one. Refused with 80 `NoNode`.
#[unsafe(no_mangle)]
pub extern "C" fn zomtagi_forget_context(alloc: Global, slot: &mut Slot, number: u64) -> u16
    ensures { InSlot (Forgets number) slot.old.handle.held slot.new.handle.held result }
{
    let forgotten = slot.with(alloc, |node| node.forget_context(number));
    forgotten.map_or(NO_NODE, |()| OK)
}
