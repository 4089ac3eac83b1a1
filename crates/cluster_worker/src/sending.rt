//! Sending the frames of a call.

ghost use Rattle.std.specs.Prelude.{◌≡◌, IfOk, IsFalse, IsTrue};
ghost use Rattle.cluster_worker.specs.Passes.{ArePassesInto};
ghost use Rattle.cluster_worker.specs.Frames.{ArePutOrLost, IsLost, IsPut, addressee_of};

use inbox::{Inbox, PutPass};
use meta_types::ByteString;
use std::alloc::AllocError;
use std::sync::Wait;

/// Returns the number of the addressee that a frame names; `None` if it is too short to name one.
fn addressee(frame: &[u8]) -> Option<usize>
    ensures { result ≡ addressee_of frame.now }
{
    let high = frame.get(6)?;
    let low = frame.get(7)?;
    Some(usize::from(u16::from_be_bytes([*high, *low])))
}

/// Puts a frame into the inbox of its addressee, and returns whether it is there. It isn't if that
/// inbox is full or closed, or if the frame names no such node.
fn send<R: Wait>(rt: &R, inboxes: &[Inbox], puts: &mut Vec<PutPass>, frame: ByteString) -> bool
    requires passes { ArePassesInto inboxes.now puts.old.items }
    ensures passes { ArePassesInto inboxes.now puts.new.items }
    ensures put { IsTrue result → IsPut puts.old.items frame puts.new.items }
    ensures lost { IsFalse result
        → (puts.new.items ≡ puts.old.items) × IsLost inboxes.now puts.old.items frame }
{
    match addressee(frame.as_slice()) {
        Some(node) if node < puts.len() => inboxes[node].put(rt, &mut puts[node], frame).is_ok(),
        _ => false,
    }
}

/// Sends the frames in their order, and returns how many of them are lost.
pub(crate) fn send_all<R: Wait>(
    rt: &R,
    inboxes: &[Inbox],
    puts: &mut Vec<PutPass>,
    frames: &[ByteString],
) -> Result<u64, AllocError>
    requires passes { ArePassesInto inboxes.now puts.old.items }
    ensures passes { ArePassesInto inboxes.now puts.new.items }
    ensures sent { IfOk result
        (λ lost. ArePutOrLost inboxes.now puts.old.items frames.now lost puts.new.items) }
{
    let mut lost = 0u64;
    for frame in frames {
        if !send(rt, inboxes, puts, frame.copy()?) {
            lost = lost.saturating_add(1);
        }
    }
    Ok(lost)
}
