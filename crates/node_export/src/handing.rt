//! What the program is handed: what it has to store, the reply, and the frames.

ghost use Rattle.std.specs.Prelude.{◌≡◌, ◌≢◌, Some, None, IfSome, nat_eq, not};
ghost use Rattle.std.specs.Option.{option_copied};
ghost use Rattle.node_hosted.specs.Hosting.{Stores, handed_record, next_frame};
ghost use Rattle.node_export.specs.Exports.{AnswersAs, Hands, HandsFrom, HandsOf, HandsReply, InSlot, Sends};

use crate::numbers::{NO_NODE, OK, SHORT_BUFFER, answer_of};
use crate::reply::spell_reply;
use crate::slot::Slot;
use meta_types::TypeFault;
use node_hosted::{HostFault, HostedNode};
use std::alloc::Global;

/// Copies bytes to the front of a buffer, and says how many there are. Refused with 38 `Nothing` if
/// there are none, and 81 `ShortBuffer`.
pub(crate) fn copy_out(bytes: Option<&[u8]>, buffer: &mut [u8], len: &mut usize) -> u16
    ensures { Hands (option_copied bytes.entry) buffer.old buffer.new len.old len.new result }
{
    let Some(bytes) = bytes else {
        return HostFault::Nothing.code();
    };
    *len = bytes.len();
    if buffer.len() < bytes.len() {
        return SHORT_BUFFER;
    }
    buffer[..bytes.len()].copy_from_slice(bytes);
    OK
}

/// Hands out the record that the program has to store before it is handed the reply and the frames,
/// or all records of a batch that has ended, and the offset of the closed gate of its file. The
/// program writes the bytes after the first,
/// beginning one byte after the gate; syncs; writes the first byte over the gate; and syncs. If the
/// first write fails, it may be made again.
///
/// Refused with 80 `NoNode`, 38 `Nothing` and 81 `ShortBuffer`; with 81, `len` says how long the
/// record is.
#[unsafe(no_mangle)]
pub extern "C" fn zomtagi_record(
    alloc: Global,
    slot: &mut Slot,
    gate: &mut usize,
    buffer: &mut [u8],
    len: &mut usize,
) -> u16
    ensures same { slot.new.handle.held ≡ slot.old.handle.held }
    ensures hands { HandsFrom slot.old.handle.held (HandsOf handed_record) buffer.old buffer.new
        len.old len.new result }
    ensures gate { result ≡ OK
        → IfSome slot.old.handle.held (λ n. n.gate ≡ Some gate.new) }
    ensures gate_kept { result ≢ OK → gate.new ≡ gate.old }
{
    let number = slot.show(
        alloc,
        &mut |node| {
            let number = copy_out(node.record(), buffer, len);
            if number == OK {
                *gate = node.gate().unwrap_or(0);
            }
            number
        },
    );
    number.unwrap_or(NO_NODE)
}

/// Takes note that the program stored what `zomtagi_record` handed out, or that it failed to: then
/// `is_stored` is 0, and the node is stopped. Refused with 80 `NoNode`, 34 `Stopped` and 38
/// `Nothing`.
#[unsafe(no_mangle)]
pub extern "C" fn zomtagi_stored(alloc: Global, slot: &mut Slot, is_stored: u8) -> u16
    ensures { InSlot (AnswersAs (Stores (not (nat_eq is_stored 0))))
        slot.old.handle.held slot.new.handle.held result }
{
    let stored = slot.with(alloc, |node| answer_of(node.stored(is_stored != 0)));
    stored.unwrap_or(NO_NODE)
}

/// Hands out what the last step replied, as bytes: see `bindings/c/zomtagi.h`. Refused with 80
/// `NoNode`, 38 `Nothing`, 99 `Memory` and 81 `ShortBuffer`, as `zomtagi_record` is.
#[unsafe(no_mangle)]
pub extern "C" fn zomtagi_reply(
    alloc: Global,
    slot: &mut Slot,
    buffer: &mut [u8],
    len: &mut usize,
) -> u16
    ensures same { slot.new.handle.held ≡ slot.old.handle.held }
    ensures hands { HandsFrom slot.old.handle.held HandsReply buffer.old buffer.new len.old
        len.new result }
{
    let number = slot.show(alloc, &mut |node| copy_reply(alloc, node, buffer, len));
    number.unwrap_or(NO_NODE)
}

fn copy_reply(alloc: Global, node: &HostedNode, buffer: &mut [u8], len: &mut usize) -> u16
    ensures { HandsReply node.now buffer.old buffer.new len.old len.new result }
{
    match node.reply() {
        Some(reply) => match spell_reply(alloc, reply) {
            Ok(bytes) => copy_out(Some(bytes.as_slice()), buffer, len),
            Err(_) => TypeFault::Memory.code(),
        },
        None => HostFault::Nothing.code(),
    }
}

/// Hands out the next frame to send; its bytes 6 and 7 are its addressee. Refused as
/// `zomtagi_record` is.
#[unsafe(no_mangle)]
pub extern "C" fn zomtagi_frame(
    alloc: Global,
    slot: &mut Slot,
    buffer: &mut [u8],
    len: &mut usize,
) -> u16
    ensures same { slot.new.handle.held ≡ slot.old.handle.held }
    ensures hands { HandsFrom slot.old.handle.held (HandsOf next_frame) buffer.old buffer.new
        len.old len.new result }
{
    let number = slot.show(alloc, &mut |node| copy_frame(node, buffer, len));
    number.unwrap_or(NO_NODE)
}

fn copy_frame(node: &HostedNode, buffer: &mut [u8], len: &mut usize) -> u16
    ensures { HandsOf next_frame node.now buffer.old buffer.new len.old len.new result }
{
    match node.frame() {
        Some(frame) => copy_out(Some(frame.as_slice()), buffer, len),
        None => copy_out(None, buffer, len),
    }
}

/// Takes note that the program has the next frame, if there is one. Refused with 80 `NoNode`.
#[unsafe(no_mangle)]
pub extern "C" fn zomtagi_sent(alloc: Global, slot: &mut Slot) -> u16
    ensures { InSlot Sends slot.old.handle.held slot.new.handle.held result }
{
    let sent = slot.with(alloc, |node| node.sent());
    sent.map_or(NO_NODE, |()| OK)
}
