//! Frames from bytes.

ghost use Rattle.std.specs.Prelude.{◌≡◌, IfOk};
ghost use Rattle.meta_types.specs.Failing.{FailsWith};
ghost use Rattle.meta_frame.specs.Frame.{Spells, RefusesBytes};
ghost use Rattle.meta_frame.specs.Reading.{Decodes, decode_of, IsHeader, framed};

use crate::bodies::read_message;
use crate::fault::FrameFault;
use crate::field::offset;
use crate::header::{HEADER_LEN, header_at, header_fault, u8_at};
use crate::message::{Frame, Message};
use frame_readers::FieldFault;
use std::alloc::Global;

/// Returns the frame that the bytes spell.
#[tactic(auto, unfolding(crate::specs::Reading::decode_of))]
fn read(alloc: Global, bytes: &[u8]) -> Result<Frame, FrameFault>
    ensures { Decodes result (decode_of bytes.now) }
{
    if let Some(fault) = header_fault(bytes) {
        return Err(fault);
    }
    let (_, body) = bytes.split_at(HEADER_LEN);
    let (message, rest) = match read_message(alloc, u8_at(bytes, 3), body) {
        Ok(found) => found,
        Err(fault) => return Err(offset(bytes, fault)),
    };
    if !rest.is_empty() {
        // Dropped by a call: if a message were dropped in place, each call of `read` would clear
        // the room of its parts.
        drop(message);
        return Err(offset(bytes, FieldFault::Left(rest.len())));
    }
    Ok(frame_of(bytes, message))
}

/// Returns the frame of a header that is right, and of a message.
fn frame_of(bytes: &[u8], message: Message) -> Frame
    requires { IsHeader bytes.now }
    ensures { result ≡ framed bytes.now message }
{
    let header = header_at(bytes);
    Frame {
        from: header.from,
        to: header.to,
        number: header.number,
        message,
    }
}

/// Returns the frame that all of the bytes spell. Otherwise the first refusal that applies: of the
/// tests of the header in their order, 10 `Short`, 11 `BadMagic`, 12 `BadVersion`, 13 `BadKind`, 14
/// `TooLong`, 10, 16 `LeftOver`, 15 `BadBody` at 4 for the sender and at 6 for the addressee; then
/// 15 `BadBody` at the first byte of the first field of the body that is at fault, or of what is
/// left of the body after its last field.
pub fn decode(alloc: Global, bytes: &[u8]) -> Result<Frame, FrameFault>
    ensures found { IfOk result (λ frame. Spells frame bytes.now) }
    ensures refused { FailsWith FrameFault.Memory (RefusesBytes bytes.now) result }
{
    read(alloc, bytes)
}
