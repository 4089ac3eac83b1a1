//! Bytes from frames.

ghost use Rattle.std.specs.Prelude.{◌≡◌, ◌++◌, ◌<◌, length, OnOk, OnErr, IfOk};
ghost use Rattle.meta_types.specs.Failing.{FailsWith};
ghost use Rattle.frame_fields.specs.Field.{object};
ghost use Rattle.meta_frame.specs.Frame.{IsLawful, Spells, spelling, limit, body};

use crate::fault::FrameFault;
use crate::header::{HEADER_LEN, MAX_FRAME_LEN, VERSION};
use crate::kinds::{body_len, kind_number, write_message};
use crate::message::Frame;
use dvvset::Entries;
use frame_fields::lengths::object_len;
use frame_fields::writing::{write_node, write_object, write_u8, write_u16, write_u32, write_u64};
use std::alloc::{AllocError, Global};

fn write(out: &mut Vec<u8>, frame: &Frame, len: u32) -> Result<(), AllocError>
    requires lawful { IsLawful frame.now }
    requires len { len ≡ length (body frame.now.message) }
    ensures { OnOk result (out.new.items ≡ out.old.items ++ spelling frame.now) }
{
    write_u16(out, 0x5054)?;
    write_u8(out, VERSION)?;
    write_u8(out, kind_number(&frame.message))?;
    write_node(out, frame.from)?;
    write_node(out, frame.to)?;
    write_u64(out, frame.number)?;
    write_u32(out, len)?;
    write_message(out, &frame.message)?;
    Ok(())
}

/// Returns the spelling of a lawful frame, in a buffer of just its length. Refused with 14
/// `TooLong` if it is longer than a frame may be, and only then.
pub fn encode(alloc: Global, frame: &Frame) -> Result<Vec<u8>, FrameFault>
    requires { IsLawful frame.now }
    ensures ok { IfOk result (λ bytes. Spells frame.now bytes.items) }
    ensures refused { FailsWith FrameFault.Memory (λ fault. (fault ≡ FrameFault.TooLong)
        × (limit < length (spelling frame.now))) result }
{
    let len = body_len(&frame.message);
    if len + HEADER_LEN > MAX_FRAME_LEN {
        return Err(FrameFault::TooLong);
    }
    let mut out = Vec::with_capacity(alloc, len + HEADER_LEN)?;
    write(&mut out, frame, len as u32)?;
    Ok(out)
}

/// Adds the spelling of an object at the end of bytes, which stay as they were if memory is
/// refused. It takes memory for a second copy of the spelling, besides what the bytes grow by.
pub fn put_object(out: &mut Vec<u8>, o: &Entries) -> Result<(), AllocError>
    requires { object.Fits o.now }
    ensures ok { OnOk result (out.new.items ≡ out.old.items ++ object.spell o.now) }
    ensures err { OnErr result (out.new.items ≡ out.old.items) }
{
    let mut field = Vec::with_capacity(*out.allocator(), object_len(o))?;
    write_object(&mut field, o)?;
    out.extend_from_slice(field.as_slice())
}
