//! Seals of frames: no node is needed, and nothing changes. It takes no memory.

ghost use Rattle.sealed_frames.specs.Keys.{keys_of};
ghost use Rattle.node_export.specs.Exports.{HandsSeal, TellsOfSealed};

use crate::handing::copy_out;
use crate::numbers::OK;
use sealed_frames::{Keys, open, seal_of};

/// Hands out the seal of a frame under the current key, 16 bytes: the program sends the frame, and
/// the seal behind it. `keys` are 32 bytes, the current key, or 64: behind it the previous one.
///
/// Refused in this order: 18 `BadKey`; 81 `ShortBuffer`.
#[unsafe(no_mangle)]
pub extern "C" fn zomtagi_seal(keys: &[u8], frame: &[u8], buffer: &mut [u8], len: &mut usize) -> u16
    ensures { HandsSeal (keys_of keys.now) frame.now buffer.old buffer.new len.old len.new result }
{
    match Keys::from_slice(keys) {
        Ok(keys) => copy_out(Some(seal_of(&keys, frame).as_slice()), buffer, len),
        Err(fault) => fault.code(),
    }
}

/// Returns 0 if these bytes are a frame and behind it its seal, under the current or the previous
/// key; `len` is then how many of them are the frame. `keys` are as `zomtagi_seal` takes them.
///
/// Refused in this order: 18 `BadKey`; 17 `BadSeal`.
#[unsafe(no_mangle)]
pub extern "C" fn zomtagi_open(keys: &[u8], bytes: &[u8], len: &mut usize) -> u16
    ensures { TellsOfSealed (keys_of keys.now) bytes.now len.old len.new result }
{
    let opened = match Keys::from_slice(keys) {
        Ok(keys) => open(&keys, bytes),
        Err(fault) => Err(fault),
    };
    match opened {
        Ok(frame) => {
            *len = frame.len();
            OK
        }
        Err(fault) => fault.code(),
    }
}
