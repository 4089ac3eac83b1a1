//! Checks of the bytes of a frame.

use meta_frame::{Frame, decode, encode, is_lawful};
use std::alloc::{AllocError, Global};

/// Adds the bytes of the frame number 1 from node 0 to node 1, of this kind and body.
pub(crate) fn put_frame(out: &mut Vec<u8>, kind: u8, body: &[u8]) -> Result<(), AllocError> {
    let len = u32::try_from(body.len()).unwrap_or(u32::MAX);
    out.extend_from_slice(&[b'P', b'T', 2, kind, 0, 0, 0, 1, 0, 0, 0, 0, 0, 0, 0, 1])?;
    out.extend_from_slice(&len.to_be_bytes())?;
    out.extend_from_slice(body)
}

/// Returns whether there is a copy, and it is equal to its source. It takes any type, since that is
/// proved sooner than for the kinds of a frame.
fn is_copy<T: PartialEq + Drop, E: Drop>(copy: Result<T, E>, source: &T) -> bool {
    match copy {
        Ok(copy) => copy == *source,
        Err(_) => false,
    }
}

fn is_copied(frame: &Frame) -> bool {
    is_copy(frame.copy(), frame)
}

/// Returns whether the frame is lawful, and spelled by just these bytes.
pub(crate) fn is_spelled(alloc: Global, frame: &Frame, bytes: &[u8]) -> bool {
    is_lawful(frame) && matches!(encode(alloc, frame), Ok(found) if found.as_slice() == bytes)
}

/// Returns whether the frame is spelled by just these bytes, and copied. Dropping it by a call is
/// proved sooner than letting it go.
fn is_whole(alloc: Global, frame: Frame, bytes: &[u8]) -> bool {
    let is_whole = is_spelled(alloc, &frame, bytes) && is_copied(&frame);
    drop(frame);
    is_whole
}

fn is_read(alloc: Global, bytes: &[u8]) -> bool {
    match decode(alloc, bytes) {
        Ok(frame) => is_whole(alloc, frame, bytes),
        Err(_) => false,
    }
}

/// Returns whether the frame of this kind and body is read, copied, and spelled by the same bytes
/// again.
pub(crate) fn is_body_kept(alloc: Global, kind: u8, body: &[u8]) -> bool {
    let mut bytes = Vec::new(alloc);
    put_frame(&mut bytes, kind, body).is_ok() && is_read(alloc, bytes.as_slice())
}
