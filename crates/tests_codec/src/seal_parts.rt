//! What the tests have in common: keys and a frame, and what is said of bytes.

use sealed_frames::key::KEY_LEN;
use sealed_frames::{Key, Keys, SealFault, open, seal};
use std::alloc::Global;

/// A PRUNE from node 1 to node 0, its frame number 1.
pub(crate) static FRAME: &[u8] = b"PT\x02\x04\0\x01\0\x00\0\0\0\0\0\0\0\x01\0\0\0\0";

/// Returns the key of these bytes, with zeros up to the length of a key. HMAC appends zeros to a
/// short key, too.
pub(crate) fn key_of(front: &[u8]) -> Key {
    let mut bytes = [0; KEY_LEN];
    for (to, from) in bytes.iter_mut().zip(front) {
        *to = *from;
    }
    Key::new(bytes)
}

/// Returns the key of these bytes alone.
pub(crate) fn only(key: &[u8]) -> Keys {
    Keys {
        current: key_of(key),
        previous: None,
    }
}

/// Returns two keys, of which the first seals.
pub(crate) fn both(current: &[u8], previous: &[u8]) -> Keys {
    Keys {
        current: key_of(current),
        previous: Some(key_of(previous)),
    }
}

pub(crate) fn is_refused(keys: &Keys, bytes: &[u8]) -> bool {
    matches!(open(keys, bytes), Err(SealFault::BadSeal))
}

pub(crate) fn is_opened(keys: &Keys, bytes: &[u8], frame: &[u8]) -> bool {
    matches!(open(keys, bytes), Ok(found) if found == frame)
}

/// Returns whether the bytes are the frame, and this seal behind it.
pub(crate) fn has_seal(bytes: &[u8], frame: &[u8], seal: &[u8]) -> bool {
    matches!(bytes.strip_prefix(frame), Some(behind) if behind == seal)
}

/// Returns whether the frame is sealed so, and opened again.
pub(crate) fn is_sealed(alloc: Global, keys: &Keys, frame: &[u8], wanted: &[u8]) -> bool {
    match seal(alloc, keys, frame) {
        Ok(bytes) => has_seal(&bytes, frame, wanted) && is_opened(keys, &bytes, frame),
        Err(_) => false,
    }
}
