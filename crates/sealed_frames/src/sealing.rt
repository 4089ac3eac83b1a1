//! Sealing frames, and opening what was sealed.

ghost use Rattle.std.specs.Prelude.{◌≡◌, ◌↔◌, IfOk, IsOk, IsTrue, length};
ghost use Rattle.sealed_frames.specs.Seal.{IsSealed, frame_in, seal_of, sealed_frame};

use crate::fault::SealFault;
use crate::hmac::hmac;
use crate::key::{Key, Keys};
use std::alloc::{AllocError, Global};

/// How many bytes a sealed frame has more than the frame.
pub const SEAL_LEN: usize = 16;

/// Returns the frame, and behind it its seal under the current key. Fails only when memory runs
/// out.
pub fn seal(alloc: Global, keys: &Keys, frame: &[u8]) -> Result<Vec<u8>, AllocError>
    ensures { IfOk result (λ sealed. sealed.items ≡ sealed_frame keys.now.current frame.now) }
{
    let mut sealed = Vec::with_capacity(alloc, frame.len() + SEAL_LEN)?;
    sealed.extend_from_slice(frame)?;
    sealed.extend_from_slice(seal_under(&keys.current, frame).as_slice())?;
    Ok(sealed)
}

/// Returns the frame in bytes that were sealed under one of the keys: those before the last 16. It
/// takes no memory. Refused with 17 `BadSeal`.
///
/// Each key is tried, whether or not another one fits, and each byte of a seal is compared.
pub fn open<'a>(keys: &Keys, bytes: &'a [u8]) -> Result<&'a [u8], SealFault>
    ensures accepted { IsOk result ↔ IsSealed keys.now bytes.now }
    ensures frame { IfOk result (λ frame. frame.now ≡ frame_in bytes.now) }
    ensures refused { (result ≡ Err SealFault.BadSeal) ↔ ¬ (IsSealed keys.now bytes.now) }
{
    if bytes.len() < SEAL_LEN {
        return Err(SealFault::BadSeal);
    }
    let (frame, seal) = bytes.split_at(bytes.len() - SEAL_LEN);
    let is_current = has_seal(&keys.current, frame, seal);
    let is_previous = match &keys.previous {
        Some(key) => has_seal(key, frame, seal),
        None => false,
    };
    if is_current || is_previous {
        Ok(frame)
    } else {
        Err(SealFault::BadSeal)
    }
}

/// Returns the seal of a frame under the current key, for who sends it behind the frame himself. It
/// takes no memory.
pub fn seal_of(keys: &Keys, frame: &[u8]) -> [u8; SEAL_LEN]
    ensures { result ≡ seal_of keys.now.current frame.now }
{
    seal_under(&keys.current, frame)
}

/// Returns the seal of a frame under a key.
#[tactic(auto, unfolding(crate::specs::Seal::seal_of))]
fn seal_under(key: &Key, frame: &[u8]) -> [u8; SEAL_LEN]
    ensures { result ≡ seal_of key.now frame.now }
{
    let code = hmac(key, frame);
    let mut seal = [0; SEAL_LEN];
    seal.copy_from_slice(&code[..SEAL_LEN]);
    seal
}

/// Returns whether these 16 bytes are the seal of the frame under the key.
fn has_seal(key: &Key, frame: &[u8], seal: &[u8]) -> bool
    requires { length seal.now ≡ 16 }
    ensures { IsTrue result ↔ (seal.now ≡ seal_of key.now frame.now) }
{
    difference(seal, seal_under(key, frame).as_slice()) == 0
}

/// Returns the bits in which bytes of the two differ at any place: none if the two are the same. It
/// reads all bytes, wherever the first difference is.
fn difference(one: &[u8], other: &[u8]) -> u8
    requires { length one.now ≡ length other.now }
    ensures { (result ≡ 0) ↔ (one.now ≡ other.now) }
{
    let mut bits = 0;
    for (place, byte) in one.iter().enumerate() {
        bits |= *byte ^ other[place];
    }
    bits
}
