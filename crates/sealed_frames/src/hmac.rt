//! HMAC-SHA-256. It takes no memory, and copies no text.

ghost use Rattle.std.specs.Prelude.{◌≡◌};
ghost use Rattle.sealed_frames.specs.Hmac.{block_of, hmac, padded};

use crate::key::Key;
use sha2::{Digest, Sha256};

/// The length of a block of SHA-256.
const BLOCK_LEN: usize = 64;

const IPAD: u8 = 0x36;

const OPAD: u8 = 0x5C;

/// Returns the exclusive or of the key's block with the byte of a pad.
fn padded_block(key: &Key, pad: u8) -> [u8; BLOCK_LEN]
    ensures { result ≡ padded pad (block_of key.now) }
{
    let bytes = key.bytes();
    let mut block = [pad; BLOCK_LEN];
    for (place, byte) in bytes.iter().enumerate() {
        block[place] = *byte ^ pad;
    }
    block
}

/// Returns the code of a text under a key.
#[tactic(auto, unfolding(crate::specs::Hmac::hmac))]
pub(crate) fn hmac(key: &Key, text: &[u8]) -> [u8; 32]
    ensures { result ≡ hmac key.now text.now }
{
    let mut inner = Sha256::new();
    inner.update(padded_block(key, IPAD).as_slice());
    inner.update(text);
    let inner: [u8; 32] = inner.finalize();
    let mut outer = Sha256::new();
    outer.update(padded_block(key, OPAD).as_slice());
    outer.update(inner.as_slice());
    outer.finalize()
}
