ghost use Rattle.std.specs.Prelude.{◌≡◌, length};

use crate::fault::SealFault;
use std::marker::Model;

/// The length of a key.
pub const KEY_LEN: usize = 32;

const TWO_KEYS_LEN: usize = 64;

/// A key: 32 bytes that nobody but the nodes of a cluster knows. It is never printed, copied or
/// compared, and it isn't wiped from memory.
#[derive(Drop)]
pub struct Key {
    bytes: [u8; KEY_LEN],
}

impl Model for Key {
    ghost use Rattle.std.specs.Prelude.{◌≡◌, ℕ, List, length};

    ghost Value = { List ℕ };

    ghost view = { λ key. key.bytes };

    ghost invariant = { λ key. length key.bytes ≡ 32 };
}

impl Key {
    ghost use Rattle.std.specs.Prelude.{◌≡◌, length};

    pub fn new(bytes: [u8; KEY_LEN]) -> Self
        ensures { result ≡ bytes }
    {
        Key { bytes }
    }

    pub(crate) fn bytes(&self) -> &[u8]
        ensures value { result.now ≡ self.now }
        ensures len { length self.now ≡ 32 }
    {
        &self.bytes
    }
}

/// The keys of a cluster. While nodes are given a new key one by one, each takes frames under the
/// new and under the old one.
#[derive(Drop)]
pub struct Keys {
    /// The key that seals, and opens.
    pub current: Key,
    /// A key that only opens: the one that was current before, or that will be.
    pub previous: Option<Key>,
}

impl Keys {
    ghost use Rattle.std.specs.Prelude.{◌≡◌, IfOk, IfErr, None, Some};
    ghost use Rattle.sealed_frames.specs.Keys.{keys_of};
    ghost use Rattle.sealed_frames.specs.declared.fault.SealFault.TheVariants.{BadKey};

    /// Returns the keys of these bytes: 32 are the current key, and 64 the current one and behind
    /// it the previous one. Refused with 18 `BadKey` for another number of bytes.
    pub fn from_slice(bytes: &[u8]) -> Result<Keys, SealFault>
        ensures value { IfOk result (λ keys. keys_of bytes.now ≡ Some keys) }
        ensures refused { IfErr result (λ fault.
            (fault ≡ BadKey) × (keys_of bytes.now ≡ None)) }
    {
        match bytes.len() {
            KEY_LEN => Ok(Keys {
                current: key_of(bytes),
                previous: None,
            }),
            TWO_KEYS_LEN => {
                let (current, previous) = bytes.split_at(KEY_LEN);
                Ok(Keys {
                    current: key_of(current),
                    previous: Some(key_of(previous)),
                })
            }
            _ => Err(SealFault::BadKey),
        }
    }
}

fn key_of(bytes: &[u8]) -> Key
    requires { length bytes.now ≡ 32 }
    ensures { result ≡ bytes.now }
{
    let mut key = [0; KEY_LEN];
    key.copy_from_slice(bytes);
    Key::new(key)
}
