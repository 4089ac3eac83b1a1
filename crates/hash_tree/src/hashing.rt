//! What is fed to a hasher. None of it takes memory.

ghost use Rattle.std.specs.Prelude.{◌≡◌, ◌<◌, ◌^◌, length};
ghost use Rattle.std.specs.List.{concat};
ghost use Rattle.sha2.specs.Sha256.{sha256};
ghost use Rattle.frame_fields.specs.Field.{name, prefix};
ghost use Rattle.hash_tree.specs.Hashing.{Adds};
ghost use Rattle.hash_tree.specs.Tree.{leaf_of};

use crate::text_hasher::TextHasher;
use frame_fields::Digest;
use meta_types::FullPrefix;
use sha2::{Digest as _, Sha256};

/// Returns the leaf in which a key stands, by the key's own bytes.
pub(crate) fn leaf_of(key: &[u8]) -> u8
    ensures { result ≡ leaf_of key.now }
{
    let digest = Sha256::digest(key);
    digest[0]
}

/// Adds a byte string with its length.
pub(crate) fn add_name(hasher: &mut TextHasher, bytes: &[u8])
    requires { length bytes.now < 2 ^ 16 }
    ensures { Adds hasher.old hasher.new ((name 0 65535).spell bytes.now) }
{
    let len = bytes.len() as u16;
    hasher.add(len.to_be_bytes().as_slice());
    hasher.add(bytes);
}

pub(crate) fn add_prefix(hasher: &mut TextHasher, p: &FullPrefix)
    ensures { Adds hasher.old hasher.new (prefix.spell p.now) }
{
    add_name(hasher, p.prefix());
    add_name(hasher, p.sub());
}

/// Returns the digest of digests, one after the other.
pub(crate) fn digest_of_all(digests: &[Digest]) -> Digest
    ensures { result ≡ sha256 (concat digests.now) }
{
    let mut hasher = TextHasher::new();
    for digest in digests {
        hasher.add(digest.bytes());
    }
    hasher.finish()
}
