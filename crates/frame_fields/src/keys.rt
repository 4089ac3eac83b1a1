ghost use Rattle.std.specs.Prelude.{◌≡◌, ◌++◌, ◌↔◌, IfOk, IsTrue, OnOk};
ghost use Rattle.frame_fields.specs.Field.{key_row, keys};

use crate::digest::Digest;
use crate::rows::{MAX_ROWS, is_before};
use meta_types::ByteString;
use meta_types::key::MAX_KEY_LEN;
use std::alloc::AllocError;
use std::marker::Model;

/// The bytes of a key under a prefix that is known from elsewhere, and a digest.
#[derive(Debug, Drop, PartialEq, Eq)]
pub struct KeyDigest {
    pub key: ByteString,
    pub digest: Digest,
}

impl KeyDigest {
    pub fn copy(&self) -> Result<Self, AllocError>
        ensures { IfOk result (λ copy. copy ≡ self.now) }
    {
        Ok(KeyDigest {
            key: self.key.copy()?,
            digest: self.digest,
        })
    }
}

/// Bytes of keys under one prefix, in strictly rising order, at most 8,192, each with a digest.
#[derive(Debug, Drop)]
pub struct KeyDigests {
    rows: Vec<KeyDigest>,
}

impl Model for KeyDigests {
    ghost use Rattle.std.specs.Prelude.{List};
    ghost use Rattle.frame_fields.specs.declared.keys.KeyDigest.{KeyDigest};
    ghost use Rattle.frame_fields.specs.Field.{keys};

    ghost Value = { List KeyDigest };

    ghost view = { λ r. r.rows.items };

    ghost invariant = { λ r. keys.Fits r.rows.items };
}

impl KeyDigests {
    ghost use Rattle.std.specs.Prelude.{◌≡◌, ◌↔◌, IfOk, IfSome, IsSome};
    ghost use Rattle.frame_fields.specs.Field.{keys};

    /// Returns the list of these rows. They must fit: at most 8,192, with keys of 1 to 256 bytes
    /// that rise strictly.
    pub fn new(rows: Vec<KeyDigest>) -> Self
        requires { keys.Fits rows.items }
        ensures { result ≡ rows.items }
    {
        KeyDigests { rows }
    }

    /// Returns the list of these rows, or `None` if they are more than 8,192, a key has no byte or
    /// more than 256, or keys don't rise strictly, and only then. With `None`, what was handed in
    /// is dropped.
    pub fn from_parts(rows: Vec<KeyDigest>) -> Option<Self>
        ensures range { IsSome result ↔ keys.Fits rows.items }
        ensures value { IfSome result (λ keys. keys ≡ rows.items) }
    {
        if are_rows(rows.as_slice()) {
            Some(KeyDigests { rows })
        } else {
            None
        }
    }

    /// Returns the parts, without taking memory.
    pub fn into_vec(self) -> Vec<KeyDigest>
        ensures { result.items ≡ self }
    {
        self.rows
    }

    pub fn as_slice(&self) -> &[KeyDigest]
        ensures value { result.now ≡ self.now }
        ensures lawful { keys.Fits self.now }
    {
        self.rows.as_slice()
    }

    pub fn copy(&self) -> Result<Self, AllocError>
        ensures { IfOk result (λ copy. copy ≡ self.now) }
    {
        let mut rows = Vec::with_capacity(*self.rows.allocator(), self.rows.len())?;
        push_copies(&mut rows, self.rows.as_slice())?;
        Ok(KeyDigests { rows })
    }
}

/// Adds copies of rows at the end.
fn push_copies(copies: &mut Vec<KeyDigest>, rows: &[KeyDigest]) -> Result<(), AllocError>
    ensures { OnOk result (copies.new.items ≡ copies.old.items ++ rows.now) }
{
    for row in rows {
        copies.push(row.copy()?)?;
    }
    Ok(())
}

/// Returns whether rows rise strictly, have keys of lawful lengths, and are few enough.
fn are_rows(rows: &[KeyDigest]) -> bool
    ensures { IsTrue result ↔ keys.Fits rows.now }
{
    if rows.len() > usize::from(MAX_ROWS) {
        return false;
    }
    let mut low: &[u8] = &[];
    for row in rows {
        if !is_row_above(low, row) {
            return false;
        }
        low = row.key.as_slice();
    }
    true
}

/// Returns whether the key of a row has a lawful length and stands after these bytes. The type of
/// its digest keeps what is asked of the digest.
fn is_row_above(low: &[u8], row: &KeyDigest) -> bool
    ensures { IsTrue result ↔ (key_row low.now).Fits row.now }
{
    let _ = row.digest.bytes();
    let key = row.key.as_slice();
    !key.is_empty() && key.len() <= MAX_KEY_LEN && is_before(low, key)
}

impl PartialEq for KeyDigests {
    ghost use Rattle.std.specs.Prelude.{◌≡◌, ◌↔◌, IsTrue};
    ghost use Rattle.std.specs.Cmp.{partial_equiv_from_equiv};
    ghost use Rattle.frame_fields.specs.Equal.{keys_eq, keys_equivalence};

    ghost eq = { keys_eq };

    ghost laws = { partial_equiv_from_equiv keys_equivalence };

    fn eq(&self, other: &KeyDigests) -> bool
        ensures value { result ≡ keys_eq self.now other.now }
        ensures same { IsTrue result ↔ (self.now ≡ other.now) }
    {
        self.rows.as_slice() == other.rows.as_slice()
    }
}

impl Eq for KeyDigests {
    ghost use Rattle.frame_fields.specs.Equal.{keys_equivalence};

    ghost laws = { keys_equivalence };
}
