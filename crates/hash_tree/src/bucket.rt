//! The keys of one leaf.

ghost use Rattle.std.specs.Prelude.{◌≡◌, ◌↔◌, [], ◌∷◌, map, IfOk, IfErr, OnOk, OnErr, None, true, All, IsTrue};
ghost use Rattle.std.specs.FinMap.{find, put};
ghost use Rattle.sha2.specs.Sha256.{sha256};
ghost use Rattle.frame_fields.specs.Field.{key_row_parts};
ghost use Rattle.meta_types.specs.Name.{IsName};
ghost use Rattle.meta_types.specs.Order.{bytes_cmp};
ghost use Rattle.meta_store.specs.Kept.{without_row};
ghost use Rattle.hash_tree.specs.Hashing.{Adds};
ghost use Rattle.hash_tree.specs.Kept.{IsAbsentAt, IsAt};
ghost use Rattle.hash_tree.specs.Rising.{do_keys_rise};
ghost use Rattle.hash_tree.specs.Tree.{text_of};

use crate::hashing::add_name;
use crate::text_hasher::TextHasher;
use frame_fields::{Digest, KeyDigest};
use meta_types::ByteString;
use std::alloc::{AllocError, Global};
use std::cmp::Ordering;
use std::marker::Model;

/// The keys of one leaf in byte order, each with the digest of its object.
#[derive(Debug, Drop)]
pub(crate) struct Bucket {
    rows: Vec<KeyDigest>,
}

impl Model for Bucket {
    ghost use Rattle.std.specs.Prelude.{map};
    ghost use Rattle.frame_fields.specs.Field.{key_row_parts};
    ghost use Rattle.meta_store.specs.Kept.{AreRows};
    ghost use Rattle.hash_tree.specs.Tree.{OwnRows};

    ghost Value = { OwnRows };

    ghost view = { λ b. map key_row_parts b.rows.items };

    ghost invariant = { λ b. AreRows (map key_row_parts b.rows.items) };
}

impl Bucket {
    pub(crate) fn of_one(alloc: Global, key: ByteString, digest: Digest) -> Result<Self, AllocError>
        requires in_range { IsName 256 key }
        ensures { IfOk result (λ bucket. bucket ≡ (key, digest) ∷ []) }
    {
        let mut rows = Vec::new(alloc);
        rows.push(KeyDigest { key, digest })?;
        Ok(Bucket { rows })
    }

    /// Holds the digest under the key in place of what stands there. A key that is there is neither
    /// copied nor refused. Fails only when memory runs out for a new key, and then nothing changes.
    pub(crate) fn hold(&mut self, key: &ByteString, digest: Digest) -> Result<(), AllocError>
        requires in_range { IsName 256 key.now }
        ensures value { OnOk result (self.new ≡ put bytes_cmp key.now digest self.old) }
        ensures absent { OnErr result (find bytes_cmp key.now self.old ≡ None) }
        ensures same { OnErr result (self.new ≡ self.old) }
    {
        match place_of(self.rows.as_slice(), key) {
            Ok(place) => {
                self.rows[place].digest = digest;
                Ok(())
            }
            Err(place) => {
                let key = key.copy()?;
                self.rows.insert(place, KeyDigest { key, digest })?;
                Ok(())
            }
        }
    }

    /// Takes the key and its digest out. Nothing changes if the key isn't there. It takes no memory.
    pub(crate) fn forget(&mut self, key: &ByteString)
        ensures { self.new ≡ without_row key.now self.old }
    {
        if let Ok(place) = place_of(self.rows.as_slice(), key) {
            self.rows.remove(place);
        }
    }

    pub(crate) fn is_empty(&self) -> bool
        ensures { IsTrue result ↔ (self.now ≡ []) }
    {
        self.rows.is_empty()
    }

    pub(crate) fn digest(&self) -> Digest
        ensures { result ≡ sha256 (text_of self.now) }
    {
        let mut hasher = TextHasher::new();
        add_rows(&mut hasher, self.rows.as_slice());
        hasher.finish()
    }

    /// Returns the keys with their digests, in order.
    pub(crate) fn rows(&self) -> &[KeyDigest]
        ensures { result.now ≡ map (λ row. record { key = row.0; digest = row.1 }) self.now }
    {
        self.rows.as_slice()
    }

    /// Fails only when memory runs out.
    pub(crate) fn copy(&self, alloc: Global) -> Result<Self, AllocError>
        ensures { IfOk result (λ copy. copy ≡ self.now) }
    {
        Ok(Bucket {
            rows: copied(alloc, self.rows.as_slice())?,
        })
    }
}

/// Returns the place of the key among rising rows, or, as an error, the place at which it would
/// stand.
fn place_of(rows: &[KeyDigest], key: &ByteString) -> Result<usize, usize>
    requires { do_keys_rise rows.now ≡ true }
    ensures there { IfOk result (IsAt key.now rows.now) }
    ensures absent { IfErr result (IsAbsentAt key.now rows.now) }
{
    for (place, row) in rows.iter().enumerate() {
        match key.cmp(&row.key) {
            Ordering::Greater => {}
            Ordering::Equal => return Ok(place),
            Ordering::Less => return Err(place),
        }
    }
    Err(rows.len())
}

fn add_rows(hasher: &mut TextHasher, rows: &[KeyDigest])
    requires { All (λ row. IsName 256 row.key) rows.now }
    ensures { Adds hasher.old hasher.new (text_of (map key_row_parts rows.now)) }
{
    for row in rows {
        add_name(hasher, row.key.as_slice());
        hasher.add(row.digest.bytes());
    }
}

/// Returns copies of rows. Fails only when memory runs out.
pub(crate) fn copied(alloc: Global, rows: &[KeyDigest]) -> Result<Vec<KeyDigest>, AllocError>
    ensures { IfOk result (λ copies. copies.items ≡ rows.now) }
{
    let mut copies = Vec::with_capacity(alloc, rows.len())?;
    for row in rows {
        copies.push(row.copy()?)?;
    }
    Ok(copies)
}
