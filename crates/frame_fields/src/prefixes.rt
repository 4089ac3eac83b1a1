ghost use Rattle.std.specs.Prelude.{◌≡◌, ◌++◌, ◌↔◌, IfOk, IsTrue, OnOk};
ghost use Rattle.frame_fields.specs.Field.{prefix_above, prefix_row, prefixes};

use crate::digest::Digest;
use crate::rows::{MAX_ROWS, is_before};
use meta_types::FullPrefix;
use std::alloc::AllocError;
use std::marker::Model;

/// A full prefix, and the digest of what stands under it.
#[derive(Debug, Drop, PartialEq, Eq)]
pub struct PrefixDigest {
    pub prefix: FullPrefix,
    pub digest: Digest,
}

impl PrefixDigest {
    pub fn copy(&self) -> Result<Self, AllocError>
        ensures { IfOk result (λ copy. copy ≡ self.now) }
    {
        Ok(PrefixDigest {
            prefix: self.prefix.copy()?,
            digest: self.digest,
        })
    }
}

/// Full prefixes in strictly rising order, at most 8,192, each with a digest.
#[derive(Debug, Drop)]
pub struct PrefixDigests {
    rows: Vec<PrefixDigest>,
}

impl Model for PrefixDigests {
    ghost use Rattle.std.specs.Prelude.{List};
    ghost use Rattle.frame_fields.specs.declared.prefixes.PrefixDigest.{PrefixDigest};
    ghost use Rattle.frame_fields.specs.Field.{prefixes};

    ghost Value = { List PrefixDigest };

    ghost view = { λ r. r.rows.items };

    ghost invariant = { λ r. prefixes.Fits r.rows.items };
}

impl PrefixDigests {
    ghost use Rattle.std.specs.Prelude.{◌≡◌, ◌↔◌, IfOk, IfSome, IsSome};
    ghost use Rattle.frame_fields.specs.Field.{prefixes};

    /// Returns the list of these rows, which must be at most 8,192 and rise strictly.
    pub fn new(rows: Vec<PrefixDigest>) -> Self
        requires { prefixes.Fits rows.items }
        ensures { result ≡ rows.items }
    {
        PrefixDigests { rows }
    }

    /// Returns the list of these rows, or `None` if they are more than 8,192 or don't rise
    /// strictly, and only then. With `None`, what was handed in is dropped.
    pub fn from_parts(rows: Vec<PrefixDigest>) -> Option<Self>
        ensures range { IsSome result ↔ prefixes.Fits rows.items }
        ensures value { IfSome result (λ prefixes. prefixes ≡ rows.items) }
    {
        if are_rows(rows.as_slice()) {
            Some(PrefixDigests { rows })
        } else {
            None
        }
    }

    /// Returns the parts, without taking memory.
    pub fn into_vec(self) -> Vec<PrefixDigest>
        ensures { result.items ≡ self }
    {
        self.rows
    }

    pub fn as_slice(&self) -> &[PrefixDigest]
        ensures value { result.now ≡ self.now }
        ensures lawful { prefixes.Fits self.now }
    {
        self.rows.as_slice()
    }

    pub fn copy(&self) -> Result<Self, AllocError>
        ensures { IfOk result (λ copy. copy ≡ self.now) }
    {
        let mut rows = Vec::with_capacity(*self.rows.allocator(), self.rows.len())?;
        push_copies(&mut rows, self.rows.as_slice())?;
        Ok(PrefixDigests { rows })
    }
}

/// Adds copies of rows at the end.
fn push_copies(copies: &mut Vec<PrefixDigest>, rows: &[PrefixDigest]) -> Result<(), AllocError>
    ensures { OnOk result (copies.new.items ≡ copies.old.items ++ rows.now) }
{
    for row in rows {
        copies.push(row.copy()?)?;
    }
    Ok(())
}

/// Returns whether rows rise strictly and are few enough.
fn are_rows(rows: &[PrefixDigest]) -> bool
    ensures { IsTrue result ↔ prefixes.Fits rows.now }
{
    if rows.len() > usize::from(MAX_ROWS) {
        return false;
    }
    let mut low: &[u8] = &[];
    let mut low_sub: &[u8] = &[];
    for row in rows {
        if !is_row_above(low, low_sub, row) {
            return false;
        }
        low = row.prefix.prefix();
        low_sub = row.prefix.sub();
    }
    true
}

/// Returns whether the prefix of a row stands after these two parts. The type of its digest keeps
/// what is asked of the digest.
fn is_row_above(low: &[u8], low_sub: &[u8], row: &PrefixDigest) -> bool
    ensures { IsTrue result ↔ (prefix_row
        (record { prefix = low.now; sub = low_sub.now })).Fits row.now }
{
    let _ = row.digest.bytes();
    is_above(low, low_sub, &row.prefix)
}

/// Returns whether a prefix stands after these two parts.
fn is_above(low: &[u8], low_sub: &[u8], p: &FullPrefix) -> bool
    ensures { IsTrue result ↔ (prefix_above
        (record { prefix = low.now; sub = low_sub.now })).Fits p.now }
{
    let first = p.prefix();
    !is_before(first, low) && (is_before(low, first) || is_before(low_sub, p.sub()))
}

impl PartialEq for PrefixDigests {
    ghost use Rattle.std.specs.Prelude.{◌≡◌, ◌↔◌, IsTrue};
    ghost use Rattle.std.specs.Cmp.{partial_equiv_from_equiv};
    ghost use Rattle.frame_fields.specs.Equal.{prefixes_eq, prefixes_equivalence};

    ghost eq = { prefixes_eq };

    ghost laws = { partial_equiv_from_equiv prefixes_equivalence };

    fn eq(&self, other: &PrefixDigests) -> bool
        ensures value { result ≡ prefixes_eq self.now other.now }
        ensures same { IsTrue result ↔ (self.now ≡ other.now) }
    {
        self.rows.as_slice() == other.rows.as_slice()
    }
}

impl Eq for PrefixDigests {
    ghost use Rattle.frame_fields.specs.Equal.{prefixes_equivalence};

    ghost laws = { prefixes_equivalence };
}
