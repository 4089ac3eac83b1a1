//! How many bytes fields take.

ghost use Rattle.std.specs.Prelude.{◌≡◌, ◌+◌, ◌*◌, ◌≤◌, ◌<◌, ◌^◌, [], length, All};
ghost use Rattle.std.specs.List.{flat_map};
ghost use Rattle.frame_fields.specs.Form.{spell_each};
ghost use Rattle.frame_fields.specs.Field.{digests, entry, forget, key, key_row, keys, lowest, most_rows, nodes, no_state, object, prefix, prefix_row, prefixes, value, vector};
ghost use Rattle.frame_fields.specs.Size.{IsShort, IsShortKey};

use crate::digest::DIGEST_LEN;
use crate::digests::Digests;
use crate::keys::{KeyDigest, KeyDigests};
use crate::nodes::Nodes;
use crate::prefixes::{PrefixDigest, PrefixDigests};
use dvvset::{Entries, Entry, Vector};
use meta_types::{FullPrefix, MetaKey, Value};

/// Returns the length of a prefix's spelling, at most 132 bytes.
pub fn prefix_len(p: &FullPrefix) -> usize
    ensures value { result ≡ length (prefix.spell p.now) }
    ensures small { result ≤ 132 }
{
    4 + p.prefix().len() + p.sub().len()
}

/// Returns the length of a key's spelling, at most 390 bytes.
pub fn key_len(k: &MetaKey) -> usize
    ensures value { result ≡ length (key.spell k.now) }
    ensures small { result ≤ 390 }
{
    let prefix = k.prefix();
    6 + prefix.prefix().len() + prefix.sub().len() + k.key().len()
}

/// Returns the length of a vector's spelling.
pub fn vector_len(v: &Vector) -> usize
    requires { vector.Fits v.now }
    ensures value { result ≡ length (vector.spell v.now) }
    ensures small { result ≤ 917504 }
{
    2 + 14 * v.counters().len()
}

fn value_len(v: &Value) -> usize
    ensures value { result ≡ length (value.spell v.now) }
    ensures small { result ≤ 1035 }
{
    match v.body() {
        None => 9,
        Some(bytes) => 11 + bytes.len(),
    }
}

fn values_len(values: &[Value]) -> usize
    requires { length values.now < 2 ^ 16 }
    ensures value { result ≡ length (spell_each (λ _. value) forget no_state values.now) }
    ensures small { result ≤ 1035 * length values.now }
{
    let mut len = 0;
    for value in values {
        len += value_len(value);
    }
    len
}

fn entry_len(e: &Entry) -> usize
    requires { IsShort e.now }
    ensures value { result ≡ length ((entry 0).spell e.now) }
    ensures small { result ≤ 67829000 }
{
    16 + values_len(e.values())
}

fn entries_len(entries: &[Entry]) -> usize
    requires short { All IsShort entries.now }
    requires few { length entries.now < 2 ^ 16 }
    ensures value { result ≡ length (flat_map (entry 0).spell entries.now) }
    ensures small { result ≤ 67829000 * length entries.now }
{
    let mut len = 0;
    for entry in entries {
        len += entry_len(entry);
    }
    len
}

/// Returns the length of an object's spelling.
pub fn object_len(o: &Entries) -> usize
    requires { object.Fits o.now }
    ensures value { result ≡ length (object.spell o.now) }
    ensures small { result ≤ 67829000 * 65536 + 2 }
{
    2 + entries_len(o.entries())
}

/// Returns the length of the spelling of node numbers.
pub fn nodes_len(n: &Nodes) -> usize
    ensures value { result ≡ length (nodes.spell n.now) }
    ensures small { result ≤ 34 }
{
    2 + 2 * n.as_slice().len()
}

/// Returns the length of the spelling of sixteen digests.
pub fn digests_len(d: &Digests) -> usize
    ensures value { result ≡ length (digests.spell d.now) }
    ensures small { result ≡ 512 }
{
    let _sixteen = d.as_slice();
    16 * DIGEST_LEN
}

fn each_prefix_len(rows: &[PrefixDigest]) -> usize
    requires { length rows.now ≤ most_rows }
    ensures value { result ≡ length (flat_map (prefix_row lowest).spell rows.now) }
    ensures small { result ≤ 164 * length rows.now }
{
    let mut len = 0;
    for row in rows {
        len += prefix_row_len(row);
    }
    len
}

fn prefix_row_len(row: &PrefixDigest) -> usize
    ensures value { result ≡ length ((prefix_row lowest).spell row.now) }
    ensures small { result ≤ 164 }
{
    prefix_len(&row.prefix) + row.digest.bytes().len()
}

/// Returns the length of the spelling of prefixes with their digests.
pub fn prefixes_len(p: &PrefixDigests) -> usize
    ensures value { result ≡ length (prefixes.spell p.now) }
    ensures small { result ≤ 1343490 }
{
    2 + each_prefix_len(p.as_slice())
}

fn key_row_len(row: &KeyDigest) -> usize
    requires { IsShortKey row.now }
    ensures value { result ≡ length ((key_row []).spell row.now) }
    ensures small { result ≤ 290 }
{
    2 + row.key.as_slice().len() + row.digest.bytes().len()
}

fn each_key_len(rows: &[KeyDigest]) -> usize
    requires few { length rows.now ≤ most_rows }
    requires short { All IsShortKey rows.now }
    ensures value { result ≡ length (flat_map (key_row []).spell rows.now) }
    ensures small { result ≤ 290 * length rows.now }
{
    let mut len = 0;
    for row in rows {
        len += key_row_len(row);
    }
    len
}

/// Returns the length of the spelling of keys with their digests.
pub fn keys_len(k: &KeyDigests) -> usize
    ensures value { result ≡ length (keys.spell k.now) }
    ensures small { result ≤ 2375682 }
{
    2 + each_key_len(k.as_slice())
}
