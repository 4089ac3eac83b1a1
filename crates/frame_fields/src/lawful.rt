//! Which values of the fields have a spelling.

ghost use Rattle.std.specs.Prelude.{◌≡◌, ◌<◌, ◌≤◌, ◌^◌, ◌↔◌, IsTrue, All};
ghost use Rattle.std.specs.Int.{w8, w16};
ghost use Rattle.std.specs.List.{list_all};
ghost use Rattle.frame_fields.specs.Form.{any_number};
ghost use Rattle.frame_fields.specs.Field.{answer, digest, digests, is_bare, key, keys, life, node, nodes, object, place, prefix, prefixes, priority, vector};
ghost use Rattle.frame_fields.specs.Size.{IsShort};

use crate::digest::Digest;
use crate::digests::Digests;
use crate::keys::KeyDigests;
use crate::neighbor::{NeighborAnswer, Priority};
use crate::nodes::Nodes;
use crate::prefixes::PrefixDigests;
use dvvset::{Entries, Entry, Vector};
use meta_types::{FullPrefix, MetaKey, NodeId};

/// The most values of a list, whose count has 16 bits.
pub const MAX_COUNT: usize = 65_535;

/// Always true: the type keeps what a frame asks of a number of 16 bits.
pub fn is_u16(number: &u16) -> bool
    ensures { IsTrue result ↔ (any_number w16).Fits number.now }
{
    let _number = *number;
    true
}

/// Returns whether a number is at least 1, as that of a life is.
pub fn is_life(number: &u32) -> bool
    ensures { IsTrue result ↔ life.Fits number.now }
{
    *number >= 1
}

/// Always true, as for `is_u16`.
pub fn is_u8(number: &u8) -> bool
    ensures { IsTrue result ↔ (any_number w8).Fits number.now }
{
    let _number = *number;
    true
}

/// Always true: the type keeps what a frame asks of a node number.
pub fn is_node(id: &NodeId) -> bool
    ensures { IsTrue result ↔ node.Fits id.now }
{
    let _number = id.number();
    true
}

/// Always true, as for `is_node`.
pub fn is_priority(p: &Priority) -> bool
    ensures { IsTrue result ↔ priority.Fits p.now }
{
    match p {
        Priority::Low => true,
        Priority::High => true,
    }
}

/// Always true, as for `is_node`.
pub fn is_answer(a: &NeighborAnswer) -> bool
    ensures { IsTrue result ↔ answer.Fits a.now }
{
    match a {
        NeighborAnswer::No => true,
        NeighborAnswer::Yes => true,
    }
}

/// Returns whether a number is below 16, and so numbers one of sixteen.
pub fn is_place(number: &u8) -> bool
    ensures { IsTrue result ↔ place.Fits number.now }
{
    *number < 16
}

/// Always true, as for `is_node`.
pub fn is_nodes(n: &Nodes) -> bool
    ensures { IsTrue result ↔ nodes.Fits n.now }
{
    let _nodes = n.as_slice();
    true
}

/// Always true, as for `is_node`.
pub fn is_digest(d: &Digest) -> bool
    ensures { IsTrue result ↔ digest.Fits d.now }
{
    let _bytes = d.bytes();
    true
}

/// Always true, as for `is_node`.
pub fn is_digests(d: &Digests) -> bool
    ensures { IsTrue result ↔ digests.Fits d.now }
{
    let _digests = d.as_slice();
    true
}

/// Always true, as for `is_node`.
pub fn is_prefix(p: &FullPrefix) -> bool
    ensures { IsTrue result ↔ prefix.Fits p.now }
{
    let _prefix = p.prefix();
    true
}

/// Always true, as for `is_node`.
pub fn is_prefixes(p: &PrefixDigests) -> bool
    ensures { IsTrue result ↔ prefixes.Fits p.now }
{
    let _rows = p.as_slice();
    true
}

/// Always true, as for `is_node`.
pub fn is_keys(k: &KeyDigests) -> bool
    ensures { IsTrue result ↔ keys.Fits k.now }
{
    let _rows = k.as_slice();
    true
}

/// Always true: the type keeps what a frame asks of a key.
pub fn is_key(k: &MetaKey) -> bool
    ensures { IsTrue result ↔ key.Fits k.now }
{
    let _key = k.key();
    true
}

/// Returns whether a vector has a spelling in frames: it counts at least one writer, and at most
/// 65,535.
pub fn is_vector(v: &Vector) -> bool
    ensures { IsTrue result ↔ vector.Fits v.now }
{
    is_count(v.counters().len())
}

/// Returns whether a count is at least 1 and fits 16 bits.
fn is_count(count: usize) -> bool
    ensures { IsTrue result ↔ ((1 ≤ count) × (count < 2 ^ 16)) }
{
    1 <= count && count <= MAX_COUNT
}

/// Returns whether an object has a spelling in frames: it shows a value, has no more than 65,535
/// entries, and no entry shows more values than that.
pub fn is_object(o: &Entries) -> bool
    ensures { IsTrue result ↔ object.Fits o.now }
{
    let entries = o.entries();
    if entries.len() > MAX_COUNT {
        return false;
    }
    all_are_short(entries) && !all_are_bare(entries)
}

fn all_are_short(entries: &[Entry]) -> bool
    ensures { IsTrue result ↔ All IsShort entries.now }
{
    for entry in entries {
        if entry.values().len() > MAX_COUNT {
            return false;
        }
    }
    true
}

/// Returns whether no entry shows a value.
pub fn all_are_bare(entries: &[Entry]) -> bool
    ensures { result ≡ list_all is_bare entries.now }
{
    entries.iter().all(|entry| entry.values().is_empty())
}
