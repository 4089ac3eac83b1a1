//! Reading node numbers, digests, and rows that rise. A row is compared with the row before it in
//! the bytes themselves.

ghost use Rattle.std.specs.Prelude.{◌≡◌, ◌≢◌, ◌<◌, [], IfOk, IfErr};
ghost use Rattle.frame_fields.specs.Field.{no_state, forget, is_before, lowest, prefix_of, key_bytes};
ghost use Rattle.meta_types.specs.Name.{IsName};
ghost use Rattle.frame_readers.specs.Reader.{Gives, MatchesReader, each_reader, node_reader, nodes_reader, digest_reader, digests_reader, first_reader, second_reader, prefix_above_reader, prefix_row_reader, prefixes_reader, key_above_reader, key_row_reader, keys_reader};
ghost use Rattle.frame_readers.specs.declared.fault.FieldFault.TheVariants.{Memory};

use crate::fault::FieldFault;
use crate::reading::{most_rows, node_from, read_bytes, read_node, u16_within};
use frame_fields::rows::{MAX_ROWS, is_before};
use frame_fields::{Digest, Digests, KeyDigest, KeyDigests, Nodes, PrefixDigest, PrefixDigests};
use meta_types::key::MAX_KEY_LEN;
use meta_types::node::MAX_NODES;
use meta_types::prefix::MAX_PREFIX_LEN;
use meta_types::{ByteString, FullPrefix, NodeId};
use std::alloc::{AllocError, Global};

/// The fewest bytes of a prefix with its digest.
const MIN_PREFIX_ROW_LEN: usize = 38;

/// The fewest bytes of a key with its digest.
const MIN_KEY_ROW_LEN: usize = 35;

/// Reads `len` node numbers.
fn each_node(alloc: Global, len: u16, bytes: &[u8]) -> Result<(Vec<NodeId>, &[u8]), FieldFault>
    ensures { Gives (λ x. (x.0.items, x.1.now)) result
        (each_reader (λ _. node_reader) forget no_state len bytes.now) }
{
    let mut nodes = Vec::with_capacity(alloc, usize::from(len))?;
    let mut rest = bytes;
    for _ in 0..len {
        let (number, after) = read_node(rest)?;
        nodes.push(node_from(number))?;
        rest = after;
    }
    Ok((nodes, rest))
}

#[tactic(auto, unfolding(crate::specs::Reader::nodes_reader))]
fn list_of_nodes(alloc: Global, bytes: &[u8]) -> Result<(Vec<NodeId>, &[u8]), FieldFault>
    ensures { Gives (λ x. (x.0.items, x.1.now)) result (nodes_reader bytes.now) }
{
    let (len, rest) = u16_within(0, u64::from(MAX_NODES), bytes)?;
    let (nodes, rest) = each_node(alloc, len, rest)?;
    Ok((nodes, rest))
}

pub fn read_nodes(alloc: Global, bytes: &[u8]) -> Result<(Nodes, &[u8]), FieldFault>
    ensures { MatchesReader result (nodes_reader bytes.now) }
{
    let (nodes, rest) = list_of_nodes(alloc, bytes)?;
    Ok((Nodes::new(nodes), rest))
}

#[tactic(auto, unfolding(crate::specs::Reader::digest_reader))]
pub fn read_digest(bytes: &[u8]) -> Result<([u8; 32], &[u8]), FieldFault>
    ensures value { MatchesReader result (digest_reader bytes.now) }
    ensures memory { IfErr result (λ fault. fault ≢ Memory) }
{
    match bytes.split_first_chunk::<32>() {
        Some((digest, rest)) => Ok((*digest, rest)),
        None => Err(FieldFault::Left(bytes.len())),
    }
}

#[tactic(auto, unfolding(crate::specs::Reader::digests_reader))]
fn each_digest(alloc: Global, bytes: &[u8]) -> Result<(Vec<Digest>, &[u8]), FieldFault>
    ensures { Gives (λ x. (x.0.items, x.1.now)) result (digests_reader bytes.now) }
{
    let mut digests = Vec::with_capacity(alloc, 16)?;
    let mut rest = bytes;
    for _ in 0..16_u16 {
        let (digest, after) = read_digest(rest)?;
        digests.push(Digest::new(digest))?;
        rest = after;
    }
    Ok((digests, rest))
}

pub fn read_digests(alloc: Global, bytes: &[u8]) -> Result<(Digests, &[u8]), FieldFault>
    ensures { MatchesReader result (digests_reader bytes.now) }
{
    let (digests, rest) = each_digest(alloc, bytes)?;
    Ok((Digests::new(digests), rest))
}

/// Reads the first part of a prefix, which is not less than the first part of the prefix before.
#[tactic(auto, unfolding(crate::specs::Reader::first_reader))]
fn read_first<'a>(low: &[u8], bytes: &'a [u8]) -> Result<(&'a [u8], &'a [u8]), FieldFault>
    ensures value { Gives (λ x. (x.0.now, x.1.now)) result (first_reader low.now bytes.now) }
    ensures range { IfOk result (λ x. IsName 64 x.0.now) }
{
    let (len, rest) = u16_within(1, MAX_PREFIX_LEN as u64, bytes)?;
    let (first, after) = read_bytes(usize::from(len), rest)?;
    if is_before(first, low) {
        return Err(FieldFault::Left(rest.len()));
    }
    Ok((first, after))
}

/// Reads the second part of a prefix, which follows a greater first part or is greater than the
/// second part of the prefix before.
#[tactic(auto, unfolding(crate::specs::Reader::second_reader))]
fn read_second<'a>(
    low: &[u8],
    low_sub: &[u8],
    first: &[u8],
    bytes: &'a [u8],
) -> Result<(&'a [u8], &'a [u8]), FieldFault>
    ensures value { Gives (λ x. (x.0.now, x.1.now)) result
        (second_reader (record { prefix = low.now; sub = low_sub.now }) first.now bytes.now) }
    ensures range { IfOk result (λ x. IsName 64 x.0.now) }
{
    let (len, rest) = u16_within(1, MAX_PREFIX_LEN as u64, bytes)?;
    let (sub, after) = read_bytes(usize::from(len), rest)?;
    if is_before(low, first) || is_before(low_sub, sub) {
        Ok((sub, after))
    } else {
        Err(FieldFault::Left(rest.len()))
    }
}

/// Reads the parts of a prefix above another.
#[tactic(auto, unfolding(crate::specs::Reader::prefix_above_reader))]
fn parts_above<'a>(
    low: &[u8],
    low_sub: &[u8],
    bytes: &'a [u8],
) -> Result<(&'a [u8], &'a [u8], &'a [u8]), FieldFault>
    ensures value { Gives (λ x. (record { prefix = x.0.now; sub = x.1.now }, x.2.now)) result
        (prefix_above_reader (record { prefix = low.now; sub = low_sub.now }) bytes.now) }
    ensures range { IfOk result (λ x. IsName 64 x.0.now × IsName 64 x.1.now) }
{
    let (first, rest) = read_first(low, bytes)?;
    let (sub, rest) = read_second(low, low_sub, first, rest)?;
    Ok((first, sub, rest))
}

/// Returns a prefix of these parts, with a digest.
fn prefix_digest(
    alloc: Global,
    first: &[u8],
    sub: &[u8],
    digest: [u8; 32],
) -> Result<PrefixDigest, AllocError>
    requires { IsName 64 first.now × IsName 64 sub.now }
    ensures { IfOk result (λ row. row
        ≡ record { prefix = record { prefix = first.now; sub = sub.now }; digest = digest }) }
{
    let first = ByteString::from_slice(alloc, first)?;
    let sub = ByteString::from_slice(alloc, sub)?;
    Ok(PrefixDigest {
        prefix: FullPrefix::of(first, sub),
        digest: Digest::new(digest),
    })
}

/// Reads a prefix above another, with its digest. Returns the parts of the prefix too.
#[tactic(auto, unfolding(crate::specs::Reader::prefix_row_reader))]
fn prefix_row<'a>(
    alloc: Global,
    low: &[u8],
    low_sub: &[u8],
    bytes: &'a [u8],
) -> Result<(PrefixDigest, &'a [u8], &'a [u8], &'a [u8]), FieldFault>
    ensures value { Gives (λ x. (x.0, x.3.now)) result
        (prefix_row_reader (record { prefix = low.now; sub = low_sub.now }) bytes.now) }
    ensures parts { IfOk result (λ x. x.0.prefix ≡ record { prefix = x.1.now; sub = x.2.now }) }
{
    let (first, sub, rest) = parts_above(low, low_sub, bytes)?;
    let (digest, rest) = read_digest(rest)?;
    let row = prefix_digest(alloc, first, sub, digest)?;
    Ok((row, first, sub, rest))
}

/// Reads `len` prefixes with their digests, each above the one before.
fn each_prefix(
    alloc: Global,
    len: u16,
    bytes: &[u8],
) -> Result<(Vec<PrefixDigest>, &[u8]), FieldFault>
    ensures { Gives (λ x. (x.0.items, x.1.now)) result
        (each_reader prefix_row_reader prefix_of lowest len bytes.now) }
{
    let mut rows = Vec::with_capacity(alloc, most_rows(len, bytes, MIN_PREFIX_ROW_LEN))?;
    let mut rest = bytes;
    let mut low: &[u8] = &[];
    let mut low_sub: &[u8] = &[];
    for _ in 0..len {
        let (row, first, sub, after) = prefix_row(alloc, low, low_sub, rest)?;
        rows.push(row)?;
        low = first;
        low_sub = sub;
        rest = after;
    }
    Ok((rows, rest))
}

#[tactic(auto, unfolding(crate::specs::Reader::prefixes_reader))]
fn list_of_prefixes(alloc: Global, bytes: &[u8]) -> Result<(Vec<PrefixDigest>, &[u8]), FieldFault>
    ensures { Gives (λ x. (x.0.items, x.1.now)) result (prefixes_reader bytes.now) }
{
    let (len, rest) = u16_within(0, u64::from(MAX_ROWS), bytes)?;
    let (rows, rest) = each_prefix(alloc, len, rest)?;
    Ok((rows, rest))
}

pub fn read_prefixes(alloc: Global, bytes: &[u8]) -> Result<(PrefixDigests, &[u8]), FieldFault>
    ensures { MatchesReader result (prefixes_reader bytes.now) }
{
    let (rows, rest) = list_of_prefixes(alloc, bytes)?;
    Ok((PrefixDigests::new(rows), rest))
}

/// Reads the bytes of a key, which stand after the bytes of the key before.
#[tactic(auto, unfolding(crate::specs::Reader::key_above_reader))]
fn key_above<'a>(low: &[u8], bytes: &'a [u8]) -> Result<(&'a [u8], &'a [u8]), FieldFault>
    ensures { Gives (λ x. (x.0.now, x.1.now)) result (key_above_reader low.now bytes.now) }
{
    let (len, rest) = u16_within(1, MAX_KEY_LEN as u64, bytes)?;
    let (key, after) = read_bytes(usize::from(len), rest)?;
    if is_before(low, key) {
        Ok((key, after))
    } else {
        Err(FieldFault::Left(rest.len()))
    }
}

/// Reads a key above another, with its digest. Returns the bytes of the key too.
#[tactic(auto, unfolding(crate::specs::Reader::key_row_reader))]
fn key_row<'a>(
    alloc: Global,
    low: &[u8],
    bytes: &'a [u8],
) -> Result<(KeyDigest, &'a [u8], &'a [u8]), FieldFault>
    ensures value { Gives (λ x. (x.0, x.2.now)) result (key_row_reader low.now bytes.now) }
    ensures key { IfOk result (λ x. x.0.key ≡ x.1.now) }
{
    let (key, rest) = key_above(low, bytes)?;
    let (digest, rest) = read_digest(rest)?;
    let row = KeyDigest {
        key: ByteString::from_slice(alloc, key)?,
        digest: Digest::new(digest),
    };
    Ok((row, key, rest))
}

/// Reads `len` keys with their digests, each above the one before.
fn each_key(alloc: Global, len: u16, bytes: &[u8]) -> Result<(Vec<KeyDigest>, &[u8]), FieldFault>
    ensures { Gives (λ x. (x.0.items, x.1.now)) result
        (each_reader key_row_reader key_bytes [] len bytes.now) }
{
    let mut rows = Vec::with_capacity(alloc, most_rows(len, bytes, MIN_KEY_ROW_LEN))?;
    let mut rest = bytes;
    let mut low: &[u8] = &[];
    for _ in 0..len {
        let (row, key, after) = key_row(alloc, low, rest)?;
        rows.push(row)?;
        low = key;
        rest = after;
    }
    Ok((rows, rest))
}

#[tactic(auto, unfolding(crate::specs::Reader::keys_reader))]
fn list_of_keys(alloc: Global, bytes: &[u8]) -> Result<(Vec<KeyDigest>, &[u8]), FieldFault>
    ensures { Gives (λ x. (x.0.items, x.1.now)) result (keys_reader bytes.now) }
{
    let (len, rest) = u16_within(0, u64::from(MAX_ROWS), bytes)?;
    let (rows, rest) = each_key(alloc, len, rest)?;
    Ok((rows, rest))
}

pub fn read_keys(alloc: Global, bytes: &[u8]) -> Result<(KeyDigests, &[u8]), FieldFault>
    ensures { MatchesReader result (keys_reader bytes.now) }
{
    let (rows, rest) = list_of_keys(alloc, bytes)?;
    Ok((KeyDigests::new(rows), rest))
}
