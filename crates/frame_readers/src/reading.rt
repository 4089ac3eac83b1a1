//! Reading fields from the front of bytes. Each function returns the value and the bytes after it.

ghost use Rattle.std.specs.Prelude.{◌≡◌, ◌≢◌, ◌+◌, ◌≤◌, ◌<◌, length, Ok, IfOk, IfErr};
ghost use Rattle.std.specs.Int.{w8, w16, w32, w64};
ghost use Rattle.meta_types.specs.Node.{IsNode};
ghost use Rattle.meta_types.specs.Actor.{writer_number};
ghost use Rattle.frame_fields.specs.Field.{node_before, no_state, forget, above_entry, above_counter};
ghost use Rattle.frame_readers.specs.Reader.{Gives, MatchesReader, number_reader, answer_reader, answer_from, bytes_reader, node_reader, priority_reader, priority_from, within_reader, name_reader, prefix_reader, key_reader, value_reader, values_reader, entry_reader, entries_reader, object_reader, each_reader, counter_reader, writer_reader, vector_reader};
ghost use Rattle.frame_readers.specs.declared.fault.FieldFault.TheVariants.{Memory};

use crate::fault::FieldFault;
use dvvset::{Counter, Entries, Entry, Vector};
use frame_fields::lawful::{MAX_COUNT, all_are_bare};
use frame_fields::{NeighborAnswer, Priority};
use meta_types::actor::INCARNATIONS;
use meta_types::key::MAX_KEY_LEN;
use meta_types::prefix::MAX_PREFIX_LEN;
use meta_types::value::MAX_BODY_LEN;
use meta_types::{Actor, ByteString, FullPrefix, MetaKey, NodeId, Value};
use std::alloc::Global;

/// One more than the greatest number of a writer.
pub(crate) const MOST_WRITERS: u64 = 16 * INCARNATIONS;

/// The fewest bytes of a value.
const MIN_VALUE_LEN: usize = 9;

/// The fewest bytes of an entry.
const MIN_ENTRY_LEN: usize = 16;

/// The bytes of a counter.
const COUNTER_LEN: usize = 14;

/// Returns how many rows to make room for: no more than are announced, and no more than the bytes
/// can hold, so that a short frame takes little memory.
pub(crate) fn most_rows(len: u16, bytes: &[u8], row_len: usize) -> usize
    requires { 0 < row_len }
{
    usize::from(len).min(bytes.len() / row_len)
}

pub fn read_u8(bytes: &[u8]) -> Result<(u8, &[u8]), FieldFault>
    ensures value { MatchesReader result (number_reader w8 bytes.now) }
    ensures memory { IfErr result (λ fault. fault ≢ Memory) }
{
    if bytes.is_empty() {
        return Err(FieldFault::Left(bytes.len()));
    }
    let (front, rest) = bytes.split_at(1);
    Ok((u8::from_be_bytes([front[0]]), rest))
}

pub fn read_u16(bytes: &[u8]) -> Result<(u16, &[u8]), FieldFault>
    ensures value { MatchesReader result (number_reader w16 bytes.now) }
    ensures memory { IfErr result (λ fault. fault ≢ Memory) }
{
    if bytes.len() < 2 {
        return Err(FieldFault::Left(bytes.len()));
    }
    let (front, rest) = bytes.split_at(2);
    Ok((u16::from_be_bytes([front[0], front[1]]), rest))
}

pub fn read_u32(bytes: &[u8]) -> Result<(u32, &[u8]), FieldFault>
    ensures value { MatchesReader result (number_reader w32 bytes.now) }
    ensures memory { IfErr result (λ fault. fault ≢ Memory) }
{
    if bytes.len() < 4 {
        return Err(FieldFault::Left(bytes.len()));
    }
    let (front, rest) = bytes.split_at(4);
    Ok((
        u32::from_be_bytes([front[0], front[1], front[2], front[3]]),
        rest,
    ))
}

pub(crate) fn read_u64(bytes: &[u8]) -> Result<(u64, &[u8]), FieldFault>
    ensures value { MatchesReader result (number_reader w64 bytes.now) }
    ensures memory { IfErr result (λ fault. fault ≢ Memory) }
{
    if bytes.len() < 8 {
        return Err(FieldFault::Left(bytes.len()));
    }
    let (front, rest) = bytes.split_at(8);
    let number = u64::from_be_bytes([
        front[0], front[1], front[2], front[3], front[4], front[5], front[6], front[7],
    ]);
    Ok((number, rest))
}

#[tactic(auto, unfolding(crate::specs::Reader::within_reader))]
fn u8_within(low: u8, high: u8, bytes: &[u8]) -> Result<(u8, &[u8]), FieldFault>
    ensures value { MatchesReader result (within_reader w8 low high bytes.now) }
    ensures range { IfOk result (λ x. (low ≤ x.0) × (x.0 ≤ high)) }
    ensures memory { IfErr result (λ fault. fault ≢ Memory) }
{
    let (number, rest) = read_u8(bytes)?;
    if low <= number && number <= high {
        Ok((number, rest))
    } else {
        Err(FieldFault::Left(bytes.len()))
    }
}

/// Reads a number of two bytes from `low` to `high`.
#[tactic(auto, unfolding(crate::specs::Reader::within_reader))]
pub fn u16_within(low: u16, high: u64, bytes: &[u8]) -> Result<(u16, &[u8]), FieldFault>
    ensures value { MatchesReader result (within_reader w16 low high bytes.now) }
    ensures range { IfOk result (λ x. (low ≤ x.0) × (x.0 ≤ high)) }
    ensures memory { IfErr result (λ fault. fault ≢ Memory) }
{
    let (number, rest) = read_u16(bytes)?;
    if low <= number && u64::from(number) <= high {
        Ok((number, rest))
    } else {
        Err(FieldFault::Left(bytes.len()))
    }
}

/// Reads a number of eight bytes from `low` to `high`.
#[tactic(auto, unfolding(crate::specs::Reader::within_reader))]
pub fn u64_within(low: u64, high: u64, bytes: &[u8]) -> Result<(u64, &[u8]), FieldFault>
    ensures value { MatchesReader result (within_reader w64 low high bytes.now) }
    ensures range { IfOk result (λ x. (low ≤ x.0) × (x.0 ≤ high)) }
    ensures memory { IfErr result (λ fault. fault ≢ Memory) }
{
    let (number, rest) = read_u64(bytes)?;
    if low <= number && number <= high {
        Ok((number, rest))
    } else {
        Err(FieldFault::Left(bytes.len()))
    }
}

/// Reads the first `len` bytes, if there are that many, and returns the bytes after them too.
pub(crate) fn read_bytes(len: usize, bytes: &[u8]) -> Result<(&[u8], &[u8]), FieldFault>
    ensures { Gives (λ x. (x.0.now, x.1.now)) result (bytes_reader len bytes.now) }
{
    if bytes.len() < len {
        return Err(FieldFault::Left(bytes.len()));
    }
    Ok(bytes.split_at(len))
}

// The readers of names are inlined as far as `read_key`: that saves calls, and moves of a name's
// bytes at each return.
#[inline(always)]
#[tactic(auto, unfolding(crate::specs::Reader::name_reader))]
fn read_name(
    alloc: Global,
    low: u16,
    high: u64,
    bytes: &[u8],
) -> Result<(ByteString, &[u8]), FieldFault>
    ensures value { MatchesReader result (name_reader low high bytes.now) }
    ensures range { IfOk result (λ x. (low ≤ length x.0) × (length x.0 ≤ high)) }
{
    let (len, rest) = u16_within(low, high, bytes)?;
    let (name, rest) = read_bytes(usize::from(len), rest)?;
    Ok((ByteString::from_slice(alloc, name)?, rest))
}

#[tactic(auto, unfolding(crate::specs::Reader::node_reader))]
pub fn read_node(bytes: &[u8]) -> Result<(u16, &[u8]), FieldFault>
    ensures value { MatchesReader result (node_reader bytes.now) }
    ensures range { IfOk result (λ x. IsNode x.0) }
    ensures memory { IfErr result (λ fault. fault ≢ Memory) }
{
    u16_within(0, 15, bytes)
}

pub fn node_from(number: u16) -> NodeId
    requires { IsNode number }
    ensures { result ≡ number }
{
    NodeId::new(number).unwrap()
}

fn priority_from(number: u8) -> Priority
    ensures { result ≡ priority_from number }
{
    if number == 0 {
        Priority::Low
    } else {
        Priority::High
    }
}

#[tactic(auto, unfolding(crate::specs::Reader::priority_reader))]
pub fn read_priority(bytes: &[u8]) -> Result<(Priority, &[u8]), FieldFault>
    ensures value { MatchesReader result (priority_reader bytes.now) }
    ensures memory { IfErr result (λ fault. fault ≢ Memory) }
{
    let (number, rest) = u8_within(0, 1, bytes)?;
    Ok((priority_from(number), rest))
}

fn answer_from(number: u8) -> NeighborAnswer
    ensures { result ≡ answer_from number }
{
    if number == 0 {
        NeighborAnswer::No
    } else {
        NeighborAnswer::Yes
    }
}

#[tactic(auto, unfolding(crate::specs::Reader::answer_reader))]
pub fn read_answer(bytes: &[u8]) -> Result<(NeighborAnswer, &[u8]), FieldFault>
    ensures value { MatchesReader result (answer_reader bytes.now) }
    ensures memory { IfErr result (λ fault. fault ≢ Memory) }
{
    let (answer, rest) = u8_within(0, 1, bytes)?;
    Ok((answer_from(answer), rest))
}

#[tactic(auto, unfolding(crate::specs::Reader::within_reader))]
pub fn read_life(bytes: &[u8]) -> Result<(u32, &[u8]), FieldFault>
    ensures value { MatchesReader result (within_reader w32 1 4294967295 bytes.now) }
    ensures memory { IfErr result (λ fault. fault ≢ Memory) }
{
    let (number, rest) = read_u32(bytes)?;
    if number >= 1 {
        Ok((number, rest))
    } else {
        Err(FieldFault::Left(bytes.len()))
    }
}

/// Reads the number of one of sixteen.
pub fn read_place(bytes: &[u8]) -> Result<(u8, &[u8]), FieldFault>
    ensures value { MatchesReader result (within_reader w8 0 15 bytes.now) }
    ensures memory { IfErr result (λ fault. fault ≢ Memory) }
{
    u8_within(0, 15, bytes)
}

#[inline(always)]
#[tactic(auto, unfolding(crate::specs::Reader::prefix_reader))]
pub fn read_prefix(alloc: Global, bytes: &[u8]) -> Result<(FullPrefix, &[u8]), FieldFault>
    ensures { MatchesReader result (prefix_reader bytes.now) }
{
    let (prefix, rest) = read_name(alloc, 1, MAX_PREFIX_LEN as u64, bytes)?;
    let (sub, rest) = read_name(alloc, 1, MAX_PREFIX_LEN as u64, rest)?;
    Ok((FullPrefix::of(prefix, sub), rest))
}

#[inline(never)]
#[tactic(auto, unfolding(crate::specs::Reader::key_reader))]
pub fn read_key(alloc: Global, bytes: &[u8]) -> Result<(MetaKey, &[u8]), FieldFault>
    ensures { MatchesReader result (key_reader bytes.now) }
{
    let (prefix, rest) = read_prefix(alloc, bytes)?;
    let (key, rest) = read_name(alloc, 1, MAX_KEY_LEN as u64, rest)?;
    Ok((MetaKey::under(prefix, key), rest))
}

/// Returns the node of the writer before `low`.
fn node_before(low: u64) -> u16
    requires { low ≤ MOST_WRITERS }
    ensures { result ≡ node_before low }
{
    (low.saturating_sub(1) / INCARNATIONS) as u16
}

/// Reads the node and the incarnation of a writer that is `low` or more.
#[tactic(auto, unfolding(crate::specs::Reader::writer_reader))]
fn read_writer(low: u64, bytes: &[u8]) -> Result<(u16, u32, &[u8]), FieldFault>
    requires { low ≤ MOST_WRITERS }
    ensures value { Gives (λ x. (writer_number x.0 x.1, x.2.now)) result
        (writer_reader low bytes.now) }
    ensures range { IfOk result (λ x. IsNode x.0) }
    ensures memory { IfErr result (λ fault. fault ≢ Memory) }
{
    let (node, rest) = u16_within(node_before(low), 15, bytes)?;
    let (incarnation, after) = read_u32(rest)?;
    if low <= writer_from(node, incarnation).number() {
        Ok((node, incarnation, after))
    } else {
        Err(FieldFault::Left(rest.len()))
    }
}

pub(crate) fn writer_from(node: u16, incarnation: u32) -> Actor
    requires { IsNode node }
    ensures { result ≡ writer_number node incarnation }
{
    Actor::new(node_from(node), incarnation)
}

/// Reads the node, the incarnation and the count of a counter whose writer is `low` or more.
#[tactic(auto, unfolding(crate::specs::Reader::counter_reader))]
fn read_counter(low: u64, bytes: &[u8]) -> Result<(u16, u32, u64, &[u8]), FieldFault>
    requires { low ≤ MOST_WRITERS }
    ensures value { Gives
        (λ x. (record { id = writer_number x.0 x.1; count = x.2 }, x.3.now)) result
        (counter_reader low bytes.now) }
    ensures range { IfOk result (λ x. IsNode x.0) }
{
    let (node, incarnation, rest) = read_writer(low, bytes)?;
    let (count, rest) = u64_within(1, u64::MAX, rest)?;
    Ok((node, incarnation, count, rest))
}

#[tactic(auto, unfolding(crate::specs::Reader::value_reader))]
fn read_value(alloc: Global, bytes: &[u8]) -> Result<(Value, &[u8]), FieldFault>
    ensures { MatchesReader result (value_reader bytes.now) }
{
    let (tag, rest) = u8_within(0, 1, bytes)?;
    let (stamp, rest) = read_u64(rest)?;
    if tag == 0 {
        return Ok((Value::of(stamp, None), rest));
    }
    let (body, rest) = read_name(alloc, 0, MAX_BODY_LEN as u64, rest)?;
    Ok((Value::of(stamp, Some(body)), rest))
}

/// Reads the values of an entry of `count` events, which shows no more of them.
#[tactic(auto, unfolding(crate::specs::Reader::values_reader))]
pub fn read_values(
    alloc: Global,
    count: u64,
    bytes: &[u8],
) -> Result<(Vec<Value>, &[u8]), FieldFault>
    ensures { Gives (λ x. (x.0.items, x.1.now)) result (values_reader count bytes.now) }
{
    let (len, rest) = u16_within(0, count, bytes)?;
    let (values, rest) = each_value(alloc, len, rest)?;
    Ok((values, rest))
}

/// Reads `len` values.
fn each_value(alloc: Global, len: u16, bytes: &[u8]) -> Result<(Vec<Value>, &[u8]), FieldFault>
    ensures { Gives (λ x. (x.0.items, x.1.now)) result
        (each_reader (λ _. value_reader) forget no_state len bytes.now) }
{
    let mut values = Vec::with_capacity(alloc, most_rows(len, bytes, MIN_VALUE_LEN))?;
    let mut rest = bytes;
    for _ in 0..len {
        let (value, after) = read_value(alloc, rest)?;
        values.push(value)?;
        rest = after;
    }
    Ok((values, rest))
}

#[tactic(auto, unfolding(crate::specs::Reader::entry_reader))]
fn read_entry(alloc: Global, low: u64, bytes: &[u8]) -> Result<(Entry, &[u8]), FieldFault>
    requires { low ≤ MOST_WRITERS }
    ensures { MatchesReader result (entry_reader low bytes.now) }
{
    let (node, incarnation, rest) = read_writer(low, bytes)?;
    let (count, rest) = u64_within(1, u64::MAX, rest)?;
    let (values, rest) = read_values(alloc, count, rest)?;
    Ok((
        Entry::new(writer_from(node, incarnation), count, values),
        rest,
    ))
}

#[tactic(auto, unfolding(crate::specs::Reader::entries_reader))]
fn read_entries(alloc: Global, bytes: &[u8]) -> Result<(Vec<Entry>, &[u8]), FieldFault>
    ensures { Gives (λ x. (x.0.items, x.1.now)) result (entries_reader bytes.now) }
{
    let (len, rest) = u16_within(1, MAX_COUNT as u64, bytes)?;
    let (entries, rest) = each_entry(alloc, len, rest)?;
    Ok((entries, rest))
}

/// Reads `len` entries, each of a writer above the one before.
fn each_entry(alloc: Global, len: u16, bytes: &[u8]) -> Result<(Vec<Entry>, &[u8]), FieldFault>
    ensures { Gives (λ x. (x.0.items, x.1.now)) result
        (each_reader entry_reader above_entry 0 len bytes.now) }
{
    let mut entries = Vec::with_capacity(alloc, most_rows(len, bytes, MIN_ENTRY_LEN))?;
    let mut rest = bytes;
    let mut low = 0;
    for _ in 0..len {
        let (entry, after) = read_entry(alloc, low, rest)?;
        low = entry.id().number() + 1;
        entries.push(entry)?;
        rest = after;
    }
    Ok((entries, rest))
}

#[tactic(auto, unfolding(crate::specs::Reader::object_reader))]
pub fn read_object(alloc: Global, bytes: &[u8]) -> Result<(Entries, &[u8]), FieldFault>
    ensures { MatchesReader result (object_reader bytes.now) }
{
    let (entries, rest) = read_entries(alloc, bytes)?;
    if all_are_bare(entries.as_slice()) {
        return Err(FieldFault::Left(bytes.len()));
    }
    Ok((Entries::new(entries), rest))
}

#[tactic(auto, unfolding(crate::specs::Reader::vector_reader))]
fn read_counters(alloc: Global, bytes: &[u8]) -> Result<(Vec<Counter>, &[u8]), FieldFault>
    ensures { Gives (λ x. (x.0.items, x.1.now)) result (vector_reader bytes.now) }
{
    let (len, rest) = u16_within(1, MAX_COUNT as u64, bytes)?;
    let (counters, rest) = each_counter(alloc, len, rest)?;
    Ok((counters, rest))
}

/// Reads `len` counters, each of a writer above the one before.
fn each_counter(alloc: Global, len: u16, bytes: &[u8]) -> Result<(Vec<Counter>, &[u8]), FieldFault>
    ensures { Gives (λ x. (x.0.items, x.1.now)) result
        (each_reader counter_reader above_counter 0 len bytes.now) }
{
    let mut counters = Vec::with_capacity(alloc, most_rows(len, bytes, COUNTER_LEN))?;
    let mut rest = bytes;
    let mut low = 0;
    for _ in 0..len {
        let (node, incarnation, count, after) = read_counter(low, rest)?;
        let writer = writer_from(node, incarnation);
        low = writer.number() + 1;
        counters.push(Counter::new(writer, count))?;
        rest = after;
    }
    Ok((counters, rest))
}

pub fn read_vector(alloc: Global, bytes: &[u8]) -> Result<(Vector, &[u8]), FieldFault>
    ensures { MatchesReader result (vector_reader bytes.now) }
{
    let (counters, rest) = read_counters(alloc, bytes)?;
    Ok((Vector::new(counters), rest))
}
