//! Writing fields at the end of bytes. The smallest writers are inlined, since a call would take as
//! long as they do.

ghost use Rattle.std.specs.Prelude.{◌≡◌, ◌++◌, [], ◌<◌, ◌^◌, length, OnOk, All};
ghost use Rattle.std.specs.Int.{w8, w16, w32, w64, to_be_bytes};
ghost use Rattle.std.specs.List.{flat_map};
ghost use Rattle.frame_fields.specs.Field.{answer, name, prefix, priority, key, value, entry, object, counter_form, vector, node, nodes, digest, digests, prefix_row, prefixes, lowest, key_row, keys, writer_from};
ghost use Rattle.frame_fields.specs.Size.{IsShort, IsShortKey};

use crate::digest::Digest;
use crate::digests::Digests;
use crate::keys::{KeyDigest, KeyDigests};
use crate::neighbor::{NeighborAnswer, Priority};
use crate::nodes::Nodes;
use crate::prefixes::{PrefixDigest, PrefixDigests};
use dvvset::{Counter, Entries, Entry, Vector};
use meta_types::{Actor, FullPrefix, MetaKey, NodeId, Value};
use std::alloc::AllocError;

#[inline(always)]
pub fn write_u8(out: &mut Vec<u8>, number: u8) -> Result<(), AllocError>
    ensures { OnOk result (out.new.items ≡ out.old.items ++ to_be_bytes w8 number) }
{
    out.extend_from_slice(&number.to_be_bytes())
}

#[inline(always)]
pub fn write_u16(out: &mut Vec<u8>, number: u16) -> Result<(), AllocError>
    ensures { OnOk result (out.new.items ≡ out.old.items ++ to_be_bytes w16 number) }
{
    out.extend_from_slice(&number.to_be_bytes())
}

#[inline(always)]
pub fn write_u32(out: &mut Vec<u8>, number: u32) -> Result<(), AllocError>
    ensures { OnOk result (out.new.items ≡ out.old.items ++ to_be_bytes w32 number) }
{
    out.extend_from_slice(&number.to_be_bytes())
}

#[inline(always)]
pub fn write_u64(out: &mut Vec<u8>, number: u64) -> Result<(), AllocError>
    ensures { OnOk result (out.new.items ≡ out.old.items ++ to_be_bytes w64 number) }
{
    out.extend_from_slice(&number.to_be_bytes())
}

#[inline(always)]
pub fn write_node(out: &mut Vec<u8>, node: NodeId) -> Result<(), AllocError>
    ensures { OnOk result (out.new.items ≡ out.old.items ++ to_be_bytes w16 node) }
{
    write_u16(out, node.number())
}

pub fn write_priority(out: &mut Vec<u8>, p: Priority) -> Result<(), AllocError>
    ensures { OnOk result (out.new.items ≡ out.old.items ++ priority.spell p) }
{
    match p {
        Priority::Low => write_u8(out, 0),
        Priority::High => write_u8(out, 1),
    }
}

pub fn write_answer(out: &mut Vec<u8>, a: NeighborAnswer) -> Result<(), AllocError>
    ensures { OnOk result (out.new.items ≡ out.old.items ++ answer.spell a) }
{
    match a {
        NeighborAnswer::No => write_u8(out, 0),
        NeighborAnswer::Yes => write_u8(out, 1),
    }
}

#[inline(always)]
fn write_name(out: &mut Vec<u8>, bytes: &[u8]) -> Result<(), AllocError>
    requires { length bytes.now < 2 ^ 16 }
    ensures { OnOk result (out.new.items ≡ out.old.items ++ (name 0 65535).spell bytes.now) }
{
    write_u16(out, bytes.len() as u16)?;
    out.extend_from_slice(bytes)?;
    Ok(())
}

#[inline(always)]
pub fn write_prefix(out: &mut Vec<u8>, p: &FullPrefix) -> Result<(), AllocError>
    ensures { OnOk result (out.new.items ≡ out.old.items ++ prefix.spell p.now) }
{
    write_name(out, p.prefix())?;
    write_name(out, p.sub())?;
    Ok(())
}

#[inline(always)]
pub fn write_key(out: &mut Vec<u8>, k: &MetaKey) -> Result<(), AllocError>
    ensures { OnOk result (out.new.items ≡ out.old.items ++ key.spell k.now) }
{
    write_prefix(out, k.prefix())?;
    write_name(out, k.key())?;
    Ok(())
}

#[inline(always)]
fn write_writer(out: &mut Vec<u8>, writer: Actor) -> Result<(), AllocError>
    ensures { OnOk result (out.new.items ≡ out.old.items ++ (writer_from 0).spell writer) }
{
    write_node(out, writer.node())?;
    write_u32(out, writer.incarnation())?;
    Ok(())
}

#[inline(always)]
fn write_counter(out: &mut Vec<u8>, counter: Counter) -> Result<(), AllocError>
    ensures { OnOk result (out.new.items ≡ out.old.items ++ (counter_form 0).spell counter) }
{
    write_writer(out, counter.id())?;
    write_u64(out, counter.count())?;
    Ok(())
}

fn write_counters(out: &mut Vec<u8>, counters: &[Counter]) -> Result<(), AllocError>
    ensures { OnOk result (out.new.items ≡ out.old.items
        ++ flat_map (counter_form 0).spell counters.now) }
{
    for counter in counters {
        write_counter(out, *counter)?;
    }
    Ok(())
}

pub fn write_vector(out: &mut Vec<u8>, v: &Vector) -> Result<(), AllocError>
    requires { vector.Fits v.now }
    ensures { OnOk result (out.new.items ≡ out.old.items ++ vector.spell v.now) }
{
    write_u16(out, v.counters().len() as u16)?;
    write_counters(out, v.counters())?;
    Ok(())
}

fn write_value(out: &mut Vec<u8>, v: &Value) -> Result<(), AllocError>
    ensures { OnOk result (out.new.items ≡ out.old.items ++ value.spell v.now) }
{
    match v.body() {
        None => {
            write_u8(out, 0)?;
            write_u64(out, v.stamp())?;
        }
        Some(bytes) => {
            write_u8(out, 1)?;
            write_u64(out, v.stamp())?;
            write_name(out, bytes)?;
        }
    }
    Ok(())
}

fn write_values(out: &mut Vec<u8>, values: &[Value]) -> Result<(), AllocError>
    ensures { OnOk result (out.new.items ≡ out.old.items ++ flat_map value.spell values.now) }
{
    for value in values {
        write_value(out, value)?;
    }
    Ok(())
}

fn write_entry(out: &mut Vec<u8>, e: &Entry) -> Result<(), AllocError>
    requires { IsShort e.now }
    ensures { OnOk result (out.new.items ≡ out.old.items ++ (entry 0).spell e.now) }
{
    write_writer(out, e.id())?;
    write_u64(out, e.count())?;
    write_u16(out, e.values().len() as u16)?;
    write_values(out, e.values())?;
    Ok(())
}

fn write_entries(out: &mut Vec<u8>, entries: &[Entry]) -> Result<(), AllocError>
    requires { All IsShort entries.now }
    ensures { OnOk result (out.new.items ≡ out.old.items ++ flat_map (entry 0).spell entries.now) }
{
    for entry in entries {
        write_entry(out, entry)?;
    }
    Ok(())
}

pub fn write_object(out: &mut Vec<u8>, o: &Entries) -> Result<(), AllocError>
    requires { object.Fits o.now }
    ensures { OnOk result (out.new.items ≡ out.old.items ++ object.spell o.now) }
{
    write_u16(out, o.entries().len() as u16)?;
    write_entries(out, o.entries())?;
    Ok(())
}

fn write_each_node(out: &mut Vec<u8>, nodes: &[NodeId]) -> Result<(), AllocError>
    ensures { OnOk result (out.new.items ≡ out.old.items ++ flat_map node.spell nodes.now) }
{
    for node in nodes {
        write_node(out, *node)?;
    }
    Ok(())
}

pub fn write_nodes(out: &mut Vec<u8>, n: &Nodes) -> Result<(), AllocError>
    ensures { OnOk result (out.new.items ≡ out.old.items ++ nodes.spell n.now) }
{
    write_u16(out, n.as_slice().len() as u16)?;
    write_each_node(out, n.as_slice())?;
    Ok(())
}

#[inline(always)]
pub fn write_digest(out: &mut Vec<u8>, d: &Digest) -> Result<(), AllocError>
    ensures { OnOk result (out.new.items ≡ out.old.items ++ digest.spell d.now) }
{
    out.extend_from_slice(d.bytes())
}

fn write_each_digest(out: &mut Vec<u8>, digests: &[Digest]) -> Result<(), AllocError>
    ensures { OnOk result (out.new.items ≡ out.old.items ++ flat_map digest.spell digests.now) }
{
    for digest in digests {
        write_digest(out, digest)?;
    }
    Ok(())
}

pub fn write_digests(out: &mut Vec<u8>, d: &Digests) -> Result<(), AllocError>
    ensures { OnOk result (out.new.items ≡ out.old.items ++ digests.spell d.now) }
{
    write_each_digest(out, d.as_slice())?;
    Ok(())
}

fn write_each_prefix(out: &mut Vec<u8>, rows: &[PrefixDigest]) -> Result<(), AllocError>
    ensures { OnOk result (out.new.items ≡ out.old.items
        ++ flat_map (prefix_row lowest).spell rows.now) }
{
    for row in rows {
        write_prefix(out, &row.prefix)?;
        write_digest(out, &row.digest)?;
    }
    Ok(())
}

pub fn write_prefixes(out: &mut Vec<u8>, p: &PrefixDigests) -> Result<(), AllocError>
    ensures { OnOk result (out.new.items ≡ out.old.items ++ prefixes.spell p.now) }
{
    write_u16(out, p.as_slice().len() as u16)?;
    write_each_prefix(out, p.as_slice())?;
    Ok(())
}

fn write_each_key(out: &mut Vec<u8>, rows: &[KeyDigest]) -> Result<(), AllocError>
    requires { All IsShortKey rows.now }
    ensures { OnOk result (out.new.items ≡ out.old.items ++ flat_map (key_row []).spell rows.now) }
{
    for row in rows {
        write_name(out, row.key.as_slice())?;
        write_digest(out, &row.digest)?;
    }
    Ok(())
}

pub fn write_keys(out: &mut Vec<u8>, k: &KeyDigests) -> Result<(), AllocError>
    ensures { OnOk result (out.new.items ≡ out.old.items ++ keys.spell k.now) }
{
    write_u16(out, k.as_slice().len() as u16)?;
    write_each_key(out, k.as_slice())?;
    Ok(())
}
