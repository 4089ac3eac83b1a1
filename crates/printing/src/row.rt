//! Node numbers, digests, and rows of prefixes and keys, joined by commas.

ghost use Rattle.std.specs.Prelude.{◌≡◌, ◌++◌, true, map, OnErr, OnOk, decimal};
ghost use Rattle.printing.specs.Joined.{separated};
ghost use Rattle.printing.specs.Row.{nodes_text, digest_text, digests_text, prefix_row_text, prefixes_text, key_row_text, keys_text};

use crate::field::{add_bytes, add_node, add_prefix};
use crate::list::add_comma;
use frame_fields::{Digest, Digests, KeyDigest, KeyDigests, Nodes, PrefixDigest, PrefixDigests};
use meta_types::NodeId;
use std::alloc::AllocError;

fn add_each_node(out: &mut Vec<u8>, nodes: &[NodeId]) -> Result<(), AllocError>
    ensures { OnOk result (out.new.items ≡ out.old.items
        ++ separated true (map decimal nodes.now)) }
{
    let mut first = true;
    for node in nodes {
        add_comma(out, first)?;
        add_node(out, *node)?;
        first = false;
    }
    Ok(())
}

/// Adds node numbers, as `2,3`, or `-` for none.
pub(crate) fn add_node_list(out: &mut Vec<u8>, nodes: &[NodeId]) -> Result<(), AllocError>
    ensures { OnOk result (out.new.items ≡ out.old.items ++ nodes_text nodes.now) }
{
    if nodes.is_empty() {
        return out.extend_from_slice(b"-");
    }
    add_each_node(out, nodes)
}

/// Adds the node numbers of a frame, as `add_node_list` does.
pub(crate) fn add_nodes(out: &mut Vec<u8>, nodes: &Nodes) -> Result<(), AllocError>
    ensures { OnOk result (out.new.items ≡ out.old.items ++ nodes_text nodes.now) }
{
    add_node_list(out, nodes.as_slice())
}

/// Adds a digest: 64 digits in lower case.
pub(crate) fn add_digest(out: &mut Vec<u8>, digest: &Digest) -> Result<(), AllocError>
    ensures ok { OnOk result (out.new.items ≡ out.old.items ++ digest_text digest.now) }
    ensures err { OnErr result (out.new.items ≡ out.old.items) }
{
    let mut digits = [0; 64];
    hex::encode_to_slice(digest.bytes(), &mut digits).unwrap();
    out.extend_from_slice(&digits)
}

fn add_each_digest(out: &mut Vec<u8>, digests: &[Digest]) -> Result<(), AllocError>
    ensures { OnOk result (out.new.items ≡ out.old.items
        ++ separated true (map digest_text digests.now)) }
{
    let mut first = true;
    for digest in digests {
        add_comma(out, first)?;
        add_digest(out, digest)?;
        first = false;
    }
    Ok(())
}

pub(crate) fn add_digests(out: &mut Vec<u8>, digests: &Digests) -> Result<(), AllocError>
    ensures { OnOk result (out.new.items ≡ out.old.items ++ digests_text digests.now) }
{
    add_each_digest(out, digests.as_slice())
}

#[tactic(auto, unfolding(crate::specs::Row::prefix_row_text))]
fn add_prefix_row(out: &mut Vec<u8>, row: &PrefixDigest) -> Result<(), AllocError>
    ensures { OnOk result (out.new.items ≡ out.old.items ++ prefix_row_text row.now) }
{
    add_prefix(out, &row.prefix)?;
    out.push(b'=')?;
    add_digest(out, &row.digest)
}

fn add_each_prefix(out: &mut Vec<u8>, rows: &[PrefixDigest]) -> Result<(), AllocError>
    ensures { OnOk result (out.new.items ≡ out.old.items
        ++ separated true (map prefix_row_text rows.now)) }
{
    let mut first = true;
    for row in rows {
        add_comma(out, first)?;
        add_prefix_row(out, row)?;
        first = false;
    }
    Ok(())
}

/// Adds prefixes with their digests, as `a/b=` and a digest for each, or `-` for none.
pub(crate) fn add_prefixes(out: &mut Vec<u8>, rows: &PrefixDigests) -> Result<(), AllocError>
    ensures { OnOk result (out.new.items ≡ out.old.items ++ prefixes_text rows.now) }
{
    if rows.as_slice().is_empty() {
        return out.extend_from_slice(b"-");
    }
    add_each_prefix(out, rows.as_slice())
}

#[tactic(auto, unfolding(crate::specs::Row::key_row_text))]
fn add_key_row(out: &mut Vec<u8>, row: &KeyDigest) -> Result<(), AllocError>
    ensures { OnOk result (out.new.items ≡ out.old.items ++ key_row_text row.now) }
{
    add_bytes(out, row.key.as_slice())?;
    out.push(b'=')?;
    add_digest(out, &row.digest)
}

fn add_each_key(out: &mut Vec<u8>, rows: &[KeyDigest]) -> Result<(), AllocError>
    ensures { OnOk result (out.new.items ≡ out.old.items
        ++ separated true (map key_row_text rows.now)) }
{
    let mut first = true;
    for row in rows {
        add_comma(out, first)?;
        add_key_row(out, row)?;
        first = false;
    }
    Ok(())
}

/// Adds keys with their digests, as `k=` and a digest for each, or `-` for none.
pub(crate) fn add_keys(out: &mut Vec<u8>, rows: &KeyDigests) -> Result<(), AllocError>
    ensures { OnOk result (out.new.items ≡ out.old.items ++ keys_text rows.now) }
{
    if rows.as_slice().is_empty() {
        return out.extend_from_slice(b"-");
    }
    add_each_key(out, rows.as_slice())
}
