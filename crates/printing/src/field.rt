//! Numbers, names and values.

ghost use Rattle.std.specs.Prelude.{◌≡◌, ◌++◌, OnErr, OnOk, decimal};
ghost use Rattle.printing.specs.Field.{actor_text, is_plain, are_plain, bytes_text, prefix_text, key_text, stamp_text, value_text};

use itoa::Buffer;
use meta_types::{Actor, FullPrefix, MetaKey, NodeId, Value};
use std::alloc::AllocError;

/// Adds a number in decimal digits.
pub(crate) fn add_number(out: &mut Vec<u8>, number: u64) -> Result<(), AllocError>
    ensures ok { OnOk result (out.new.items ≡ out.old.items ++ decimal number) }
    ensures err { OnErr result (out.new.items ≡ out.old.items) }
{
    let mut buffer = Buffer::new();
    out.extend_from_slice(buffer.format(number).as_bytes())
}

/// Adds the number of a node.
pub(crate) fn add_node(out: &mut Vec<u8>, node: NodeId) -> Result<(), AllocError>
    ensures { OnOk result (out.new.items ≡ out.old.items ++ decimal node) }
{
    add_number(out, u64::from(node.number()))
}

/// Adds an actor, who counts writes: its node and its incarnation, as `0.1`.
#[tactic(auto, unfolding(crate::specs::Field::actor_text))]
pub(crate) fn add_actor(out: &mut Vec<u8>, actor: Actor) -> Result<(), AllocError>
    ensures { OnOk result (out.new.items ≡ out.old.items ++ actor_text actor) }
{
    add_node(out, actor.node())?;
    out.extend_from_slice(b".")?;
    add_number(out, u64::from(actor.incarnation()))
}

fn is_plain(byte: u8) -> bool
    ensures { result ≡ is_plain byte }
{
    matches!(byte, b'A'..=b'Z' | b'a'..=b'z' | b'0'..=b'9' | b'.' | b'_' | b'-')
}

/// Returns whether bytes are printed as they are: there is at least one, and all are letters,
/// digits, `.`, `_` or `-`.
pub fn are_plain(bytes: &[u8]) -> bool
    ensures { result ≡ are_plain bytes.now }
{
    !bytes.is_empty() && bytes.iter().all(|byte| is_plain(*byte))
}

/// Adds the bytes of a name or a value. They stand as they are if there is at least one and all are
/// letters, digits, `.`, `_` or `-`; otherwise as `hex:` and their digits in lower case.
#[tactic(auto, unfolding(crate::specs::Field::bytes_text))]
pub(crate) fn add_bytes(out: &mut Vec<u8>, bytes: &[u8]) -> Result<(), AllocError>
    ensures { OnOk result (out.new.items ≡ out.old.items ++ bytes_text bytes.now) }
{
    if are_plain(bytes) {
        return out.extend_from_slice(bytes);
    }
    let digits = hex::encode(*out.allocator(), bytes)?;
    out.extend_from_slice(b"hex:")?;
    out.extend_from_slice(digits.as_bytes())
}

/// Adds a prefix, as `a/b`.
pub(crate) fn add_prefix(out: &mut Vec<u8>, prefix: &FullPrefix) -> Result<(), AllocError>
    ensures { OnOk result (out.new.items ≡ out.old.items ++ prefix_text prefix.now) }
{
    add_bytes(out, prefix.prefix())?;
    out.extend_from_slice(b"/")?;
    add_bytes(out, prefix.sub())
}

/// Adds a key, as `a/b/k`.
pub(crate) fn add_key(out: &mut Vec<u8>, key: &MetaKey) -> Result<(), AllocError>
    ensures { OnOk result (out.new.items ≡ out.old.items ++ key_text key.now) }
{
    add_prefix(out, key.prefix())?;
    out.extend_from_slice(b"/")?;
    add_bytes(out, key.key())
}

fn add_stamp(out: &mut Vec<u8>, stamp: u64) -> Result<(), AllocError>
    ensures { OnOk result (out.new.items ≡ out.old.items ++ stamp_text stamp) }
{
    if stamp == 0 {
        return Ok(());
    }
    out.extend_from_slice(b"@")?;
    add_number(out, stamp)
}

/// Adds a value: its bytes, or `~` for a tombstone, and after them its stamp, as `@5`, unless that
/// is 0.
#[tactic(auto, unfolding(crate::specs::Field::value_text))]
pub(crate) fn add_value(out: &mut Vec<u8>, value: &Value) -> Result<(), AllocError>
    ensures { OnOk result (out.new.items ≡ out.old.items ++ value_text value.now) }
{
    match value.body() {
        None => out.extend_from_slice(b"~")?,
        Some(bytes) => add_bytes(out, bytes)?,
    }
    add_stamp(out, value.stamp())
}
