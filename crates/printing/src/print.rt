//! The public calls. Each adds its text at the end of bytes; if memory is refused it adds nothing.

ghost use Rattle.std.specs.Prelude.{◌≡◌, ◌++◌, OnOk, OnErr, decimal, map};
ghost use Rattle.printing.specs.Field.{bytes_text, key_text, value_text};
ghost use Rattle.printing.specs.Frame.{frame_text, frame_fault_text};
ghost use Rattle.printing.specs.Joined.{joined};
ghost use Rattle.printing.specs.Object.{vector_text, object_text};
ghost use Rattle.printing.specs.Row.{digest_text, nodes_text};

use crate::field::{add_bytes, add_key, add_number, add_value};
use crate::frame::{add_frame, add_frame_fault};
use crate::list::{add_object, add_value_list, add_vector};
use crate::row::{add_digest, add_node_list};
use dvvset::{Entries, Vector};
use frame_fields::Digest;
use meta_frame::{Frame, FrameFault};
use meta_types::{MetaKey, NodeId, Value};
use std::alloc::AllocError;

/// The bytes reserved for a line of text. Most lines need no more.
const LINE_LEN: usize = 128;

/// Adds a number in decimal digits.
pub fn print_number(out: &mut Vec<u8>, number: u64) -> Result<(), AllocError>
    ensures ok { OnOk result (out.new.items ≡ out.old.items ++ decimal number) }
    ensures err { OnErr result (out.new.items ≡ out.old.items) }
{
    add_number(out, number)
}

/// Adds the bytes of a name: as they are if there is at least one and all are letters, digits, `.`,
/// Adds the bytes of a name. They stand as they are if there is at least one and all are letters,
/// digits, `.`, `_` or `-`; otherwise as `hex:` and their digits in lower case.
pub fn print_name(out: &mut Vec<u8>, bytes: &[u8]) -> Result<(), AllocError>
    ensures ok { OnOk result (out.new.items ≡ out.old.items ++ bytes_text bytes.now) }
    ensures err { OnErr result (out.new.items ≡ out.old.items) }
{
    let mut text = Vec::with_capacity(*out.allocator(), LINE_LEN)?;
    add_bytes(&mut text, bytes)?;
    out.extend_from_slice(text.as_slice())
}

/// Adds a key, as `a/b/k`: each part as it is if it has at least one byte and all are letters,
/// Adds a key, as `a/b/k`. A part stands as it is if it has at least one byte and all are letters,
/// digits, `.`, `_` or `-`; otherwise as `hex:` and its digits in lower case.
pub fn print_key(out: &mut Vec<u8>, key: &MetaKey) -> Result<(), AllocError>
    ensures ok { OnOk result (out.new.items ≡ out.old.items ++ key_text key.now) }
    ensures err { OnErr result (out.new.items ≡ out.old.items) }
{
    let mut text = Vec::with_capacity(*out.allocator(), LINE_LEN)?;
    add_key(&mut text, key)?;
    out.extend_from_slice(text.as_slice())
}

/// Adds a value: its bytes in the form of a part of a key, or `~` for a tombstone, and then its
/// Adds a value: its bytes, as a part of a key stands, or `~` for a tombstone; and then its stamp,
/// as `@5`, unless that is 0.
pub fn print_value(out: &mut Vec<u8>, value: &Value) -> Result<(), AllocError>
    ensures ok { OnOk result (out.new.items ≡ out.old.items ++ value_text value.now) }
    ensures err { OnErr result (out.new.items ≡ out.old.items) }
{
    let mut text = Vec::with_capacity(*out.allocator(), LINE_LEN)?;
    add_value(&mut text, value)?;
    out.extend_from_slice(text.as_slice())
}

/// Adds values, as `y,x`, or `-` for none.
pub fn print_values(out: &mut Vec<u8>, values: &[Value]) -> Result<(), AllocError>
    ensures ok { OnOk result
        (out.new.items ≡ out.old.items ++ joined (map value_text values.now)) }
    ensures err { OnErr result (out.new.items ≡ out.old.items) }
{
    let mut text = Vec::with_capacity(*out.allocator(), LINE_LEN)?;
    add_value_list(&mut text, values)?;
    out.extend_from_slice(text.as_slice())
}

/// Adds node numbers, as `2,3`, or `-` for none.
pub fn print_nodes(out: &mut Vec<u8>, nodes: &[NodeId]) -> Result<(), AllocError>
    ensures ok { OnOk result (out.new.items ≡ out.old.items ++ nodes_text nodes.now) }
    ensures err { OnErr result (out.new.items ≡ out.old.items) }
{
    let mut text = Vec::with_capacity(*out.allocator(), LINE_LEN)?;
    add_node_list(&mut text, nodes)?;
    out.extend_from_slice(text.as_slice())
}

/// Adds a digest: 64 digits in lower case.
pub fn print_digest(out: &mut Vec<u8>, digest: &Digest) -> Result<(), AllocError>
    ensures ok { OnOk result (out.new.items ≡ out.old.items ++ digest_text digest.now) }
    ensures err { OnErr result (out.new.items ≡ out.old.items) }
{
    add_digest(out, digest)
}

/// Adds a context, as `0.1:2,1.1:1`, or `-` for the context that has read nothing.
pub fn print_vector(out: &mut Vec<u8>, vector: &Vector) -> Result<(), AllocError>
    ensures ok { OnOk result (out.new.items ≡ out.old.items ++ vector_text vector.now) }
    ensures err { OnErr result (out.new.items ≡ out.old.items) }
{
    let mut text = Vec::with_capacity(*out.allocator(), LINE_LEN)?;
    add_vector(&mut text, vector)?;
    out.extend_from_slice(text.as_slice())
}

/// Adds an object: its context, and the values that it shows, as `ctx 0.1:2 values y,x`. It takes
/// memory for the context too.
pub fn print_object(out: &mut Vec<u8>, object: &Entries) -> Result<(), AllocError>
    ensures ok { OnOk result (out.new.items ≡ out.old.items ++ object_text object.now) }
    ensures err { OnErr result (out.new.items ≡ out.old.items) }
{
    let mut text = Vec::with_capacity(*out.allocator(), LINE_LEN)?;
    add_object(&mut text, object)?;
    out.extend_from_slice(text.as_slice())
}

/// Adds a frame: the name of its kind, sender, addressee and number, and the fields of its message,
/// as `GOSSIP from 0 to 1 number 1 round 0 key a/b/k ctx 0.1:1 values x`.
pub fn print_frame(out: &mut Vec<u8>, frame: &Frame) -> Result<(), AllocError>
    ensures ok { OnOk result (out.new.items ≡ out.old.items ++ frame_text frame.now) }
    ensures err { OnErr result (out.new.items ≡ out.old.items) }
{
    let mut text = Vec::with_capacity(*out.allocator(), LINE_LEN)?;
    add_frame(&mut text, frame)?;
    out.extend_from_slice(text.as_slice())
}

/// Adds a refusal of bytes: its number and name, and for 15 the offset of the field at fault, as
/// `error 15 BadBody at 39`.
pub fn print_frame_fault(out: &mut Vec<u8>, fault: &FrameFault) -> Result<(), AllocError>
    ensures ok { OnOk result (out.new.items ≡ out.old.items ++ frame_fault_text fault.now) }
    ensures err { OnErr result (out.new.items ≡ out.old.items) }
{
    let mut text = Vec::with_capacity(*out.allocator(), LINE_LEN)?;
    add_frame_fault(&mut text, fault)?;
    out.extend_from_slice(text.as_slice())
}
