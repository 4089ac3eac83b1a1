//! Frames and their refusals, as lines without their line feed.

ghost use Rattle.std.specs.Prelude.{◌≡◌, ◌++◌, OnOk};
ghost use Rattle.printing.specs.Frame.{priority_text, answer_text, message_text, frame_text, offset_text, frame_fault_text};

use crate::field::{add_key, add_node, add_number, add_prefix};
use crate::list::{add_object, add_vector};
use crate::row::{add_digest, add_digests, add_keys, add_nodes, add_prefixes};
use meta_frame::{Frame, FrameFault, Message, NeighborAnswer, Priority, kind_name};
use std::alloc::AllocError;

macro_rules! printed_kinds {
    ($make:ident $with:tt) => {
        $make! { $with
            Gossip { " round " round: number, " key " key: key, " " object: object }
            IHave { " round " round: number, " key " key: key, " ctx " vector: vector }
            Graft { " round " round: number, " key " key: key, " ctx " vector: vector }
            Prune {}
            Join {}
            ForwardJoin { " node " node: node, " ttl " ttl: number }
            Disconnect {}
            Neighbor { " priority " priority: priority }
            NeighborReply { " answer " answer: answer }
            Shuffle { " origin " origin: node, " ttl " ttl: number, " nodes " nodes: nodes }
            ShuffleReply { " nodes " nodes: nodes }
            XRoot { " root " root: digest }
            XPrefixes { " prefixes " prefixes: prefixes }
            XInner { " prefix " prefix: prefix, " digests " digests: digests }
            XLeaves { " prefix " prefix: prefix, " inner " inner: number,
                " digests " digests: digests }
            XBucket { " prefix " prefix: prefix, " leaf " leaf: number, " keys " keys: keys }
            XObject { " key " key: key, " " object: object }
            XWant { " key " key: key }
            Hello { " life " life: number }
            Bye {}
        }
    };
}

macro_rules! add_field {
    (number $out:ident $field:ident) => {
        add_number($out, u64::from(*$field))?
    };
    (key $out:ident $field:ident) => {
        add_key($out, $field)?
    };
    (node $out:ident $field:ident) => {
        add_node($out, *$field)?
    };
    (priority $out:ident $field:ident) => {
        add_priority($out, *$field)?
    };
    (answer $out:ident $field:ident) => {
        add_answer($out, *$field)?
    };
    (nodes $out:ident $field:ident) => {
        add_nodes($out, $field)?
    };
    (digest $out:ident $field:ident) => {
        add_digest($out, $field)?
    };
    (digests $out:ident $field:ident) => {
        add_digests($out, $field)?
    };
    (prefix $out:ident $field:ident) => {
        add_prefix($out, $field)?
    };
    (prefixes $out:ident $field:ident) => {
        add_prefixes($out, $field)?
    };
    (keys $out:ident $field:ident) => {
        add_keys($out, $field)?
    };
    (vector $out:ident $field:ident) => {
        add_vector($out, $field)?
    };
    (object $out:ident $field:ident) => {
        add_object($out, $field)?
    };
}

fn add_priority(out: &mut Vec<u8>, priority: Priority) -> Result<(), AllocError>
    ensures { OnOk result (out.new.items ≡ out.old.items ++ priority_text priority) }
{
    match priority {
        Priority::Low => out.extend_from_slice(b"low"),
        Priority::High => out.extend_from_slice(b"high"),
    }
}

fn add_answer(out: &mut Vec<u8>, answer: NeighborAnswer) -> Result<(), AllocError>
    ensures { OnOk result (out.new.items ≡ out.old.items ++ answer_text answer) }
{
    match answer {
        NeighborAnswer::No => out.extend_from_slice(b"no"),
        NeighborAnswer::Yes => out.extend_from_slice(b"yes"),
    }
}

macro_rules! add_kind {
    (($message:ident $out:ident)
     $($variant:ident { $($label:literal $field:ident : $form:ident),* })*) => {
        match $message {
            $(Message::$variant { $($field),* } => {
                $(
                    $out.extend_from_slice($label.as_bytes())?;
                    add_field!($form $out $field);
                )*
            })*
        }
    };
}

/// Adds the fields of a message, each after a space and its label.
#[tactic(auto, unfolding(crate::specs::Frame::message_text))]
fn add_message(out: &mut Vec<u8>, message: &Message) -> Result<(), AllocError>
    ensures { OnOk result (out.new.items ≡ out.old.items ++ message_text message.now) }
{
    printed_kinds!(add_kind(message out));
    Ok(())
}

/// Adds a frame: the name of its kind, sender, addressee and number, and the fields of its message,
/// as `GOSSIP from 0 to 1 number 1 round 0 key a/b/k ctx 0.1:1 values x`.
pub(crate) fn add_frame(out: &mut Vec<u8>, frame: &Frame) -> Result<(), AllocError>
    ensures { OnOk result (out.new.items ≡ out.old.items ++ frame_text frame.now) }
{
    out.extend_from_slice(kind_name(&frame.message).as_bytes())?;
    out.extend_from_slice(b" from ")?;
    add_node(out, frame.from)?;
    out.extend_from_slice(b" to ")?;
    add_node(out, frame.to)?;
    out.extend_from_slice(b" number ")?;
    add_number(out, frame.number)?;
    add_message(out, &frame.message)
}

/// Adds the offset of the field at fault.
fn add_offset(out: &mut Vec<u8>, fault: &FrameFault) -> Result<(), AllocError>
    ensures { OnOk result (out.new.items ≡ out.old.items ++ offset_text fault.now) }
{
    if let FrameFault::BadBody { at } = fault {
        out.extend_from_slice(b" at ")?;
        add_number(out, *at as u64)?;
    }
    Ok(())
}

/// Adds why bytes are no frame, as `error 10 Short`, or `error 15 BadBody at 39` with the offset of
/// the field at fault in the frame.
pub(crate) fn add_frame_fault(out: &mut Vec<u8>, fault: &FrameFault) -> Result<(), AllocError>
    ensures { OnOk result (out.new.items ≡ out.old.items ++ frame_fault_text fault.now) }
{
    out.extend_from_slice(b"error ")?;
    add_number(out, u64::from(fault.code()))?;
    out.extend_from_slice(b" ")?;
    out.extend_from_slice(fault.name().as_bytes())?;
    add_offset(out, fault)
}
