//! What steps and calls give out, one item on each line.

use hyparview::ViewOut;
use meta_frame::{Frame, Message};
use meta_types::{MetaKey, NodeId};
use plumtree::CastOut;
use printing::{print_frame, print_key, print_nodes, print_number};
use std::alloc::AllocError;

/// Adds a label and node numbers, as `2,3`, or `-` for none.
pub fn print_list(text: &mut Vec<u8>, label: &str, nodes: &[NodeId]) -> Result<(), AllocError> {
    text.extend_from_slice(label.as_bytes())?;
    print_nodes(text, nodes)
}

fn print_labelled(text: &mut Vec<u8>, label: &str, number: u16) -> Result<(), AllocError> {
    text.extend_from_slice(label.as_bytes())?;
    print_number(text, u64::from(number))
}

/// Adds a message to be sent, as frame number 1 of the node.
fn print_sent(
    text: &mut Vec<u8>,
    from: NodeId,
    to: NodeId,
    message: Message,
) -> Result<(), AllocError> {
    let frame = Frame {
        from,
        to,
        number: 1,
        message,
    };
    let done = print_frame(text, &frame);
    // Dropped by a call, so that no case of the proof takes it apart.
    drop(frame);
    done
}

fn print_view_out(text: &mut Vec<u8>, from: NodeId, out: &ViewOut) -> Result<(), AllocError> {
    match out {
        ViewOut::Send(to, message) => print_sent(text, from, *to, message.copy()?),
        ViewOut::Up(node) => print_labelled(text, "up ", node.number()),
        ViewOut::Down(node) => print_labelled(text, "down ", node.number()),
    }
}

/// Adds what a step of the views of this node gave out.
pub fn print_view_outs(
    text: &mut Vec<u8>,
    from: NodeId,
    outs: &[ViewOut],
) -> Result<(), AllocError> {
    for out in outs {
        print_view_out(text, from, out)?;
        text.extend_from_slice(b"\n")?;
    }
    Ok(())
}

/// Adds a GOSSIP, whose object the broadcast doesn't hold.
fn print_gossip(
    text: &mut Vec<u8>,
    to: NodeId,
    round: u16,
    key: &MetaKey,
) -> Result<(), AllocError> {
    print_labelled(text, "gossip to ", to.number())?;
    print_labelled(text, " round ", round)?;
    text.extend_from_slice(b" key ")?;
    print_key(text, key)
}

fn print_cast_out(text: &mut Vec<u8>, from: NodeId, out: &CastOut) -> Result<(), AllocError> {
    match out {
        CastOut::Gossip { to, round, key } => print_gossip(text, *to, *round, key),
        CastOut::Send(to, message) => print_sent(text, from, *to, message.copy()?),
    }
}

/// Adds what a call of the broadcast of this node gave out.
pub fn print_cast_outs(
    text: &mut Vec<u8>,
    from: NodeId,
    outs: &[CastOut],
) -> Result<(), AllocError> {
    for out in outs {
        print_cast_out(text, from, out)?;
        text.extend_from_slice(b"\n")?;
    }
    Ok(())
}
