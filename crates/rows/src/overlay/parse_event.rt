//! The events of the views that lines name.

use crate::fault::RowFault;
use crate::overlay::parse_call::read_sender;
use crate::words::{Words, node_of};
use frame_fields::Nodes;
use hyparview::ViewEvent;
use meta_frame::{Message, NeighborAnswer, Priority};
use meta_types::NodeId;
use std::alloc::Global;

/// Reads what follows a command, but for its random word.
pub fn read_event(
    alloc: Global,
    command: &str,
    words: &mut Words<'_>,
) -> Result<ViewEvent, RowFault> {
    match command {
        "through" => Ok(ViewEvent::JoinThrough {
            contact: words.node_id()?,
        }),
        "peerdown" => Ok(ViewEvent::PeerDown {
            peer: words.node_id()?,
        }),
        "shuffledue" => Ok(ViewEvent::ShuffleDue),
        "leave" => Ok(ViewEvent::Leave),
        "stray" => read_stray(words),
        kind => read_taken(alloc, kind, words),
    }
}

/// Reads a message for another part, which changes no view.
fn read_stray(words: &mut Words<'_>) -> Result<ViewEvent, RowFault> {
    let message = match words.next()? {
        "prune" => Message::Prune,
        "hello" => Message::Hello { life: 2 },
        _ => return Err(RowFault::Mistyped),
    };
    let from = read_sender(words)?;
    Ok(ViewEvent::Taken { from, message })
}

/// Reads a message for the views.
fn read_taken(alloc: Global, kind: &str, words: &mut Words<'_>) -> Result<ViewEvent, RowFault> {
    let from = read_sender(words)?;
    let message = match kind {
        "join" => Message::Join,
        "forwardjoin" => read_forward_join(words)?,
        "disconnect" => Message::Disconnect,
        "neighbor" => read_neighbor(words)?,
        "neighborreply" => read_neighbor_reply(words)?,
        "shuffle" => read_shuffle(alloc, words)?,
        "shufflereply" => Message::ShuffleReply {
            nodes: read_nodes(alloc, words)?,
        },
        "bye" => Message::Bye,
        _ => return Err(RowFault::Mistyped),
    };
    Ok(ViewEvent::Taken { from, message })
}

fn read_ttl(words: &mut Words<'_>) -> Result<u8, RowFault> {
    let word = words.after("ttl")?;
    word.parse().map_err(|_| RowFault::Mistyped)
}

fn read_forward_join(words: &mut Words<'_>) -> Result<Message, RowFault> {
    words.just("node")?;
    let node = words.node_id()?;
    let ttl = read_ttl(words)?;
    Ok(Message::ForwardJoin { node, ttl })
}

fn read_neighbor(words: &mut Words<'_>) -> Result<Message, RowFault> {
    let priority = match words.after("priority")? {
        "low" => Priority::Low,
        "high" => Priority::High,
        _ => return Err(RowFault::Mistyped),
    };
    Ok(Message::Neighbor { priority })
}

fn read_neighbor_reply(words: &mut Words<'_>) -> Result<Message, RowFault> {
    let answer = match words.after("answer")? {
        "no" => NeighborAnswer::No,
        "yes" => NeighborAnswer::Yes,
        _ => return Err(RowFault::Mistyped),
    };
    Ok(Message::NeighborReply { answer })
}

fn read_shuffle(alloc: Global, words: &mut Words<'_>) -> Result<Message, RowFault> {
    words.just("origin")?;
    let origin = words.node_id()?;
    let ttl = read_ttl(words)?;
    let nodes = read_nodes(alloc, words)?;
    Ok(Message::Shuffle { origin, ttl, nodes })
}

/// Reads node numbers, as `nodes 2,3`, or `nodes -` for none.
fn read_nodes(alloc: Global, words: &mut Words<'_>) -> Result<Nodes, RowFault> {
    let mut numbers = Vec::new(alloc);
    match words.after("nodes")? {
        "-" => {}
        list => add_nodes(&mut numbers, list)?,
    }
    Nodes::from_parts(numbers).ok_or(RowFault::Mistyped)
}

fn add_nodes(numbers: &mut Vec<NodeId>, list: &str) -> Result<(), RowFault> {
    for part in list.split(',') {
        numbers.push(node_of(part)?)?;
    }
    Ok(())
}
