//! What stands beside a moment: lines that end with a line feed each.

use dvvset::{join, values};
use meta_frame::{Message, decode};
use meta_types::MetaKey;
use node_events::{NodeEvent, Reply};
use printing::{print_key, print_number, print_values, print_vector};
use std::alloc::{AllocError, Global};
use world_core::{Accepted, Event, World};

/// The most bytes of a line of a label that end where a word does.
const MOST_OF_LINE: usize = 26;

/// Under which key an event changed the object of its node, if it did.
pub(crate) fn key_changed(
    alloc: Global,
    world: &World,
    accepted: &Accepted,
) -> Result<Option<MetaKey>, AllocError> {
    match &accepted.event {
        Event::Put { key, .. }
        | Event::Step {
            event: NodeEvent::Write { key, .. } | NodeEvent::PutOver { key, .. },
            ..
        } => Ok(Some(key.copy()?)),
        Event::Deliver { frame, .. } if accepted.answer.reply == Reply::TookFresh => {
            key_carried(alloc, world, *frame)
        }
        _ => Ok(None),
    }
}

/// The key of the object that a frame of the world carries, if it carries one. No frame of a world
/// is refused, except for want of memory.
fn key_carried(alloc: Global, world: &World, frame: u64) -> Result<Option<MetaKey>, AllocError> {
    let Some(bytes) = world.frame(frame)? else {
        return Ok(None);
    };
    match decode(alloc, bytes.as_slice()) {
        Ok(frame) => {
            let key = key_in(&frame.message);
            drop(frame);
            key
        }
        Err(_) => Err(AllocError),
    }
}

/// The key of the object that a message carries, if it carries one.
fn key_in(message: &Message) -> Result<Option<MetaKey>, AllocError> {
    match message {
        Message::Gossip { key, .. } | Message::XObject { key, .. } => Ok(Some(key.copy()?)),
        _ => Ok(None),
    }
}

/// Adds what a node holds under a key: the key, the values and the context, a line each.
pub(crate) fn add_held(
    alloc: Global,
    label: &mut Vec<u8>,
    world: &World,
    node: u64,
    key: &MetaKey,
) -> Result<(), AllocError> {
    print_key(label, key)?;
    label.push(b'\n')?;
    let Some(state) = world.state(node) else {
        return Ok(());
    };
    let Some(object) = state.store().object(key) else {
        return Ok(());
    };
    print_values(label, values(alloc, object)?.as_slice())?;
    label.extend_from_slice(b"\nctx ")?;
    print_vector(label, &join(alloc, object)?)?;
    label.extend_from_slice(b"\n")
}

/// Adds the label of an event that changes no object: for some what it did, for others the first
/// line that was printed.
pub(crate) fn add_done(
    label: &mut Vec<u8>,
    world: &World,
    event: &Event,
    printed: &[u8],
) -> Result<(), AllocError> {
    match event {
        Event::Restart { node, image } => {
            if let Some(state) = world.state(*node) {
                add_numbered(label, b"life ", u64::from(state.incarnation()))?;
            }
            add_numbered(label, b"from image ", *image)
        }
        Event::Step { event, .. } => add_step(label, event, printed),
        _ => Ok(()),
    }
}

/// Adds the label of a step, as `add_done` does.
fn add_step(label: &mut Vec<u8>, event: &NodeEvent, printed: &[u8]) -> Result<(), AllocError> {
    match event {
        NodeEvent::Join { contact, .. } => {
            add_numbered(label, b"joins through ", u64::from(contact.number()))
        }
        NodeEvent::Leave => label.extend_from_slice(b"leaves\n"),
        NodeEvent::PeerDown { peer, .. } => {
            add_numbered(label, b"hears no more of ", u64::from(peer.number()))
        }
        NodeEvent::Read { .. } | NodeEvent::Watch { .. } | NodeEvent::Changes { .. } => {
            add_first_line(label, printed)
        }
        _ => Ok(()),
    }
}

/// Adds a line of a word and a number.
fn add_numbered(label: &mut Vec<u8>, word: &[u8], number: u64) -> Result<(), AllocError> {
    label.extend_from_slice(word)?;
    print_number(label, number)?;
    label.extend_from_slice(b"\n")
}

/// Adds the first line of a text, if one ends, as lines of at most 26 bytes that end where a word
/// does, unless a word is longer.
pub(crate) fn add_first_line(label: &mut Vec<u8>, text: &[u8]) -> Result<(), AllocError> {
    let line = first_line(text);
    let mut column = 0usize;
    for (at, byte) in line.iter().enumerate() {
        let next = end_of(line.get(at.saturating_add(1)..).unwrap_or(&[]), b' ');
        if *byte == b' ' && column.saturating_add(next) >= MOST_OF_LINE {
            label.push(b'\n')?;
            column = 0;
        } else {
            label.push(*byte)?;
            column = column.saturating_add(1);
        }
    }
    label.extend_from_slice(b"\n")
}

/// The first line of a text, without its line feed.
pub(crate) fn first_line(text: &[u8]) -> &[u8] {
    text.get(..end_of(text, b'\n')).unwrap_or(&[])
}

/// Where a byte stands first in a text, or else where the text ends.
fn end_of(text: &[u8], sought: u8) -> usize {
    for (at, byte) in text.iter().enumerate() {
        if *byte == sought {
            return at;
        }
    }
    text.len()
}
