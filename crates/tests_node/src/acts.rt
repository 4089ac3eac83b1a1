//! What a node is asked, by numbers and letters.
//!
//! What takes memory here is asked for once more if it is refused, so that tests under refused
//! memory get their events whichever single allocation is refused.

use crate::frames::{FRONT_OF_LARGEST, FRONT_OF_LONG_VALUE};
use crate::parts::{bytes, key, node, prefix, value};
use meta_types::{ByteString, MetaKey};
use node_events::NodeEvent;
use std::alloc::Global;
use std::process::Abort;

/// What a node is asked: an event with word 0, or another call. A node is given by its number, a
/// key under p/s by its letter, and the body of a value by its letter, where `~` is a tombstone.
#[derive(Clone, Copy)]
pub enum Act {
    Read(u8),
    Write(u8, u8),
    PutOver(u8, u8),
    /// These bytes come as a frame.
    Take(&'static [u8]),
    /// A GOSSIP comes from node 1 of the key k, with an object of 1,048,576 bytes.
    TakeLargest,
    Tick,
    Join(u16),
    PeerDown(u16),
    Exchange(u16),
    Keep(u8),
    /// A watch of p/s, of this capacity.
    Watch(usize),
    Changes(u64),
    Hello(u16),
    Leave,
    /// The repair of a key by the last write.
    Repair(u8),
    /// A new node 0 takes the place of the node.
    New,
    /// A copy takes the place of the node.
    Copy,
    /// Writes under 8,191 keys of two bytes, none of which is refused.
    Fill,
    /// Twenty-one ticks, none of which is refused.
    Ticks,
}

/// Returns the key of these letters under p/s.
pub fn key_of(rt: &impl Abort, alloc: Global, letters: &[u8]) -> MetaKey {
    key(rt, alloc, b"p", b"s", letters)
}

/// Returns the GOSSIP with the largest object: 18 bytes before its values, 1,013 values of 1,035
/// bytes, and one of 103.
fn largest(rt: &impl Abort, alloc: Global) -> Vec<u8> {
    let mut text = bytes(rt, alloc, FRONT_OF_LARGEST);
    for _ in 0..1_013 {
        text.extend_from_slice(FRONT_OF_LONG_VALUE)
            .expect(rt, "memory");
        text.extend_from_slice(&[b'x'; 1_024]).expect(rt, "memory");
    }
    text
}

/// Returns a write of x over the key of these letters.
pub fn put_over(rt: &impl Abort, alloc: Global, letters: &[u8], body: u8) -> NodeEvent {
    NodeEvent::PutOver {
        key: key_of(rt, alloc, letters),
        value: value(rt, alloc, 0, &[body]),
    }
}

pub fn event(rt: &impl Abort, alloc: Global, act: Act) -> NodeEvent {
    match act {
        Act::Read(letter) => NodeEvent::Read {
            key: key_of(rt, alloc, &[letter]),
        },
        Act::Write(letter, body) => NodeEvent::Write {
            key: key_of(rt, alloc, &[letter]),
            value: value(rt, alloc, 0, &[body]),
            context: None,
        },
        Act::PutOver(letter, body) => put_over(rt, alloc, &[letter], body),
        Act::Take(text) => NodeEvent::Take {
            frame: ByteString::new(bytes(rt, alloc, text)),
            word: 0,
        },
        Act::TakeLargest => NodeEvent::Take {
            frame: ByteString::new(largest(rt, alloc)),
            word: 0,
        },
        Act::Keep(letter) => NodeEvent::Keep {
            key: key_of(rt, alloc, &[letter]),
        },
        Act::Watch(capacity) => NodeEvent::Watch {
            prefix: prefix(rt, alloc, b"p", b"s"),
            capacity,
        },
        act => small_event(rt, act),
    }
}

/// Returns what `event` does for an act of numbers alone; a tick stands for any other.
fn small_event(rt: &impl Abort, act: Act) -> NodeEvent {
    match act {
        Act::Join(contact) => NodeEvent::Join {
            contact: node(rt, contact),
            word: 0,
        },
        Act::PeerDown(peer) => NodeEvent::PeerDown {
            peer: node(rt, peer),
            word: 0,
        },
        Act::Exchange(peer) => NodeEvent::Exchange {
            peer: node(rt, peer),
        },
        Act::Changes(number) => NodeEvent::Changes { number },
        Act::Hello(peer) => NodeEvent::Hello {
            peer: node(rt, peer),
        },
        Act::Leave => NodeEvent::Leave,
        _ => NodeEvent::Tick { word: 0 },
    }
}
