//! The command of each kind of event.

use meta_types::{ByteString, FullPrefix, MetaKey, NodeId, Value};
use node_events::{NodeEvent, Reply};
use run_text::replay_of;
use std::alloc::Global;
use std::process::Abort;
use world_core::{Accepted, Answer, Event, FrameNumbers};

/// Returns an accepted event. Its answer doesn't matter: no text says it.
fn accepted(event: Event) -> Accepted {
    Accepted {
        event,
        answer: Answer {
            reply: Reply::Done,
            read: None,
            sent: FrameNumbers { first: 1, count: 0 },
        },
    }
}

fn prefix(rt: &impl Abort, alloc: Global) -> FullPrefix {
    let prefix = b"a".to_vec(alloc).expect(rt, "memory");
    let sub = b"b".to_vec(alloc).expect(rt, "memory");
    FullPrefix::new(prefix, sub).ok().expect(rt, "a prefix")
}

fn node(rt: &impl Abort, number: u16) -> NodeId {
    NodeId::new(number).ok().expect(rt, "a node")
}

/// Returns the key a/b with this own part.
fn key(rt: &impl Abort, alloc: Global, own: &[u8]) -> MetaKey {
    let own = own.to_vec(alloc).expect(rt, "memory");
    MetaKey::new(prefix(rt, alloc), own)
        .ok()
        .expect(rt, "a key")
}

fn value(rt: &impl Abort, alloc: Global, stamp: u64, body: &[u8]) -> Value {
    let body = body.to_vec(alloc).expect(rt, "memory");
    Value::new(stamp, Some(body)).ok().expect(rt, "a value")
}

/// Returns what a node is asked by the event of this number, if that has a key.
fn asked_under(rt: &impl Abort, alloc: Global, number: u64) -> NodeEvent {
    let key = key(rt, alloc, b"k");
    match number {
        0 => NodeEvent::Write {
            key,
            value: value(rt, alloc, 0, b"x"),
            context: None,
        },
        2 => NodeEvent::Write {
            key,
            value: Value::new(7, None).ok().expect(rt, "a tombstone"),
            context: None,
        },
        3 => NodeEvent::PutOver {
            key,
            value: value(rt, alloc, 0, b"y"),
        },
        16 => NodeEvent::Keep { key },
        _ => NodeEvent::Read { key },
    }
}

/// Returns what a node is asked by the event of this number.
fn asked(rt: &impl Abort, alloc: Global, number: u64) -> NodeEvent {
    match number {
        6 => NodeEvent::Tick { word: 0 },
        7 => NodeEvent::Join {
            contact: node(rt, 0),
            word: u64::MAX,
        },
        8 => NodeEvent::PeerDown {
            peer: node(rt, 1),
            word: 0,
        },
        9 => NodeEvent::Exchange { peer: node(rt, 1) },
        10 => NodeEvent::Hello { peer: node(rt, 1) },
        11 => NodeEvent::Leave,
        13 => NodeEvent::Watch {
            prefix: prefix(rt, alloc),
            capacity: 2,
        },
        14 => NodeEvent::Changes { number: 1 },
        15 => NodeEvent::Take {
            frame: ByteString::new(b"PT".to_vec(alloc).expect(rt, "memory")),
            word: 0,
        },
        number => asked_under(rt, alloc, number),
    }
}

fn event(rt: &impl Abort, alloc: Global, number: u64) -> Event {
    match number {
        1 => Event::Put {
            node: 1,
            key: key(rt, alloc, b"k"),
            value: value(rt, alloc, 5, b"\x00\xff"),
            read: 1,
        },
        5 => Event::Deliver {
            frame: 3,
            node: 1,
            word: 9,
        },
        12 => Event::Restart { node: 1, image: 0 },
        3 | 7 | 11 | 15 | 16 => Event::Step {
            node: 1,
            event: asked(rt, alloc, number),
        },
        number => Event::Step {
            node: 0,
            event: asked(rt, alloc, number),
        },
    }
}

/// The text of 17 events, one of each kind, and of a write three.
const TEXT: &[u8] = b"# each kind
nodes 2
put 0 a/b/k x
put 1 a/b/k hex:00ff stamp 5 read 1
del 0 a/b/k stamp 7
over 1 a/b/k y
read 0 a/b/k
deliver 3 1 word 9
tick 0
join 1 0 word 18446744073709551615
down 0 1
exchange 0 1
hello 0 1
leave 1
restart 1 0
watch 0 a/b 2
changes 0 1
junk 1 5054
keep 1 a/b/k
root 0
root 1
";

/// Returns whether the text that is handed out is this one; without one, that there is none.
fn is_told(
    alloc: Global,
    about: &[u8],
    nodes: u64,
    events: &[Accepted],
    wanted: Option<&[u8]>,
) -> bool {
    match replay_of(alloc, about, nodes, events) {
        Ok(Some(text)) => wanted == Some(text.as_slice()),
        Ok(None) => wanted.is_none(),
        Err(_) => false,
    }
}

#[test]
fn each_kind_of_event_has_its_command(rt: HostRuntime) {
    let mut events = Vec::new(rt.alloc());
    for number in 0..17 {
        let one = accepted(event(&rt, rt.alloc(), number));
        events.push(one).ok().expect(&rt, "memory");
    }
    assert!(&rt; is_told(rt.alloc(), b"each kind", 2, events.as_slice(), Some(TEXT)));
}

/// Returns an event that names a key without a spelling.
fn untold(rt: &impl Abort, alloc: Global, number: u64) -> Event {
    let key = key(rt, alloc, b"k k");
    let event = match number {
        0 => NodeEvent::Read { key },
        _ => NodeEvent::Keep { key },
    };
    Event::Step { node: 0, event }
}

#[test]
fn what_has_no_spelling_has_no_text(rt: HostRuntime) {
    for number in 0..2 {
        let mut events = Vec::new(rt.alloc());
        let one = accepted(untold(&rt, rt.alloc(), number));
        events.push(one).ok().expect(&rt, "memory");
        assert!(&rt; is_told(rt.alloc(), b"", 1, events.as_slice(), None));
    }
}

#[test]
fn a_text_has_a_line_about_it_and_nodes(rt: HostRuntime) {
    assert!(&rt; is_told(rt.alloc(), b"", 1, &[], Some(b"# \nnodes 1\nroot 0\n")));
    assert!(&rt; is_told(rt.alloc(), b"one\nroot 0", 1, &[], None));
    assert!(&rt; is_told(rt.alloc(), b"", 0, &[], None));
    assert!(&rt; is_told(rt.alloc(), b"", 17, &[], None));
}
