use crate::parts::{actor, either, long_key, room, value, values};
use dvvset::Counter;
use meta_types::{MetaKey, NodeId};
use past_model::{Happening, Plain, fits};
use std::alloc::Global;
use std::process::Abort;

/// A node, and the key under which it is asked.
type At<'a> = (NodeId, &'a MetaKey);

/// Returns a write of a letter, which has read what was seen at the place `seen`, or nothing.
fn wrote(
    rt: &impl Abort,
    alloc: Global,
    node: NodeId,
    letter: u8,
    seen: Option<usize>,
) -> Happening {
    Happening::Wrote {
        node,
        key: long_key(rt, alloc, b'k', 1),
        value: value(rt, alloc, letter, 1),
        seen,
    }
}

/// Node 0 writes x, and node 1 writes y over what was read at node 0. Node 1 goes back to the image
/// of that, and writes z blindly in its next life.
fn history(rt: &impl Abort, alloc: Global) -> Vec<Happening> {
    let (zero, one) = (actor(rt, 0, 1).node(), actor(rt, 1, 1).node());
    let key = long_key(rt, alloc, b'k', 1);
    let looked = Happening::Looked { node: zero, key };
    let restarted = Happening::Restarted {
        node: one,
        image: 1,
    };
    let mut history = room(rt, alloc, 5);
    history
        .push(wrote(rt, alloc, zero, b'x', None))
        .expect(rt, "room");
    history.push(looked).expect(rt, "room");
    history
        .push(wrote(rt, alloc, one, b'y', Some(1)))
        .expect(rt, "room");
    history.push(restarted).expect(rt, "room");
    history
        .push(wrote(rt, alloc, one, b'z', None))
        .expect(rt, "room");
    history
}

fn knows(rt: &impl Abort, alloc: Global, plain: &Plain, at: At, places: &[usize]) -> bool {
    let (first, second) = (
        plain.known(alloc, at.0, at.1),
        plain.known(alloc, at.0, at.1),
    );
    either(rt, first, second).as_slice() == places
}

fn counts(rt: &impl Abort, alloc: Global, plain: &Plain, at: At, counters: &[Counter]) -> bool {
    let (first, second) = (
        plain.context(alloc, at.0, at.1),
        plain.context(alloc, at.0, at.1),
    );
    either(rt, first, second).counters() == counters
}

fn shows(rt: &impl Abort, alloc: Global, plain: &Plain, at: At, letters: &[u8]) -> bool {
    let (first, second) = (
        plain.siblings(alloc, at.0, at.1),
        plain.siblings(alloc, at.0, at.1),
    );
    either(rt, first, second).as_slice() == values(rt, alloc, letters, 1, 1).as_slice()
}

/// Returns whether node 1 knows both of its writes and what they had read.
fn is_told(rt: &impl Abort, alloc: Global, plain: &Plain) -> bool {
    let (node, key) = (actor(rt, 1, 1).node(), long_key(rt, alloc, b'k', 1));
    let counters = [
        Counter::new(actor(rt, 0, 1), 1),
        Counter::new(actor(rt, 1, 1), 1),
        Counter::new(actor(rt, 1, 2), 1),
    ];
    knows(rt, alloc, plain, (node, &key), &[0, 2, 4])
        && counts(rt, alloc, plain, (node, &key), &counters)
        && shows(rt, alloc, plain, (node, &key), b"yz")
}

/// Returns whether the account of the history has what `is_told` asks for; if memory was refused,
/// whether the account can then be made.
fn are_told(rt: &impl Abort, alloc: Global, history: &[Happening]) -> bool {
    assert!(rt; fits(history));
    match Plain::replay(alloc, history) {
        Ok(plain) => is_told(rt, alloc, &plain),
        Err(_) => Plain::replay(alloc, history).is_ok(),
    }
}

// Holds whichever single allocation is refused: a call that was refused memory succeeds when it is
// made again.
#[test]
fn the_past_is_told_again_under_refused_memory(rt: HostRuntime) {
    let history = history(&rt, rt.alloc());
    let are_told = are_told(&rt, rt.alloc(), &history);
    drop(history);
    assert!(rt; are_told);
}
