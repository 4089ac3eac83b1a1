//! The callers of CALLING.md of `meta_store` and of `exchange`.

use crate::parts::{Part, actor, is_object, value};
use crate::trees::{Letters, key_of, write};
use dvvset::Entries;
use exchange::{answer, start};
use hash_tree::Held;
use meta_frame::Message;
use meta_store::{Merged, Source, Store, StoreFault};
use meta_types::{Actor, MetaKey, Value};
use std::alloc::{AllocError, Global};
use std::process::Abort;

/// Makes a write over all that the store shows under the key: the step of this number in the life
/// of the writer.
fn write_over(
    store: &mut Store,
    writer: Actor,
    step: u64,
    key: &MetaKey,
    value: Value,
) -> Result<(), StoreFault> {
    let actor = writer;
    let read = store.context(key, Source { actor, step })?;
    let written = store.put(writer, key.copy()?, value, Some(&read));
    drop(read);
    written
}

/// Takes in what another store holds under the key.
fn take_from(store: &mut Store, other: &Store, key: &MetaKey) -> Result<Merged, StoreFault> {
    match other.object(key) {
        Some(object) => store.merge(key.copy()?, object.copy()?),
        None => Ok(Merged::Stale),
    }
}

/// Writes r by node 0 in its store and b by node 1 in its own. Then node 0 takes in what node 1
/// holds.
fn meet(rt: &impl Abort, alloc: Global, here: &mut Store, there: &mut Store, key: &MetaKey) {
    let red = value(rt, alloc, b'r', 1);
    write_over(here, actor(rt, 0, 1), 1, key, red).expect(rt, "a write");
    let blue = value(rt, alloc, b'b', 1);
    write_over(there, actor(rt, 1, 1), 1, key, blue).expect(rt, "a write");
    take_from(here, there, key).expect(rt, "a merge");
}

/// Writes g by node 0 over both. Then node 1 takes that in, twice. Returns whether only the first
/// time brings what it didn't know.
fn settle(
    rt: &impl Abort,
    alloc: Global,
    here: &mut Store,
    there: &mut Store,
    key: &MetaKey,
) -> bool {
    let green = value(rt, alloc, b'g', 1);
    write_over(here, actor(rt, 0, 1), 2, key, green).expect(rt, "a write");
    let first = take_from(there, here, key);
    let second = take_from(there, here, key);
    first == Ok(Merged::Fresh) && second == Ok(Merged::Stale)
}

fn shows(rt: &impl Abort, alloc: Global, store: &Store, key: &MetaKey, parts: &[Part]) -> bool {
    let held = store.object(key).expect(rt, "an object");
    is_object(rt, alloc, held, parts)
}

static BOTH: [Part; 2] = [(0, 1, 1, b"r"), (1, 1, 1, b"b")];

static ONE: [Part; 2] = [(0, 1, 2, b"g"), (1, 1, 1, b"")];

/// Returns whether node 0 shows both values, and in the end node 1 shows the one that was written
/// over them.
fn is_settled(rt: &impl Abort, alloc: Global, here: &mut Store, there: &mut Store) -> bool {
    let key = key_of(rt, alloc, *b"abk");
    meet(rt, alloc, here, there, &key);
    let met = shows(rt, alloc, here, &key, &BOTH);
    let settled = settle(rt, alloc, here, there, &key);
    let shown = shows(rt, alloc, there, &key, &ONE);
    drop(key);
    met & settled & shown
}

#[test]
fn siblings_stand_in_a_store_until_they_are_written_over(rt: HostRuntime) {
    let (mut here, mut there) = (Store::new(rt.alloc()), Store::new(rt.alloc()));
    assert!(rt; is_settled(&rt, rt.alloc(), &mut here, &mut there));
}

/// Merges an object that came, and holds what comes of it with its tree.
fn take_object(held: &mut Held, key: &MetaKey, object: &Entries) -> Result<(), StoreFault> {
    match held.store().preview_merge(key, object)? {
        Some(merged) => Ok(held.hold(key, merged)?),
        None => Ok(()),
    }
}

/// Takes a message of the other side, and returns what is to be sent back.
fn take(alloc: Global, held: &mut Held, message: &Message) -> Result<Vec<Message>, StoreFault> {
    if let Message::XObject { key, object } = message {
        take_object(held, key, object)?;
    }
    Ok(answer(alloc, held, message)?)
}

/// Takes all that the other side sent, and returns what is to be sent back.
fn take_round(
    alloc: Global,
    held: &mut Held,
    came: Vec<Message>,
) -> Result<Vec<Message>, StoreFault> {
    let mut answers = Vec::new(alloc);
    for message in came.as_slice() {
        let mut own = take(alloc, held, message)?;
        answers.append(&mut own)?;
    }
    drop(came);
    Ok(answers)
}

/// Returns the one item as a list.
fn only<T: Drop>(alloc: Global, item: T) -> Result<Vec<T>, AllocError> {
    let mut items = Vec::with_capacity(alloc, 1)?;
    items.push(item)?;
    Ok(items)
}

/// Runs a whole exchange, which `here` begins. Returns what is left to be sent after eight rounds.
fn exchange(alloc: Global, here: &mut Held, there: &mut Held) -> Result<Vec<Message>, StoreFault> {
    let mut round = only(alloc, start(here))?;
    for _ in 0..4 {
        round = take_round(alloc, there, round)?;
        round = take_round(alloc, here, round)?;
    }
    Ok(round)
}

/// Makes a side on which the node, in its first life, wrote the letter under these keys.
fn side(rt: &impl Abort, alloc: Global, node: u16, keys: &[Letters], letter: u8) -> Held {
    let mut store = Store::new(alloc);
    for letters in keys {
        write(
            rt,
            alloc,
            &mut store,
            node,
            &key_of(rt, alloc, *letters),
            letter,
        );
    }
    Held::new(alloc, store).expect(rt, "memory")
}

static SIBLINGS: [Part; 2] = [(0, 1, 1, b"x"), (1, 1, 1, b"y")];

/// Returns whether a side holds two keys, and both values stand under the one that both wrote.
fn is_whole(rt: &impl Abort, alloc: Global, side: &Held) -> bool {
    let key = key_of(rt, alloc, *b"abk");
    let shown = shows(rt, alloc, side.store(), &key, &SIBLINGS);
    drop(key);
    shown & (side.store().len() == 2)
}

/// Returns whether nothing is left to be sent after an exchange.
fn is_done(rt: &impl Abort, alloc: Global, here: &mut Held, there: &mut Held) -> bool {
    let left = exchange(alloc, here, there).expect(rt, "an exchange");
    let is_done = left.is_empty();
    drop(left);
    is_done
}

/// Returns whether an exchange ends, and both sides are alike then.
fn end_alike(rt: &impl Abort, alloc: Global, here: &mut Held, there: &mut Held) -> bool {
    let is_done = is_done(rt, alloc, here, there);
    let alike = here.tree().root() == there.tree().root();
    is_done & alike & is_whole(rt, alloc, here) & is_whole(rt, alloc, there)
}

#[test]
fn two_sides_end_alike(rt: HostRuntime) {
    let mut here = side(&rt, rt.alloc(), 0, &[*b"abk", *b"cdl"], b'x');
    let mut there = side(&rt, rt.alloc(), 1, &[*b"abk"], b'y');
    let end_alike = end_alike(&rt, rt.alloc(), &mut here, &mut there);
    drop(there);
    drop(here);
    assert!(rt; end_alike);
}
