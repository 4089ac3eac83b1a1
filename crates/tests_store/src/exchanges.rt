//! Exchanges of stores of numbered keys, whole and by single messages.

use crate::parts::{actor, key, value};
use crate::trees::write;
use dvvset::Counter;
use exchange::{answer, reconcile, start};
use hash_tree::Held;
use meta_frame::Message;
use meta_store::{Source, Store, StoreFault};
use meta_types::{Actor, MetaKey};
use std::alloc::Global;
use std::process::Abort;

/// The numbers of some keys: the first of them, and the one after the last.
type Numbers = (u16, u16);

/// Returns the key of the two bytes of a number, under one of five full prefixes, n/a to n/e.
fn numbered(rt: &impl Abort, alloc: Global, number: u16) -> MetaKey {
    let sub = b'a'.saturating_add((number % 5) as u8);
    key(rt, alloc, b"n", &[sub], &number.to_be_bytes())
}

/// Returns the store with its tree.
fn built(rt: &impl Abort, alloc: Global, store: Store) -> Held {
    match Held::from_store(alloc, store) {
        Ok(held) => held,
        Err(failed) => Held::new(alloc, failed.value).expect(rt, "memory once more"),
    }
}

/// Returns a side on which the node, in its first life, wrote x under these keys.
fn filled(rt: &impl Abort, alloc: Global, node: u16, numbers: Numbers) -> Held {
    let mut store = Store::new(alloc);
    for number in numbers.0..numbers.1 {
        let key = numbered(rt, alloc, number);
        write(rt, alloc, &mut store, node, &key, b'x');
    }
    built(rt, alloc, store)
}

/// Runs an exchange, once more if memory was refused. Returns whether it ends as is wanted.
fn ends(alloc: Global, here: &mut Held, there: &mut Held, wanted: &Result<(), StoreFault>) -> bool {
    reconcile(alloc, here, there) == *wanted || reconcile(alloc, here, there) == *wanted
}

/// Returns whether an exchange ends as is wanted, of sides whose keys node 0 wrote here and node 1
/// there; whether the sides then have one root exactly if it isn't refused; and whether they hold
/// `lens` keys.
fn is_exchanged(
    rt: &impl Abort,
    alloc: Global,
    numbers: [Numbers; 2],
    wanted: &Result<(), StoreFault>,
    lens: (usize, usize),
) -> bool {
    let (mut here, mut there) = (
        filled(rt, alloc, 0, numbers[0]),
        filled(rt, alloc, 1, numbers[1]),
    );
    let ends = ends(alloc, &mut here, &mut there, wanted);
    let have_one_root = here.tree().root() == there.tree().root();
    let have_lens = (here.store().len() == lens.0) & (there.store().len() == lens.1);
    ends & (have_one_root == wanted.is_ok()) & have_lens
}

static DONE: Result<(), StoreFault> = Ok(());

static STORE_FULL: Result<(), StoreFault> = Err(StoreFault::StoreFull);

#[test]
fn stores_of_200_keys_that_have_50_in_common_are_reconciled(rt: HostRuntime) {
    let numbers = [(0, 200), (150, 350)];
    assert!(rt; is_exchanged(&rt, rt.alloc(), numbers, &DONE, (350, 350)));
}

#[test]
fn an_exchange_with_a_full_store_is_refused(rt: HostRuntime) {
    let numbers = [(0, 8_192), (8_192, 8_193)];
    assert!(rt; is_exchanged(&rt, rt.alloc(), numbers, &STORE_FULL, (8_192, 1)));
}

// Holds whichever single allocation is refused. Allocates at most 150 times.
#[test]
fn an_exchange_succeeds_again_under_refused_memory(rt: HostRuntime) {
    // A key of each side, under one full prefix.
    let numbers = [(0, 1), (10, 11)];
    assert!(rt; is_exchanged(&rt, rt.alloc(), numbers, &DONE, (2, 2)));
}

/// Writes a letter by the actor under key 0, over what is shown there.
fn overwrite(rt: &impl Abort, alloc: Global, store: &mut Store, actor: Actor, letter: u8) {
    let key = numbered(rt, alloc, 0);
    let context = store
        .context(&key, Source { actor, step: 1 })
        .expect(rt, "memory");
    let written = store.put(actor, key, value(rt, alloc, letter, 1), Some(&context));
    drop(context);
    written.expect(rt, "a write");
}

/// Returns a side on which the node, in its first life, wrote these letters under key 0, one value
/// each, having read what was shown.
fn overwritten(rt: &impl Abort, alloc: Global, node: u16, letters: &[u8]) -> Held {
    let mut store = Store::new(alloc);
    for letter in letters {
        overwrite(rt, alloc, &mut store, actor(rt, node, 1), *letter);
    }
    built(rt, alloc, store)
}

/// Returns whether a side shows y of node 0 and z of node 1 under key 0, and knows two writes of
/// node 0 and one of node 1.
fn shows_siblings(rt: &impl Abort, alloc: Global, side: &Held) -> bool {
    let (values, vector) = side
        .store()
        .get(&numbered(rt, alloc, 0))
        .expect(rt, "memory");
    let shown = [value(rt, alloc, b'y', 1), value(rt, alloc, b'z', 1)];
    let known = [
        Counter::new(actor(rt, 0, 1), 2),
        Counter::new(actor(rt, 1, 1), 1),
    ];
    (values.as_slice() == shown.as_slice()) & (vector.counters() == known.as_slice())
}

#[test]
fn siblings_are_reconciled(rt: HostRuntime) {
    let alloc = rt.alloc();
    let mut here = overwritten(&rt, alloc, 0, b"xy");
    let mut there = overwritten(&rt, alloc, 1, b"z");
    let is_done = reconcile(alloc, &mut here, &mut there).is_ok();
    let are_shown = shows_siblings(&rt, alloc, &here) & shows_siblings(&rt, alloc, &there);
    drop(there);
    drop(here);
    assert!(rt; is_done & are_shown);
}

// Messages stay in lists here: a message alone has a drop of many cases.

fn one<T: Drop>(rt: &impl Abort, alloc: Global, item: T) -> Vec<T> {
    let mut items = Vec::new(alloc);
    items.push(item).expect(rt, "memory");
    items
}

fn answers(rt: &impl Abort, alloc: Global, side: &Held, message: Option<&Message>) -> Vec<Message> {
    let message = message.expect(rt, "a message");
    answer(alloc, side, message).expect(rt, "memory")
}

/// Returns how many answers a side that holds nothing gives to a message.
fn count(rt: &impl Abort, alloc: Global, message: Option<&Message>) -> usize {
    let side = built(rt, alloc, Store::new(alloc));
    let answers = answers(rt, alloc, &side, message);
    drop(side);
    answers.len()
}

/// Returns the leaves with which `there` answers, in an exchange that `here` began.
fn leaves(rt: &impl Abort, alloc: Global, here: &Held, there: &Held) -> Vec<Message> {
    let root = one(rt, alloc, start(here));
    let prefixes = answers(rt, alloc, there, root.first());
    let inner = answers(rt, alloc, here, prefixes.first());
    answers(rt, alloc, there, inner.first())
}

/// Gives buckets and leaves a number that isn't theirs.
fn forge(messages: &mut [Message]) {
    for message in messages {
        match message {
            Message::XBucket { leaf, .. } => *leaf = 0x3e,
            Message::XLeaves { inner, .. } => *inner = 16,
            _ => {}
        }
    }
}

/// Returns whether odd messages are answered by the table. Both sides hold key 0, which stands in
/// leaf 0x96: listed in another leaf it is sent and wanted as ever. There is no answer to leaves of
/// inner node 16, to an object, and to a want of a key that isn't held.
fn are_odd_answered(rt: &impl Abort, alloc: Global, here: &Held, there: &Held) -> bool {
    let mut leaves = leaves(rt, alloc, here, there);
    let mut buckets = answers(rt, alloc, here, leaves.first());
    let honest = answers(rt, alloc, there, buckets.first());
    forge(buckets.as_mut_slice());
    let forged = answers(rt, alloc, there, buckets.first());
    forge(leaves.as_mut_slice());
    let unanswered = count(rt, alloc, leaves.first()) == 0;
    let object = count(rt, alloc, honest.first()) == 0;
    let want = count(rt, alloc, honest.last()) == 0;
    (honest.len() == 2) & (forged == honest) & unanswered & object & want
}

#[test]
fn odd_messages_are_answered_as_the_table_says(rt: HostRuntime) {
    let alloc = rt.alloc();
    let (here, there) = (filled(&rt, alloc, 0, (0, 1)), filled(&rt, alloc, 1, (0, 1)));
    assert!(rt; are_odd_answered(&rt, alloc, &here, &there));
}
