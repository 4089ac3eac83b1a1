use crate::parts::{Part, actor, is_object, long_key, object, value};
use meta_store::{Context, Source, Store, StoreFault};
use meta_types::MetaKey;
use std::alloc::{AllocError, Global};
use std::process::Abort;

/// What is done with a store under the key of 256 k's, or asked of it.
enum Step {
    /// An object comes, with this number of values of this number of letters for each letter.
    Take(&'static [Part], usize, usize),
    /// The node in its first life writes this number of w's, and has read nothing.
    Put(u16, usize),
    /// It writes this number of w's over all that a read shows.
    Over(u16, usize),
    /// Node 0 writes under 8,192 other keys.
    Fill,
    /// Lists and the whole store are copied.
    Copy,
    /// The object that stands there is this one, with a value of one letter for each letter.
    Shows(&'static [Part]),
}

/// The number of a refusal for lack of memory.
const MEMORY: u16 = 99;

/// Returns the number of the refusal, or 0.
fn number<T: Drop>(answer: Result<T, StoreFault>) -> u16 {
    match answer {
        Ok(_) => 0,
        Err(fault) => fault.code(),
    }
}

/// Returns the number of the refusal of a call that only lack of memory refuses, or 0.
fn memory<T: Drop>(answer: Result<T, AllocError>) -> u16 {
    if answer.is_ok() { 0 } else { MEMORY }
}

fn take(
    rt: &impl Abort,
    alloc: Global,
    store: &mut Store,
    parts: &[Part],
    many: usize,
    len: usize,
) -> u16 {
    let key = long_key(rt, alloc, b'k', 256);
    number(store.merge(key, object(rt, alloc, parts, many, len)))
}

/// Writes `len` w's by the node, having read `read`. Returns the number of the refusal, or 0.
fn put(
    rt: &impl Abort,
    alloc: Global,
    store: &mut Store,
    node: u16,
    len: usize,
    read: Option<&Context>,
) -> u16 {
    let (key, value) = (long_key(rt, alloc, b'k', 256), value(rt, alloc, b'w', len));
    number(store.put(actor(rt, node, 1), key, value, read))
}

/// Writes `len` w's by the node over all that a read of the key shows. Returns the number of the
/// refusal, or 0.
fn put_over(
    rt: &impl Abort,
    alloc: Global,
    store: &mut Store,
    at: &MetaKey,
    node: u16,
    len: usize,
) -> u16 {
    let (actor, step) = (actor(rt, node, 1), 7);
    match store.look(at, Source { actor, step }) {
        Ok((_, read)) => put(rt, alloc, store, node, len, Some(&read)),
        Err(_) => MEMORY,
    }
}

/// Writes under 8,192 keys of up to 32 letters.
fn fill(rt: &impl Abort, alloc: Global, store: &mut Store) -> u16 {
    for letter in 0..=255 {
        for len in 1..=32 {
            let (key, value) = (long_key(rt, alloc, letter, len), value(rt, alloc, b'x', 1));
            store
                .put(actor(rt, 0, 1), key, value, None)
                .expect(rt, "a write");
        }
    }
    0
}

/// Copies the keys under the full prefix of the key, all full prefixes, and the store.
fn copy(store: &Store, at: &MetaKey) -> u16 {
    memory(store.list(at.prefix()))
        .max(memory(store.prefixes()))
        .max(memory(store.copy()))
}

fn shows(rt: &impl Abort, alloc: Global, store: &Store, at: &MetaKey, parts: &[Part]) -> u16 {
    let held = store.object(at).expect(rt, "an object");
    u16::from(!is_object(rt, alloc, held, parts))
}

/// Makes a step. Returns the number of its refusal, or 0; for `Shows` 0 if the object is that one.
fn act(rt: &impl Abort, alloc: Global, store: &mut Store, at: &MetaKey, step: &Step) -> u16 {
    match step {
        Step::Take(parts, many, len) => take(rt, alloc, store, parts, *many, *len),
        Step::Put(node, len) => put(rt, alloc, store, *node, *len, None),
        Step::Over(node, len) => put_over(rt, alloc, store, at, *node, *len),
        Step::Fill => fill(rt, alloc, store),
        Step::Copy => copy(store, at),
        Step::Shows(parts) => shows(rt, alloc, store, at, parts),
    }
}

/// What a row shows, and its steps, each with the number of its refusal, or 0.
type Row = (&'static str, &'static [(Step, u16)]);

/// Makes the steps of a row over a new store, each once more if it was refused memory. Returns
/// whether each gives its number.
fn is_played(rt: &impl Abort, alloc: Global, steps: &[(Step, u16)]) -> bool {
    let (mut store, at) = (Store::new(alloc), long_key(rt, alloc, b'k', 256));
    let mut is_played = true;
    for (step, code) in steps {
        let mut given = act(rt, alloc, &mut store, &at, step);
        if given == MEMORY {
            given = act(rt, alloc, &mut store, &at, step);
        }
        is_played = is_played && given == *code;
    }
    is_played
}

static ROWS: [Row; 15] = [
    // What no cluster comes to: objects that no writes leave, and counters at the greatest value.
    (
        "each covers the value of the other",
        &[
            (Step::Take(&[(0, 1, 1, b"x"), (1, 1, 2, b"")], 1, 1), 0),
            (Step::Take(&[(0, 1, 2, b""), (1, 1, 1, b"z")], 1, 1), 21),
            (Step::Shows(&[(0, 1, 1, b"x"), (1, 1, 2, b"")]), 0),
        ],
    ),
    ("no value", &[(Step::Take(&[(1, 1, 1, b"")], 1, 1), 21)]),
    (
        "what counts no write that isn't known is stale, whatever it shows",
        &[
            (Step::Take(&[(0, 1, 3, b"zyx")], 1, 1), 0),
            (Step::Take(&[(0, 1, 3, b"z")], 1, 1), 0),
            (Step::Take(&[(0, 1, 2, b"ba")], 1, 1), 0),
            (Step::Shows(&[(0, 1, 3, b"zyx")]), 0),
        ],
    ),
    (
        "of as many writes, two of three values are covered",
        &[
            (Step::Take(&[(0, 1, 3, b"zyx")], 1, 1), 0),
            (Step::Take(&[(0, 1, 3, b"z"), (1, 1, 1, b"")], 1, 1), 0),
            (Step::Shows(&[(0, 1, 3, b"z"), (1, 1, 1, b"")]), 0),
        ],
    ),
    (
        "of as many writes, other values",
        &[
            (Step::Take(&[(0, 1, 2, b"yx")], 1, 1), 0),
            (Step::Take(&[(0, 1, 2, b"ba"), (1, 1, 1, b"z")], 1, 1), 0),
            (Step::Shows(&[(0, 1, 2, b"yx"), (1, 1, 1, b"z")]), 0),
        ],
    ),
    (
        "more writes are covered than the other side counts",
        &[
            (Step::Take(&[(0, 1, 1, b"x"), (1, 1, 1, b"z")], 1, 1), 0),
            (Step::Take(&[(0, 1, 7, b"gf")], 1, 1), 0),
            (Step::Shows(&[(0, 1, 7, b"gf"), (1, 1, 1, b"z")]), 0),
        ],
    ),
    (
        "a spent counter",
        &[
            (Step::Take(&[(0, 1, u64::MAX, b"x")], 1, 1), 0),
            (Step::Put(0, 1), 20),
            (Step::Over(0, 1), 20),
            (Step::Put(1, 1), 0),
            (Step::Shows(&[(0, 1, u64::MAX, b"x"), (1, 1, 1, b"w")]), 0),
            (Step::Over(1, 1), 0),
            (Step::Shows(&[(0, 1, u64::MAX, b""), (1, 1, 2, b"w")]), 0),
        ],
    ),
    (
        "a counter with one number left",
        &[
            (Step::Take(&[(0, 1, u64::MAX - 1, b"x")], 1, 1), 0),
            (Step::Put(0, 1), 0),
            (Step::Put(0, 1), 20),
            (Step::Shows(&[(0, 1, u64::MAX, b"wx")]), 0),
        ],
    ),
    // What is large, and the limits. An object has 2 bytes for the number of its entries, 16 for
    // each of them, and 11 for each value and its letters.
    (
        "sixteen writers, in 1,026,978 bytes",
        &[
            (Step::Take(&SIXTEEN, 62, 1_024), 0),
            (Step::Put(15, 1_024), 0),
            (Step::Copy, 0),
            (Step::Over(15, 1_024), 0),
        ],
    ),
    (
        "1,048,576 bytes after a write: 18, 1,013 times 1,035, and 103",
        &[
            (Step::Take(&[(0, 1, 1_013, b"x")], 1_013, 1_024), 0),
            (Step::Put(0, 93), 27),
            (Step::Put(0, 92), 0),
            (Step::Put(0, 0), 27),
            (Step::Over(0, 1_024), 0),
        ],
    ),
    (
        "16,000,000 bytes after a merge: 18, 15,458 times 1,035, and 952",
        &[
            (Step::Take(&[(0, 1, 15_458, b"x")], 15_458, 1_024), 0),
            (Step::Take(&[(1, 1, 1, b"y")], 1, 926), 27),
            (Step::Take(&[(1, 1, 1, b"y")], 1, 925), 0),
            (Step::Take(&[(2, 1, 1, b"z")], 1, 0), 27),
            (Step::Over(1, 1_024), 0),
        ],
    ),
    (
        "65,535 values of one writer",
        &[
            (Step::Take(&[(0, 1, 65_536, b"x")], 65_536, 0), 27),
            (Step::Take(&[(0, 1, 65_534, b"x")], 65_534, 0), 0),
            (Step::Put(0, 0), 0),
            (Step::Put(0, 0), 27),
            (Step::Over(0, 0), 0),
        ],
    ),
    (
        "65,535 entries",
        &[
            (Step::Take(&[(0, 65_536, 1, b"x")], 1, 1), 27),
            (Step::Take(&[(0, 65_535, 1, b"x")], 1, 1), 0),
            (Step::Take(&[(1, 1, 1, b"x")], 1, 1), 27),
        ],
    ),
    (
        "37,000 writers, and one more",
        &[
            (Step::Take(&[(0, 37_000, 1, b"x")], 1, 1), 0),
            (Step::Put(15, 0), 0),
            (Step::Copy, 0),
            (Step::Over(15, 0), 0),
        ],
    ),
    (
        "8,192 keys",
        &[
            (Step::Fill, 0),
            (Step::Fill, 0),
            (Step::Take(&[(1, 1, 1, b"x")], 1, 1), 25),
            (Step::Put(0, 1), 25),
            (Step::Over(0, 1), 25),
            (Step::Copy, 0),
        ],
    ),
];

const SIXTEEN: [Part; 16] = [
    (0, 1, 100, b"x"),
    (1, 1, 100, b"x"),
    (2, 1, 100, b"x"),
    (3, 1, 100, b"x"),
    (4, 1, 100, b"x"),
    (5, 1, 100, b"x"),
    (6, 1, 100, b"x"),
    (7, 1, 100, b"x"),
    (8, 1, 100, b"x"),
    (9, 1, 100, b"x"),
    (10, 1, 100, b"x"),
    (11, 1, 100, b"x"),
    (12, 1, 100, b"x"),
    (13, 1, 100, b"x"),
    (14, 1, 100, b"x"),
    (15, 1, 100, b"x"),
];

static EACH_CALL: [(Step, u16); 5] = [
    (Step::Take(&[(1, 1, 1, b"x")], 1, 1), 0),
    (Step::Put(0, 1), 0),
    (Step::Over(1, 1), 0),
    (Step::Copy, 0),
    (Step::Shows(&[(0, 1, 1, b""), (1, 1, 2, b"w")]), 0),
];

fn are_played(rt: &impl Abort, alloc: Global, rows: &[Row]) {
    for (row, steps) in rows {
        assert!(rt; is_played(rt, alloc, steps), "{row}");
    }
}

#[test]
fn objects_are_held_by_the_rules_and_up_to_the_limits(rt: HostRuntime) {
    are_played(&rt, rt.alloc(), &ROWS);
}

// Holds whichever single allocation is refused: a call that was refused memory returns `Memory` and
// leaves the store as it was, so that it succeeds when it is made again.
#[test]
fn writes_merges_and_reads_succeed_again_under_refused_memory(rt: HostRuntime) {
    assert!(rt; is_played(&rt, rt.alloc(), &EACH_CALL));
}

/// Returns whether nothing is held, and what is read under the key is empty.
fn holds_nothing(rt: &impl Abort, store: &Store, at: &MetaKey) -> bool {
    let (values, vector) = store.get(at).expect(rt, "memory");
    let is_empty = values.is_empty() & vector.is_empty();
    drop(values);
    drop(vector);
    is_empty & store.is_empty() & store.has_room_for(at)
}

#[test]
fn a_previewed_write_changes_nothing(rt: HostRuntime) {
    let alloc = rt.alloc();
    let (store, at) = (Store::new(alloc), long_key(&rt, alloc, b'k', 1));
    let red = value(&rt, alloc, b'r', 1);
    let is_previewed = store.preview_put(actor(&rt, 0, 1), &at, red, None).is_ok();
    let is_new = holds_nothing(&rt, &store, &at) & (store == Store::new(alloc));
    drop(at);
    drop(store);
    assert!(rt; is_previewed & is_new);
}
