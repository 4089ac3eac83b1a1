//! What images show, even if their values stand in a log that went on, or could not.

use crate::parts::{key, node, value};
use meta_store::{Source, Store};
use meta_types::Actor;
use restart_images::Images;
use std::alloc::Global;
use std::mem::replace;
use std::process::Abort;

/// A write of `body` by the node. It has read what is there if `has_read` is set, and otherwise
/// nothing; it is made to a new store if `anew` is set.
struct Write {
    anew: bool,
    node: u16,
    has_read: bool,
    body: &'static str,
}

/// Blind writes of two nodes; one that has read them all, after which a log goes on with a gap in
/// what is shown; then other values of events that have stood in a log.
static WRITES: [Write; 8] = [
    Write {
        anew: false,
        node: 0,
        has_read: false,
        body: "a",
    },
    Write {
        anew: false,
        node: 0,
        has_read: false,
        body: "b",
    },
    Write {
        anew: false,
        node: 1,
        has_read: false,
        body: "c",
    },
    Write {
        anew: false,
        node: 0,
        has_read: false,
        body: "d",
    },
    Write {
        anew: false,
        node: 0,
        has_read: true,
        body: "e",
    },
    Write {
        anew: false,
        node: 0,
        has_read: false,
        body: "f",
    },
    Write {
        anew: true,
        node: 0,
        has_read: false,
        body: "b",
    },
    Write {
        anew: false,
        node: 0,
        has_read: false,
        body: "a",
    },
];

/// Makes the write, once more if memory is refused.
fn make(rt: &impl Abort, alloc: Global, store: &mut Store, write: &Write) {
    if write.anew {
        drop(replace(store, Store::new(alloc)));
    }
    if !try_make(rt, alloc, store, write) {
        assert!(rt; try_make(rt, alloc, store, write));
    }
}

/// Makes the write, unless memory is refused.
fn try_make(rt: &impl Abort, alloc: Global, store: &mut Store, write: &Write) -> bool {
    let key = key(rt, alloc, b"a", b"b", b"k");
    let actor = Actor::new(node(rt, write.node), 1);
    let read = store.context(&key, Source { actor, step: 1 });
    let value = value(rt, alloc, 7, write.body.as_bytes());
    let written = match &read {
        Ok(read) if write.has_read => store.put(actor, key, value, Some(read)).is_ok(),
        Ok(_) => store.put(actor, key, value, None).is_ok(),
        Err(_) => false,
    };
    drop(read);
    written
}

/// Adds an image of what is in the store, once more if memory is refused.
fn add(rt: &impl Abort, alloc: Global, images: &mut Images, store: &Store) {
    // (for its type)
    let _ = store.len();
    let base = images.len();
    let key = key(rt, alloc, b"a", b"b", b"k");
    let object = store.object(&key);
    assert!(rt; object.is_some());
    if images.push(base, &key, object).is_err() {
        assert_eq!(rt; images.len(), base);
        assert!(rt; images.push(base, &key, object).is_ok());
    }
    drop(key);
}

/// Returns whether the image at the place shows what is in the store. It is read once more if
/// memory is refused.
fn shows(rt: &impl Abort, images: &Images, at: usize, store: &Store) -> bool {
    assert!(rt; at < images.len());
    let change = images.at(at).change().expect(rt, "a change");
    let shown = change.object().or(change.object()).ok();
    let is_shown = shown.as_ref() == store.object(change.key());
    drop(shown);
    is_shown
}

// Holds whichever single allocation is refused.
#[test]
fn images_show_what_was_added_under_refused_memory(rt: HostRuntime) {
    let alloc = rt.alloc();
    let mut images = Images::new(alloc);
    let mut store = Store::new(alloc);
    for each in &WRITES {
        make(&rt, alloc, &mut store, each);
        add(&rt, alloc, &mut images, &store);
    }
    let mut again = Store::new(alloc);
    for (at, each) in WRITES.iter().enumerate() {
        make(&rt, alloc, &mut again, each);
        assert!(rt; shows(&rt, &images, at, &again), "image {at}");
    }
    drop(again);
    drop(store);
    drop(images);
}
