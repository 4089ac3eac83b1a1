//! What the images of a node have, read by their numbers, also of one that a node restarted from.

use crate::events::{apply, colour, new_world, put};
use dvvset::Entries;
use meta_types::MetaKey;
use restart_images::image::object_in;
use std::alloc::Global;
use std::process::Abort;
use world_core::{Event, World};

/// How many values each image of node 0 has: the empty image; the images that two blind writes
/// left; and the one that a blind write left after a restart from the first of these.
static VALUES: [usize; 4] = [0, 1, 2, 2];

/// Returns an event of node 0.
fn happening(rt: &impl Abort, alloc: Global, place: usize) -> Event {
    match place {
        2 => Event::Restart { node: 0, image: 1 },
        _ => put(rt, alloc, 0, b"x", None),
    }
}

/// Makes it happen, once more if memory is refused.
fn happens(rt: &impl Abort, alloc: Global, world: &mut World, place: usize) -> bool {
    match apply(world, happening(rt, alloc, place)) {
        99 => apply(world, happening(rt, alloc, place)) == 0,
        code => code == 0,
    }
}

/// Returns what the image of node 0 has under the key, read once more if memory is refused.
fn read(rt: &impl Abort, world: &World, number: usize, key: &MetaKey) -> Option<Entries> {
    let images = world.images(0).expect(rt, "node 0");
    assert!(rt; number <= images.len());
    match object_in(images, number, key) {
        Ok(object) => object,
        Err(_) => object_in(images, number, key).expect(rt, "memory once more"),
    }
}

/// Returns how many values there are.
fn count(object: &Option<Entries>) -> usize {
    let mut count = 0_usize;
    if let Some(object) = object {
        for entry in object.entries() {
            count = count.saturating_add(entry.values().len());
        }
    }
    count
}

// Holds whichever single allocation is refused.
#[test]
fn images_are_read_by_number_under_refused_memory(rt: HostRuntime) {
    let mut world = new_world(&rt, rt.alloc());
    for place in 0..4 {
        assert!(rt;
            happens(&rt, rt.alloc(), &mut world, place),
            "event {place}"
        );
    }
    let key = colour(&rt, rt.alloc());
    for (number, values) in VALUES.iter().enumerate() {
        let object = read(&rt, &world, number, &key);
        assert_eq!(rt; count(&object), *values);
        drop(object);
    }
    drop(world);
}
