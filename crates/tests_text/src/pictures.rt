//! What stands in pictures, by what happens in the scenarios.

use crate::drawn::{Drawn, count, draw, draw_part};
use plumctl_draw::Excerpt;
use std::alloc::{AllocError, Global};

/// A scenario, and how much of each there is in its picture.
struct Story {
    text: &'static [u8],
    /// Frames, each drawn once: those that were delivered, and those that never were.
    frames: usize,
    /// Arrows of frames that were stale or refused.
    dashed: usize,
    /// Times at which what a node shows changed, and restarts.
    boxes: usize,
    /// Joins, leaves and lost neighbours.
    diamonds: usize,
    /// Lanes that break at a restart.
    breaks: usize,
}

static STORIES: [Story; 4] = [
    // Two links of a triangle carry each write; over the third both ends send it, and both sends
    // are stale. The second write is lost to node 2, which asks for it; what node 2 sends on then
    // is never delivered.
    Story {
        text: b"nodes 3\njoin 1 0\njoin 2 0\nsettle\nput 0 a/b/k red\nsettle\nput 0 a/b/l round\n\
deliver 12\ntick 1\ndeliver 14\ntick 2\ntick 2\ndeliver 15\ndeliver 16\n",
        frames: 17,
        dashed: 2,
        boxes: 6,
        diamonds: 2,
        breaks: 0,
    },
    Story {
        text: b"nodes 1\nput 0 a/b/k x\nrestart 0 0\nput 0 a/b/k y\n",
        frames: 0,
        dashed: 0,
        boxes: 3,
        diamonds: 0,
        breaks: 1,
    },
    // a frame that is delivered twice has two arrows
    Story {
        text: b"nodes 2\njoin 1 0\ndeliver 1\ndeliver 1\nleave 1\ndown 0 1\n",
        frames: 3,
        dashed: 0,
        boxes: 0,
        diamonds: 3,
        breaks: 0,
    },
    // no such frame
    Story {
        text: b"nodes 2\ndeliver 1\nshow 0 a/b/k\n",
        frames: 0,
        dashed: 0,
        boxes: 0,
        diamonds: 0,
        breaks: 0,
    },
];

/// Returns whether the picture of a story has what it should.
fn is_drawn(alloc: Global, story: &Story) -> bool {
    let drawn = draw(alloc, story.text, 0);
    let picture = drawn.written.as_slice();
    let is = drawn.status == 0
        && count(picture, b"<title>frame ") == story.frames
        && count(picture, b"arrow dashed") == story.dashed
        && count(picture, b"class=\"box\"") == story.boxes
        && count(picture, b"l5 5l-5 5l-5-5Z") == story.diamonds
        && count(picture, b"class=\"end\"") == story.breaks;
    drop(drawn);
    is
}

/// Returns whether markup in a value stays text: the picture ends once.
fn ends_once(alloc: Global) -> bool {
    let drawn = draw(alloc, b"nodes 1\nput 0 a/b/k hex:3c2f7376673e\n", 0);
    let picture = drawn.written.as_slice();
    let once = count(picture, b"</svg>") == 1 && count(picture, b"hex:3c2f7376673e") == 2;
    drop(drawn);
    once
}

/// Two writes of three nodes: the first goes over each link of a triangle, and over that of nodes 1
/// and 2 both ways. The JOINs and the frames of each write end at a band.
const TWO_SETTLES: &[u8] = b"nodes 3\njoin 1 0\njoin 2 0\nsettle\nput 0 a/b/k red\nsettle\n";

/// Draws a text with each `settle` as a band.
fn fold(alloc: Global, text: &[u8]) -> Drawn {
    let part = Excerpt {
        fold: true,
        ..Excerpt::all()
    };
    draw_part(alloc, text, part)
}

/// Returns whether each `settle` is one band, with a line for each frame that was sent before, and
/// a box for the two nodes that show the write alike.
fn is_folded(alloc: Global) -> bool {
    let drawn = fold(alloc, TWO_SETTLES);
    let picture = drawn.written.as_slice();
    let is = drawn.status == 0
        && count(picture, b"class=\"band\"") == 2
        && count(picture, b">delivered 6: GOSSIP 4, PRUNE 2<") == 1
        && count(picture, b"<title>frame ") == 4
        && count(picture, b"class=\"arrow") == 5
        && count(picture, b"class=\"box\"") == 2;
    drop(drawn);
    is
}

/// Returns whether a literal colour stands before each colour that is a variable.
fn has_literals(alloc: Global) -> bool {
    let drawn = draw(alloc, b"nodes 1\n", 0);
    let picture = drawn.written.as_slice();
    let literals = count(picture, b"fill:#").saturating_add(count(picture, b"stroke:#"));
    let is = literals > 0 && literals == count(picture, b":var(--");
    drop(drawn);
    is
}

/// Returns how many times the name of node 0 stands in a picture of so many rows of one line.
fn names(alloc: Global, rows: usize) -> Result<usize, AllocError> {
    let mut text = b"nodes 2\n".to_vec(alloc)?;
    for _row in 1..rows {
        text.extend_from_slice(b"images 1\n")?;
    }
    let drawn = draw(alloc, text.as_slice(), 0);
    let found = count(drawn.written.as_slice(), b">node 0<");
    drop(drawn);
    drop(text);
    Ok(found)
}

/// Returns how many stories aren't drawn as they should be.
fn wrong(alloc: Global) -> usize {
    let mut wrong = 0usize;
    for story in STORIES.iter() {
        if !is_drawn(alloc, story) {
            wrong = wrong.saturating_add(1);
        }
    }
    wrong
}

#[test]
fn a_picture_has_what_happened(rt: HostRuntime) {
    assert_eq!(rt; wrong(rt.alloc()), 0);
}

#[test]
fn a_folded_settle_is_a_band(rt: HostRuntime) {
    assert!(rt; is_folded(rt.alloc()));
}

#[test]
fn each_colour_has_a_literal(rt: HostRuntime) {
    assert!(rt; has_literals(rt.alloc()));
}

#[test]
fn the_names_of_lanes_stand_again(rt: HostRuntime) {
    assert!(rt; names(rt.alloc(), 10) == Ok(1));
    // 100 rows of 27 pixels
    assert!(rt; names(rt.alloc(), 100) == Ok(5));
}

#[test]
fn a_value_ends_no_picture(rt: HostRuntime) {
    assert!(rt; ends_once(rt.alloc()));
}
