//! A run of `draw`, and what stands in what it writes.

use plumctl_core::NoProgress;
use plumctl_draw::{Excerpt, draw_scenario};
use std::alloc::Global;

/// What a run of `draw` writes and prints at standard error, and its exit status.
#[derive(Drop)]
pub(crate) struct Drawn {
    pub status: u8,
    pub written: Vec<u8>,
    pub told: Vec<u8>,
}

/// Draws the commands of a text from line `from` on, with all their frames.
pub(crate) fn draw(alloc: Global, text: &[u8], from: u64) -> Drawn {
    let part = Excerpt {
        from,
        to: u64::MAX,
        fold: false,
    };
    draw_part(alloc, text, part)
}

/// Draws a part of a text.
pub(crate) fn draw_part(alloc: Global, text: &[u8], part: Excerpt) -> Drawn {
    let (mut written, mut told) = (Vec::new(alloc), Vec::new(alloc));
    let mut reader = text;
    let status = draw_scenario(
        alloc,
        &mut reader,
        &mut written,
        &mut told,
        part,
        &NoProgress,
    );
    Drawn {
        status,
        written,
        told,
    }
}

/// Returns how many times a text stands in another one.
pub(crate) fn count(text: &[u8], sought: &[u8]) -> usize {
    let mut found = 0usize;
    for at in 0..text.len() {
        if text.get(at..).is_some_and(|rest| rest.starts_with(sought)) {
            found = found.saturating_add(1);
        }
    }
    found
}
