//! How many frames of each kind a folded `settle` delivered.

use printing::print_number;
use std::alloc::AllocError;

/// The most bytes of a line in a band, but for a comma.
const MOST_OF_LINE: usize = 48;

/// A kind of message, and how many frames of it arrived.
#[derive(Clone, Copy)]
pub(crate) struct KindCount {
    name: &'static str,
    count: u64,
}

/// The place of a kind among those that were counted.
fn place_of(counts: &[KindCount], name: &str) -> Option<usize> {
    for (at, kind) in counts.iter().enumerate() {
        if kind.name.as_bytes() == name.as_bytes() {
            return Some(at);
        }
    }
    None
}

/// Counts one frame more of a kind.
pub(crate) fn count_kind(
    counts: &mut Vec<KindCount>,
    name: &'static str,
) -> Result<(), AllocError> {
    let Some(at) = place_of(counts.as_slice(), name) else {
        counts.push(KindCount { name, count: 1 })?;
        return Ok(());
    };
    if let Some(kind) = counts.get_mut(at) {
        kind.count = kind.count.saturating_add(1);
    }
    Ok(())
}

/// Adds the number of frames of each kind, in the order in which the kinds came, and ends the line.
/// The line that begins at `start` is broken if it would have more than 48 bytes.
pub(crate) fn add_counts(
    label: &mut Vec<u8>,
    start: usize,
    counts: &[KindCount],
) -> Result<(), AllocError> {
    let mut start = start;
    let mut sign = b':';
    for kind in counts {
        label.push(sign)?;
        sign = b',';
        let space = label.len();
        add_count(label, kind)?;
        if label.len().saturating_sub(start) > MOST_OF_LINE {
            if let Some(byte) = label.get_mut(space) {
                *byte = b'\n';
            }
            start = space.saturating_add(1);
        }
    }
    label.push(b'\n')?;
    Ok(())
}

/// Adds a space, a kind, and how many frames of it there were.
fn add_count(label: &mut Vec<u8>, kind: &KindCount) -> Result<(), AllocError> {
    label.push(b' ')?;
    label.extend_from_slice(kind.name.as_bytes())?;
    label.push(b' ')?;
    print_number(label, kind.count)
}
