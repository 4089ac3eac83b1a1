//! Well-formed histories.

ghost use Rattle.std.specs.Prelude.{◌≡◌, ◌↔◌, IsTrue, slice_get};
ghost use Rattle.past_model.specs.Past.{past};
ghost use Rattle.past_model.specs.History.{Fits, IsHistory};
ghost use Rattle.past_model.specs.Moment.{is_look_under, is_sending};

use crate::happening::Happening;
use meta_types::{MetaKey, NodeId};

/// The most restarts of a node: each of its lives has a number of its own.
pub const MOST_RESTARTS: u64 = 4_294_967_294;

/// Returns whether the list is a well-formed history: a `Wrote` names no `Looked`, or an earlier
/// one of the same key; a `Got` an earlier `Sent`; a `Restarted` an image that its node has made
/// before, or image 0, and its node has a number left for its next life.
pub fn fits(history: &[Happening]) -> bool
    ensures { IsTrue result ↔ IsHistory history.now }
{
    for (place, happening) in history.iter().enumerate() {
        if !fits_after(&history[..place], happening) {
            return false;
        }
    }
    true
}

fn fits_after(before: &[Happening], happening: &Happening) -> bool
    ensures { IsTrue result ↔ Fits before.now happening.now }
{
    match happening {
        Happening::Wrote { key, seen, .. } => match seen {
            None => true,
            Some(place) => is_look_under(before, *place, key),
        },
        Happening::Looked { .. } => true,
        Happening::Sent { .. } => true,
        Happening::Got { sent, .. } => is_sending(before, *sent),
        Happening::Kept { .. } => true,
        Happening::Restarted { node, image } => {
            *image <= images(before, *node) && restarts(before, *node) < MOST_RESTARTS
        }
    }
}

fn is_look_under(before: &[Happening], place: usize, key: &MetaKey) -> bool
    ensures { result ≡ is_look_under key.now (slice_get before.now place) }
{
    match before.get(place) {
        None => false,
        Some(happening) => happening.is_look_under(key),
    }
}

fn is_sending(before: &[Happening], place: usize) -> bool
    ensures { result ≡ is_sending (slice_get before.now place) }
{
    match before.get(place) {
        None => false,
        Some(happening) => happening.is_sending(),
    }
}

/// Returns how many images the node has made.
fn images(before: &[Happening], node: NodeId) -> usize
    ensures { result ≡ (past before.now).last node }
{
    let mut images = 0;
    for happening in before {
        if happening.makes_image(node) {
            images += 1;
        }
    }
    images
}

/// Returns how often the node has restarted.
pub(crate) fn restarts(before: &[Happening], node: NodeId) -> u64
    ensures { result ≡ (past before.now).restarts node }
{
    let mut restarts = 0;
    for happening in before {
        if happening.restarts(node) {
            restarts += 1;
        }
    }
    restarts
}
