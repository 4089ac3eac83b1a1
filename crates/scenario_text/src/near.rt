//! Words that are near each other.

ghost use Rattle.std.specs.Prelude.{◌≡◌};
ghost use Rattle.scenario_text.specs.Hint.{all_verbs, is_near, near_of, swapped};

use crate::{VERBS, Verb, word_of};

/// Returns whether the first two bytes of one are those of the other in the opposite order, and all
/// else is equal.
fn swapped(word: &[u8], other: &[u8]) -> bool
    ensures { result ≡ swapped word.now other.now }
{
    match (word, other) {
        ([a, b, word @ ..], [c, d, other @ ..]) => (a == d) & ((b == c) & (word == other)),
        _ => false,
    }
}

/// Returns whether words are equal or nearly so: one byte is different, missing or too many, or two
/// neighbours are swapped.
fn is_near(word: &[u8], other: &[u8]) -> bool
    ensures { result ≡ is_near word.now other.now }
{
    let (mut left, mut right) = (word, other);
    while let (Some((a, left_rest)), Some((b, right_rest))) = (
        left.split_first(),
        right.split_first(),
    ) {
        if a != b {
            return (left_rest == right_rest)
                | ((left_rest == right) | ((left == right_rest) | swapped(left, right)));
        }
        left = left_rest;
        right = right_rest;
    }
    (left.len() <= 1) & (right.len() <= 1)
}

/// Returns the first verb that is near a word, in the order of the table.
pub(crate) fn near_verb(word: &[u8]) -> Option<Verb>
    ensures { result ≡ near_of word.now all_verbs }
{
    for verb in VERBS {
        if is_near(word, word_of(verb)) {
            return Some(verb);
        }
    }
    None
}
