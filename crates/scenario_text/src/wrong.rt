//! Which word of a line isn't what its command wants.

ghost use Rattle.std.specs.Prelude.{◌≡◌, MatchBool, None, Some};
ghost use Rattle.scenario_text.specs.Hint.{behind_slot, slot_text, slots_of, wrong_in, wrong_words};

use crate::{Verb, Words};

/// What stands behind the verb of a command, at one place.
#[derive(Clone, Copy)]
pub enum Slot {
    /// How many nodes there are.
    Count,
    Number,
    /// A number, or nothing.
    MaybeNumber,
    Key,
    /// A key, or nothing at the end of the line.
    MaybeKey,
    Prefix,
    Value,
    Junk,
    Resolver,
    /// `stamp` and a number, or nothing.
    Stamp,
    /// `read` and a number, or nothing.
    ReadNumber,
    /// `word` and a number, or nothing.
    Random,
}

/// What is wrong with the words behind a verb.
#[derive(Clone, Copy)]
pub enum Wrong<'a> {
    Nothing,
    /// The slot can't be read from what stands there: the next word, if there is one.
    At(Slot, Option<&'a [u8]>),
    /// This word stands behind the last slot.
    TooMany(&'a [u8]),
}

/// Returns what stands behind a verb.
fn slots_of(verb: Verb) -> &'static [Slot]
    ensures { result.now ≡ slots_of verb }
{
    match verb {
        Verb::Nodes => &[Slot::Count],
        Verb::Put => &[
            Slot::Number,
            Slot::Key,
            Slot::Value,
            Slot::Stamp,
            Slot::ReadNumber,
        ],
        Verb::Del => &[Slot::Number, Slot::Key, Slot::Stamp, Slot::ReadNumber],
        Verb::Over => &[Slot::Number, Slot::Key, Slot::Value, Slot::Stamp],
        Verb::Read | Verb::Show => &[Slot::Number, Slot::Key],
        Verb::Resolve => &[Slot::Number, Slot::Key, Slot::Resolver],
        Verb::Deliver => &[Slot::Number, Slot::MaybeNumber, Slot::Random],
        Verb::Junk => &[Slot::Number, Slot::Junk],
        Verb::Tick => &[Slot::Number, Slot::Random],
        Verb::Join | Verb::Down => &[Slot::Number, Slot::Number, Slot::Random],
        Verb::Exchange | Verb::Hello | Verb::Restart | Verb::Changes => &[
            Slot::Number,
            Slot::Number,
        ],
        Verb::Leave | Verb::Root | Verb::Images | Verb::Views => &[Slot::Number],
        Verb::Keep => &[Slot::Number, Slot::MaybeKey],
        Verb::Watch => &[Slot::Number, Slot::Prefix, Slot::Number],
        Verb::List => &[Slot::Number, Slot::Prefix],
        Verb::Settle => &[],
    }
}

/// Returns what a slot may have, as text.
pub(crate) fn slot_text(slot: Slot) -> &'static str
    ensures { result.now ≡ slot_text slot }
{
    match slot {
        Slot::Count => "COUNT is 1 to 16",
        Slot::Number | Slot::MaybeNumber => "a number has 1 to 20 digits, and is below 2^64",
        Slot::Key | Slot::MaybeKey => "KEY is as a/b/k, of letters, digits, . _ and -",
        Slot::Prefix => "PREFIX is as a/b, of letters, digits, . _ and -",
        Slot::Value => "VALUE is as red-1, of letters, digits, . _ and -, or as hex:ff",
        Slot::Junk => "HEX is two hexadecimal digits for each byte, and one byte at least",
        Slot::Resolver => "a resolver is lww or largest",
        Slot::Stamp | Slot::ReadNumber | Slot::Random => "a number follows it",
    }
}

/// Reads a slot from the front of the words, and returns whether that was possible. If it wasn't,
/// nothing is said of the words that are left.
fn read_slot(slot: Slot, words: &mut Words<'_>) -> bool
    ensures { MatchBool result (behind_slot slot words.old ≡ Some words.new)
        (behind_slot slot words.old ≡ None) }
{
    match slot {
        Slot::Count => words.node_count().is_some(),
        Slot::Number => words.number().is_some(),
        Slot::MaybeNumber => {
            words.number_or_none();
            true
        }
        Slot::Key => words.key().is_some(),
        Slot::MaybeKey => words.key_if_any().is_some(),
        Slot::Prefix => words.prefix().is_some(),
        Slot::Value => words.value().is_some(),
        Slot::Junk => words.junk().is_some(),
        Slot::Resolver => words.resolver(2).is_some(),
        Slot::Stamp => words.stamp().is_some(),
        Slot::ReadNumber => words.read().is_some(),
        Slot::Random => words.random().is_some(),
    }
}

/// Returns what is wrong with the words behind a verb.
pub(crate) fn wrong_in<'a>(verb: Verb, words: &mut Words<'a>) -> Wrong<'a>
    ensures { wrong_words result ≡ wrong_in (slots_of verb) words.old }
{
    for slot in slots_of(verb) {
        let word = words.peek();
        if !read_slot(*slot, words) {
            return Wrong::At(*slot, word);
        }
    }
    match words.peek() {
        None => Wrong::Nothing,
        Some(word) => Wrong::TooMany(word),
    }
}
