//! What is wrong with a line.

ghost use Rattle.std.specs.Prelude.{◌≡◌, ◌↔◌, IsTrue};
ghost use Rattle.scenario_text.specs.Hint.{Found, IsHint, IsHintOfWords, ends_returned, has_tab, starts_marked};
ghost use Rattle.scenario_text.specs.Word.{words_of};

use crate::near::near_verb;
use crate::wrong::{Wrong, wrong_in};
use crate::{Verb, Words, verb_of};

/// What is wrong with a line that breaks a rule.
#[derive(Clone, Copy)]
pub enum Hint<'a> {
    /// It begins with bytes that some editors put at the front of a text.
    ByteOrderMark,
    /// Its last byte is a carriage return, which is no part of a command.
    CarriageReturn,
    /// It has a tab, which is a part of a word.
    Tab,
    /// No command stands before it, and it doesn't say how many nodes there are.
    NodesFirst,
    /// It begins with this verb, but doesn't have its form; this is wrong with the words behind the
    /// verb. If it is a second `nodes`, or names a resolver that isn't at hand, nothing is wrong
    /// with the words.
    Form(Verb, Wrong<'a>),
    /// It begins with no verb. This verb is near.
    Unknown(Option<Verb>),
}

/// Returns whether bytes begin with a byte order mark.
fn starts_marked(line: &[u8]) -> bool
    ensures { result ≡ starts_marked line.now }
{
    matches!(line, [239, 187, 191, ..])
}

/// Returns whether the last byte is a carriage return.
fn ends_returned(line: &[u8]) -> bool
    ensures { result ≡ ends_returned line.now }
{
    match line.last() {
        Some(byte) => *byte == b'\r',
        None => false,
    }
}

fn has_tab(line: &[u8]) -> bool
    ensures { result ≡ has_tab line.now }
{
    line.contains(&b'\t')
}

/// Returns what is wrong with a line by its words.
fn hint_of_words(line: &[u8]) -> Hint<'_>
    ensures { IsHintOfWords (words_of line.now) result }
{
    let mut words = Words::of(line);
    let Some(word) = words.next() else {
        return Hint::Unknown(None);
    };
    match verb_of(word) {
        Some(verb) => Hint::Form(verb, wrong_in(verb, &mut words)),
        None => Hint::Unknown(near_verb(word)),
    }
}

/// Returns what is wrong with a line that breaks a rule; `begun` says whether a command stands
/// before it.
pub(crate) fn hint_of(begun: bool, line: &[u8]) -> Hint<'_>
    ensures { IsHint (record { begun = begun; line = line.now }) result }
{
    if starts_marked(line) {
        Hint::ByteOrderMark
    } else if ends_returned(line) {
        Hint::CarriageReturn
    } else if has_tab(line) {
        Hint::Tab
    } else if begun {
        hint_of_words(line)
    } else {
        Hint::NodesFirst
    }
}
