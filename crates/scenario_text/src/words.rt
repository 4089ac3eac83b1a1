//! The words of a line, read one after the other.

ghost use Rattle.std.specs.Prelude.{◌≡◌, ◌↔◌, [], Some, IsTrue, slice_get};
ghost use Rattle.std.specs.Option.{option_copied, option_map};
ghost use Rattle.scenario_text.specs.Coded.{BeginsNoSpace, ReadsWords, SplitsWord, Takes, bytes_word, key_word, prefix_word};
ghost use Rattle.scenario_text.specs.Commands as forms;
ghost use Rattle.scenario_text.specs.Reading.{labelled, labelled_or_zero, number_or_none};
ghost use Rattle.scenario_text.specs.Word.{words_of};

use crate::bytes::BytesWord;
use crate::name::{KeyWord, PrefixWord, key_word, prefix_word};
use crate::number::number;
use crate::split::split_once;
use std::marker::Model;

/// The words of a line that are still to be read.
#[derive(Drop)]
pub struct Words<'a> {
    left: &'a [u8],
}

impl<'a> Model for Words<'a> {
    ghost use Rattle.std.specs.Prelude.{List};
    ghost use Rattle.scenario_text.specs.Word.{Word, words_of};

    ghost Value = { List Word };

    ghost view = { λ w. words_of w.left.now };
}

/// Returns the bytes without the spaces in front of them.
fn without_spaces(bytes: &[u8]) -> &[u8]
    ensures words { words_of result.now ≡ words_of bytes.now }
    ensures front { BeginsNoSpace result.now }
{
    let mut rest = bytes;
    while let [b' ', behind @ ..] = rest {
        rest = behind;
    }
    rest
}

/// Returns the first word of a line and what stands after it, if there is a word.
fn split_word(line: &[u8]) -> Option<(&[u8], &[u8])>
    ensures { SplitsWord line.now result }
{
    let bytes = without_spaces(line);
    if bytes.is_empty() {
        return None;
    }
    match split_once(bytes, b' ') {
        None => Some((bytes, &[])),
        halves => halves,
    }
}

impl<'a> Words<'a> {
    pub fn of(line: &'a [u8]) -> Self
        ensures { result ≡ words_of line.now }
    {
        Words { left: line }
    }

    /// Returns the next word without reading it.
    pub fn peek(&self) -> Option<&'a [u8]>
        ensures { option_copied result ≡ slice_get self.now 0 }
    {
        let (word, _) = split_word(self.left)?;
        Some(word)
    }

    pub fn next(&mut self) -> Option<&'a [u8]>
        ensures { Takes self.old result self.new }
    {
        let (word, rest) = split_word(self.left)?;
        self.left = rest;
        Some(word)
    }

    /// Returns whether no word is left.
    pub(crate) fn are_over(&self) -> bool
        ensures { IsTrue result ↔ (self.now ≡ []) }
    {
        self.peek().is_none()
    }

    /// Reads a number. This and the following functions return nothing if the next word isn't what
    /// they read, or if there is none; then nothing is said of the words that are left.
    pub fn number(&mut self) -> Option<u64>
        ensures { ReadsWords forms.a_number self.old result self.new }
    {
        number(self.next()?)
    }

    /// Reads a key, as `a/b/k`.
    pub fn key(&mut self) -> Option<KeyWord<'a>>
        ensures { ReadsWords forms.a_key self.old (option_map key_word result) self.new }
    {
        key_word(self.next()?)
    }

    /// Reads a key, unless no word is left.
    pub fn key_if_any(&mut self) -> Option<Option<KeyWord<'a>>>
        ensures { ReadsWords forms.key_if_any self.old
            (option_map (λ key. option_map key_word key) result) self.new }
    {
        if self.are_over() {
            return Some(None);
        }
        Some(Some(self.key()?))
    }

    /// Reads a full prefix, as `a/b`.
    pub fn prefix(&mut self) -> Option<PrefixWord<'a>>
        ensures { ReadsWords forms.a_prefix self.old (option_map prefix_word result) self.new }
    {
        prefix_word(self.next()?)
    }

    /// Reads a value, as `red-1` or `hex:ff`.
    pub fn value(&mut self) -> Option<BytesWord<'a>>
        ensures { ReadsWords forms.a_value self.old (option_map bytes_word result) self.new }
    {
        BytesWord::of_value(self.next()?)
    }

    /// Reads hexadecimal digits, at least two.
    pub fn junk(&mut self) -> Option<BytesWord<'a>>
        ensures { ReadsWords forms.junk self.old (option_map bytes_word result) self.new }
    {
        BytesWord::of_junk(self.next()?)
    }

    /// Reads a number from 1 to 16.
    pub fn node_count(&mut self) -> Option<u64>
        ensures { ReadsWords forms.node_count self.old result self.new }
    {
        let count = self.number()?;
        if (1..=16).contains(&count) {
            Some(count)
        } else {
            None
        }
    }

    /// Reads the next word, a resolver's name, and returns its place if that is below `resolvers`.
    pub fn resolver(&mut self, resolvers: usize) -> Option<usize>
        ensures { ReadsWords (forms.resolver resolvers) self.old result self.new }
    {
        let place = match self.next()? {
            b"lww" => 0,
            b"largest" => 1,
            _ => return None,
        };
        if place < resolvers { Some(place) } else { None }
    }

    /// Reads the number that the next word is. If it is no number, returns `None` and reads no
    /// word.
    pub fn number_or_none(&mut self) -> Option<u64>
        ensures { ReadsWords number_or_none self.old (Some result) self.new }
    {
        let found = number(self.peek()?)?;
        self.next()?;
        Some(found)
    }

    /// Reads the number after this label, if the next word is the label. If it isn't, returns
    /// `Some(None)` and reads no word.
    pub(crate) fn labelled(&mut self, label: &[u8]) -> Option<Option<u64>>
        ensures { ReadsWords (labelled label.now) self.old result self.new }
    {
        match self.peek() {
            Some(word) if word == label => {}
            _ => return Some(None),
        }
        self.next()?;
        Some(Some(self.number()?))
    }

    /// Reads as `labelled` does, and returns 0 if the label isn't there.
    pub(crate) fn labelled_or_zero(&mut self, label: &[u8]) -> Option<u64>
        ensures { ReadsWords (labelled_or_zero label.now) self.old result self.new }
    {
        Some(self.labelled(label)?.unwrap_or(0))
    }

    /// Reads `stamp S`, or nothing for stamp 0.
    pub fn stamp(&mut self) -> Option<u64>
        ensures { ReadsWords forms.stamp self.old result self.new }
    {
        self.labelled_or_zero(b"stamp")
    }

    /// Reads `read R`, or nothing.
    pub fn read(&mut self) -> Option<Option<u64>>
        ensures { ReadsWords forms.read self.old result self.new }
    {
        self.labelled(b"read")
    }

    /// Reads `word W`, or nothing for word 0.
    pub fn random(&mut self) -> Option<u64>
        ensures { ReadsWords forms.random self.old result self.new }
    {
        self.labelled_or_zero(b"word")
    }
}
