//! Bytes as they stand in a line: plain ones as they are, others as hexadecimal digits.

ghost use Rattle.std.specs.Prelude.{◌≡◌, ◌≤◌, ◌↔◌, length, IfOk, IsSome, IsTrue};
ghost use Rattle.std.specs.Option.{option_map};
ghost use Rattle.scenario_text.specs.Word.{bytes_of_digits, junk_of, value_of};

use meta_types::ByteString;
use meta_types::value::MAX_BODY_LEN;
use printing::are_plain;
use std::alloc::{AllocError, Global};

/// The bytes of a word: its own, or those that its digits stand for.
#[derive(Clone, Copy)]
pub struct BytesWord<'a> {
    digits: bool,
    text: &'a [u8],
    ghost stands: { IsTrue digits → IsSome (bytes_of_digits text.now) },
}

/// Returns whether a text is digits that stand for bytes: an even number of them.
fn are_digits(text: &[u8]) -> bool
    ensures { IsTrue result ↔ IsSome (bytes_of_digits text.now) }
{
    text.len() % 2 == 0 && text.iter().all(|byte| byte.is_ascii_hexdigit())
}

impl<'a> BytesWord<'a> {
    ghost use Rattle.scenario_text.specs.Coded.{bytes_word};

    /// Reads the bytes of a value: plain ones, or `hex:` and digits.
    pub(crate) fn of_value(word: &'a [u8]) -> Option<Self>
        ensures { option_map bytes_word result ≡ value_of word.now }
    {
        if are_plain(word) {
            return Some(BytesWord {
                digits: false,
                text: word,
            });
        }
        let text = word.strip_prefix(b"hex:")?;
        if are_digits(text) {
            Some(BytesWord { digits: true, text })
        } else {
            None
        }
    }

    /// Reads the bytes of junk: at least two digits.
    pub(crate) fn of_junk(word: &'a [u8]) -> Option<Self>
        ensures { option_map bytes_word result ≡ junk_of word.now }
    {
        if word.is_empty() || !are_digits(word) {
            return None;
        }
        Some(BytesWord {
            digits: true,
            text: word,
        })
    }

    pub fn len(&self) -> usize
        ensures { result ≡ length (bytes_word self.now) }
    {
        if self.digits {
            self.text.len() / 2
        } else {
            self.text.len()
        }
    }

    /// Returns whether the bytes are few enough for a value.
    pub(crate) fn is_value(&self) -> bool
        ensures { IsTrue result ↔ (length (bytes_word self.now) ≤ 1024) }
    {
        self.len() <= MAX_BODY_LEN
    }

    /// Returns the bytes. Fails only when memory runs out.
    pub fn to_bytes(&self, alloc: Global) -> Result<ByteString, AllocError>
        ensures { IfOk result (λ bytes. bytes ≡ bytes_word self.now) }
    {
        if !self.digits {
            return ByteString::from_slice(alloc, self.text);
        }
        match hex::decode(alloc, self.text) {
            Ok(bytes) => Ok(ByteString::new(bytes)),
            Err(_) => Err(AllocError),
        }
    }
}
