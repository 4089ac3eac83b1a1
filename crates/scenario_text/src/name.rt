//! Names as they stand in a line: parts of letters, digits, `.`, `_` and `-`, joined by `/`. A part
//! may be too long for a name; that is refused when the command is run.

ghost use Rattle.std.specs.Prelude.{◌≡◌, IfOk, IsTrue, ◌↔◌};
ghost use Rattle.std.specs.Option.{option_map};
ghost use Rattle.meta_types.specs.Name.{IsFullPrefix, IsKey, IsName};
ghost use Rattle.scenario_text.specs.Coded.{key_word, prefix_word};
ghost use Rattle.scenario_text.specs.Word.{key_of, full_prefix_of};

use crate::split::split_once;
use meta_types::key::MAX_KEY_LEN;
use meta_types::prefix::MAX_PREFIX_LEN;
use meta_types::{ByteString, FullPrefix, MetaKey};
use printing::are_plain;
use std::alloc::{AllocError, Global};

/// A full prefix, as `a/b`.
#[derive(Clone, Copy)]
pub struct PrefixWord<'a> {
    pub prefix: &'a [u8],
    pub sub: &'a [u8],
}

/// A key, as `a/b/k`.
#[derive(Clone, Copy)]
pub struct KeyWord<'a> {
    pub prefix: PrefixWord<'a>,
    pub key: &'a [u8],
}

/// Returns whether bytes can be a part of a name: there is at least one, and no more than `most`.
fn is_part(bytes: &[u8], most: usize) -> bool
    ensures { IsTrue result ↔ IsName most bytes.now }
{
    !bytes.is_empty() && bytes.len() <= most
}

/// Returns the full prefix that a word is, if it is one.
pub(crate) fn prefix_word(word: &[u8]) -> Option<PrefixWord<'_>>
    ensures { option_map prefix_word result ≡ full_prefix_of word.now }
{
    let (prefix, sub) = split_once(word, b'/')?;
    if are_plain(prefix) && are_plain(sub) {
        Some(PrefixWord { prefix, sub })
    } else {
        None
    }
}

/// Returns the key that a word is, if it is one.
pub(crate) fn key_word(word: &[u8]) -> Option<KeyWord<'_>>
    ensures { option_map key_word result ≡ key_of word.now }
{
    let (prefix, rest) = split_once(word, b'/')?;
    let (sub, key) = split_once(rest, b'/')?;
    if are_plain(prefix) && are_plain(sub) && are_plain(key) {
        let prefix = PrefixWord { prefix, sub };
        Some(KeyWord { prefix, key })
    } else {
        None
    }
}

impl<'a> PrefixWord<'a> {
    /// Returns whether no part is too long. None is empty.
    pub(crate) fn is_name(&self) -> bool
        ensures { IsTrue result ↔ IsFullPrefix (prefix_word self.now) }
    {
        is_part(self.prefix, MAX_PREFIX_LEN) && is_part(self.sub, MAX_PREFIX_LEN)
    }

    /// Makes the full prefix. Fails only when memory runs out.
    pub fn to_prefix(&self, alloc: Global) -> Result<FullPrefix, AllocError>
        requires { IsFullPrefix (prefix_word self.now) }
        ensures { IfOk result (λ prefix. prefix ≡ prefix_word self.now) }
    {
        let prefix = ByteString::from_slice(alloc, self.prefix)?;
        let sub = ByteString::from_slice(alloc, self.sub)?;
        Ok(FullPrefix::of(prefix, sub))
    }
}

impl<'a> KeyWord<'a> {
    /// Returns whether no part is too long. None is empty.
    pub(crate) fn is_name(&self) -> bool
        ensures { IsTrue result ↔ IsKey (key_word self.now) }
    {
        self.prefix.is_name() && is_part(self.key, MAX_KEY_LEN)
    }

    /// Makes the key. Fails only when memory runs out.
    pub fn to_key(&self, alloc: Global) -> Result<MetaKey, AllocError>
        requires { IsKey (key_word self.now) }
        ensures { IfOk result (λ key. key ≡ key_word self.now) }
    {
        let prefix = self.prefix.to_prefix(alloc)?;
        let key = ByteString::from_slice(alloc, self.key)?;
        Ok(MetaKey::under(prefix, key))
    }
}
