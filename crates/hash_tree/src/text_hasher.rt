//! A hasher of texts that come in small pieces.

ghost use Rattle.std.specs.Prelude.{◌≡◌, [], List, ℕ};
ghost use Rattle.sha2.specs.Sha256.{sha256};
ghost use Rattle.hash_tree.specs.Hashing.{Adds, HasTaken};

use arrayvec::ArrayVec;
use frame_fields::Digest;
use sha2::{Digest as _, Sha256};

/// A hasher that gathers the pieces of a text, since SHA-256 takes one large piece in less time
/// than many small ones. It takes no memory.
#[derive(Drop)]
pub(crate) struct TextHasher {
    hasher: Sha256,
    gathered: ArrayVec<u8, 1024>,
}

impl TextHasher {
    #[inline]
    pub(crate) fn new() -> Self
        ensures { HasTaken result [] }
    {
        TextHasher {
            hasher: Sha256::new(),
            gathered: ArrayVec::new(),
        }
    }

    /// Adds a piece at the end of the text.
    #[inline]
    pub(crate) fn add(&mut self, piece: &[u8])
        ensures { Adds self.old self.new piece.now }
    {
        match self.gathered.try_extend_from_slice(piece) {
            Ok(()) => {}
            Err(_full) => self.hand_on(piece),
        }
    }

    /// Hashes what is gathered, and then a piece for which there is no room.
    fn hand_on(&mut self, piece: &[u8])
        ensures { Adds self.old self.new piece.now }
    {
        self.hasher.update(self.gathered.as_slice());
        self.hasher.update(piece);
        self.gathered.clear();
    }

    /// Returns the digest of the text.
    #[inline]
    pub(crate) fn finish(mut self) -> Digest
        ensures { (text : List ℕ) → HasTaken self text → result ≡ sha256 text }
    {
        self.hasher.update(self.gathered.as_slice());
        Digest::new(self.hasher.finalize())
    }
}
