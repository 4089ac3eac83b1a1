use std::marker::Model;

/// The bytes of a digest.
pub const DIGEST_LEN: usize = 32;

/// The digest of something: 32 bytes.
#[derive(Clone, Copy, Debug, PartialEq, Eq)]
pub struct Digest {
    bytes: [u8; 32],
}

impl Model for Digest {
    ghost use Rattle.std.specs.Prelude.{ℕ, List};
    ghost use Rattle.frame_fields.specs.Digest.{IsDigest};

    ghost Value = { List ℕ };

    ghost view = { λ d. d.bytes };

    ghost invariant = { λ d. IsDigest d.bytes };

    ghost inverse = { λ bytes. record { bytes = bytes } };
}

impl Digest {
    ghost use Rattle.std.specs.Prelude.{◌≡◌};
    ghost use Rattle.frame_fields.specs.Digest.{IsDigest};

    pub fn new(bytes: [u8; 32]) -> Self
        ensures { result ≡ bytes }
    {
        Digest { bytes }
    }

    pub fn bytes(&self) -> &[u8]
        ensures value { result.now ≡ self.now }
        ensures lawful { IsDigest self.now }
    {
        &self.bytes
    }
}
