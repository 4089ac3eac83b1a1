//! Readers that say when a read may fail.

ghost use Rattle.std.specs.Prelude.{⊤, OnOk, OnErr};
ghost use Rattle.std.specs.Io.{ReadsAtMost};
ghost use Rattle.std.specs.Io.KnownBytes.{ReadConsumes};
ghost use Rattle.streams.specs.Moment.{SourceAt};

use std::io::{self, Read, Write};

/// A reader that says when a read of it may fail. A read of bytes in memory never fails, so a run
/// over them can't return 7 `Read`.
pub trait Source: Read {
    // The reader at a moment.
    ghost at: { Self → SourceAt };

    /// Reads once.
    fn read_some(&mut self, piece: &mut [u8]) -> io::Result<usize>
        ensures bound { ReadsAtMost result piece.new }
        ensures bytes { ReadConsumes (at self.old).remaining (at self.new).remaining result
            piece.new }
        ensures cause { OnErr result (at self.new).failed }
        ensures sound { OnOk result ((at self.new).failed → (at self.old).failed) };
}

impl Source for &[u8] {
    ghost at = { λ r. record { failed = ⊥; remaining = Self.remaining r } };

    fn read_some(&mut self, piece: &mut [u8]) -> io::Result<usize> {
        self.read(piece)
    }
}

/// A reader or a writer of which nothing is known, such as a file, a pipe or a terminal: any call
/// of it may fail.
#[derive(Drop)]
pub struct MayFail<T>(pub T);

impl<R: Read> Read for MayFail<R> {
    ghost remaining = { λ r. R.remaining r.0 };

    fn read(&mut self, piece: &mut [u8]) -> io::Result<usize> {
        self.0.read(piece)
    }
}

impl<R: Read> Source for MayFail<R> {
    ghost at = { λ r. record { failed = ⊤; remaining = R.remaining r.0 } };

    fn read_some(&mut self, piece: &mut [u8]) -> io::Result<usize> {
        self.0.read(piece)
    }
}
