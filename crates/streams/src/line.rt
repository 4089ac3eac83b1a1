//! The lines of a reader, read in pieces within a limit.

ghost use Rattle.std.specs.Prelude.{◌≡◌, ◌<◌, [], length, IfOk, IfErr, OnOk, IsTrue, ◌↔◌};
ghost use Rattle.streams.specs.Line.{input_limit, IsOneLine, TakesLine, StopsReading, Fills, Moves};

use crate::fault::StreamFault;
use crate::source::Source;
use memchr::memchr;
use std::alloc::{AllocError, Global};
use std::marker::Model;

/// The most bytes of an input that a program reads.
pub const MAX_INPUT_LEN: usize = 67_108_864;

/// The most bytes of one read.
const PIECE_LEN: usize = 65_536;

/// The bytes of an input that were read and belong to no line so far.
#[derive(Drop)]
pub struct LineBuffer {
    piece: Vec<u8>,
    start: usize,
    end: usize,
    left: usize,
}

impl Model for LineBuffer {
    ghost use Rattle.std.specs.Prelude.{◌≤◌, ◌<◌, length, slice_range};
    ghost use Rattle.streams.specs.Line.{Pending};

    ghost Value = { Pending };

    ghost view = { λ b. record { bytes = slice_range b.piece.items b.start b.end; left = b.left } };

    ghost invariant = { λ b. (b.start ≤ b.end) × (b.end ≤ length b.piece.items)
        × (0 < length b.piece.items) };
}

impl LineBuffer {
    /// Makes the buffer of an input from which nothing was read. It takes memory for one read,
    /// 65,536 bytes.
    pub fn new(alloc: Global) -> Result<Self, AllocError>
        ensures { IfOk result (λ buffer. buffer ≡ record { bytes = []; left = input_limit }) }
    {
        let piece = vec![in alloc; 0u8; PIECE_LEN]?;
        Ok(LineBuffer {
            piece,
            start: 0,
            end: 0,
            left: MAX_INPUT_LEN,
        })
    }

    /// Returns whether a whole line is pending, so that the next one needs no read.
    pub fn holds_line(&self) -> bool
        ensures { IsTrue result ↔ (IsOneLine self.now.bytes → ⊥) }
    {
        memchr(b'\n', &self.piece[self.start..self.end]).is_some()
    }

    /// Reads a piece if nothing is pending. Returns whether something is pending afterwards; if
    /// not, the reader is at its end.
    fn fill<R: Source>(&mut self, reader: &mut R) -> Result<bool, StreamFault>
        ensures ok { IfOk result (λ more. Fills self.old self.new (R.at reader.old).remaining
            (R.at reader.new).remaining more) }
        ensures err { IfErr result
            (λ fault. StopsReading (R.at reader.new).failed ⊥ self.old (R.at reader.old).remaining
            (R.at reader.new).remaining fault) }
        ensures sound { OnOk result ((R.at reader.new).failed → (R.at reader.old).failed) }
    {
        if self.start < self.end {
            return Ok(true);
        }
        let n = match reader.read_some(self.piece.as_mut_slice()) {
            Ok(n) => n,
            Err(_) => return Err(StreamFault::Read),
        };
        if n > self.left {
            return Err(StreamFault::InputTooLong);
        }
        self.start = 0;
        self.end = n;
        self.left -= n;
        Ok(n > 0)
    }

    /// Moves what is pending to the end of the line, up to the first line feed, which is dropped.
    /// Returns whether there was one.
    fn take(&mut self, line: &mut Vec<u8>) -> Result<bool, AllocError>
        ensures { IfOk result (λ ended. Moves self.old self.new line.old.items
            line.new.items ended) }
    {
        let pending = &self.piece[self.start..self.end];
        match memchr(b'\n', pending) {
            Some(n) => {
                line.extend_from_slice(&pending[..n])?;
                self.start += n + 1;
                Ok(true)
            }
            None => {
                line.extend_from_slice(pending)?;
                self.start = self.end;
                Ok(false)
            }
        }
    }

    /// Puts the next line into `line`, without its line feed, and returns whether a line feed ended
    /// it. Otherwise the input is at its end, and `line` has what stands after the last line feed,
    /// which may be nothing. After a fault, 7 `Read`, 8 `InputTooLong` or 99 `Memory`, the buffer
    /// must not be used again. It takes memory for the line.
    pub fn next_line<R: Source>(
        &mut self,
        reader: &mut R,
        line: &mut Vec<u8>,
    ) -> Result<bool, StreamFault>
        ensures ok { IfOk result (λ ended. TakesLine self.old self.new (R.at reader.old).remaining
            (R.at reader.new).remaining line.new.items ended) }
        ensures err { IfErr result
            (λ fault. StopsReading (R.at reader.new).failed
            ((R.at reader.new).failed → (R.at reader.old).failed) self.old
            (R.at reader.old).remaining (R.at reader.new).remaining fault) }
        ensures sound { OnOk result ((R.at reader.new).failed → (R.at reader.old).failed) }
    {
        line.clear();
        while self.fill(reader)? {
            if self.take(line)? {
                return Ok(true);
            }
        }
        Ok(false)
    }
}
