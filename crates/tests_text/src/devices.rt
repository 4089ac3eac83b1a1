//! A reader of a text and a writer of one, which count, and fail as their fields say.

use std::io::{self, ErrorKind, Read, Write};

/// How a reader goes on after its text.
#[derive(Clone, Copy)]
pub enum End {
    /// It is at its end.
    Over,
    /// It fails each time.
    Fails(ErrorKind),
    /// It fails once, and is at its end then.
    FailsOnce(ErrorKind),
}

/// Gives what is left of a text, and then the whole text `times` times, at most `most` bytes at a
/// time.
#[derive(Clone, Copy)]
pub struct Feed {
    pub left: &'static [u8],
    pub text: &'static [u8],
    pub times: u32,
    pub most: usize,
    pub end: End,
}

impl Feed {
    /// Makes a reader of a text, which gives pieces of any length and is then at its end.
    pub fn new(text: &'static [u8]) -> Feed {
        Feed {
            left: text,
            text,
            times: 0,
            most: usize::MAX,
            end: End::Over,
        }
    }

    /// Returns how it fails after its text, if it does.
    fn fault(&mut self) -> Option<ErrorKind> {
        match self.end {
            End::Over => None,
            End::Fails(kind) => Some(kind),
            End::FailsOnce(kind) => {
                self.end = End::Over;
                Some(kind)
            }
        }
    }
}

impl Read for Feed {
    fn read(&mut self, piece: &mut [u8]) -> io::Result<usize> {
        if self.left.is_empty() && self.times > 0 {
            self.left = self.text;
            self.times -= 1;
        }
        let n = piece.len().min(self.most).min(self.left.len());
        if n == 0 {
            return match self.fault() {
                Some(kind) => Err(io::Error::from(kind)),
                None => Ok(0),
            };
        }
        piece[..n].copy_from_slice(&self.left[..n]);
        self.left = &self.left[n..];
        Ok(n)
    }
}

/// Gives `left` bytes, of which the last of each piece is a line feed. The others are left as they
/// are.
#[derive(Clone, Copy)]
pub struct Lines {
    pub left: usize,
}

impl Read for Lines {
    fn read(&mut self, piece: &mut [u8]) -> io::Result<usize> {
        let n = piece.len().min(self.left);
        if n == 0 {
            return Ok(0);
        }
        piece[n - 1] = b'\n';
        self.left -= n;
        Ok(n)
    }
}

/// Takes `room` bytes, at most `most` at a time, and then none, or fails with `fault`, at a flush
/// too. A reader of what it took sees only what was flushed.
#[derive(Clone, Copy)]
pub struct Device {
    /// The rest of the text, which it expects.
    pub wanted: &'static [u8],
    /// Whether only what was wanted came.
    pub is_right: bool,
    /// How many bytes were missing at the last flush.
    pub unseen: usize,
    pub flushes: u32,
    pub room: usize,
    pub most: usize,
    /// How a write fails for which there is no room. Then a flush fails too, for another reason.
    pub fault: Option<ErrorKind>,
}

impl Device {
    /// Makes a device that takes all, and expects this text.
    pub fn new(wanted: &'static [u8]) -> Device {
        Device {
            wanted,
            is_right: true,
            unseen: wanted.len(),
            flushes: 0,
            room: usize::MAX,
            most: usize::MAX,
            fault: None,
        }
    }
}

impl Write for Device {
    fn write(&mut self, bytes: &[u8]) -> io::Result<usize> {
        let n = bytes.len().min(self.most).min(self.room);
        if n == 0 && !bytes.is_empty() {
            return match self.fault {
                Some(kind) => Err(io::Error::from(kind)),
                None => Ok(0),
            };
        }
        match self.wanted.strip_prefix(&bytes[..n]) {
            Some(rest) => self.wanted = rest,
            None => self.is_right = false,
        }
        self.room -= n;
        Ok(n)
    }

    fn flush(&mut self) -> io::Result<()> {
        if self.fault.is_some() {
            return Err(io::Error::from(ErrorKind::StorageFull));
        }
        self.unseen = self.wanted.len();
        self.flushes = self.flushes.saturating_add(1);
        Ok(())
    }
}
