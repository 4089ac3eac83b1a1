//! Frames that are read and written, as `decode` and `encode` do.

ghost use Rattle.std.specs.Prelude.{◌<◌, length, IfOk};

use crate::node::paces::Works;
use crate::samples::refused;
use meta_frame::{Frame, HEADER_LEN, decode, encode, read_header};
use meta_types::both;
use std::alloc::Global;
use std::io;
use std::marker::Model;

/// What is measured: that each frame is read, or that each is written.
#[derive(Clone, Copy)]
pub(crate) enum Coding {
    Decode,
    Encode,
}

impl Coding {
    /// Returns the baseline's name for the work.
    pub(crate) fn name(self) -> &'static str {
        match self {
            Coding::Decode => "decode",
            Coding::Encode => "encode",
        }
    }
}

/// A frame that has a spelling.
#[derive(Drop)]
struct Sample {
    frame: Frame,
}

impl Model for Sample {
    ghost use Rattle.std.specs.Prelude.{ℕ};
    ghost use Rattle.meta_frame.specs.Frame.{IsLawful};

    ghost Value = { ℕ };

    ghost view = { λ _. 0 };

    ghost invariant = { λ s. IsLawful s.frame };
}

impl Sample {
    /// Reads the frame that the bytes spell.
    fn read(alloc: Global, bytes: &[u8]) -> io::Result<Self> {
        match decode(alloc, bytes) {
            Ok(frame) => Ok(Sample { frame }),
            Err(fault) => Err(refused(fault)),
        }
    }

    /// Writes the frame.
    fn write(&self, alloc: Global) -> io::Result<()> {
        drop(encode(alloc, &self.frame).map_err(refused)?);
        Ok(())
    }
}

/// Frames, and what spells them.
#[derive(Drop)]
pub(crate) struct Codec {
    alloc: Global,
    spellings: Vec<Vec<u8>>,
    samples: Vec<Sample>,
}

/// Splits off the first frame, as long as the header at the front says, from the bytes after it.
fn split(bytes: &[u8]) -> io::Result<(&[u8], &[u8])>
    ensures { IfOk result (λ parts. length parts.1.now < length bytes.now) }
{
    let header = read_header(bytes).map_err(refused)?;
    let len = HEADER_LEN + header.body_len as usize;
    if bytes.len() < len {
        return Err(refused(()));
    }
    Ok(bytes.split_at(len))
}

fn add_all(codec: &mut Codec, bytes: &[u8]) -> io::Result<()> {
    let mut rest = bytes;
    while !rest.is_empty() {
        let (front, after) = split(rest)?;
        codec.add(front)?;
        rest = after;
    }
    Ok(())
}

impl Codec {
    /// Reads the bytes, which are frames one after another.
    pub(crate) fn of(alloc: Global, bytes: &[u8]) -> io::Result<Self> {
        let mut codec = Codec {
            alloc,
            spellings: Vec::new(alloc),
            samples: Vec::new(alloc),
        };
        let done = add_all(&mut codec, bytes);
        let (codec, ()) = both(Ok(codec), done)?;
        Ok(codec)
    }

    fn add(&mut self, bytes: &[u8]) -> io::Result<()> {
        self.samples.push(Sample::read(self.alloc, bytes)?)?;
        self.spellings.push(bytes.to_vec(self.alloc)?)?;
        Ok(())
    }

    /// Returns how many frames there are.
    pub(crate) fn len(&self) -> usize {
        self.samples.len()
    }

    fn decode_all(&self) -> io::Result<()> {
        for bytes in self.spellings.iter() {
            drop(Sample::read(self.alloc, bytes.as_slice())?);
        }
        Ok(())
    }

    fn encode_all(&self) -> io::Result<()> {
        for sample in self.samples.iter() {
            sample.write(self.alloc)?;
        }
        Ok(())
    }
}

impl Works<Coding> for Codec {
    fn work(&mut self, work: Coding) -> io::Result<()> {
        match work {
            Coding::Decode => self.decode_all(),
            Coding::Encode => self.encode_all(),
        }
    }
}
