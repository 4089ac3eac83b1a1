//! The command `frame`.

ghost use Rattle.std.specs.Prelude.{◌≡◌, IfOk, IfErr, OnOk, if◌then◌else◌, option_copied};
ghost use Rattle.plumctl_core.specs.declared.frame.Ended.TheVariants.{AllPrinted, SomeRefused};
ghost use Rattle.streams.specs.Fault.{FailsNoMore};
ghost use Rattle.plumctl_core.specs.Run.{PrintsFrames, Stops, WritesLine, StopsLine, WritesLast, StopsLast};

use crate::line::print_line;
use sealed_frames::Keys;
use std::alloc::Global;
use streams::{LineBuffer, Sink, Source, StreamFault, flush, write_whole};

/// How a run that read its whole input ended.
#[derive(Clone, Copy, Debug, PartialEq, Eq)]
pub enum Ended {
    /// Each line stood for a frame.
    AllPrinted,
    /// Some line was refused.
    SomeRefused,
}

impl Ended {
    fn of(all: bool) -> Self
        ensures { result ≡ (if all then AllPrinted else SomeRefused) }
    {
        if all {
            Ended::AllPrinted
        } else {
            Ended::SomeRefused
        }
    }
}

/// Writes what is printed for a line, and a line feed, and returns whether the line stands for a
/// frame.
fn write_line<W: Sink>(
    alloc: Global,
    keys: Option<&Keys>,
    line: &[u8],
    text: &mut Vec<u8>,
    writer: &mut W,
) -> Result<bool, StreamFault>
    ensures ok { IfOk result (λ is. WritesLine (option_copied keys.entry) line.now
        (W.at writer.old) (W.at writer.new) is) }
    ensures err { IfErr result (λ fault. StopsLine (option_copied keys.entry) line.now
        (W.at writer.old) (W.at writer.new) fault) }
    ensures sound { OnOk result (FailsNoMore (W.at writer.old).failed (W.at writer.new).failed) }
{
    let is_frame = print_line(alloc, keys, line, text)?;
    text.push(b'\n')?;
    write_whole(writer, text.as_slice())?;
    Ok(is_frame)
}

/// Writes the last line, which lacks its line feed, as `write_line` does. Where it is empty there
/// is none.
fn write_last_line<W: Sink>(
    alloc: Global,
    keys: Option<&Keys>,
    line: &[u8],
    text: &mut Vec<u8>,
    writer: &mut W,
) -> Result<bool, StreamFault>
    ensures ok { IfOk result (λ is. WritesLast (option_copied keys.entry) line.now
        (W.at writer.old) (W.at writer.new) is) }
    ensures err { IfErr result (λ fault. StopsLast (option_copied keys.entry) line.now
        (W.at writer.old) (W.at writer.new) fault) }
    ensures sound { OnOk result (FailsNoMore (W.at writer.old).failed (W.at writer.new).failed) }
{
    if line.is_empty() {
        return Ok(true);
    }
    write_line(alloc, keys, line, text, writer)
}

/// Reads lines of hexadecimal digits to the end of the input, and writes for each line the frame
/// that its digits spell, or the first refusal: spaces are skipped, digits may be of either case,
/// and a line that is not an even number of digits is `error 9 BadHex`. If there are keys, each
/// frame is sealed: it is what stands before a seal that is right under one of them, and a line
/// without such a seal is `error 17 BadSeal`. The writer is flushed before the reader is asked for
/// more. Ends with 7 `Read` at the first error of the reader, an interruption too, with 8
/// `InputTooLong` once more than 67,108,864 bytes were read, with `Write` at the first error of the
/// writer or when it takes no more (`BrokenPipe` if its other end is closed), and with 99 `Memory`.
/// It takes memory for one read, and for the longest line, its bytes, its frame and its text, which
/// stands twice while it is made.
pub fn frame_lines<R: Source, W: Sink>(
    alloc: Global,
    keys: Option<&Keys>,
    reader: &mut R,
    writer: &mut W,
) -> Result<Ended, StreamFault>
    ensures ok { IfOk result (λ ended. PrintsFrames (option_copied keys.entry) (R.at reader.old)
        (R.at reader.new) (W.at writer.old) (W.at writer.new) ended) }
    ensures err { IfErr result (λ fault. Stops (option_copied keys.entry) (R.at reader.old)
        (R.at reader.new) (W.at writer.old) (W.at writer.new) fault) }
    ensures sound { OnOk result (((R.at reader.new).failed → (R.at reader.old).failed)
        × FailsNoMore (W.at writer.old).failed (W.at writer.new).failed) }
{
    let mut lines = LineBuffer::new(alloc)?;
    let mut line = Vec::new(alloc);
    let mut text = Vec::new(alloc);
    let mut all = true;
    while lines.next_line(reader, &mut line)? {
        all &= write_line(alloc, keys, line.as_slice(), &mut text, writer)?;
        if !lines.holds_line() {
            flush(writer)?;
        }
    }
    all &= write_last_line(alloc, keys, line.as_slice(), &mut text, writer)?;
    flush(writer)?;
    Ok(Ended::of(all))
}
