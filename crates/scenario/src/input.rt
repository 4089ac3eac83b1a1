//! A whole text from a reader.

ghost use Rattle.std.specs.Prelude.{◌<◌, ◌≤◌, length, IfOk, IfErr, OnOk};
ghost use Rattle.streams.specs.Line.{input_limit};
ghost use Rattle.scenario.specs.Run.{AddsPiece, ReadsAll, StopsPiece, ReadsPart};

use std::alloc::Global;
use streams::{MAX_INPUT_LEN, Source, StreamFault};

/// The most bytes of one read.
const PIECE_LEN: usize = 65_536;

/// Reads to the end of the input. Ends with 7 `Read` at the first error of the reader, even an
/// interruption, with 8 `InputTooLong` once more than 67,108,864 bytes were read, and with 99
/// `Memory`.
pub fn read_text<R: Source>(alloc: Global, reader: &mut R) -> Result<Vec<u8>, StreamFault>
    ensures ok { IfOk result (λ text. ReadsAll (R.at reader.old) (R.at reader.new) text.items) }
    ensures err { IfErr result (λ fault. ReadsPart (R.at reader.old) (R.at reader.new) fault) }
{
    let mut piece = vec![in alloc; 0u8; PIECE_LEN]?;
    let mut text = Vec::new(alloc);
    while add_piece(reader, piece.as_mut_slice(), &mut text)? {}
    Ok(text)
}

/// Adds what one read gives. Returns whether it gave something; otherwise the reader is at its end.
fn add_piece<R: Source>(
    reader: &mut R,
    piece: &mut [u8],
    text: &mut Vec<u8>,
) -> Result<bool, StreamFault>
    requires some { 0 < length piece.old }
    requires room { length text.old.items ≤ input_limit }
    ensures ok { IfOk result (λ more. AddsPiece (R.at reader.old) (R.at reader.new) text.old.items
        text.new.items more) }
    ensures err { IfErr result (λ fault. StopsPiece (R.at reader.old) (R.at reader.new)
        text.old.items fault) }
    ensures sound { OnOk result ((R.at reader.new).failed → (R.at reader.old).failed) }
{
    let n = match reader.read_some(piece) {
        Ok(n) => n,
        Err(_) => return Err(StreamFault::Read),
    };
    if n > MAX_INPUT_LEN - text.len() {
        return Err(StreamFault::InputTooLong);
    }
    text.extend_from_slice(&piece[..n])?;
    Ok(n > 0)
}
