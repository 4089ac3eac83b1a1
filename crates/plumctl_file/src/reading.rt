//! Reading a file as far as a report needs.

ghost use Rattle.std.specs.Prelude.{◌≡◌, ◌⊎◌, ◌<◌, length, OnOk, IfOk, IfErr};
ghost use Rattle.node_file.specs.declared.fault.FileFault.{FileFault};
ghost use Rattle.plumctl_file.specs.Read.{HoldsFile, PushesEnough, RefusesFile};

use file_pieces::{FileContents, Reading};
use node_file::FileFault;
use std::alloc::Global;
use streams::Source;

/// How many bytes are read at once.
const PIECE_LEN: usize = 65_536;

/// Reads a node's file from its first byte on, until the end of the reader or until no byte that
/// follows counts.
///
/// Refused as [`Reading::finish`] is, and with 30 `Device` at the first error of the reader. It
/// takes memory for the table, for one record, and for what stands behind the closed gate as far as
/// that may show a change.
pub(crate) fn read_file<R: Source>(alloc: Global, reader: &mut R) -> Result<FileContents, FileFault>
    ensures holds { IfOk result (HoldsFile (R.at reader.old) (R.at reader.new)) }
    ensures refused { IfErr result (λ fault. (fault ≡ FileFault.Memory)
        ⊎ RefusesFile (R.at reader.old) (R.at reader.new) fault) }
{
    let mut piece = vec![in alloc; 0u8; PIECE_LEN]?;
    let mut reading = Reading::new(alloc, None);
    match push_pieces(reader, &mut piece, &mut reading) {
        Ok(()) => reading.finish(),
        Err(fault) => Err(fault),
    }
}

/// Pushes what the reader gives, piece by piece.
fn push_pieces<R: Source>(
    reader: &mut R,
    piece: &mut [u8],
    reading: &mut Reading,
) -> Result<(), FileFault>
    requires room { 0 < length piece.old }
    ensures pushed { OnOk result
        (PushesEnough (R.at reader.old) (R.at reader.new) reading.old reading.new) }
    ensures refused { IfErr result (λ fault. (fault ≡ FileFault.Memory)
        ⊎ RefusesFile (R.at reader.old) (R.at reader.new) fault) }
{
    for _ in 0..usize::MAX {
        if reading.is_told() {
            return Ok(());
        }
        match reader.read_some(piece) {
            Ok(0) => return Ok(()),
            Ok(len) => reading.push(&piece[..len])?,
            Err(_) => return Err(FileFault::Device),
        }
    }
    // No reader gives as many bytes.
    Err(FileFault::Memory)
}
