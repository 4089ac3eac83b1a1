//! How far the reading of a file has come.

ghost use Rattle.std.specs.Prelude.{◌≡◌, ◌≢◌, List, ℕ, IfOk, IfErr};
ghost use Rattle.node_file.specs.declared.fault.FileFault.{FileFault};
ghost use Rattle.file_pieces.specs.declared.stage.Stage.TheVariants.{Ended, Front, Records, Refused};
ghost use Rattle.file_pieces.specs.Framing.{IsShut};
ghost use Rattle.file_pieces.specs.Progress.{ReadSoFar};
ghost use Rattle.file_pieces.specs.Told.{HasRead};

use crate::first::{First, first_in};
use crate::progress::{FRONT_LEN, Progress};
use meta_store::StoreFault;
use meta_types::NodeId;
use node_file::{FileFault, MIN_FILE_LEN};
use std::alloc::Global;

/// How far the reading of a file has come.
#[derive(Drop)]
pub(crate) enum Stage {
    /// Nothing was read: of the front not all has come. It may be asked for one node's file.
    Front(Option<NodeId>),
    /// The front was read, and records behind it.
    Records(Progress),
    /// So were they all. The closed gate that ends them follows.
    Ended(Progress),
    /// The file is refused, whatever follows.
    Refused(FileFault),
}

/// Reads what has come whole, and returns how many bytes that was. Fails only when memory runs out.
pub(crate) fn read_on(
    alloc: Global,
    stage: Stage,
    bytes: &[u8],
) -> Result<(Stage, usize), FileFault>
    requires shut { (p : ReadSoFar) → stage ≡ Ended p → IsShut bytes.now }
    ensures read { IfOk result (λ r. HasRead stage r.0 r.1 bytes.now) }
    ensures memory { IfErr result (λ fault. fault ≡ FileFault.Memory) }
{
    match stage {
        Stage::Front(asked) => read_front(alloc, asked, bytes),
        Stage::Records(progress) => read_records(alloc, progress, bytes),
        Stage::Ended(progress) => Ok((Stage::Ended(progress), 0)),
        Stage::Refused(fault) => Ok((Stage::Refused(fault), bytes.len())),
    }
}

/// Reads the front of a file, and records behind it.
fn read_front(
    alloc: Global,
    asked: Option<NodeId>,
    bytes: &[u8],
) -> Result<(Stage, usize), FileFault>
    ensures read { IfOk result (λ r. HasRead (Front asked) r.0 r.1 bytes.now) }
    ensures memory { IfErr result (λ fault. fault ≡ FileFault.Memory) }
{
    if bytes.len() < MIN_FILE_LEN {
        return Ok((Stage::Front(asked), 0));
    }
    let (front, behind) = bytes.split_at(FRONT_LEN);
    let progress = match Progress::begin(alloc, front, asked) {
        Ok(progress) => progress,
        Err(fault) => return refused(fault, bytes.len()),
    };
    let (stage, read) = read_records(alloc, progress, behind)?;
    Ok((stage, FRONT_LEN + read))
}

/// Reads whole records, up to the gate that ends them.
fn read_records(alloc: Global, begun: Progress, bytes: &[u8]) -> Result<(Stage, usize), FileFault>
    ensures read { IfOk result (λ r. HasRead (Records begun) r.0 r.1 bytes.now) }
    ensures memory { IfErr result (λ fault. fault ≡ FileFault.Memory) }
{
    let mut progress = begun;
    let mut rest = bytes;
    loop {
        match first_in(rest) {
            First::Unfinished => return Ok((Stage::Records(progress), bytes.len() - rest.len())),
            First::Shut => return Ok((ended(progress), bytes.len() - rest.len())),
            First::Overlong => return Ok((damaged(progress.at()), bytes.len())),
            First::Framed(len) => {
                let (record, behind) = rest.split_at(len);
                if !progress.take(alloc, record)? {
                    return Ok((damaged(progress.at()), bytes.len()));
                }
                rest = behind;
            }
        }
    }
}

/// Returns the stage at the gate that ends the records.
fn ended(progress: Progress) -> Stage
    ensures read { (bytes : List ℕ) → IsShut bytes → HasRead (Records progress) result 0 bytes }
{
    if progress.has_too_many() {
        Stage::Refused(FileFault::Store(StoreFault::StoreFull))
    } else {
        Stage::Ended(progress)
    }
}

fn damaged(at: usize) -> Stage
    ensures { result ≡ Refused (FileFault.Damaged at) }
{
    Stage::Refused(FileFault::Damaged { at })
}

/// Returns the stage of a file that is refused, and that so many bytes were read, unless memory ran
/// out.
fn refused(fault: FileFault, read: usize) -> Result<(Stage, usize), FileFault>
    ensures refused { IfOk result (λ r. (fault ≢ FileFault.Memory) × (r ≡ (Refused fault, read))) }
    ensures memory { IfErr result (λ e. e ≡ FileFault.Memory) }
{
    match fault {
        FileFault::Memory => Err(FileFault::Memory),
        fault => Ok((Stage::Refused(fault), read)),
    }
}
