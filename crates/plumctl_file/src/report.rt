//! Reporting what a reader gives of a node's file.

ghost use Rattle.std.specs.Prelude.{◌≡◌, false, OnOk, IfErr};
ghost use Rattle.plumctl_file.specs.Report.{refusal_line, warning_of};
ghost use Rattle.plumctl_file.specs.Reported.{PrintsReport, StopsRefusal, WritesFront, WritesOut, is_memory};

use crate::reading::read_file;
use crate::run::is_memory;
use crate::text::{refusal_of, texts_of};
use file_pieces::FileContents;
use node_file::FileFault;
use std::alloc::Global;
use std::marker::Model;
use streams::{Sink, Source, StreamFault, flush, write_whole};

/// A file that was shown.
#[derive(Drop)]
pub struct ShownFile {
    contents: FileContents,
    warning: Vec<u8>,
}

impl Model for ShownFile {
    ghost use Rattle.std.specs.Prelude.{◌≡◌};
    ghost use Rattle.file_pieces.specs.declared.progress.FileContents.{FileContents};
    ghost use Rattle.plumctl_file.specs.Report.{warning_of};

    ghost Value = { FileContents };

    ghost view = { λ s. s.contents };

    ghost invariant = { λ s. s.warning.items ≡ warning_of s.contents.changed_gate };
}

impl ShownFile {
    /// Returns what the file holds.
    pub fn contents(&self) -> &FileContents
        ensures { result.now ≡ self.now }
    {
        &self.contents
    }

    /// Returns what is said of the file at standard error: nothing, or that its closed gate may
    /// have been changed on the disk, so that records behind it are lost.
    pub fn warning(&self) -> &[u8]
        ensures { result.now ≡ warning_of self.now.changed_gate }
    {
        &self.warning
    }
}

/// What was reported of a reader.
#[derive(Drop)]
pub enum Reported {
    /// It gave the file of a node.
    Shown(ShownFile),
    /// It gave none, or failed.
    Refused(FileFault),
    /// The report could not be written, or memory ran out.
    Stopped(StreamFault),
}

/// Writes a text and passes it on. Refused as `streams::write_whole` is.
pub fn print<W: Sink>(writer: &mut W, text: &[u8]) -> Result<(), StreamFault>
    ensures ok { OnOk result (WritesOut (W.at writer.old) (W.at writer.new) text.now) }
    ensures err { IfErr result (λ fault. WritesFront (W.at writer.old) (W.at writer.new) text.now
        fault) }
{
    write_whole(writer, text)?;
    flush(writer)
}

/// Prints what a reader gives from a first byte on, which may be the file of any node: a line of the
/// node, its last life and how many keys there are, a line for each key in order, and a line of the
/// root of the table's tree; or the line of the refusal, as `error 31 Damaged at 10`. Whoever passes
/// the report on says the file's warning too.
///
/// Refused with 31 `Damaged`, 25 `StoreFull` and 30 `Device`, as `node_file::open_node` refuses if
/// no node is asked for; 30 comes at the first error of the reader. Stopped by 99 `Memory`, which
/// may come at any time before the first byte is written, and by a fault of the writer. It takes
/// memory for the table, for its tree, and for the whole text, and for one record of the file.
pub fn file_report<R: Source, W: Sink>(alloc: Global, reader: &mut R, writer: &mut W) -> Reported
    ensures { PrintsReport (R.at reader.old) (R.at reader.new) (W.at writer.old) (W.at writer.new)
        result }
{
    match read_file(alloc, reader) {
        Ok(contents) => {
            let Ok((text, warning)) = texts_of(alloc, &contents) else {
                return Reported::Stopped(StreamFault::Memory);
            };
            match print(writer, &text) {
                Ok(()) => Reported::Shown(ShownFile { contents, warning }),
                Err(fault) => Reported::Stopped(fault),
            }
        }
        Err(fault) => match print_refusal(alloc, &fault, writer) {
            Ok(()) => Reported::Refused(fault),
            Err(stopped) => Reported::Stopped(stopped),
        },
    }
}

/// Prints the line of a refusal. Refused with 99 `Memory` before anything is written, also if that
/// is the refusal, and as `print` is.
fn print_refusal<W: Sink>(
    alloc: Global,
    fault: &FileFault,
    writer: &mut W,
) -> Result<(), StreamFault>
    ensures ok { OnOk result ((is_memory fault.now ≡ false)
        × WritesOut (W.at writer.old) (W.at writer.new) (refusal_line fault.now)) }
    ensures err { IfErr result (StopsRefusal fault.now (W.at writer.old) (W.at writer.new)) }
{
    if is_memory(fault) {
        return Err(StreamFault::Memory);
    }
    let Ok(text) = refusal_of(alloc, fault) else {
        return Err(StreamFault::Memory);
    };
    print(writer, &text)
}
