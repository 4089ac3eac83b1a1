//! Writers that say when a write may fail, and writing whole texts.

ghost use Rattle.std.specs.Prelude.{◌≡◌, ◌<◌, ⊤, length, OnOk, IfOk, IfErr, OnErr};
ghost use Rattle.std.specs.IoError.{error_kind};
ghost use Rattle.std.specs.Io.{WritesAtMost};
ghost use Rattle.std.specs.Io.KnownBytes.{WriteAppends, Keeps, Appends};
ghost use Rattle.streams.specs.Fault.{FailsNoMore, FailsOnly, IsWriterFault, fault_of_kind};
ghost use Rattle.streams.specs.Moment.{SinkAt};
ghost use Rattle.streams.specs.Written.{AppendsFront};

use crate::fault::StreamFault;
use crate::source::MayFail;
use std::io::{self, ErrorKind, Write};

/// A writer that says when a write of it may fail. A `Vec` fails only when memory runs out, so a
/// run over it can't return that its writer failed.
pub trait Sink: Write {
    // The writer at a moment. A write that is given bytes and takes none counts as an error
    // `WriteZero`.
    ghost at: { Self → SinkAt };

    /// Writes once.
    fn write_some(&mut self, bytes: &[u8]) -> io::Result<usize>
        ensures bound { WritesAtMost result bytes.now }
        ensures bytes { WriteAppends (at self.old).contents
            (at self.new).contents result bytes.now }
        ensures cause { IfErr result (λ e. (at self.new).failed (error_kind e)) }
        ensures only { IfErr result (λ e. FailsOnly (at self.old).failed (at self.new).failed
            (error_kind e)) }
        ensures full { IfOk result (λ n. n ≡ 0 → 0 < length bytes.now
            → (at self.new).failed ErrorKind.WriteZero
            × FailsOnly (at self.old).failed (at self.new).failed ErrorKind.WriteZero) }
        ensures sound { IfOk result (λ n. 0 < n → FailsNoMore (at self.old).failed
            (at self.new).failed) };

    /// Passes on what the writer holds back.
    fn pass_on(&mut self) -> io::Result<()>
        ensures bytes { Keeps (at self.old).contents (at self.new).contents }
        ensures cause { IfErr result (λ e. (at self.new).failed (error_kind e)) }
        ensures only { IfErr result (λ e. FailsOnly (at self.old).failed (at self.new).failed
            (error_kind e)) }
        ensures done { OnOk result (at self.new).passed_on }
        ensures sound { OnOk result (FailsNoMore (at self.old).failed (at self.new).failed) };
}

impl Sink for Vec<u8> {
    ghost use Rattle.std.specs.declared.io.ErrorKind.TheVariants.{OutOfMemory};

    ghost at = { λ w. record {
      failed = λ kind. kind ≡ OutOfMemory;
      passed_on = ⊤;
      contents = Self.contents w;
    } };

    fn write_some(&mut self, bytes: &[u8]) -> io::Result<usize> {
        self.write(bytes)
    }

    fn pass_on(&mut self) -> io::Result<()> {
        Ok(())
    }
}

impl<W: Write> Write for MayFail<W> {
    ghost contents = { λ w. W.contents w.0 };

    fn write(&mut self, bytes: &[u8]) -> io::Result<usize> {
        self.0.write(bytes)
    }

    fn flush(&mut self) -> io::Result<()> {
        self.0.flush()
    }
}

impl<W: Write> Sink for MayFail<W> {
    ghost at = { λ w. record {
      failed = λ _. ⊤;
      passed_on = ⊤;
      contents = W.contents w.0;
    } };

    fn write_some(&mut self, bytes: &[u8]) -> io::Result<usize> {
        self.0.write(bytes)
    }

    fn pass_on(&mut self) -> io::Result<()> {
        self.0.flush()
    }
}

/// Returns the fault of a writer whose call returned an error of this kind.
pub fn write_fault(kind: ErrorKind) -> StreamFault
    ensures { result ≡ fault_of_kind kind }
{
    match kind {
        ErrorKind::BrokenPipe => StreamFault::BrokenPipe,
        ErrorKind::OutOfMemory => StreamFault::Memory,
        _ => StreamFault::Write,
    }
}

/// Writes all the bytes. Refused with `BrokenPipe`, 99 `Memory` or `Write`, by the kind of the
/// writer's first error, even an interruption, and with `Write` if it takes nothing; then a front
/// of the bytes was written.
pub fn write_whole<W: Sink>(writer: &mut W, bytes: &[u8]) -> Result<(), StreamFault>
    ensures ok { OnOk result
        (Appends (W.at writer.old).contents (W.at writer.new).contents bytes.now) }
    ensures err { OnErr result
        (AppendsFront (W.at writer.old).contents (W.at writer.new).contents bytes.now) }
    ensures cause { IfErr result (λ fault. IsWriterFault (W.at writer.old).failed
        (W.at writer.new).failed fault) }
    ensures sound { OnOk result (FailsNoMore (W.at writer.old).failed (W.at writer.new).failed) }
{
    let mut rest = bytes;
    while !rest.is_empty() {
        match writer.write_some(rest) {
            Ok(0) => return Err(write_fault(ErrorKind::WriteZero)),
            Ok(n) => rest = &rest[n..],
            Err(error) => return Err(write_fault(error.kind())),
        }
    }
    Ok(())
}

/// Passes on what the writer holds back. Refused as `write_whole` is; then nothing was written.
pub fn flush<W: Sink>(writer: &mut W) -> Result<(), StreamFault>
    ensures bytes { Keeps (W.at writer.old).contents (W.at writer.new).contents }
    ensures cause { IfErr result (λ fault. IsWriterFault (W.at writer.old).failed
        (W.at writer.new).failed fault) }
    ensures done { OnOk result (W.at writer.new).passed_on }
    ensures sound { OnOk result (FailsNoMore (W.at writer.old).failed (W.at writer.new).failed) }
{
    match writer.pass_on() {
        Ok(()) => Ok(()),
        Err(error) => Err(write_fault(error.kind())),
    }
}
