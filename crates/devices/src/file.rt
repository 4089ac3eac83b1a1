ghost use Rattle.std.specs.Prelude.{◌≡◌, ◌↔◌, [], ◌∷◌, length, IsNone};
ghost use Rattle.std.specs.Option.{ForSome};
ghost use Rattle.devices.specs.Calls.{content_after, synced, wrote};

use crate::device::{Device, DeviceFault};
use crate::failures::{FailedCall, Failures};
use crate::overwriting::overwrite;
use crate::raw::RawFile;
use std::fs::File;

/// A device over a file of the operating system.
///
/// The file is read once, as it is opened, and reads are answered from that copy until
/// `drop_copy`; what is written afterwards takes no memory. It holds the lock of the file as long
/// as it lives.
///
/// After a call that returned `Failed`, each later one fails too, except `len`, `failures`, `held`,
/// `drop_copy` and `failed_call`: the file may differ from what these say. Then open the path
/// again.
///
/// The README of the crate says what is assumed of a file.
#[derive(Drop)]
pub struct FileDevice {
    raw: RawFile,
    len: usize,
    /// What a read gives, until it is dropped.
    copy: Option<Vec<u8>>,
    failures: Failures,
    ghost len_is: { len ≡ length (content_after [] raw.noted.calls) },
    ghost copy_is: { ForSome copy (λ v. v.items ≡ content_after [] raw.noted.calls) },
}

impl FileDevice {
    ghost use Rattle.devices.specs.File.{HasCopy, failed, first_failed};

    /// Makes a device of an open file that holds these bytes, and was synced.
    pub(crate) fn new(file: File, bytes: Vec<u8>) -> FileDevice
        ensures calls { result.raw.noted.calls ≡ synced ∷ wrote 0 bytes.items ∷ [] }
        ensures first { IsNone (first_failed result) }
        ensures copy { HasCopy result }
    {
        FileDevice {
            raw: RawFile::new(file, &bytes),
            len: bytes.len(),
            copy: Some(bytes),
            failures: Failures::none(),
        }
    }

    /// Returns which call failed first, if one has. After `Sync` the disk may lack what was written,
    /// also if the file shows it; after `Write` the disk may be full.
    pub fn failed_call(&self) -> Option<FailedCall>
        ensures value { result ≡ first_failed self.now }
        ensures counted { IsNone result ↔ (failed self.now ≡ 0) }
    {
        self.failures.first()
    }

    pub(crate) fn file(&self) -> &File {
        self.raw.file()
    }
}

// A method's own clauses replace the trait's, so these are repeated, and its own stand below them.
impl Device for FileDevice {
    ghost use Rattle.std.specs.Prelude.{◌≡◌, ◌↔◌, ◌≤◌, ◌+◌, ◌⊎◌, [], length, take, drop, OnOk, OnErr, IsErrOf, IsNone, IsOk, IsSome, IfSome};
    ghost use Rattle.devices.specs.declared.device.DeviceFault.TheVariants.{Memory};
    ghost use Rattle.devices.specs.Device.{CountsFailure, Elapses, IsDurable, LeavesChanged, LeavesNoMore, Overwrites, Shortened, Torn};
    ghost use Rattle.devices.specs.File.{CallsNoMore, HasCopy, content, failed, first_failed, left_since, may_leave, moment, TellsFirst};
    ghost use Rattle.devices.specs.Laws.{now_counts, now_is_all, what_is_read_is_left};

    ghost content = { content };

    ghost may_leave = { may_leave };

    ghost moment = { moment };

    ghost left_since = { left_since };

    ghost failed = { failed };

    ghost now_counts = { λ d t c le now. now_counts [] d.raw.noted.calls t c le now };

    ghost now_is_all = { λ d c left. now_is_all [] d.raw.noted.calls c left };

    ghost what_is_read_is_left = { λ d. what_is_read_is_left [] d.raw.noted.calls };

    fn failures(&self) -> u64 {
        self.failures.count()
    }

    fn len(&self) -> usize {
        self.len
    }

    fn held(&self) -> Option<&[u8]>
        ensures value { IfSome result (λ bytes. bytes.now ≡ content self.now) }
        ensures held { IsSome result ↔ HasCopy self.now }
    {
        match &self.copy {
            Some(copy) => Some(copy.as_slice()),
            None => None,
        }
    }

    fn read_at(&mut self, at: usize, buffer: &mut [u8]) -> Result<(), DeviceFault>
        requires within { at + length buffer.old ≤ length (content self.old) }
        ensures value { OnOk result
            (buffer.new ≡ take (length buffer.old) (drop at (content self.old))) }
        ensures same { content self.new ≡ content self.old }
        ensures crash { LeavesNoMore (may_leave self.old) (may_leave self.new) }
        ensures time { Elapses moment left_since may_leave self.old self.new }
        ensures cause { CountsFailure (failed self.old) (failed self.new) result }
        ensures no_memory { IsErrOf result Memory → ⊥ }
        ensures first { TellsFirst FailedCall.Read result self.old self.new }
        ensures ended { CallsNoMore result self.old self.new }
        ensures reads { IsOk result ↔ (IsNone (first_failed self.old) × HasCopy self.old) }
        ensures no_call { self.new.raw.noted.calls ≡ self.old.raw.noted.calls }
        ensures copy { HasCopy self.new ↔ HasCopy self.old }
    {
        if self.failures.first().is_none() {
            if let Some(copy) = &self.copy {
                let rest = &copy[at..];
                buffer.copy_from_slice(&rest[..buffer.len()]);
                return Ok(());
            }
        }
        Err(self.failures.add(FailedCall::Read))
    }

    fn write_at(&mut self, at: usize, bytes: &[u8]) -> Result<(), DeviceFault>
        requires within { at ≤ length (content self.old) }
        ensures written { OnOk result
            (Overwrites (content self.old) at bytes.now (content self.new)) }
        ensures torn { OnErr result
            (Torn at (length bytes.now) (content self.old) (content self.new)) }
        ensures crash { LeavesChanged (Torn at (length bytes.now))
            (may_leave self.old) (may_leave self.new) }
        ensures memory { IsErrOf result Memory → content self.new ≡ content self.old }
        ensures memory_crash { IsErrOf result Memory
            → LeavesNoMore (may_leave self.old) (may_leave self.new) }
        ensures time { Elapses moment left_since may_leave self.old self.new }
        ensures cause { CountsFailure (failed self.old) (failed self.new) result }
        ensures first { TellsFirst FailedCall.Write result self.old self.new }
        ensures ended { CallsNoMore result self.old self.new }
        ensures copy { OnOk result (HasCopy self.new ↔ HasCopy self.old) }
        ensures copy_kept { IsErrOf result Memory → HasCopy self.new ↔ HasCopy self.old }
    {
        let Some(end) = at.checked_add(bytes.len()) else {
            return Err(self.failures.add(FailedCall::Write));
        };
        if self.failures.first().is_some() {
            return Err(self.failures.add(FailedCall::Write));
        }
        if let Some(copy) = &mut self.copy {
            overwrite(copy, at, bytes)?;
        }
        if self.raw.write(at, bytes) {
            self.len = self.len.max(end);
            Ok(())
        } else {
            self.copy = None;
            Err(self.failures.add(FailedCall::Write))
        }
    }

    fn cut(&mut self, len: usize) -> Result<(), DeviceFault>
        requires within { len ≤ length (content self.old) }
        ensures cut { OnOk result (content self.new ≡ take len (content self.old)) }
        ensures not_cut { OnErr result ((content self.new ≡ content self.old)
            ⊎ (content self.new ≡ take len (content self.old))) }
        ensures crash { LeavesChanged (Shortened len) (may_leave self.old) (may_leave self.new) }
        ensures memory { IsErrOf result Memory → content self.new ≡ content self.old }
        ensures memory_crash { IsErrOf result Memory
            → LeavesNoMore (may_leave self.old) (may_leave self.new) }
        ensures time { Elapses moment left_since may_leave self.old self.new }
        ensures cause { CountsFailure (failed self.old) (failed self.new) result }
        ensures no_memory { IsErrOf result Memory → ⊥ }
        ensures first { TellsFirst FailedCall.Cut result self.old self.new }
        ensures ended { CallsNoMore result self.old self.new }
        ensures copy { OnOk result (HasCopy self.new ↔ HasCopy self.old) }
    {
        if self.failures.first().is_some() {
            return Err(self.failures.add(FailedCall::Cut));
        }
        if let Some(copy) = &mut self.copy {
            copy.truncate(len);
        }
        if self.raw.cut(len) {
            self.len = len;
            Ok(())
        } else {
            self.copy = None;
            Err(self.failures.add(FailedCall::Cut))
        }
    }

    fn sync(&mut self) -> Result<(), DeviceFault>
        ensures durable { OnOk result (IsDurable (content self.old) (may_leave self.new)) }
        ensures same { content self.new ≡ content self.old }
        ensures crash { LeavesNoMore (may_leave self.old) (may_leave self.new) }
        ensures time { Elapses moment left_since may_leave self.old self.new }
        ensures cause { CountsFailure (failed self.old) (failed self.new) result }
        ensures no_memory { IsErrOf result Memory → ⊥ }
        ensures first { TellsFirst FailedCall.Sync result self.old self.new }
        ensures ended { CallsNoMore result self.old self.new }
        ensures copy { HasCopy self.new ↔ HasCopy self.old }
    {
        if self.failures.first().is_none() && self.raw.sync() {
            Ok(())
        } else {
            Err(self.failures.add(FailedCall::Sync))
        }
    }

    fn drop_copy(&mut self)
        ensures same { content self.new ≡ content self.old }
        ensures crash { LeavesNoMore (may_leave self.old) (may_leave self.new) }
        ensures time { Elapses moment left_since may_leave self.old self.new }
        ensures failures { failed self.new ≡ failed self.old }
        ensures first { first_failed self.new ≡ first_failed self.old }
        ensures no_call { self.new.raw.noted.calls ≡ self.old.raw.noted.calls }
        ensures copy { HasCopy self.new → ⊥ }
    {
        drop(self.copy.take());
    }
}
