//! The calls of the operating system that change or sync a file, each with its note. Each method
//! makes the one call that it notes, and notes it as the system answered. No contract says so,
//! since none speaks of a disk: it has to be read here.

ghost use Rattle.std.specs.Prelude.{◌≡◌, [], ◌∷◌, length, if◌then◌else◌};
ghost use Rattle.devices.specs.Calls.{wrote, failed_to_write, cut_to, failed_to_cut, synced};

use crate::call_record::{CUT_TO, CallRecord, FAILED_TO_CUT, FAILED_TO_WRITE, SYNCED, WROTE};
use std::fs::File;
use std::os::unix::fs::FileExt;

#[derive(Drop)]
pub(crate) struct RawFile {
    file: File,
    pub(crate) noted: CallRecord,
}

impl RawFile {
    /// Makes a raw file of one that holds these bytes, and was synced.
    pub(crate) fn new(file: File, bytes: &[u8]) -> RawFile
        ensures { result.noted.calls ≡ synced ∷ wrote 0 bytes.now ∷ [] }
    {
        let mut noted = CallRecord::new();
        noted.note(&[WROTE, 0], bytes);
        noted.note(&[SYNCED, 0], &[]);
        RawFile { file, noted }
    }

    pub(crate) fn file(&self) -> &File {
        &self.file
    }

    /// Writes all the bytes from the offset on; returns whether it was done.
    pub(crate) fn write(&mut self, at: usize, bytes: &[u8]) -> bool
        ensures { self.new.noted.calls
            ≡ (if result then wrote at bytes.now else failed_to_write at (length bytes.now))
            ∷ self.old.noted.calls }
    {
        let is_done = self.file.write_all_at(bytes, at as u64).is_ok();
        let call = if is_done { WROTE } else { FAILED_TO_WRITE };
        self.noted.note(&[call, at as u64], bytes);
        is_done
    }

    /// Cuts the file to its first `len` bytes; returns whether it was done.
    pub(crate) fn cut(&mut self, len: usize) -> bool
        ensures { self.new.noted.calls
            ≡ (if result then cut_to len else failed_to_cut len) ∷ self.old.noted.calls }
    {
        let is_done = self.file.set_len(len as u64).is_ok();
        let call = if is_done { CUT_TO } else { FAILED_TO_CUT };
        self.noted.note(&[call, len as u64], &[]);
        is_done
    }

    /// Waits until the bytes, and what is needed to read them back, are on the disk (fdatasync);
    /// returns whether it was done.
    pub(crate) fn sync(&mut self) -> bool
        ensures { self.new.noted.calls
            ≡ (if result then synced ∷ self.old.noted.calls else self.old.noted.calls) }
    {
        let is_done = self.file.sync_data().is_ok();
        if is_done {
            self.noted.note(&[SYNCED, 0], &[]);
        }
        is_done
    }
}
