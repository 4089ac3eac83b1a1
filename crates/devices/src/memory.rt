ghost use Rattle.std.specs.Prelude.{◌≡◌, [], length, IfOk};
ghost use Rattle.devices.specs.CallLog.{device_calls};
ghost use Rattle.devices.specs.Calls.{content_after};
ghost use Rattle.devices.specs.Device.{IsDurable};

use crate::device::{Device, DeviceFault};
use crate::overwriting::overwrite;
use std::alloc::{AllocError, Global};
use std::marker::Model;

/// A call of a device that changed what is read of it, or what a crash may leave.
#[derive(Drop)]
pub enum Call {
    /// These bytes, from this offset on.
    Wrote(usize, Vec<u8>),
    /// To this number of bytes.
    CutTo(usize),
    Synced,
}

/// A device in memory. It fails only when memory runs out, and keeps what it held at first and
/// each call that changed something, so that a test can make each content that a crash may leave.
///
/// Each write, cut and sync takes memory for its note; a write takes time only for its own bytes.
#[derive(Drop)]
pub struct MemoryDevice {
    alloc: Global,
    first: Vec<u8>,
    content: Vec<u8>,
    calls: Vec<Call>,
}

impl Model for MemoryDevice {
    ghost use Rattle.std.specs.Prelude.{◌≡◌};
    ghost use Rattle.devices.specs.CallLog.{CallLog, device_calls};
    ghost use Rattle.devices.specs.Calls.{content_after};

    ghost Value = { CallLog };

    ghost view = { λ m. record { first = m.first.items; calls = device_calls m.calls.items } };

    ghost invariant = { λ m.
        m.content.items ≡ content_after m.first.items (device_calls m.calls.items) };
}

impl MemoryDevice {
    /// Returns a device that holds these bytes, all of them durable.
    pub fn new(alloc: Global, content: Vec<u8>) -> Result<MemoryDevice, AllocError>
        ensures value { IfOk result
            (λ device. device ≡ record { first = content.items; calls = [] }) }
        ensures durable { IfOk result (λ d. IsDurable
            (⟦<MemoryDevice as Device>⟧.content d) (⟦<MemoryDevice as Device>⟧.may_leave d)) }
    {
        Ok(MemoryDevice {
            alloc,
            first: content.to_vec(alloc)?,
            content,
            calls: Vec::new(alloc),
        })
    }

    /// Returns what it held at first.
    pub fn first(&self) -> &[u8]
        ensures { result.now ≡ self.now.first }
    {
        self.first.as_slice()
    }

    /// Returns the calls that changed something, the oldest first.
    pub fn calls(&self) -> &[Call]
        ensures { device_calls result.now ≡ self.now.calls }
    {
        self.calls.as_slice()
    }

    /// Returns what a read gives.
    pub fn content(&self) -> &[u8]
        ensures { result.now ≡ content_after self.now.first self.now.calls }
    {
        self.content.as_slice()
    }

    /// Returns what a read gives, and takes no memory.
    pub fn into_content(self) -> Vec<u8>
        ensures { result.items ≡ content_after self.first self.calls }
    {
        self.content
    }
}

impl Device for MemoryDevice {
    ghost use Rattle.std.specs.Prelude.{length};
    ghost use Rattle.devices.specs.Calls.{content_after, CrashLeaves, CrashLeftSince};
    ghost use Rattle.devices.specs.Laws.{now_counts, now_is_all, what_is_read_is_left};

    ghost content = { λ m. content_after m.first m.calls };

    ghost may_leave = { λ m c. CrashLeaves m.first m.calls c };

    ghost moment = { λ m. length m.calls };

    ghost left_since = { λ m t c. CrashLeftSince m.first m.calls t c };

    ghost failed = { λ m. 0 };

    ghost now_counts = { λ m t c le now. now_counts m.first m.calls t c le now };

    ghost now_is_all = { λ m c left. now_is_all m.first m.calls c left };

    ghost what_is_read_is_left = { λ m. what_is_read_is_left m.first m.calls };

    fn failures(&self) -> u64 {
        0
    }

    fn len(&self) -> usize {
        self.content.len()
    }

    fn held(&self) -> Option<&[u8]> {
        Some(self.content.as_slice())
    }

    fn read_at(&mut self, at: usize, buffer: &mut [u8]) -> Result<(), DeviceFault> {
        let rest = &self.content[at..];
        buffer.copy_from_slice(&rest[..buffer.len()]);
        Ok(())
    }

    fn write_at(&mut self, at: usize, bytes: &[u8]) -> Result<(), DeviceFault> {
        self.calls.push(Call::Wrote(at, bytes.to_vec(self.alloc)?))?;
        match overwrite(&mut self.content, at, bytes) {
            Ok(()) => Ok(()),
            Err(_) => {
                let _ = self.calls.pop();
                Err(DeviceFault::Memory)
            }
        }
    }

    fn cut(&mut self, len: usize) -> Result<(), DeviceFault> {
        self.calls.push(Call::CutTo(len))?;
        self.content.truncate(len);
        Ok(())
    }

    fn sync(&mut self) -> Result<(), DeviceFault> {
        self.calls.push(Call::Synced)?;
        Ok(())
    }

    fn drop_copy(&mut self) {}
}
