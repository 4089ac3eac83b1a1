ghost use Rattle.std.specs.Prelude.{◌≡◌, ◌≤◌, ◌+◌, ◌↔◌, IsNone, Some};
ghost use Rattle.std.specs.Option.{option_or};
ghost use Rattle.devices.specs.Device.{HasFailed};

use crate::device::DeviceFault;

/// A call of a device that failed.
#[derive(Clone, Copy, Debug, PartialEq, Eq)]
pub enum FailedCall {
    /// A read of a device that has dropped its copy.
    Read,
    /// A write; or one that would end past `usize::MAX`, which isn't made.
    Write,
    Cut,
    Sync,
}

/// The failures of a device: which call failed first, and how many did.
#[derive(Drop)]
pub(crate) struct Failures {
    first: Option<FailedCall>,
    count: u64,
    ghost counted: { IsNone first ↔ (count ≡ 0) },
}

impl Failures {
    pub(crate) fn none() -> Failures
        ensures first { IsNone result.first }
    {
        Failures {
            first: None,
            count: 0,
        }
    }

    /// Returns the first call that failed.
    pub(crate) fn first(&self) -> Option<FailedCall>
        ensures value { result ≡ self.now.first }
        ensures counted { IsNone result ↔ (self.now.count ≡ 0) }
    {
        self.first
    }

    /// Returns how many there are; it stays at 2^64 - 1.
    pub(crate) fn count(&self) -> u64
        ensures { result ≡ self.now.count }
    {
        self.count
    }

    /// Adds one, of this call.
    pub(crate) fn add(&mut self, call: FailedCall) -> DeviceFault
        ensures value { result ≡ DeviceFault.Failed }
        ensures count { HasFailed self.old.count self.new.count }
        ensures by_one { self.new.count ≤ self.old.count + 1 }
        ensures first { self.new.first ≡ option_or self.old.first (Some call) }
    {
        self.count = self.count.saturating_add(1);
        self.first = self.first.or(Some(call));
        DeviceFault::Failed
    }
}
