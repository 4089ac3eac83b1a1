ghost use Rattle.std.specs.Prelude.{◌≡◌, ◌≤◌, ◌+◌, ◌⊎◌, List, ℕ, length, take, drop, OnOk, OnErr, IsErrOf, IfSome};
ghost use Rattle.devices.specs.declared.device.DeviceFault.TheVariants.{Memory};
ghost use Rattle.devices.specs.Device.{CountsFailure, Elapses, IsDurable, LeavesChanged, LeavesNoMore, Overwrites, Shortened, Torn};

use std::alloc::{AllocError, AllocFailed};

/// Why a call of a device failed.
#[derive(Clone, Copy, Debug, PartialEq, Eq)]
pub enum DeviceFault {
    /// An allocation was refused; the device was asked for nothing.
    Memory,
    /// The device failed, as the count of its failures shows.
    Failed,
}

impl From<AllocError> for DeviceFault {
    ghost from_gives = { λ _ fault. fault ≡ Memory };

    fn from(_: AllocError) -> Self {
        DeviceFault::Memory
    }
}

impl<T: Drop> From<AllocFailed<T>> for DeviceFault {
    ghost from_gives = { λ _ fault. fault ≡ Memory };

    fn from(_: AllocFailed<T>) -> Self {
        DeviceFault::Memory
    }
}

/// A sequence of bytes that survives crashes, as a file does: bytes are read and written at an
/// offset, and what was written is durable once it was synced.
///
/// Between two syncs a crash may leave any bytes in each range that was written and past the old
/// end, and any length down to the one that a cut asked for. All else stays. After a sync that
/// succeeded a crash leaves what a read gives. A write that fails may have written any bytes in its
/// range, a cut that fails may be done or not, and a sync that fails makes nothing durable.
///
/// A crash itself is no call, so contracts speak of what it may leave: at this moment (`may_leave`)
/// and at each moment since an earlier one, also inside of calls (`left_since`).
pub trait Device {
    /// The bytes that a read gives.
    ghost content: { Self → List ℕ };

    /// What a crash at this moment may leave.
    ghost may_leave: { Self → List ℕ → Type 0 };

    /// The moment, as a number that never falls.
    ghost moment: { Self → ℕ };

    /// What a crash at some moment since that one may have left, during a call or between two.
    ghost left_since: { Self → ℕ → List ℕ → Type 0 };

    /// How many failures were counted.
    ghost failed: { Self → ℕ };

    /// Returns how many calls failed for another cause than memory. It never falls, and stays at
    /// 2^64 - 1.
    fn failures(&self) -> u64
        ensures { result ≡ failed self.now };

    /// Returns how many bytes there are.
    fn len(&self) -> usize
        ensures { result ≡ length (content self.now) };

    /// Returns the bytes, if the device has them in memory.
    fn held(&self) -> Option<&[u8]>
        ensures { IfSome result (λ bytes. bytes.now ≡ content self.now) };

    /// Reads as many bytes as the buffer has, from the offset on.
    fn read_at(&mut self, at: usize, buffer: &mut [u8]) -> Result<(), DeviceFault>
        requires within { at + length buffer.old ≤ length (content self.old) }
        ensures value { OnOk result
            (buffer.new ≡ take (length buffer.old) (drop at (content self.old))) }
        ensures same { content self.new ≡ content self.old }
        ensures crash { LeavesNoMore (may_leave self.old) (may_leave self.new) }
        ensures time { Elapses moment left_since may_leave self.old self.new }
        ensures cause { CountsFailure (failed self.old) (failed self.new) result };

    /// Writes the bytes over what is there from the offset on, and past the end.
    fn write_at(&mut self, at: usize, bytes: &[u8]) -> Result<(), DeviceFault>
        requires within { at ≤ length (content self.old) }
        ensures written { OnOk result
            (Overwrites (content self.old) at bytes.now (content self.new)) }
        ensures torn { OnErr result
            (Torn at (length bytes.now) (content self.old) (content self.new)) }
        ensures crash { LeavesChanged (Torn at (length bytes.now))
            (may_leave self.old) (may_leave self.new) }
        ensures memory { IsErrOf result Memory → content self.new ≡ content self.old }
        ensures memory_crash { IsErrOf result Memory
            → LeavesNoMore (may_leave self.old) (may_leave self.new) }
        ensures time { Elapses moment left_since may_leave self.old self.new }
        ensures cause { CountsFailure (failed self.old) (failed self.new) result };

    /// Cuts the content to its first `len` bytes.
    fn cut(&mut self, len: usize) -> Result<(), DeviceFault>
        requires within { len ≤ length (content self.old) }
        ensures cut { OnOk result (content self.new ≡ take len (content self.old)) }
        ensures not_cut { OnErr result ((content self.new ≡ content self.old)
            ⊎ (content self.new ≡ take len (content self.old))) }
        ensures crash { LeavesChanged (Shortened len) (may_leave self.old) (may_leave self.new) }
        ensures memory { IsErrOf result Memory → content self.new ≡ content self.old }
        ensures memory_crash { IsErrOf result Memory
            → LeavesNoMore (may_leave self.old) (may_leave self.new) }
        ensures time { Elapses moment left_since may_leave self.old self.new }
        ensures cause { CountsFailure (failed self.old) (failed self.new) result };

    /// Makes durable all that was written before.
    fn sync(&mut self) -> Result<(), DeviceFault>
        ensures durable { OnOk result (IsDurable (content self.old) (may_leave self.new)) }
        ensures same { content self.new ≡ content self.old }
        ensures crash { LeavesNoMore (may_leave self.old) (may_leave self.new) }
        ensures time { Elapses moment left_since may_leave self.old self.new }
        ensures cause { CountsFailure (failed self.old) (failed self.new) result };

    /// Lets a device that keeps a copy of its content in memory drop that. It is called once all
    /// that is needed was read. A later read may fail, and then counts as a failure.
    fn drop_copy(&mut self)
        ensures same { content self.new ≡ content self.old }
        ensures crash { LeavesNoMore (may_leave self.old) (may_leave self.new) }
        ensures time { Elapses moment left_since may_leave self.old self.new }
        ensures failures { failed self.new ≡ failed self.old };

    /// What a crash may leave at this moment, it may have left since any earlier one.
    ghost now_counts: { (device : Self) (t : ℕ) (c : List ℕ)
        → t ≤ moment device → may_leave device c → left_since device t c };

    /// What a crash may have left since this moment, it may leave now.
    ghost now_is_all: { (device : Self) (c : List ℕ)
        → left_since device (moment device) c → may_leave device c };

    /// What is read is one of the contents that a crash may leave.
    ghost what_is_read_is_left: { (device : Self) → may_leave device (content device) };
}
