//! Devices that fail, for tests: each wraps another device, passes calls on to it, and fails some
//! of them. None holds its content in memory for a caller, so that each read can fail.

ghost use Rattle.std.specs.Prelude.{◌≡◌, ◌≤◌, ◌+◌, Result, Some};
ghost use Rattle.devices.specs.Device.{CountsFailure, HasFailed};

use crate::device::{Device, DeviceFault};

/// Counts a failure.
fn fail(failed: &mut u64) -> DeviceFault
    ensures value { result ≡ DeviceFault.Failed }
    ensures count { HasFailed failed.old failed.new }
    ensures by_one { failed.new ≤ failed.old + 1 }
{
    *failed = failed.saturating_add(1);
    DeviceFault::Failed
}

/// Returns the answer of the inner device, whose failure is counted here too.
fn counted(failed: &mut u64, answer: Result<(), DeviceFault>) -> Result<(), DeviceFault>
    ensures same { result ≡ answer }
    ensures cause { CountsFailure failed.old failed.new result }
{
    match answer {
        Err(DeviceFault::Failed) => Err(fail(failed)),
        other => other,
    }
}

/// Passes on `passed` calls of `write_at`, `cut` and `sync` in all; after them these and `read_at`
/// always fail.
#[derive(Drop)]
pub struct FailsAfter<D: Device> {
    inner: D,
    left: u64,
    failed: u64,
}

impl<D: Device> FailsAfter<D> {
    pub fn new(inner: D, passed: u64) -> FailsAfter<D>
        ensures inner { result.inner ≡ inner }
        ensures left { result.left ≡ passed }
        ensures failed { result.failed ≡ 0 }
    {
        FailsAfter {
            inner,
            left: passed,
            failed: 0,
        }
    }

    /// Returns the device that calls are passed on to.
    pub fn inner(&self) -> &D
        ensures { result.now ≡ self.now.inner }
    {
        &self.inner
    }

    /// Returns the device that calls are passed on to, by value.
    pub fn into_inner(self) -> D
        ensures { result ≡ self.inner }
    {
        self.inner
    }
}

impl<D: Device> Device for FailsAfter<D> {
    ghost content = { λ d. D.content d.inner };

    ghost may_leave = { λ d c. D.may_leave d.inner c };

    ghost moment = { λ d. D.moment d.inner };

    ghost left_since = { λ d t c. D.left_since d.inner t c };

    ghost failed = { λ d. d.failed };

    ghost now_counts = { λ d t c le now. D.now_counts d.inner t c le now };

    ghost now_is_all = { λ d c left. D.now_is_all d.inner c left };

    ghost what_is_read_is_left = { λ d. D.what_is_read_is_left d.inner };

    fn failures(&self) -> u64 {
        self.failed
    }

    fn len(&self) -> usize {
        self.inner.len()
    }

    fn held(&self) -> Option<&[u8]> {
        None
    }

    fn read_at(&mut self, at: usize, buffer: &mut [u8]) -> Result<(), DeviceFault> {
        if self.left == 0 {
            return Err(fail(&mut self.failed));
        }
        let answer = self.inner.read_at(at, buffer);
        counted(&mut self.failed, answer)
    }

    fn write_at(&mut self, at: usize, bytes: &[u8]) -> Result<(), DeviceFault> {
        if self.left == 0 {
            return Err(fail(&mut self.failed));
        }
        self.left -= 1;
        let answer = self.inner.write_at(at, bytes);
        counted(&mut self.failed, answer)
    }

    fn cut(&mut self, len: usize) -> Result<(), DeviceFault> {
        if self.left == 0 {
            return Err(fail(&mut self.failed));
        }
        self.left -= 1;
        let answer = self.inner.cut(len);
        counted(&mut self.failed, answer)
    }

    fn sync(&mut self) -> Result<(), DeviceFault> {
        if self.left == 0 {
            return Err(fail(&mut self.failed));
        }
        self.left -= 1;
        let answer = self.inner.sync();
        counted(&mut self.failed, answer)
    }

    fn drop_copy(&mut self) {
        self.inner.drop_copy();
    }
}

/// Passes on the first `passed` calls of `read_at`, fails the next one, and passes on all others.
#[derive(Drop)]
pub struct FailsOnce<D: Device> {
    inner: D,
    /// How many reads are passed on before the one that fails; `None` once it has failed.
    left: Option<u64>,
    failed: u64,
}

impl<D: Device> FailsOnce<D> {
    pub fn new(inner: D, passed: u64) -> FailsOnce<D>
        ensures inner { result.inner ≡ inner }
        ensures left { result.left ≡ Some passed }
        ensures failed { result.failed ≡ 0 }
    {
        FailsOnce {
            inner,
            left: Some(passed),
            failed: 0,
        }
    }
}

impl<D: Device> Device for FailsOnce<D> {
    ghost content = { λ d. D.content d.inner };

    ghost may_leave = { λ d c. D.may_leave d.inner c };

    ghost moment = { λ d. D.moment d.inner };

    ghost left_since = { λ d t c. D.left_since d.inner t c };

    ghost failed = { λ d. d.failed };

    ghost now_counts = { λ d t c le now. D.now_counts d.inner t c le now };

    ghost now_is_all = { λ d c left. D.now_is_all d.inner c left };

    ghost what_is_read_is_left = { λ d. D.what_is_read_is_left d.inner };

    fn failures(&self) -> u64 {
        self.failed
    }

    fn len(&self) -> usize {
        self.inner.len()
    }

    fn held(&self) -> Option<&[u8]> {
        None
    }

    fn read_at(&mut self, at: usize, buffer: &mut [u8]) -> Result<(), DeviceFault> {
        if self.left == Some(0) {
            self.left = None;
            return Err(fail(&mut self.failed));
        }
        if let Some(left) = &mut self.left {
            *left = left.saturating_sub(1);
        }
        let answer = self.inner.read_at(at, buffer);
        counted(&mut self.failed, answer)
    }

    fn write_at(&mut self, at: usize, bytes: &[u8]) -> Result<(), DeviceFault> {
        let answer = self.inner.write_at(at, bytes);
        counted(&mut self.failed, answer)
    }

    fn cut(&mut self, len: usize) -> Result<(), DeviceFault> {
        let answer = self.inner.cut(len);
        counted(&mut self.failed, answer)
    }

    fn sync(&mut self) -> Result<(), DeviceFault> {
        let answer = self.inner.sync();
        counted(&mut self.failed, answer)
    }

    fn drop_copy(&mut self) {
        self.inner.drop_copy();
    }
}
