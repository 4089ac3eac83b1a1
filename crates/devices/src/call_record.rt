//! The calls that a file device made, as contracts see them. It takes no memory, and nothing of it
//! is there when the program runs.

ghost use Rattle.std.specs.Prelude.{◌≡◌, List, [], ◌∷◌};
ghost use Rattle.std.specs.Borrow.{ftrue};
ghost use Rattle.devices.specs.Calls.{DeviceCall};
ghost use Rattle.devices.specs.Noted.{call_noted};

use std::marker::{Model, PhantomData};

pub(crate) const WROTE: u64 = 0;

pub(crate) const FAILED_TO_WRITE: u64 = 1;

pub(crate) const CUT_TO: u64 = 2;

pub(crate) const FAILED_TO_CUT: u64 = 3;

pub(crate) const SYNCED: u64 = 4;

/// Contracts see the calls, the newest first.
#[derive(Drop)]
pub struct CallRecord {
    marker: PhantomData<u8>,
    pub ghost calls: { List DeviceCall },
}

impl Model for CallRecord {
    ghost also_owns = { λ _. ftrue };
}

// It owns nothing.
unsafe impl Send for CallRecord {}

impl CallRecord {
    pub(crate) fn new() -> CallRecord
        ensures { result.calls ≡ [] }
    {
        CallRecord {
            marker: PhantomData,
        }
    }

    /// Notes one more call: which it is, and its offset or length.
    pub(crate) fn note(&mut self, _numbers: &[u64], _bytes: &[u8])
        ensures { self.new.calls ≡ call_noted _numbers.now _bytes.now ∷ self.old.calls }
    {}
}
