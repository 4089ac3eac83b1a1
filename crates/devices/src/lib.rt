//! Devices: bytes that survive crashes, as contracts see them; a file, a device in memory, and two
//! that fail for tests.
//!
//! ```
//! let mut device = FileDevice::create(rt, alloc, "node-3", b"")?;
//! device.write_at(0, b"red")?; // a crash may leave up to three bytes, whatever they are
//! device.sync()?; // now it leaves `red`
//! ```
//!
//! Read `device`, then `memory`, `file` with `raw` and `failures`, `opening` and `naming`, and
//! `failing`.
#![tactic(auto)]

mod call_record;
mod device;
mod failing;
mod failures;
mod file;
mod memory;
mod naming;
mod opening;
mod overwriting;
mod raw;

pub use device::{Device, DeviceFault};
pub use failing::{FailsAfter, FailsOnce};
pub use failures::FailedCall;
pub use file::FileDevice;
pub use memory::{Call, MemoryDevice};
pub use naming::NewName;
pub use opening::{OpenFault, ReadLock};
