//! What exports return.

ghost use Rattle.std.specs.Prelude.{◌≡◌};
ghost use Rattle.node_export.specs.Exports.{answer_of};

use node_hosted::HostFault;

/// All went well.
pub const OK: u16 = 0;

/// 80: there is no node in the slot.
pub const NO_NODE: u16 = 80;

/// 81: the buffer is shorter than what it should hold.
pub const SHORT_BUFFER: u16 = 81;

/// 82: lives are numbered from 1.
pub const BAD_LIFE: u16 = 82;

/// Returns the number that says how a call ended.
pub(crate) fn answer_of(outcome: Result<(), HostFault>) -> u16
    ensures { result ≡ answer_of outcome }
{
    match outcome {
        Ok(()) => OK,
        Err(fault) => fault.code(),
    }
}
