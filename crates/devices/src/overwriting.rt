ghost use Rattle.std.specs.Prelude.{◌≡◌, ◌≤◌, length, OnOk, OnErr};
ghost use Rattle.devices.specs.Device.{Overwrites};

use std::alloc::AllocError;

/// Writes the bytes over what is there from the offset on, and past the end. It grows first, so
/// that nothing changes if memory runs out, and takes no memory within the old end.
pub(crate) fn overwrite(content: &mut Vec<u8>, at: usize, bytes: &[u8]) -> Result<(), AllocError>
    requires within { at ≤ length content.old.items }
    ensures written { OnOk result
        (Overwrites content.old.items at bytes.now content.new.items) }
    ensures same { OnErr result (content.new.items ≡ content.old.items) }
{
    let within = (content.len() - at).min(bytes.len());
    content.extend_from_slice(&bytes[within..])?;
    content[at..at + within].copy_from_slice(&bytes[..within]);
    Ok(())
}
