//! The keys of sealed frames, out of a file. It takes no memory.

ghost use Rattle.std.specs.Prelude.{◌≡◌, IfOk, IfErr, OnOk};
ghost use Rattle.std.specs.Io.KnownBytes.{Keeps};
ghost use Rattle.streams.specs.declared.fault.StreamFault.TheVariants.{Read};
ghost use Rattle.plumctl_core.specs.KeyFile.{EndsWithoutKeys, FillsFront, HoldsKeys};

use crate::opening::tell_cause;
use crate::status::{line_of_fault, status_of_fault};
use sealed_frames::Keys;
use streams::{Sink, Source, StreamFault};

/// One byte more than two keys have.
const ROOM_LEN: usize = 65;

/// Fills the room from its front with what the reader gives, until its end or until there is no
/// more room. Returns how many bytes that is. Refused with 7 `Read` at the first error of the
/// reader.
fn fill_front<R: Source>(reader: &mut R, room: &mut [u8]) -> Result<usize, StreamFault>
    ensures ok { IfOk result (λ len. FillsFront (R.at reader.old) (R.at reader.new) room.new len) }
    ensures err { IfErr result (λ fault. (fault ≡ Read) × (R.at reader.new).failed) }
{
    let mut len = 0;
    while len < room.len() {
        match reader.read_some(&mut room[len..]) {
            Ok(0) => return Ok(len),
            Ok(n) => len += n,
            Err(_) => return Err(StreamFault::Read),
        }
    }
    Ok(len)
}

/// Reads the keys in the file of this name: 32 bytes, the current key, or 64, behind it the
/// previous one. If there are none to be had, prints at `errors` the number and name of the fault
/// and then the line of `tell_cause`, and returns the exit status, 3: 7 `Read` at the first error
/// of the reader, an interruption too, and 18 `BadKey` for another number of bytes, of which at
/// most 65 are read.
pub fn read_keys<R: Source, E: Sink>(reader: &mut R, name: &str, errors: &mut E) -> Result<Keys, u8>
    ensures keys { IfOk result (HoldsKeys (R.at reader.old) (R.at reader.new)) }
    ensures untold { OnOk result (Keeps (E.at errors.old).contents (E.at errors.new).contents) }
    ensures refused { IfErr result (EndsWithoutKeys name.now (R.at reader.old) (R.at reader.new)
        (E.at errors.old) (E.at errors.new)) }
{
    let mut room = [0; ROOM_LEN];
    let len = match fill_front(reader, &mut room) {
        Ok(len) => len,
        Err(fault) => {
            tell_cause(errors, line_of_fault(fault), name, "could not be read");
            return Err(status_of_fault(fault));
        }
    };
    match Keys::from_slice(&room[..len]) {
        Ok(keys) => Ok(keys),
        Err(_) => {
            let cause = "has neither 32 bytes nor 64";
            tell_cause(errors, "error 18 BadKey\n", name, cause);
            Err(status_of_fault(StreamFault::Read))
        }
    }
}
