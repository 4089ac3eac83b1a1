//! Which frames have a spelling.

ghost use Rattle.std.specs.Prelude.{◌↔◌, IsTrue};
ghost use Rattle.meta_frame.specs.Frame.{IsLawful};

use crate::kinds::message_fits;
use crate::message::Frame;
pub use frame_fields::lawful::is_object;

/// Returns whether the fields of a frame have a spelling, whatever its length: the sender isn't the
/// addressee, and each field of the message has a spelling. An object, a vector, the number of an
/// inner node and a life may have none; the types of the other fields keep their rules.
pub fn is_lawful(frame: &Frame) -> bool
    ensures { IsTrue result ↔ IsLawful frame.now }
{
    let _nodes = (frame.from.number(), frame.to.number());
    let _number = frame.number;
    frame.from != frame.to && message_fits(&frame.message)
}
