//! Inboxes, and frames that spell numbers.

ghost use Rattle.std.specs.Prelude.{◌≡◌};

use inbox::{Fresh, Inbox, Parcel, PutPass, TakePass};
use meta_types::ByteString;
use std::alloc::Global;
use std::process::Abort;
use std::sync::Wait;

/// Returns an inbox for one sender, with its passes.
pub(crate) fn with_room_for(
    rt: &impl Abort,
    alloc: Global,
    room: usize,
) -> (Inbox, PutPass, TakePass)
    ensures put { result.1.line ≡ result.0.line }
    ensures take { result.2.line ≡ result.0.line }
{
    let fresh = Inbox::with_room(alloc, 1, room).ok();
    let Fresh {
        inbox,
        mut puts,
        takes,
    } = fresh.expect(rt, "an inbox");
    let put = puts.pop().expect(rt, "a pass");
    (inbox, put, takes)
}

/// Puts a frame that spells the number. Returns the number of the refusal, 0 for none, and 1 if
/// another frame comes back.
pub(crate) fn put<R: Wait + Abort>(
    rt: &R,
    alloc: Global,
    inbox: &Inbox,
    pass: &mut PutPass,
    number: u32,
) -> u16
    requires { pass.old.line ≡ inbox.now.line }
    ensures { pass.new.line ≡ inbox.now.line }
{
    let bytes = number.to_le_bytes().to_vec(alloc).expect(rt, "memory");
    match inbox.put(rt, pass, ByteString::new(bytes)) {
        Ok(()) => 0,
        Err(refused) => if refused.frame.as_slice() == number.to_le_bytes().as_slice() {
            refused.fault.code()
        } else {
            1
        },
    }
}

/// Returns the number that a frame spells.
pub(crate) fn number(parcel: &Parcel) -> Option<u32> {
    let bytes: [u8; 4] = parcel.frame.as_slice().try_into().ok()?;
    Some(u32::from_le_bytes(bytes))
}

/// Returns the sender and the number of the next frame.
pub(crate) fn take<R: Wait>(rt: &R, inbox: &Inbox, pass: &mut TakePass) -> Option<(u64, u32)>
    requires { pass.old.line ≡ inbox.now.line }
    ensures { pass.new.line ≡ inbox.now.line }
{
    let parcel = inbox.take(rt, pass)?;
    Some((parcel.from, number(&parcel)?))
}
