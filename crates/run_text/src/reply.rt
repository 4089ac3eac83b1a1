//! Replies as text, as a scenario prints them.

use node_events::Reply;
use printing::{print_number, print_values, print_vector};
use std::alloc::AllocError;

pub(crate) fn add_reply(text: &mut Vec<u8>, reply: &Reply) -> Result<(), AllocError> {
    match reply {
        Reply::Looked { values, context } => {
            text.extend_from_slice(b"ctx ")?;
            print_vector(text, context.vector())?;
            text.extend_from_slice(b" values ")?;
            print_values(text, values.as_slice())
        }
        Reply::Wrote { vector } => {
            text.extend_from_slice(b"wrote ctx ")?;
            print_vector(text, vector)
        }
        Reply::Took => text.extend_from_slice(b"took"),
        Reply::TookFresh => text.extend_from_slice(b"took fresh"),
        Reply::TookStale => text.extend_from_slice(b"took stale"),
        Reply::Done => text.extend_from_slice(b"ok"),
        Reply::Watching { number } => {
            text.extend_from_slice(b"watch ")?;
            print_number(text, *number)
        }
        Reply::Changed { missed, .. } => {
            text.extend_from_slice(b"changes, missed ")?;
            print_number(text, *missed)
        }
    }
}
