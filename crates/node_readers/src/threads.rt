//! One thread publishes while another looks.

ghost use Rattle.node_readers.specs.Published.{with_all};
ghost use Rattle.node_readers.specs.Growth.{GrowsBy};

use crate::fault::PeekFault;
use crate::publisher::Publisher;
use crate::seat::ReadSeat;
use crate::shown::Shown;
use crate::{Naming, Published, Revision, Tail};
use meta_types::MetaKey;
use std::alloc::AllocError;
use std::sync::Wait;
use std::thread::{Threads, join};

/// Publishes a change in one thread and looks in another, and returns what each took, with its
/// result: a publisher and a seat may go to other threads. Refused as `publish` and `peek` are.
/// Whether the look shows the change isn't known.
pub fn side_by_side<J: Naming + Send + Sync, H: Wait + Drop + Send, R: Threads + Wait + Sync>(
    rt: &R,
    tail: &Tail<J>,
    publisher: Publisher<J, H>,
    change: Published,
    seat: ReadSeat<J>,
    key: &MetaKey,
) -> (
    (Publisher<J, H>, Result<Revision<J>, AllocError>),
    (ReadSeat<J>, Result<Shown, PeekFault>),
)
    requires grows { GrowsBy (with_all J.opening publisher.list) change }
{
    join(
        rt,
        move || publish_one(rt, tail, publisher, change),
        move || look_once(seat, key),
    )
}

fn publish_one<J: Naming, H: Wait + Drop, R: Wait>(
    rt: &R,
    tail: &Tail<J>,
    mut publisher: Publisher<J, H>,
    change: Published,
) -> (Publisher<J, H>, Result<Revision<J>, AllocError>)
    requires { GrowsBy (with_all J.opening publisher.list) change }
{
    let revision = publisher.publish(rt, tail, change);
    (publisher, revision)
}

fn look_once<J: Naming>(
    mut seat: ReadSeat<J>,
    key: &MetaKey,
) -> (ReadSeat<J>, Result<Shown, PeekFault>) {
    let found = seat.peek(key);
    (seat, found)
}
