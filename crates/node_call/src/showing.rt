//! What an event published is shown to readers.

ghost use Rattle.std.specs.Prelude.{◌≡◌, ◌≢◌, ◌++◌, true, false, None, IfSome, OnOk, OnErr};
ghost use Rattle.node_readers.specs.Published.{with_all};
ghost use Rattle.node_readers.specs.Growth.{GrowsBy};
ghost use Rattle.node_call.specs.Ready.{listed};

use node_readers::{Naming, Published, Publisher, Tail};
use std::alloc::AllocError;
use std::sync::Wait;

/// Adds the change to the list, and shows it to readers.
pub fn publish_change<J: Naming, H: Wait + Drop, R: Wait>(
    rt: &R,
    publisher: &mut Publisher<J, H>,
    tail: &Tail<J>,
    change: Option<Published>,
) -> Result<(), AllocError>
    requires { IfSome change (GrowsBy (with_all J.opening publisher.old.list)) }
    ensures list { OnOk result (publisher.new.list ≡ publisher.old.list ++ listed change) }
    ensures going { OnOk result
        (publisher.old.stopped ≡ false → publisher.new.stopped ≡ false) }
    ensures same { OnErr result (publisher.new.list ≡ publisher.old.list) }
    ensures stopped { OnErr result (publisher.new.stopped ≡ true) }
    ensures some { OnErr result (change ≢ None) }
{
    match change {
        Some(change) => match publisher.publish(rt, tail, change) {
            Ok(_revision) => Ok(()),
            Err(error) => Err(error),
        },
        None => Ok(()),
    }
}
