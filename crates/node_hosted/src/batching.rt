//! A batch of a hosted node: several steps whose records the host stores at once.

ghost use Rattle.node_hosted.specs.Hosting.{BeginsBatch, EndsBatch};

use crate::fault::HostFault;
use crate::node::HostedNode;

impl HostedNode {
    /// Begins a batch. Until it ends `act` makes one step after another, and nothing is handed out;
    /// then the records of all steps are handed out at once, to be stored as one, the reply of the
    /// last step, and the frames of all.
    ///
    /// A step that is refused is left out of the batch, which goes on: whether it ends is up to the
    /// host. Refused with 34 `Stopped`, and with 37 `Pending` if a batch is open, or if not all
    /// that the last step gave was stored and fetched.
    pub fn begin_batch(&mut self) -> Result<(), HostFault>
        ensures { BeginsBatch self.old result self.new }
    {
        if self.is_stopped {
            return Err(HostFault::Stopped);
        }
        if self.in_batch || self.is_pending() {
            return Err(HostFault::Pending);
        }
        self.reply = None;
        self.outbox.clear();
        self.sent = 0;
        self.in_batch = true;
        Ok(())
    }

    /// Ends a batch. What it gave is handed out as after a step. Refused with 34 `Stopped`, and
    /// with 38 `Nothing` if none is open.
    pub fn end_batch(&mut self) -> Result<(), HostFault>
        ensures { EndsBatch self.old result self.new }
    {
        if self.is_stopped {
            return Err(HostFault::Stopped);
        }
        if !self.in_batch {
            return Err(HostFault::Nothing);
        }
        self.in_batch = false;
        Ok(())
    }
}
