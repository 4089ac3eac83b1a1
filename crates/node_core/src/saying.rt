//! Events by which a node says one thing to a peer.

ghost use Rattle.std.specs.Prelude.{◌≡◌, None, Some, IfErr, OnOk};
ghost use Rattle.node_core.specs.Rows.{Local};
ghost use Rattle.node_core.specs.Step.{refusal_of_peer};
ghost use Rattle.node_events.specs.declared.event.NodeEvent.TheVariants.{Exchange, Hello};
ghost use Rattle.node_core.specs.Handling.{Attempts};

use crate::attempt::{Attempt, End};
use crate::state::NodeState;
use exchange::start;
use meta_frame::Message;
use meta_types::NodeId;
use node_events::{Reply, StepFault};

impl NodeState {
    /// Begins an exchange with a peer.
    pub(crate) fn exchange(&self, peer: NodeId) -> Result<Attempt, StepFault>
        ensures { Attempts self.now (Local (Exchange peer)) result self.now }
    {
        self.is_another(peer)?;
        let outbox = self.one_frame(peer, start(&self.held))?;
        Ok(Attempt {
            reply: Reply::Done,
            outbox,
            end: End::Count,
        })
    }

    /// Tells a peer which life the node is in.
    pub(crate) fn hello(&self, peer: NodeId) -> Result<Attempt, StepFault>
        ensures { Attempts self.now (Local (Hello peer)) result self.now }
    {
        self.is_another(peer)?;
        let life = self.incarnation;
        let outbox = self.one_frame(peer, Message::Hello { life })?;
        Ok(Attempt {
            reply: Reply::Done,
            outbox,
            end: End::Count,
        })
    }

    /// Refuses the node itself.
    pub(crate) fn is_another(&self, other: NodeId) -> Result<(), StepFault>
        ensures accepted { OnOk result (refusal_of_peer other self.now ≡ None) }
        ensures refused { IfErr result (λ fault. refusal_of_peer other self.now ≡ Some fault) }
    {
        if other == self.node {
            Err(StepFault::BadNode)
        } else {
            Ok(())
        }
    }
}
