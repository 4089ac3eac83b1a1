//! Events that ask what a node holds.

ghost use Rattle.std.specs.Prelude.{◌≡◌, Ok};
ghost use Rattle.node_core.specs.Node.{writer};
ghost use Rattle.node_overlay.specs.Outbox.{count_on};
ghost use Rattle.node_core.specs.Rows.{Local};
ghost use Rattle.node_events.specs.declared.event.NodeEvent.TheVariants.{Keep, Read};
ghost use Rattle.node_core.specs.Handling.{Attempts};

use crate::attempt::{Attempt, End};
use crate::state::NodeState;
use meta_store::Source;
use meta_types::{Actor, MetaKey};
use node_events::{Reply, StepFault, Values};

impl NodeState {
    /// Reads the node: returns what it shows, and a context for a write that has read it.
    pub(crate) fn read(&self, key: &MetaKey) -> Result<Attempt, StepFault>
        ensures { Attempts self.now (Local (Read key.now)) result self.now }
    {
        let (values, context) = self.held.store().look(key, self.source())?;
        let values = Values::new(values);
        Ok(Attempt {
            reply: Reply::Looked { values, context },
            outbox: self.nothing_sent(),
            end: End::Count,
        })
    }

    /// Takes note that what is held under the key is to be stored: nothing changes except the count
    /// of steps.
    pub(crate) fn keep(&self, key: &MetaKey) -> Attempt
        ensures { Attempts self.now (Local (Keep key.now)) (Ok result) self.now }
    {
        let _ = key;
        // (for its type)
        let _ = self.overlay.views();
        Attempt {
            reply: Reply::Done,
            outbox: self.nothing_sent(),
            end: End::Count,
        }
    }

    /// Returns the writer of what the node writes: the node in its life.
    pub fn actor(&self) -> Actor
        ensures { result ≡ writer self.now }
    {
        Actor::new(self.node, self.incarnation)
    }

    /// Returns who reads in the next step.
    pub fn source(&self) -> Source
        ensures { result ≡ record { actor = writer self.now; step = count_on self.now.steps 1 } }
    {
        Source {
            actor: self.actor(),
            step: self.steps.saturating_add(1),
        }
    }
}
