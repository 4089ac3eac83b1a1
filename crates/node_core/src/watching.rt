//! Events of those who watch a node.

ghost use Rattle.node_core.specs.Rows.{Local};
ghost use Rattle.node_events.specs.declared.event.NodeEvent.TheVariants.{Changes as TakesChanges, Watch};
ghost use Rattle.node_core.specs.Handling.{Attempts};

use crate::attempt::{Attempt, End};
use crate::state::NodeState;
use meta_types::FullPrefix;
use node_events::{Changes, Reply, StepFault};
use subscriptions::HandedOut;

impl NodeState {
    /// Adds a watch of the changes under the prefix.
    pub(crate) fn watch(
        &mut self,
        prefix: &FullPrefix,
        capacity: usize,
    ) -> Result<Attempt, StepFault>
        ensures { Attempts self.old (Local (Watch prefix.now capacity)) result self.new }
    {
        let number = self.watches.add(prefix, capacity)?;
        Ok(Attempt {
            reply: Reply::Watching { number },
            outbox: self.nothing_sent(),
            end: End::Watch,
        })
    }

    /// Hands out what a watch has noted.
    #[tactic(auto, using(crate::proofs::Handing::replied))]
    pub(crate) fn changes(&self, number: u64) -> Result<Attempt, StepFault>
        ensures { Attempts self.now (Local (TakesChanges number)) result self.now }
    {
        let HandedOut { missed, changes } = self.watches.noted_by(number)?;
        let changes = Changes::new(changes);
        Ok(Attempt {
            reply: Reply::Changed { missed, changes },
            outbox: self.nothing_sent(),
            end: End::HandOut(number),
        })
    }
}
