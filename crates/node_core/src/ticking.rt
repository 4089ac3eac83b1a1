//! Ticks.

ghost use Rattle.node_core.specs.Rows.{Local};
ghost use Rattle.node_events.specs.declared.event.NodeEvent.TheVariants.{Tick};
ghost use Rattle.node_core.specs.Handling.{Attempts};

use crate::attempt::{Attempt, End};
use crate::state::NodeState;
use node_events::{Reply, StepFault};

impl NodeState {
    /// Makes a tick: announcements go out, what is overdue is asked for, and each tenth tick
    /// shuffles.
    pub(crate) fn tick(&self, word: u64) -> Result<Attempt, StepFault>
        ensures { Attempts self.now (Local (Tick word)) result self.now }
    {
        // (for its type)
        let _ = self.overlay.views();
        let ticks = self.ticks.saturating_add(1);
        let (alloc, number) = (self.alloc, self.frames);
        let (pending, outbox) = self.overlay.on_tick(alloc, number, ticks, word)?;
        Ok(Attempt {
            reply: Reply::Done,
            outbox,
            end: End::Tick(pending),
        })
    }
}
