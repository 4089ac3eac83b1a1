//! Writes.

ghost use Rattle.std.specs.Option.{option_copied};
ghost use Rattle.node_core.specs.Rows.{Local};
ghost use Rattle.node_events.specs.declared.event.NodeEvent.TheVariants.{PutOver};
ghost use Rattle.node_core.specs.Handling.{Attempts, AttemptsWrite};

use crate::attempt::Attempt;
use crate::state::NodeState;
use meta_store::Context;
use meta_types::{MetaKey, Value};
use node_events::{Reply, StepFault};
use node_overlay::Origin;

impl NodeState {
    /// Writes a value, which has read what the context says, or nothing.
    pub(crate) fn write(
        &mut self,
        key: &MetaKey,
        value: &Value,
        context: Option<&Context>,
    ) -> Result<Attempt, StepFault>
        ensures { AttemptsWrite self.old key.now value.now (option_copied context.entry) result
            self.new }
    {
        let store = self.held.store();
        let object = store.preview_put(self.actor(), key, value.copy()?, context)?;
        let news = self.news(key, &object)?;
        let vector = news.vector().copy()?;
        let (end, outbox) = self.change(Origin::Write, object, news)?;
        Ok(Attempt {
            reply: Reply::Wrote { vector },
            outbox,
            end,
        })
    }

    /// Reads the node, and writes at once a value that has read what was shown.
    pub(crate) fn put_over(&mut self, key: &MetaKey, value: &Value) -> Result<Attempt, StepFault>
        ensures { Attempts self.old (Local (PutOver key.now value.now)) result self.new }
    {
        let context = self.held.store().context(key, self.source())?;
        let written = self.write(key, value, Some(&context));
        drop(context);
        written
    }
}
