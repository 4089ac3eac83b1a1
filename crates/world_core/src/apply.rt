//! Events applied to a world.

ghost use Rattle.std.specs.Prelude.{IfOk, OnErr, ◌≡◌};
ghost use Rattle.world_core.specs.Outcome.{Outcome, Outcomes, Passes};

use crate::answer::Answer;
use crate::event::Event;
use crate::fault::WorldFault;
use crate::world::World;
use std::alloc::{AllocError, Global};

impl World {
    /// Applies an event, which then stands with its answer in `accepted`, or refuses it and changes
    /// nothing.
    ///
    /// Refused in this order: 44 `NoSuchNode` (of any node that it names), 42 `NoSuchFrame`, 43
    /// `NoSuchRead`, 46 `NoSuchImage`, 35 `IncarnationSpent`, 45 `LooksLikeFrame`; then as
    /// `NodeState::step` is, except 21 `BadEntries`: 3 `BadNode`, 10 to 16 of junk, 40
    /// `NotAddressed`, 20 and 25 to 27 of the store, 28 `BadWatch`, 29 `NoSuchWatch`. 99 `Memory`
    /// may stand in place of any.
    pub fn apply(&mut self, event: Event) -> Result<Answer, WorldFault>
        ensures { Passes self.old event result self.new }
    {
        // (for its type)
        let _ = self.nodes.len();
        let outcome = self.act(event);
        let _ = self.nodes.len();
        outcome
    }

    /// Applies the events one after the other, and goes on after refusals. Returns one outcome for
    /// each. Fails only when there is no memory for the outcomes, and then nothing is applied.
    pub fn run(
        &mut self,
        alloc: Global,
        events: &[Event],
    ) -> Result<Vec<Result<Answer, WorldFault>>, AllocError>
        ensures outcomes { IfOk result
            (λ outcomes. Outcomes self.old events.now outcomes.items self.new) }
        ensures same { OnErr result (self.new ≡ self.old) }
    {
        let mut outcomes = Vec::with_capacity(alloc, events.len())?;
        for event in events {
            outcomes.push(self.apply_copy(event)).unwrap();
        }
        Ok(outcomes)
    }

    /// Applies a copy of an event.
    fn apply_copy(&mut self, event: &Event) -> Result<Answer, WorldFault>
        ensures { Passes self.old event.now result self.new }
    {
        // (for its type)
        let _ = self.nodes.len();
        match event.copy() {
            Ok(event) => self.apply(event),
            Err(_) => Err(WorldFault::Memory),
        }
    }

    /// Applies an event, or refuses it.
    fn act(&mut self, event: Event) -> Result<Answer, WorldFault>
        ensures { Outcome self.old event result self.new }
    {
        match event {
            Event::Restart { node, image } => self.restart(node, image),
            event => self.step(event),
        }
    }
}
