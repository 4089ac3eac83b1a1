//! Restarts.

ghost use Rattle.std.specs.Prelude.{◌≡◌, ◌<◌, ◌≤◌, length, IfOk, IfErr, OnOk};
ghost use Rattle.restart_images.specs.Keeping.{most_incarnation};
ghost use Rattle.world_core.specs.Outcome.{Outcome};
ghost use Rattle.world_core.specs.Refusal.{RefusesEvent, node_at};
ghost use Rattle.world_core.specs.declared.event.Event.TheVariants.{Restart};

use crate::answer::Answer;
use crate::fault::WorldFault;
use crate::world::World;
use meta_types::NodeId;

impl World {
    /// Restarts a node from its image of that number: its next life begins.
    pub(crate) fn restart(&mut self, node: u64, image: u64) -> Result<Answer, WorldFault>
        ensures { Outcome self.old (Restart node image) result self.new }
    {
        let id = self.node_id(node)?;
        let number = self.image_number(id, image)?;
        self.chronicle.reserve()?;
        self.nodes[usize::from(id.number())].restart(number)?;
        Ok(self.chronicle.accept_restart(node, image))
    }

    /// Returns the number, as a `usize`, of the image that a node restarts from. Refused with 46
    /// `NoSuchImage`, and with 35 `IncarnationSpent`.
    fn image_number(&self, node: NodeId, image: u64) -> Result<usize, WorldFault>
        requires { node < length self.now.nodes }
        ensures value { IfOk result (λ number. (number ≡ image)
            × (image ≤ length (node_at self.now node).images)) }
        ensures left { OnOk result
            ((node_at self.now node).state.incarnation < most_incarnation) }
        ensures fault { IfErr result (RefusesEvent self.now (Restart node image)) }
    {
        let there = &self.nodes[usize::from(node.number())];
        if (there.images().len() as u64) < image {
            return Err(WorldFault::NoSuchImage);
        }
        if there.state().incarnation() == u32::MAX {
            return Err(WorldFault::IncarnationSpent);
        }
        Ok(usize::try_from(image).unwrap())
    }
}
