ghost use Rattle.std.specs.Prelude.{◌≡◌, IfOk};
ghost use Rattle.world_core.specs.Events.{node_of_event};

use meta_types::{MetaKey, Value};
use node_events::NodeEvent;
use std::alloc::AllocError;

/// What a world is asked to do. Nodes are numbered from 0, frames and reads from 1 over the whole
/// world, and the images of each node from 0, which is the empty one. A word is a random number
/// from outside, for the choices of a step.
#[derive(Debug, Drop, PartialEq, Eq)]
pub enum Event {
    /// The node does what it is asked; a read, and a write over all that is shown, gives a read
    /// number. What only a world hands out is named by its number, in a `Put` or a `Deliver`: a
    /// write with a context and bytes that come here are always refused.
    Step {
        node: u64,
        event: NodeEvent,
    },
    /// The node writes a value, which has read what the read of that number showed.
    Put {
        node: u64,
        key: MetaKey,
        value: Value,
        read: u64,
    },
    /// The node takes the frame of that number.
    Deliver {
        frame: u64,
        node: u64,
        word: u64,
    },
    /// The node begins its next life from its image of that number, which may be any of them.
    Restart {
        node: u64,
        image: u64,
    },
}

impl Event {
    /// Returns the number of the node whose event it is.
    pub fn node(&self) -> u64
        ensures { result ≡ node_of_event self.now }
    {
        match self {
            Event::Step { node, .. }
            | Event::Put { node, .. }
            | Event::Deliver { node, .. }
            | Event::Restart { node, .. } => *node,
        }
    }

    /// Fails only when memory runs out.
    pub fn copy(&self) -> Result<Self, AllocError>
        ensures { IfOk result (λ copy. copy ≡ self.now) }
    {
        Ok(match self {
            Event::Step { node, event } => Event::Step {
                node: *node,
                event: event.copy()?,
            },
            Event::Put {
                node,
                key,
                value,
                read,
            } => Event::Put {
                node: *node,
                key: key.copy()?,
                value: value.copy()?,
                read: *read,
            },
            Event::Deliver { frame, node, word } => Event::Deliver {
                frame: *frame,
                node: *node,
                word: *word,
            },
            Event::Restart { node, image } => Event::Restart {
                node: *node,
                image: *image,
            },
        })
    }
}
