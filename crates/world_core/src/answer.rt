//! What a world answers to an event.

ghost use Rattle.std.specs.Prelude.{◌≡◌, IfOk};

use crate::event::Event;
use node_events::Reply;
use std::alloc::AllocError;

/// The numbers of the frames that an event sent: `count` of them, from `first` on. If none was
/// sent, `first` is the number that the next frame gets.
#[derive(Clone, Copy, Debug, PartialEq, Eq)]
pub struct FrameNumbers {
    pub first: u64,
    pub count: u64,
}

/// What an accepted event gave: the reply of the node, the number of the read, if it was one, and
/// the numbers of the frames sent.
#[derive(Debug, Drop, PartialEq, Eq)]
pub struct Answer {
    pub reply: Reply,
    pub read: Option<u64>,
    pub sent: FrameNumbers,
}

impl Answer {
    /// Fails only when memory runs out.
    pub fn copy(&self) -> Result<Self, AllocError>
        ensures { IfOk result (λ copy. copy ≡ self.now) }
    {
        Ok(Answer {
            reply: self.reply.copy()?,
            read: self.read,
            sent: self.sent,
        })
    }
}

/// An accepted event and its answer.
#[derive(Debug, Drop, PartialEq, Eq)]
pub struct Accepted {
    pub event: Event,
    pub answer: Answer,
}
