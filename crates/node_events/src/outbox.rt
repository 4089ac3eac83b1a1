ghost use Rattle.std.specs.Prelude.{◌≡◌, IfOk};

use meta_types::ByteString;
use std::alloc::{AllocError, Global};
use std::marker::Model;

/// The bytes of frames that are to be sent, in order.
#[derive(Debug, Drop)]
pub struct Outbox {
    frames: Vec<ByteString>,
}

impl Model for Outbox {
    ghost use Rattle.std.specs.Prelude.{ℕ, List};

    ghost Value = { List (List ℕ) };

    ghost view = { λ o. o.frames.items };
}

impl Outbox {
    pub fn new(frames: Vec<ByteString>) -> Self
        ensures { result ≡ frames.items }
    {
        Outbox { frames }
    }

    /// Returns the frames, without taking memory.
    pub fn into_vec(self) -> Vec<ByteString>
        ensures { result.items ≡ self }
    {
        self.frames
    }

    pub fn as_slice(&self) -> &[ByteString]
        ensures { result.now ≡ self.now }
    {
        self.frames.as_slice()
    }

    /// Fails only when memory runs out.
    pub fn copy(&self) -> Result<Self, AllocError>
        ensures { IfOk result (λ copy. copy ≡ self.now) }
    {
        let frames = copy_all(*self.frames.allocator(), self.frames.as_slice())?;
        Ok(Outbox { frames })
    }
}

fn copy_all(alloc: Global, frames: &[ByteString]) -> Result<Vec<ByteString>, AllocError>
    ensures { IfOk result (λ copies. copies.items ≡ frames.now) }
{
    let mut copies = Vec::with_capacity(alloc, frames.len())?;
    for frame in frames {
        copies.push(frame.copy()?)?;
    }
    Ok(copies)
}

impl PartialEq for Outbox {
    ghost use Rattle.std.specs.Prelude.{◌≡◌, ◌↔◌, IsTrue};
    ghost use Rattle.node_events.specs.Equal.{frames_eq, frames_equivalence};
    ghost use Rattle.std.specs.Cmp.{partial_equiv_from_equiv};

    ghost eq = { frames_eq };

    ghost laws = { partial_equiv_from_equiv frames_equivalence };

    fn eq(&self, other: &Outbox) -> bool
        ensures value { result ≡ frames_eq self.now other.now }
        ensures same { IsTrue result ↔ (self.now ≡ other.now) }
    {
        self.frames.as_slice() == other.frames.as_slice()
    }
}

impl Eq for Outbox {
    ghost use Rattle.node_events.specs.Equal.{frames_equivalence};

    ghost laws = { frames_equivalence };
}
