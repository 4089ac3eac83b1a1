//! What a world keeps of what it has accepted.

ghost use Rattle.std.specs.Prelude.{◌≡◌, ◌+◌, ◌≤◌, ◌∷◌, ◌<◌, ◌^◌, ◌++◌, [], None, IfOk, OnOk, get_or, length};
ghost use Rattle.node_events.specs.declared.reply.Reply.TheVariants.{Done};
ghost use Rattle.world_core.specs.Chronicle.{HasRoomForEvent, IsSame, frames_in};
ghost use Rattle.world_core.specs.Outcome.{list_of, read_after};
ghost use Rattle.world_core.specs.Numbers.{frames_at, numbered};
ghost use Rattle.world_core.specs.declared.event.Event.TheVariants.{Restart};

use crate::Frames;
use crate::answer::{Accepted, Answer, FrameNumbers};
use crate::event::Event;
use meta_store::Context;
use meta_types::ByteString;
use node_events::{Outbox, Reply};
use restart_images::ImagedStep;
use std::alloc::{AllocError, Global};
use std::mem::replace;

/// What was accepted and sent, and the contexts of the reads. The frames of the last event stand
/// apart until there is room for them among the others: so what an event needs is known before it,
/// however many frames it sends.
#[derive(Drop)]
pub(crate) struct Chronicle {
    pub(crate) accepted: Vec<Accepted>,
    pub(crate) sent: Frames,
    pub(crate) last: Vec<ByteString>,
    pub(crate) contexts: Vec<Context>,
}

impl Chronicle {
    pub(crate) fn new(alloc: Global) -> Self
        ensures accepted { result.accepted.items ≡ [] }
        ensures frames { frames_in result ≡ [] }
        ensures contexts { result.contexts.items ≡ [] }
    {
        Chronicle {
            accepted: Vec::new(alloc),
            sent: Frames::new(alloc),
            last: Vec::new(alloc),
            contexts: Vec::new(alloc),
        }
    }

    /// Makes room for all that one event may add.
    pub(crate) fn reserve(&mut self) -> Result<(), AllocError>
        ensures same { IsSame self.old self.new }
        ensures room { OnOk result (HasRoomForEvent self.new) }
    {
        self.sent.extend(self.last.as_slice())?;
        self.last.clear();
        self.accepted.reserve(1)?;
        self.contexts.reserve(1)
    }

    /// Returns how many frames were sent.
    pub(crate) fn frame_count(&self) -> u64
        ensures value { result ≡ length (frames_in self.now) }
        ensures few { result + 1 < 2 ^ 64 }
    {
        self.sent.len() as u64 + self.last.len() as u64
    }

    /// Returns a copy of the bytes of the frame of that number, if one has it. Fails only when
    /// memory runs out.
    pub(crate) fn frame(&self, number: u64) -> Result<Option<ByteString>, AllocError>
        ensures { IfOk result (λ bytes. bytes ≡ numbered (frames_in self.now) number) }
    {
        if number == 0 || self.frame_count() < number {
            return Ok(None);
        }
        Ok(Some(self.bytes(number - 1)?))
    }

    /// Returns copies of the bytes of the frames of these numbers, as many as there are. Fails only
    /// when memory runs out.
    pub(crate) fn frames_at(&self, numbers: FrameNumbers) -> Result<Vec<ByteString>, AllocError>
        ensures { IfOk result
            (λ frames. frames.items ≡ frames_at numbers (frames_in self.now)) }
    {
        let first = numbers.first.saturating_sub(1);
        let end = first.saturating_add(numbers.count).min(self.frame_count());
        let mut frames = Vec::new(*self.accepted.allocator());
        for place in first..end {
            frames.push(self.bytes(place)?)?;
        }
        Ok(frames)
    }

    /// Returns a copy of the bytes of the frame at the place.
    fn bytes(&self, place: u64) -> Result<ByteString, AllocError>
        requires { place < length (frames_in self.now) }
        ensures { IfOk result (λ bytes. bytes ≡ get_or (frames_in self.now) place []) }
    {
        let settled = self.sent.len() as u64;
        if place < settled {
            Ok(ByteString::new(self.sent.bytes(place as usize)?))
        } else {
            self.last[(place - settled) as usize].copy()
        }
    }

    /// Adds an event, with what its step gave. There is room for it.
    pub(crate) fn accept(&mut self, event: Event, given: ImagedStep) -> Answer
        requires { HasRoomForEvent self.old }
        ensures accepted { self.new.accepted.items ≡ self.old.accepted.items
            ++ (record {
              event = event;
              answer = record {
                reply = given.reply;
                read = read_after self.old.contexts.items given.context;
                sent = record {
                  first = length (frames_in self.old) + 1;
                  count = length given.outbox;
                };
              };
            }) ∷ [] }
        ensures frames { frames_in self.new ≡ frames_in self.old ++ given.outbox }
        ensures contexts { self.new.contexts.items
            ≡ self.old.contexts.items ++ list_of given.context }
        ensures answer { result ≡ record {
          reply = given.copy;
          read = read_after self.old.contexts.items given.context;
          sent = record {
            first = length (frames_in self.old) + 1;
            count = length given.outbox;
          };
        } }
    {
        let sent = self.send(given.outbox);
        let read = self.look(given.context);
        let answer = Answer {
            reply: given.reply,
            read,
            sent,
        };
        self.accepted.push_reserved(Accepted { event, answer });
        Answer {
            reply: given.copy,
            read,
            sent,
        }
    }

    /// Adds a restart. There is room for it.
    pub(crate) fn accept_restart(&mut self, node: u64, image: u64) -> Answer
        requires { HasRoomForEvent self.old }
        ensures accepted { self.new.accepted.items ≡ self.old.accepted.items
            ++ (record { event = Restart node image; answer = result }) ∷ [] }
        ensures frames { frames_in self.new ≡ frames_in self.old }
        ensures contexts { self.new.contexts.items ≡ self.old.contexts.items }
        ensures answer { result ≡ record {
          reply = Done;
          read = None;
          sent = record { first = length (frames_in self.old) + 1; count = 0 };
        } }
    {
        let sent = FrameNumbers {
            first: self.frame_count() + 1,
            count: 0,
        };
        let accepted = Accepted {
            event: Event::Restart { node, image },
            answer: done(sent),
        };
        self.accepted.push_reserved(accepted);
        done(sent)
    }

    /// Adds the frames of a step. Returns their numbers.
    fn send(&mut self, outbox: Outbox) -> FrameNumbers
        requires { HasRoomForEvent self.old }
        ensures frames { frames_in self.new ≡ frames_in self.old ++ outbox }
        ensures accepted { self.new.accepted ≡ self.old.accepted }
        ensures contexts { self.new.contexts ≡ self.old.contexts }
        ensures numbers { result
            ≡ record { first = length (frames_in self.old) + 1; count = length outbox } }
    {
        let first = self.frame_count() + 1;
        let frames = outbox.into_vec();
        let count = frames.len() as u64;
        drop(replace(&mut self.last, frames));
        FrameNumbers { first, count }
    }

    /// Adds the context of a read, if there is one. Returns the number of the read.
    fn look(&mut self, context: Option<Context>) -> Option<u64>
        requires { self.old.contexts.len + 1 ≤ self.old.contexts.cap }
        ensures contexts { self.new.contexts.items ≡ self.old.contexts.items ++ list_of context }
        ensures accepted { self.new.accepted ≡ self.old.accepted }
        ensures frames { frames_in self.new ≡ frames_in self.old }
        ensures number { result ≡ read_after self.old.contexts.items context }
    {
        let context = context?;
        self.contexts.push_reserved(context);
        Some(self.contexts.len() as u64)
    }
}

/// Returns the answer to a restart.
fn done(sent: FrameNumbers) -> Answer
    ensures { result ≡ record { reply = Done; read = None; sent = sent } }
{
    Answer {
        reply: Reply::Done,
        read: None,
        sent,
    }
}
