//! The event of a world that an entry is.

ghost use Rattle.std.specs.Prelude.{◌≡◌, ◌<◌, length, Some, IfOk, IsSome};
ghost use Rattle.node_events.specs.declared.event.NodeEvent.TheVariants.{Take, Write};
ghost use Rattle.node_journal.specs.Closed.{NamesBelow};
ghost use Rattle.run_record.specs.Order.{IsGivenBy};
ghost use Rattle.world_core.specs.Numbers.{numbered};
ghost use Rattle.run_record.specs.Replay.{IsEventOf, IsReplay, mark_at};

use crate::Giver;
use crate::replay::{Mark, Replay};
use meta_store::Context;
use meta_types::{ByteString, MetaKey, Value};
use node_events::NodeEvent;
use node_journal::Closed;
use std::alloc::AllocError;
use world_core::Event;

/// Returns the mark of an entry that was made.
fn mark_of(marks: &[Vec<Mark>], giver: Giver) -> Mark
    requires { IsSome (mark_at marks.now giver.node giver.place) }
    ensures { mark_at marks.now giver.node giver.place ≡ Some result }
{
    marks[giver.node][giver.place]
}

impl Replay {
    /// Returns the event of the node that is its next step.
    pub(crate) fn event_of(
        &self,
        closed: &[Closed],
        node: usize,
        step: &NodeEvent,
        giver: Option<Giver>,
    ) -> Result<Event, AllocError>
        requires replay { IsReplay closed.now self.now }
        requires node { node < length closed.now }
        requires named { NamesBelow (length closed.now) step.now }
        requires given { IsGivenBy closed.now self.now.next.items step.now giver }
        ensures { IfOk result (IsEventOf self.now.world node step.now) }
    {
        let node = node as u64;
        match step {
            NodeEvent::Write {
                key,
                value,
                context: Some(context),
            } => Ok(Event::Put {
                node,
                key: key.copy()?,
                value: value.copy()?,
                read: self.read_of(closed, key, value, context, giver),
            }),
            NodeEvent::Take { frame, word } => Ok(Event::Deliver {
                frame: self.frame_of(closed, frame, *word, giver),
                node,
                word: *word,
            }),
            step => Ok(Event::Step {
                node,
                event: step.copy()?,
            }),
        }
    }

    /// Returns the number of the read whose context a write has.
    fn read_of(
        &self,
        closed: &[Closed],
        key: &MetaKey,
        value: &Value,
        context: &Context,
        giver: Option<Giver>,
    ) -> u64
        requires replay { IsReplay closed.now self.now }
        requires given { IsGivenBy closed.now self.now.next.items
            (Write key.now value.now (Some context.now)) giver }
        ensures { numbered self.now.world.contexts result ≡ Some context.now }
    {
        match giver {
            Some(giver) => mark_of(self.marks.as_slice(), giver).read.unwrap(),
            None => unreachable!(),
        }
    }

    /// Returns the number of the frame that is taken.
    fn frame_of(
        &self,
        closed: &[Closed],
        frame: &ByteString,
        word: u64,
        giver: Option<Giver>,
    ) -> u64
        requires replay { IsReplay closed.now self.now }
        requires given { IsGivenBy closed.now self.now.next.items (Take frame.now word) giver }
        ensures { numbered self.now.world.frames result ≡ Some frame.now }
    {
        // (for its type)
        let _ = self.world.frame_count();
        match giver {
            Some(giver) => mark_of(self.marks.as_slice(), giver).first + giver.at as u64,
            None => unreachable!(),
        }
    }
}
