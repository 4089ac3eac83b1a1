//! A world in which the entries are made again.

ghost use Rattle.std.specs.Prelude.{ℕ, ◌≡◌, ◌<◌, ◌≤◌, length, slice_index, All, IfOk, IfErr, IfSome, IsNone, IsTrue, Some, ◌↔◌, OnOk};
ghost use Rattle.node_journal.specs.Closed.{AreWhole};
ghost use Rattle.run_record.specs.Journals.{entry_at};
ghost use Rattle.run_record.specs.Order.{AreFirst, HasEnded, IsOrderFrom, CanComeNext, with_turn};
ghost use Rattle.world_core.specs.Refusal.{node_at};
ghost use Rattle.world_core.specs.World.{HasLived};
ghost use Rattle.run_record.specs.Replay.{AsTold, IsMarkOf, IsRefusal, IsReplay, RefusesReplay};

use crate::fault::RecordFault;
use crate::{Turn, first_places, journal_of};
use meta_types::ByteString;
use node_core::laws::{
    no_event_has_two_outcomes, only_reads_hand_out_a_context, runs_go_on as node_runs_go_on,
};
use node_events::Reply;
use node_journal::{Closed, Entry};
use std::alloc::{AllocError, Global};
use world_core::laws::runs_go_on;
use world_core::{Answer, World, WorldFault};

/// The world's numbers of what an entry gave: of its first frame, and of its read.
#[derive(Clone, Copy, Debug, PartialEq, Eq)]
pub(crate) struct Mark {
    pub(crate) first: u64,
    pub(crate) read: Option<u64>,
}

/// A world, the place of the next entry of each node, and the marks of those that were made.
#[derive(Drop)]
pub(crate) struct Replay {
    pub(crate) world: World,
    pub(crate) next: Vec<usize>,
    pub(crate) marks: Vec<Vec<Mark>>,
}

/// Returns a row without marks for each node.
fn empty_rows(alloc: Global, count: usize) -> Result<Vec<Vec<Mark>>, AllocError>
    ensures number { IfOk result (λ rows. length rows.items ≡ count) }
    ensures empty { IfOk result (λ rows. All (λ row. length row.items ≡ 0) rows.items) }
{
    let mut rows = Vec::new(alloc);
    for _node in 0..count {
        match rows.push(Vec::new(alloc)) {
            Ok(()) => {}
            Err(_) => return Err(AllocError),
        }
    }
    Ok(rows)
}

/// Does nothing. Its contract says that there are no more nodes than there are numbers of nodes.
fn are_few(closed: &[Closed])
    requires { AreWhole closed.now }
    ensures { length closed.now ≤ 16 }
{
    for one in closed {
        // (for its type)
        let _ = one.node().number();
    }
}

/// Does nothing. Its contract says that the node has lived what the accepted events were to it.
fn has_lived(world: &World, node: usize)
    requires { node < length world.now.nodes }
    ensures { HasLived world.now node (node_at world.now node) }
{
    match world.state(node as u64) {
        Some(_) => {}
        None => unreachable!(),
    }
}

impl Replay {
    /// Makes a world of new nodes, in which no entry is made.
    pub(crate) fn begin(alloc: Global, closed: &[Closed]) -> Result<Replay, RecordFault>
        requires { AreWhole closed.now }
        ensures ok { IfOk result (IsReplay closed.now) }
        ensures first { IfOk result (λ replay. AreFirst closed.now replay.next.items) }
        ensures err { IfErr result (RefusesReplay closed.now) }
    {
        are_few(closed);
        let next = first_places(alloc, closed)?;
        let marks = empty_rows(alloc, closed.len())?;
        match World::new(alloc, closed.len() as u64) {
            Ok(world) => Ok(Replay { world, next, marks }),
            Err(WorldFault::Memory) => Err(RecordFault::Memory),
            Err(_) => unreachable!(),
        }
    }

    /// Returns the next entry of the turn's node.
    fn next_entry<'a>(&self, closed: &'a [Closed], turn: Turn) -> &'a Entry
        requires { CanComeNext closed.now self.now.next.items turn }
        ensures { entry_at closed.now turn.node (slice_index self.now.next.items turn.node)
            ≡ Some result.now }
    {
        let place = self.next[turn.node];
        let journal = journal_of(closed, turn.node);
        &journal[place]
    }

    /// Makes the next entry of the turn's node, which is ready.
    pub(crate) fn make(&mut self, closed: &[Closed], turn: Turn) -> Result<(), RecordFault>
        requires whole { AreWhole closed.now }
        requires replay { IsReplay closed.now self.old }
        requires ready { CanComeNext closed.now self.old.next.items turn }
        ensures ok { OnOk result (IsReplay closed.now self.new) }
        ensures next { OnOk result (self.new.next.items
            ≡ with_turn self.old.next.items turn.node) }
        ensures err { IfErr result (RefusesReplay closed.now) }
    {
        runs_go_on();
        node_runs_go_on();
        no_event_has_two_outcomes();
        only_reads_hand_out_a_context();
        let node = turn.node;
        let entry = self.next_entry(closed, turn);
        let event = self.event_of(closed, node, &entry.event, turn.giver)?;
        has_lived(&self.world, node);
        match self.world.apply(event) {
            Ok(answer) => match told_mark(&self.world, answer, entry)? {
                Some(mark) => {
                    self.marks[node].push(mark)?;
                    self.next[node] += 1;
                    Ok(())
                }
                None => Err(RecordFault::Unequal { node }),
            },
            Err(fault) => Err(refusal(fault, node)),
        }
    }

    /// Makes the entries of all turns.
    pub(crate) fn make_all(&mut self, closed: &[Closed], order: &[Turn]) -> Result<(), RecordFault>
        requires whole { AreWhole closed.now }
        requires replay { IsReplay closed.now self.old }
        requires order { IsOrderFrom closed.now self.old.next.items order.now }
        ensures ok { OnOk result (IsReplay closed.now self.new) }
        ensures ended { OnOk result ((n : ℕ) → HasEnded closed.now self.new.next.items n) }
        ensures err { IfErr result (RefusesReplay closed.now) }
    {
        for turn in order {
            self.make(closed, *turn)?;
        }
        Ok(())
    }

    /// Returns the world in which the entries were made.
    pub(crate) fn into_world(self) -> World
        ensures { result ≡ self.world }
    {
        self.world
    }
}

/// Returns why the next entry of the node can't be made: memory ran out, or it is unequal.
fn refusal(fault: WorldFault, node: usize) -> RecordFault
    ensures { IsRefusal fault node result }
{
    match fault {
        WorldFault::Memory => RecordFault::Memory,
        _ => RecordFault::Unequal { node },
    }
}

/// Returns whether the frames are the same.
fn are_frames(sent: &[ByteString], frames: &[ByteString]) -> bool
    ensures { IsTrue result ↔ (sent.now ≡ frames.now) }
{
    sent == frames
}

fn are_same(one: &Reply, other: &Reply) -> bool
    ensures { IsTrue result ↔ (one.now ≡ other.now) }
{
    one == other
}

/// Returns whether the reply and the frames are those of the entry. Fails only when memory runs
/// out.
fn is_as_told(world: &World, answer: &Answer, entry: &Entry) -> Result<bool, AllocError>
    ensures { IfOk result (λ told. IsTrue told ↔ AsTold world.now answer.now entry.now) }
{
    if !are_same(&answer.reply, &entry.reply) {
        return Ok(false);
    }
    let sent = world.frames_at(answer.sent)?;
    Ok(are_frames(sent.as_slice(), entry.outbox.as_slice()))
}

/// Returns the mark of an entry, if the answer has its reply and frames. Fails only when memory
/// runs out.
fn told_mark(world: &World, answer: Answer, entry: &Entry) -> Result<Option<Mark>, AllocError>
    ensures some { IfOk result (λ mark. IfSome mark
        (λ m. AsTold world.now answer entry.now × IsMarkOf answer m)) }
    ensures none { IfOk result (λ mark. IsNone mark → AsTold world.now answer entry.now → ⊥) }
{
    let told = is_as_told(world, &answer, entry);
    let mark = Mark {
        first: answer.sent.first,
        read: answer.read,
    };
    drop(answer);
    Ok(if told? { Some(mark) } else { None })
}
