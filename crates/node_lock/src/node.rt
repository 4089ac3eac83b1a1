//! A desk under a lock, which threads share.

ghost use Rattle.std.specs.Prelude.{◌≡◌, ◌<◌, ◌≤◌, ◌⊎◌, ◌+◌, ℕ, None, length, sum_by, MatchResult, IsErr, IfOk, IfErr, OnOk};
ghost use Rattle.node_events.specs.declared.event.NodeEvent.TheVariants.{Read, Write, PutOver, Take, Tick, Join, PeerDown, Exchange, Keep, Watch, Changes, Hello, Leave};
ghost use Rattle.node_call.specs.declared.fault.LockFault.TheVariants.{Memory, NoSeat, Stopped};
ghost use Rattle.node_file.specs.Batch.{most_batch};
ghost use Rattle.node_journal.specs.Closed.{EndsWithTable};
ghost use Rattle.node_desk.specs.Desk.{BeganWith};
ghost use Rattle.node_desk.specs.Lasting.{KeepsWrites};
ghost use Rattle.node_desk.specs.Starting.{AreNewReaders, AreNewWriters, IsFileOf, RefusesStarting, refusal_of_start};
ghost use Rattle.node_lock.specs.Call.{AnswersBatch, AnswersCall, CanRefuseClosing, Counts, EndsList, RefusesBatchCall, RefusesCall};

use devices::Device;
use meta_store::{Context, Store};
use meta_types::{ByteString, FullPrefix, MetaKey, NodeId, Value};
use node_call::{Acknowledgement, BatchRefusal, LockFault, WriteSeat};
use node_desk::{Capacity, Desk, NotStarted, Receipts};
use node_events::NodeEvent;
use node_file::NodeFile;
use node_journal::Closed;
use node_readers::{Beginning, Naming, ReadSeat};
use std::alloc::Global;
use std::sync::ledger::Blank;
use std::sync::{Mutex, Wait};

/// A node under its lock. Threads share it by reference; each call except those of readers takes
/// the lock, and may wait for it. What is under the lock is a [`Desk`], whose contracts say what a
/// call does; through a lock only what always holds is known.
#[derive(Drop)]
pub struct Node<D: Device + Drop, J: Naming, H: Wait + Drop> {
    desk: Mutex<Desk<D, J, H>>,
}

/// A node, and the seats that were handed out.
#[derive(Drop)]
pub struct Started<D: Device + Drop, J: Naming, H: Wait + Drop> {
    pub node: Node<D, J, H>,
    pub writers: Vec<WriteSeat<J>>,
    pub readers: Vec<ReadSeat<J>>,
}

/// A node that wasn't closed: why, and what was handed in.
#[derive(Drop)]
pub struct NotClosed<D: Device + Drop, J: Naming, H: Wait + Drop> {
    pub fault: LockFault,
    pub node: Node<D, J, H>,
    pub seats: Vec<WriteSeat<J>>,
}

impl<D: Device + Drop, J: Naming, H: Wait + Drop> Node<D, J, H> {
    fn of(desk: Desk<D, J, H>) -> Self {
        Node {
            desk: Mutex::new(desk),
        }
    }

    /// Takes the lock, and makes the step of the event.
    fn act<R: Wait>(
        &self,
        rt: &R,
        seat: &mut WriteSeat<J>,
        event: NodeEvent,
    ) -> Result<Acknowledgement<J>, LockFault>
        ensures answers { IfOk result (AnswersCall J.node J.incarnation J.opening event) }
        ensures counted { Counts result seat.old seat.new }
        ensures refused { IfErr result (RefusesCall J.node J.incarnation J.opening event) }
    {
        self.desk.lock(rt).act(rt, seat, event)
    }

    /// Writes the value under the key, in place of all that the context has read. Refused as
    /// [`Desk::act`] is.
    pub fn put<R: Wait>(
        &self,
        rt: &R,
        seat: &mut WriteSeat<J>,
        key: MetaKey,
        value: Value,
        context: Option<Context>,
    ) -> Result<Acknowledgement<J>, LockFault>
        ensures answers { IfOk result
            (AnswersCall J.node J.incarnation J.opening (Write key value context)) }
        ensures counted { Counts result seat.old seat.new }
        ensures refused { IfErr result
            (RefusesCall J.node J.incarnation J.opening (Write key value context)) }
    {
        self.act(
            rt,
            seat,
            NodeEvent::Write {
                key,
                value,
                context,
            },
        )
    }

    /// Reads the key, by a step of the node: its reply has the values and the context for a later
    /// write. Refused as [`Desk::act`] is.
    pub fn get<R: Wait>(
        &self,
        rt: &R,
        seat: &mut WriteSeat<J>,
        key: MetaKey,
    ) -> Result<Acknowledgement<J>, LockFault>
        ensures answers { IfOk result (AnswersCall J.node J.incarnation J.opening (Read key)) }
        ensures counted { Counts result seat.old seat.new }
        ensures refused { IfErr result (RefusesCall J.node J.incarnation J.opening (Read key)) }
    {
        self.act(rt, seat, NodeEvent::Read { key })
    }

    /// Writes the value in place of all that the node holds under the key. Refused as [`Desk::act`]
    /// is.
    pub fn put_over<R: Wait>(
        &self,
        rt: &R,
        seat: &mut WriteSeat<J>,
        key: MetaKey,
        value: Value,
    ) -> Result<Acknowledgement<J>, LockFault>
        ensures answers { IfOk result
            (AnswersCall J.node J.incarnation J.opening (PutOver key value)) }
        ensures counted { Counts result seat.old seat.new }
        ensures refused { IfErr result
            (RefusesCall J.node J.incarnation J.opening (PutOver key value)) }
    {
        self.act(rt, seat, NodeEvent::PutOver { key, value })
    }

    /// Makes all these writes, one after another, or none: their records come into the file by one
    /// append, and readers are shown all that they changed at once. So one pair of syncs stores
    /// them all. Refused as [`Desk::act_all`] is.
    pub fn write_all<R: Wait>(
        &self,
        rt: &R,
        seat: &mut WriteSeat<J>,
        writes: Vec<node_call::Write>,
    ) -> Result<Receipts<J>, BatchRefusal>
        ensures answers { IfOk result (λ r. AnswersBatch J.node J.incarnation J.opening
            writes.items r.receipts.items r.revision) }
        ensures counted { MatchResult result
            (λ r. seat.new ≡ seat.old + length r.receipts.items) (λ _. seat.new ≡ seat.old) }
        ensures many { most_batch < length writes.items → IsErr result }
        ensures refused { IfErr result
            (RefusesBatchCall J.node J.incarnation J.opening writes.items) }
    {
        self.desk.lock(rt).act_all(rt, seat, writes)
    }

    /// Takes a frame. Refused as [`Desk::act`] is.
    pub fn take<R: Wait>(
        &self,
        rt: &R,
        seat: &mut WriteSeat<J>,
        frame: ByteString,
        word: u64,
    ) -> Result<Acknowledgement<J>, LockFault>
        ensures answers { IfOk result
            (AnswersCall J.node J.incarnation J.opening (Take frame word)) }
        ensures counted { Counts result seat.old seat.new }
        ensures refused { IfErr result
            (RefusesCall J.node J.incarnation J.opening (Take frame word)) }
    {
        self.act(rt, seat, NodeEvent::Take { frame, word })
    }

    /// Makes a tick. Refused as [`Desk::act`] is.
    pub fn tick<R: Wait>(
        &self,
        rt: &R,
        seat: &mut WriteSeat<J>,
        word: u64,
    ) -> Result<Acknowledgement<J>, LockFault>
        ensures answers { IfOk result (AnswersCall J.node J.incarnation J.opening (Tick word)) }
        ensures counted { Counts result seat.old seat.new }
        ensures refused { IfErr result (RefusesCall J.node J.incarnation J.opening (Tick word)) }
    {
        self.act(rt, seat, NodeEvent::Tick { word })
    }

    /// Joins the cluster through a contact. Refused as [`Desk::act`] is.
    pub fn join<R: Wait>(
        &self,
        rt: &R,
        seat: &mut WriteSeat<J>,
        contact: NodeId,
        word: u64,
    ) -> Result<Acknowledgement<J>, LockFault>
        ensures answers { IfOk result
            (AnswersCall J.node J.incarnation J.opening (Join contact word)) }
        ensures counted { Counts result seat.old seat.new }
        ensures refused { IfErr result
            (RefusesCall J.node J.incarnation J.opening (Join contact word)) }
    {
        self.act(rt, seat, NodeEvent::Join { contact, word })
    }

    /// Takes note that a peer is down. Refused as [`Desk::act`] is.
    pub fn peer_down<R: Wait>(
        &self,
        rt: &R,
        seat: &mut WriteSeat<J>,
        peer: NodeId,
        word: u64,
    ) -> Result<Acknowledgement<J>, LockFault>
        ensures answers { IfOk result
            (AnswersCall J.node J.incarnation J.opening (PeerDown peer word)) }
        ensures counted { Counts result seat.old seat.new }
        ensures refused { IfErr result
            (RefusesCall J.node J.incarnation J.opening (PeerDown peer word)) }
    {
        self.act(rt, seat, NodeEvent::PeerDown { peer, word })
    }

    /// Begins an exchange with a peer. Refused as [`Desk::act`] is.
    pub fn exchange<R: Wait>(
        &self,
        rt: &R,
        seat: &mut WriteSeat<J>,
        peer: NodeId,
    ) -> Result<Acknowledgement<J>, LockFault>
        ensures answers { IfOk result (AnswersCall J.node J.incarnation J.opening (Exchange peer)) }
        ensures counted { Counts result seat.old seat.new }
        ensures refused { IfErr result
            (RefusesCall J.node J.incarnation J.opening (Exchange peer)) }
    {
        self.act(rt, seat, NodeEvent::Exchange { peer })
    }

    /// Stores what is held under the key in the file, once more or for the first time. Refused as
    /// [`Desk::act`] is.
    pub fn keep<R: Wait>(
        &self,
        rt: &R,
        seat: &mut WriteSeat<J>,
        key: MetaKey,
    ) -> Result<Acknowledgement<J>, LockFault>
        ensures answers { IfOk result (AnswersCall J.node J.incarnation J.opening (Keep key)) }
        ensures counted { Counts result seat.old seat.new }
        ensures refused { IfErr result (RefusesCall J.node J.incarnation J.opening (Keep key)) }
    {
        self.act(rt, seat, NodeEvent::Keep { key })
    }

    /// Tells a peer which life this is. Refused as [`Desk::act`] is.
    pub fn hello<R: Wait>(
        &self,
        rt: &R,
        seat: &mut WriteSeat<J>,
        peer: NodeId,
    ) -> Result<Acknowledgement<J>, LockFault>
        ensures answers { IfOk result (AnswersCall J.node J.incarnation J.opening (Hello peer)) }
        ensures counted { Counts result seat.old seat.new }
        ensures refused { IfErr result (RefusesCall J.node J.incarnation J.opening (Hello peer)) }
    {
        self.act(rt, seat, NodeEvent::Hello { peer })
    }

    /// Takes leave of all peers. Refused as [`Desk::act`] is.
    pub fn leave<R: Wait>(
        &self,
        rt: &R,
        seat: &mut WriteSeat<J>,
    ) -> Result<Acknowledgement<J>, LockFault>
        ensures answers { IfOk result (AnswersCall J.node J.incarnation J.opening (Leave)) }
        ensures counted { Counts result seat.old seat.new }
        ensures refused { IfErr result (RefusesCall J.node J.incarnation J.opening (Leave)) }
    {
        self.act(rt, seat, NodeEvent::Leave)
    }

    /// Watches the keys under a prefix: the last changes, `capacity` at most. Refused as
    /// [`Desk::act`] is.
    pub fn watch<R: Wait>(
        &self,
        rt: &R,
        seat: &mut WriteSeat<J>,
        prefix: FullPrefix,
        capacity: usize,
    ) -> Result<Acknowledgement<J>, LockFault>
        ensures answers { IfOk result
            (AnswersCall J.node J.incarnation J.opening (Watch prefix capacity)) }
        ensures counted { Counts result seat.old seat.new }
        ensures refused { IfErr result
            (RefusesCall J.node J.incarnation J.opening (Watch prefix capacity)) }
    {
        self.act(rt, seat, NodeEvent::Watch { prefix, capacity })
    }

    /// Takes what a watch has noted. Refused as [`Desk::act`] is.
    pub fn changes<R: Wait>(
        &self,
        rt: &R,
        seat: &mut WriteSeat<J>,
        number: u64,
    ) -> Result<Acknowledgement<J>, LockFault>
        ensures answers { IfOk result
            (AnswersCall J.node J.incarnation J.opening (Changes number)) }
        ensures counted { Counts result seat.old seat.new }
        ensures refused { IfErr result
            (RefusesCall J.node J.incarnation J.opening (Changes number)) }
    {
        self.act(rt, seat, NodeEvent::Changes { number })
    }

    /// Moves the whole journal into the base, and returns how many entries it had. Whoever has a
    /// seat may cut. Refused as `Desk::cut` is: 34 `Stopped`, 99 `Memory`.
    pub fn cut<R: Wait>(&self, rt: &R, _seat: &WriteSeat<J>) -> Result<usize, LockFault>
        ensures refused { IfErr result (λ fault. (fault ≡ Memory) ⊎ (fault ≡ Stopped)) }
    {
        self.desk.lock(rt).cut()
    }

    /// Hands out one more seat. Refused in this order: 52 `NoSeat` if eight are out, 34 `Stopped`.
    pub fn new_seat<R: Wait>(&self, rt: &R) -> Result<WriteSeat<J>, LockFault>
        requires { 9 ≤ J.parts }
        ensures seat { IfOk result (λ seat. seat ≡ 0) }
        ensures refused { IfErr result (λ fault. (fault ≡ NoSeat) ⊎ (fault ≡ Stopped)) }
    {
        self.desk.lock(rt).new_seat()
    }

    /// Gives up the seat for good; what it counted stays counted. A stopped node takes it too.
    pub fn give_up<R: Wait>(&self, rt: &R, seat: WriteSeat<J>) {
        self.desk.lock(rt).give_up(seat);
    }

    /// Starts a node, as [`Desk::start`] makes a desk. Refused as `Desk::start` is.
    pub fn start(
        handle: H,
        alloc: Global,
        tokens: (Blank, Beginning),
        file: NodeFile<D>,
        table: Store,
        capacity: Capacity,
    ) -> Result<Started<D, J, H>, NotStarted<D>>
        requires ledger { (tokens.0.name ≡ J.name) × (tokens.0.parts ≡ J.parts) }
        requires book { tokens.1 ≡ J.book }
        requires enough { 9 ≤ J.parts }
        requires opening { table ≡ J.opening }
        requires served { IsFileOf D.content J.node J.incarnation table file }
        ensures writers { IfOk result (λ s. AreNewWriters capacity.writers s.writers.items) }
        ensures readers { IfOk result (λ s. AreNewReaders capacity.readers s.readers.items) }
        ensures accepted { OnOk result (refusal_of_start capacity ≡ None) }
        ensures refused { IfErr result (λ not. RefusesStarting capacity not.fault) }
        ensures back { IfErr result (λ not. (not.file ≡ file) × (not.table ≡ table)) }
    {
        match Desk::start(handle, alloc, tokens, file, table, capacity) {
            Ok(started) => Ok(Started {
                node: Node::of(started.desk),
                writers: started.writers,
                readers: started.readers,
            }),
            Err(not) => Err(not),
        }
    }

    /// Ends the node, if all seats that are out are handed in, and returns what is left of it, and
    /// its file's device. It is taken by value, so no other thread has it. It takes no memory, and
    /// waits for readers that are inside a `peek`.
    ///
    /// Refused, and then node and seats come back: 54 `SeatsMissing`; then 34 `Stopped`, if a
    /// reader was shown more than was published, which no reader is.
    pub fn close(
        self,
        seats: Vec<WriteSeat<J>>,
        readers: &[ReadSeat<J>],
    ) -> Result<(Closed, D), NotClosed<D, J, H>>
        ensures keeps { IfOk result (λ r. KeepsWrites D.may_leave J.node J.incarnation J.opening
            r.0.base r.0.journal r.1) }
        ensures began { IfOk result (λ r. BeganWith J.node J.incarnation J.opening r.0.base) }
        ensures run { IfOk result (λ r. EndsWithTable r.0) }
        ensures list { IfOk result (λ r. EndsList J.opening r.0 readers.now) }
        ensures counts { IfOk result (λ r. (given : ℕ) × (r.0.base.steps + length r.0.journal
            ≡ given + sum_by (λ s. s) seats.items)) }
        ensures back { IfErr result (λ not. not.seats ≡ seats) }
        ensures refused { IfErr result
            (λ not. CanRefuseClosing (length seats.items) readers.now not.fault) }
    {
        let Node { desk } = self;
        match desk.into_inner().close(seats, readers) {
            Ok(left) => Ok(left),
            Err(not) => Err(NotClosed {
                fault: not.fault,
                node: Node::of(not.desk),
                seats: not.seats,
            }),
        }
    }
}
