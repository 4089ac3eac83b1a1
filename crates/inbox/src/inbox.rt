ghost use Rattle.std.specs.Prelude.{◌≡◌, ◌↔◌, ◌⊎◌, ◌≤◌, List, [], true, IfOk, IfErr, IsErrOf, IfSome, IsNone, MatchResult, OnSome, vec_capacity};
ghost use Rattle.crossbeam_queue.specs.Passes.{view, IsPassOf, ruled_capacity};
ghost use Rattle.meta_types.specs.Failing.{FailsWith};
ghost use Rattle.inbox.specs.Balance.{MayBeLeft};
ghost use Rattle.inbox.specs.Moments.{WasEmpty, WasFull};
ghost use Rattle.inbox.specs.Opening.{IsFresh, IsRoom, IsSenderCount};
ghost use Rattle.inbox.specs.Rule.{taker};
ghost use Rattle.inbox.specs.Views.{with_back, with_put, with_sender, with_taken};
ghost use Rattle.inbox.specs.declared.parcel.Parcel.{Parcel as AParcel};
ghost use Rattle.inbox.specs.declared.fault.InboxFault.TheVariants.{BadLimit, Closed, Full, Memory};

use crate::fault::{InboxFault, NotPut};
use crate::parcel::Parcel;
use crate::pass::{PutPass, TakePass};
use crate::rule::{InOrder, Knowledge, Puts, Sender, Takes};
use crossbeam_queue::{Pass, RuledArrayQueue};
use meta_types::ByteString;
use std::alloc::Global;
use std::marker::Model;
use std::sync::Wait;

/// How many frames an inbox has room for at most.
pub const MAX_ROOM: usize = 1_024;

type Line = RuledArrayQueue<Parcel, Knowledge, InOrder>;

/// A line of frames that threads share by reference, the oldest first.
#[derive(Drop)]
pub struct Inbox {
    queue: Line,
    closed: bool,
}

impl Model for Inbox {
    ghost use Rattle.crossbeam_queue.specs.Passes.{ruled_capacity};
    ghost use Rattle.inbox.specs.Views.{InboxView};

    ghost Value = { InboxView };

    ghost view = { λ a. record {
      line = a.queue.table.shared.table_id;
      room = ruled_capacity a.queue;
      closed = a.closed;
    } };
}

/// A new inbox with its passes; those to put are in the order of the senders, from 0.
#[derive(Drop)]
pub struct Fresh {
    pub inbox: Inbox,
    pub puts: Vec<PutPass>,
    pub takes: TakePass,
}

/// Returns the inbox over the queue, with a pass for each sender. There is room for the passes in
/// `puts`.
#[tactic(auto, using(crate::proofs::Passes::one_pass_more, crate::proofs::Passes::no_passes))]
fn deal(queue: Line, pass: Pass<Parcel, Knowledge>, puts: Vec<PutPass>, senders: usize) -> Fresh
    requires queue { IsPassOf queue pass }
    requires view { view pass ≡ taker 0 [] [] }
    requires puts { (puts.items ≡ []) × (senders ≤ vec_capacity puts) }
    ensures { IsFresh senders (ruled_capacity queue) result }
{
    let inbox = Inbox {
        queue,
        closed: false,
    };
    let mut takes = TakePass { pass };
    let mut puts = puts;
    for from in 0..senders {
        puts.push_reserved(inbox.another(&mut takes, from as u64));
    }
    Fresh { inbox, puts, takes }
}

impl Inbox {
    /// Makes an inbox with room for 1,024 frames. Refused only with 99 `Memory`.
    pub fn new(alloc: Global, senders: usize) -> Result<Fresh, InboxFault>
        requires { IsSenderCount senders }
        ensures fresh { IfOk result (IsFresh senders 1024) }
        ensures refused { IfErr result (λ fault. fault ≡ Memory) }
    {
        Inbox::with_room(alloc, senders, MAX_ROOM)
    }

    /// Makes an inbox with room for `room` frames, of 1 to 16 senders, numbered from 0. Refused
    /// with 55 `BadLimit` if the room isn't 1 to 1,024, and with 99 `Memory`. All memory is taken
    /// here; no later call takes any.
    pub fn with_room(alloc: Global, senders: usize, room: usize) -> Result<Fresh, InboxFault>
        requires { IsSenderCount senders }
        ensures fresh { IfOk result (IsFresh senders room) }
        ensures limit { IsErrOf result BadLimit ↔ ¬ IsRoom room }
        ensures refused { FailsWith Memory (λ fault. fault ≡ BadLimit) result }
    {
        if room < 1 || room > MAX_ROOM {
            return Err(InboxFault::BadLimit);
        }
        let puts = Vec::with_capacity(alloc, senders)?;
        let (queue, pass) = Line::ruled(alloc, room)?;
        Ok(deal(queue, pass, puts, senders))
    }

    /// Returns a pass for the next sender.
    fn another(&self, takes: &mut TakePass, from: u64) -> PutPass
        requires line { takes.old.line ≡ self.now.line }
        requires next { from ≡ takes.old.made }
        ensures takes { takes.new ≡ with_sender takes.old }
        ensures pass { result ≡ record { line = self.now.line; from = from; put = [] } }
    {
        let pass = self.queue.another::<Sender>(&mut takes.pass);
        PutPass { pass, from }
    }

    /// Puts a frame after all others. It may wait for other threads in the midst of a call.
    ///
    /// Refused with 53 `Closed`, and if it isn't closed, with 50 `Full`. The frame comes back.
    pub fn put<R: Wait>(&self, rt: &R, pass: &mut PutPass, frame: ByteString) -> Result<(), NotPut>
        requires { pass.old.line ≡ self.now.line }
        ensures put { MatchResult result (λ _. pass.new ≡ with_put pass.old frame)
            (λ refused. (pass.new ≡ pass.old) × (refused.frame ≡ frame)) }
        ensures closed { IsErrOf result (record { fault = Closed; frame = frame })
            ↔ (self.now.closed ≡ true) }
        ensures full { IfErr result (λ refused. (refused.fault ≡ Closed)
            ⊎ ((refused.fault ≡ Full) × WasFull self.now.room pass.old)) }
    {
        if self.closed {
            return Err(NotPut {
                fault: InboxFault::Closed,
                frame,
            });
        }
        let from = pass.from;
        let parcel = Parcel { from, frame };
        match self.queue.push_as::<Puts, R>(rt, &mut pass.pass, parcel) {
            Ok(()) => Ok(()),
            Err(parcel) => Err(NotPut {
                fault: InboxFault::Full,
                frame: parcel.frame,
            }),
        }
    }

    /// Takes the oldest frame, whether the inbox is closed or not; `None` if there is none. It may
    /// wait for other threads in the midst of a call.
    pub fn take<R: Wait>(&self, rt: &R, pass: &mut TakePass) -> Option<Parcel>
        requires { pass.old.line ≡ self.now.line }
        ensures some { IfSome result (λ parcel. pass.new ≡ with_taken pass.old parcel) }
        ensures left { OnSome result ((left : List AParcel) × MayBeLeft pass.new left) }
        ensures none { IsNone result → (pass.new ≡ pass.old) × WasEmpty pass.old }
    {
        self.queue.pop_as::<Takes, R>(rt, &mut pass.pass)
    }

    /// Takes a sender's pass back; the taker's pass learns from it what was put by it.
    pub fn hand_back(&self, given: PutPass, pass: &mut TakePass)
        requires given { given.line ≡ self.now.line }
        requires pass { pass.old.line ≡ self.now.line }
        ensures back { pass.new ≡ with_back pass.old given }
        ensures left { (left : List AParcel) × MayBeLeft pass.new left }
    {
        let PutPass {
            pass: other,
            from: _,
        } = given;
        self.queue.absorb::<Sender>(&mut pass.pass, other);
        self.queue.learn_as::<Takes>(&mut pass.pass);
    }

    /// Closes the inbox: from here on nothing is put; what is left may still be taken. No other
    /// thread has the inbox then, since `&mut` is required.
    pub fn close(&mut self)
        ensures { self.new ≡ record self.old { closed = true } }
    {
        self.closed = true;
    }
}
