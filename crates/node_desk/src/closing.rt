//! What is left of a node when it is closed.

ghost use Rattle.std.specs.Prelude.{◌≡◌, ◌≤◌, ◌+◌, ◌↔◌, IsTrue, length, sum_by, All, IfOk, IfErr, OnOk};
ghost use Rattle.node_readers.specs.Published.{with_all};
ghost use Rattle.node_call.specs.Journaled.{IsJournaled};
ghost use Rattle.node_journal.specs.Closed.{EndsWithTable};
ghost use Rattle.node_desk.specs.Closing.{IsWithin, RefusesClosing};
ghost use Rattle.node_desk.specs.Desk.{BeganWith};
ghost use Rattle.node_desk.specs.Lasting.{KeepsWrites};

use crate::desk::Desk;
use crate::outlets::Outlets;
use devices::Device;
use node_call::{LockFault, WriteSeat, merge_all};
use node_journal::Closed;
use node_readers::{Naming, Publisher, ReadSeat};
use std::sync::Wait;

/// A desk that wasn't closed: why, and what was handed in.
#[derive(Drop)]
pub struct NotClosed<D: Device + Drop, J: Naming, H: Wait + Drop> {
    pub fault: LockFault,
    pub desk: Desk<D, J, H>,
    pub seats: Vec<WriteSeat<J>>,
}

impl<D: Device + Drop, J: Naming, H: Wait + Drop> Desk<D, J, H> {
    /// Ends the desk, if all seats that are out are handed in, and returns what is left of the
    /// node, and its file's device. What each of the readers was shown is a beginning of what was
    /// published. It takes no memory, and waits for readers that are inside a `peek`.
    ///
    /// Refused with 54 `SeatsMissing`, and then desk and seats come back. It would be refused with
    /// 34 `Stopped` if a reader was shown more than was published, which no reader is.
    pub fn close(
        self,
        seats: Vec<WriteSeat<J>>,
        readers: &[ReadSeat<J>],
    ) -> Result<(Closed, D), NotClosed<D, J, H>>
        ensures parts { IfOk result (λ r. r.0 ≡ record {
          base = self.base;
          journal = self.journal;
          table = self.state.table;
        }) }
        ensures device { IfOk result (λ r. r.1 ≡ self.file.device) }
        ensures keeps { IfOk result (λ r. KeepsWrites D.may_leave J.node J.incarnation J.opening
            r.0.base r.0.journal r.1) }
        ensures began { IfOk result (λ r. BeganWith J.node J.incarnation J.opening r.0.base) }
        ensures run { IfOk result (λ r. EndsWithTable r.0) }
        ensures journaled { IsJournaled self.base self.state self.journal self.list }
        ensures all { OnOk result (length seats.items ≡ self.out) }
        ensures list { IfOk result (λ r. with_all J.opening self.list ≡ r.0.table) }
        ensures readers { OnOk result (All (IsWithin self.list) readers.now) }
        ensures counts { IfOk result (λ r. r.0.base.steps + length r.0.journal
            ≡ self.given_up + sum_by (λ s. s) seats.items) }
        ensures back { IfErr result (λ not. (not.desk ≡ self) × (not.seats ≡ seats)) }
        ensures refused { IfErr result (λ not.
            RefusesClosing self.out (length seats.items) self.list readers.now not.fault) }
    {
        if seats.len() as u64 > self.out {
            has_no_more_seats(self, seats);
            unreachable!()
        }
        if seats.len() as u64 != self.out {
            return Err(NotClosed {
                fault: LockFault::SeatsMissing,
                desk: self,
                seats,
            });
        }
        if !all_within(&self.outlets.publisher, readers) {
            return Err(NotClosed {
                fault: LockFault::Stopped,
                desk: self,
                seats,
            });
        }
        let Desk {
            base,
            state,
            journal,
            outlets,
            mut counts,
            mut rest,
            ..
        } = self;
        let Outlets {
            file,
            publisher,
            tail,
            ..
        } = outlets;
        drop((publisher, tail));
        merge_all(&mut rest, seats);
        counts.audit(&mut rest);
        drop((counts, rest));
        let table = state.into_store();
        Ok((Closed::from_parts(base, journal, table), file.into_device()))
    }
}

/// Shows that a desk has handed out as many seats as these, or more: all shares of its ledger are
/// no more than the whole.
fn has_no_more_seats<D: Device + Drop, J: Naming, H: Wait + Drop>(
    desk: Desk<D, J, H>,
    seats: Vec<WriteSeat<J>>,
)
    ensures { length seats.items ≤ desk.out }
{
    let Desk { mut rest, .. } = desk;
    merge_all(&mut rest, seats);
}

/// Returns whether what the reader was shown, and what it learnt, are beginnings of the list.
fn is_within<J: Naming, H: Wait + Drop>(publisher: &Publisher<J, H>, seat: &ReadSeat<J>) -> bool
    ensures { IsTrue result ↔ IsWithin publisher.now.list seat.now }
{
    publisher.covers(seat)
}

/// Returns whether `is_within` holds of each reader.
fn all_within<J: Naming, H: Wait + Drop>(
    publisher: &Publisher<J, H>,
    readers: &[ReadSeat<J>],
) -> bool
    ensures { IsTrue result ↔ All (IsWithin publisher.now.list) readers.now }
{
    for seat in readers {
        if !is_within(publisher, seat) {
            return false;
        }
    }
    true
}
