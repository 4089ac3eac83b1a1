//! What lies under a node's lock.

use crate::outlets::Outlets;
use devices::Device;
use node_core::NodeState;
use node_journal::Entry;
use node_readers::Naming;
use std::alloc::Global;
use std::marker::Model;
use std::sync::Wait;
use std::sync::ledger::{Book, Share};

/// How many write seats are out at most.
pub const MAX_SEATS: u64 = 8;

/// A node's state, its journal, its file and what readers are shown, which are moved together.
///
/// A step is attempted. Once the file has what the step stores, and readers are shown what it
/// changed, the attempt is committed, which can't fail; if one of them fails, it is taken back.
#[derive(Drop)]
pub struct Desk<D: Device + Drop, J: Naming, H: Wait + Drop> {
    pub(crate) alloc: Global,
    pub(crate) limit: usize,
    /// The state from which the journal began.
    pub(crate) base: NodeState,
    pub(crate) state: NodeState,
    pub(crate) journal: Vec<Entry>,
    pub(crate) outlets: Outlets<D, J, H>,
    pub(crate) counts: Book<J>,
    /// The share of those seats that aren't out, with what was counted by those that were given up.
    pub(crate) rest: Share<J>,
    /// How many seats are out.
    pub(crate) out: u64,
}

impl<D: Device + Drop, J: Naming, H: Wait + Drop> Model for Desk<D, J, H> {
    ghost use Rattle.std.specs.Prelude.{◌≡◌, ◌≤◌, ◌+◌, true, false, length};
    ghost use Rattle.node_readers.specs.Published.{with_all};
    ghost use Rattle.node_file.specs.File.{file_state};
    ghost use Rattle.node_desk.specs.Desk.{BeganWith, DeskView, IsGoing, IsOfLife, most_seats};
    ghost use Rattle.node_desk.specs.Lasting.{KeepsWrites};
    ghost use Rattle.node_call.specs.Journaled.{IsJournaled};

    ghost Value = { DeskView D };

    ghost view = { λ d. record {
      base = d.base;
      state = d.state;
      journal = d.journal.items;
      list = d.outlets.publisher.list;
      file = d.outlets.file;
      out = d.out;
      given_up = d.rest.amount;
      limit = d.limit;
      stopped = d.outlets.is_stopped;
    } };

    ghost invariant = { λ d. IsJournaled d.base d.state d.journal.items d.outlets.publisher.list
        × BeganWith J.node J.incarnation J.opening d.base
        × IsOfLife J.node J.incarnation d.state
        × (d.counts.total ≡ d.state.steps)
        × (d.base.steps + length d.journal.items ≡ d.state.steps)
        × (d.rest.parts + d.out ≡ J.parts)
        × (with_all J.opening d.outlets.publisher.list ≡ d.state.table)
        × (d.outlets.file.is_served ≡ true)
        × (d.outlets.is_stopped ≡ false
        → IsGoing d.outlets.file.is_stopped d.outlets.publisher.stopped
        (file_state (D.content d.outlets.file.device)).contents.table d.state.table)
        × (d.out ≤ most_seats)
        × KeepsWrites D.may_leave J.node J.incarnation J.opening d.base d.journal.items
        d.outlets.file.device };
}
