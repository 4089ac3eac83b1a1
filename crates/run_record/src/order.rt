//! The order of all entries.

ghost use Rattle.std.specs.Prelude.{IfOk, IfErr, OnOk};
ghost use Rattle.run_record.specs.Journals.{HaveNodes};
ghost use Rattle.run_record.specs.Order.{IsOrder};
ghost use Rattle.run_record.specs.Refusal.{NoneIsStuck, RefusesOrder};

use crate::giving::Giver;
use crate::hint::Hints;
use crate::order_fault::OrderFault;
use crate::walk::{first_places, heads, next_turn};
use node_journal::Closed;
use std::alloc::Global;

/// A node whose next entry comes now, and the entry that gives what it needs, if it needs
/// something.
#[derive(Clone, Copy, Debug, PartialEq, Eq)]
pub struct Turn {
    pub node: usize,
    pub giver: Option<Giver>,
}

/// Finds an order of all entries in which each comes after one that gives what it needs. It doesn't
/// matter which node goes first if several can: going on takes nothing from another. The hints are
/// those of these journals, so that few entries are searched for.
///
/// Refused with 61 `Stuck` if some entries wait for one another, and with 99 `Memory`. An entry
/// that needs what no entry gives waits too; `find_all_sent` finds it first.
///
/// It takes memory for a turn of each entry. Its time grows with the number of entries if they are
/// those of nodes; entries that were made up are searched for one after the other.
pub(crate) fn find_order(
    alloc: Global,
    closed: &[Closed],
    hints: &Hints,
) -> Result<Vec<Turn>, OrderFault>
    requires { HaveNodes closed.now }
    ensures ok { IfOk result (λ order. IsOrder closed.now order.items) }
    ensures none_stuck { OnOk result (NoneIsStuck closed.now) }
    ensures err { IfErr result (RefusesOrder closed.now) }
{
    let mut next = first_places(alloc, closed)?;
    let mut order: Vec<Turn> = Vec::new(alloc);
    let mut last = 0;
    while let Some(turn) = next_turn(closed, hints, next.as_slice(), last) {
        next[turn.node] += 1;
        last = turn.node;
        order.push(turn)?;
    }
    let places = heads(alloc, closed, next.as_slice())?;
    if places.is_empty() {
        Ok(order)
    } else {
        Err(OrderFault::Stuck { places })
    }
}
