//! What each step at the queue keeps, and what each kind of step does: a pass is handed out, a pass
//! comes back, a frame is put, a frame is taken. No value of these types is made when it runs.

use crate::parcel::Parcel;
use crossbeam_queue::protocol::{Join, Lesson, Outcome, Protocol, Split};
use std::collections::LinkedList;

/// What a pass knows. A sender's has its number and what was put by it; the taker's has what was
/// taken, how many senders were given a pass, and what was put by the passes that came back.
pub struct Knowledge {
    pub sends: bool,
    pub from: u64,
    pub put: LinkedList<Parcel>,
    pub takes: bool,
    pub taken: LinkedList<Parcel>,
    pub made: u64,
    pub back: LinkedList<(u64, LinkedList<Parcel>)>,
}

/// The rule of the queue.
pub struct InOrder;

impl Protocol<Parcel, Knowledge> for InOrder {
    ghost use Rattle.std.specs.Prelude.{[]};
    ghost use Rattle.inbox.specs.Rule.{KeepsOrder, taker};

    ghost holds = { KeepsOrder };

    ghost first = { taker 0 [] [] };
}

/// A pass is handed out to a new sender, or comes back.
pub struct Sender;

impl Split<Knowledge> for Sender {
    ghost use Rattle.std.specs.Prelude.{◌+◌, []};
    ghost use Rattle.inbox.specs.Rule.{taker, sender};

    ghost left = { λ v. taker (v.made + 1) v.taken v.back };

    ghost right = { λ v. sender v.made [] };
}

impl Join<Knowledge> for Sender {
    ghost use Rattle.std.specs.Prelude.{◌++◌, ◌∷◌, []};
    ghost use Rattle.inbox.specs.Rule.{taker, nobody};

    ghost both = { λ v w. taker v.made v.taken (v.back ++ (w.from, w.put) ∷ []) };

    ghost spent = { nobody };
}

/// A frame is put; if it can't be, what its sender put before is still there.
pub struct Puts;

impl Outcome<Parcel, Knowledge> for Puts {
    ghost use Rattle.std.specs.Prelude.{◌≡◌, ◌++◌, ◌∷◌, []};
    ghost use Rattle.inbox.specs.Rule.{sender};

    ghost then = { λ v x w. w ≡ sender v.from (v.put ++ x ∷ []) };
}

impl Lesson<Parcel, Knowledge> for Puts {
    ghost use Rattle.inbox.specs.Moments.{HasPuts};

    ghost fact = { λ v items. HasPuts v.from v.put items };
}

/// A frame is taken, and what is left balances what was taken; if there is none, all that came back
/// has been taken.
pub struct Takes;

impl Outcome<Parcel, Knowledge> for Takes {
    ghost use Rattle.std.specs.Prelude.{◌++◌, ◌∷◌, []};
    ghost use Rattle.inbox.specs.Rule.{LeavesBalanced};

    ghost then = { λ v x w. LeavesBalanced v.made (v.taken ++ x ∷ []) v.back w };
}

impl Lesson<Parcel, Knowledge> for Takes {
    ghost use Rattle.inbox.specs.Balance.{Balances};

    ghost fact = { λ v items. Balances v.made v.taken v.back items };
}
