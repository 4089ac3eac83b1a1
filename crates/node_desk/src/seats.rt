//! Write seats are handed out and given up, and the journal is cut.

ghost use Rattle.std.specs.Prelude.{◌≡◌, ◌+◌, ◌≤◌, ◌⊎◌, [], true, length, Some, None, Err, IfOk, IfErr, OnOk, OnErr};
ghost use Rattle.node_desk.specs.Desk.{KeepsButJournal, KeepsButSeats, refusal_of_seat};
ghost use Rattle.node_call.specs.declared.fault.LockFault.TheVariants.{Memory, Stopped};

use crate::desk::{Desk, MAX_SEATS};
use devices::Device;
use node_call::{LockFault, WriteSeat};
use node_readers::Naming;
use std::mem::replace;
use std::sync::Wait;

impl<D: Device + Drop, J: Naming, H: Wait + Drop> Desk<D, J, H> {
    /// Moves the whole journal into the base, and returns how many entries it had. The state, and
    /// what readers are shown, stay as they are.
    ///
    /// Refused in this order: 34 `Stopped`, 99 `Memory`. It copies the state.
    pub fn cut(&mut self) -> Result<usize, LockFault>
        ensures base { OnOk result (self.new.base ≡ self.old.state) }
        ensures journal { OnOk result (self.new.journal ≡ []) }
        ensures count { IfOk result (λ n. n ≡ length self.old.journal) }
        ensures rest { KeepsButJournal self.old self.new }
        ensures stopped { self.old.stopped ≡ true → result ≡ Err Stopped }
        ensures refused { IfErr result (λ fault. (fault ≡ Memory)
            ⊎ ((fault ≡ Stopped) × (self.old.stopped ≡ true))) }
        ensures same { OnErr result (self.new ≡ self.old) }
    {
        if self.outlets.is_stopped {
            return Err(LockFault::Stopped);
        }
        let state = self.state.copy()?;
        drop(replace(&mut self.base, state));
        let count = self.journal.len();
        self.journal.clear();
        Ok(count)
    }

    /// Hands out one more seat, which has counted nothing. It takes no memory.
    ///
    /// Refused in this order: 52 `NoSeat` if 8 are out, 34 `Stopped`.
    pub fn new_seat(&mut self) -> Result<WriteSeat<J>, LockFault>
        requires { 9 ≤ J.parts }
        ensures seat { IfOk result (λ seat. seat ≡ 0) }
        ensures out { OnOk result (self.new.out ≡ self.old.out + 1) }
        ensures accepted { OnOk result (refusal_of_seat self.old.out self.old.stopped ≡ None) }
        ensures refused { IfErr result (λ fault.
            refusal_of_seat self.old.out self.old.stopped ≡ Some fault) }
        ensures rest { KeepsButSeats self.old self.new × (self.new.given_up ≡ self.old.given_up) }
        ensures same { OnErr result (self.new ≡ self.old) }
    {
        if self.out >= MAX_SEATS {
            return Err(LockFault::NoSeat);
        }
        if self.outlets.is_stopped {
            return Err(LockFault::Stopped);
        }
        let share = self.rest.split_off(1, 0);
        self.out += 1;
        Ok(WriteSeat::of(share))
    }

    /// Gives up the seat for good; what it counted stays counted. A stopped node takes it too.
    pub fn give_up(&mut self, given: WriteSeat<J>)
        ensures given_up { self.new.given_up ≡ self.old.given_up + given }
        ensures out { self.new.out + 1 ≡ self.old.out }
        ensures rest { KeepsButSeats self.old self.new }
    {
        self.rest.merge(given.into_share());
        self.out -= 1;
    }
}
