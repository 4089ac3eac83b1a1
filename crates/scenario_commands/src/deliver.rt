//! Delivering frames: one of them, or all that were not given.

ghost use Rattle.std.specs.Prelude.{◌≡◌, ◌<◌, ◌≤◌, Some, length, replicate, slice_get, take, true, false, if◌then◌else◌, IfOk, OnOk, OnErr};
ghost use Rattle.meta_frame.specs.Frame.{to_in};
ghost use Rattle.scenario_commands.specs.Coded.{CanBeMarked, Delivers, HandsOnUpTo, HasSent, PrintsOutcome, SettlesOrPasses};
ghost use Rattle.scenario_commands.specs.Meaning.{addressee};
ghost use Rattle.scenario_commands.specs.Obeying.{HandsOn, counts_as_given, changes_no_mark, waiting, with_given, with_new};

use crate::fault::StageFault;
use crate::print::{lacks_memory, print_count, print_outcome};
use crate::stage::Stage;
use node_events::StepFault;
use std::alloc::AllocError;
use world_core::{Answer, Event, WorldFault};

/// The most deliveries of one settling.
const MAX_DELIVERIES: u64 = 100_000;

/// Returns whether a delivery that was refused with this fault leaves the frame's mark as it was:
/// the node isn't there, or the frame isn't, or it is addressed to another node.
fn changes_no_mark(fault: &WorldFault) -> bool
    ensures { result ≡ changes_no_mark fault.now }
{
    matches!(
        fault,
        WorldFault::NoSuchNode | WorldFault::NoSuchFrame | WorldFault::Step(StepFault::NotAddressed)
    )
}

/// Returns whether a frame that was delivered with this outcome was given.
fn counts_as_given(outcome: &Result<Answer, WorldFault>) -> bool
    ensures { result ≡ counts_as_given outcome.now }
{
    match outcome {
        Ok(_) => true,
        Err(fault) => !changes_no_mark(fault),
    }
}

/// Sets the mark of a frame. Marks that are missing before it are added, not set.
fn set_mark(marks: &mut Vec<bool>, frame: usize) -> Result<(), AllocError>
    requires { 1 ≤ frame }
    ensures set { OnOk result
        (marks.new.items ≡ with_given frame (with_new frame marks.old.items)) }
    ensures same { OnErr result (marks.new.items ≡ marks.old.items) }
{
    let len = marks.len().max(frame);
    marks.resize(len, false)?;
    marks[frame - 1] = true;
    Ok(())
}

/// Returns how many marks at the front are set. `known` of them are known to be.
fn count_set(marks: &[bool], known: usize) -> usize
    requires within { known ≤ length marks.now }
    requires set { take known marks.now ≡ replicate known true }
    ensures within { result ≤ length marks.now }
    ensures set { take result marks.now ≡ replicate result true }
    ensures next { result < length marks.now → slice_get marks.now result ≡ Some false }
{
    let mut count = known;
    while count < marks.len() && marks[count] {
        count += 1;
    }
    count
}

/// Returns the addressee that the bytes of a frame name.
fn addressee_in(bytes: &[u8]) -> u64
    requires { 8 ≤ length bytes.now }
    ensures { result ≡ to_in bytes.now }
{
    u64::from(bytes[6]) * 256 + u64::from(bytes[7])
}

impl Stage {
    /// Returns the addressee of the frame of that number, or 0 if there is none. Fails only when
    /// memory runs out.
    fn addressee(&self, frame: u64) -> Result<u64, AllocError>
        ensures { IfOk result (λ node. node ≡ addressee self.now.world frame) }
    {
        match self.world.frame(frame)? {
            Some(bytes) => Ok(addressee_in(bytes.as_slice())),
            None => Ok(0),
        }
    }

    /// Sets the mark of the frame of that number, which is there.
    fn mark(&mut self, frame: u64) -> Result<(), AllocError>
        requires { (1 ≤ frame) × (frame ≤ length self.old.world.frames) }
        ensures world { self.new.world ≡ self.old.world }
        ensures given { OnOk result (self.new.given ≡ with_given frame self.old.given) }
    {
        set_mark(&mut self.given, frame as usize)
    }

    /// Delivers a frame to the node, or to its addressee, and adds what that prints. Sets the
    /// frame's mark, unless the refusal leaves it as it was.
    pub(crate) fn deliver(
        &mut self,
        frame: u64,
        node: Option<u64>,
        word: u64,
        text: &mut Vec<u8>,
    ) -> Result<(), AllocError>
        ensures { OnOk result (Delivers self.old frame node word text.old.items
            text.new.items self.new) }
    {
        let node = match node {
            Some(node) => node,
            None => self.addressee(frame)?,
        };
        let outcome = self.apply(Event::Deliver { frame, node, word });
        let done = self.tell_delivery(frame, &outcome, text);
        drop(outcome);
        done
    }

    /// Adds the outcome of the delivery of a frame. Sets the frame's mark, unless the refusal
    /// leaves it as it was.
    fn tell_delivery(
        &mut self,
        frame: u64,
        outcome: &Result<Answer, WorldFault>,
        text: &mut Vec<u8>,
    ) -> Result<(), AllocError>
        requires sent { HasSent self.old.world outcome.now }
        requires there { CanBeMarked self.old.world frame outcome.now }
        ensures world { self.new.world ≡ self.old.world }
        ensures given { OnOk result (self.new.given ≡ (if counts_as_given outcome.now
            then with_given frame self.old.given else self.old.given)) }
        ensures told { OnOk result (PrintsOutcome self.old.world outcome.now
            text.old.items text.new.items) }
    {
        print_outcome(self.alloc, text, &self.world, outcome)?;
        if counts_as_given(outcome) {
            return self.mark(frame);
        }
        Ok(())
    }

    /// Returns the number of the first frame that was not given, if there is one.
    fn next_waiting(&mut self) -> Option<u64>
        ensures same { self.new ≡ self.old }
        ensures value { result ≡ waiting self.old }
    {
        self.settled = count_set(self.given.as_slice(), self.settled);
        let settled = self.settled as u64;
        if settled < self.world.frame_count() {
            Some(settled + 1)
        } else {
            None
        }
    }

    /// Delivers the first frame that waits to its addressee, with word 0, and sets its mark,
    /// whatever the outcome is. Fails only when memory runs out.
    fn hand_on(&mut self, frame: u64) -> Result<(), AllocError>
        requires { waiting self.old ≡ Some frame }
        ensures { OnOk result (HandsOn self.old frame self.new) }
    {
        let node = self.addressee(frame)?;
        let outcome = self.apply(Event::Deliver {
            frame,
            node,
            word: 0,
        });
        let lacks_memory = lacks_memory(&outcome);
        drop(outcome);
        if lacks_memory {
            return Err(AllocError);
        }
        self.mark(frame)
    }

    /// Delivers the frames that were not given, including those that this sends, in the order of
    /// their numbers, but no more than 100,000. Returns how many were delivered.
    fn hand_on_all(&mut self) -> Result<u64, AllocError>
        ensures { IfOk result (λ delivered. HandsOnUpTo self.old delivered self.new) }
    {
        for delivered in 0..MAX_DELIVERIES {
            match self.next_waiting() {
                Some(frame) => self.hand_on(frame)?,
                None => return Ok(delivered),
            }
        }
        Ok(MAX_DELIVERIES)
    }

    /// Delivers each frame that was not given, and adds how many there were. Ends with 71 `Limit`
    /// if there are more than 100,000.
    pub(crate) fn settle(&mut self, text: &mut Vec<u8>) -> Result<(), StageFault>
        ensures { SettlesOrPasses self.old text.old.items text.new.items self.new result }
    {
        let delivered = self.hand_on_all()?;
        if self.next_waiting().is_some() {
            return Err(StageFault::Limit);
        }
        print_count(text, "delivered ", delivered)?;
        Ok(())
    }
}
