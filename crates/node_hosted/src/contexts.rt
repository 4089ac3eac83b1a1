//! Contexts that are kept for the host, each under a number from 1. He passes the number instead of
//! the context, so no context leaves the process.

ghost use Rattle.std.specs.Prelude.{◌≡◌, ◌≢◌, ◌⊎◌, ◌≤◌, ℕ, length, slice_get, None, Some, IfOk, IfErr, OnOk, OnErr};
ghost use Rattle.node_hosted.specs.Hosting.{ForgetsContext, IsLooked, KeepsContext, context_at, kept_at, handed_reply};
ghost use Rattle.node_hosted.specs.declared.fault.HostFault.{HostFault};

use crate::fault::HostFault;
use crate::node::HostedNode;
use meta_store::Context;
use node_events::Reply;
use std::alloc::AllocError;

impl HostedNode {
    /// Keeps the context of the last reply, and returns its number. Refused with 38 `Nothing` if
    /// the last step was no read, or isn't handed out; it may be refused with 99 `Memory`. It takes
    /// memory for a copy.
    pub fn keep_context(&mut self) -> Result<u64, HostFault>
        ensures kept { IfOk result (KeepsContext self.old self.new) }
        ensures refused { IfErr result (λ fault.
            ((fault ≡ HostFault.Memory) × IsLooked (handed_reply self.old))
            ⊎ ((fault ≡ HostFault.Nothing) × (IsLooked (handed_reply self.old) → ⊥))) }
        ensures same { OnErr result (self.new ≡ self.old) }
    {
        let Some(Reply::Looked { context, .. }) = self.reply() else {
            return Err(HostFault::Nothing);
        };
        let copy = context.copy()?;
        let place = free_place(self.contexts.as_slice());
        put_at(&mut self.contexts, place, copy)?;
        Ok(place as u64 + 1)
    }

    /// Returns a copy of the context of a number; none for 0. Refused with 43 `NoSuchRead`.
    pub fn context(&self, number: u64) -> Result<Option<Context>, HostFault>
        ensures value { IfOk result (λ context. context ≡ context_at number self.now) }
        ensures none { OnOk result ((number ≡ 0) ⊎ (context_at number self.now ≢ None)) }
        ensures refused { IfErr result (λ fault.
            ((fault ≡ HostFault.Memory) × (context_at number self.now ≢ None))
            ⊎ ((fault ≡ HostFault.NoSuchRead) × (number ≢ 0)
            × (context_at number self.now ≡ None))) }
    {
        let Some(place) = (number as usize).checked_sub(1) else {
            return Ok(None);
        };
        match self.contexts.get(place) {
            Some(Some(context)) => Ok(Some(context.copy()?)),
            _ => Err(HostFault::NoSuchRead),
        }
    }

    /// Forgets the context of a number, if there is one. A later context may get the same number.
    pub fn forget_context(&mut self, number: u64)
        ensures { ForgetsContext number self.old self.new }
    {
        let Some(place) = (number as usize).checked_sub(1) else {
            return;
        };
        if let Some(context) = self.contexts.get_mut(place) {
            *context = None;
        }
    }
}

/// Returns the first place without a context, or the place after the last.
fn free_place(contexts: &[Option<Context>]) -> usize
    ensures free { kept_at (slice_get contexts.now result) ≡ None }
    ensures within { result ≤ length contexts.now }
{
    for (place, context) in contexts.iter().enumerate() {
        if context.is_none() {
            return place;
        }
    }
    contexts.len()
}

/// Puts a context at a place, which may be the one after the last.
fn put_at(
    contexts: &mut Vec<Option<Context>>,
    place: usize,
    context: Context,
) -> Result<(), AllocError>
    requires within { place ≤ length contexts.old.items }
    ensures kept { OnOk result (slice_get contexts.new.items place ≡ Some (Some context)) }
    ensures others { OnOk result ((k : ℕ) → k ≢ place
        → slice_get contexts.new.items k ≡ slice_get contexts.old.items k) }
    ensures same { OnErr result (contexts.new.items ≡ contexts.old.items) }
{
    match contexts.get_mut(place) {
        Some(free) => *free = Some(context),
        None => contexts.push(Some(context))?,
    }
    Ok(())
}
