//! The repair of siblings.

ghost use Rattle.std.specs.Prelude.{◌≡◌, ◌<◌, length, IfOk, IfErr, OnErr};
ghost use Rattle.node_core.specs.Repair.{CanComeOfRepair, IsRepair, chosen, repair_event};

use crate::state::{NodeState, Stepped};
use meta_types::{MetaKey, Value};
use node_events::{Reply, StepFault};
use resolvers::Resolver;
use std::alloc::AllocError;

impl NodeState {
    /// Repairs the siblings under the key. If there are two or more, the node writes over them the
    /// one that the resolver chooses, as it does with a `PutOver`. Otherwise nothing changes, not
    /// even the count of steps, no frame is sent, and the reply is `Done`. Refused as `step` is of
    /// that `PutOver`.
    pub fn repair(
        &mut self,
        key: &MetaKey,
        resolver: &Box<dyn Resolver>,
    ) -> Result<Stepped, StepFault>
        ensures step { let event = repair_event (choice resolver.now) key.now self.old in
            IfOk result (IsRepair event self.old self.new) }
        ensures refused { let event = repair_event (choice resolver.now) key.now self.old in
            IfErr result (CanComeOfRepair event self.old) }
        ensures same { OnErr result (self.new ≡ self.old) }
    {
        let (siblings, _) = self.held.store().get(key)?;
        match chosen(resolver, siblings.as_slice())? {
            Some(value) => {
                let attempt = self.put_over(key, &value)?;
                Ok(self.commit(attempt))
            }
            None => Ok(Stepped {
                reply: Reply::Done,
                outbox: self.nothing_sent(),
            }),
        }
    }
}

/// Returns the sibling that the resolver chooses, if there are two or more. Fails only when memory
/// runs out.
fn chosen(resolver: &Box<dyn Resolver>, siblings: &[Value]) -> Result<Option<Value>, AllocError>
    ensures { IfOk result (λ value. value ≡ chosen (choice resolver.now) siblings.now) }
{
    if siblings.len() < 2 {
        return Ok(None);
    }
    let place = choice(resolver, siblings);
    Ok(Some(siblings[place].copy()?))
}

/// Returns the place of the sibling that the resolver chooses.
fn choice(resolver: &Box<dyn Resolver>, siblings: &[Value]) -> usize
    requires { 0 < length siblings.now }
    ensures place { result < length siblings.now }
    ensures choice { result ≡ choice resolver.now siblings.now }
{
    resolver.resolve(siblings)
}
