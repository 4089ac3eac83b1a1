//! Laws of comparisons. Each function compares, and its contract is the law.

ghost use Rattle.std.specs.Prelude.{◌≡◌, ◌↔◌, IsTrue};
ghost use Rattle.std.specs.Ordering.{nat_cmp};
ghost use Rattle.std.specs.declared.cmp.Ordering.TheVariants.{Less};
ghost use Rattle.meta_types.specs.Actor.{WriterBefore, writer_number};

use crate::actor::Actor;
use crate::fault::TypeFault;
use crate::node::NodeId;
use std::cmp::Ordering;

/// Node numbers are ordered as numbers are.
pub fn nodes_are_ordered_by_number(one: NodeId, other: NodeId) -> Ordering
    ensures { result ≡ nat_cmp one other }
{
    one.cmp(&other)
}

/// Actors are ordered by node, and at one node by incarnation.
pub fn actors_are_ordered_by_node_and_incarnation(first: Actor, second: Actor) -> Ordering
    ensures { (result ≡ Less) ↔ WriterBefore first second }
{
    first.cmp(&second)
}

/// Actors are equal exactly if they are the same.
pub fn equal_actors_are_the_same(first: Actor, second: Actor) -> bool
    ensures { IsTrue result ↔ (first ≡ second) }
{
    first == second
}

/// A writer is the number of its node and incarnation.
pub fn a_writer_is_its_node_and_incarnation(actor: Actor) -> (NodeId, u32)
    ensures { writer_number result.0 result.1 ≡ actor }
{
    (actor.node(), actor.incarnation())
}

/// Faults are equal exactly if they are the same.
pub fn equal_faults_are_the_same(one: &TypeFault, other: &TypeFault) -> bool
    ensures { IsTrue result ↔ (one.now ≡ other.now) }
{
    one == other
}
