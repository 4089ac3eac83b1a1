ghost use Rattle.std.specs.Prelude.{◌≡◌, nat_eq};
ghost use Rattle.std.specs.Ordering.{nat_cmp, as_partial_cmp};
ghost use Rattle.std.specs.Cmp.{partial_order_from_own_ties};
ghost use Rattle.std.specs.Cmp.Rules.{comparing};
ghost use Rattle.std.proofs.Common.{rules};
ghost use Rattle.meta_types.specs.Actor.{writer_number, node_of_writer, incarnation_of_writer, IsWriter};

use crate::node::NodeId;
use std::cmp::Ordering;
use std::marker::Model;

/// How many incarnation numbers a node has.
pub const INCARNATIONS: u64 = 4_294_967_296;

/// A writer: a node in one of its lives. A node has a new incarnation in each life, so what it
/// writes after a restart is counted apart from what it wrote before.
///
/// Actors are ordered by node, then by incarnation. An actor's incarnation may be any number of 32
/// bits; a node's first life has 1, and 0 stands for writers from before there were incarnations.
#[derive(Clone, Copy, Debug)]
pub struct Actor {
    node: NodeId,
    incarnation: u32,
}

impl Model for Actor {
    ghost use Rattle.std.specs.Prelude.{ℕ, ◌<◌, ◌^◌};
    ghost use Rattle.meta_types.specs.Actor.{writer_number, node_of_writer, incarnation_of_writer};

    ghost Value = { ℕ };

    ghost view = { λ a. writer_number a.node a.incarnation };

    ghost invariant = { λ a. a.incarnation < 2 ^ 32 };

    ghost inverse = { λ w.
        record { node = node_of_writer w; incarnation = incarnation_of_writer w } };
}

impl Actor {
    pub fn new(node: NodeId, incarnation: u32) -> Self
        ensures { result ≡ writer_number node incarnation }
    {
        Actor { node, incarnation }
    }

    pub fn node(self) -> NodeId
        ensures value { result ≡ node_of_writer self }
        ensures in_range { IsWriter self }
    {
        self.node
    }

    pub fn incarnation(self) -> u32
        ensures { result ≡ incarnation_of_writer self }
    {
        self.incarnation
    }

    /// Returns the node and the incarnation as one number, which keeps the order of actors.
    pub fn number(self) -> u64
        ensures value { result ≡ self }
        ensures in_range { IsWriter self }
    {
        self.node.number() as u64 * INCARNATIONS + self.incarnation as u64
    }
}

impl PartialEq for Actor {
    ghost eq = { nat_eq };

    ghost laws = { Prim.search (comparing, rules) };

    fn eq(&self, other: &Actor) -> bool {
        self.number() == other.number()
    }
}

impl Eq for Actor {
    ghost laws = { Prim.search (comparing, rules) };
}

impl Ord for Actor {
    ghost cmp = { nat_cmp };

    ghost total = { Prim.search (comparing, rules) };

    ghost matches_partial_cmp = { Prim.search (comparing, rules) };

    ghost matches_eq = { Prim.search (comparing, rules) };

    fn cmp(&self, other: &Actor) -> Ordering {
        self.number().cmp(&other.number())
    }
}

impl PartialOrd for Actor {
    ghost partial_cmp = { as_partial_cmp nat_cmp };

    ghost laws = { partial_order_from_own_ties (Prim.search (comparing, rules))
        (Prim.search (comparing, rules)) };

    fn partial_cmp(&self, other: &Actor) -> Option<Ordering> {
        Some(self.cmp(other))
    }
}
