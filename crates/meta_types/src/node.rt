use crate::fault::TypeFault;
use std::marker::Model;

/// The most nodes of a cluster, which are numbered from 0.
pub const MAX_NODES: u16 = 16;

/// The number of a node, 0 to 15, ordered as numbers are.
#[derive(Clone, Copy, Debug, PartialEq, Eq, PartialOrd, Ord, Hash)]
pub struct NodeId {
    number: u16,
}

impl Model for NodeId {
    ghost use Rattle.std.specs.Prelude.{ℕ};
    ghost use Rattle.meta_types.specs.Node.{IsNode};

    ghost Value = { ℕ };

    ghost view = { λ n. n.number };

    ghost invariant = { λ n. IsNode n.number };

    ghost inverse = { λ n. record { number = n } };
}

impl NodeId {
    ghost use Rattle.std.specs.Prelude.{◌≡◌, ◌↔◌, IfOk, IsOk, IfErr};
    ghost use Rattle.meta_types.specs.Node.{IsNode};
    ghost use Rattle.meta_types.specs.declared.fault.TypeFault.TheVariants.{BadNode};

    /// Returns the node of this number. Refused with 3 `BadNode` from 16 on, and only then.
    pub fn new(number: u16) -> Result<Self, TypeFault>
        ensures range { IsOk result ↔ IsNode number }
        ensures value { IfOk result (λ node. node ≡ number) }
        ensures fault { IfErr result (λ fault. fault ≡ BadNode) }
    {
        if number < MAX_NODES {
            Ok(NodeId { number })
        } else {
            Err(TypeFault::BadNode)
        }
    }

    pub fn number(self) -> u16
        ensures value { result ≡ self }
        ensures in_range { IsNode self }
    {
        self.number
    }
}
