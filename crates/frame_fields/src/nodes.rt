ghost use Rattle.std.specs.Prelude.{◌≡◌, ◌↔◌, IfOk, IsTrue};
ghost use Rattle.frame_fields.specs.Field.{nodes};

use meta_types::NodeId;
use std::alloc::AllocError;
use std::marker::Model;

/// The most node numbers of a list.
const MAX_NUMBERS: usize = 16;

/// Node numbers in any order, repeats too: at most 16.
#[derive(Debug, Drop)]
pub struct Nodes {
    numbers: Vec<NodeId>,
}

impl Model for Nodes {
    ghost use Rattle.std.specs.Prelude.{ℕ, List};
    ghost use Rattle.frame_fields.specs.Field.{nodes};

    ghost Value = { List ℕ };

    ghost view = { λ n. n.numbers.items };

    ghost invariant = { λ n. nodes.Fits n.numbers.items };
}

impl Nodes {
    ghost use Rattle.std.specs.Prelude.{◌≡◌, ◌↔◌, IfOk, IfSome, IsSome};
    ghost use Rattle.frame_fields.specs.Field.{nodes};

    /// Returns the list of these nodes, which must be at most 16.
    pub fn new(numbers: Vec<NodeId>) -> Self
        requires { nodes.Fits numbers.items }
        ensures { result ≡ numbers.items }
    {
        Nodes { numbers }
    }

    /// Returns the list of these nodes, or `None` if they are more than 16, and only then. With
    /// `None`, what was handed in is dropped.
    pub fn from_parts(numbers: Vec<NodeId>) -> Option<Self>
        ensures range { IsSome result ↔ nodes.Fits numbers.items }
        ensures value { IfSome result (λ nodes. nodes ≡ numbers.items) }
    {
        if are_nodes(numbers.as_slice()) {
            Some(Nodes { numbers })
        } else {
            None
        }
    }

    /// Returns the parts, without taking memory.
    pub fn into_vec(self) -> Vec<NodeId>
        ensures { result.items ≡ self }
    {
        self.numbers
    }

    pub fn as_slice(&self) -> &[NodeId]
        ensures value { result.now ≡ self.now }
        ensures lawful { nodes.Fits self.now }
    {
        self.numbers.as_slice()
    }

    pub fn copy(&self) -> Result<Self, AllocError>
        ensures { IfOk result (λ copy. copy ≡ self.now) }
    {
        let numbers = self.numbers.clone()?;
        Ok(Nodes { numbers })
    }
}

/// Returns whether there are at most 16 node numbers. The type of a number keeps what is asked of
/// each; it is asked here so that the contract of the list can say it of all its numbers.
fn are_nodes(numbers: &[NodeId]) -> bool
    ensures { IsTrue result ↔ nodes.Fits numbers.now }
{
    for node in numbers {
        let _ = node.number();
    }
    numbers.len() <= MAX_NUMBERS
}

impl PartialEq for Nodes {
    ghost use Rattle.std.specs.Prelude.{◌≡◌, ◌↔◌, IsTrue};
    ghost use Rattle.std.specs.Cmp.{partial_equiv_from_equiv};
    ghost use Rattle.frame_fields.specs.Equal.{nodes_eq, nodes_equivalence};

    ghost eq = { nodes_eq };

    ghost laws = { partial_equiv_from_equiv nodes_equivalence };

    fn eq(&self, other: &Nodes) -> bool
        ensures value { result ≡ nodes_eq self.now other.now }
        ensures same { IsTrue result ↔ (self.now ≡ other.now) }
    {
        self.numbers.as_slice() == other.numbers.as_slice()
    }
}

impl Eq for Nodes {
    ghost use Rattle.frame_fields.specs.Equal.{nodes_equivalence};

    ghost laws = { nodes_equivalence };
}
