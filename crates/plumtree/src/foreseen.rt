use indexmap::IndexSet;
use meta_types::NodeId;
use std::marker::Model;

/// Who is eager and who is lazy after a call that isn't made yet.
#[derive(Drop)]
pub struct Foreseen {
    pub(crate) eager: IndexSet<NodeId>,
    pub(crate) lazy: IndexSet<NodeId>,
}

impl Model for Foreseen {
    ghost use Rattle.plumtree.specs.Lawful.{AreLinks};
    ghost use Rattle.plumtree.specs.Ticking.{Peers};

    ghost Value = { Peers };

    ghost view = { λ p. record { eager = p.eager.keys; lazy = p.lazy.keys } };

    ghost invariant = { λ p. AreLinks p.eager.keys p.lazy.keys };
}
