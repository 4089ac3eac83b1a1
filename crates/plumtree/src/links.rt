//! Peers that change from one list to the other. Neither call takes memory: there has to be room
//! for one more.

ghost use Rattle.std.specs.Prelude.{◌≡◌, ◌<◌};
ghost use Rattle.indexmap.specs.IndexSet.{spare};
ghost use Rattle.peer_lists.specs.Lists.{without};
ghost use Rattle.plumtree.specs.Draft.{gained};
ghost use Rattle.plumtree.specs.Lawful.{AreLinks};

use indexmap::IndexSet;
use meta_types::NodeId;

/// Makes a lazy peer eager: it goes last among the eager ones.
pub(crate) fn become_eager(node: NodeId, eager: &mut IndexSet<NodeId>, lazy: &mut IndexSet<NodeId>)
    requires room { 0 < spare eager.old }
    ensures eager { eager.new.keys ≡ gained node lazy.old.keys eager.old.keys }
    ensures lazy { lazy.new.keys ≡ without node lazy.old.keys }
    ensures links { AreLinks eager.old.keys lazy.old.keys
        → AreLinks eager.new.keys lazy.new.keys }
{
    change_list(node, lazy, eager);
}

/// Makes an eager peer lazy: it goes last among the lazy ones.
pub(crate) fn become_lazy(node: NodeId, eager: &mut IndexSet<NodeId>, lazy: &mut IndexSet<NodeId>)
    requires room { 0 < spare lazy.old }
    ensures eager { eager.new.keys ≡ without node eager.old.keys }
    ensures lazy { lazy.new.keys ≡ gained node eager.old.keys lazy.old.keys }
    ensures links { AreLinks eager.old.keys lazy.old.keys
        → AreLinks eager.new.keys lazy.new.keys }
{
    change_list(node, eager, lazy);
}

/// Moves a member of one list to the end of the other.
fn change_list(node: NodeId, from: &mut IndexSet<NodeId>, to: &mut IndexSet<NodeId>)
    requires room { 0 < spare to.old }
    ensures left { from.new.keys ≡ without node from.old.keys }
    ensures gained { to.new.keys ≡ gained node from.old.keys to.old.keys }
{
    if from.shift_remove(&node) {
        to.insert(node).unwrap();
    }
}
