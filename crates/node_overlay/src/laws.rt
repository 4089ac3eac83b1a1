//! Laws of a node. The contract of a function is the law; its body does nothing.

ghost use Rattle.node_overlay.specs.Overlay.{NamesOthersOn, StayPeers};

/// The eager and the lazy peers of the broadcast together are the members of the active view: so it
/// is of a node that knows nobody, and so it stays, whatever the views and the broadcast do.
pub fn peers_are_the_active_view()
    ensures { StayPeers }
{}

/// A node that knows nobody names nobody, and none names itself whatever it hears of other nodes:
/// it is no peer of its own, and all that waits to be sent goes to others.
pub fn a_node_never_names_itself()
    ensures { NamesOthersOn }
{}
