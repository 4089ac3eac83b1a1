ghost use Rattle.plumtree.specs.Lawful.{PeersComeAndGo, SendsToOthers, StayLinks};
ghost use Rattle.plumtree.specs.Savepoint.{AreTakenBack};

/// If each peer stands once, and is either eager or lazy, that holds after each call too; and so it
/// holds in a new broadcast after any calls.
pub fn peers_are_eager_or_lazy()
    ensures { StayLinks }
{}

/// `up` adds its node to the peers, `down` takes it out, and no other call changes who is a peer,
/// in any broadcast where each peer stands once, and is either eager or lazy.
pub fn peers_come_up_and_go_down()
    ensures { PeersComeAndGo }
{}

/// A new broadcast names no node. Let a broadcast and a call name only other nodes, and let a frame
/// be able to spell what the call may announce or wait for. Then all that the call gives out goes
/// to other nodes; what it sends whole is IHAVE, GRAFT or PRUNE, and can be spelled; and the
/// broadcast still names only other nodes.
pub fn what_is_sent_goes_to_others()
    ensures { SendsToOthers }
{}

/// A broadcast that is rolled back to where it stood before a write was broadcast, or a GOSSIP,
/// PRUNE or GRAFT was taken, is as it was.
pub fn calls_are_taken_back()
    ensures { AreTakenBack }
{}
