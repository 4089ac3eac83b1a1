//! Laws of what is acknowledged. The contract of a function is the law; its body does nothing.

ghost use Rattle.node_call.specs.Acknowledged.{LearntCallsAreKnown, LearntWritesAreKnown};

/// What a seat that learnt of a write is shown under its key descends what the write was answered.
/// The law joins [`Acknowledgement::receipt`](crate::Acknowledgement::receipt): `tells`,
/// `ReadSeat::learn`: `revision`, and `ReadSeat::peek`: `holds_learnt`, `descends`.
pub fn learnt_writes_are_known()
    ensures { LearntWritesAreKnown }
{}

/// What a seat that learnt of a call is shown under any key descends what the node held there after
/// the call. The law joins `Desk::act`: `makes`, or what a call through the lock answers,
/// `ReadSeat::learn`: `revision`, and `ReadSeat::peek`: `holds_learnt`, `descends`.
pub fn learnt_calls_are_known()
    ensures { LearntCallsAreKnown }
{}
