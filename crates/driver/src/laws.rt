//! Laws of a driver's tasks and calls. The contract of a function is the law; its body does
//! nothing, or reads what the types of its arguments say.

ghost use Rattle.std.specs.Prelude.{List, ℕ, IfSome};
ghost use Rattle.dvvset.specs.Object.{IsVector};
ghost use Rattle.node_core.specs.Growing.{context_of_write};
ghost use Rattle.driver.specs.Driving.{CallIsLed, ChangesLeadOn, IsOfOneLife, NothingIsPastDue, OnlyMemoryRefuses, OfAsking, OfFailure, OfFrame, OfTime};
ghost use Rattle.driver.specs.Duty.{DownsComeOnce, EachHasItsTurn, ExchangesGoRound, HellosComeFirst, HellosComeOnce, JoinsComeFirst, JoinsGoRound, JoinedCountsAsUp, TasksEnd};

use node_core::laws::each_step_counts;
use node_events::NodeEvent;
use node_hosted::HostedNode;

/// Exchanges are begun with the members in turn, and each tick is followed by one of them.
pub fn exchanges_go_round()
    ensures { ExchangesGoRound }
{}

/// As many exchanges as there are members are with each of them.
pub fn each_member_has_its_turn()
    ensures { EachHasItsTurn }
{}

/// Joins are begun through the members in turn. While neighbours are few a tick is followed by one,
/// before anything else but its hello.
pub fn joins_go_round()
    ensures in_turn { JoinsGoRound }
    ensures first { JoinsComeFirst }
{}

/// A hello is said to a member before the first join through it, and only once.
pub fn hellos_come_first()
    ensures first { HellosComeFirst }
    ensures once { HellosComeOnce }
{}

/// A node is told once that a member is down, until a frame came from that member, or a join
/// through it was begun: then the member is as any other.
pub fn downs_come_once()
    ensures once { DownsComeOnce }
    ensures again { JoinedCountsAsUp }
{}

/// At one time there are few tasks, and one tick at most: a program that is late ticks once.
pub fn tasks_end()
    ensures { TasksEnd }
{}

/// A call changes its plan by tasks that were next, and by what it is made for, so that the laws
/// above hold of calls, one after the other. Nothing is past due once the tasks are done, unless
/// one was refused.
pub fn a_call_does_what_is_next()
    ensures led { CallIsLed }
    ensures on { ChangesLeadOn }
    ensures all { NothingIsPastDue }
{}

/// A task is refused for want of memory alone, unless the node is a member of its own plan.
pub fn only_memory_refuses_tasks()
    ensures { OnlyMemoryRefuses }
{
    each_step_counts();
}

/// A call is a part of the life of its node, so all that is proved of hosted nodes and their files
/// holds under a driver.
pub fn a_call_is_of_one_life(node: &HostedNode, event: &NodeEvent)
    ensures of_time { IsOfOneLife OfTime node.now }
    ensures of_frames { (bytes : List ℕ) → IsOfOneLife (OfFrame bytes) node.now }
    ensures of_failures { (peer : ℕ) → IsOfOneLife (OfFailure peer) node.now }
    ensures of_asking { IsOfOneLife (OfAsking event.now) node.now }
{
    let _keys = node.state().store().len(); // (for its type)
    reveal_context(event);
}

/// What a write has read is a vector.
fn reveal_context(event: &NodeEvent)
    ensures { IfSome (context_of_write event.now) (λ context. IsVector context.vector) }
{
    if let NodeEvent::Write {
        context: Some(context),
        ..
    } = event
    {
        let _counters = context.vector().counters(); // (for its type)
    }
}
