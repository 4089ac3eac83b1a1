//! The laws of the outcomes of a node. The contract of a function is the law; its body does
//! nothing, or reads.

ghost use Rattle.std.specs.Prelude.{◌≡◌, ◌<◌, All, IfSome};
ghost use Rattle.std.specs.Option.{option_copied};
ghost use Rattle.dvvset.specs.Object.{IsVector};
ghost use Rattle.meta_types.specs.Name.{IsKey};
ghost use Rattle.meta_types.specs.Node.{IsNode};
ghost use Rattle.meta_types.specs.Value.{IsValue};
ghost use Rattle.node_core.specs.Node.{opening};
ghost use Rattle.node_outcomes.specs.Lawful.{IsLawfulEvent, IsLawfulOpening};
ghost use Rattle.node_outcomes.specs.Outcome.{EachEventHasAnOutcome, NodesStayLawful};

use meta_store::Context;
use meta_types::{MetaKey, NodeId, Value};
use node_core::NodeState;
use node_events::NodeEvent;

/// Each lawful event of a lawful node is accepted, or there is a cause to refuse it other than want
/// of memory: an event never fails to have a step because a frame of it can't be spelled, or is too
/// long.
pub fn each_event_has_an_outcome()
    ensures { EachEventHasAnOutcome }
{}

/// Each life begins with a lawful node, and steps and runs of lawful events leave one.
pub fn nodes_stay_lawful()
    ensures { NodesStayLawful }
{}

/// Each node at the beginning of a life is lawful.
pub fn each_new_life_is_lawful(state: &NodeState)
    ensures { state.now ≡ opening state.now.node state.now.incarnation state.now.table
        → IsLawfulOpening state.now }
{
    // (for its type)
    let _number = state.node().number();
    let _life = state.incarnation();
    let _watches = state.watches();
    let _keys = state.store().len();
}

/// Each event that a node can be handed is lawful.
pub fn each_event_is_lawful(event: &NodeEvent)
    ensures { IsLawfulEvent event.now }
{
    match event {
        NodeEvent::Write {
            key,
            value,
            context,
        } => reveal_write(key, value, context.as_ref()),
        NodeEvent::PutOver { key, value } => reveal_value(key, value),
        NodeEvent::Take { frame, .. } => reveal_bytes(frame.as_slice()),
        NodeEvent::Join { contact, .. } => reveal_node(*contact),
        NodeEvent::PeerDown { peer, .. } => reveal_node(*peer),
        NodeEvent::Exchange { peer } => reveal_node(*peer),
        NodeEvent::Hello { peer } => reveal_node(*peer),
        _ => {}
    }
}

/// Does nothing: it reads what a write brings for the rules that the types keep. So do those below,
/// of what they are handed.
fn reveal_write(key: &MetaKey, value: &Value, context: Option<&Context>)
    ensures key { IsKey key.now }
    ensures value { IsValue value.now }
    ensures context { IfSome (option_copied context.entry) (λ read. IsVector read.vector) }
{
    reveal_value(key, value);
    if let Some(context) = context {
        let _counters = context.vector().counters(); // (for its type)
    }
}

fn reveal_value(key: &MetaKey, value: &Value)
    ensures key { IsKey key.now }
    ensures value { IsValue value.now }
{
    // (for their types)
    let _key = key.key();
    let _stamp = value.stamp();
}

fn reveal_node(node: NodeId)
    ensures { IsNode node }
{
    let _number = node.number(); // (for its type)
}

fn reveal_bytes(bytes: &[u8])
    ensures { All (λ b. b < 256) bytes.now }
{
    let _len = bytes.len(); // (for its type)
}
