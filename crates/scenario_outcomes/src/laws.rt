//! Laws: each event of a world has an outcome, and each text of a scenario an output. The contract
//! of a function is the law; its body does nothing, or reads.

ghost use Rattle.meta_types.specs.Name.{IsKey};
ghost use Rattle.meta_types.specs.Value.{IsValue};
ghost use Rattle.scenario_outcomes.specs.Lawful.{IsLawfulWorldEvent};
ghost use Rattle.scenario_outcomes.specs.Outcome.{EachEventOfAWorldHasAnOutcome, EachTextHasAnOutput, WorldsStayLawful};

use meta_types::{MetaKey, Value};
use node_outcomes::laws::each_event_is_lawful;
use world_core::Event;

/// Each lawful event of a lawful world has an outcome other than want of memory; and any such
/// events have outcomes one after the other, from a new world on.
pub fn each_event_of_a_world_has_an_outcome()
    ensures { EachEventOfAWorldHasAnOutcome }
{}

/// A new world is lawful, and lawful events leave one, whatever their outcomes are.
pub fn worlds_stay_lawful()
    ensures { WorldsStayLawful }
{}

/// Each event that a world can be asked to do is lawful.
pub fn each_world_event_is_lawful(event: &Event)
    ensures { IsLawfulWorldEvent event.now }
{
    match event {
        Event::Step { event, .. } => each_event_is_lawful(event),
        Event::Put { key, value, .. } => reveal_written(key, value),
        Event::Deliver { .. } | Event::Restart { .. } => {}
    }
}

/// With the results alone, each text has an output, whatever the resolvers choose. It has no other
/// (`scenario::laws::one_output_for_a_text`).
pub fn each_text_has_an_output()
    ensures { EachTextHasAnOutput }
{}

/// Does nothing: it reads what a write brings for the rules that the types keep.
fn reveal_written(key: &MetaKey, value: &Value)
    ensures key { IsKey key.now }
    ensures value { IsValue value.now }
{
    // (for their types)
    let _key = key.key();
    let _stamp = value.stamp();
}
