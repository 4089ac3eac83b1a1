//! Which event a command is.

ghost use Rattle.std.specs.Prelude.{◌≡◌, ◌≤◌, None, Some, IfErr, IfOk};
ghost use Rattle.std.specs.Option.{option_map};
ghost use Rattle.meta_types.specs.Failing.{FailsWith};
ghost use Rattle.meta_types.specs.Name.{IsFullPrefix, IsKey};
ghost use Rattle.meta_types.specs.Node.{most_nodes};
ghost use Rattle.meta_types.specs.Value.{IsBody};
ghost use Rattle.node_events.specs.declared.event.NodeEvent.TheVariants as nodes;
ghost use Rattle.world_core.specs.declared.event.Event.TheVariants as events;
ghost use Rattle.world_core.specs.declared.fault.WorldFault.TheVariants.{Memory, NoSuchNode};
ghost use Rattle.scenario_commands.specs.Coded.{IsEventOf, IsEventOfNumbers, RefusesPastAll};
ghost use Rattle.scenario_commands.specs.Meaning.{write_of};
ghost use Rattle.scenario_text.specs.Coded.{bytes_word, command_word, key_word, prefix_word};
ghost use Rattle.scenario_text.specs.Commands.{fault_in};

use meta_types::node::MAX_NODES;
use meta_types::{NodeId, Value};
use node_events::NodeEvent;
use scenario_text::{BytesWord, Command, KeyWord, PrefixWord};
use std::alloc::{AllocError, Global};
use world_core::{Event, WorldFault};

/// Returns the event that a command is, if it is one. Returns none for a delivery too, since the
/// world must be asked for its addressee, and for a `keep` of all keys, which is an event for each.
///
/// Refused with 44 `NoSuchNode` if another node is named by a number of 16 or more, which no node
/// of any world has, and with 99 `Memory`.
pub fn event_of(alloc: Global, command: &Command<'_>) -> Result<Option<Event>, WorldFault>
    requires { fault_in (command_word command.now) ≡ None }
    ensures event { IfOk result (λ event. IsEventOf (command_word command.now) event) }
    ensures fault { FailsWith Memory (RefusesPastAll (command_word command.now)) result }
{
    match command {
        Command::Put {
            node,
            key,
            value,
            stamp,
            read,
        } => Ok(Some(put(alloc, *node, key, Some(value), *stamp, *read)?)),
        Command::Del {
            node,
            key,
            stamp,
            read,
        } => Ok(Some(put(alloc, *node, key, None, *stamp, *read)?)),
        Command::Over {
            node,
            key,
            value,
            stamp,
        } => Ok(Some(over(alloc, *node, key, value, *stamp)?)),
        Command::Read { node, key } => Ok(Some(read(alloc, *node, key)?)),
        Command::Junk { node, bytes } => Ok(Some(junk(alloc, *node, bytes)?)),
        Command::Keep {
            node,
            key: Some(key),
        } => Ok(Some(keep(alloc, *node, key)?)),
        Command::Keep { key: None, .. } => Ok(None),
        Command::Watch {
            node,
            prefix,
            capacity,
        } => Ok(Some(watch(alloc, *node, prefix, *capacity as usize)?)),
        command => event_of_numbers(command),
    }
}

/// Returns the event that a command of numbers alone is, if it is one other than a delivery.
fn event_of_numbers(command: &Command<'_>) -> Result<Option<Event>, WorldFault>
    ensures event { IfOk result (λ event. IsEventOfNumbers (command_word command.now) event) }
    ensures fault { IfErr result (RefusesPastAll (command_word command.now)) }
{
    let (node, event) = match *command {
        Command::Restart { node, image } => return Ok(Some(Event::Restart { node, image })),
        Command::Tick { node, word } => (node, NodeEvent::Tick { word }),
        Command::Leave { node } => (node, NodeEvent::Leave),
        Command::Changes { node, number } => (node, NodeEvent::Changes { number }),
        Command::Join {
            node,
            contact,
            word,
        } => {
            let contact = node_id(contact)?;
            (node, NodeEvent::Join { contact, word })
        }
        Command::Down { node, peer, word } => {
            let peer = node_id(peer)?;
            (node, NodeEvent::PeerDown { peer, word })
        }
        Command::Exchange { node, peer } => {
            let peer = node_id(peer)?;
            (node, NodeEvent::Exchange { peer })
        }
        Command::Hello { node, peer } => {
            let peer = node_id(peer)?;
            (node, NodeEvent::Hello { peer })
        }
        _ => return Ok(None),
    };
    Ok(Some(Event::Step { node, event }))
}

/// Returns the node of a number. Refused if no node of any world has it.
fn node_id(number: u64) -> Result<NodeId, WorldFault>
    ensures value { IfOk result (λ node. node ≡ number) }
    ensures fault { IfErr result (λ fault. (fault ≡ NoSuchNode) × (most_nodes ≤ number)) }
{
    if number >= u64::from(MAX_NODES) {
        return Err(WorldFault::NoSuchNode);
    }
    Ok(NodeId::new(number as u16).unwrap())
}

/// Makes the value of these bytes, or a tombstone.
fn value_of(alloc: Global, bytes: Option<&BytesWord<'_>>, stamp: u64) -> Result<Value, AllocError>
    requires { IsBody (option_map (λ b. bytes_word b.now) bytes) }
    ensures { IfOk result (λ value. value
        ≡ record { stamp = stamp; body = option_map (λ b. bytes_word b.now) bytes.entry }) }
{
    let body = match bytes {
        Some(bytes) => Some(bytes.to_bytes(alloc)?),
        None => None,
    };
    Ok(Value::of(stamp, body))
}

/// Makes a write; of a tombstone if there are no bytes.
fn put(
    alloc: Global,
    node: u64,
    key: &KeyWord<'_>,
    bytes: Option<&BytesWord<'_>>,
    stamp: u64,
    read: Option<u64>,
) -> Result<Event, AllocError>
    requires name { IsKey (key_word key.now) }
    requires value { IsBody (option_map (λ b. bytes_word b.now) bytes) }
    ensures { IfOk result (λ event. event ≡ write_of node (key_word key.now)
        (record { stamp = stamp; body = option_map (λ b. bytes_word b.now) bytes.entry }) read) }
{
    let key = key.to_key(alloc)?;
    let value = value_of(alloc, bytes, stamp)?;
    Ok(match read {
        Some(read) => Event::Put {
            node,
            key,
            value,
            read,
        },
        None => Event::Step {
            node,
            event: NodeEvent::Write {
                key,
                value,
                context: None,
            },
        },
    })
}

/// Makes a write over all that is shown.
fn over(
    alloc: Global,
    node: u64,
    key: &KeyWord<'_>,
    bytes: &BytesWord<'_>,
    stamp: u64,
) -> Result<Event, AllocError>
    requires name { IsKey (key_word key.now) }
    requires value { IsBody (Some (bytes_word bytes.now)) }
    ensures { IfOk result (λ event. event ≡ events.Step node (nodes.PutOver (key_word key.now)
        (record { stamp = stamp; body = Some (bytes_word bytes.now) }))) }
{
    let key = key.to_key(alloc)?;
    let value = value_of(alloc, Some(bytes), stamp)?;
    let event = NodeEvent::PutOver { key, value };
    Ok(Event::Step { node, event })
}

fn read(alloc: Global, node: u64, key: &KeyWord<'_>) -> Result<Event, AllocError>
    requires { IsKey (key_word key.now) }
    ensures { IfOk result (λ event. event ≡ events.Step node (nodes.Read (key_word key.now))) }
{
    let key = key.to_key(alloc)?;
    let event = NodeEvent::Read { key };
    Ok(Event::Step { node, event })
}

fn keep(alloc: Global, node: u64, key: &KeyWord<'_>) -> Result<Event, AllocError>
    requires { IsKey (key_word key.now) }
    ensures { IfOk result (λ event. event ≡ events.Step node (nodes.Keep (key_word key.now))) }
{
    let key = key.to_key(alloc)?;
    let event = NodeEvent::Keep { key };
    Ok(Event::Step { node, event })
}

/// Makes bytes that should be no frame.
fn junk(alloc: Global, node: u64, bytes: &BytesWord<'_>) -> Result<Event, AllocError>
    ensures { IfOk result (λ event. event
        ≡ events.Step node (nodes.Take (bytes_word bytes.now) 0)) }
{
    let frame = bytes.to_bytes(alloc)?;
    let event = NodeEvent::Take { frame, word: 0 };
    Ok(Event::Step { node, event })
}

fn watch(
    alloc: Global,
    node: u64,
    prefix: &PrefixWord<'_>,
    capacity: usize,
) -> Result<Event, AllocError>
    requires { IsFullPrefix (prefix_word prefix.now) }
    ensures { IfOk result (λ event. event
        ≡ events.Step node (nodes.Watch (prefix_word prefix.now) capacity)) }
{
    let prefix = prefix.to_prefix(alloc)?;
    let event = NodeEvent::Watch { prefix, capacity };
    Ok(Event::Step { node, event })
}
