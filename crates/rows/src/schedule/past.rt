//! Comparisons of nodes with the past by sets, and with one another.

ghost use Rattle.past_model.specs.History.{IsHistory};

use crate::line::print_line;
use crate::schedule::NODES;
use crate::schedule::parse::ALIKE;
use dvvset::Vector;
use meta_types::{FullPrefix, MetaKey, NodeId, Value, both};
use node_core::NodeState;
use past_model::{Happening, Plain};
use std::alloc::{AllocError, Global};
use world_core::World;

/// Returns the keys that schedules name: p/s/k, p/s/l and p/t/k.
pub fn keys(alloc: Global) -> Result<Vec<MetaKey>, AllocError> {
    let mut keys = Vec::with_capacity(alloc, 3)?;
    for (sub, letter) in [(b's', b'k'), (b's', b'l'), (b't', b'k')] {
        keys.push(key(alloc, sub, letter)?)?;
    }
    Ok(keys)
}

/// Returns the key of this letter under p and another letter.
fn key(alloc: Global, sub: u8, letter: u8) -> Result<MetaKey, AllocError> {
    let names = both(Vec::from_slice(alloc, b"p"), Vec::from_slice(alloc, &[sub]));
    let (own, (first, second)) = both(Vec::from_slice(alloc, &[letter]), names)?;
    let prefix = FullPrefix::new(first, second).unwrap();
    Ok(MetaKey::new(prefix, own).unwrap())
}

/// Returns whether each node shows under each key what the past by sets does.
pub fn is_right(alloc: Global, world: &World, keys: &[MetaKey]) -> Result<bool, AllocError> {
    let history = world.history(alloc)?;
    let is_right = is_as_told(alloc, history.as_slice(), world, keys);
    drop(history);
    is_right
}

/// Returns whether each node shows what the past of this history does.
fn is_as_told(
    alloc: Global,
    history: &[Happening],
    world: &World,
    keys: &[MetaKey],
) -> Result<bool, AllocError>
    requires { IsHistory history.now }
{
    let plain = Plain::replay(alloc, history)?;
    let is_right = is_as_replayed(alloc, &plain, world, keys);
    drop(plain);
    is_right
}

/// Returns whether each node shows what this past does.
fn is_as_replayed(
    alloc: Global,
    plain: &Plain<'_>,
    world: &World,
    keys: &[MetaKey],
) -> Result<bool, AllocError> {
    for node in 0..NODES {
        for key in keys {
            if !is_right_under(alloc, plain, world, node, key)? {
                return Ok(false);
            }
        }
    }
    Ok(true)
}

/// Returns whether `is_right` holds of one node and one key. The world also says what the node
/// knows.
fn is_right_under(
    alloc: Global,
    plain: &Plain<'_>,
    world: &World,
    node: u64,
    key: &MetaKey,
) -> Result<bool, AllocError> {
    let Some(state) = world.state(node) else {
        return Ok(false);
    };
    let places = plain.known(alloc, state.node(), key)?;
    let known = world.known(alloc, node, key);
    let is_known = known.is_ok_and(|known| known.as_slice() == places.as_slice());
    Ok(is_known && shows(alloc, plain, state, key)?)
}

/// Returns whether the node shows the siblings and the context that it has by the past.
fn shows(
    alloc: Global,
    plain: &Plain<'_>,
    state: &NodeState,
    key: &MetaKey,
) -> Result<bool, AllocError> {
    let (values, vector) = state.store().get(key)?;
    let is_context = is_context(alloc, plain, state.node(), key, &vector);
    drop(vector);
    let are_siblings = are_siblings(alloc, plain, state.node(), key, values.as_slice());
    drop(values);
    Ok(is_context? && are_siblings?)
}

fn is_context(
    alloc: Global,
    plain: &Plain<'_>,
    node: NodeId,
    key: &MetaKey,
    vector: &Vector,
) -> Result<bool, AllocError> {
    let context = plain.context(alloc, node, key)?;
    Ok(*vector == context)
}

fn are_siblings(
    alloc: Global,
    plain: &Plain<'_>,
    node: NodeId,
    key: &MetaKey,
    values: &[Value],
) -> Result<bool, AllocError> {
    let siblings = plain.siblings(alloc, node, key)?;
    Ok(values == siblings.as_slice())
}

/// Adds `alike` to the log for each two nodes that hold the same, and something. Returns whether
/// two nodes have one root exactly if they hold the same.
pub fn add_alike(world: &World, keys: &[MetaKey], log: &mut Vec<u8>) -> Result<bool, AllocError> {
    for one in 0..NODES {
        for other in 0..one {
            if let (Some(one), Some(other)) = (world.state(one), world.state(other)) {
                let is_same = hold_alike(one, other, keys);
                if is_same != (one.tree().root() == other.tree().root()) {
                    return Ok(false);
                }
                if is_same && !one.store().is_empty() {
                    print_line(log, "", ALIKE)?;
                }
            }
        }
    }
    Ok(true)
}

/// Returns whether two nodes hold the same under these keys, and nothing else.
fn hold_alike(one: &NodeState, other: &NodeState, keys: &[MetaKey]) -> bool {
    one.store().len() == other.store().len()
        && keys
            .iter()
            .all(|key| one.store().object(key) == other.store().object(key))
}
