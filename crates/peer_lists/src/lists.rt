ghost use Rattle.std.specs.Prelude.{◌≡◌, ◌<◌, length, IfOk};
ghost use Rattle.peer_lists.specs.Lists.{choose, has, without_all, pick};

use meta_types::NodeId;
use std::alloc::{AllocError, Global};

/// Returns whether the node is a member.
pub fn has(members: &[NodeId], node: NodeId) -> bool
    ensures { result ≡ has members.now node }
{
    members.iter().any(|member| node == *member)
}

/// Returns the members that aren't excluded, in their order. Fails only when memory runs out.
pub fn without_all(
    alloc: Global,
    members: &[NodeId],
    excluded: &[NodeId],
) -> Result<Vec<NodeId>, AllocError>
    ensures { IfOk result (λ left. left.items ≡ without_all excluded.now members.now) }
{
    let mut left = Vec::new(alloc);
    for member in members {
        if !has(excluded, *member) {
            left.push(*member)?;
        }
    }
    Ok(left)
}

/// Returns the random choice among the members: the one at place `word` modulo their number, from
/// 0.
pub fn choose(word: u64, members: &[NodeId]) -> NodeId
    requires { 0 < length members.now }
    ensures { result ≡ choose word members.now }
{
    let place = word % members.len() as u64;
    members[place as usize]
}

/// Returns the first `count` members from the random place on, going round, or all members from
/// that place on if there are fewer. Fails only when memory runs out.
pub fn pick(
    alloc: Global,
    word: u64,
    count: usize,
    members: &[NodeId],
) -> Result<Vec<NodeId>, AllocError>
    ensures { IfOk result (λ picked. picked.items ≡ pick word count members.now) }
{
    let mut picked = Vec::new(alloc);
    if members.is_empty() {
        return Ok(picked);
    }
    let place = (word % members.len() as u64) as usize;
    picked.extend_from_slice(&members[place..])?;
    picked.extend_from_slice(&members[..place])?;
    picked.truncate(count);
    Ok(picked)
}
