//! The text that replays a run.

ghost use Rattle.std.specs.Prelude.{◌≡◌, ◌↔◌, ◌∷◌, ◌++◌, [], ℕ, All, IfOk, IfSome, IsSome, OnOk, decimal, map};
ghost use Rattle.std.specs.List.{filter_map};
ghost use Rattle.scenario_text.specs.Spelling.{spaced_words, spelled_lines, spelled_scenario};
ghost use Rattle.run_text.specs.Replay.{HasReplay, IsSpelled, Replays, command_of_event, roots_of, scenario_of_run};

use crate::line::{add_command, add_event};
use crate::spelling::has_replay;
use std::alloc::{AllocError, Global};
use world_core::Accepted;

/// Adds the line of a command with one number.
fn add_line(text: &mut Vec<u8>, name: &[u8], number: u64) -> Result<(), AllocError>
    ensures { OnOk result (text.new.items
        ≡ text.old.items ++ (spaced_words (name.now ∷ decimal number ∷ []) ++ 10 ∷ [])) }
{
    add_command(text, name, number)?;
    text.push(b'\n')?;
    Ok(())
}

/// Adds the line of each event.
fn add_events(text: &mut Vec<u8>, accepted: &[Accepted]) -> Result<(), AllocError>
    requires { All (λ a. IsSpelled (command_of_event a.event)) accepted.now }
    ensures { OnOk result (text.new.items ≡ text.old.items
        ++ spelled_lines (filter_map command_of_event (map (λ a. a.event) accepted.now))) }
{
    for one in accepted {
        add_event(text, &one.event)?;
        text.push(b'\n')?;
    }
    Ok(())
}

/// Adds a line that asks for the root of each node.
fn add_roots(text: &mut Vec<u8>, nodes: u64) -> Result<(), AllocError>
    ensures { OnOk result (text.new.items ≡ text.old.items ++ spelled_lines (roots_of nodes)) }
{
    for node in 0..nodes {
        add_line(text, b"root", node)?;
    }
    Ok(())
}

/// Returns a comment, `nodes` with their number, a line for each event, and `root` of each node.
fn text_of(
    alloc: Global,
    about: &[u8],
    nodes: u64,
    accepted: &[Accepted],
) -> Result<Vec<u8>, AllocError>
    requires { All (λ a. IsSpelled (command_of_event a.event)) accepted.now }
    ensures { IfOk result (λ text. text.items ≡ spelled_scenario about.now
        (scenario_of_run nodes (map (λ a. a.event) accepted.now))) }
{
    let mut text = Vec::new(alloc);
    text.extend_from_slice(b"# ")?;
    text.extend_from_slice(about)?;
    text.push(b'\n')?;
    add_line(&mut text, b"nodes", nodes)?;
    add_events(&mut text, accepted)?;
    add_roots(&mut text, nodes)?;
    Ok(text)
}

/// Returns a scenario that makes the accepted events of a world of `nodes` nodes again, one after
/// the other, and then prints the root of each node. On top is a comment: `about`. No command of it
/// names a resolver, so it is the same scenario however many are at hand.
///
/// Returns `None` exactly if there is none: if `about` has more than one line; if a world can't
/// have this number of nodes; or if an event has no command, or its command no spelling. A name has
/// one if it is of letters, digits, `.`, `_` and `-`. No command is a write with a context, a
/// tombstone over all that is shown, or bytes with a random word; of no bytes there is no spelling.
///
/// It takes memory for the text. Fails only when memory runs out.
pub fn replay_of(
    alloc: Global,
    about: &[u8],
    nodes: u64,
    accepted: &[Accepted],
) -> Result<Option<Vec<u8>>, AllocError>
    ensures some { IfOk result (λ found. IsSome found
        ↔ HasReplay about.now nodes (map (λ a. a.event) accepted.now)) }
    ensures text { IfOk result (λ found. IfSome found (λ text. text.items
        ≡ spelled_scenario about.now (scenario_of_run nodes (map (λ a. a.event) accepted.now)))) }
    ensures replays { IfOk result (λ found. IfSome found (λ text. (resolvers : ℕ)
        → Replays resolvers nodes (map (λ a. a.event) accepted.now) text.items)) }
{
    if !has_replay(about, nodes, accepted) {
        return Ok(None);
    }
    Ok(Some(text_of(alloc, about, nodes, accepted)?))
}
