//! Commands that only look.

ghost use Rattle.std.specs.Prelude.{◌≡◌, ◌++◌, None, [], codes, map, IfOk, OnOk};
ghost use Rattle.std.specs.Option.{option_copied, unwrap_or};
ghost use Rattle.meta_types.specs.Name.{IsFullPrefix, IsKey};
ghost use Rattle.meta_store.specs.Table.{keys_under, object_at};
ghost use Rattle.printing.specs.Field.{bytes_text};
ghost use Rattle.printing.specs.Joined.{joined};
ghost use Rattle.printing.specs.Object.{object_text};
ghost use Rattle.scenario_commands.specs.Coded.{LooksAt};
ghost use Rattle.scenario_text.specs.Coded.{command_word, key_word, prefix_word};
ghost use Rattle.scenario_commands.specs.Meaning.{list_text, overlay_text, root_text};
ghost use Rattle.scenario_text.specs.Commands.{Images, fault_in};
ghost use Rattle.scenario_commands.specs.Printed.{line, world_refused};
ghost use Rattle.world_core.specs.declared.fault.WorldFault.TheVariants.{NoSuchNode};

use crate::print::{print_count, print_fault, print_keys};
use crate::stage::Stage;
use dvvset::Entries;
use meta_store::Store;
use meta_types::MetaKey;
use node_core::NodeState;
use printing::{print_digest, print_nodes, print_object};
use scenario_text::{Command, KeyWord, PrefixWord};
use std::alloc::{AllocError, Global};
use world_core::WorldFault;

impl Stage {
    /// Adds what a command looks at, or that the world doesn't have the node.
    pub(crate) fn look(&self, command: &Command<'_>, text: &mut Vec<u8>) -> Result<(), AllocError>
        requires { fault_in (command_word command.now) ≡ None }
        ensures { OnOk result (LooksAt self.now (command_word command.now)
            text.old.items text.new.items) }
    {
        match command {
            Command::Show { node, key } => match self.world.state(*node) {
                Some(state) => show(self.alloc, state, key, text),
                None => print_no_node(text),
            },
            Command::Keys { node, prefix } => match self.world.state(*node) {
                Some(state) => list(self.alloc, state, prefix, text),
                None => print_no_node(text),
            },
            Command::Root { node } => match self.world.state(*node) {
                Some(state) => root(state, text),
                None => print_no_node(text),
            },
            Command::Views { node } => match self.world.state(*node) {
                Some(state) => views(state, text),
                None => print_no_node(text),
            },
            Command::Images { node } => self.images(*node, text),
            _ => Ok(()),
        }
    }

    /// Adds how many images a node has, including the empty one.
    fn images(&self, node: u64, text: &mut Vec<u8>) -> Result<(), AllocError>
        ensures { OnOk result (LooksAt self.now (Images node) text.old.items text.new.items) }
    {
        match self.world.images(node) {
            Some(images) => print_count(text, "images ", images.len() as u64 + 1),
            None => print_no_node(text),
        }
    }
}

/// Adds that the world doesn't have the node.
pub(crate) fn print_no_node(text: &mut Vec<u8>) -> Result<(), AllocError>
    ensures { OnOk result (text.new.items ≡ text.old.items ++ world_refused NoSuchNode) }
{
    print_fault(text, &WorldFault::NoSuchNode)
}

/// Adds what the node shows under a key.
fn show(
    alloc: Global,
    state: &NodeState,
    key: &KeyWord<'_>,
    text: &mut Vec<u8>,
) -> Result<(), AllocError>
    requires { IsKey (key_word key.now) }
    ensures { OnOk result (text.new.items ≡ text.old.items
        ++ line (object_text (object_at state.now.table (key_word key.now)))) }
{
    let key = key.to_key(alloc)?;
    print_held(text, state.store().object(&key))
}

/// Adds what is held under a key, if something is.
fn print_held(text: &mut Vec<u8>, held: Option<&Entries>) -> Result<(), AllocError>
    ensures { OnOk result (text.new.items ≡ text.old.items
        ++ line (object_text (unwrap_or (option_copied held.entry) []))) }
{
    match held {
        Some(object) => print_object(text, object)?,
        None => text.extend_from_slice(b"ctx - values -")?,
    }
    text.extend_from_slice(b"\n")
}

/// Adds the keys that the node holds under a prefix.
fn list(
    alloc: Global,
    state: &NodeState,
    prefix: &PrefixWord<'_>,
    text: &mut Vec<u8>,
) -> Result<(), AllocError>
    requires { IsFullPrefix (prefix_word prefix.now) }
    ensures { OnOk result (text.new.items ≡ text.old.items
        ++ line (list_text (prefix_word prefix.now) state.now.table)) }
{
    let keys = keys_under(alloc, state.store(), prefix)?;
    print_held_keys(text, keys.as_slice())
}

/// Returns the keys that a store holds under a prefix.
fn keys_under(
    alloc: Global,
    store: &Store,
    prefix: &PrefixWord<'_>,
) -> Result<Vec<MetaKey>, AllocError>
    requires { IsFullPrefix (prefix_word prefix.now) }
    ensures { IfOk result (λ keys. keys.items ≡ keys_under (prefix_word prefix.now) store.now) }
{
    let prefix = prefix.to_prefix(alloc)?;
    store.list(&prefix)
}

/// Adds the keys that are held under a prefix.
fn print_held_keys(text: &mut Vec<u8>, keys: &[MetaKey]) -> Result<(), AllocError>
    ensures { OnOk result (text.new.items ≡ text.old.items
        ++ line (codes "keys " ++ joined (map (λ k. bytes_text k.key) keys.now))) }
{
    text.extend_from_slice(b"keys ")?;
    print_keys(text, keys)?;
    text.extend_from_slice(b"\n")
}

/// Adds the root of what the node holds.
fn root(state: &NodeState, text: &mut Vec<u8>) -> Result<(), AllocError>
    ensures { OnOk result (text.new.items ≡ text.old.items ++ line (root_text state.now.table)) }
{
    text.extend_from_slice(b"root ")?;
    print_digest(text, &state.tree().root())?;
    text.extend_from_slice(b"\n")
}

/// Adds whom the node talks to.
fn views(state: &NodeState, text: &mut Vec<u8>) -> Result<(), AllocError>
    ensures { OnOk result (text.new.items ≡ text.old.items
        ++ line (overlay_text state.now.overlay)) }
{
    text.extend_from_slice(b"active ")?;
    print_nodes(text, state.views().active())?;
    text.extend_from_slice(b" passive ")?;
    print_nodes(text, state.views().passive())?;
    text.extend_from_slice(b" eager ")?;
    print_nodes(text, state.cast().eager())?;
    text.extend_from_slice(b" lazy ")?;
    print_nodes(text, state.cast().lazy())?;
    text.extend_from_slice(b"\n")
}
