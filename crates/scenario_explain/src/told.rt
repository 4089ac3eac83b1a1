//! What was told of a world, so that only news is told next.

ghost use Rattle.std.specs.Prelude.{◌≡◌, ◌++◌, ℕ, List, OnOk};
ghost use Rattle.scenario_explain.specs.Told.{AddsOfNodes};

use crate::line::add_line;
use frame_fields::Digest;
use meta_store::Store;
use meta_types::{FullPrefix, MetaKey};
use node_core::NodeState;
use printing::{print_key, print_number, print_object};
use scenario_commands::keys_of;
use scenario_text::{Command, KeyWord};
use std::alloc::{AllocError, Global};
use world_core::World;

/// The most nodes of a world.
const MOST_NODES: u64 = 16;

/// What a node was said to show.
#[derive(Drop)]
struct Shown {
    store: Store,
    /// The root of the node's table when news of it were told last.
    root: Digest,
}

/// What was told of each node.
#[derive(Drop)]
pub(crate) struct Told {
    alloc: Global,
    nodes: Vec<Shown>,
}

/// What a command may have changed in the tables of nodes.
enum Changes<'a> {
    Nothing,
    /// This node's object under this key.
    Key(u64, KeyWord<'a>),
    Tables,
}

/// Returns what a command may change in the tables of nodes.
fn changes_of<'a>(command: &Command<'a>) -> Changes<'a> {
    match command {
        Command::Put { node, key, .. }
        | Command::Del { node, key, .. }
        | Command::Over { node, key, .. }
        | Command::Resolve { node, key, .. } => Changes::Key(*node, *key),
        Command::Deliver { .. } | Command::Settle | Command::Restart { .. } => Changes::Tables,
        _ => Changes::Nothing,
    }
}

/// Returns the key that stands in a command, if none of its parts is too long.
fn key_of(alloc: Global, key: KeyWord<'_>) -> Result<Option<MetaKey>, AllocError> {
    let prefix = key.prefix.prefix.to_vec(alloc)?;
    let sub = key.prefix.sub.to_vec(alloc)?;
    let own = key.key.to_vec(alloc)?;
    Ok(match FullPrefix::new(prefix, sub) {
        Ok(prefix) => MetaKey::new(prefix, own).ok(),
        Err(_) => None,
    })
}

impl Told {
    /// Makes what was told before there are nodes: nothing.
    pub(crate) fn new(alloc: Global) -> Self {
        Told {
            alloc,
            nodes: Vec::new(alloc),
        }
    }

    /// Notes the nodes of a new world. Nothing has to be told of them.
    pub(crate) fn open(&mut self, world: &World) -> Result<(), AllocError> {
        for number in 0..MOST_NODES {
            if let Some(state) = world.state(number) {
                self.nodes.push(Shown {
                    store: Store::new(self.alloc),
                    root: state.tree().root(),
                })?;
            }
        }
        Ok(())
    }

    /// Adds a line for each key under which a node shows something other than what was told last.
    /// Only keys that this command may have changed are looked at.
    #[tactic(auto, using(crate::proofs::Adding::adds_none, crate::proofs::Adding::adds_then))]
    pub(crate) fn add_news(
        &mut self,
        world: &World,
        command: &Command<'_>,
        text: &mut Vec<u8>,
    ) -> Result<(), AllocError>
        ensures { OnOk result (AddsOfNodes text.old.items text.new.items) }
    {
        match changes_of(command) {
            Changes::Nothing => Ok(()),
            Changes::Key(node, key) => self.add_key(world, node, key, text),
            Changes::Tables => self.add_tables(world, text),
        }
    }

    /// Adds a line if the node shows under the key something other than what was told last.
    #[tactic(auto, using(crate::proofs::Adding::adds_none, crate::proofs::Adding::adds_then))]
    fn add_key(
        &mut self,
        world: &World,
        node: u64,
        key: KeyWord<'_>,
        text: &mut Vec<u8>,
    ) -> Result<(), AllocError>
        ensures { OnOk result (AddsOfNodes text.old.items text.new.items) }
    {
        let (Some(state), Some(shown)) = (world.state(node), self.nodes.get_mut(node as usize))
        else {
            return Ok(());
        };
        match key_of(self.alloc, key)? {
            Some(key) => {
                shown.add_change(self.alloc, node, key, state.store(), text)?;
                shown.root = state.tree().root();
                Ok(())
            }
            None => Ok(()),
        }
    }

    /// Adds a line for each key under which a node shows something other than what was told last.
    #[tactic(auto, using(crate::proofs::Adding::adds_none, crate::proofs::Adding::adds_then))]
    fn add_tables(&mut self, world: &World, text: &mut Vec<u8>) -> Result<(), AllocError>
        ensures { OnOk result (AddsOfNodes text.old.items text.new.items) }
    {
        let alloc = self.alloc;
        for (number, shown) in self.nodes.iter_mut().enumerate() {
            if let Some(state) = world.state(number as u64) {
                shown.add_table(alloc, number as u64, state, text)?;
            }
        }
        Ok(())
    }
}

impl Shown {
    /// Adds a line for each key under which the node's table holds something other than what was
    /// told last.
    #[tactic(auto, using(crate::proofs::Adding::adds_none, crate::proofs::Adding::adds_then))]
    fn add_table(
        &mut self,
        alloc: Global,
        node: u64,
        state: &NodeState,
        text: &mut Vec<u8>,
    ) -> Result<(), AllocError>
        ensures { OnOk result (AddsOfNodes text.old.items text.new.items) }
    {
        let root = state.tree().root();
        if root == self.root {
            return Ok(());
        }
        self.root = root;
        let before = keys_of(alloc, &self.store)?;
        self.add_changes(
            alloc,
            node,
            keys_of(alloc, state.store())?,
            state.store(),
            text,
        )?;
        // (what a restart has taken away)
        self.add_changes(alloc, node, before, state.store(), text)
    }

    /// Adds a line for each of these keys under which the store holds something other than what was
    /// told last.
    #[tactic(auto, using(crate::proofs::Adding::adds_none, crate::proofs::Adding::adds_then))]
    fn add_changes(
        &mut self,
        alloc: Global,
        node: u64,
        keys: Vec<MetaKey>,
        store: &Store,
        text: &mut Vec<u8>,
    ) -> Result<(), AllocError>
        ensures { OnOk result (AddsOfNodes text.old.items text.new.items) }
    {
        for key in keys {
            self.add_change(alloc, node, key, store, text)?;
        }
        Ok(())
    }

    /// Adds a line if what was told of the key isn't what the store holds.
    #[tactic(auto, using(crate::proofs::Adding::adds_none, crate::proofs::Adding::adds_then))]
    fn add_change(
        &mut self,
        alloc: Global,
        node: u64,
        key: MetaKey,
        store: &Store,
        text: &mut Vec<u8>,
    ) -> Result<(), AllocError>
        ensures { OnOk result (AddsOfNodes text.old.items text.new.items) }
    {
        if self.store.object(&key) == store.object(&key) {
            return Ok(());
        }
        add_shown(alloc, node, &key, store, text)?;
        self.hold(key, store)
    }

    /// Notes that what the store holds under the key was told.
    fn hold(&mut self, key: MetaKey, store: &Store) -> Result<(), AllocError> {
        match store.object(&key) {
            Some(object) if self.store.has_room_for(&key) => {
                let object = object.copy()?;
                self.store.hold(key, object)
            }
            Some(_) => Ok(()),
            None => {
                self.store.forget(&key);
                Ok(())
            }
        }
    }
}

/// Adds what the store holds under a key.
fn print_held(line: &mut Vec<u8>, key: &MetaKey, store: &Store) -> Result<(), AllocError>
    ensures { OnOk result ((more : List ℕ) × (line.new.items ≡ line.old.items ++ more)) }
{
    match store.object(key) {
        Some(object) => print_object(line, object),
        None => line.extend_from_slice(b"ctx - values -"),
    }
}

/// Adds a line of what the node shows now under a key.
fn add_shown(
    alloc: Global,
    node: u64,
    key: &MetaKey,
    store: &Store,
    text: &mut Vec<u8>,
) -> Result<(), AllocError>
    ensures { OnOk result (AddsOfNodes text.old.items text.new.items) }
{
    let mut line = Vec::new(alloc);
    line.extend_from_slice(b"node ")?;
    print_number(&mut line, node)?;
    line.extend_from_slice(b" shows ")?;
    print_key(&mut line, key)?;
    line.push(b' ')?;
    print_held(&mut line, key, store)?;
    add_line(text, line.as_slice())
}
