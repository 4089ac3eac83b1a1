//! Commands that read what a node holds and then do something with it: keeping it all, and
//! resolving siblings.

ghost use Rattle.std.specs.Prelude.{◌≡◌, ◌<◌, ◌∷◌, ◌++◌, ℕ, List, [], length, map, IfOk, OnOk};
ghost use Rattle.std.specs.Option.{option_map};
ghost use Rattle.dvvset.specs.Clock.{values_of};
ghost use Rattle.meta_store.specs.Table.{object_at};
ghost use Rattle.meta_types.specs.Name.{IsKey, IsName};
ghost use Rattle.node_core.specs.Repair.{chosen};
ghost use Rattle.scenario_commands.specs.Obeying.{Happens, KeepsAll, chosen_as};
ghost use Rattle.scenario_commands.specs.Coded.{KeepsOrNot, ResolvesAs};
ghost use Rattle.scenario_text.specs.Coded.{key_word};
ghost use Rattle.node_events.specs.declared.event.NodeEvent.TheVariants.{PutOver};
ghost use Rattle.world_core.specs.declared.event.Event.TheVariants.{Step};

use crate::look::print_no_node;
use crate::print::{lacks_memory, print_line};
use crate::stage::Stage;
use meta_store::{Rows, Store};
use meta_types::{ByteString, FullPrefix, MetaKey, Value};
use node_events::NodeEvent;
use resolvers::Resolver;
use scenario_text::KeyWord;
use std::alloc::{AllocError, Global};
use world_core::Event;

impl Stage {
    /// Keeps each key that the node holds, in order; each makes an image.
    pub(crate) fn keep(&mut self, node: u64, text: &mut Vec<u8>) -> Result<(), AllocError>
        ensures { OnOk result (KeepsOrNot self.old node text.old.items text.new.items self.new) }
    {
        let keys = match self.world.state(node) {
            Some(state) => keys_of(self.alloc, state.store())?,
            None => return print_no_node(text),
        };
        let kept = self.keep_all(node, keys.as_slice());
        drop(keys);
        kept?;
        print_line(text, "ok")
    }

    /// Keeps what the node holds under each of these keys.
    fn keep_all(&mut self, node: u64, keys: &[MetaKey]) -> Result<(), AllocError>
        requires { node < length self.old.world.nodes }
        ensures { OnOk result (KeepsAll self.old node keys.now self.new) }
    {
        for key in keys {
            self.keep_one(node, key)?;
        }
        Ok(())
    }

    /// Keeps what the node holds under a key. Fails only when memory runs out.
    fn keep_one(&mut self, node: u64, key: &MetaKey) -> Result<(), AllocError>
        requires { node < length self.old.world.nodes }
        ensures keeps { OnOk result (KeepsAll self.old node (key.now ∷ []) self.new) }
        ensures nodes { length self.new.world.nodes ≡ length self.old.world.nodes }
    {
        let key = key.copy()?;
        let event = NodeEvent::Keep { key };
        let outcome = self.apply(Event::Step { node, event });
        let lacks_memory = lacks_memory(&outcome);
        drop(outcome);
        if lacks_memory {
            Err(AllocError)
        } else {
            Ok(())
        }
    }

    /// Writes the sibling that the resolver chooses over all siblings, if there are two or more.
    pub(crate) fn resolve(
        &mut self,
        node: u64,
        key: &KeyWord<'_>,
        resolver: Option<&Box<dyn Resolver>>,
        text: &mut Vec<u8>,
    ) -> Result<(), AllocError>
        requires { IsKey (key_word key.now) }
        ensures { OnOk result (ResolvesAs self.old node (key_word key.now)
            (option_map (λ r. choice r.now) resolver.entry) text.old.items text.new.items
            self.new) }
    {
        let value = match self.world.state(node) {
            Some(state) => chosen_under(self.alloc, state.store(), key, resolver)?,
            None => return print_no_node(text),
        };
        match value {
            Some(value) => self.put_over(node, key, value, text),
            None => print_line(text, "ok"),
        }
    }

    /// Writes the value over all that the node shows.
    fn put_over(
        &mut self,
        node: u64,
        key: &KeyWord<'_>,
        value: Value,
        text: &mut Vec<u8>,
    ) -> Result<(), AllocError>
        requires { IsKey (key_word key.now) }
        ensures { OnOk result ((added : List ℕ)
            × Happens self.old (Step node (PutOver (key_word key.now) value)) added self.new
            × (text.new.items ≡ text.old.items ++ added)) }
    {
        let key = key.to_key(self.alloc)?;
        let event = NodeEvent::PutOver { key, value };
        self.happen(Event::Step { node, event }, text)
    }
}

/// Returns the sibling under a key that the resolver chooses, if there are a resolver and two or
/// more siblings.
fn chosen_under(
    alloc: Global,
    store: &Store,
    key: &KeyWord<'_>,
    resolver: Option<&Box<dyn Resolver>>,
) -> Result<Option<Value>, AllocError>
    requires { IsKey (key_word key.now) }
    ensures { IfOk result (λ value. value
        ≡ chosen_as (option_map (λ r. choice r.now) resolver.entry)
        (values_of (object_at store.now (key_word key.now)))) }
{
    let key = key.to_key(alloc)?;
    chosen(store, &key, resolver)
}

/// Returns the keys that a store holds, in order. Fails only when memory runs out.
pub fn keys_of(alloc: Global, store: &Store) -> Result<Vec<MetaKey>, AllocError>
    ensures { IfOk result (λ keys. keys.items ≡ map (λ row. row.0) store.now) }
{
    let mut keys = Vec::new(alloc);
    for (prefix, rows) in store.iter() {
        add_keys(&mut keys, prefix, rows)?;
    }
    Ok(keys)
}

/// Adds the keys under a full prefix.
fn add_keys(keys: &mut Vec<MetaKey>, prefix: &FullPrefix, rows: &Rows) -> Result<(), AllocError>
    ensures { OnOk result (keys.new.items ≡ keys.old.items
        ++ map (λ row. record { prefix = prefix.now; key = row.0 }) rows.now) }
{
    for (key, _) in rows.iter() {
        let copy = key_under(prefix, key)?;
        keys.push(copy)?;
    }
    Ok(())
}

/// Makes a copy of the key of these bytes under a full prefix.
fn key_under(prefix: &FullPrefix, key: &ByteString) -> Result<MetaKey, AllocError>
    requires { IsName 256 key.now }
    ensures { IfOk result (λ copy. copy ≡ record { prefix = prefix.now; key = key.now }) }
{
    let (prefix, key) = (prefix.copy()?, key.copy()?);
    Ok(MetaKey::under(prefix, key))
}

/// Returns what `chosen_under` does, for a key that was made before.
fn chosen(
    store: &Store,
    key: &MetaKey,
    resolver: Option<&Box<dyn Resolver>>,
) -> Result<Option<Value>, AllocError>
    ensures { IfOk result (λ value. value
        ≡ chosen_as (option_map (λ r. choice r.now) resolver.entry)
        (values_of (object_at store.now key.now))) }
{
    match resolver {
        Some(resolver) => {
            let (siblings, _) = store.get(key)?;
            chosen_of(resolver, siblings.as_slice())
        }
        None => Ok(None),
    }
}

/// Returns the sibling that the resolver chooses, if there are two or more.
fn chosen_of(resolver: &Box<dyn Resolver>, siblings: &[Value]) -> Result<Option<Value>, AllocError>
    ensures { IfOk result (λ value. value ≡ chosen (choice resolver.now) siblings.now) }
{
    if siblings.len() < 2 {
        return Ok(None);
    }
    let place = place_chosen(resolver, siblings);
    Ok(Some(siblings[place].copy()?))
}

/// Returns the place of the sibling that the resolver chooses.
fn place_chosen(resolver: &Box<dyn Resolver>, siblings: &[Value]) -> usize
    requires { 0 < length siblings.now }
    ensures place { result < length siblings.now }
    ensures choice { result ≡ choice resolver.now siblings.now }
{
    resolver.resolve(siblings)
}
