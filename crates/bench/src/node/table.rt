//! A store with its tree, and the measured work.

use crate::node::paces::Works;
use crate::rows::{Dice, Rows, actor};
use crate::samples::refused;
use hash_tree::{Tree, object_digest, plain_root};
use meta_store::{Context, Source, Store};
use meta_types::{Actor, MetaKey, Value, both};
use std::alloc::Global;
use std::io;

/// What is measured.
#[derive(Clone, Copy)]
pub(crate) enum Work {
    /// A write that has read what it replaces, taken into the tree.
    PutWithTree,
    /// A write that has read what it replaces, without a tree.
    Put,
    /// A read: copies of the values, and a context.
    Look,
    /// A write under each key from an empty store on, each taken into the tree.
    Fill,
    /// The root from all keys at once.
    WholeRoot,
}

/// A store with its tree in step, and the keys that it holds.
#[derive(Drop)]
pub(crate) struct Table {
    alloc: Global,
    actor: Actor,
    rows: Rows,
    store: Store,
    tree: Tree,
    dice: Dice,
}

/// Writes the value under the key, over what is held there.
pub(crate) fn put_over(
    store: &mut Store,
    actor: Actor,
    key: &MetaKey,
    value: &Value,
) -> io::Result<()> {
    let read = store.look(key, Source { actor, step: 1 })?;
    let done = put_read(store, actor, key, value, &read.1);
    drop(read);
    done
}

/// Writes a copy of the value, over what the context has read.
fn put_read(
    store: &mut Store,
    actor: Actor,
    key: &MetaKey,
    value: &Value,
    context: &Context,
) -> io::Result<()> {
    let value = value.copy()?;
    let key = key.copy()?;
    store.put(actor, key, value, Some(context)).map_err(refused)
}

/// Takes what is held under the key into the tree.
fn follow(tree: &mut Tree, store: &Store, key: &MetaKey) -> io::Result<()> {
    if let Some(object) = store.object(key) {
        tree.update(key, object_digest(object))?;
    }
    Ok(())
}

impl Table {
    /// Makes a table with a value under each of `count` keys.
    pub(crate) fn filled(alloc: Global, count: u32, prefixes: u32) -> io::Result<Self> {
        let actor = actor(0)?;
        let rows = Rows::in_turn(alloc, count, prefixes)?;
        let held = filled(alloc, actor, &rows);
        let (rows, (store, tree)) = both(Ok(rows), held)?;
        Ok(Table {
            alloc,
            actor,
            rows,
            store,
            tree,
            dice: Dice::new(1),
        })
    }

    fn put_with_tree(&mut self) -> io::Result<()> {
        let key = self.rows.any_key(&mut self.dice)?;
        put_over(&mut self.store, self.actor, key, self.rows.value())?;
        follow(&mut self.tree, &self.store, key)
    }

    fn put(&mut self) -> io::Result<()> {
        let key = self.rows.any_key(&mut self.dice)?;
        put_over(&mut self.store, self.actor, key, self.rows.value())
    }

    fn look(&mut self) -> io::Result<()> {
        let source = Source {
            actor: self.actor,
            step: 1,
        };
        let key = self.rows.any_key(&mut self.dice)?;
        drop(self.store.look(key, source)?);
        Ok(())
    }

    fn fill(&self) -> io::Result<()> {
        drop(filled(self.alloc, self.actor, &self.rows)?);
        Ok(())
    }

    fn whole_root(&self) -> io::Result<()> {
        let _root = plain_root(self.alloc, &self.store)?;
        Ok(())
    }
}

/// A write or a read is under a key that looks random.
impl Works<Work> for Table {
    fn work(&mut self, work: Work) -> io::Result<()> {
        match work {
            Work::PutWithTree => self.put_with_tree(),
            Work::Put => self.put(),
            Work::Look => self.look(),
            Work::Fill => self.fill(),
            Work::WholeRoot => self.whole_root(),
        }
    }
}

/// Makes a store with the value under each of the keys, and its tree.
pub(crate) fn filled(alloc: Global, actor: Actor, rows: &Rows) -> io::Result<(Store, Tree)> {
    let mut store = Store::new(alloc);
    let mut tree = Tree::from_store(alloc, &store)?;
    let done = fill(&mut store, &mut tree, actor, rows);
    let (held, ()) = both(Ok((store, tree)), done)?;
    Ok(held)
}

fn fill(store: &mut Store, tree: &mut Tree, actor: Actor, rows: &Rows) -> io::Result<()> {
    for key in rows.keys() {
        let (at, value) = rows.copies(key)?;
        drop(store.put(actor, at, value, None).map_err(refused)?);
        follow(tree, store, key)?;
    }
    Ok(())
}
