//! Writers, keys, the value that is written under them, and places that look random.

use crate::samples::refused;
use meta_types::{Actor, FullPrefix, MetaKey, NodeId, Value, both};
use std::alloc::Global;
use std::io;

/// How many bytes a value has.
const BODY: usize = 100;

pub(crate) fn node(number: u16) -> io::Result<NodeId> {
    NodeId::new(number).map_err(refused)
}

/// Returns the node in its first life.
pub(crate) fn actor(number: u16) -> io::Result<Actor> {
    Ok(Actor::new(node(number)?, 1))
}

pub(crate) fn key_of(alloc: Global, prefix: &str, sub: &str, own: String) -> io::Result<MetaKey> {
    let names = both(
        prefix.as_bytes().to_vec(alloc),
        sub.as_bytes().to_vec(alloc),
    );
    let (own, (prefix, sub)) = both(Ok(own.into_bytes()), names)?;
    let full = FullPrefix::new(prefix, sub).map_err(refused);
    let (full, own) = both(full, Ok(own))?;
    MetaKey::new(full, own).map_err(refused)
}

/// Returns the key of this number: `key-00007` under `bench` and the second name.
fn numbered(alloc: Global, sub: &str, number: u32) -> io::Result<MetaKey> {
    key_of(alloc, "bench", sub, format!(in alloc; "key-{number:05}")?)
}

/// Returns the key of this number: `key-00007` under `bench` and `p`.
pub(crate) fn key(alloc: Global, number: u32) -> io::Result<MetaKey> {
    numbered(alloc, "p", number)
}

/// Returns the key of this number, under one of `prefixes` full prefixes by turns: `bench` and
/// `p7`.
fn key_in_turn(alloc: Global, number: u32, prefixes: u32) -> io::Result<MetaKey> {
    let sub = format!(in alloc; "p{}", number % prefixes.max(1))?;
    numbered(alloc, sub.as_str(), number)
}

/// Makes a value of 100 bytes.
pub(crate) fn value(alloc: Global) -> io::Result<Value> {
    value_of(alloc, BODY)
}

fn value_of(alloc: Global, body: usize) -> io::Result<Value> {
    Value::new(0, Some(vec![in alloc; b'a'; body]?)).map_err(refused)
}

/// Keys, and the value that is written under them.
#[derive(Drop)]
pub(crate) struct Rows {
    keys: Vec<MetaKey>,
    value: Value,
}

impl Rows {
    /// Makes `count` keys of one full prefix.
    pub(crate) fn new(alloc: Global, count: u32) -> io::Result<Self> {
        Rows::with_body(alloc, count, BODY)
    }

    /// Makes `count` keys of one full prefix, and a value of `body` bytes.
    pub(crate) fn with_body(alloc: Global, count: u32, body: usize) -> io::Result<Self> {
        let mut keys = Vec::with_capacity(alloc, count as usize)?;
        for number in 0..count {
            keys.push(key(alloc, number)?)?;
        }
        Rows::of(alloc, keys, body)
    }

    /// Makes `count` keys, under `prefixes` full prefixes by turns.
    pub(crate) fn in_turn(alloc: Global, count: u32, prefixes: u32) -> io::Result<Self> {
        let mut keys = Vec::with_capacity(alloc, count as usize)?;
        for number in 0..count {
            keys.push(key_in_turn(alloc, number, prefixes)?)?;
        }
        Rows::of(alloc, keys, BODY)
    }

    fn of(alloc: Global, keys: Vec<MetaKey>, body: usize) -> io::Result<Self> {
        let (keys, value) = both(Ok(keys), value_of(alloc, body))?;
        Ok(Rows { keys, value })
    }

    pub(crate) fn keys(&self) -> &[MetaKey] {
        self.keys.as_slice()
    }

    pub(crate) fn value(&self) -> &Value {
        &self.value
    }

    /// Returns a key that looks random.
    pub(crate) fn any_key(&self, dice: &mut Dice) -> io::Result<&MetaKey> {
        match self.keys.get(dice.place(self.keys.len())) {
            Some(key) => Ok(key),
            None => Err(refused(())),
        }
    }

    /// Makes copies of the key, and of the value that is written under it.
    pub(crate) fn copies(&self, key: &MetaKey) -> io::Result<(MetaKey, Value)> {
        Ok(both(key.copy(), self.value.copy())?)
    }
}

/// Chooses places that look random, the same in each run.
#[derive(Clone, Copy)]
pub(crate) struct Dice {
    state: u64,
}

impl Dice {
    pub(crate) fn new(seed: u64) -> Self {
        Dice { state: seed }
    }

    /// Returns a place in a list of this length; 0 in an empty one.
    fn place(&mut self, len: usize) -> usize {
        self.state = self
            .state
            .wrapping_mul(6_364_136_223_846_793_005)
            .wrapping_add(1_442_695_040_888_963_407);
        (self.state >> 33) as usize % len.max(1)
    }
}
