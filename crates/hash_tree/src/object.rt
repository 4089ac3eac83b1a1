//! The digest of an object.

ghost use Rattle.std.specs.Prelude.{◌≡◌, All};
ghost use Rattle.std.specs.List.{flat_map};
ghost use Rattle.frame_fields.specs.Field.{entry, value, writer_from};
ghost use Rattle.frame_fields.specs.Size.{IsShort};
ghost use Rattle.meta_store.specs.Table.{IsHeld};
ghost use Rattle.hash_tree.specs.Hashing.{Adds};
ghost use Rattle.hash_tree.specs.Tree.{object_digest};

use crate::hashing::add_name;
use crate::text_hasher::TextHasher;
use dvvset::{Entries, Entry};
use frame_fields::Digest;
use meta_types::{Actor, Value};

/// Returns the digest of an object that a store holds, as it is spelled in a frame. It takes no
/// memory.
pub fn object_digest(o: &Entries) -> Digest
    requires { IsHeld o.now }
    ensures { result ≡ object_digest o.now }
{
    let mut hasher = TextHasher::new();
    let len = o.entries().len() as u16;
    hasher.add(len.to_be_bytes().as_slice());
    add_entries(&mut hasher, o.entries());
    hasher.finish()
}

fn add_entries(hasher: &mut TextHasher, entries: &[Entry])
    requires { All IsShort entries.now }
    ensures { Adds hasher.old hasher.new (flat_map (entry 0).spell entries.now) }
{
    for entry in entries {
        add_entry(hasher, entry);
    }
}

fn add_entry(hasher: &mut TextHasher, e: &Entry)
    requires { IsShort e.now }
    ensures { Adds hasher.old hasher.new ((entry 0).spell e.now) }
{
    add_writer(hasher, e.id());
    hasher.add(e.count().to_be_bytes().as_slice());
    let len = e.values().len() as u16;
    hasher.add(len.to_be_bytes().as_slice());
    add_values(hasher, e.values());
}

fn add_writer(hasher: &mut TextHasher, writer: Actor)
    ensures { Adds hasher.old hasher.new ((writer_from 0).spell writer) }
{
    hasher.add(writer.node().number().to_be_bytes().as_slice());
    hasher.add(writer.incarnation().to_be_bytes().as_slice());
}

fn add_values(hasher: &mut TextHasher, values: &[Value])
    ensures { Adds hasher.old hasher.new (flat_map value.spell values.now) }
{
    for value in values {
        add_value(hasher, value);
    }
}

fn add_value(hasher: &mut TextHasher, v: &Value)
    ensures { Adds hasher.old hasher.new (value.spell v.now) }
{
    match v.body() {
        None => {
            hasher.add([0].as_slice());
            hasher.add(v.stamp().to_be_bytes().as_slice());
        }
        Some(bytes) => {
            hasher.add([1].as_slice());
            hasher.add(v.stamp().to_be_bytes().as_slice());
            add_name(hasher, bytes);
        }
    }
}
