//! A file that is kept with its table.

ghost use Rattle.std.specs.Prelude.{◌≡◌, fold, map, true, IfOk, OnOk};
ghost use Rattle.meta_store.specs.Table.{with_object};
ghost use Rattle.node_desk.specs.Starting.{IsFileOf};
ghost use Rattle.node_file.specs.File.{file_state};

use crate::samples::refused;
use devices::{Device, MemoryDevice};
use dvvset::Entries;
use meta_store::Store;
use meta_store::size::may_be_held;
use meta_types::{MetaKey, both};
use node_file::{NewObject, NodeFile, has_room_for_all};
use std::alloc::Global;
use std::io;
use std::marker::Model;
use std::time::Instant;

/// A file in a life of its node, with its table. It is lent to the code that appends, so that
/// nothing else owns it if an append fails.
#[derive(Drop)]
pub(crate) struct Kept<D: Device> {
    file: NodeFile<D>,
    table: Store,
    /// Whether the table agrees with the file: no append failed.
    is_in_step: bool,
}

impl<D: Device> Model for Kept<D> {
    ghost use Rattle.std.specs.Prelude.{◌≡◌, true};
    ghost use Rattle.meta_store.specs.Table.{Table};
    ghost use Rattle.node_file.specs.File.{file_state};

    ghost Value = { Table };

    ghost view = { λ k. k.table };

    ghost invariant = { λ k. (k.file.is_served ≡ true) × (k.is_in_step ≡ true
        → (file_state (D.content k.file.device)).contents.table ≡ k.table) };
}

impl<D: Device + Drop> Kept<D> {
    /// Keeps a file that is in use, with its table.
    pub(crate) fn of(file: NodeFile<D>, table: Store) -> Kept<D>
        requires { IsFileOf D.content file.node file.life table file }
    {
        Kept {
            file,
            table,
            is_in_step: true,
        }
    }

    pub(crate) fn table(&self) -> &Store {
        &self.table
    }

    /// Returns how many bytes the device has.
    pub(crate) fn len(&self) -> usize {
        self.file.device().len()
    }

    /// Appends the object, and then holds a copy of it in the table. Returns how many nanoseconds
    /// the append took. Once an append failed, each is refused.
    pub(crate) fn append(
        &mut self,
        rt: &HostRuntime,
        key: &MetaKey,
        object: &Entries,
    ) -> io::Result<u128> {
        if !self.is_in_step || !may_be_held(object) || !self.table.has_room_for(key) {
            return Err(refused(()));
        }
        self.is_in_step = false;
        let start = Instant::now(rt)?;
        self.file.append(rt.alloc(), key, object).map_err(refused)?;
        let nanos = start.elapsed(rt)?.as_nanos();
        let (key, object) = (key.copy()?, object.copy()?);
        self.table.hold(key, object)?;
        self.is_in_step = true;
        Ok(nanos)
    }

    /// Appends the objects under the key at once, one after another and all of them or none, and
    /// then holds a copy of the last in the table. Once an append failed, each is refused.
    pub(crate) fn append_all(
        &mut self,
        alloc: Global,
        key: &MetaKey,
        objects: &[Entries],
    ) -> io::Result<()> {
        if !self.is_in_step {
            return Err(refused(()));
        }
        self.is_in_step = false;
        put_all(alloc, &mut self.file, &self.table, key, objects)?;
        hold_all(&mut self.table, key, objects)?;
        self.is_in_step = true;
        Ok(())
    }
}

/// Puts the objects into the file, which holds the table.
fn put_all<D: Device + Drop>(
    alloc: Global,
    file: &mut NodeFile<D>,
    table: &Store,
    key: &MetaKey,
    objects: &[Entries],
) -> io::Result<()>
    requires served { file.old.is_served ≡ true }
    requires table { (file_state (D.content file.old.device)).contents.table ≡ table.now }
    ensures served { file.new.is_served ≡ true }
    ensures table { OnOk result ((file_state (D.content file.new.device)).contents.table
        ≡ fold (λ t o. with_object key.now o t) table.now objects.now) }
{
    let rows = rows_of(alloc, key, objects)?;
    if !has_room_for_all(table, rows.as_slice()) {
        return Err(refused(()));
    }
    match file.append_all(alloc, rows.as_slice()) {
        Ok(()) => Ok(()),
        Err(fault) => Err(refused(fault)),
    }
}

/// Lends the objects, each under the key.
fn rows_of<'a>(
    alloc: Global,
    key: &'a MetaKey,
    objects: &'a [Entries],
) -> io::Result<Vec<NewObject<'a>>>
    ensures { IfOk result (λ rows. rows.items ≡ map (λ o. (key.now, o)) objects.now) }
{
    let mut rows = Vec::new(alloc);
    for object in objects {
        if !may_be_held(object) {
            return Err(refused(()));
        }
        rows.push(NewObject::new(key, object))?;
    }
    Ok(rows)
}

/// Holds copies of the objects under the key, each in place of the one before.
fn hold_all(table: &mut Store, key: &MetaKey, objects: &[Entries]) -> io::Result<()>
    ensures { OnOk result (table.new
        ≡ fold (λ t o. with_object key.now o t) table.old objects.now) }
{
    for object in objects {
        if !may_be_held(object) || !table.has_room_for(key) {
            return Err(refused(()));
        }
        let (key, object) = both(key.copy(), object.copy())?;
        table.hold(key, object)?;
    }
    Ok(())
}

impl Kept<MemoryDevice> {
    pub(crate) fn content(&self) -> &[u8] {
        self.file.device().content()
    }
}
