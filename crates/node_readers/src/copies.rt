//! The two copies of the table, one of which readers take, and what is added to both.

ghost use Rattle.std.specs.Prelude.{◌≡◌, length};
ghost use Rattle.std.specs.Fn.{FnOnceReturnsAt};
ghost use Rattle.node_readers.specs.Spread.{object_in, bucket_count};

use crate::spread::SpreadTable;
use crate::{Extent, Naming, Published, Revision};
use dvvset::Entries;
use left_right::Absorb;
use meta_types::MetaKey;
use std::alloc::{AllocError, Global};
use std::marker::Model;

/// The table that readers take, and the history up to it.
#[derive(Drop)]
pub struct PublishedTable {
    alloc: Global,
    table: SpreadTable,
    extent: Extent,
}

impl Model for PublishedTable {
    ghost use Rattle.node_readers.specs.Copies.{TableView};

    ghost Value = { TableView };

    ghost view = { λ p. record {
      book = p.extent.book;
      list = p.extent.list;
      spread = p.table;
    } };
}

impl PublishedTable {
    pub(crate) fn new<J: Naming>(alloc: Global, table: SpreadTable, revision: &Revision<J>) -> Self
        ensures book { result.book ≡ J.book }
        ensures list { result.list ≡ revision.now }
        ensures spread { result.spread ≡ table }
        ensures whole { length result.spread ≡ bucket_count }
    {
        PublishedTable {
            alloc,
            table,
            extent: revision.extent().again(),
        }
    }

    /// Returns how far the history of the table goes.
    pub(crate) fn revision<J: Naming>(&self) -> Revision<J>
        requires { self.now.book ≡ J.book }
        ensures { result ≡ self.now.list }
    {
        Revision::of(&self.extent)
    }

    /// Calls `look` with the object under the key, and returns what it returned. The key is
    /// searched for once.
    pub(crate) fn look_with<T, F: FnOnce(&Entries) -> T>(&self, key: &MetaKey, look: F) -> T
        requires { F.IsAlwaysCallable look }
        ensures { FnOnceReturnsAt F.FnOnce look (object_in self.now.spread key.now) result }
    {
        let absent = Entries::empty(self.alloc);
        look(self.table.object(key).unwrap_or(&absent))
    }
}

/// A change, and the history that it ends.
#[derive(Drop)]
pub struct Addition {
    change: Published,
    extent: Extent,
}

impl Model for Addition {
    ghost use Rattle.node_readers.specs.Copies.{AdditionView};

    ghost Value = { AdditionView };

    ghost view = { λ a. record {
      book = a.extent.book;
      list = a.extent.list;
      change = a.change;
    } };
}

impl Addition {
    pub(crate) fn new<J: Naming>(change: Published, revision: &Revision<J>) -> Self
        ensures book { result.book ≡ J.book }
        ensures list { result.list ≡ revision.now }
        ensures change { result.change ≡ change }
    {
        Addition {
            change,
            extent: revision.extent().again(),
        }
    }
}

/// A copy takes a change in. Fails only when memory runs out.
impl Absorb<Addition> for PublishedTable {
    ghost use Rattle.node_readers.specs.Copies.{taken_in};

    type State = PublishedTable;

    ghost state = { λ p. p };

    ghost applied = { taken_in };

    fn absorb_first(
        &mut self,
        addition: &Addition,
        _other: &PublishedTable,
    ) -> Result<(), AllocError> {
        let change = &addition.change;
        let (key, object) = (change.key().copy()?, change.object().copy()?);
        self.table.hold(key, object)?;
        self.extent = addition.extent.again();
        Ok(())
    }
}
