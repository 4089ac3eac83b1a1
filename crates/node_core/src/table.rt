//! A store that is filled from a table.

ghost use Rattle.std.specs.Prelude.{◌≡◌, IfOk};
ghost use Rattle.meta_store.specs.Table.{IsTable};

use dvvset::Entries;
use meta_store::Store;
use meta_types::MetaKey;
use std::alloc::{AllocError, Global};

/// Returns the store that holds these objects under these keys. Fails only when memory runs out.
pub(crate) fn store_of(alloc: Global, rows: Vec<(MetaKey, Entries)>) -> Result<Store, AllocError>
    requires { IsTable rows.items }
    ensures { IfOk result (λ store. store ≡ rows.items) }
{
    let mut store = Store::new(alloc);
    for row in rows {
        let (key, object) = row;
        store.hold(key, object)?;
    }
    Ok(store)
}
