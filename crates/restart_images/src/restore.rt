//! A store from an image.

ghost use Rattle.std.specs.Prelude.{◌≡◌, ◌≤◌, length, IfOk, OnOk};
ghost use Rattle.meta_types.specs.Name.{Key};
ghost use Rattle.meta_store.specs.Table.{IsTable, object_at};
ghost use Rattle.restart_images.specs.Restore.{HasRoomFor, filled};
ghost use Rattle.restart_images.specs.Images.{ChangeEarlier, IsChange, IsTabled, holdings};

use crate::{Image, Images};
use meta_store::Store;
use std::alloc::{AllocError, Global};

/// Holds what the image has instead of its base, if nothing is held under that key.
fn fill(store: &mut Store, image: &Image) -> Result<(), AllocError>
    requires { IsChange image.now.change → HasRoomFor store.old image.now.change }
    ensures value { OnOk result (store.new ≡ filled store.old image.now.change) }
    ensures is_table { OnOk result (IsTable store.new) }
{
    if let Some(change) = image.change() {
        if store.object(change.key()).is_none() {
            store.hold(change.key().copy()?, change.object()?)?;
        }
    }
    let _ = store.len();
    Ok(())
}

/// Returns a store that holds what the image of that number has. Fails only when memory runs out.
pub(crate) fn restore(alloc: Global, images: &Images, number: usize) -> Result<Store, AllocError>
    requires number { number ≤ length images.now }
    requires earlier { ChangeEarlier images.now }
    requires tabled { IsTabled (holdings images.now number) }
    ensures value { IfOk result (λ store. (key : Key)
        → object_at store key ≡ holdings images.now number key) }
{
    let mut store = Store::new(alloc);
    let mut at = number;
    let _ = store.len();
    while at > 0 {
        let image = images.at(at - 1);
        fill(&mut store, &image)?;
        at = image.base();
    }
    Ok(store)
}
