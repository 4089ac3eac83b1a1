//! What an image has: what it changes, and otherwise what its base has.

ghost use Rattle.std.specs.Prelude.{◌≡◌, ◌≤◌, [], length, IfOk, IfSome};
ghost use Rattle.std.specs.Option.{unwrap_or};
ghost use Rattle.meta_store.specs.Table.{IsHeld};
ghost use Rattle.restart_images.specs.Image.{instead};
ghost use Rattle.restart_images.specs.Images.{ChangeEarlier, holdings};

use crate::{Image, Images};
use dvvset::Entries;
use meta_types::MetaKey;
use std::alloc::AllocError;

/// Returns a copy of what the image of that number has under the key, or `None` for the absent
/// object. Fails only when memory runs out.
pub fn object_in(
    images: &Images,
    number: usize,
    key: &MetaKey,
) -> Result<Option<Entries>, AllocError>
    requires number { number ≤ length images.now }
    requires earlier { ChangeEarlier images.now }
    ensures value { IfOk result
        (λ object. unwrap_or object [] ≡ holdings images.now number key.now) }
    ensures held { IfOk result (λ object. IfSome object IsHeld) }
{
    let mut at = number;
    while at > 0 {
        let image = images.at(at - 1);
        if let Some(object) = object_instead(&image, key)? {
            return Ok(Some(object));
        }
        at = image.base();
    }
    Ok(None)
}

/// Returns a copy of what stands under the key instead.
fn object_instead(image: &Image, key: &MetaKey) -> Result<Option<Entries>, AllocError>
    ensures value { IfOk result (λ object. object ≡ instead image.now.change key.now) }
    ensures held { IfOk result (λ object. IfSome object IsHeld) }
{
    match image.change() {
        Some(change) if key == change.key() => Ok(Some(change.object()?)),
        _ => Ok(None),
    }
}
