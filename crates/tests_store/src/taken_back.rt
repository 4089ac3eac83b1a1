//! Changes of what a node holds that are taken back.

ghost use Rattle.std.specs.Prelude.{◌≢◌, IfSome, None};
ghost use Rattle.std.specs.FinMap.{find};
ghost use Rattle.meta_types.specs.Order.{key_cmp};
ghost use Rattle.meta_store.specs.Table.{IsHeld};

use crate::parts::{Part, is_object, object};
use crate::trees::{Letters, filled, is_whole, key_of};
use dvvset::Entries;
use hash_tree::Held;
use meta_store::laws::what_is_held_is_found;
use meta_store::size::may_be_held;
use meta_types::MetaKey;
use std::alloc::Global;
use std::process::Abort;

/// The keys that are held, the key that changes, and how many full prefixes there are before the
/// change and after it.
type Row = (&'static [Letters], Letters, usize, usize);

// The keys j, Y and d stand in one leaf of their full prefix, and k in another.
static ROWS: [Row; 6] = [
    (&[], *b"abk", 0, 1),
    (&[*b"abk"], *b"abk", 1, 1),
    (&[*b"abk"], *b"cdk", 1, 2),
    (&[*b"abk", *b"cdk"], *b"abj", 2, 2),
    (&[*b"abj", *b"abY", *b"abk"], *b"abd", 1, 1),
    (&[*b"abj", *b"abY", *b"abd", *b"abk"], *b"abY", 1, 1),
];

/// What stands under each key that is held, and what a change puts there.
static FORMER: [Part; 1] = [(0, 1, 1, b"x")];

static LATER: [Part; 1] = [(1, 1, 1, b"y")];

/// Holds the object under the key, and returns what was held there.
fn put(rt: &impl Abort, held: &mut Held, key: &MetaKey, object: Entries) -> Option<Entries>
    ensures found { find key_cmp key.now held.new ≢ None }
    ensures lawful { IfSome result IsHeld }
{
    what_is_held_is_found();
    let fits = may_be_held(&object) && held.store().has_room_for(key);
    assert!(rt; fits);
    held.replace(key, object).expect(rt, "memory")
}

/// Returns whether the key shows the object of these parts, or nothing is held there if there are
/// none; and whether the tree is the one of all keys at once, with `len` full prefixes.
fn shows(
    rt: &impl Abort,
    alloc: Global,
    held: &Held,
    key: &MetaKey,
    parts: Option<&[Part]>,
    len: usize,
) -> bool {
    let is_shown = match (held.store().object(key), parts) {
        (Some(object), Some(parts)) => is_object(rt, alloc, object, parts),
        (None, None) => true,
        _ => false,
    };
    is_shown && is_whole(rt, alloc, held.tree(), held.store(), len)
}

/// Changes what is held under the key of the row, and takes that back. Returns whether all is as it
/// is to be before, between and after.
fn is_taken_back(rt: &impl Abort, alloc: Global, row: &Row) -> bool {
    let (keys, letters, first, between) = row;
    let mut held = Held::new(alloc, filled(rt, alloc, keys)).expect(rt, "memory");
    let key = key_of(rt, alloc, *letters);
    let former = if held.store().object(&key).is_some() {
        Some(FORMER.as_slice())
    } else {
        None
    };
    let is_first = shows(rt, alloc, &held, &key, former, *first);
    let before = put(rt, &mut held, &key, object(rt, alloc, &LATER, 1, 1));
    let is_put = shows(rt, alloc, &held, &key, Some(&LATER), *between);
    held.put_back(&key, before);
    is_first & is_put & shows(rt, alloc, &held, &key, former, *first)
}

fn are_taken_back(rt: &impl Abort, alloc: Global) -> bool {
    for row in &ROWS {
        if !is_taken_back(rt, alloc, row) {
            return false;
        }
    }
    true
}

#[test]
fn a_change_is_taken_back_in_store_and_tree(rt: HostRuntime) {
    assert!(rt; are_taken_back(&rt, rt.alloc()));
}
