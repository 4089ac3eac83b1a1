//! Laws of trees. Each function does nothing: its contract is the law.

ghost use Rattle.std.specs.Prelude.{◌≡◌, ◌⊎◌, List};
ghost use Rattle.meta_types.specs.Name.{Key};
ghost use Rattle.dvvset.specs.Object.{Entry};
ghost use Rattle.meta_store.specs.Table.{IsTable, Table, with_object, without_object};
ghost use Rattle.hash_tree.specs.Tree.{object_digest, rows_of, tree_root, with_digest, without_digest};
ghost use Rattle.hash_tree.specs.Hashed.{Collides};

/// After a write or a fresh merge, an update with the digest of the new object makes the rows of
/// the tree those of the new table.
pub fn an_update_follows_a_change_of_the_table()
    ensures { (table : Table) (key : Key) (object : List Entry)
        → rows_of (with_object key object table)
        ≡ with_digest key (object_digest object) (rows_of table) }
{}

/// After a key was forgotten in the table, forgetting it in the tree makes the rows of the tree
/// those of the new table.
pub fn forgetting_follows_the_table()
    ensures { (table : Table) (key : Key)
        → rows_of (without_object key table) ≡ without_digest key (rows_of table) }
{}

/// Tables whose trees have equal roots are equal, unless two unequal byte strings that are hashed
/// for them, or for an empty full prefix, have one digest.
pub fn equal_roots_mean_equal_tables()
    ensures { (here there : Table) → IsTable here → IsTable there
        → tree_root (rows_of here) ≡ tree_root (rows_of there)
        → (here ≡ there) ⊎ Collides here there }
{}
