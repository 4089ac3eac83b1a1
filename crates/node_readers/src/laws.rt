//! Laws of published changes and of the tables that they make. The contract of a function is the
//! law; its body does nothing.

ghost use Rattle.std.specs.Prelude.{◌≡◌, ◌++◌, ◌∷◌, [], List};
ghost use Rattle.meta_store.specs.Table.{Table};
ghost use Rattle.node_readers.specs.Growth.{GrowthGoesOn, GrowthGoesOnByAll, OneMoreGrowsToo};
ghost use Rattle.node_readers.specs.Published.{Published, with_all, with_published};

/// The change that is published last is put in last.
pub fn the_last_change_is_put_in_last()
    ensures { (opening : Table) (list : List Published) (change : Published)
        → with_all opening (list ++ change ∷ []) ≡ with_published (with_all opening list) change }
{}

/// A table that has only grown and grows by one more change has only grown.
pub fn growth_goes_on()
    ensures { GrowthGoesOn }
{}

/// A table that has only grown and grows by all of some changes has only grown.
pub fn growth_goes_on_by_all()
    ensures { GrowthGoesOnByAll }
{}

/// A table that grows by all of some changes, and then by one more, grows by all of them.
pub fn one_more_grows_too()
    ensures { OneMoreGrowsToo }
{}
