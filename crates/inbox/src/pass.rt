use crate::parcel::Parcel;
use crate::rule::Knowledge;
use crossbeam_queue::Pass;
use std::marker::Model;

/// The right to put frames into one inbox, for one sender. It takes no memory, and goes to the
/// thread of its sender.
#[derive(Drop)]
pub struct PutPass {
    pub(crate) pass: Pass<Parcel, Knowledge>,
    pub(crate) from: u64,
}

impl Model for PutPass {
    ghost use Rattle.std.specs.Prelude.{◌≡◌, [], true};
    ghost use Rattle.crossbeam_queue.specs.Passes.{view as knowledge};
    ghost use Rattle.inbox.specs.Views.{PutView};

    ghost Value = { PutView };

    ghost view = { λ a. record {
      line = a.pass.table_id;
      from = a.from;
      put = (knowledge a.pass).put;
    } };

    ghost invariant = { λ a. (a.pass.me.1 ≡ []) × ((knowledge a.pass).sends ≡ true)
        × ((knowledge a.pass).from ≡ a.from) };
}

/// The right to take frames out of one inbox. There is one for each inbox; it takes no memory.
#[derive(Drop)]
pub struct TakePass {
    pub(crate) pass: Pass<Parcel, Knowledge>,
}

impl Model for TakePass {
    ghost use Rattle.std.specs.Prelude.{◌≡◌, [], true};
    ghost use Rattle.crossbeam_queue.specs.Passes.{view as knowledge};
    ghost use Rattle.inbox.specs.Views.{TakeView};

    ghost Value = { TakeView };

    ghost view = { λ a. record {
      line = a.pass.table_id;
      taken = (knowledge a.pass).taken;
      made = (knowledge a.pass).made;
      back = (knowledge a.pass).back;
    } };

    ghost invariant = { λ a. (a.pass.me.1 ≡ []) × ((knowledge a.pass).takes ≡ true) };
}
