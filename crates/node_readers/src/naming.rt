use std::marker::Brand;
use std::sync::ledger::Ledger;

/// Which node it is, in which of its lives: what all parts of one running node agree on. It exists
/// only in proofs; a call that starts a node picks it.
pub trait Naming: Ledger {
    ghost use Rattle.std.specs.Prelude.{ℕ};
    ghost use Rattle.logbook.specs.Pages.{Book};
    ghost use Rattle.meta_store.specs.Table.{Table};

    // its history
    ghost book: { Book };

    ghost node: { ℕ };

    ghost incarnation: { ℕ };

    // the table that it opened with, before any change of its history
    ghost opening: { Table };
}

impl Naming for Brand {
    ghost use Rattle.std.specs.Prelude.{[]};

    ghost book = { record { number = 0; log_name = 0; cells_name = 0 } };

    ghost node = { 0 };

    ghost incarnation = { 1 };

    ghost opening = { [] };
}
