//! Laws of refusals. The contract of each function is the law; its body does nothing.

ghost use Rattle.run_record.specs.Record.{ARunHasNoCause, WhatIsClosedIsEqual};
ghost use Rattle.run_record.specs.Refusal.{AStuckRunHasNoOrder};

/// If some entries wait for one another, no order has each after one that gives what it needs.
pub fn a_stuck_run_has_no_order()
    ensures { AStuckRunHasNoOrder }
{}

/// Whole journals each of which is a run that ends with its table, as `node_lock::Node::close`
/// leaves them, are never refused with 62.
pub fn what_is_closed_is_equal()
    ensures { WhatIsClosedIsEqual }
{}

/// Whole journals of a run of a world, with receipts of their entries, are refused only when memory
/// runs out, as long as no write names the read of a `PutOver`, which no reply hands out.
pub fn a_run_has_no_cause()
    ensures { ARunHasNoCause }
{}
