//! A law of verdicts. The contract of the function is the law; its body does nothing.

ghost use Rattle.plumctl_live.specs.Live.{NoRunIsUnequal};

/// What the threads of a cluster left is never refused with 62 `Unequal`.
pub fn no_run_is_unequal()
    ensures { NoRunIsUnequal }
{}
