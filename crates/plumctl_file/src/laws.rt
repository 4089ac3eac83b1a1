//! A law of refusals. The contract of the function is the law; its body does nothing.

ghost use Rattle.std.specs.Prelude.{◌≡◌, ◌↔◌, ℕ, List, None, Err, IsTrue};
ghost use Rattle.node_file.specs.File.{opened};
ghost use Rattle.node_file.specs.declared.fault.FileFault.TheVariants.{Damaged};
ghost use Rattle.plumctl_file.specs.Report.{begins_otherwise};

/// Bytes are damaged at 0 exactly if they begin as no node file does.
pub fn damage_at_0_is_another_beginning()
    ensures { (bytes : List ℕ)
        → (opened None bytes ≡ Err (Damaged 0)) ↔ IsTrue (begins_otherwise bytes) }
{}
