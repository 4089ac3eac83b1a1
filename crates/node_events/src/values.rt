ghost use Rattle.std.specs.Prelude.{◌≡◌, IfOk};

use dvvset::copy_values;
use meta_types::Value;
use std::alloc::AllocError;
use std::marker::Model;

/// Values that a read shows, in their order.
#[derive(Debug, Drop)]
pub struct Values {
    values: Vec<Value>,
}

impl Model for Values {
    ghost use Rattle.std.specs.Prelude.{List};
    ghost use Rattle.meta_types.specs.Value.{ValueParts};

    ghost Value = { List ValueParts };

    ghost view = { λ v. v.values.items };
}

impl Values {
    pub fn new(values: Vec<Value>) -> Self
        ensures { result ≡ values.items }
    {
        Values { values }
    }

    /// Returns the values, without taking memory.
    pub fn into_vec(self) -> Vec<Value>
        ensures { result.items ≡ self }
    {
        self.values
    }

    pub fn as_slice(&self) -> &[Value]
        ensures { result.now ≡ self.now }
    {
        self.values.as_slice()
    }

    /// Fails only when memory runs out.
    pub fn copy(&self) -> Result<Self, AllocError>
        ensures { IfOk result (λ copy. copy ≡ self.now) }
    {
        let values = copy_values(*self.values.allocator(), self.values.as_slice())?;
        Ok(Values { values })
    }
}

impl PartialEq for Values {
    ghost use Rattle.std.specs.Prelude.{◌≡◌, ◌↔◌, IsTrue};
    ghost use Rattle.dvvset.specs.Equal.{values_eq};
    ghost use Rattle.node_events.specs.Equal.{values_equivalence};
    ghost use Rattle.std.specs.Cmp.{partial_equiv_from_equiv};

    ghost eq = { values_eq };

    ghost laws = { partial_equiv_from_equiv values_equivalence };

    fn eq(&self, other: &Values) -> bool
        ensures value { result ≡ values_eq self.now other.now }
        ensures same { IsTrue result ↔ (self.now ≡ other.now) }
    {
        self.values.as_slice() == other.values.as_slice()
    }
}

impl Eq for Values {
    ghost use Rattle.node_events.specs.Equal.{values_equivalence};

    ghost laws = { values_equivalence };
}
