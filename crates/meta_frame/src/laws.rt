//! Laws of the spelling of frames, and of faults. The contract of a function is the law; its body
//! does nothing, or compares.

ghost use Rattle.std.specs.Prelude.{◌≡◌, ◌↔◌, ◌++◌, ◌⊎◌, ◌<◌, [], ℕ, List, All, IsTrue};
ghost use Rattle.frame_fields.specs.Field.{prefix, key, vector, object};
ghost use Rattle.meta_frame.specs.Front.{IsUnambiguous};
ghost use Rattle.meta_frame.specs.declared.message.Frame.{Frame};
ghost use Rattle.meta_frame.specs.declared.fault.FrameFault.{FrameFault as Fault};
ghost use Rattle.meta_frame.specs.Frame.{Spells, RefusesBytes};

use crate::fault::FrameFault;

/// A frame has one spelling.
pub fn one_spelling_for_a_frame()
    ensures { (frame : Frame) (bytes others : List ℕ) → Spells frame bytes → Spells frame others
        → bytes ≡ others }
{}

/// Bytes spell one frame.
pub fn one_frame_for_a_spelling()
    ensures { (frame other : Frame) (bytes : List ℕ) → Spells frame bytes → Spells other bytes
        → frame ≡ other }
{}

/// No spelling is a proper front of another.
pub fn no_spelling_begins_another()
    ensures { (frame other : Frame) (bytes rest : List ℕ) → Spells frame bytes
        → Spells other (bytes ++ rest) → rest ≡ [] }
{}

/// Bytes have one refusal.
pub fn one_refusal_for_bytes()
    ensures { (bytes : List ℕ) (fault other : Fault) → RefusesBytes bytes fault
        → RefusesBytes bytes other → fault ≡ other }
{}

/// What spells a frame has no refusal.
pub fn no_refusal_beside_a_frame()
    ensures { (frame : Frame) (bytes : List ℕ) (fault : Fault) → Spells frame bytes
        → RefusesBytes bytes fault → ⊥ }
{}

/// Bytes spell a frame or have a refusal.
pub fn a_frame_or_a_refusal()
    ensures { (bytes : List ℕ) → All (λ b. b < 256) bytes → ((frame : Frame) × Spells frame bytes)
        ⊎ ((fault : Fault) × RefusesBytes bytes fault) }
{}

/// Bytes begin with one value of a field at most, or have one fault, and never both.
pub fn fields_are_unambiguous()
    ensures prefix { IsUnambiguous prefix }
    ensures key { IsUnambiguous key }
    ensures vector { IsUnambiguous vector }
    ensures object { IsUnambiguous object }
{}

/// Faults are equal exactly if they are the same.
pub fn equal_faults_are_the_same(one: &FrameFault, other: &FrameFault) -> bool
    ensures { IsTrue result ↔ (one.now ≡ other.now) }
{
    one == other
}
