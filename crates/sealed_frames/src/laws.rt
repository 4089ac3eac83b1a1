//! Laws of seals. The contract of a function is the law; its body does nothing.

ghost use Rattle.std.specs.Prelude.{◌≡◌, ◌⊎◌, ℕ, List, All, Contains, map};
ghost use Rattle.sealed_frames.specs.Seal.{IsKeyOf, IsSealed, frame_in, sealed_frame};
ghost use Rattle.sealed_frames.specs.Forged.{IsForged};
ghost use Rattle.sealed_frames.specs.declared.key.Keys.{Keys};

/// What was sealed under the current or the previous key opens, by what [`open`](crate::open)
/// ensures, and gives the frame that was sealed.
pub fn what_was_sealed_opens()
    ensures { (keys : Keys) (key frame : List ℕ) → IsKeyOf keys key
        → IsSealed keys (sealed_frame key frame) × (frame_in (sealed_frame key frame) ≡ frame) }
{}

/// If these are all byte strings that were sealed under the keys, then bytes that open are one of
/// them; or they are forged: two unequal frames have one seal, or a right seal was found that
/// stands behind none of them.
pub fn what_opens_was_sealed_or_is_forged()
    ensures { (keys : Keys) (sealed : List (List ℕ)) (bytes : List ℕ)
        → All (IsSealed keys) sealed → IsSealed keys bytes
        → Contains sealed bytes ⊎ IsForged keys sealed bytes }
{}

/// If these are the frames that the nodes of a cluster sent, as a world lists them, each with the
/// one of the keys under which it was sealed, then bytes that open give one of these frames; or
/// they are forged.
pub fn what_opens_was_sent_or_is_forged()
    ensures { (keys : Keys) (sent : List (List ℕ × List ℕ)) (bytes : List ℕ)
        → All (λ s. IsKeyOf keys s.0) sent → IsSealed keys bytes
        → Contains (map (λ s. s.1) sent) (frame_in bytes)
        ⊎ IsForged keys (map (λ s. sealed_frame s.0 s.1) sent) bytes }
{}
