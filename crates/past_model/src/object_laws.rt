//! The laws of the object machine, over histories. Each function does nothing: its contract is the
//! law.

ghost use Rattle.std.specs.Prelude.{◌≡◌, ◌≢◌, ◌↔◌, ◌∷◌, ◌++◌, [], ℕ, true, List, Option, length};
ghost use Rattle.meta_types.specs.Name.{Key};
ghost use Rattle.meta_types.specs.Value.{ValueParts};
ghost use Rattle.dvvset.specs.Clock.{descends, join, sync, values_of};
ghost use Rattle.past_model.specs.declared.happening.Happening.{Happening as H};
ghost use Rattle.past_model.specs.Sets.{IsSubset};
ghost use Rattle.past_model.specs.Past.{known, load, image, incarnation_of, past, seen, writer_of, writes};
ghost use Rattle.past_model.specs.History.{IsHistory};
ghost use Rattle.past_model.specs.Shown.{IsObjectOf};
ghost use Rattle.past_model.specs.Objects.{first_objects, held_object, image_object, incarnation, last_image, next_objects, objects, seen_object, sent_object, next_writer};
ghost use Rattle.past_model.specs.ObjectLaws.{AfterDelivery, AfterKeeping, AfterLook, AfterRestart, AfterSending, AfterWrite};

/// What a node holds, what a read saw, what was sent, and what an image has are the objects of the
/// sets of writes that the past has there. The machine's lives, its writers and its numbers of
/// images are the past's.
pub fn each_object_is_that_of_its_set()
    ensures held { (hs : List H) → IsHistory hs → (n : ℕ) (k : Key)
        → IsObjectOf (writes hs) k (known hs n k) (held_object hs n k) }
    ensures seen { (hs : List H) → IsHistory hs → (p : ℕ) (k : Key)
        → IsObjectOf (writes hs) k (seen hs p k) (seen_object hs p k) }
    ensures sent { (hs : List H) → IsHistory hs → (p : ℕ) (k : Key)
        → IsObjectOf (writes hs) k (load hs p k) (sent_object hs p k) }
    ensures images { (hs : List H) → IsHistory hs → (n j : ℕ) (k : Key)
        → IsObjectOf (writes hs) k (image hs n j k) (image_object hs n j k) }
    ensures lives { (hs : List H) (n : ℕ) → incarnation hs n ≡ incarnation_of (past hs) n }
    ensures writers { (hs : List H) (n : ℕ) → next_writer hs n ≡ writer_of (past hs) n }
    ensures numbers { (hs : List H) (n : ℕ) → last_image hs n ≡ (past hs).last n }
{}

/// The machine starts with nothing and goes on with each happening: what that changes, and that all
/// else stays. The place of the next happening is the number of those before it.
pub fn the_machine_goes_on_with_each_happening()
    ensures first { objects [] ≡ first_objects }
    ensures step { (hs : List H) (h : H) → objects (hs ++ h ∷ []) ≡ next_objects (objects hs) h }
    ensures place { (hs : List H) → (objects hs).next ≡ length hs }
    ensures wrote { (hs : List H) (n : ℕ) (k : Key) (v : ValueParts) (r : Option ℕ)
        → AfterWrite hs n k v r }
    ensures looked { (hs : List H) (n : ℕ) (k : Key) → AfterLook hs n k }
    ensures sent { (hs : List H) (n : ℕ) (k : Key) → AfterSending hs n k }
    ensures got { (hs : List H) (n i : ℕ) → AfterDelivery hs n i }
    ensures kept { (hs : List H) (n : ℕ) (k : Key) → AfterKeeping hs n k }
    ensures restarted { (hs : List H) (n j : ℕ) → AfterRestart hs n j }
{}

/// What was sent is stale for a node, by vectors, exactly if the node knows all that the sender
/// knew; then merging it changes nothing.
pub fn a_delivery_is_stale_where_it_is_known()
    ensures exactly { (hs : List H) → IsHistory hs → (n i : ℕ) (k : Key)
        → (descends (join (held_object hs n k)) (join (sent_object hs i k)) ≡ true)
        ↔ IsSubset (load hs i k) (known hs n k) }
    ensures unchanged { (hs : List H) → IsHistory hs → (n i : ℕ) (k : Key)
        → descends (join (held_object hs n k)) (join (sent_object hs i k)) ≡ true
        → sync (held_object hs n k) (sent_object hs i k) ≡ held_object hs n k }
{}

/// What is held, what was sent, and the merge of both show a value, unless they are the absent
/// object.
pub fn what_is_held_shows_a_value()
    ensures held { (hs : List H) → IsHistory hs → (n : ℕ) (k : Key)
        → held_object hs n k ≢ [] → values_of (held_object hs n k) ≢ [] }
    ensures sent { (hs : List H) → IsHistory hs → (p : ℕ) (k : Key)
        → sent_object hs p k ≢ [] → values_of (sent_object hs p k) ≢ [] }
    ensures merged { (hs : List H) → IsHistory hs → (n p : ℕ) (k : Key)
        → sync (held_object hs n k) (sent_object hs p k) ≢ []
        → values_of (sync (held_object hs n k) (sent_object hs p k)) ≢ [] }
{}
