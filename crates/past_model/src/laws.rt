//! The laws of merging, writing and reading, over histories. Each function does nothing: its
//! contract is the law. Those that need more than a list of happenings ask for a history.

ghost use Rattle.std.specs.Prelude.{◌≡◌, ◌≢◌, ◌↔◌, ◌∷◌, ◌++◌, [], ℕ, true, List, Option, length};
ghost use Rattle.meta_types.specs.Name.{Key};
ghost use Rattle.meta_types.specs.Value.{ValueParts};
ghost use Rattle.dvvset.specs.Object.{Counter, Entry};
ghost use Rattle.dvvset.specs.Clock.{descends, join, sync, values_of};
ghost use Rattle.dvvset.specs.Writer.{count_of};
ghost use Rattle.past_model.specs.declared.happening.Happening.{Happening as H};
ghost use Rattle.past_model.specs.declared.happening.Happening.TheVariants.{Got, Wrote};
ghost use Rattle.past_model.specs.Sets.{IsSubset, Places, empty, singleton, union};
ghost use Rattle.past_model.specs.Past.{known, load, read, writes};
ghost use Rattle.past_model.specs.History.{IsHistory, NoRestart};
ghost use Rattle.past_model.specs.Shown.{IsClosed, IsContext, IsObjectOf, Shows};
ghost use Rattle.past_model.specs.Arisen.{HasWriteAfter, IsArisen, IsBelow, IsLeastUpperBound, IsObjectKnown, IsObjectRead, ReachesClosed, counter_of, object_after_write, writer_after};

/// Each of these is a closed set of writes: what a node knows, what a read saw, what was sent, what
/// a write had read, and what an image holds.
pub fn what_the_past_reaches_is_closed()
    ensures { (hs : List H) → IsHistory hs → (k : Key) → ReachesClosed hs k }
{}

/// A closed set of writes has an object, and only one; the empty set has the absent object. It
/// stays the object of that set while the history goes on.
pub fn a_closed_set_has_one_object()
    ensures exists { (hs : List H) → IsHistory hs
        → (k : Key) (S : Places) → IsClosed (writes hs) k S
        → (object : List Entry) × IsObjectOf (writes hs) k S object }
    ensures absent { (hs : List H) (k : Key) → IsObjectOf (writes hs) k empty [] }
    ensures one { (hs : List H) (k : Key) (S : Places) (a b : List Entry)
        → IsObjectOf (writes hs) k S a → IsObjectOf (writes hs) k S b → a ≡ b }
    ensures stays { (hs more : List H) (k : Key) (S : Places) (a : List Entry)
        → IsObjectOf (writes hs) k S a → IsObjectOf (writes (hs ++ more)) k S a }
{}

/// The values of an object are those of the siblings, and a set has one list of them and one
/// context.
pub fn an_object_shows_the_siblings()
    ensures shows { (hs : List H) (k : Key) (S : Places) (a : List Entry)
        → IsObjectOf (writes hs) k S a → Shows (writes hs) S (values_of a) }
    ensures one_list { (hs : List H) (S : Places) (vs us : List ValueParts)
        → Shows (writes hs) S vs → Shows (writes hs) S us → vs ≡ us }
    ensures one_context { (hs : List H) (S : Places) (cs ds : List Counter)
        → IsContext (writes hs) S cs → IsContext (writes hs) S ds → cs ≡ ds }
{}

/// The object of a set with a write in it shows a value, since no write of the set had read the
/// last one.
pub fn an_object_with_a_write_shows_a_value()
    ensures of_a_set { (hs : List H) (k : Key) (S : Places) (a : List Entry) (p : ℕ)
        → IsObjectOf (writes hs) k S a → S p ≡ true → values_of a ≢ [] }
    ensures arisen { (hs : List H) (k : Key) (a : List Entry) → IsArisen hs k a → a ≢ []
        → values_of a ≢ [] }
{}

/// Merging the objects of two closed sets gives the object of their union.
pub fn merging_is_union()
    ensures { (hs : List H) → IsHistory hs → (k : Key) (S T : Places) (a b : List Entry)
        → IsObjectOf (writes hs) k S a → IsObjectOf (writes hs) k T b
        → IsObjectOf (writes hs) k (union S T) (sync a b) }
{}

/// Merging the objects that arise in one history under one key gives such an object, and is
/// commutative, associative and idempotent.
pub fn merging_is_commutative_associative_and_idempotent()
    ensures arisen { (hs : List H) (k : Key) (a b : List Entry) → IsArisen hs k a → IsArisen hs k b
        → IsArisen hs k (sync a b) }
    ensures commutative { (hs : List H) (k : Key) (a b : List Entry) → IsArisen hs k a
        → IsArisen hs k b → sync a b ≡ sync b a }
    ensures associative { (hs : List H) (k : Key) (a b c : List Entry) → IsArisen hs k a
        → IsArisen hs k b → IsArisen hs k c
        → sync (sync a b) c ≡ sync a (sync b c) }
    ensures idempotent { (hs : List H) (k : Key) (a : List Entry) → IsArisen hs k a → sync a a ≡ a }
{}

/// The merge is above both objects, and below each arisen object that is above both.
pub fn merging_is_the_least_upper_bound()
    ensures { (hs : List H) (k : Key) (a b : List Entry) → IsArisen hs k a → IsArisen hs k b
        → IsLeastUpperBound hs k a b (sync a b) }
{}

/// A context descends another exactly if the other's set is a subset, and so exactly if the other
/// object is below.
pub fn descending_is_inclusion()
    ensures sets { (hs : List H) → IsHistory hs
        → (k : Key) (S T : Places) (a b : List Entry)
        → IsObjectOf (writes hs) k S a → IsObjectOf (writes hs) k T b
        → (descends (join b) (join a) ≡ true) ↔ IsSubset S T }
    ensures order { (hs : List H) (k : Key) (a b : List Entry) → IsArisen hs k a → IsArisen hs k b
        → (descends (join b) (join a) ≡ true) ↔ IsBelow hs k a b }
{}

/// Closed sets with equal contexts are equal, and so are their objects.
pub fn the_context_determines_the_set()
    ensures set { (hs : List H) → IsHistory hs
        → (k : Key) (S T : Places) (a b : List Entry)
        → IsObjectOf (writes hs) k S a → IsObjectOf (writes hs) k T b → join a ≡ join b
        → (p : ℕ) → S p ≡ T p }
    ensures object { (hs : List H) (k : Key) (a b : List Entry) → IsArisen hs k a → IsArisen hs k b
        → join a ≡ join b → a ≡ b }
{}

/// Once a node got what was sent, it knows that too, and its object is its former one merged with
/// the one that was sent.
pub fn a_delivery_adds_what_was_sent()
    ensures known { (hs : List H) (n i : ℕ) (k : Key)
        → known (hs ++ Got n i ∷ []) n k ≡ union (known hs n k) (load hs i k) }
    ensures object { (hs : List H) → IsHistory hs
        → (n i : ℕ) (k : Key) (a b : List Entry)
        → IsObjectKnown hs n k a → IsObjectOf (writes hs) k (load hs i k) b
        → IsObjectKnown (hs ++ Got n i ∷ []) n k (sync a b) }
{}

/// Once a node wrote, it knows also what the write had read, and the write; its object is the
/// former one after `update` with the context of what was read. The write's counter is the one that
/// the writer has in that object.
pub fn a_write_adds_what_it_read_and_itself()
    ensures known { (hs : List H) (n : ℕ) (k : Key) (v : ValueParts) (r : Option ℕ)
        → known (hs ++ Wrote n k v r ∷ []) n k
        ≡ union (known hs n k) (union (read hs k r) (singleton (length hs))) }
    ensures object { (hs : List H) → IsHistory hs
        → (n : ℕ) (k : Key) (v : ValueParts) (r : Option ℕ) (a b : List Entry)
        → IsObjectKnown hs n k a → IsObjectRead hs r k b
        → IsObjectKnown (hs ++ Wrote n k v r ∷ []) n k (object_after_write hs n v a b) }
    ensures counter { (hs : List H) → IsHistory hs
        → (n : ℕ) (k : Key) (v : ValueParts) (r : Option ℕ) (a b : List Entry)
        → IsObjectKnown hs n k a → IsObjectRead hs r k b
        → count_of (object_after_write hs n v a b) (writer_after hs n) ≡ counter_of hs n k v r }
{}

/// Two writes of one writer under one key have unequal counters.
pub fn no_two_writes_share_a_counter()
    ensures { (hs : List H) → IsHistory hs → (before earlier : List H) (n m counter : ℕ) (k : Key)
        → HasWriteAfter hs before n k counter → HasWriteAfter hs earlier m k counter
        → writer_after before n ≡ writer_after earlier m → before ≡ earlier }
{}

/// No incarnation number is used twice by a node: at two places of a history a node, and only it,
/// is the same writer exactly if it did not restart between them.
pub fn no_incarnation_is_used_twice()
    ensures { (before between after : List H) → IsHistory (before ++ between ++ after)
        → (n m : ℕ)
        → (writer_after before n ≡ writer_after (before ++ between) m)
        ↔ ((n ≡ m) × NoRestart n between) }
{}
