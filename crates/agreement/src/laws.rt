//! The laws of what is forgotten, of rounds, of trees, and of exchanges and a broadcast in a world.
//! The contract of a function is the law; its body does nothing, or says of which world.

ghost use Rattle.std.specs.Prelude.{◌≡◌, ◌≢◌, ◌↔◌, ◌⊎◌, ◌∷◌, ◌++◌, ◌<◌, ◌≤◌, ◌+◌, ◌*◌, ◌%◌, ◌^◌, ◌||◌, ℕ, [], true, false, List, length, map, Ok};
ghost use Rattle.meta_types.specs.Name.{Key};
ghost use Rattle.meta_types.specs.Value.{ValueParts};
ghost use Rattle.dvvset.specs.Object.{Entry};
ghost use Rattle.past_model.specs.declared.happening.Happening.{Happening as H};
ghost use Rattle.past_model.specs.Sets.{Places};
ghost use Rattle.past_model.specs.Past.{known, writes};
ghost use Rattle.past_model.specs.History.{IsHistory};
ghost use Rattle.past_model.specs.Arisen.{IsObjectKnown};
ghost use Rattle.agreement.specs.Left.{AreLeftNowhere, HasNone, HasOverwritten, IsLeftOverwritten, OfAllLeft, ShowsOthers, ShowsWriteAt};
ghost use Rattle.agreement.specs.Stories.{after_deletion, after_keeping, after_loss, deleted, deleted_elsewhere, lost, lost_writes, one_key};
ghost use Rattle.agreement.specs.Rounds.{AreOfFirst, AreRounds, Exchange, IsRound, Known, KnowAll, after_all, after_rounds, count_known, exchanges_of, have_met, is_busy, own, takes_part};
ghost use Rattle.agreement.specs.Schedules.{four_rounds, log_up, rounds_for};
ghost use Rattle.agreement.specs.Tree.{IsSameTree, IsTree, after_passing_all, in_and_out, is_in, outwards};
ghost use Rattle.agreement.specs.Meeting.{SufficeFor, after_meetings};
ghost use Rattle.agreement.specs.World.{AllShowTheSame, BothHoldAll, CollidesAlong, CollidesIn, CollidesInRounds, DeliverAll, Exchanges, IsIdle, KnowAfterAll, KnowWhatRootKnew, RoundsInTurn, RunsAlong, ShowTheSame, ShowTheSameInTree};
ghost use Rattle.agreement.specs.Window.{AllAreDelivered};
ghost use Rattle.agreement.specs.Broadcast.{Broadcasts, DeliverInAnyOrder, HoldTheSame, IsEagerTree, IsNewWrite, IsWriteOf, KnowUnderWhatRootKnew, KnowWhatWasPassedOn, NoneKnewMore, SendsGossip, eager_of};
ghost use Rattle.plumtree.specs.Lawful.{HasLinks};
ghost use Rattle.world_core.specs.declared.answer.Accepted.{Accepted};
ghost use Rattle.world_core.specs.Knowledge.{OfAllTold};
ghost use Rattle.world_core.specs.Outcome.{Passes};
ghost use Rattle.world_core.specs.Refusal.{node_at};
ghost use Rattle.world_core.specs.World.{World as W};

use world_core::World;
use world_core::laws::a_world_tells_a_history;

/// Writes that are left nowhere are forgotten for good: if no node knows any of them, no image from
/// which a node restarts later has one, no object that was sent before and is got later, and no
/// context that was read before and is used later, then no node knows any of them at any later
/// place.
///
/// `after` is what happens up to the later place. The writes stand in `before`; a later write isn't
/// one of them, even of the same value.
pub fn what_is_left_nowhere_is_forgotten()
    ensures { (before after : List H) (k : Key) (W : Places) → AreLeftNowhere W before after k
        → (n : ℕ) → HasNone W (known (before ++ after) n k) }
{}

/// An overwritten value doesn't come back: if each node that knows the write also knows one that
/// had read it, and so do each image from which a node restarts later and each object that was sent
/// before and is got later, then no node shows its value at any later place.
///
/// Contexts need no premise, since a write that is made with one that saw the old write has itself
/// read it. What a node's images start from does: an image that is made later, for another key, may
/// otherwise have the old write without the newer one.
///
/// So the values of the object that a node then holds are those of other writes. One of them may
/// have written the same bytes.
pub fn an_overwritten_write_is_never_shown_again()
    ensures sibling { (before after : List H) (k : Key) (p : ℕ)
        → IsLeftOverwritten before after k p
        → (n : ℕ) → ShowsWriteAt (before ++ after) n k p → ⊥ }
    ensures values { (before after : List H) (k : Key) (p : ℕ)
        → IsLeftOverwritten before after k p → (n : ℕ) (object : List Entry)
        → IsObjectKnown (before ++ after) n k object → ShowsOthers p object }
{}

/// Each law speaks of something: there are histories with a deletion that meet its premises, and go
/// on with all that the premises name. In the second a node that was told last knows the deleted
/// value to the end, and yet doesn't show it.
pub fn there_are_such_histories()
    ensures forgotten { (v u : ValueParts) → IsHistory (lost v ++ after_loss u)
        × AreLeftNowhere lost_writes (lost v) (after_loss u) one_key }
    ensures overwritten { (v u : ValueParts) → IsHistory (deleted v ++ after_deletion u)
        × IsLeftOverwritten (deleted v) (after_deletion u) one_key 0
        × (known (deleted v ++ after_deletion u) 2 one_key 0 ≡ true) }
{}

/// The premise on what images start from is needed: there is a history in which each node, and all
/// else that is left, has a deleted value only with its deletion, and yet a node shows it later. It
/// made an image for another key, which starts from an older one, and restarted from that.
pub fn an_image_may_start_from_less_than_is_known()
    ensures { (v : ValueParts) → IsHistory (deleted_elsewhere v ++ after_keeping)
        × OfAllLeft (HasOverwritten (writes (deleted_elsewhere v)) 0)
        (deleted_elsewhere v) after_keeping one_key
        × ShowsWriteAt (deleted_elsewhere v ++ after_keeping) 0 one_key 0 }
{}

/// Sixteen nodes know all after the four rounds of the hypercube, in which each exchanges with the
/// one whose number differs from its own in one bit.
pub fn four_rounds_make_sixteen_nodes_know_all()
    ensures rounds { AreRounds four_rounds }
    ensures number { length four_rounds ≡ 4 }
    ensures agree { KnowAll 16 (after_rounds four_rounds) }
{}

/// A round runs at once: after it two nodes that exchanged know what either knew before the round,
/// and a node that didn't take part knows what it knew.
pub fn a_round_runs_at_once()
    ensures part { (before : Known) (es fs : List Exchange) (e : Exchange)
        → IsRound (es ++ e ∷ fs) → (n m : ℕ) → takes_part e n ≡ true
        → after_all before (es ++ e ∷ fs) n m ≡ (before e.one m || before e.other m) }
    ensures idle { (before : Known) (es : List Exchange) (n m : ℕ) → is_busy es n ≡ false
        → after_all before es n m ≡ before n m }
{}

/// The most that a node knows at most doubles in a round: after r rounds no node knows of more than
/// 2^r. So rounds after which the first nodes all know all, or only one of them does, are not fewer
/// than the logarithm of their number, to base 2: sixteen need four.
pub fn knowledge_at_most_doubles_in_a_round()
    ensures doubles { (rounds : List (List Exchange)) → AreRounds rounds → (many n : ℕ)
        → count_known many (after_rounds rounds n) ≤ 2 ^ length rounds }
    ensures one { (rounds : List (List Exchange)) → AreRounds rounds
        → (many n : ℕ) → ((m : ℕ) → m < many → after_rounds rounds n m ≡ true)
        → many ≤ 2 ^ length rounds }
    ensures sixteen { (rounds : List (List Exchange)) → AreRounds rounds
        → KnowAll 16 (after_rounds rounds) → 4 ≤ length rounds }
{}

/// Any number of nodes from two to sixteen knows all after these rounds, of exchanges among them
/// alone: as many as the logarithm of their number to base 2, rounded up, and one more if it is
/// odd. No rounds of exchanges among them alone suffice that are fewer. With the help of others an
/// even number still needs as many, and an odd one as many or one less.
pub fn some_rounds_make_up_to_sixteen_nodes_know_all()
    ensures rounds { (many : ℕ) → 2 ≤ many → many ≤ 16 → AreRounds (rounds_for many)
        × AreOfFirst many (exchanges_of (rounds_for many)) }
    ensures number { (many : ℕ) → 2 ≤ many → many ≤ 16
        → length (rounds_for many) ≡ log_up many + many % 2 }
    ensures agree { (many : ℕ) → 2 ≤ many → many ≤ 16
        → KnowAll many (after_rounds (rounds_for many)) }
    ensures fewest { (many : ℕ) → 2 ≤ many → many ≤ 16 → (rounds : List (List Exchange))
        → AreRounds rounds → KnowAll many (after_rounds rounds)
        → length (rounds_for many) ≤ length rounds + many % 2 }
    ensures fewest_among { (many : ℕ) → 2 ≤ many → many ≤ 16 → (rounds : List (List Exchange))
        → AreRounds rounds → AreOfFirst many (exchanges_of rounds)
        → KnowAll many (after_rounds rounds) → length (rounds_for many) ≤ length rounds }
{}

/// Nodes each two of which have met know all, in whatever order they met.
pub fn nodes_that_have_met_know_all()
    ensures { (many : ℕ) (es : List Exchange)
        → ((n m : ℕ) → n < many → m < many → n ≢ m → have_met es n m ≡ true)
        → KnowAll many (after_all own es) }
{}

/// Exchanges along a tree, from the leaves to the root and back, make all its nodes know what each
/// of them knew. Of n nodes, two or more, these are 2n - 3 exchanges.
pub fn exchanges_along_a_tree_make_all_know_all()
    ensures agree { (root : ℕ) (edges : List Exchange) → IsTree root edges
        → (n m : ℕ) → is_in root edges n ≡ true → is_in root edges m ≡ true
        → after_all own (in_and_out edges) n m ≡ true }
    ensures number { (root many : ℕ) (e : Exchange) (edges : List Exchange)
        → IsTree root (e ∷ edges) → ((n : ℕ) → is_in root (e ∷ edges) n ≡ true → n < many)
        → length (in_and_out (e ∷ edges)) + 3 ≡ 2 * count_known many (is_in root (e ∷ edges)) }
{}

/// Exchanges along a tree, from the root to the leaves, make all its nodes know what the root knew,
/// whatever else each knew before. So do those of objects: each node then knows the writes under
/// the key that the root knew, whatever was lost of them before.
pub fn exchanges_outwards_repair()
    ensures sets { (root : ℕ) (edges : List Exchange) → IsTree root edges
        → (before : Known) (n m : ℕ) → is_in root edges n ≡ true → before root m ≡ true
        → after_all before (outwards edges) n m ≡ true }
    ensures writes { (root : ℕ) (edges : List Exchange) → IsTree root edges
        → (hs : List H) (k : Key) (n p : ℕ) → is_in root edges n ≡ true
        → known hs root k p ≡ true
        → known (after_meetings hs k (outwards edges)) n k p ≡ true }
{}

/// If each node of a tree passes on to the next what it knows, from the root to the leaves, all
/// know what the root knew. Each node of a tree may be its root.
pub fn what_is_passed_on_along_a_tree_is_known_by_all()
    ensures known { (root : ℕ) (edges : List Exchange) → IsTree root edges
        → (before : Known) (n m : ℕ) → is_in root edges n ≡ true → before root m ≡ true
        → after_passing_all before (outwards edges) n m ≡ true }
    ensures any_root { (root : ℕ) (edges : List Exchange) → IsTree root edges
        → (node : ℕ) → is_in root edges node ≡ true
        → (others : List Exchange) × IsSameTree root edges node others }
{}

/// An exchange in which both nodes send what they know under a key, and each gets what the other
/// sent, is an exchange of knowledge: after a list of them a node knows just the writes that were
/// known to the nodes of which it then knows. What nodes know under other keys stays. So where all
/// know all, and no other node knew any of the writes, all know the same, and hold equal objects.
pub fn exchanges_of_objects_are_exchanges_of_knowledge()
    ensures history { (hs : List H) → IsHistory hs → (k : Key) (es : List Exchange)
        → IsHistory (after_meetings hs k es) }
    ensures known { (hs : List H) (k : Key) (es : List Exchange) (n p : ℕ)
        → (known (after_meetings hs k es) n k p ≡ true)
        ↔ ((m : ℕ) × ((after_all own es n m ≡ true) × (known hs m k p ≡ true))) }
    ensures others { (hs : List H) (k l : Key) (es : List Exchange) (n : ℕ) → l ≢ k
        → known (after_meetings hs k es) n l ≡ known hs n l }
    ensures agree { (hs : List H) (k : Key) (many : ℕ) (es : List Exchange)
        → SufficeFor many hs k es → (n m : ℕ) → n < many → m < many
        → known (after_meetings hs k es) n k ≡ known (after_meetings hs k es) m k }
    ensures objects { (hs : List H) (k : Key) (many : ℕ) (es : List Exchange)
        → SufficeFor many hs k es → (n m : ℕ) → n < many → m < many → (a b : List Entry)
        → IsObjectKnown (after_meetings hs k es) n k a
        → IsObjectKnown (after_meetings hs k es) m k b → a ≡ b }
{}

/// A whole exchange of two nodes of a world: one begins it, and then each frame that it brings
/// forth is delivered, once and in the order in which they were sent, none is refused, and nothing
/// else happens at the two; at other nodes anything may. Then both hold, under each key, the object
/// of what either knew, and know that by the new history; so they show equal siblings and contexts,
/// and have equal roots; or two unequal byte strings, hashed for the tables of the two when it
/// began, have one digest. A node of which there was no event is as it was.
///
/// The order is one over both directions. Frames that were sent before may still be on their way;
/// none of them comes to the two meanwhile.
pub fn an_exchange_in_a_world_gives_both_the_union(world: &World)
    ensures union { (e : Exchange) (new : W) → Exchanges world.now e new
        → OfAllTold world.now (λ t. BothHoldAll t e new ⊎ CollidesIn world.now e) }
    ensures agree { (e : Exchange) (new : W) → Exchanges world.now e new
        → ShowTheSame new e.one e.other ⊎ CollidesIn world.now e }
    ensures others { (e : Exchange) (new : W) (ran : Exchanges world.now e new) (n : ℕ)
        → IsIdle n ran.accepted → node_at new n ≡ node_at world.now n }
{
    a_world_tells_a_history(world);
}

/// Rounds of whole exchanges in a world, those of each round at once, are exchanges of knowledge:
/// each node then knows what `after_all` says of sets. So where all know all, all nodes show the
/// same, whatever was lost before; sixteen nodes do after the four rounds; all nodes of a tree do
/// after exchanges along it, from the leaves to the root and back; and those from the root to the
/// leaves make all its nodes know what the root knew. Or two unequal byte strings, hashed for the
/// tables of two nodes that exchange when their round began, have one digest.
pub fn exchanges_in_a_world_are_exchanges_of_knowledge(world: &World)
    ensures known { (rounds : List (List Exchange)) → AreRounds rounds
        → (new : W) (ran : RoundsInTurn world.now rounds new)
        → OfAllTold world.now (λ t. KnowAfterAll t (exchanges_of rounds) new
        ⊎ CollidesInRounds world.now rounds new ran) }
    ensures agree { (rounds : List (List Exchange)) → AreRounds rounds
        → (new : W) (ran : RoundsInTurn world.now rounds new)
        → KnowAll (length world.now.nodes) (after_rounds rounds)
        → AllShowTheSame new ⊎ CollidesInRounds world.now rounds new ran }
    ensures sixteen { (new : W) (ran : RoundsInTurn world.now four_rounds new)
        → length world.now.nodes ≡ 16
        → AllShowTheSame new ⊎ CollidesInRounds world.now four_rounds new ran }
    ensures along { (run : RunsAlong in_and_out world.now)
        → ShowTheSameInTree run.root run.edges run.new ⊎ CollidesAlong run }
    ensures repair { (run : RunsAlong outwards world.now) → OfAllTold world.now
        (λ t. KnowWhatRootKnew t run.root run.edges run.new ⊎ CollidesAlong run) }
{
    a_world_tells_a_history(world);
}

/// Drivers whose members are all other nodes, and a window in which they add and remove none, each
/// ticks as often as it has members and owes no exchange in the end, and each exchange that one of
/// them begins is delivered whole: then all know all. In a world, where these exchanges come in
/// rounds and nothing else happens, all nodes then show the same, whatever was lost before; or two
/// unequal byte strings, hashed for the tables of two nodes that exchange when their round began,
/// have one digest.
pub fn a_window_of_exchanges_makes_all_agree(world: &World)
    ensures know { (many : ℕ) (es : List Exchange)
        → AllAreDelivered many es → KnowAll many (after_all own es) }
    ensures agree { (rounds : List (List Exchange)) → AreRounds rounds
        → AllAreDelivered (length world.now.nodes) (exchanges_of rounds)
        → (new : W) (ran : RoundsInTurn world.now rounds new)
        → AllShowTheSame new ⊎ CollidesInRounds world.now rounds new ran }
{
    a_world_tells_a_history(world);
}

/// Eager peers make a tree over a node of a world, and the node writes: `world` is as the write
/// left it. Then each frame that this brings forth is delivered, once and in any order, with
/// nothing between.
///
/// The write is new, behind all that was told before it, and the writer alone knows it at first. At
/// the end each node knows, under the key, what it knew and what the next one towards the writer
/// knows; so all know what the writer knew, and where none knew more, all hold the same object. For
/// n nodes of the tree these are n - 1 frames, each a GOSSIP. No write changes eager peers: so the
/// tree is as it was after the write, and at the end, too; and it is one over each of its nodes.
/// Other nodes are as they were. The oldest frame first is one of the orders.
pub fn a_write_reaches_all_along_eager_peers(world: &World)
    ensures written { (b : Broadcasts world.now)
        → OfAllTold world.now (λ t. IsNewWrite b.before t b.writer b.key b.value) }
    ensures known { (b : Broadcasts world.now)
        → OfAllTold world.now (λ t. KnowWhatWasPassedOn t b.edges b.key b.after) }
    ensures reaches { (b : Broadcasts world.now)
        → OfAllTold world.now (λ t. KnowUnderWhatRootKnew t b.writer b.edges b.key b.after) }
    ensures agree { (b : Broadcasts world.now) → OfAllTold world.now (λ t.
        NoneKnewMore t b.writer b.edges b.key → HoldTheSame b.after b.writer b.edges b.key) }
    ensures number { (b : Broadcasts world.now) → length b.deliveries + 1
        ≡ count_known (length world.now.nodes) (is_in b.writer b.edges) }
    ensures gossip { (b : Broadcasts world.now)
        → SendsGossip b.before b.after b.key (length b.deliveries) }
    ensures leaves { (before : W) (write : Accepted) (n : ℕ) (key : Key) (value : ValueParts)
        → IsWriteOf n key value write.event
        → Passes before write.event (Ok write.answer) world.now
        → (m : ℕ) → eager_of world.now m ≡ eager_of before m }
    ensures stays { (b : Broadcasts world.now) → IsEagerTree world.now b.writer b.edges
        × IsEagerTree b.after b.writer b.edges }
    ensures any_writer { (w : W) (root : ℕ) (edges : List Exchange) → IsEagerTree w root edges
        → (node : ℕ) → is_in root edges node ≡ true
        → (others : List Exchange) × IsEagerTree w node others }
    ensures others { (b : Broadcasts world.now) (n : ℕ) → is_in b.writer b.edges n ≡ false
        → node_at b.after n ≡ node_at world.now n }
    ensures in_turn { (pending : List ℕ) (accepted : List Accepted)
        → DeliverAll pending accepted → DeliverInAnyOrder pending accepted }
{
    a_world_tells_a_history(world);
    each_peer_stands_once(world);
}

/// Each peer of a node of the world stands once, and is eager or lazy.
fn each_peer_stands_once(world: &World)
    ensures { (n : ℕ) → n < length world.now.nodes
        → HasLinks (node_at world.now n).state.overlay.cast }
{
    for n in 0..world.node_count() {
        // (for its type)
        if let Some(state) = world.state(n) {
            let _ = state.cast();
        }
    }
}
