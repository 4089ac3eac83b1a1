//! The laws of telling, of outcomes, of runs, of equal knowledge and of faults. The contract of a
//! function is the law; its body does nothing, or compares.

ghost use Rattle.std.specs.Prelude.{◌≡◌, ◌↔◌, ◌<◌, ℕ, List, length, IsTrue};
ghost use Rattle.meta_types.specs.Name.{Key};
ghost use Rattle.hash_tree.specs.Tree.{rows_of, tree_root};
ghost use Rattle.meta_store.specs.Table.{object_at};
ghost use Rattle.world_core.specs.declared.answer.Accepted.{Accepted};
ghost use Rattle.past_model.specs.History.{IsHistory};
ghost use Rattle.world_core.specs.Knowledge.{KnowTheSame, OfAllTold, ShowWhatTheyKnow};
ghost use Rattle.world_core.specs.Outcome.{OneOutcomeForEachEvent, WorldRunsGoOn};
ghost use Rattle.world_core.specs.Refusal.{node_at, table_at};
ghost use Rattle.world_core.specs.Tells.{Told, Tells};
ghost use Rattle.world_core.specs.World.{HasLived};

use crate::fault::WorldFault;
use crate::world::World;

/// The same accepted events and frames never tell two histories.
pub fn one_history_is_told()
    ensures { (accepted : List Accepted) (frames : List (List ℕ)) (t u : Told)
        → Tells accepted frames t → Tells accepted frames u → t ≡ u }
{}

/// What a world was and the event determine its outcome and the world that is left, except that
/// memory may run out at any time.
pub fn one_outcome_for_each_event()
    ensures { OneOutcomeForEachEvent }
{}

/// A run of events begins with nothing applied, and goes on by one event with its outcome: so what
/// is made by one `apply` after the other is a run.
pub fn runs_go_on()
    ensures { WorldRunsGoOn }
{}

/// What every world keeps to: what its events tell is a history; each node is the one of its
/// number, and its events took it from a new node to where it is; and under each key it holds the
/// object of the writes that it knows.
pub fn a_world_tells_a_history(world: &World)
    ensures history { (t : Told)
        × (Tells world.now.accepted world.now.frames t × IsHistory t.history) }
    ensures lived { (n : ℕ) → n < length world.now.nodes
        → HasLived world.now n (node_at world.now n) }
    ensures shows { ShowWhatTheyKnow world.now }
{
    // (for its type)
    let _ = world.nodes.len();
}

/// Nodes that know the same writes under a key hold equal objects there, and so show equal values
/// and contexts; nodes that know the same writes under every key hold equal tables, whose trees
/// have equal roots.
pub fn equal_knowledge_shows_equally(world: &World)
    ensures objects { OfAllTold world.now (λ t. (m n : ℕ) (key : Key)
        → m < length world.now.nodes → n < length world.now.nodes
        → KnowTheSame t m n key
        → object_at (table_at world.now m) key ≡ object_at (table_at world.now n) key) }
    ensures roots { OfAllTold world.now (λ t. (m n : ℕ)
        → m < length world.now.nodes → n < length world.now.nodes
        → ((key : Key) → KnowTheSame t m n key)
        → tree_root (rows_of (table_at world.now m)) ≡ tree_root (rows_of (table_at world.now n))) }
{
    // (for its type)
    let _ = world.nodes.len();
}

/// Faults are equal exactly if they are the same.
pub fn equal_faults_are_the_same(one: &WorldFault, other: &WorldFault) -> bool
    ensures { IsTrue result ↔ (one.now ≡ other.now) }
{
    one == other
}
