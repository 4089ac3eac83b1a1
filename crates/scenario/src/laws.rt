//! Laws of what scenarios print, and of faults. The contract of a function is the law; its body
//! does nothing, or compares.

ghost use Rattle.std.specs.Prelude.{◌≡◌, ◌↔◌, ◌++◌, ℕ, List, Option, IsTrue};
ghost use Rattle.scenario_commands.specs.Obeying.{Choices};
ghost use Rattle.scenario.specs.Output.{IsFrontOfOutput, IsOutput, plain};
ghost use Rattle.scenario.specs.declared.fault.ScenarioFault.{ScenarioFault as Fault};

use crate::fault::ScenarioFault;

/// A text has at most one output, and one way to end, by what the resolvers choose.
pub fn one_output_for_a_text()
    ensures { (choices : Choices) (text one other : List ℕ) (ended ending : Option Fault)
        → IsOutput (plain choices) text one ended → IsOutput (plain choices) text other ending
        → (one ≡ other) × (ended ≡ ending) }
{}

/// The output of a text begins with what was printed of it before a fault of writing ended the run,
/// or memory ran out.
pub fn the_output_begins_with_its_front()
    ensures { (choices : Choices) (text front output : List ℕ) (ended : Option Fault)
        → IsFrontOfOutput (plain choices) text front → IsOutput (plain choices) text output ended
        → (more : List ℕ) × (output ≡ front ++ more) }
{}

/// Two faults compare equal exactly if they are the same.
pub fn equal_faults_are_the_same(one: ScenarioFault, other: ScenarioFault) -> bool
    ensures { IsTrue result ↔ (one ≡ other) }
{
    one == other
}
