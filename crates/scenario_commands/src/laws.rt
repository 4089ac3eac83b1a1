//! Laws of what commands print and leave, and of faults. The contract of a function is the law; its
//! body does nothing, or compares.

ghost use Rattle.std.specs.Prelude.{◌≡◌, ◌↔◌, ℕ, List, IsTrue};
ghost use Rattle.scenario_commands.specs.Marking.{SetsMarks};
ghost use Rattle.scenario_commands.specs.Obeying.{Choices, Obeys, PassesLimit, Stage, was_given};
ghost use Rattle.scenario_text.specs.Commands.{Command};

use crate::fault::StageFault;

/// A command prints one text and leaves one stage, by what the resolvers choose. A command that is
/// obeyed doesn't pass the limit of a settling.
pub fn one_text_and_one_stage_left()
    ensures one { (choices : Choices) (old new left : Stage) (command : Command)
        (text other : List ℕ)
        → Obeys choices old command text new → Obeys choices old command other left
        → (text ≡ other) × (new ≡ left) }
    ensures within { (choices : Choices) (old new : Stage) (command : Command) (text : List ℕ)
        → Obeys choices old command text new → PassesLimit old command → ⊥ }
{}

/// A command sets the mark of the frame that it delivers, or none; a settling sets the marks of all
/// frames. The frames that a command sends stand after those that were there, and were not given.
/// So a frame that was given stays so.
pub fn each_command_sets_its_marks()
    ensures sets { (choices : Choices) (old new : Stage) (command : Command) (text : List ℕ)
        → Obeys choices old command text new → SetsMarks command old.given new.given }
    ensures stays { (choices : Choices) (old new : Stage) (command : Command) (text : List ℕ)
        → Obeys choices old command text new → (frame : ℕ)
        → IsTrue (was_given frame old.given) → IsTrue (was_given frame new.given) }
{}

/// Two faults compare equal exactly if they are the same.
pub fn equal_faults_are_the_same(one: StageFault, other: StageFault) -> bool
    ensures { IsTrue result ↔ (one ≡ other) }
{
    one == other
}
