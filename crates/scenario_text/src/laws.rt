//! Laws of faults and of the spelling. The contract of a function is the law; its body compares, or
//! does nothing.

ghost use Rattle.std.specs.Prelude.{◌≡◌, ◌↔◌, ℕ, All, IsTrue, List, Ok, Some};
ghost use Rattle.streams.specs.Line.{IsOneLine};
ghost use Rattle.scenario_text.specs.Coded.{Parses};
ghost use Rattle.scenario_text.specs.Commands.{Command};
ghost use Rattle.scenario_text.specs.Script.{Asks, Scenario, commands_of, line_of};
ghost use Rattle.scenario_text.specs.Spelling.{HasSpelling, HasText, spelled, spelled_lines, spelled_scenario};

use crate::fault::BadLine;

/// Two faults compare equal exactly if they are the same.
pub fn equal_faults_are_the_same(one: BadLine, other: BadLine) -> bool
    ensures { IsTrue result ↔ (one ≡ other) }
{
    one == other
}

/// What is written reads back. The line of a command that has a spelling is that command, and one
/// line; a text of such lines has exactly these commands; and the text of a scenario is that
/// scenario.
pub fn a_spelling_reads_back()
    ensures line { (resolvers : ℕ) (command : Command) → HasSpelling resolvers command
        → line_of resolvers (spelled command) ≡ Asks command }
    ensures one_line { (resolvers : ℕ) (command : Command) → HasSpelling resolvers command
        → IsOneLine (spelled command) }
    ensures lines { (resolvers : ℕ) (commands : List Command)
        → All (HasSpelling resolvers) commands
        → commands_of resolvers (spelled_lines commands) ≡ commands }
    ensures scenario { (resolvers : ℕ) (about : List ℕ) (s : Scenario)
        → HasText resolvers about s
        → Parses resolvers (spelled_scenario about s) (Ok (Some s)) }
{}
