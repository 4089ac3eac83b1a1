//! The law of explained runs. Its contract is the law; its body does nothing.

ghost use Rattle.std.specs.Prelude.{ℕ, List, Option};
ghost use Rattle.scenario_commands.specs.Obeying.{Choices};
ghost use Rattle.scenario.specs.Output.{IsOutput, plain};
ghost use Rattle.scenario.specs.declared.fault.ScenarioFault.{ScenarioFault as Fault};
ghost use Rattle.scenario_explain.specs.Told.{AreResultsOf, explained};

/// An explained output, without the lines that are told in it, is the output of a plain run of the
/// text, which ends in the same way.
pub fn an_explained_output_has_the_plain_results()
    ensures { (choices : Choices) (text output : List ℕ) (ended : Option Fault)
        → IsOutput (explained choices) text output ended
        → (results : List ℕ) × IsOutput (plain choices) text results ended
        × AreResultsOf output results }
{}
