//! A text, read whole before it is run.

ghost use Rattle.std.specs.Prelude.{◌≡◌, ◌≤◌, ◌<◌, ◌+◌, ◌^◌, length};
ghost use Rattle.scenario_text.specs.Coded.{Parses, ParsesRest, TakesCommand};

use crate::command::Command;
use crate::fault::BadLine;
use crate::line::{Line, Lines};
use std::marker::Model;

/// A text that breaks no rule and has a command: how many nodes there are, and the lines after
/// `nodes`.
#[derive(Drop)]
pub struct Script<'a> {
    nodes: u64,
    lines: Lines<'a>,
    resolvers: usize,
}

impl<'a> Model for Script<'a> {
    ghost use Rattle.std.specs.Prelude.{◌≤◌};
    ghost use Rattle.scenario_text.specs.Script.{Scenario, commands_of_lines};

    ghost Value = { Scenario };

    ghost view = { λ s. record {
      nodes = s.nodes;
      commands = commands_of_lines s.resolvers s.lines;
    } };

    ghost invariant = { λ s. (1 ≤ s.nodes) × (s.nodes ≤ 16) };
}

impl<'a> Script<'a> {
    /// Returns how many nodes there are: 1 to 16.
    pub fn nodes(&self) -> u64
        ensures value { result ≡ self.now.nodes }
        ensures range { (1 ≤ result) × (result ≤ 16) }
    {
        self.nodes
    }

    /// Returns the next command, read from its line. `parse` has refused bad lines.
    pub fn next(&mut self) -> Option<Command<'a>>
        ensures commands { TakesCommand self.old.commands result self.new.commands }
        ensures nodes { self.new.nodes ≡ self.old.nodes }
    {
        while let Some(line) = self.lines.next() {
            if let Line::Asks(command) = Line::of(line, self.resolvers) {
                return Some(command);
            }
        }
        None
    }
}

/// Reads a text as a scenario, with `resolvers` resolvers at hand. Returns `None` for a text
/// without a command. Refused only with 70 `BadLine`, of the first line that breaks a rule. It
/// takes no memory.
pub fn parse(text: &[u8], resolvers: usize) -> Result<Option<Script<'_>>, BadLine>
    ensures { Parses resolvers text.now result }
{
    let mut lines = Lines::of(text);
    let mut number: u64 = 0;
    while let Some(line) = lines.next() {
        number += 1;
        match Line::of(line, resolvers) {
            Line::Skipped => {}
            Line::Asks(Command::Nodes { count }) => {
                test_lines(&lines, resolvers, number)?;
                return Ok(Some(Script {
                    nodes: count,
                    lines,
                    resolvers,
                }));
            }
            _ => return Err(BadLine { line: number }),
        }
    }
    Ok(None)
}

/// Refuses the first of the lines after `nodes` that breaks a rule. `before` lines stand before
/// them.
fn test_lines(lines: &Lines<'_>, resolvers: usize, before: u64) -> Result<(), BadLine>
    requires { before + length lines.now < 2 ^ 64 }
    ensures { ParsesRest resolvers before lines.now result }
{
    let mut rest = lines.again();
    let mut number = before;
    while let Some(line) = rest.next() {
        number += 1;
        match Line::of(line, resolvers) {
            Line::Bad | Line::Asks(Command::Nodes { .. }) => return Err(BadLine { line: number }),
            _ => {}
        }
    }
    Ok(())
}
