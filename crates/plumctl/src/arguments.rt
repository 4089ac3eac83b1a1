//! What the arguments ask for.

use crate::file::Copied;
use crate::live::LiveArguments;
use clap::builder::ValueParser;
use clap::error::ErrorKind;
use clap::{Arg, ArgAction, ArgMatches, Command, Error};
use cluster::{ClusterPlan, Workload};
use meta_types::both;
use plumctl_draw::Excerpt;
use std::alloc::{AllocError, Global};
use std::io;
use streams::{StreamFault, write_fault};

/// What the arguments ask for.
#[derive(Clone, Copy)]
pub enum Asked<'a> {
    /// Nothing more, and this exit status: help or a usage fault was printed.
    Nothing(u8),
    /// The frames that lines of digits spell, in the file of this path or standard input.
    Frame {
        file: Option<&'a str>,
        /// The path of the keys under which the frames are sealed, if they are.
        key: Option<&'a str>,
    },
    /// A run of the scenario in the file of this path or standard input.
    Run {
        file: Option<&'a str>,
        /// Whether each command is explained.
        explain: bool,
    },
    /// A picture of a part of the scenario in the file of this path or standard input.
    Draw {
        file: Option<&'a str>,
        part: Excerpt,
    },
    /// The report of the node file at a path, and a clean copy of it, if that is asked for.
    File {
        path: &'a str,
        copied: Option<Copied<'a>>,
    },
    /// A run of threads.
    Live(LiveArguments<'a>),
}

/// The exit status of wrong arguments.
pub const USAGE: u8 = 2;

const VERSION: &str = "0.1.0";

const HELP: &str = "'plumctl help COMMAND' says more of a command.";

const LONG_HELP: &str = "Examples:
  plumctl run siblings.scenario
  plumctl draw siblings.scenario > siblings.svg
  plumctl frame frames.hex
  plumctl file node-0 --compact
  plumctl live 4 200 7 --record tuesday.scenario

'plumctl help COMMAND' says more of a command, and -h less.

Exit status: 0 done, 1 what was read or run is refused, 2 wrong arguments, 3 reading or writing
failed, 4 memory ran out.";

const FRAME_HELP: &str =
    "Each line gives one line: the frame that its digits spell, or the refusal that comes first.
Spaces are skipped, and digits may be of either case. A carriage return is no digit.

Example:
  echo 50540204 0001 0000 0000000000000005 00000000 | plumctl frame
prints
  PRUNE from 1 to 0 number 5

A refusal prints as its number and name, as `error 10 Short`; `error 15 BadBody at 39` says where in
the frame the field at fault begins. No line number is printed: line N of the output is for line N.

With --key each line is a sealed frame, as nodes with keys send it, and prints as the frame in front
of its seal, or as `error 17 BadSeal` if the seal is right under no key. KEYS has the 32 bytes of the
key, or 64: behind the current key the previous one. Any other file is `error 18 BadKey`.

Exit status: 0 each line was a frame, 1 a line was refused or the input is longer than
67,108,864 bytes, 2 wrong arguments, 3 reading or writing failed, or KEYS has no keys, 4 memory ran
out.";

const RUN_HELP: &str =
    "The first command says how many nodes there are, as `nodes 2`; each other is one of
  put N KEY VALUE [stamp S] [read R]    del N KEY [stamp S] [read R]
  over N KEY VALUE [stamp S]            read N KEY          show N KEY
  resolve N KEY lww|largest             deliver F [N] [word W]
  tick N [word W]    join N C [word W]  down N P [word W]   exchange N P
  hello N P          leave N            restart N I         keep N [KEY]
  watch N PREFIX CAP                    changes N W         list N PREFIX
  root N             images N           views N             settle
  junk N HEX
where words in brackets may be left out, and
  N, C, P  are nodes, from 0: who does it; through whom it joins; the other one
  KEY      is a key, as a/b/k, of letters, digits, . _ and -
  PREFIX   is what a key begins with, as a/b
  VALUE    is of the characters of a key, or hex: and hexadecimal digits
  HEX      is an even number of hexadecimal digits, two at least
  CAP      is how many changes a watch notes, 1 to 1024
  F, R, W  are the numbers of a frame, a read and a watch, from 1
  I        is the number of an image, from 0, which is empty
  word W   is a random number for what a node chooses by chance, 0 if left out
  stamp S  is a number that is kept beside the value, 0 if left out

The whole text is read before it is run; one that is typed ends with Ctrl-D.

A space separates words, and nothing else does: a line with a tab or a carriage return is no
command. An empty line is skipped, and so is one that begins with #. Each command prints a line,
and a line for each frame that it sent. If a line is no command, error 70 BadLine and its number are
all that is printed.

Example:
  printf 'nodes 1\\nput 0 a/b/k x\\nshow 0 a/b/k\\n' | plumctl run
prints
  ok
  wrote ctx 0.1:1
  ctx 0.1:1 values x

Exit status: 0 done, 1 a line is no command, a settle would deliver more than 100,000 frames or the
input is longer than 67,108,864 bytes, 2 wrong arguments, 3 reading or writing failed, 4 memory
ran out.";

const DRAW_HELP: &str =
    "Runs a scenario as `run` does, and writes what happened as a picture in place of the results:
SVG, which browsers and other viewers show. Each node has a lane, and time goes downwards. Each
command has a row, with the number of its line; a settle has one for each frame that it delivers,
and a keep one for each key.

An arrow goes from the sending of a frame to its delivery, with its number and kind, and its colour
says what it is about. It is dashed if the frame was stale or refused, and ends in a cross if the
frame was never delivered. A dot is a step of a node, a diamond one about who knows whom, and a
gap in a lane a restart. A box is tied to the lane of its node, and has what that shows under a key
from then on: the key, its values, its context.

With --fold a settle is one band across the lanes, with the number of its frames of each kind, and
what it changed stands in boxes below: one for all nodes that show the same, with a dot on the lane
of each.

A picture has at most 200 commands, and 2,000 rows: --from and --to draw a part of a longer
scenario, all of which is run. If no command stands in the part, nothing is run.

Example:
  plumctl draw examples/healing-tree.scenario > tree.svg

Exit status: 0 done, 1 a line is no command, a settle would deliver more than 100,000 frames, the
part is too long or the input is longer than 67,108,864 bytes, 2 wrong arguments or no command in
the part, 3 reading or writing failed, 4 memory ran out.";

const FILE_HELP: &str =
    "Prints a line for the node, its last life and how many keys there are, a line for each key in
order, and a line for the root of the table's tree:
  node 0 life 1 keys 1
  key a/b/k ctx 0.1:1 values x
  root 4368d585cc1af0cf1167149ae68c0ee7ed5714817d2a67e966816308178e4dff
Two nodes that print the same root hold the same objects. A node may have the file, and write to it:
then the report is of some moment.

If the file is damaged, `error 31 Damaged at 52` names the first byte that is not as a file has it;
a node can't be started from it. If it could not be read, or a copy not be written, `error 30
Device` is printed. Standard error then says which path that is and why, and also if a file does not
begin as a node file does. It warns if what stands behind the last record read shows that the file
goes on there, since the disk has changed a byte; then the status is 1, and no copy is made.

A clean copy has one record for each key. With --compact it takes the place of the file, and with
--rewrite it is a new file, OUT. No node may have the file meanwhile. A copy has its name only once
all of it is on the disk; until then it is beside it, with .zomtagi-new behind the name. A file of
version 1 becomes one of version 2.

Exit status: 0 done, 1 the file is damaged, may be, or has too many keys, 2 wrong arguments, 3
reading or writing failed, 4 memory ran out.";

const LIVE_HELP: &str =
    "Each node has a worker in a thread of its own. All but node 0 join through node 0, and then
each makes its turns: each fourth writes, the others take a frame that came, or let time go on.
With --mixed half of the turns do that, and the others whatever else a node can be asked: they
read, write, delete, keep, begin exchanges, leave, join and so on, as the random words say.

What all of them did is then put together as one run of the proved core:
  live nodes 4 turns 200
  calls 803 lost 0
  assembled
If it is none, or the cluster gives none, `fault` with a number and a name says why, and of 60 to 63
standard error says where: which call of which node.

With --record, if the run is assembled, FILE is a scenario of it: `plumctl run FILE` makes the
same calls again, one after the other, and prints each reply and frame that the threads had. With
--files DIR has the file of each node, node-0 and so on, which `plumctl file` reads. Neither may be
there before. A node whose device fails makes no more turns, which is told at standard error.

Exit status: 0 assembled (and recorded), 1 it is no run of the core, or has no recording, 2 wrong
arguments, 3 FILE, DIR or a device failed before the threads started, or writing failed, 4 memory
ran out.";

/// The names of the arguments.
const FILE: &str = "FILE";

const KEY: &str = "key";

const EXPLAIN: &str = "explain";

const FROM: &str = "from";

const TO: &str = "to";

const FOLD: &str = "fold";

const PATH: &str = "PATH";

const REWRITE: &str = "rewrite";

const COMPACT: &str = "compact";

const NODES: &str = "NODES";

const TURNS: &str = "TURNS";

const SEED: &str = "SEED";

const RECORD: &str = "record";

const FILES: &str = "files";

const MIXED: &str = "mixed";

/// Makes a command with its help, which takes no argument.
fn command_of<'a>(alloc: Global, name: &'a str, about: &'a str, long_help: &'a str) -> Command<'a> {
    Command::new(alloc, name)
        .about(about)
        .after_long_help(long_help)
}

/// Returns the command with one more argument.
fn with_argument<'a>(
    command: Result<Command<'a>, AllocError>,
    argument: Arg<'a>,
) -> Result<Command<'a>, AllocError> {
    let (command, argument) = both(command, Ok(argument))?;
    command.arg(argument)
}

/// Makes the argument for the file that a command reads.
fn input<'a>(alloc: Global, help: &'a str) -> Arg<'a> {
    Arg::new(alloc, FILE).help(help).action(ArgAction::Set)
}

/// Makes an option that takes a value.
fn option<'a>(alloc: Global, name: &'a str, value_name: &'a str, help: &'a str) -> Arg<'a> {
    Arg::new(alloc, name)
        .long(name)
        .value_name(value_name)
        .help(help)
        .action(ArgAction::Set)
}

/// Makes the option for the number of a line that `draw` asks for.
fn line<'a>(alloc: Global, name: &'a str, help: &'a str) -> Arg<'a> {
    option(alloc, name, "LINE", help).value_parser(ValueParser::unsigned(0, u64::MAX))
}

/// Makes the argument for a number that `live` asks for, in this range.
fn number<'a>(alloc: Global, name: &'a str, help: &'a str, least: u64, most: u64) -> Arg<'a> {
    Arg::new(alloc, name)
        .help(help)
        .required(true)
        .value_parser(ValueParser::unsigned(least, most))
        .action(ArgAction::Set)
}

fn frame_command<'a>(alloc: Global) -> Result<Command<'a>, AllocError> {
    let about = "Print the frames that lines of hexadecimal digits spell";
    let help = "The lines; standard input if there is none, or for -";
    let command = command_of(alloc, "frame", about, FRAME_HELP).arg(input(alloc, help));
    let help = "Open each frame, which is sealed under a key in this file";
    with_argument(command, option(alloc, KEY, "KEYS", help))
}

fn run_command<'a>(alloc: Global) -> Result<Command<'a>, AllocError> {
    let about = "Run a scenario over the nodes of a new cluster";
    let help = "The scenario; standard input if there is none, or for -";
    let command = command_of(alloc, "run", about, RUN_HELP).arg(input(alloc, help));
    let explain = Arg::new(alloc, EXPLAIN)
        .long(EXPLAIN)
        .help("After each command, print what is on its way and what nodes show anew")
        .action(ArgAction::SetTrue);
    with_argument(command, explain)
}

fn draw_command<'a>(alloc: Global) -> Result<Command<'a>, AllocError> {
    let about = "Draw a run of a scenario, as an SVG picture";
    let help = "The scenario; standard input if there is none, or for -";
    let command = command_of(alloc, "draw", about, DRAW_HELP).arg(input(alloc, help));
    let from = line(alloc, FROM, "Draw no command of an earlier line");
    let command = with_argument(command, from);
    let to = line(alloc, TO, "Draw no command of a later line");
    let command = with_argument(command, to);
    let fold = Arg::new(alloc, FOLD)
        .long(FOLD)
        .help("Draw each settle as one band, with the numbers of its frames by kind")
        .action(ArgAction::SetTrue);
    with_argument(command, fold)
}

fn file_command<'a>(alloc: Global) -> Result<Command<'a>, AllocError> {
    let about = "Print what the file of a node holds, or where it is damaged";
    let path = Arg::new(alloc, PATH)
        .help("The file of a node")
        .required(true)
        .action(ArgAction::Set);
    let command = command_of(alloc, "file", about, FILE_HELP).arg(path);
    let help = "Make a clean copy here, one record for each key, where nothing is yet";
    let command = with_argument(command, option(alloc, REWRITE, "OUT", help));
    let compact = Arg::new(alloc, COMPACT)
        .long(COMPACT)
        .help("Put a clean copy in the place of the file")
        .action(ArgAction::SetTrue)
        .conflicts_with(REWRITE);
    let (command, compact) = both(command, compact)?;
    command.arg(compact)
}

fn live_command<'a>(alloc: Global) -> Result<Command<'a>, AllocError> {
    let about = "Run a cluster of threads, and judge what they did";
    let nodes = number(alloc, NODES, "How many nodes there are, 1 to 16", 1, 16);
    let command = command_of(alloc, "live", about, LIVE_HELP).arg(nodes);
    let help = "How many turns each makes, 1 to 100000";
    let command = with_argument(command, number(alloc, TURNS, help, 1, 100_000));
    let help = "What the random words come from";
    let command = with_argument(command, number(alloc, SEED, help, 0, u64::MAX));
    let help = "Write the run down as a scenario, to a new file";
    let command = with_argument(command, option(alloc, RECORD, "FILE", help));
    let help = "Make a folder, and run the nodes on files there";
    let command = with_argument(command, option(alloc, FILES, "DIR", help));
    let mixed = Arg::new(alloc, MIXED)
        .long(MIXED)
        .help("Let turns do all that a node can be asked")
        .action(ArgAction::SetTrue);
    with_argument(command, mixed)
}

/// Makes the command line, with its help.
fn command<'a>(alloc: Global) -> Result<Command<'a>, AllocError> {
    let command = Command::new(alloc, "plumctl")
        .about("The commands of Zomtagi, a cluster metadata store")
        .version(VERSION)
        .after_help(HELP)
        .after_long_help(LONG_HELP)
        .subcommand_required(true);
    let command = with_subcommand(Ok(command), frame_command(alloc));
    let command = with_subcommand(command, run_command(alloc));
    let command = with_subcommand(command, draw_command(alloc));
    let command = with_subcommand(command, file_command(alloc));
    with_subcommand(command, live_command(alloc))
}

/// Returns the command with one more subcommand.
fn with_subcommand<'a>(
    command: Result<Command<'a>, AllocError>,
    subcommand: Result<Command<'a>, AllocError>,
) -> Result<Command<'a>, AllocError> {
    let (command, subcommand) = both(command, subcommand)?;
    command.subcommand(subcommand)
}

/// Returns the arguments of the program, including its name; `None` if one is no text.
pub fn read_words(rt: &HostRuntime) -> Result<Option<Vec<String>>, StreamFault> {
    match std::env::args(rt) {
        Ok(args) => Ok(Some(args.collect(rt.alloc())?)),
        Err(error) if error.kind() == io::ErrorKind::OutOfMemory => Err(StreamFault::Memory),
        Err(_) => Ok(None),
    }
}

/// Prints help or the version at standard output, or a usage fault at standard error, and returns
/// the exit status.
fn print(rt: &HostRuntime, error: &Error) -> Result<u8, StreamFault> {
    match error.print(rt) {
        Ok(()) => Ok(error.exit_code() as u8),
        Err(told) => match write_fault(told.kind()) {
            StreamFault::Memory => Err(StreamFault::Memory),
            _ if error.use_stderr() => Ok(USAGE),
            fault => Err(fault),
        },
    }
}

/// Returns the path of a file; none for `-`, which stands for standard input.
fn path(file: Option<&str>) -> Option<&str> {
    match file {
        Some("-") => None,
        file => file,
    }
}

/// Returns where `file` is asked to put a clean copy.
fn copied<'a>(matches: &ArgMatches<'a>) -> Option<Copied<'a>> {
    if matches.get_flag(COMPACT) {
        Some(Copied::Same)
    } else {
        matches.get_str(REWRITE).map(Copied::New)
    }
}

/// Returns what the turns of `live` are to ask for.
fn workload(matches: &ArgMatches<'_>) -> Workload {
    if matches.get_flag(MIXED) {
        Workload::Mixed
    } else {
        Workload::Fixed
    }
}

/// Returns what the arguments of `live` ask for.
fn live<'a>(matches: &ArgMatches<'a>) -> Asked<'a> {
    match (
        matches.get_one::<u64>(NODES),
        matches.get_one::<u64>(TURNS),
        matches.get_one::<u64>(SEED),
    ) {
        (Some(nodes), Some(turns), Some(seed)) => Asked::Live(LiveArguments {
            plan: ClusterPlan {
                nodes,
                turns,
                seed,
                workload: workload(matches),
            },
            record: matches.get_str(RECORD),
            files: matches.get_str(FILES),
        }),
        _ => Asked::Nothing(USAGE),
    }
}

/// Returns what the arguments of the command of this name ask for.
fn asked_of<'a>(name: &str, matches: &ArgMatches<'a>) -> Asked<'a> {
    match name {
        "frame" => Asked::Frame {
            file: path(matches.get_str(FILE)),
            key: matches.get_str(KEY),
        },
        "run" => Asked::Run {
            file: path(matches.get_str(FILE)),
            explain: matches.get_flag(EXPLAIN),
        },
        "draw" => Asked::Draw {
            file: path(matches.get_str(FILE)),
            part: Excerpt {
                from: matches.get_one::<u64>(FROM).unwrap_or(0),
                to: matches.get_one::<u64>(TO).unwrap_or(u64::MAX),
                fold: matches.get_flag(FOLD),
            },
        },
        "file" => match matches.get_str(PATH) {
            Some(path) => Asked::File {
                path,
                copied: copied(matches),
            },
            None => Asked::Nothing(USAGE),
        },
        "live" => live(matches),
        _ => Asked::Nothing(USAGE),
    }
}

/// Returns what the arguments ask for, once they were found to be right.
fn asked_for<'a>(matches: &ArgMatches<'a>) -> Asked<'a> {
    match matches.subcommand() {
        Some((name, matches)) => asked_of(name, matches),
        None => Asked::Nothing(USAGE),
    }
}

/// Prints why the arguments ask for nothing more, and returns the exit status.
fn told(rt: &HostRuntime, error: &Error) -> Result<u8, StreamFault> {
    if error.kind() == ErrorKind::OutOfMemory {
        return Err(StreamFault::Memory);
    }
    print(rt, error)
}

/// Returns what the arguments ask for.
pub fn read_arguments<'a>(rt: &HostRuntime, words: &'a [String]) -> Result<Asked<'a>, StreamFault> {
    match command(rt.alloc())?.try_get_matches_from(words) {
        Ok(matches) => {
            let asked = asked_for(&matches);
            // Dropped by a call, so that no case of the proof takes it apart.
            drop(matches);
            Ok(asked)
        }
        Err(error) => {
            let status = told(rt, &error);
            drop(error);
            Ok(Asked::Nothing(status?))
        }
    }
}
