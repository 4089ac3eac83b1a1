//! The commands, over the streams of the process.

ghost use Rattle.std.specs.Prelude.{◌≢◌, IfErr};
ghost use Rattle.plumctl_draw.specs.Asked.{EndsDrawing};

use crate::progress::{Known, Place, told};
use plumctl_core::{NoProgress, Progress, read_keys, run_frame, run_scenario, tell, tell_unopened};
use plumctl_draw::{Excerpt, draw_scenario};
use sealed_frames::Keys;
use std::fs::{self, File};
use std::io::{BufWriter, ErrorKind, IsTerminal};
use std::sync::Wait;
use std::thread::Threads;
use streams::{MayFail, Sink, Source, StreamFault};

/// The most bytes of one write.
pub const OUTPUT_LEN: usize = 65_536;

/// What is read.
enum Input {
    File(File),
    Standard,
}

/// Opens the file at a path to be read, or takes standard input if there is no path. A folder is
/// refused, since no read of it would succeed.
fn open(rt: &HostRuntime, file: Option<&str>) -> Result<Input, ErrorKind> {
    match file {
        Some(path) => open_file(rt, path).map(Input::File),
        None => match fs::metadata(rt, "/dev/stdin") {
            Ok(found) if found.is_dir() => Err(ErrorKind::IsADirectory),
            _ => Ok(Input::Standard),
        },
    }
}

/// Opens the file at a path to be read.
fn open_file(rt: &HostRuntime, path: &str) -> Result<File, ErrorKind> {
    let file = match fs::open(rt, path) {
        Ok(file) => file,
        Err(error) => return Err(error.kind()),
    };
    match file.metadata() {
        Ok(found) if found.is_dir() => Err(ErrorKind::IsADirectory),
        _ => Ok(file),
    }
}

/// Prints why the file of this path, or standard input, can't be read, and returns the exit status,
/// which is never 2, the status of wrong arguments.
fn unopened(rt: &HostRuntime, file: Option<&str>, kind: ErrorKind) -> u8
    ensures { result ≢ 2 }
{
    let name = file.unwrap_or("standard input");
    tell_unopened(&mut MayFail(rt.stderr()), name, kind)
}

/// Does `frame` for the file of this path, or for standard input, to standard output. If there is
/// a path of keys, the frames are sealed under them. Returns the exit status, which is never 2.
pub fn frame(rt: &HostRuntime, file: Option<&str>, key: Option<&str>) -> u8
    ensures { result ≢ 2 }
{
    let Some(path) = key else {
        return frame_under(rt, None, file);
    };
    match keys_at(rt, path) {
        Ok(keys) => frame_under(rt, Some(&keys), file),
        Err(status) => status,
    }
}

/// Returns the keys in the file of this path. If it gives none, prints why, and returns the exit
/// status, which is never 2.
fn keys_at(rt: &HostRuntime, path: &str) -> Result<Keys, u8>
    ensures { IfErr result (λ status. status ≢ 2) }
{
    match open_file(rt, path) {
        Ok(file) => read_keys(&mut MayFail(file), path, &mut MayFail(rt.stderr())),
        Err(kind) => Err(unopened(rt, Some(path), kind)),
    }
}

/// Prints the frames of the file of this path, or of standard input.
fn frame_under(rt: &HostRuntime, keys: Option<&Keys>, file: Option<&str>) -> u8
    ensures { result ≢ 2 }
{
    match open(rt, file) {
        Ok(Input::File(file)) => frame_from(rt, keys, &mut MayFail(file)),
        Ok(Input::Standard) => frame_from(rt, keys, &mut MayFail(rt.stdin())),
        Err(kind) => unopened(rt, file, kind),
    }
}

/// Prints the frames of a reader to standard output.
fn frame_from<R: Source>(rt: &HostRuntime, keys: Option<&Keys>, reader: &mut R) -> u8
    ensures { result ≢ 2 }
{
    let mut errors = MayFail(rt.stderr());
    let Ok(buffered) = BufWriter::with_capacity(rt.alloc(), OUTPUT_LEN, rt.stdout()) else {
        return tell(&mut errors, StreamFault::Memory);
    };
    run_frame(
        rt.alloc(),
        keys,
        reader,
        &mut MayFail(buffered),
        &mut errors,
    )
}

/// Returns whether a scenario is typed: it isn't in a file, and standard input is a terminal. If
/// so, it says at standard error how to end it, since nothing happens before that.
fn is_typed(rt: &HostRuntime, file: Option<&str>) -> bool {
    let is_typed = file.is_none() && rt.stdin().is_terminal();
    if is_typed {
        let _ = eprintln!(rt;
            "note: end the scenario with Ctrl-D: it is read whole before it is run"
        );
    }
    is_typed
}

/// Does `run`, and reports at a terminal that it takes time, unless the scenario is typed. Returns
/// the exit status.
pub fn run<R: Threads + Wait + Sync>(
    rt: &HostRuntime,
    handle: &R,
    file: Option<&str>,
    explain: bool,
) -> u8 {
    if is_typed(rt, file) {
        return run_input(rt, file, explain, &NoProgress);
    }
    let place = Place::new();
    told(rt, handle, Known::Lines(&place), || {
        run_input(rt, file, explain, &place)
    })
}

/// Runs the scenario of the file of this path, or of standard input, to standard output, explained
/// if that is asked for. Returns the exit status, which is never 2.
fn run_input<G: Progress>(rt: &HostRuntime, file: Option<&str>, explain: bool, progress: &G) -> u8
    ensures { result ≢ 2 }
{
    match open(rt, file) {
        Ok(Input::File(file)) => run_from(rt, &mut MayFail(file), explain, progress),
        Ok(Input::Standard) => run_from(rt, &mut MayFail(rt.stdin()), explain, progress),
        Err(kind) => unopened(rt, file, kind),
    }
}

/// Runs the scenario of a reader to standard output. At a terminal the output of each command is
/// shown at once; elsewhere it is written in large pieces.
fn run_from<R: Source, G: Progress>(
    rt: &HostRuntime,
    reader: &mut R,
    explain: bool,
    progress: &G,
) -> u8
    ensures { result ≢ 2 }
{
    if rt.stdout().is_terminal() {
        return run_to(rt, reader, &mut MayFail(rt.stdout()), explain, progress);
    }
    match BufWriter::with_capacity(rt.alloc(), OUTPUT_LEN, rt.stdout()) {
        Ok(buffered) => run_to(rt, reader, &mut MayFail(buffered), explain, progress),
        Err(_) => tell(&mut MayFail(rt.stderr()), StreamFault::Memory),
    }
}

/// Runs the scenario of a reader to a writer.
fn run_to<R: Source, W: Sink, G: Progress>(
    rt: &HostRuntime,
    reader: &mut R,
    writer: &mut W,
    explain: bool,
    progress: &G,
) -> u8
    ensures { result ≢ 2 }
{
    let mut errors = MayFail(rt.stderr());
    run_scenario(rt.alloc(), reader, writer, &mut errors, explain, progress)
}

/// Does `draw`, and reports at a terminal how far it is, unless the scenario is typed. Returns the
/// exit status.
pub fn draw<R: Threads + Wait + Sync>(
    rt: &HostRuntime,
    handle: &R,
    file: Option<&str>,
    part: Excerpt,
) -> u8 {
    if is_typed(rt, file) {
        return draw_input(rt, file, part, &NoProgress);
    }
    let place = Place::new();
    told(rt, handle, Known::Lines(&place), || {
        draw_input(rt, file, part, &place)
    })
}

/// Draws the scenario of the file of this path, or of standard input, to standard output. Returns
/// the exit status: that of `draw_from`, or that of `tell_unopened`, which is never 2: a file that
/// can't be opened can't be read. (It has no clause of its own, since none can name what a file
/// gives.)
fn draw_input<G: Progress>(
    rt: &HostRuntime,
    file: Option<&str>,
    part: Excerpt,
    progress: &G,
) -> u8 {
    match open(rt, file) {
        Ok(Input::File(file)) => draw_from(rt, &mut MayFail(file), part, progress),
        Ok(Input::Standard) => draw_from(rt, &mut MayFail(rt.stdin()), part, progress),
        Err(kind) => unopened(rt, file, kind),
    }
}

/// Draws the scenario of a reader to standard output. Returns the exit status, which is 2, that of
/// wrong arguments, exactly if the whole input was read and no command stands in the part.
fn draw_from<R: Source, G: Progress>(
    rt: &HostRuntime,
    reader: &mut R,
    part: Excerpt,
    progress: &G,
) -> u8
    ensures { EndsDrawing part.from part.to (R.at reader.old) (R.at reader.new) result }
{
    let mut errors = MayFail(rt.stderr());
    draw_scenario(
        rt.alloc(),
        reader,
        &mut MayFail(rt.stdout()),
        &mut errors,
        part,
        progress,
    )
}
