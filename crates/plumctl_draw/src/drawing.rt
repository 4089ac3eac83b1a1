//! A scenario, drawn.

use crate::fault::DrawFault;
use crate::observer::Observer;
use crate::{Notes, Span, add_picture};
use plumctl_core::{Followed, Progress};
use resolvers::Resolver;
use scenario::run_text;
use std::alloc::Global;

/// The most commands of a picture.
pub const MAX_COMMANDS: u64 = 200;

/// The most moments of a picture: a command that settles has one for each frame that it delivers,
/// or, folded, one for its band and one for each box below; and one that keeps all has one for each
/// key.
pub const MAX_MOMENTS: u64 = 2_000;

/// The part of a scenario that is drawn, by the numbers of its lines, and how.
#[derive(Clone, Copy)]
pub struct Excerpt {
    /// The first line.
    pub from: u64,
    /// The last line.
    pub to: u64,
    /// Whether each `settle` is drawn as one band, in place of a row for each frame.
    pub fold: bool,
}

impl Excerpt {
    /// The whole scenario, with all its frames.
    pub fn all() -> Self {
        Excerpt {
            from: 0,
            to: u64::MAX,
            fold: false,
        }
    }
}

/// Which moments the commands of a part have, and how many commands there are.
fn drawn_of(notes: &Notes<'_>, part: Excerpt) -> (Span, u64) {
    let (mut start, mut end) = (notes.moments.len(), notes.moments.len());
    let mut commands = 0u64;
    for command in notes.commands.iter().rev() {
        if part.to < command.number {
            end = command.first;
            start = command.first;
        } else if part.from <= command.number {
            start = command.first;
            commands = commands.saturating_add(1);
        }
    }
    (Span { start, end }, commands)
}

/// Adds the picture of a part of what is noted, if that isn't too long.
fn draw(
    alloc: Global,
    notes: &Notes<'_>,
    part: Excerpt,
    picture: &mut Vec<u8>,
) -> Result<(), DrawFault> {
    let (drawn, commands) = drawn_of(notes, part);
    let moments = drawn.end.saturating_sub(drawn.start) as u64;
    if commands > MAX_COMMANDS || moments > MAX_MOMENTS {
        return Err(DrawFault::TooLong { commands, moments });
    }
    add_picture(alloc, picture, notes, drawn)?;
    Ok(())
}

/// Runs a scenario, and adds a picture of a part of it. Nothing is printed of the run. What stands
/// in `picture` after a fault is no picture.
pub(crate) fn draw_text<G: Progress>(
    alloc: Global,
    text: &[u8],
    resolvers: &[Box<dyn Resolver>],
    part: Excerpt,
    progress: &G,
    picture: &mut Vec<u8>,
) -> Result<(), DrawFault> {
    let observer = Observer::new(alloc, text, part.fold);
    let mut followed = Followed::new(observer, text, progress);
    let mut printed: Vec<u8> = Vec::new(alloc);
    run_text(alloc, &mut followed, text, &mut printed, resolvers)?;
    let observer = followed.into_runner();
    draw(alloc, &observer.notes, part, picture)
}
