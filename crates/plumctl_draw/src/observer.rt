//! Who runs a scenario and notes what happens.

ghost use Rattle.scenario.specs.Output.{opens_plainly};
ghost use Rattle.scenario_commands.specs.Obeying.{Obeys};

use crate::bands::{KindCount, add_counts, count_kind};
use crate::drawing::MAX_MOMENTS;
use crate::labels::{add_done, add_first_line, add_held, first_line, key_changed};
use crate::{CommandLine, DrawnRow, Flight, Group, LaneMark, Notes, Span, bit};
use meta_frame::{Frame, Message, decode, kind_name};
use meta_types::MetaKey;
use node_events::{NodeEvent, Reply};
use resolvers::Resolver;
use scenario::Runner;
use scenario_commands::{Stage, StageFault, print_line};
use scenario_text::{Command, Lines, is_skipped};
use std::alloc::{AllocError, Global};
use world_core::{Accepted, Event, FrameNumbers, World};

/// The most nodes of a world.
const MOST_NODES: u64 = 16;

/// No places.
const NONE: Span = Span { start: 0, end: 0 };

/// Who runs a scenario as `Plain` does, and notes what happens.
#[derive(Drop)]
pub(crate) struct Observer<'a> {
    alloc: Global,
    lines: Lines<'a>,
    /// How many lines of the text were passed.
    number: u64,
    /// Whether each `settle` is noted as one moment, and one for each box below it.
    fold: bool,
    pub notes: Notes<'a>,
}

/// Under which key a node's object changed.
#[derive(Drop)]
struct Changed {
    node: u64,
    key: MetaKey,
}

impl<'a> Observer<'a> {
    /// Observes the scenario that this text is, from its first command on.
    pub(crate) fn new(alloc: Global, text: &'a [u8], fold: bool) -> Self {
        Observer {
            alloc,
            lines: Lines::of(text),
            number: 0,
            fold,
            notes: Notes {
                nodes: 0,
                commands: Vec::new(alloc),
                moments: Vec::new(alloc),
                flights: Vec::new(alloc),
                labels: Vec::new(alloc),
            },
        }
    }

    /// Notes the line of the next command.
    fn note_line(&mut self) -> Result<(), AllocError> {
        let text = next_line(&mut self.lines, &mut self.number).unwrap_or(b"");
        let command = CommandLine {
            number: self.number,
            text,
            first: self.notes.moments.len(),
        };
        self.notes.commands.push(command)?;
        Ok(())
    }

    /// Notes what a command did: the events that were accepted from `before` on, and what it
    /// printed.
    fn note_command(
        &mut self,
        world: &World,
        before: usize,
        command: &Command<'_>,
        printed: &[u8],
    ) -> Result<(), AllocError> {
        let events = world.accepted().get(before..).unwrap_or(&[]);
        if self.fold && matches!(command, Command::Settle) {
            return self.note_band(world, events, printed);
        }
        if events.is_empty() {
            return self.note_look(command, printed);
        }
        let first = self.notes.moments.len();
        self.note_events(world, events)?;
        // (no part of a scenario in which a command has more moments is ever drawn)
        if events.len() as u64 > MAX_MOMENTS {
            return Ok(());
        }
        self.note_labels(world, events, first, printed)
    }

    /// Notes a command that changed nothing: one that looks, or is refused.
    fn note_look(&mut self, command: &Command<'_>, printed: &[u8]) -> Result<(), AllocError> {
        let start = self.notes.labels.len();
        add_first_line(&mut self.notes.labels, printed)?;
        let label = Span {
            start,
            end: self.notes.labels.len(),
        };
        let (node, mark, frame) = match command {
            Command::Deliver { frame, node, .. } => {
                (
                    node.unwrap_or(self.addressee(*frame)),
                    LaneMark::Refused,
                    *frame,
                )
            }
            command => (node_of(command), LaneMark::Look, 0),
        };
        self.note_refused(node, frame);
        self.notes.moments.push(DrawnRow {
            node,
            with: 0,
            mark,
            frame,
            sent: NONE,
            label,
        })?;
        Ok(())
    }

    /// To whom a frame was sent; 0 if there is no such frame.
    fn addressee(&self, frame: u64) -> u64 {
        match self.notes.flight(frame) {
            Some(flight) => flight.to,
            None => 0,
        }
    }

    /// Notes that a frame arrives at the moment that comes next, if the node that refuses it is its
    /// addressee.
    fn note_refused(&mut self, node: u64, frame: u64) {
        if node == self.addressee(frame) {
            self.note_arrival(frame);
        }
    }

    /// Notes that a frame arrives at the moment that comes next.
    fn note_arrival(&mut self, frame: u64) {
        let place = self.notes.moments.len();
        let Some(at) = (frame as usize).checked_sub(1) else {
            return;
        };
        if let Some(flight) = self.notes.flights.get_mut(at) {
            flight.arrived = Some(place);
        }
    }

    /// Notes a moment for each event, and the frames that it sent.
    fn note_events(&mut self, world: &World, events: &[Accepted]) -> Result<(), AllocError> {
        for accepted in events {
            self.note_event(world, accepted)?;
        }
        Ok(())
    }

    /// Notes a moment for an event, and the frames that it sent.
    fn note_event(&mut self, world: &World, accepted: &Accepted) -> Result<(), AllocError> {
        let frame = frame_of(&accepted.event);
        self.note_arrival(frame);
        let start = self.notes.flights.len();
        self.note_frames(world, accepted.answer.sent)?;
        let moment = DrawnRow {
            node: accepted.event.node(),
            with: 0,
            mark: mark_of(accepted),
            frame,
            sent: Span {
                start,
                end: self.notes.flights.len(),
            },
            label: NONE,
        };
        self.notes.moments.push(moment)?;
        Ok(())
    }

    /// Notes the frames of these numbers, which the moment sent that comes next.
    fn note_frames(&mut self, world: &World, sent: FrameNumbers) -> Result<(), AllocError> {
        let place = self.notes.moments.len();
        for number in 0..sent.count {
            if let Some(bytes) = world.frame(sent.first.saturating_add(number))? {
                let flight = flight_of(self.alloc, bytes.as_slice(), place)?;
                self.notes.flights.push(flight)?;
            }
        }
        Ok(())
    }

    /// Notes the events of a `settle` as one moment, and what nodes show then that they changed.
    fn note_band(
        &mut self,
        world: &World,
        events: &[Accepted],
        printed: &[u8],
    ) -> Result<(), AllocError> {
        let start = self.notes.flights.len();
        let mut counts = Vec::new(self.alloc);
        self.note_passages(world, events, &mut counts)?;
        let label = self.note_counts(printed, counts.as_slice())?;
        let sent = Span {
            start,
            end: self.notes.flights.len(),
        };
        self.note_moment(0, LaneMark::Band, sent, label)?;
        self.note_changes(world, events)
    }

    /// Notes a moment that delivered no single frame.
    fn note_moment(
        &mut self,
        node: u64,
        mark: LaneMark,
        sent: Span,
        label: Span,
    ) -> Result<(), AllocError> {
        self.notes.moments.push(DrawnRow {
            node,
            with: 0,
            mark,
            frame: 0,
            sent,
            label,
        })?;
        Ok(())
    }

    /// Notes that the frames of these events arrive at the moment that comes next, which sends what
    /// they sent, and counts them.
    fn note_passages(
        &mut self,
        world: &World,
        events: &[Accepted],
        counts: &mut Vec<KindCount>,
    ) -> Result<(), AllocError> {
        for accepted in events {
            let frame = frame_of(&accepted.event);
            self.note_arrival(frame);
            if let Some(flight) = self.notes.flight(frame) {
                count_kind(counts, flight.name)?;
            }
            self.note_frames(world, accepted.answer.sent)?;
        }
        Ok(())
    }

    /// Adds the label of a band: what was printed, and how many frames of each kind arrived.
    fn note_counts(&mut self, printed: &[u8], counts: &[KindCount]) -> Result<Span, AllocError> {
        let labels = &mut self.notes.labels;
        let start = labels.len();
        labels.extend_from_slice(first_line(printed))?;
        add_counts(labels, start, counts)?;
        let end = labels.len();
        Ok(Span { start, end })
    }

    /// Notes what nodes show that these events changed, a moment for each text: nodes that show the
    /// same share it.
    fn note_changes(&mut self, world: &World, events: &[Accepted]) -> Result<(), AllocError> {
        let first = self.notes.moments.len();
        let mut seen = Vec::new(self.alloc);
        for accepted in events {
            // (no part of a scenario in which a command has more moments is ever drawn)
            if self.notes.moments.len().saturating_sub(first) as u64 > MAX_MOMENTS {
                return Ok(());
            }
            self.note_change(world, accepted, &mut seen, first)?;
        }
        Ok(())
    }

    /// Notes what a node shows that this event changed, unless an earlier one changed that too.
    fn note_change(
        &mut self,
        world: &World,
        accepted: &Accepted,
        seen: &mut Vec<Changed>,
        first: usize,
    ) -> Result<(), AllocError> {
        let Some(key) = key_changed(self.alloc, world, accepted)? else {
            return Ok(());
        };
        let node = accepted.event.node();
        if has_seen(seen.as_slice(), node, &key) {
            return Ok(());
        }
        let start = self.notes.labels.len();
        add_held(self.alloc, &mut self.notes.labels, world, node, &key)?;
        seen.push(Changed { node, key })?;
        let end = self.notes.labels.len();
        self.note_box(first, node, Span { start, end })
    }

    /// Notes that a node shows what this label says: at the moment from `first` on that has it too,
    /// or otherwise at one more.
    fn note_box(&mut self, first: usize, node: u64, label: Span) -> Result<(), AllocError> {
        let Some(place) = self.same_box(first, label) else {
            return self.note_moment(node, LaneMark::Shown, NONE, label);
        };
        if let Some(moment) = self.notes.moments.get_mut(place) {
            moment.with |= bit(moment.node) | bit(node);
            moment.node = moment.node.min(node);
        }
        Ok(())
    }

    /// The place of the moment from `first` on whose label is the same.
    fn same_box(&self, first: usize, label: Span) -> Option<usize> {
        let text = self.notes.labels.get(label.start..label.end)?;
        for (at, moment) in self.notes.moments.iter().enumerate().skip(first) {
            let Span { start, end } = moment.label;
            if self.notes.labels.get(start..end) == Some(text) {
                return Some(at);
            }
        }
        None
    }

    /// Labels the moments of these events, the first of which stands at this place: the last event
    /// of the command that changed what a node shows under a key has what it shows then.
    fn note_labels(
        &mut self,
        world: &World,
        events: &[Accepted],
        first: usize,
        printed: &[u8],
    ) -> Result<(), AllocError> {
        let mut seen = Vec::new(self.alloc);
        for (after, accepted) in events.iter().enumerate().rev() {
            let start = self.notes.labels.len();
            let labels = &mut self.notes.labels;
            add_label(self.alloc, labels, world, accepted, &mut seen, printed)?;
            let end = self.notes.labels.len();
            if let Some(moment) = self.notes.moments.get_mut(first.saturating_add(after)) {
                moment.label = Span { start, end };
            }
        }
        Ok(())
    }
}

/// Adds the label of an event.
fn add_label(
    alloc: Global,
    label: &mut Vec<u8>,
    world: &World,
    accepted: &Accepted,
    seen: &mut Vec<Changed>,
    printed: &[u8],
) -> Result<(), AllocError> {
    let Some(key) = key_changed(alloc, world, accepted)? else {
        return add_done(label, world, &accepted.event, printed);
    };
    let node = accepted.event.node();
    if has_seen(seen.as_slice(), node, &key) {
        return Ok(());
    }
    add_held(alloc, label, world, node, &key)?;
    seen.push(Changed { node, key })?;
    Ok(())
}

/// Whether a node's object under a key is among those that changed later.
fn has_seen(seen: &[Changed], node: u64, key: &MetaKey) -> bool {
    for other in seen {
        if other.node == node && other.key == *key {
            return true;
        }
    }
    false
}

/// The next line that isn't skipped. Each line that is passed is counted.
fn next_line<'a>(lines: &mut Lines<'a>, number: &mut u64) -> Option<&'a [u8]> {
    while let Some(line) = lines.next() {
        *number = number.saturating_add(1);
        if !is_skipped(line) {
            return Some(line);
        }
    }
    None
}

/// The number of the frame that an event delivers, or 0.
fn frame_of(event: &Event) -> u64 {
    match event {
        Event::Deliver { frame, .. } => *frame,
        _ => 0,
    }
}

/// How an event is marked.
fn mark_of(accepted: &Accepted) -> LaneMark {
    match &accepted.event {
        Event::Deliver { .. } => match &accepted.answer.reply {
            Reply::TookStale => LaneMark::Stale,
            _ => LaneMark::Taken,
        },
        Event::Restart { .. } => LaneMark::Restart,
        Event::Step { event, .. } => mark_of_step(event),
        Event::Put { .. } => LaneMark::Step,
    }
}

/// How a step is marked.
fn mark_of_step(event: &NodeEvent) -> LaneMark {
    match event {
        NodeEvent::Join { .. } | NodeEvent::Leave | NodeEvent::PeerDown { .. } => LaneMark::View,
        NodeEvent::Read { .. } | NodeEvent::Watch { .. } | NodeEvent::Changes { .. } => {
            LaneMark::Look
        }
        _ => LaneMark::Step,
    }
}

/// What is noted of the frame that these bytes spell, which the moment at this place sent. No frame
/// of a world is refused, except for want of memory.
fn flight_of(alloc: Global, bytes: &[u8], sent: usize) -> Result<Flight, AllocError> {
    match decode(alloc, bytes) {
        Ok(frame) => {
            let flight = flight(&frame, sent);
            drop(frame);
            Ok(flight)
        }
        Err(_) => Err(AllocError),
    }
}

/// What is noted of a frame, which the moment at this place sent.
fn flight(frame: &Frame, sent: usize) -> Flight {
    Flight {
        name: kind_name(&frame.message),
        group: group_of(&frame.message),
        from: u64::from(frame.from.number()),
        to: u64::from(frame.to.number()),
        sent,
        arrived: None,
    }
}

/// What a message is about.
fn group_of(message: &Message) -> Group {
    match message {
        Message::Gossip { .. } => Group::Gossip,
        Message::IHave { .. } => Group::Announcement,
        Message::Graft { .. } | Message::Prune => Group::Repair,
        Message::XRoot { .. }
        | Message::XPrefixes { .. }
        | Message::XInner { .. }
        | Message::XLeaves { .. }
        | Message::XBucket { .. }
        | Message::XObject { .. }
        | Message::XWant { .. } => Group::Exchange,
        _ => Group::Membership,
    }
}

/// The node that a command is for, which is none that delivers; 0 for one that is for no node.
fn node_of(command: &Command<'_>) -> u64 {
    match command {
        Command::Put { node, .. }
        | Command::Del { node, .. }
        | Command::Over { node, .. }
        | Command::Read { node, .. }
        | Command::Show { node, .. }
        | Command::Resolve { node, .. }
        | Command::Junk { node, .. }
        | Command::Tick { node, .. }
        | Command::Join { node, .. }
        | Command::Down { node, .. }
        | Command::Exchange { node, .. }
        | Command::Hello { node, .. }
        | Command::Leave { node }
        | Command::Restart { node, .. }
        | Command::Keep { node, .. }
        | Command::Watch { node, .. }
        | Command::Changes { node, .. }
        | Command::Keys { node, .. }
        | Command::Root { node }
        | Command::Images { node }
        | Command::Views { node } => *node,
        Command::Nodes { .. } | Command::Deliver { .. } | Command::Settle => 0,
    }
}

/// How many nodes a world has.
fn nodes_of(world: &World) -> u64 {
    for number in 0..MOST_NODES {
        if world.state(number).is_none() {
            return number;
        }
    }
    MOST_NODES
}

impl<'a> Runner for Observer<'a> {
    ghost opens = { opens_plainly };

    ghost does = { Obeys };

    ghost follows = { λ _ _. Unit {0} };

    fn open(&mut self, stage: &Stage, text: &mut Vec<u8>) -> Result<(), AllocError> {
        self.note_line()?;
        self.notes.nodes = nodes_of(stage.world());
        self.notes.moments.push(DrawnRow {
            node: 0,
            with: 0,
            mark: LaneMark::Look,
            frame: 0,
            sent: NONE,
            label: NONE,
        })?;
        print_line(text, "ok")
    }

    fn obey(
        &mut self,
        stage: &mut Stage,
        command: &Command<'_>,
        resolvers: &[Box<dyn Resolver>],
        text: &mut Vec<u8>,
    ) -> Result<(), StageFault> {
        self.note_line()?;
        let before = stage.world().accepted().len();
        stage.obey(command, resolvers, text)?;
        self.note_command(stage.world(), before, command, text.as_slice())?;
        Ok(())
    }
}
