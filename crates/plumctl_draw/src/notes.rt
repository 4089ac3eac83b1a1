//! What happened in a run, as far as it is drawn.

/// The places of a list from `start` to just before `end`.
#[derive(Clone, Copy)]
pub struct Span {
    pub start: usize,
    pub end: usize,
}

/// How a moment is marked on the lane of its node.
#[derive(Clone, Copy, PartialEq, Eq)]
pub enum LaneMark {
    /// Nothing but the label: the command only looked.
    Look,
    /// A dot: the node made a step.
    Step,
    /// A diamond: the step was about who knows whom.
    View,
    /// The lane breaks: the node began another life.
    Restart,
    /// The end of an arrow: the node took a frame that counted a write that it didn't know, or one
    /// without an object.
    Taken,
    /// The end of a dashed arrow: the frame's object counted no write that wasn't known.
    Stale,
    /// The end of a dashed arrow: the node refused the frame.
    Refused,
    /// A band across all lanes, with the label in it: many frames arrived, and many were sent.
    Band,
    /// The box alone: what the node shows once a band is over.
    Shown,
}

/// Returns the bit of a node among the first 64; 0 for any other.
pub fn bit(node: u64) -> u64 {
    if node < 64 { 1u64 << node } else { 0 }
}

/// A step of a node, or a look at it. Each has a row.
#[derive(Clone, Copy)]
pub struct DrawnRow {
    /// The node on whose lane it stands.
    pub node: u64,
    /// The bits of the nodes that share its box, its own among them; 0 if no other does.
    pub with: u64,
    pub mark: LaneMark,
    /// The number of the frame that was delivered, from 1, or 0 if there was none.
    pub frame: u64,
    /// The places of the frames that it sent.
    pub sent: Span,
    /// Where its label stands among the labels: lines that end with a line feed each.
    pub label: Span,
}

/// A command of the scenario.
#[derive(Clone, Copy)]
pub struct CommandLine<'a> {
    /// The number of its line.
    pub number: u64,
    pub text: &'a [u8],
    /// The place of its first moment.
    pub first: usize,
}

/// What a frame is about, which decides its colour.
#[derive(Clone, Copy, PartialEq, Eq)]
pub enum Group {
    Gossip,
    Announcement,
    Repair,
    Membership,
    Exchange,
}

/// A frame that was sent.
#[derive(Clone, Copy)]
pub struct Flight {
    /// The name of its message's kind.
    pub name: &'static str,
    pub group: Group,
    pub from: u64,
    pub to: u64,
    /// The place of the moment that sent it.
    pub sent: usize,
    /// The place of the last moment at which it arrived, if it ever did.
    pub arrived: Option<usize>,
}

/// What happened in a run. The place of a frame is one less than its number.
#[derive(Drop)]
pub struct Notes<'a> {
    /// How many nodes there are.
    pub nodes: u64,
    pub commands: Vec<CommandLine<'a>>,
    pub moments: Vec<DrawnRow>,
    pub flights: Vec<Flight>,
    /// The labels of all moments.
    pub labels: Vec<u8>,
}

impl<'a> Notes<'a> {
    /// Returns the frame of a number, if there is one.
    pub fn flight(&self, number: u64) -> Option<&Flight> {
        self.flights.get((number as usize).checked_sub(1)?)
    }

    pub(crate) fn label(&self, moment: &DrawnRow) -> &[u8] {
        let Span { start, end } = moment.label;
        self.labels.get(start..end).unwrap_or(&[])
    }

    /// Returns how many frames that a moment sent never arrived.
    pub(crate) fn lost(&self, moment: &DrawnRow) -> u64 {
        let Span { start, end } = moment.sent;
        let mut lost = 0u64;
        for flight in self.flights.get(start..end).unwrap_or(&[]) {
            if flight.arrived.is_none() {
                lost = lost.saturating_add(1);
            }
        }
        lost
    }
}
