//! What a line that begins with `:` asks of the nodes that a scenario left.

/// What is tried.
#[derive(Drop)]
pub enum Trial {
    Question(Question),
    /// Each change of each entry.
    Each,
    /// How long it takes to put the journals together.
    Pace,
}

/// What has one answer.
#[derive(Drop)]
pub enum Question {
    /// What comes of putting the journals together.
    Assembling(Handed),
    /// Whether the node lived its whole first life among so many nodes.
    Whole { node: usize, count: usize },
}

/// What is handed in.
#[derive(Drop)]
pub struct Handed {
    pub order: Order,
    pub receipt: Option<Receipted>,
    /// At most one for each node.
    pub changes: Vec<Change>,
}

/// In which order nodes are handed in.
#[derive(Clone, Copy)]
pub enum Order {
    AsTold,
    Backwards,
    /// Only so many of them.
    First(usize),
}

/// A receipt of the node and the place. It tells the entry that stands at `at` of the node `of`.
#[derive(Clone, Copy)]
pub struct Receipted {
    pub node: usize,
    pub place: usize,
    pub of: usize,
    pub at: usize,
}

/// A change of what a node is closed with.
#[derive(Clone, Copy)]
pub struct Change {
    pub node: usize,
    pub part: Changed,
}

#[derive(Clone, Copy)]
pub enum Changed {
    /// The entry at this place of its journal.
    Entry { place: usize, edit: Edit },
    /// Its journal: an entry in which this peer went down, and which gave nothing, stands before
    /// the one at this place.
    Down { place: usize, peer: u16 },
    /// Its table: the first object is left out.
    Table,
}

/// What is done to an entry.
#[derive(Clone, Copy)]
pub enum Edit {
    /// It is left out.
    LeaveOut,
    /// It stands twice.
    Double,
    /// It comes after the next one.
    Swap,
    /// It holds something else.
    Within(Within),
}

/// What is done to what an entry holds.
#[derive(Clone, Copy)]
pub enum Within {
    /// It has another reply.
    Reply,
    /// One bit of the byte at this place of its first frame is another.
    Send(usize),
    /// Its first frame is left out.
    Unsend,
    /// One bit of the byte at this place of the frame that it takes is another.
    Take(usize),
    /// Its write has read nothing.
    Unread,
}
