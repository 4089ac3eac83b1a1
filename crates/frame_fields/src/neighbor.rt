//! Small parts of messages.

/// How much a node wants another as a neighbor.
#[derive(Clone, Copy, Debug, PartialEq, Eq)]
pub enum Priority {
    /// 0: it has other neighbors.
    Low,
    /// 1: it has none.
    High,
}

/// Whether a node takes another as a neighbor.
#[derive(Clone, Copy, Debug, PartialEq, Eq)]
pub enum NeighborAnswer {
    /// 0
    No,
    /// 1
    Yes,
}
