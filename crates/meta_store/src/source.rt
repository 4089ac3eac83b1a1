use meta_types::Actor;

/// Who read: a node in one of its lives, and the number of the step in which it read. A node
/// numbers the steps of a life from 1.
#[derive(Clone, Copy, Debug, PartialEq, Eq)]
pub struct Source {
    pub actor: Actor,
    pub step: u64,
}
