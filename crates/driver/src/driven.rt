use node_hosted::HostFault;

/// How a call ended that began its batch.
#[must_use]
#[derive(Debug, Drop, PartialEq, Eq)]
pub struct Driven {
    /// How its tasks ended: those that were next are done, or as many as a call does; or the next
    /// one was refused, and was still next when what the call is made for began.
    pub worked: Result<(), HostFault>,
    /// How it ended what the call is made for.
    pub own: Result<(), HostFault>,
}
