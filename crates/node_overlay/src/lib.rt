//! Whom a node talks to: its views with the broadcast whose peers are the active view, and the way
//! of what they say to frames.
//!
//! Read `overlay` (the views with the broadcast), `talking` and `ticking` (what the overlay does),
//! `pending` (how that is ended or taken back); then `messages` and `sending`, which turn what a
//! node says into frames. `laws` has what always holds of an overlay.
#![tactic(auto)]

pub mod envelope;
pub mod laws;
pub mod messages;
pub mod origin;
pub mod overlay;
pub mod pending;
pub mod sending;
pub mod talking;
pub mod ticking;

pub use envelope::Envelope;
pub use messages::gossips;
pub use origin::Origin;
pub use overlay::Overlay;
pub use pending::Pending;
pub use sending::outbox;
