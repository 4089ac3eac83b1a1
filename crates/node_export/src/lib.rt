//! A node as a static library, for programs in Rust and C that bring a transport, a clock and a
//! disk of their own. An export takes a slot that the program keeps, and returns 0 or the number of
//! a refusal. `bindings/c/zomtagi.h` describes them, and `docs/EMBEDDING.md` says how they are
//! used.
//!
//! ```
//! zomtagi_slot slot = {0};
//! zomtagi_serve(&slot, file, file_len, 3);
//! /* append zomtagi_record to the file, then */ zomtagi_stored(&slot, 1);
//! zomtagi_tick(&slot, random());
//! ```
//!
//! Read `making`, `steps`, `writing`, `batching`, `driving`, `handing`, `contexts`, `reading`,
//! `checking`, `copying` and `sealing`; `numbers` has what they return, `reply` how a reply is
//! spelled, and `slot` and `plan_slot` where the program keeps the node and its plan, with `parts`
//! for how a box is taken apart.
#![tactic(auto)]

mod batching;
mod checking;
mod contexts;
mod copying;
mod driving;
mod handing;
mod making;
mod numbers;
mod parts;
mod plan_slot;
mod reading;
mod reply;
mod sealing;
mod slot;
mod steps;
mod writing;

pub use numbers::{BAD_LIFE, NO_NODE, OK, SHORT_BUFFER};
pub use plan_slot::PlanSlot;
pub use reading::About;
pub use slot::Slot;
