//! Printed forms of keys, values, contexts and objects, which every command prints alike, and of
//! frames and their refusals. Each call adds its text at the end of bytes, or nothing if memory is
//! refused.
//!
//! ```
//! let mut text = Vec::new(alloc);
//! print_frame(&mut text, &frame)?; // PRUNE from 1 to 0 number 5
//! ```
//!
//! Read `print` first, the public calls; `field`, `list`, `row` and `frame` have the parts. What no
//! contract says of them is tested by the crate `tests_text` and by the stored run of the program
//! `plumctl`.
#![tactic(auto)]

mod field;
mod frame;
mod list;
mod print;
mod row;

pub use field::are_plain;
pub use print::{
    print_digest, print_frame, print_frame_fault, print_key, print_name, print_nodes, print_number,
    print_object, print_value, print_values, print_vector,
};
