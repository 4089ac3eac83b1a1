//! Each event of a node has an outcome. The laws are in `laws`.
#![tactic(auto)]

pub mod laws;
