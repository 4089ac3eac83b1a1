//! Each event of a world has an outcome, and each text of a scenario an output. The laws are in
//! `laws`.
#![tactic(auto)]

pub mod laws;
