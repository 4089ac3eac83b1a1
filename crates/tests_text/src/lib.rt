//! The tests of `printing`, `streams`, `plumctl_core`, `scenario` and `plumctl_draw`,
//! over their public calls, apart from them, since a crate is proved once more with its tests. They
//! show what no contract says and what one run of a program over standard input and output can't:
//! readers and writers that fail in mid-stream, when a line is answered, the limit of an input,
//! memory that is refused, and what stands in a picture. The stored run of the program `plumctl`
//! shows how each line is printed, and the rows of `rows` show what a scenario prints. No crate
//! uses this one.
#![tactic(auto)]

#[cfg(test)]
mod commands;
#[cfg(test)]
mod devices;
#[cfg(test)]
mod drawn;
#[cfg(test)]
mod frame_memory;
#[cfg(test)]
mod frame_runs;
#[cfg(test)]
mod picture_refusals;
#[cfg(test)]
mod pictures;
#[cfg(test)]
mod printed;
#[cfg(test)]
mod scenario_faults;
#[cfg(test)]
mod scenario_memory;
#[cfg(test)]
mod scenario_runs;
#[cfg(test)]
mod texts;
