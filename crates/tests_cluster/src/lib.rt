//! The tests of clusters of threads, of their runs as texts and of what is wrong with one, and of
//! `plumctl live` and `plumctl file`, over the public calls of `cluster`,
//! `run_text`, `plumctl_live` and `plumctl_file` and apart from them: a crate is proved once
//! more with its tests. No crate uses this one.
#![tactic(auto)]

// What is asserted doesn't depend on which thread comes first, unless a gate holds one of them.

#[cfg(test)]
mod contexts;
#[cfg(test)]
mod explained;
#[cfg(test)]
mod files;
#[cfg(test)]
mod gates;
#[cfg(test)]
mod kinds;
#[cfg(test)]
mod limits;
#[cfg(test)]
mod lives;
#[cfg(test)]
mod parts;
#[cfg(test)]
mod recordings;
#[cfg(test)]
mod reports;
#[cfg(test)]
mod rows;
#[cfg(test)]
mod runs;
#[cfg(test)]
mod stops;
#[cfg(test)]
mod threads;
