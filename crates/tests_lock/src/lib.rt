//! The tests of nodes under their locks, over the public calls of `node_lock` and apart from it: a
//! crate is proved once more with its tests. No crate uses this one.
#![tactic(auto)]

#[cfg(test)]
mod batches;
#[cfg(test)]
mod calls;
#[cfg(test)]
mod closing;
#[cfg(test)]
mod parts;
#[cfg(test)]
mod refused_memory;
#[cfg(test)]
mod seats;
#[cfg(test)]
mod stops;
#[cfg(test)]
mod threads;
#[cfg(test)]
mod waiting;
