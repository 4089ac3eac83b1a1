//! The tests of `devices`, `node_file` and `file_pieces`, over their public calls and apart from
//! them: a crate is proved once more with its tests. No crate uses this one.
#![tactic(auto)]

// What is proved of a function grows with the places at which it may end while it owns something.
// So if memory runs out a test ends on the spot, by `expect`, which drops nothing, and rows are
// statics, of which a proof knows no more than their type.

#[cfg(test)]
mod batches;
#[cfg(test)]
mod files;
#[cfg(test)]
mod gates;
#[cfg(test)]
mod keys;
#[cfg(test)]
mod old;
#[cfg(test)]
mod opened;
#[cfg(test)]
mod parts;
#[cfg(test)]
mod paths;
#[cfg(test)]
mod pieces;
#[cfg(test)]
mod refused_memory;
#[cfg(test)]
mod stops;
#[cfg(test)]
mod written;
