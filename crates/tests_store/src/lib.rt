//! The tests of `meta_types`, `dvvset`, `past_model`, `meta_store`, `hash_tree` and `exchange`,
//! over their public calls and apart from them: a crate is proved once more with its tests. No
//! crate uses this one.
#![tactic(auto)]

// What is proved of a function grows with the places at which it may end while it owns something.
// So if memory runs out a test ends on the spot, by `expect`, which drops nothing, and rows are
// statics, of which a proof knows no more than their type.

#[cfg(test)]
mod calling;
#[cfg(test)]
mod example;
#[cfg(test)]
mod exchanges;
#[cfg(test)]
mod large_trees;
#[cfg(test)]
mod names;
#[cfg(test)]
mod parts;
#[cfg(test)]
mod past;
#[cfg(test)]
mod store;
#[cfg(test)]
mod taken_back;
#[cfg(test)]
mod tree_changes;
#[cfg(test)]
mod tree_rows;
#[cfg(test)]
mod trees;
#[cfg(test)]
mod trees_again;
