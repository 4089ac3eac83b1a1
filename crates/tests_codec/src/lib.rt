//! The tests of frames, seals and inboxes: of `frame_fields`, `frame_readers`, `meta_frame`,
//! `sealed_frames` and `inbox`, over their public calls, apart from them, since a crate is proved
//! once more with its tests. They show what no contract says: that each call that takes memory
//! succeeds if there is enough, and when it is made again after memory was refused. The stored run
//! of the program `plumctl` shows what is refused and what is printed. No crate uses this one.
#![tactic(auto)]

// What a function of a test costs to prove grows with each place at which it may end while it owns
// a frame or bytes. So tests are rows of bytes and numbers, and small functions return whether all
// is as it should be.

#[cfg(test)]
mod calling;
#[cfg(test)]
mod changed_seals;
#[cfg(test)]
mod damaged;
#[cfg(test)]
mod fields;
#[cfg(test)]
mod inbox_bounds;
#[cfg(test)]
mod inbox_crowd;
#[cfg(test)]
mod inbox_parts;
#[cfg(test)]
mod kept;
#[cfg(test)]
mod kinds;
#[cfg(test)]
mod large;
#[cfg(test)]
mod published_seals;
#[cfg(test)]
mod refused_memory;
#[cfg(test)]
mod seal_keys;
#[cfg(test)]
mod seal_parts;
