//! The tests of nodes and of what stands in them and around them: resolvers and watches, the
//! overlay, one node, its plan, and a world. What a text can say is a row of `rows`. They stand
//! apart, since a crate is proved once more with its tests. No crate uses this one.
#![tactic(auto)]

// What is proved of a function grows with the places at which it may end while it owns something.
// So if memory runs out a test ends on the spot, by `expect`, which drops nothing; and a node ends
// by a call of `drop`, which is proved once for each type in it, while a node that goes out of
// scope costs more than all else here.

#[cfg(test)]
mod acts;
#[cfg(test)]
mod attempts;
#[cfg(test)]
mod calling;
#[cfg(test)]
mod copies;
#[cfg(test)]
mod events;
#[cfg(test)]
mod events_again;
#[cfg(test)]
mod example;
#[cfg(test)]
mod frame_lists;
#[cfg(test)]
mod frames;
#[cfg(test)]
mod full;
#[cfg(test)]
mod images;
#[cfg(test)]
mod images_read;
#[cfg(test)]
mod lives;
#[cfg(test)]
mod overlay;
#[cfg(test)]
mod parts;
#[cfg(test)]
mod plans;
#[cfg(test)]
mod playing;
#[cfg(test)]
mod replies;
#[cfg(test)]
mod resolving;
#[cfg(test)]
mod rows;
#[cfg(test)]
mod running;
#[cfg(test)]
mod sameness;
#[cfg(test)]
mod savepoints;
#[cfg(test)]
mod sent;
#[cfg(test)]
mod watching;
