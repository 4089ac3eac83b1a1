//! When nodes agree, and when nothing that was deleted comes back: laws of finite schedules.
//!
//! Nothing runs here. Of delivery nothing is promised anywhere; what is said is which exchanges
//! suffice, how many are needed, what a broadcast reaches whose frames arrive, and what can no
//! longer be learned once it is known nowhere.
//!
//! Read `specs/Left.antt`, `laws` up to `an_overwritten_write_is_never_shown_again`, then
//! `specs/Rounds.antt`, `Schedules.antt`, `Tree.antt`, `Meeting.antt`, `World.antt`,
//! `Window.antt`, `Broadcast.antt` and the other laws.
#![tactic(auto)]

pub mod laws;
