//! Rooms, and what calls return at their ends, by one thread.

ghost use Rattle.std.specs.Prelude.{◌≡◌, ◌≤◌};

use crate::inbox_parts::{put, take, with_room_for};
use inbox::{Inbox, InboxFault, PutPass};
use std::alloc::Global;
use std::process::Abort;
use std::sync::Wait;

/// Returns how many frames are put before one is refused, which spell 0, 1 and so on; and the
/// number of the refusal.
fn fill<R: Wait + Abort>(rt: &R, alloc: Global, inbox: &Inbox, pass: &mut PutPass) -> (u32, u16)
    requires { pass.old.line ≡ inbox.now.line }
    ensures { pass.new.line ≡ inbox.now.line }
{
    for number in 0..2_000 {
        let code = put(rt, alloc, inbox, pass, number);
        if code != 0 {
            return (number, code);
        }
    }
    (2_000, 0)
}

/// Returns the number with which a room is refused, 0 if it isn't.
fn code_of_room(alloc: Global, senders: usize, room: usize) -> u16
    requires { (1 ≤ senders) × (senders ≤ 16) }
{
    match Inbox::with_room(alloc, senders, room) {
        Ok(_) => 0,
        Err(fault) => fault.code(),
    }
}

/// Returns whether an inbox of this room takes just `room` frames, gives the oldest first, takes
/// one more for each that it gave, and none once it is closed, when it still gives what it has.
fn keeps_to_its_room<R: Wait + Abort>(rt: &R, alloc: Global, room: u32) -> bool {
    let (mut inbox, mut puts, mut takes) = with_room_for(rt, alloc, room as usize);
    let was_empty = take(rt, &inbox, &mut takes) == None;
    let all = fill(rt, alloc, &inbox, &mut puts) == (room, 50);
    let oldest = take(rt, &inbox, &mut takes) == Some((0, 0));
    let one_more = fill(rt, alloc, &inbox, &mut puts) == (1, 50);
    inbox.close();
    let no_more = fill(rt, alloc, &inbox, &mut puts) == (0, 53);
    let next = take(rt, &inbox, &mut takes) == Some((0, if room == 1 { 0 } else { 1 }));
    was_empty && all && oldest && one_more && no_more && next
}

#[test]
fn an_inbox_keeps_to_its_room(rt: HostRuntime) {
    assert!(rt; keeps_to_its_room(&rt, rt.alloc(), 1));
    assert!(rt; keeps_to_its_room(&rt, rt.alloc(), 2));
    assert!(rt; keeps_to_its_room(&rt, rt.alloc(), 1_024));
}

#[test]
fn rooms_from_1_to_1024(rt: HostRuntime) {
    let alloc = rt.alloc();
    assert!(rt; (code_of_room(alloc, 1, 0), code_of_room(alloc, 16, 1_025)) == (55, 55));
    assert!(rt; (code_of_room(alloc, 16, 1), code_of_room(alloc, 1, 1_024)) == (0, 0));
    assert!(rt; code_of_room(alloc, 16, usize::MAX) == 55);
}

#[test]
fn refusals_print_as_their_names(rt: HostRuntime) {
    let alloc = rt.alloc();
    let faults = [
        InboxFault::Full,
        InboxFault::Closed,
        InboxFault::BadLimit,
        InboxFault::Memory,
    ];
    let text = format!(in alloc; "{} {} {} {}", faults[0], faults[1], faults[2], faults[3]);
    assert!(rt; text.expect(&rt, "memory").as_str() == "Full Closed BadLimit Memory");
}

// Passes whichever single allocation is refused: what was refused memory is done again.
#[test]
fn an_inbox_is_made_again_under_refused_memory(rt: HostRuntime) {
    let first = code_of_room(rt.alloc(), 4, 8);
    let code = if first == 99 {
        code_of_room(rt.alloc(), 4, 8)
    } else {
        first
    };
    assert!(rt; code == 0);
}
