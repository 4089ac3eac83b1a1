//! What the calls write, byte by byte.

ghost use Rattle.std.specs.Prelude.{◌≡◌, true};
ghost use Rattle.node_file.specs.File.{file_state};

use crate::files::{
    EMPTY, LAST, LIVES, LIVES_ANEW, OLD, OLD_ANEW, ONE, SERVED, SPENT, TWO, TWO_ANEW,
};
use crate::parts::{device, node, object, write};
use devices::{Device, MemoryDevice};
use meta_store::Store;
use node_file::{NodeFile, clean_copy, create, open_node, rewrite, serve};
use std::alloc::Global;
use std::process::Abort;

/// Returns a file of node 0 that was made.
fn made(rt: &impl Abort, alloc: Global) -> NodeFile<MemoryDevice> {
    let device = device(alloc, b"what was there before").expect(rt, "memory");
    create(device, node(rt, 0)).ok().expect(rt, "a file")
}

/// Returns the file in its next life, with its table and the number of that life.
fn served(rt: &impl Abort, alloc: Global, bytes: &[u8]) -> (NodeFile<MemoryDevice>, Store, u32)
    ensures served { result.0.is_served ≡ true }
    ensures same { (file_state (⟦<MemoryDevice as Device>⟧.content result.0.device)).contents.table
        ≡ result.1 }
{
    let device = device(alloc, bytes).expect(rt, "memory");
    let served = serve(alloc, device, Some(node(rt, 0)));
    served.ok().expect(rt, "a life")
}

/// Rewrites the file of these bytes with its own table.
fn anew(rt: &impl Abort, alloc: Global, bytes: &[u8]) -> MemoryDevice {
    let source = device(alloc, bytes).expect(rt, "memory");
    let (file, table, life) = open_node(alloc, source, None).ok().expect(rt, "a file");
    let mut target = device(alloc, b"something").expect(rt, "memory");
    rewrite(alloc, file.node(), &table, life, &mut target).expect(rt, "a file anew");
    target
}

#[test]
fn a_file_is_made_served_and_appended_to(rt: HostRuntime) {
    let alloc = rt.alloc();
    let file = made(&rt, alloc);
    assert!(rt; file.device().content() == EMPTY);
    assert!(rt; (file.node().number(), file.life(), file.is_stopped()) == (0, 0, false));
    let (mut file, mut table, life) = served(&rt, alloc, EMPTY);
    assert!(rt; life == 1);
    assert!(rt; file.device().content() == SERVED);
    let x = object(&rt, alloc, 1, b'x');
    assert!(rt; write(&rt, alloc, &mut file, &mut table, x) == 0);
    assert!(rt; file.device().content() == ONE);
    let y = object(&rt, alloc, 2, b'y');
    assert!(rt; write(&rt, alloc, &mut file, &mut table, y) == 0);
    assert!(rt; file.device().content() == TWO);
    // Four calls a life or an object: a write, a sync, a gate, a sync.
    assert!(rt; file.device().calls().len() == 12);
}

#[test]
fn a_file_is_written_anew(rt: HostRuntime) {
    let alloc = rt.alloc();
    assert!(rt; anew(&rt, alloc, TWO).content() == TWO_ANEW);
    assert!(rt; anew(&rt, alloc, LIVES).content() == LIVES_ANEW);
    assert!(rt; anew(&rt, alloc, ONE).content() == ONE);
    assert!(rt; anew(&rt, alloc, OLD).content() == OLD_ANEW);
    assert!(rt; anew(&rt, alloc, EMPTY).content() == EMPTY);
}

/// Returns the bytes of a clean copy, or the number of the refusal.
fn copied(
    rt: &impl Abort,
    alloc: Global,
    bytes: &[u8],
    asked: Option<u16>,
) -> Result<Vec<u8>, u16> {
    let asked = match asked {
        Some(number) => Some(node(rt, number)),
        None => None,
    };
    match clean_copy(alloc, bytes, asked) {
        Ok(copy) => Ok(copy),
        Err(fault) => Err(fault.code()),
    }
}

#[test]
fn a_clean_copy_has_a_record_for_each_key(rt: HostRuntime) {
    for (bytes, copy) in [
        (LIVES, LIVES_ANEW),
        (TWO, TWO_ANEW),
        (ONE, ONE),
        (OLD, OLD_ANEW),
        (EMPTY, EMPTY),
    ] {
        let made = copied(&rt, rt.alloc(), bytes, None)
            .ok()
            .expect(&rt, "a copy");
        assert!(rt; made.as_slice() == copy);
    }
}

#[test]
fn a_clean_copy_is_refused_as_opening_is(rt: HostRuntime) {
    assert!(rt; copied(&rt, rt.alloc(), TWO, Some(0)).is_ok());
    assert!(rt; copied(&rt, rt.alloc(), TWO, Some(1)).err() == Some(32));
    assert!(rt; copied(&rt, rt.alloc(), &TWO[..206], None).err() == Some(31));
    assert!(rt; copied(&rt, rt.alloc(), &EMPTY[..10], None).err() == Some(31));
}

#[test]
fn a_served_file_begins_the_life_after_its_last(rt: HostRuntime) {
    let (file, _, life) = served(&rt, rt.alloc(), TWO);
    assert!(rt; life == 2 && file.life() == 2);
    let (file, _, life) = served(&rt, rt.alloc(), LAST);
    assert!(rt; life == u32::MAX);
    assert!(rt; file.device().content().len() == 95);
}

/// Returns whether serving the file is refused with this number, and changes nothing.
fn is_not_served(rt: &impl Abort, alloc: Global, bytes: &[u8], code: u16) -> bool {
    let device = device(alloc, bytes).expect(rt, "memory");
    match serve(alloc, device, None) {
        Ok(_) => false,
        Err((device, fault)) => fault.code() == code && device.content() == bytes,
    }
}

#[test]
fn a_file_that_cannot_begin_a_life_is_left_as_it_is(rt: HostRuntime) {
    assert!(rt; is_not_served(&rt, rt.alloc(), OLD, 36));
    assert!(rt; is_not_served(&rt, rt.alloc(), SPENT, 35));
}
