//! Devices over paths of the disk.

ghost use Rattle.devices.specs.Device.{IsDurable};

use crate::files::{ONE, SERVED};
use crate::parts::{node, object, write};
use devices::{Device, DeviceFault, FailedCall, FileDevice, NewName, OpenFault};
use node_file::{FileFault, create, serve};
use std::alloc::Global;
use std::fs;
use std::os::unix::fs::MetadataExt;
use std::process::Abort;

/// Returns why the path isn't opened.
fn refusal(rt: &HostRuntime, path: &str) -> Option<OpenFault> {
    FileDevice::open(rt, rt.alloc(), path).err()
}

/// Returns why the path isn't opened to be read.
fn reading_refusal(rt: &HostRuntime, path: &str) -> Option<OpenFault> {
    FileDevice::open_to_read(rt, rt.alloc(), path).err()
}

/// Returns why the path isn't opened to be copied.
fn copying_refusal(rt: &HostRuntime, path: &str) -> Option<OpenFault> {
    FileDevice::open_to_copy(rt, rt.alloc(), path).err()
}

/// Returns why no file is found or made there.
fn finding_refusal(rt: &HostRuntime, path: &str) -> Option<OpenFault> {
    FileDevice::open_or_create(rt, rt.alloc(), path, b"").err()
}

/// Returns why no file is made there.
fn making_refusal(rt: &HostRuntime, path: &str) -> Option<OpenFault> {
    FileDevice::create(rt, rt.alloc(), path, b"").err()
}

#[test]
fn what_is_no_file_is_not_opened(rt: HostRuntime) {
    assert!(rt; refusal(&rt, "nothing_is_here") == Some(OpenFault::Missing));
    assert!(rt; reading_refusal(&rt, "nothing_is_here") == Some(OpenFault::Missing));
    assert!(rt; refusal(&rt, ".") == Some(OpenFault::NotAFile));
    assert!(rt; reading_refusal(&rt, ".") == Some(OpenFault::NotAFile));
    assert!(rt; making_refusal(&rt, ".") == Some(OpenFault::Exists));
    assert!(rt; making_refusal(&rt, "no_folder/file") == Some(OpenFault::Missing));
    assert!(rt; finding_refusal(&rt, ".") == Some(OpenFault::NotAFile));
    assert!(rt; finding_refusal(&rt, "no_folder/file") == Some(OpenFault::Missing));
}

#[test]
fn a_file_is_no_folder(rt: HostRuntime) {
    let file = "a_file_in_the_way";
    let _ = fs::remove_file(&rt, file);
    assert!(rt; making_refusal(&rt, file).is_none());
    assert!(rt; refusal(&rt, "a_file_in_the_way/below") == Some(OpenFault::Missing));
    assert!(rt; making_refusal(&rt, "a_file_in_the_way/below") == Some(OpenFault::Missing));
    let _ = fs::remove_file(&rt, file);
}

#[test]
fn a_path_is_held_by_one_and_read_by_all(rt: HostRuntime) {
    let path = "a_held_file";
    let _ = fs::remove_file(&rt, path);
    let writer = FileDevice::open_or_create(&rt, rt.alloc(), path, b"");
    assert!(rt; writer.is_ok());
    assert!(rt; refusal(&rt, path) == Some(OpenFault::InUse));
    assert!(rt; copying_refusal(&rt, path) == Some(OpenFault::InUse));
    assert!(rt; making_refusal(&rt, path) == Some(OpenFault::Exists));
    assert!(rt; reading_refusal(&rt, path).is_none());
    drop(writer);
    let copied = FileDevice::open_to_copy(&rt, rt.alloc(), path);
    assert!(rt; copied.is_ok() && refusal(&rt, path) == Some(OpenFault::InUse));
    drop(copied);
    let reader = FileDevice::open_to_read(&rt, rt.alloc(), path);
    assert!(rt; reader.is_ok() && refusal(&rt, path).is_none());
    let _ = fs::remove_file(&rt, path);
}

/// Returns the number that the disk has of the file at the path, and who may do what with it.
fn place_of(rt: &HostRuntime, path: &str) -> Option<(u64, u32)> {
    let found = fs::metadata(rt, path).ok()?;
    Some((found.ino(), found.mode() & 0o777))
}

#[test]
fn a_file_is_made_beside_its_path(rt: HostRuntime) {
    let (path, beside) = ("a_new_file", "a_new_file.zomtagi-new");
    let _ = fs::remove_file(&rt, path);
    // What a process left that ended while it made the file.
    let _ = fs::write(&rt, beside, b"left");
    let made = NewName::at(&rt, rt.alloc(), path);
    assert!(rt; made.is_ok() && place_of(&rt, path).is_none());
    assert!(rt; making_refusal(&rt, path) == Some(OpenFault::InUse));
    drop(made);
    assert!(rt; holds(&rt, beside, b""));
    let device = FileDevice::create(&rt, rt.alloc(), path, ONE);
    assert!(rt; device.is_ok() && holds(&rt, path, ONE));
    assert!(rt; place_of(&rt, beside).is_none());
    assert!(rt; place_of(&rt, path).map(|(_, mode)| mode) == Some(0o600));
    assert!(rt; making_refusal(&rt, path) == Some(OpenFault::Exists));
    assert!(rt; place_of(&rt, beside).is_none());
    let _ = fs::remove_file(&rt, path);
}

#[test]
fn a_file_that_is_opened_is_written_to_the_disk_anew(rt: HostRuntime) {
    let (path, other) = ("a_file_to_renew", "its_other_name");
    let _ = fs::remove_file(&rt, path);
    let _ = fs::remove_file(&rt, other);
    let _ = fs::write(&rt, path, ONE);
    let before = place_of(&rt, path);
    // A process that ended between the two names of a file it made left both.
    let _ = fs::hard_link(&rt, path, "a_file_to_renew.zomtagi-new");
    let opened = FileDevice::open(&rt, rt.alloc(), path);
    assert!(rt; opened.is_ok() && holds(&rt, path, ONE));
    let now = place_of(&rt, path);
    assert!(rt; before.map(|file| file.1) == now.map(|file| file.1));
    assert!(rt; before.is_some() && before != now);
    drop(opened);
    let _ = fs::hard_link(&rt, path, other);
    assert!(rt; refusal(&rt, path) == Some(OpenFault::Linked));
    let _ = fs::remove_file(&rt, path);
    let _ = fs::remove_file(&rt, other);
}

/// Puts other bytes in the place of a file that is held. Returns whether it was done.
fn is_replaced(rt: &HostRuntime, path: &str, held: &FileDevice) -> bool {
    match NewName::over(rt, rt.alloc(), path, held) {
        Ok((mut device, name)) => match device.write_at(0, ONE) {
            Ok(()) => name.put(rt, device).is_ok(),
            Err(_) => false,
        },
        Err(_) => false,
    }
}

#[test]
fn a_file_that_is_held_is_replaced_once(rt: HostRuntime) {
    let path = "a_file_to_replace";
    let _ = fs::remove_file(&rt, path);
    let held = FileDevice::create(&rt, rt.alloc(), path, SERVED);
    let held = held.ok().expect(&rt, "a device");
    assert!(rt; is_replaced(&rt, path, &held) && holds(&rt, path, ONE));
    // Another file is there by now.
    assert!(rt; !is_replaced(&rt, path, &held));
    let _ = fs::remove_file(&rt, path);
}

/// Serves the device and writes x. Returns the number of the refusal, 0 for none.
fn lived(rt: &impl Abort, alloc: Global, device: FileDevice) -> u16
    requires { IsDurable
        (⟦<FileDevice as Device>⟧.content device) (⟦<FileDevice as Device>⟧.may_leave device) }
{
    match serve(alloc, device, None) {
        Ok((mut file, mut table, _)) => {
            write(rt, alloc, &mut file, &mut table, object(rt, alloc, 1, b'x'))
        }
        Err((_, fault)) => fault.code(),
    }
}

/// Returns whether the path holds these bytes, read by other calls.
fn holds(rt: &HostRuntime, path: &str, bytes: &[u8]) -> bool {
    match fs::read(rt, path) {
        Ok(found) => found.as_slice() == bytes,
        Err(_) => false,
    }
}

#[test]
fn what_is_written_is_in_the_file(rt: HostRuntime) {
    let path = "a_file_of_a_node";
    let _ = fs::remove_file(&rt, path);
    let device = FileDevice::create(&rt, rt.alloc(), path, b"")
        .ok()
        .expect(&rt, "a device");
    let file = create(device, node(&rt, 0)).ok().expect(&rt, "a file");
    // What was made has its copy still, so it is served as it stands.
    assert!(rt; lived(&rt, rt.alloc(), file.into_device()) == 0);
    assert!(rt; holds(&rt, path, ONE));
    // It can be read and not written.
    let reader = FileDevice::open_to_read(&rt, rt.alloc(), path)
        .ok()
        .expect(&rt, "a device");
    assert!(rt; lived(&rt, rt.alloc(), reader) == FileFault::Device.code());
    assert!(rt; holds(&rt, path, ONE));
    let writer = FileDevice::open(&rt, rt.alloc(), path)
        .ok()
        .expect(&rt, "a device");
    assert!(rt; lived(&rt, rt.alloc(), writer) == 0);
    let grown = fs::read(&rt, path).ok().expect(&rt, "the file");
    let (_, front) = ONE.split_last().expect(&rt, "a gate");
    assert!(rt; grown.len() == 249 && grown.as_slice().starts_with(front));
    let _ = fs::remove_file(&rt, path);
}

#[test]
fn a_device_without_its_copy_reads_nothing_and_ends(rt: HostRuntime) {
    let path = "a_file_without_a_copy";
    let _ = fs::remove_file(&rt, path);
    let opened = FileDevice::open_or_create(&rt, rt.alloc(), path, b"");
    let mut device = opened.ok().expect(&rt, "a device");
    assert!(rt; device.write_at(0, SERVED).is_ok() && device.cut(11).is_ok());
    assert!(rt; device.held() == Some(&SERVED[..11]) && device.len() == 11);
    device.drop_copy();
    assert!(rt; device.held().is_none());
    let mut byte = [0];
    assert!(rt; device.read_at(0, &mut byte).is_err() && device.failures() == 1);
    // After a failure nothing more is asked of the file.
    assert!(rt; device.sync().is_err() && device.failures() == 2);
    assert!(rt; device.failed_call() == Some(FailedCall::Read));
    drop(device);
    assert!(rt; holds(&rt, path, &SERVED[..11]));
    let _ = fs::remove_file(&rt, path);
}

#[test]
fn the_call_that_failed_first_is_told(rt: HostRuntime) {
    let path = "a_file_to_read";
    let _ = fs::write(&rt, path, ONE);
    let opened = FileDevice::open_to_read(&rt, rt.alloc(), path);
    let mut device = opened.ok().expect(&rt, "a device");
    assert!(rt; device.sync().is_ok() && device.failed_call().is_none());
    assert!(rt; device.write_at(0, b"x") == Err(DeviceFault::Failed));
    assert!(rt; device.failed_call() == Some(FailedCall::Write));
    assert!(rt; device.sync() == Err(DeviceFault::Failed));
    assert!(rt; device.cut(0) == Err(DeviceFault::Failed));
    assert!(rt; device.write_at(0, b"") == Err(DeviceFault::Failed));
    assert!(rt; device.read_at(0, &mut []) == Err(DeviceFault::Failed));
    assert!(rt; device.failed_call() == Some(FailedCall::Write) && device.failures() == 5);
    let _ = fs::remove_file(&rt, path);
}

/// Returns whether what was opened at the path holds these bytes; `None` if memory ran out.
fn is_held(opened: Result<FileDevice, OpenFault>, bytes: &[u8]) -> Option<bool> {
    match opened {
        Ok(device) => Some(device.held() == Some(bytes)),
        Err(fault) => if fault == OpenFault::Memory {
            None
        } else {
            Some(false)
        },
    }
}

/// Opens the path for writing.
fn is_opened(rt: &HostRuntime, path: &str) -> Option<bool> {
    is_held(FileDevice::open(rt, rt.alloc(), path), ONE)
}

/// Opens the path to be read.
fn is_opened_to_read(rt: &HostRuntime, path: &str) -> Option<bool> {
    is_held(FileDevice::open_to_read(rt, rt.alloc(), path), ONE)
}

/// Makes a file at the path.
fn is_made(rt: &HostRuntime, path: &str) -> Option<bool> {
    is_held(FileDevice::create(rt, rt.alloc(), path, ONE), ONE)
}

// Each passes whichever single allocation is refused: what was refused memory is done again.
#[test]
fn a_path_is_opened_again_under_refused_memory(rt: HostRuntime) {
    let path = "a_file_to_open";
    if fs::write(&rt, path, ONE).is_err() {
        let _ = fs::write(&rt, path, ONE);
    }
    let done = is_opened(&rt, path).or_else(|| is_opened(&rt, path));
    let read = is_opened_to_read(&rt, path).or_else(|| is_opened_to_read(&rt, path));
    assert!(rt; done == Some(true) && read == Some(true));
}

#[test]
fn a_path_is_made_again_under_refused_memory(rt: HostRuntime) {
    let path = "a_file_to_make";
    if fs::remove_file(&rt, path).is_err() {
        let _ = fs::remove_file(&rt, path);
    }
    let done = is_made(&rt, path).or_else(|| is_made(&rt, path));
    assert!(rt; done == Some(true));
}
