//! Opening a path as a device.

ghost use Rattle.std.specs.Prelude.{◌≡◌, ◌≤◌, [], IfOk, IsNone, length};
ghost use Rattle.std.specs.IoError.{error_kind};
ghost use Rattle.devices.specs.Device.{IsDurable};
ghost use Rattle.devices.specs.File.{HasCopy, first_failed};
ghost use Rattle.devices.specs.Opening.{fault_of_kind};

use crate::device::{Device, DeviceFault};
use crate::file::FileDevice;
use crate::naming::{NewName, is_at};
use std::alloc::{AllocError, Global};
use std::fs::{self, File, OpenOptions, TryLockError};
use std::io::{self, ErrorKind};
use std::os::unix::fs::FileExt;

/// Why a path wasn't opened.
#[derive(Clone, Copy, Debug, PartialEq, Eq)]
pub enum OpenFault {
    /// An allocation was refused.
    Memory,
    /// Nothing is there, or the folder isn't.
    Missing,
    /// Something is there already, where a file was to be made.
    Exists,
    /// It is no regular file.
    NotAFile,
    /// Another device holds it, of this process or of another.
    InUse,
    /// It has a second name, a hard link, that would keep the old bytes.
    Linked,
    /// The operating system refused a call for another cause: it may not be opened, it can't be
    /// locked, or the disk failed.
    Failed,
}

/// Whether a file that is opened to be read is locked.
#[derive(Clone, Copy, Debug, PartialEq, Eq)]
pub enum ReadLock {
    /// It isn't, so what a node writes meanwhile may be there in part.
    NotTaken,
    /// It is, so that no node begins a life in it meanwhile.
    Taken,
}

impl From<io::Error> for OpenFault {
    ghost from_gives = { λ error fault. fault ≡ fault_of_kind (error_kind error) };

    fn from(error: io::Error) -> Self {
        match error.kind() {
            ErrorKind::OutOfMemory => OpenFault::Memory,
            ErrorKind::NotFound | ErrorKind::NotADirectory => OpenFault::Missing,
            ErrorKind::AlreadyExists => OpenFault::Exists,
            _ => OpenFault::Failed,
        }
    }
}

impl From<AllocError> for OpenFault {
    fn from(_: AllocError) -> Self {
        OpenFault::Memory
    }
}

impl FileDevice {
    /// Opens the file at the path to be read. It takes no lock, so what a node writes meanwhile may
    /// be there in part; a write, a cut or a sync of it may fail. Refused with `Missing`,
    /// `NotAFile`, `Failed` or `Memory`.
    pub fn open_to_read(
        rt: &HostRuntime,
        alloc: Global,
        path: &str,
    ) -> Result<FileDevice, OpenFault>
        ensures durable { IfOk result (λ d. IsDurable
            (⟦<FileDevice as Device>⟧.content d) (⟦<FileDevice as Device>⟧.may_leave d)) }
        ensures usable { IfOk result (λ d. IsNone (first_failed d)) }
        ensures readable { IfOk result (λ d. HasCopy d) }
    {
        FileDevice::open_front(rt, alloc, path, ReadLock::NotTaken, usize::MAX)
    }

    /// Opens the file at the path to be read, and holds it, so that no node begins a life in it
    /// meanwhile. Refused with `Missing`, `NotAFile`, `InUse`, `Failed` or `Memory`.
    pub fn open_to_copy(
        rt: &HostRuntime,
        alloc: Global,
        path: &str,
    ) -> Result<FileDevice, OpenFault>
        ensures durable { IfOk result (λ d. IsDurable
            (⟦<FileDevice as Device>⟧.content d) (⟦<FileDevice as Device>⟧.may_leave d)) }
        ensures usable { IfOk result (λ d. IsNone (first_failed d)) }
        ensures readable { IfOk result (λ d. HasCopy d) }
    {
        FileDevice::open_front(rt, alloc, path, ReadLock::Taken, usize::MAX)
    }

    /// Opens the file at the path to be read, as `open_to_copy` does if the lock is taken, and
    /// otherwise as `open_to_read`; but reads at most its first `len` bytes, and takes memory for no
    /// more. The device is then one of these bytes alone.
    pub fn open_front(
        rt: &HostRuntime,
        alloc: Global,
        path: &str,
        read_lock: ReadLock,
        len: usize,
    ) -> Result<FileDevice, OpenFault>
        ensures durable { IfOk result (λ d. IsDurable
            (⟦<FileDevice as Device>⟧.content d) (⟦<FileDevice as Device>⟧.may_leave d)) }
        ensures within { IfOk result (λ d. length (⟦<FileDevice as Device>⟧.content d) ≤ len) }
        ensures usable { IfOk result (λ d. IsNone (first_failed d)) }
        ensures readable { IfOk result (λ d. HasCopy d) }
    {
        refuse_other_kinds(rt, path)?;
        let file = OpenOptions::new().read(true).open(rt, path)?;
        if read_lock == ReadLock::Taken {
            lock(&file)?;
            if !is_at(rt, &file, path)? {
                return Err(OpenFault::InUse);
            }
        }
        let bytes = read_first(alloc, &file, len)?;
        Ok(FileDevice::new(file, bytes))
    }

    /// Opens the file at the path, for this device alone. The bytes are written to a new file,
    /// which takes the place of the old one once it is synced: after a sync that failed, the disk
    /// may lack bytes that the operating system still holds. Refused with `Missing`, `NotAFile`,
    /// `InUse`, `Linked`, `Failed` or `Memory`.
    pub fn open(rt: &HostRuntime, alloc: Global, path: &str) -> Result<FileDevice, OpenFault>
        ensures durable { IfOk result (λ d. IsDurable
            (⟦<FileDevice as Device>⟧.content d) (⟦<FileDevice as Device>⟧.may_leave d)) }
        ensures usable { IfOk result (λ d. IsNone (first_failed d)) }
        ensures readable { IfOk result (λ d. HasCopy d) }
    {
        refuse_other_kinds(rt, path)?;
        let path = fs::canonicalize(rt, path)?;
        let path = format!(in alloc; "{}", path.as_str())?;
        let old = OpenOptions::new()
            .read(true)
            .write(true)
            .open(rt, path.as_str())?;
        lock(&old)?;
        let bytes = read_first(alloc, &old, usize::MAX)?;
        let (device, name) = NewName::over_locked(rt, alloc, path, &old)?;
        filled(rt, device, name, bytes.as_slice())
    }

    /// Makes a file that holds these bytes, for this device alone, at a path where nothing is, not
    /// even a link. It has its name only once all the bytes are on the disk. Only its owner may
    /// read it. Refused with `Exists`, `Missing` of its folder, `InUse` if another process makes
    /// one there, `Failed` or `Memory`; then nothing is at the path.
    pub fn create(
        rt: &HostRuntime,
        alloc: Global,
        path: &str,
        bytes: &[u8],
    ) -> Result<FileDevice, OpenFault>
        ensures content { IfOk result (λ d. ⟦<FileDevice as Device>⟧.content d ≡ bytes.now) }
        ensures durable { IfOk result (λ d. IsDurable
            (⟦<FileDevice as Device>⟧.content d) (⟦<FileDevice as Device>⟧.may_leave d)) }
        ensures usable { IfOk result (λ d. IsNone (first_failed d)) }
        ensures readable { IfOk result (λ d. HasCopy d) }
    {
        let (device, name) = NewName::at(rt, alloc, path)?;
        filled(rt, device, name, bytes)
    }

    /// Opens the file at the path, for this device alone, and makes one that holds these bytes if
    /// nothing is there. A mistyped path is made too: call `open` if a file is known to be there.
    /// Refused as `open` is, and if nothing is there, as `create` is.
    pub fn open_or_create(
        rt: &HostRuntime,
        alloc: Global,
        path: &str,
        bytes: &[u8],
    ) -> Result<FileDevice, OpenFault>
        ensures durable { IfOk result (λ d. IsDurable
            (⟦<FileDevice as Device>⟧.content d) (⟦<FileDevice as Device>⟧.may_leave d)) }
        ensures usable { IfOk result (λ d. IsNone (first_failed d)) }
        ensures readable { IfOk result (λ d. HasCopy d) }
    {
        match FileDevice::open(rt, alloc, path) {
            Err(OpenFault::Missing) => FileDevice::create(rt, alloc, path, bytes),
            opened => opened,
        }
    }
}

/// Writes the bytes to a new, empty file, and gives it its name.
fn filled(
    rt: &HostRuntime,
    device: FileDevice,
    name: NewName,
    bytes: &[u8],
) -> Result<FileDevice, OpenFault>
    requires empty { ⟦<FileDevice as Device>⟧.content device ≡ [] }
    requires readable { HasCopy device }
    ensures content { IfOk result (λ d. ⟦<FileDevice as Device>⟧.content d ≡ bytes.now) }
    ensures durable { IfOk result (λ d. IsDurable
        (⟦<FileDevice as Device>⟧.content d) (⟦<FileDevice as Device>⟧.may_leave d)) }
    ensures usable { IfOk result (λ d. IsNone (first_failed d)) }
    ensures readable { IfOk result (λ d. HasCopy d) }
{
    let mut device = device;
    match device.write_at(0, bytes) {
        Ok(()) => name.put(rt, device),
        Err(fault) => {
            name.discard(rt);
            Err(match fault {
                DeviceFault::Memory => OpenFault::Memory,
                DeviceFault::Failed => OpenFault::Failed,
            })
        }
    }
}

/// Refuses what is no regular file, before it is opened: opening a pipe would wait for its other
/// end, and opening some devices has effects.
fn refuse_other_kinds(rt: &HostRuntime, path: &str) -> Result<(), OpenFault> {
    if fs::metadata(rt, path)?.is_file() {
        Ok(())
    } else {
        Err(OpenFault::NotAFile)
    }
}

/// Reads the first bytes of an open file, at most so many.
fn read_first(alloc: Global, file: &File, most: usize) -> Result<Vec<u8>, OpenFault>
    ensures { IfOk result (λ bytes. length bytes.items ≤ most) }
{
    // The path may have come to name something else since it was looked at.
    if !file.metadata()?.is_file() {
        return Err(OpenFault::NotAFile);
    }
    let len = most.min(file.metadata()?.len() as usize);
    let Ok(mut bytes) = vec![in alloc; 0u8; len] else {
        return Err(OpenFault::Memory);
    };
    file.read_exact_at(&mut bytes, 0)?;
    Ok(bytes)
}

/// Locks the file, for this process alone, without waiting. The lock ends with the file.
pub(crate) fn lock(file: &File) -> Result<(), OpenFault> {
    match file.try_lock() {
        Ok(()) => Ok(()),
        Err(TryLockError::WouldBlock) => Err(OpenFault::InUse),
        Err(TryLockError::Error(_)) => Err(OpenFault::Failed),
    }
}
