//! A new file that has its name only once it is whole.

ghost use Rattle.std.specs.Prelude.{◌≡◌, ◌↔◌, [], IfOk, IsNone, OnOk};
ghost use Rattle.devices.specs.Device.{IsDurable};
ghost use Rattle.devices.specs.File.{HasCopy, first_failed};
ghost use Rattle.devices.specs.Opening.{folder_synced};

use crate::device::Device;
use crate::file::FileDevice;
use crate::opening::{OpenFault, lock};
use std::alloc::Global;
use std::fs::{self, File, OpenOptions};
use std::io::{self, ErrorKind};
use std::os::unix::fs::{MetadataExt, OpenOptionsExt};

/// Who may read and write a new file: whoever made it.
const MODE: u32 = 0o600;

/// What has the name that a new file is to have.
#[derive(Clone, Copy)]
enum Place {
    /// Nothing has it.
    Free,
    /// A file has it that is to be replaced, and that this process holds.
    Taken,
}

/// The name that a new file is to have. Until the file is put there, it has this name with
/// `.zomtagi-new` behind it, and is locked. If the process ends before, or can't lock the file or
/// look at it, the next one that makes a file for the name removes what is left.
#[derive(Drop)]
pub struct NewName {
    path: String,
    beside: String,
    place: Place,
}

impl NewName {
    /// Makes an empty file for a name that nothing has, not even a link. Refused with `Exists`,
    /// `Missing` of its folder, `InUse` if another process makes a file for the name, `Failed` or
    /// `Memory`.
    pub fn at(
        rt: &HostRuntime,
        alloc: Global,
        path: &str,
    ) -> Result<(FileDevice, NewName), OpenFault>
        ensures empty { IfOk result (λ r. ⟦<FileDevice as Device>⟧.content r.0 ≡ []) }
        ensures durable { IfOk result (λ r. IsDurable
            (⟦<FileDevice as Device>⟧.content r.0) (⟦<FileDevice as Device>⟧.may_leave r.0)) }
        ensures usable { IfOk result (λ r. IsNone (first_failed r.0)) }
        ensures readable { IfOk result (λ r. HasCopy r.0) }
    {
        if is_there(rt, path)? {
            return Err(OpenFault::Exists);
        }
        let path = format!(in alloc; "{path}")?;
        let beside = format!(in alloc; "{path}.zomtagi-new")?;
        let file = new_file(rt, beside.as_str())?;
        let place = Place::Free;
        let name = NewName {
            path,
            beside,
            place,
        };
        Ok((FileDevice::new(file, Vec::new(alloc)), name))
    }

    /// Makes an empty file that is to replace the one that a device holds at this path. Refused
    /// with `InUse` if another file is there by now, `Linked`, `Failed` or `Memory`.
    pub fn over(
        rt: &HostRuntime,
        alloc: Global,
        path: &str,
        held: &FileDevice,
    ) -> Result<(FileDevice, NewName), OpenFault>
        ensures empty { IfOk result (λ r. ⟦<FileDevice as Device>⟧.content r.0 ≡ []) }
        ensures durable { IfOk result (λ r. IsDurable
            (⟦<FileDevice as Device>⟧.content r.0) (⟦<FileDevice as Device>⟧.may_leave r.0)) }
        ensures usable { IfOk result (λ r. IsNone (first_failed r.0)) }
        ensures readable { IfOk result (λ r. HasCopy r.0) }
    {
        let path = fs::canonicalize(rt, path)?;
        let path = format!(in alloc; "{}", path.as_str())?;
        NewName::over_locked(rt, alloc, path, held.file())
    }

    /// Makes an empty file that is to replace a file which is locked, at this path without links.
    pub(crate) fn over_locked(
        rt: &HostRuntime,
        alloc: Global,
        path: String,
        held: &File,
    ) -> Result<(FileDevice, NewName), OpenFault>
        ensures empty { IfOk result (λ r. ⟦<FileDevice as Device>⟧.content r.0 ≡ []) }
        ensures durable { IfOk result (λ r. IsDurable
            (⟦<FileDevice as Device>⟧.content r.0) (⟦<FileDevice as Device>⟧.may_leave r.0)) }
        ensures usable { IfOk result (λ r. IsNone (first_failed r.0)) }
        ensures readable { IfOk result (λ r. HasCopy r.0) }
    {
        if !is_at(rt, held, path.as_str())? {
            return Err(OpenFault::InUse);
        }
        let beside = format!(in alloc; "{path}.zomtagi-new")?;
        if is_at(rt, held, beside.as_str())? {
            // Whoever made the file ended when it had put the name, and before it removed this one.
            fs::remove_file(rt, beside.as_str())?;
        }
        let old = held.metadata()?;
        if old.nlink() > 1 {
            return Err(OpenFault::Linked);
        }
        let file = new_file(rt, beside.as_str())?;
        let _ = file.set_permissions(old.permissions());
        let place = Place::Taken;
        let name = NewName {
            path,
            beside,
            place,
        };
        Ok((FileDevice::new(file, Vec::new(alloc)), name))
    }

    /// Syncs the file that was made for the name, gives it the name, and syncs the folder. Refused
    /// with `Exists` if something has the name by now, `Missing` if the folder has another name,
    /// `Failed` or `Memory`. The new file is removed then, unless it has replaced another and the
    /// folder couldn't be synced: it has the name, which a crash may take back.
    pub fn put(self, rt: &HostRuntime, device: FileDevice) -> Result<FileDevice, OpenFault>
        ensures same { IfOk result (λ d. ⟦<FileDevice as Device>⟧.content d
            ≡ ⟦<FileDevice as Device>⟧.content device) }
        ensures durable { IfOk result (λ d. IsDurable
            (⟦<FileDevice as Device>⟧.content d) (⟦<FileDevice as Device>⟧.may_leave d)) }
        ensures usable { IfOk result (λ d. IsNone (first_failed d)) }
        ensures copy { IfOk result (λ d. HasCopy d ↔ HasCopy device) }
    {
        let mut device = device;
        match self.put_synced(rt, &mut device) {
            Ok(()) => Ok(device),
            Err(fault) => {
                self.discard(rt);
                Err(fault)
            }
        }
    }

    fn put_synced(&self, rt: &HostRuntime, device: &mut FileDevice) -> Result<(), OpenFault>
        ensures same { ⟦<FileDevice as Device>⟧.content device.new
            ≡ ⟦<FileDevice as Device>⟧.content device.old }
        ensures durable { OnOk result (IsDurable (⟦<FileDevice as Device>⟧.content device.old)
            (⟦<FileDevice as Device>⟧.may_leave device.new)) }
        ensures usable { OnOk result (IsNone (first_failed device.new)) }
        ensures copy { HasCopy device.new ↔ HasCopy device.old }
    {
        if device.sync().is_err() {
            return Err(OpenFault::Failed);
        }
        match self.place {
            Place::Free => self.link(rt),
            Place::Taken => {
                fs::rename(rt, self.beside.as_str(), self.path.as_str())?;
                Ok(sync_folder(rt, self.path.as_str())?)
            }
        }
    }

    /// Gives a file a name that is free, and takes the other one away.
    fn link(&self, rt: &HostRuntime) -> Result<(), OpenFault> {
        fs::hard_link(rt, self.beside.as_str(), self.path.as_str())?;
        let _ = fs::remove_file(rt, self.beside.as_str());
        self.keep_if(rt, sync_folder(rt, self.path.as_str()))
    }

    /// Takes the name away again if its folder couldn't be synced, and returns why.
    fn keep_if(&self, rt: &HostRuntime, synced: io::Result<()>) -> Result<(), OpenFault>
        ensures { result ≡ folder_synced synced }
    {
        match synced {
            Ok(()) => Ok(()),
            Err(error) => {
                let _ = fs::remove_file(rt, self.path.as_str());
                Err(OpenFault::from(error))
            }
        }
    }

    /// Removes the file that was made for the name.
    pub fn discard(self, rt: &HostRuntime) {
        let _ = fs::remove_file(rt, self.beside.as_str());
    }
}

/// Makes a file of this name, and locks it.
fn new_file(rt: &HostRuntime, name: &str) -> Result<File, OpenFault> {
    let file = match made(rt, name) {
        Err(OpenFault::Exists) => {
            remove_left(rt, name)?;
            made(rt, name)?
        }
        file => file?,
    };
    lock(&file)?;
    // Between the two calls another process may have taken the file for one that was left.
    if is_at(rt, &file, name)? {
        Ok(file)
    } else {
        Err(OpenFault::InUse)
    }
}

fn made(rt: &HostRuntime, name: &str) -> Result<File, OpenFault> {
    let mut options = OpenOptions::new();
    options.read(true).write(true).create_new(true).mode(MODE);
    Ok(options.open(rt, name)?)
}

/// Removes a file that a process left which ended while it made it. Refused with `InUse` if a
/// process holds it.
fn remove_left(rt: &HostRuntime, name: &str) -> Result<(), OpenFault> {
    let left = OpenOptions::new().read(true).write(true).open(rt, name)?;
    lock(&left)?;
    if is_at(rt, &left, name)? {
        Ok(fs::remove_file(rt, name)?)
    } else {
        Err(OpenFault::InUse)
    }
}

/// Returns whether an open file is the one that has this name.
pub(crate) fn is_at(rt: &HostRuntime, file: &File, name: &str) -> Result<bool, OpenFault> {
    let file = file.metadata()?;
    match fs::metadata(rt, name) {
        Ok(named) => Ok(file.ino() == named.ino() && file.dev() == named.dev()),
        Err(error) if error.kind() == ErrorKind::NotFound => Ok(false),
        Err(error) => Err(OpenFault::from(error)),
    }
}

/// Returns whether something has this name, if only a link that leads nowhere.
fn is_there(rt: &HostRuntime, name: &str) -> Result<bool, OpenFault> {
    match fs::symlink_metadata(rt, name) {
        Ok(_) => Ok(true),
        Err(error) if error.kind() == ErrorKind::NotFound => Ok(false),
        Err(error) => Err(OpenFault::from(error)),
    }
}

/// Makes the name of a file durable.
fn sync_folder(rt: &HostRuntime, path: &str) -> io::Result<()> {
    let mut folder = fs::canonicalize(rt, path)?;
    folder.pop();
    File::open(rt, folder.as_str())?.sync_all()
}
