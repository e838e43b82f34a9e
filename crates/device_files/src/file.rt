//! A disk on a file that is locked.
ghost use Rattle.std.specs.Prelude.{◌≡◌, IfOk};

use crate::held::{Held, filled, locked};
use crate::names::{
    beside, judged, judged_open, put, refusal_beside, refusal_of, removed, sync_folder, unnamed,
};
use crate::refused::FileRefused;
use disk_trait::{DeviceFault, Disk, FileDisk};
use std::fs::{File, OpenOptions};
use std::rt::Files;

/// Whom a lock keeps out.
#[derive(Clone, Copy, Debug, PartialEq, Eq, Drop)]
pub enum Lock {
    /// All others.
    Alone,
    /// Those that want the file alone.
    Shared,
}

/// A disk on a file that this program has locked.
///
/// It is a disk as `FileDisk` is one: what the file holds isn't claimed by any clause.
#[derive(Drop)]
pub struct DeviceFile {
    held: Held<FileDisk>,
}

impl DeviceFile {
    ghost use Rattle.device_files.specs.DeviceFiles.{lock_of};

    /// Opens a file that is there, for reading and writing, and locks it alone.
    pub fn open<R: Files<File = File>>(files: &R, path: &str) -> Result<DeviceFile, FileRefused>
        ensures alone { IfOk result (λ device. lock_of device ≡ Lock.Alone) }
    {
        judged(files, path)?;
        let file = OpenOptions::new().read(true).write(true).open(files, path)?;
        judged_open(&file)?;
        let held = locked(file, Lock::Alone)?;
        Ok(DeviceFile { held })
    }

    /// Opens a file that is there, for reading only, and locks it shared with other readers. A write to this disk fails.
    pub fn open_to_read<R: Files<File = File>>(
        files: &R,
        path: &str,
    ) -> Result<DeviceFile, FileRefused>
        ensures shared { IfOk result (λ device. lock_of device ≡ Lock.Shared) }
    {
        judged(files, path)?;
        let file = OpenOptions::new().read(true).open(files, path)?;
        judged_open(&file)?;
        let held = locked(file, Lock::Shared)?;
        Ok(DeviceFile { held })
    }

    /// Makes a file of so many zeros, in the place of what stands there, and locks it alone. What stands there is emptied only once
    /// it is locked.
    pub fn make<R: Files<File = File>>(
        files: &R,
        path: &str,
        len: usize,
    ) -> Result<DeviceFile, FileRefused>
        ensures alone { IfOk result (λ device. lock_of device ≡ Lock.Alone) }
    {
        judged(files, path)?;
        let file = OpenOptions::new()
            .read(true)
            .write(true)
            .create(true)
            .open(files, path)?;
        judged_open(&file)?;
        let held = filled(file, len)?;
        sync_folder(files, path)?;
        Ok(DeviceFile { held })
    }

    /// Makes a file of so many zeros where nothing stands yet, and locks it alone. It is made beside, under the name of the path and
    /// `.new`, and comes to its path once it has all its zeros: what is refused leaves no file there, and none beside.
    pub fn make_new<R: Files<File = File>>(
        files: &R,
        path: &str,
        len: usize,
    ) -> Result<DeviceFile, FileRefused>
        ensures alone { IfOk result (λ device. lock_of device ≡ Lock.Alone) }
    {
        let made = beside(files, path)?;
        let file = match OpenOptions::new()
            .read(true)
            .write(true)
            .create_new(true)
            .open(files, made.as_str())
        {
            Ok(file) => file,
            Err(error) => return Err(refusal_beside(refusal_of(error))),
        };
        match filled(file, len) {
            Ok(held) => {
                put(files, made.as_str(), path)?;
                Ok(DeviceFile { held })
            }
            Err(refused) => {
                removed(files, made.as_str());
                Err(refused)
            }
        }
    }

    /// Takes the name of a file away that was made new by this path. It is gone once it is dropped. Where the system refuses that, the
    /// name stays.
    pub fn unname<R: Files<File = File>>(&self, files: &R, path: &str) {
        unnamed(files, path);
    }

    /// Its lock.
    pub fn lock(&self) -> Lock
        ensures { result ≡ lock_of self.now }
    {
        self.held.lock()
    }
}

impl Disk for DeviceFile {
    ghost use Rattle.device_files.specs.DeviceFiles.{device_view, device_present};

    ghost view = { device_view };

    ghost present = { device_present };

    fn len(&self) -> usize {
        self.held.disk.len()
    }

    fn read(&mut self, at: usize, bytes: &mut [u8]) -> Result<(), DeviceFault> {
        self.held.disk.read(at, bytes)
    }

    fn write_at(&mut self, at: usize, bytes: &[u8]) -> Result<(), DeviceFault> {
        self.held.disk.write_at(at, bytes)
    }

    fn sync(&mut self) -> Result<(), DeviceFault> {
        self.held.disk.sync()
    }
}
