//! Where the commands of the lab have devices and files.
ghost use Rattle.std.specs.Prelude.{◌≡◌, ℕ, List, IfOk, OnOk, Option, Some, option_map};
ghost use Rattle.std.specs.String.{string_bytes};

use crate::placing::{PutRefused, SystemFolder, put_over};
use device_files::{DeviceFile, FileRefused};
use disk_trait::Disk;
use std::fs;
use std::io::{self, ErrorKind};

/// Where a command reads a device and files. A command that only reads has no other way to one.
///
/// What a file holds no contract says. So that a device was opened by a path, that it was given back, and what was read by a path, are facts
/// without a meaning here: the calls give them, and nothing else does.
pub trait Sources {
    type Device: Disk + Drop;

    /// Of a path and a device: an opening to read gave it.
    ghost opened: { List ℕ → Self.Device → Type 0 };

    /// Of a device: it was given back as this.
    ghost closed: { Self.Device → Type 0 };

    /// Of a path, and the bytes of the file that stands by it, or nothing where none does.
    ghost stands: { List ℕ → Option (List ℕ) → Type 0 };

    /// Opens the device of a path, to read it.
    fn open_to_read(&self, path: &str) -> Result<Self::Device, FileRefused>
        ensures { IfOk result (λ device. opened path.now device) };

    /// Takes a device back. Nothing can be done with it from then on.
    fn close(&self, device: Self::Device)
        ensures { closed device };

    /// The bytes of a file, none where no file stands there.
    fn read(&self, path: &str) -> io::Result<Option<Vec<u8>>>
        ensures { IfOk result (λ found. stands path.now (option_map (λ bytes. bytes.items) found)) };

    /// The text of a file.
    fn read_to_string(&self, path: &str) -> io::Result<String>
        ensures { IfOk result (λ text. stands path.now (Some (string_bytes text))) };
}

/// Where a command also puts a new file.
pub trait Places: Sources {
    /// Of a path and bytes: a file with these bytes was put there, where nothing stood.
    ghost puts: { List ℕ → List ℕ → Type 0 };

    /// Puts a new file with these bytes by a path where nothing stands: whoever looks there, also after a power cut, sees nothing or the whole file.
    fn put_new(&self, path: &str, bytes: &[u8]) -> Result<(), PutRefused>
        ensures { OnOk result (puts path.now bytes.now) };
}

impl Sources for HostRuntime {
    ghost use Rattle.device_files.specs.DeviceFiles.{lock_of};
    ghost use Rattle.device_files.specs.declared.file.Lock.TheVariants.{Shared};

    type Device = DeviceFile;

    ghost opened = { λ path device. lock_of device ≡ Shared };

    ghost closed = { λ device. Unit {0} };

    ghost stands = { λ path found. Unit {0} };

    fn open_to_read(&self, path: &str) -> Result<DeviceFile, FileRefused> {
        DeviceFile::open_to_read(self, path)
    }

    fn close(&self, _device: DeviceFile) {}

    fn read(&self, path: &str) -> io::Result<Option<Vec<u8>>> {
        match fs::read(self, path) {
            Ok(bytes) => Ok(Some(bytes)),
            Err(error) => match error.kind() {
                ErrorKind::NotFound => Ok(None),
                _ => Err(error),
            },
        }
    }

    fn read_to_string(&self, path: &str) -> io::Result<String> {
        fs::read_to_string(self, path)
    }
}

impl Places for HostRuntime {
    ghost puts = { λ path bytes. Unit {0} };

    fn put_new(&self, path: &str, bytes: &[u8]) -> Result<(), PutRefused> {
        put_over(self.alloc(), &SystemFolder::new(self), path, bytes)
    }
}
