//! Where new devices are made.
ghost use Rattle.std.specs.Prelude.{◌≡◌, ◌∷◌, ◌++◌, [], ℕ, List, IfErr, IfOk, OnErr, length};
ghost use Rattle.new_devices.specs.Events.{IsUnmade};

use crate::make_log::MakeLog;
use crate::refused::BackupRefused;
use device_files::{DeviceFile, FileRefused};
use disk_trait::Disk;
use std::fs::File;
use std::rt::Files;

/// Where new devices are made. Whoever makes one does it here, and has no other way to one.
pub trait NewDevices {
    ghost use Rattle.new_devices.specs.Events.{FileEvent, IsBlank, IsUnmade, LetGo, Made};

    type Device: Disk + Drop;

    /// What was done here, in order.
    ghost events: { Self → List (FileEvent Self.Device) };

    /// Makes a device of so many zeros where nothing stands by the path.
    fn make(&mut self, path: &str, len: usize) -> Result<Self::Device, BackupRefused>
        ensures made { IfOk result (λ device. events self.new ≡ events self.old ++ Made path.now device ∷ []) }
        ensures long { IfOk result (λ device. length (Self.Device.view device).content ≡ len) }
        ensures blank { IfOk result (λ device. IsBlank len (Self.Device.view device)) }
        ensures none { OnErr result (events self.new ≡ events self.old) }
        ensures refused { IfErr result (λ refused. IsUnmade refused) };

    /// Takes a device back. Nothing can be done with it from then on.
    fn let_go(&mut self, device: Self::Device)
        ensures { events self.new ≡ events self.old ++ LetGo device ∷ [] };

    /// The same with a device that holds nothing of use. Where devices have names, its name goes too.
    fn discard(&mut self, _path: &str, device: Self::Device)
        ensures { events self.new ≡ events self.old ++ LetGo device ∷ [] }
    {
        self.let_go(device);
    }
}

/// Devices that are files of the system.
#[derive(Drop)]
pub struct SystemDevices<'a, R> {
    files: &'a R,
    // For contracts alone.
    done: MakeLog<DeviceFile>,
}

impl<'a, R> SystemDevices<'a, R> {
    /// Where nothing was made yet.
    pub fn new(files: &'a R) -> SystemDevices<'a, R> {
        SystemDevices {
            files,
            done: MakeLog::new(),
        }
    }
}

impl<R: Files<File = File>> NewDevices for SystemDevices<'_, R> {
    ghost use Rattle.new_devices.specs.Events.{events_in};

    type Device = DeviceFile;

    ghost events = { λ devices. events_in devices.done };

    fn make(&mut self, path: &str, len: usize) -> Result<DeviceFile, BackupRefused> {
        match DeviceFile::make_new(self.files, path, len) {
            Ok(device) => {
                if device.len() != len {
                    device.unname(self.files, path);
                    return Err(BackupRefused::Unusable);
                }
                self.done.made(path, &device);
                Ok(device)
            }
            Err(refused) => Err(unmade(refused)),
        }
    }

    fn let_go(&mut self, device: DeviceFile) {
        self.done.let_go(&device);
    }

    fn discard(&mut self, path: &str, device: DeviceFile) {
        device.unname(self.files, path);
        self.let_go(device);
    }
}

// Why no device is made where its file is refused.
fn unmade(refused: FileRefused) -> BackupRefused
    ensures { IsUnmade result }
{
    match refused {
        FileRefused::Exists => BackupRefused::FileExists,
        FileRefused::Full => BackupRefused::Full,
        _ => BackupRefused::Unusable,
    }
}
