//! Where the program's devices are, and how a command comes to its own.
ghost use Rattle.std.specs.Prelude.{◌≡◌, ◌∷◌, ◌++◌, [], ℕ, List, IfOk, IfErr, OnErr};
ghost use Rattle.file_commands.specs.Devices.{IsAccessFault, IsFileOf};

use crate::device_log::DeviceLog;
use command_output::Fault;
use device_files::{DeviceFile, FileRefused};
use disk_trait::Disk;
use std::fs::File;
use std::rt::Files;

/// How a command has its device.
#[derive(Clone, Copy, Debug, PartialEq, Eq, Drop)]
pub enum Access {
    /// To read it. No command that changes it has it open meanwhile.
    ToRead,
    /// To change it. No other command has it open meanwhile.
    ToChange,
    /// Made anew, in the place of what stands there.
    Anew,
    /// Made where nothing stands yet.
    New,
    /// The same, and where something stands that is told by a fault of its own.
    Fresh,
}

/// Where the program's devices are. A command asks here for its device, has no other way to one, and gives it back here.
pub trait Devices {
    ghost use Rattle.file_commands.specs.declared.devices.Access.{Access};
    ghost use Rattle.file_commands.specs.Events.{Event, Opened, NotHad, Closed};

    type Device: Disk + Drop + Send;

    /// Of a device: it is one that an opening by this path for this access gives.
    ghost opened: { List ℕ → Access → Self.Device → Type 0 };

    /// What was done here, in order. So a command's contract can say which devices were opened, and as what they were closed.
    ghost events: { Self → List (Event Self.Device) };

    /// Opens or makes the device of a path.
    fn open(&mut self, path: &str, access: Access) -> Result<Self::Device, Fault>
        ensures opened { IfOk result (λ device. opened path.now access device) }
        ensures listed { IfOk result (λ device.
            events self.new ≡ events self.old ++ Opened path.now access device ∷ []) }
        ensures not_had { OnErr result (events self.new ≡ events self.old ++ NotHad path.now access ∷ []) }
        ensures fault { IfErr result (λ fault. IsAccessFault access fault) };

    /// Takes a device back. Nothing can be done with it from then on.
    fn close(&mut self, device: Self::Device)
        ensures { events self.new ≡ events self.old ++ Closed device ∷ [] };

    /// The same with a device that was made new and holds nothing of use. Where devices have names, its name goes too.
    fn discard(&mut self, _path: &str, device: Self::Device)
        ensures { events self.new ≡ events self.old ++ Closed device ∷ [] }
    {
        self.close(device);
    }
}

/// Devices that are files of the system.
#[derive(Drop)]
pub struct FileDevices<'a, R> {
    files: &'a R,
    refused: Option<(Access, FileRefused)>,
    // For contracts alone.
    done: DeviceLog<DeviceFile>,
}

impl<'a, R> FileDevices<'a, R> {
    /// Where nothing was opened yet.
    pub fn new(files: &'a R) -> FileDevices<'a, R> {
        FileDevices {
            files,
            refused: None,
            done: DeviceLog::new(),
        }
    }

    /// How a file was asked for that couldn't be had, and why not; of several the last one.
    pub fn refused(&self) -> Option<(Access, FileRefused)> {
        self.refused
    }
}

impl<R: Files<File = File>> Devices for FileDevices<'_, R> {
    ghost use Rattle.file_commands.specs.Devices.{IsFileOf};
    ghost use Rattle.file_commands.specs.Events.{events_in};

    type Device = DeviceFile;

    ghost opened = { IsFileOf };

    ghost events = { λ devices. events_in devices.done };

    fn open(&mut self, path: &str, access: Access) -> Result<DeviceFile, Fault> {
        match open_file(self.files, path, access) {
            Ok(file) => {
                self.done.opened(path, access, &file);
                Ok(file)
            }
            Err(refused) => {
                self.refused = Some((access, refused));
                self.done.not_had(path, access);
                Err(fault_of(access, refused))
            }
        }
    }

    fn close(&mut self, device: DeviceFile) {
        self.done.closed(&device);
    }

    fn discard(&mut self, path: &str, device: DeviceFile) {
        device.unname(self.files, path);
        self.close(device);
    }
}

// Opens or makes the file of a path.
fn open_file<R: Files<File = File>>(
    files: &R,
    path: &str,
    access: Access,
) -> Result<DeviceFile, FileRefused>
    ensures { IfOk result (λ file. IsFileOf path.now access file) }
{
    match access {
        Access::ToRead => DeviceFile::open_to_read(files, path),
        Access::ToChange => DeviceFile::open(files, path),
        Access::Anew => DeviceFile::make(files, path, checkpoint::DEVICE_LEN),
        Access::New | Access::Fresh => DeviceFile::make_new(files, path, checkpoint::DEVICE_LEN),
    }
}

// What is told of a file that can't be had.
fn fault_of(access: Access, refused: FileRefused) -> Fault
    ensures { IsAccessFault access result }
{
    match (access, refused) {
        (Access::Fresh, FileRefused::Exists) => Fault::FileExists,
        (_, FileRefused::InUse) => Fault::DeviceInUse,
        _ => Fault::DeviceFile,
    }
}
