//! A place where no device can be made.
ghost use Rattle.std.specs.Prelude.{◌≡◌};

use crate::make_log::MakeLog;
use crate::place::NewDevices;
use crate::refused::BackupRefused;
use device_files::DeviceFile;

/// A place where no device can be made.
#[derive(Drop)]
pub struct NoDevices {
    // For contracts alone.
    done: MakeLog<DeviceFile>,
}

impl NoDevices {
    pub fn new() -> NoDevices {
        NoDevices {
            done: MakeLog::new(),
        }
    }
}

impl NewDevices for NoDevices {
    ghost use Rattle.new_devices.specs.Events.{events_in};

    type Device = DeviceFile;

    ghost events = { λ devices. events_in devices.done };

    fn make(&mut self, _path: &str, _len: usize) -> Result<DeviceFile, BackupRefused> {
        Err(BackupRefused::Unusable)
    }

    fn let_go(&mut self, device: DeviceFile) {
        self.done.let_go(&device);
    }
}
