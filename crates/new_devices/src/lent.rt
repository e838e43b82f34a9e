//! A place of new devices that is lent.
ghost use Rattle.std.specs.Prelude.{◌≡◌};

use crate::place::NewDevices;
use crate::refused::BackupRefused;

/// Devices that are made at a place of somebody else's. Where that place may go to another thread, so may this.
#[derive(Drop)]
pub struct LentDevices<'a, F> {
    devices: &'a mut F,
}

impl<'a, F: NewDevices> LentDevices<'a, F> {
    /// The devices of this place.
    pub fn new(devices: &'a mut F) -> LentDevices<'a, F>
        ensures { ⟦<LentDevices<'a, F> as NewDevices>⟧.events result ≡ F.events devices.old }
    {
        LentDevices { devices }
    }
}

impl<F: NewDevices> NewDevices for LentDevices<'_, F> {
    type Device = F::Device;

    ghost events = { λ lent. F.events lent.devices.now };

    fn make(&mut self, path: &str, len: usize) -> Result<F::Device, BackupRefused> {
        self.devices.make(path, len)
    }

    fn let_go(&mut self, device: F::Device) {
        self.devices.let_go(device);
    }

    fn discard(&mut self, path: &str, device: F::Device) {
        self.devices.discard(path, device);
    }
}
