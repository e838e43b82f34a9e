//! A store's state, written to a new device.
ghost use Rattle.std.specs.Prelude.{◌≡◌, ◌⊎◌, ◌++◌, ◌∷◌, [], IfErr, length};
ghost use Rattle.layout_2.specs.Layout.{device_len};
ghost use Rattle.new_devices.specs.Backups.{IsBackupEnd, IsWritten};
ghost use Rattle.new_devices.specs.Events.{IsBlank, LetGo};

use crate::place::NewDevices;
use crate::refused::BackupRefused;
use checkpoint::{DEVICE_LEN, Store, WriteRefused};
use disk_trait::Disk;
use std::alloc::Global;

// Writes what a store holds to a device of zeros.
fn written<D: Disk, N: Disk>(
    alloc: Global,
    store: &Store<D>,
    device: &mut N,
) -> Result<(), BackupRefused>
    requires long { length (N.view device.old).content ≡ device_len }
    requires blank { IsBlank device_len (N.view device.old) }
    ensures written { IsWritten N.Disk store.now device.old device.new result }
    ensures named { IfErr result (λ why. (why ≡ BackupRefused.Memory) ⊎ (why ≡ BackupRefused.Device)) }
{
    match store.write_to(alloc, device) {
        Ok(()) => Ok(()),
        Err(WriteRefused::Memory) => Err(BackupRefused::Memory),
        Err(WriteRefused::Device) => Err(BackupRefused::Device),
    }
}

/// Makes a device by a path where nothing stands, and writes what a store holds to it: the count, the network and the last ticket of
/// each session, at this moment. The store and its device stay as they are.
///
/// What is refused leaves no file by the path, as far as the system takes its name away.
#[tactic(auto, using(crate::proofs::Ends::unmade_end, crate::proofs::Ends::made_end))]
pub fn backed_up<D: Disk, F: NewDevices>(
    alloc: Global,
    store: &Store<D>,
    devices: &mut F,
    path: &str,
) -> Result<(), BackupRefused>
    ensures { IsBackupEnd F.Device.Disk store.now path.now (F.events devices.old) (F.events devices.new) result }
{
    let mut device = devices.make(path, DEVICE_LEN)?;
    let end = written(alloc, store, &mut device);
    take_back(devices, path, device, end.is_ok());
    end
}

// Takes a device back, with its name where it isn't whole.
fn take_back<F: NewDevices>(devices: &mut F, path: &str, device: F::Device, is_whole: bool)
    ensures { F.events devices.new ≡ F.events devices.old ++ LetGo device ∷ [] }
{
    if is_whole {
        devices.let_go(device);
    } else {
        devices.discard(path, device);
    }
}
