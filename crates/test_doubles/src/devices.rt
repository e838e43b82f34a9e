//! Devices, blank and formatted, and their stores.
ghost use Rattle.std.specs.Prelude.{◌≡◌, false, IfOk, IsTrue};
ghost use Rattle.disk_trait.specs.Disk.{IsSettled};
ghost use Rattle.disk_trait.specs.Image.{zeros};
ghost use Rattle.disk_trait.specs.Memory.{mem_view, plan_of};
ghost use Rattle.layout_2.specs.State.{first_state};
ghost use Rattle.layout_2.specs.Standing.{StandsFor};
ghost use Rattle.checkpoint.specs.StoreWords.{is_down, state_of};

use checkpoint::{DEVICE_LEN, FormatRefused, OpenRefused, Store, format};
use disk_trait::{Disk, MemDisk, Plan};
use std::alloc::{AllocError, Global};
use thiserror::Error;

/// The words of crashes: as after the last sync, as a read gives, drawn bytes, zeros, and ones.
pub const CRASH_WORDS: [u64; 5] = [0, 1, 7, 256, 257];

/// Why there is no formatted device.
#[derive(Clone, Copy, Debug, PartialEq, Eq, Drop, Error)]
pub enum NoDevice {
    /// Memory ran out.
    #[error("out of memory")]
    Memory,
    /// It can't be formatted so.
    #[error("not formatted: {0}")]
    Format(FormatRefused),
}

impl From<AllocError> for NoDevice {
    ghost use Rattle.test_doubles.specs.declared.devices.NoDevice.TheVariants.{Memory};

    ghost from_gives = { λ _ e. e ≡ Memory };

    fn from(_: AllocError) -> Self {
        NoDevice::Memory
    }
}

/// A disk of so many bytes 0. Where memory is refused, it is asked for once more.
pub fn blank(alloc: Global, len: usize) -> Result<MemDisk, AllocError>
    ensures bytes { IfOk result (λ disk. (mem_view disk).content ≡ zeros len) }
    ensures settled { IfOk result (λ disk. IsSettled (mem_view disk)) }
    ensures plan { IfOk result (λ disk. plan_of disk ≡ Plan.None) }
{
    match MemDisk::new(alloc, len) {
        Ok(disk) => Ok(disk),
        Err(_) => MemDisk::new(alloc, len),
    }
}

/// A device for so many nodes. Where memory is refused, it is asked for once more.
pub fn formatted(alloc: Global, nodes: u16) -> Result<MemDisk, NoDevice>
    ensures stands { IfOk result (λ disk. StandsFor (first_state nodes) (mem_view disk).content) }
{
    let mut disk = blank(alloc, DEVICE_LEN)?;
    match format(&mut disk, nodes) {
        Ok(()) => Ok(disk),
        Err(refused) => Err(NoDevice::Format(refused)),
    }
}

/// The store of a device. Where memory is refused, it is asked for once more.
pub fn opened<D: Disk + Drop>(alloc: Global, disk: D) -> Result<Store<D>, (OpenRefused, D)>
    ensures up { IfOk result (λ store. is_down store ≡ false) }
    ensures stands { IsTrue (D.view disk).keeps_model →
        IfOk result (λ store. StandsFor (state_of store) (D.view disk).content) }
{
    match Store::open(alloc, disk) {
        Err((OpenRefused::Memory, disk)) => Store::open(alloc, disk),
        answer => answer,
    }
}
