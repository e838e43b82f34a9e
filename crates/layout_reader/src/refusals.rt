//! Why a device can't be opened. The numbers are those that the program's documents give.
ghost use Rattle.std.specs.Prelude.{◌≡◌};

use disk_trait::DeviceFault;
use std::alloc::AllocError;
use thiserror::Error;

/// Why a device can't be opened. Tested in the order Device (the sync), NotFormatted, BadVersion; behind them
/// Damaged, Device and Memory come where the opening meets them.
#[derive(Clone, Copy, Debug, PartialEq, Eq, Drop, Error)]
pub enum OpenRefused {
    /// The front isn't that of a formatted device.
    #[error("not formatted")]
    NotFormatted = 1,
    /// The device has another layout.
    #[error("layout not known")]
    BadVersion = 2,
    /// The bytes aren't those of a store.
    #[error("damaged")]
    Damaged = 3,
    /// A call of the device failed.
    #[error("a call of the device failed")]
    Device = 4,
    /// Memory ran out.
    #[error("out of memory")]
    Memory = 5,
}

impl From<AllocError> for OpenRefused {
    ghost use Rattle.layout_reader.specs.declared.refusals.OpenRefused.TheVariants.{Memory};

    ghost from_gives = { λ _ e. e ≡ Memory };

    fn from(_: AllocError) -> Self {
        OpenRefused::Memory
    }
}

impl From<DeviceFault> for OpenRefused {
    ghost use Rattle.layout_reader.specs.declared.refusals.OpenRefused.TheVariants.{Device};

    ghost from_gives = { λ _ e. e ≡ Device };

    fn from(_: DeviceFault) -> Self {
        OpenRefused::Device
    }
}
