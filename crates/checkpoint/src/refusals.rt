//! Why a call of a store is refused. The numbers are those that the program's documents give.
ghost use Rattle.std.specs.Prelude.{◌≡◌};

use std::alloc::AllocError;
use thiserror::Error;

/// Why a device can't be formatted, in the order of the tests.
#[derive(Clone, Copy, Debug, PartialEq, Eq, Drop, Error)]
pub enum FormatRefused {
    /// The number of nodes isn't 1 to 16,384.
    #[error("the number of nodes is out of range")]
    BadSize = 1,
    /// The device hasn't exactly `DEVICE_LEN` bytes.
    #[error("the device has another length")]
    BadLength = 2,
    /// A call of the device failed. Some of what is written may be there, even all: whether it holds a store isn't said.
    #[error("a call of the device failed")]
    Device = 3,
}

/// Why requests aren't committed. Tested in the order Down, Worn, NeedsRoll, Memory, Device.
#[derive(Clone, Copy, Debug, PartialEq, Eq, Drop, Error)]
pub enum CommitRefused {
    /// The journal has no room for these requests before a roll.
    #[error("the journal has no room before a roll")]
    NeedsRoll = 1,
    /// A call of the device failed; the store is down from now on.
    #[error("a call of the device failed")]
    Device = 2,
    /// Memory ran out before anything was written.
    #[error("out of memory")]
    Memory = 3,
    /// The store is down.
    #[error("the device failed before")]
    Down = 4,
    /// The count would pass `WORN_LIMIT`.
    #[error("the count is at its limit")]
    Worn = 5,
}

/// Why a store isn't rolled. Tested in the order Down, Worn, Memory, Device.
#[derive(Clone, Copy, Debug, PartialEq, Eq, Drop, Error)]
pub enum RollRefused {
    /// A call of the device failed; the store is down from now on.
    #[error("a call of the device failed")]
    Device = 2,
    /// Memory ran out before anything was written.
    #[error("out of memory")]
    Memory = 3,
    /// The store is down.
    #[error("the device failed before")]
    Down = 4,
    /// The epoch stands at `WORN_LIMIT`.
    #[error("the epoch is at its limit")]
    Worn = 5,
}

impl From<AllocError> for CommitRefused {
    ghost use Rattle.checkpoint.specs.declared.refusals.CommitRefused.TheVariants.{Memory};

    ghost from_gives = { λ _ e. e ≡ Memory };

    fn from(_: AllocError) -> Self {
        CommitRefused::Memory
    }
}
