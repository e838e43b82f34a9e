//! Why a device can't go over. The numbers are those that the program's documents give.
ghost use Rattle.std.specs.Prelude.{◌≡◌};

use thiserror::Error;

/// Why what a device of layout 1 holds isn't brought to one of layout 2. Tested in the order BadLength, OldDevice
/// (the sync), NotFormatted, BadVersion; behind them Damaged, OldDevice and Memory come where the opening meets
/// them, then Memory for the new checkpoint, and NewDevice.
#[derive(Clone, Copy, Debug, PartialEq, Eq, Drop, Error)]
pub enum MigrateRefused {
    /// The front of the old device isn't that of a formatted one.
    #[error("the old device is not formatted")]
    NotFormatted = 1,
    /// The old device has another layout than 1.
    #[error("the old device is not of layout 1")]
    BadVersion = 2,
    /// The bytes of the old device aren't those of a store of layout 1.
    #[error("the old device is damaged")]
    Damaged = 3,
    /// A call of the old device failed.
    #[error("a call of the old device failed")]
    OldDevice = 4,
    /// Memory ran out before anything was written.
    #[error("out of memory")]
    Memory = 5,
    /// The new device hasn't exactly the bytes of a device of layout 2.
    #[error("the new device has another length")]
    BadLength = 6,
    /// A call of the new device failed: it isn't to be used.
    #[error("a call of the new device failed")]
    NewDevice = 7,
}
