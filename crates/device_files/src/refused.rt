//! Why a device file can't be had.
ghost use Rattle.std.specs.Prelude.{◌≡◌, ◌⊎◌};

use std::io::{self, ErrorKind};
use thiserror::Error;

/// Why a device file can't be had.
#[derive(Clone, Copy, Debug, PartialEq, Eq, Drop, Error)]
pub enum FileRefused {
    /// Another program holds a lock on it. Nothing was touched.
    #[error("device in use")]
    InUse,
    /// Something stands there already, where it is to be made. Nothing was touched.
    #[error("file exists")]
    Exists,
    /// It is to be made, and a file of its name and `.new` stands beside its path. Nothing was touched.
    #[error("a file of this name and .new exists")]
    ExistsBeside,
    /// What stands there is a folder, a pipe or another thing that holds no device. It wasn't opened, or nothing was done with it.
    #[error("neither a regular file nor a block device")]
    OtherKind,
    /// The file system has no room for it.
    #[error("no space left")]
    Full,
    /// The system doesn't open, lock, fill or sync it.
    #[error("device file cannot be used")]
    Unusable,
}

impl From<io::Error> for FileRefused {
    ghost use Rattle.device_files.specs.declared.refused.FileRefused.TheVariants.{Full, Unusable};

    ghost from_gives = { λ _ e. (e ≡ Full) ⊎ (e ≡ Unusable) };

    fn from(error: io::Error) -> Self {
        match error.kind() {
            ErrorKind::StorageFull => FileRefused::Full,
            _ => FileRefused::Unusable,
        }
    }
}
