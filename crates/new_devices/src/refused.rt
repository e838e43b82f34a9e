//! Why there is no backup.
ghost use Rattle.std.specs.Prelude.{◌≡◌};
ghost use Rattle.new_devices.specs.Events.{backup_refused_text};

use thiserror::Error;

/// Why there is no backup, in the order of the tests.
#[derive(Clone, Copy, Debug, PartialEq, Eq, Drop, Error)]
#[error("{}", self.text())]
pub enum BackupRefused {
    /// Something stands by the path. Nothing was touched.
    FileExists,
    /// The file system has no room for it.
    Full,
    /// The system doesn't make, lock, fill or sync the file.
    Unusable,
    /// Memory ran out before anything was written to the device.
    Memory,
    /// A call of the new device failed.
    Device,
}

impl BackupRefused {
    /// What is told of it.
    pub fn text(&self) -> &'static str
        ensures { result.now ≡ backup_refused_text self.now }
    {
        match self {
            BackupRefused::FileExists => "file exists",
            BackupRefused::Full => "no space left",
            BackupRefused::Unusable => "device file cannot be used",
            BackupRefused::Memory => "out of memory",
            BackupRefused::Device => "device failed",
        }
    }
}
