//! A disk on a file of the system.
ghost use Rattle.std.specs.Prelude.{◌≡◌, ◌++◌, [], ◌∷◌, ℕ, length, OnErr, IfOk, false};

use crate::disk::{DeviceFault, Disk};
use crate::log::Log;
use std::fs::{File, OpenOptions};
use std::io;
use std::os::unix::fs::FileExt;
use std::path::AsPath;
use std::rt::Files;

/// A disk on a file.
///
/// Its length is that of the file when it was opened. A read, a write or a sync that the system
/// doesn't do whole is a `DeviceFault`: so is a read past the end of a file that was cut short
/// meanwhile. After a fault the buffer of a read may hold some of the bytes.
///
/// Nobody's word is taken for what the file holds: no clause says what a read gives or what a crash
/// leaves, and the disk doesn't claim to keep the disk model. What is proved over a disk that keeps
/// the model holds here as far as the file system does what a sync promises. One `FileDisk` at a time
/// is to use the file.
#[derive(Drop)]
pub struct FileDisk {
    file: File,
    len: usize,
    // For contracts alone: they have no bytes.
    calls: Log<()>,
    failures: Log<()>,
}

impl FileDisk {
    ghost use Rattle.disk_trait.specs.FileWords.{file_view};

    /// Opens a file that is there, for reading and writing.
    pub fn open<R: Files<File = File>, P: AsPath>(files: &R, path: P) -> io::Result<FileDisk>
        ensures failures { IfOk result (λ disk. (file_view disk).failures ≡ 0) }
    {
        let file = OpenOptions::new().read(true).write(true).open(files, path)?;
        FileDisk::new(file)
    }

    /// Takes an open file, and reads its length.
    pub fn new(file: File) -> io::Result<FileDisk>
        ensures failures { IfOk result (λ disk. (file_view disk).failures ≡ 0) }
    {
        let len = file.metadata()?.len() as usize;
        Ok(FileDisk {
            file,
            len,
            calls: Log::new(),
            failures: Log::new(),
        })
    }

    // One call more.
    fn begin(&mut self)
        ensures len { self.new.len ≡ self.old.len }
        ensures calls { self.new.calls.items ≡ self.old.calls.items ++ tt ∷ [] }
        ensures failures { self.new.failures.items ≡ self.old.failures.items }
    {
        self.calls = self.calls.with_entry(&());
    }

    // One failure more.
    fn fault(&mut self) -> DeviceFault
        ensures len { self.new.len ≡ self.old.len }
        ensures calls { self.new.calls.items ≡ self.old.calls.items }
        ensures failures { self.new.failures.items ≡ self.old.failures.items ++ tt ∷ [] }
    {
        self.failures = self.failures.with_entry(&());
        DeviceFault
    }
}

impl Disk for FileDisk {
    ghost use Rattle.disk_trait.specs.FileWords.{file_view, file_present};

    ghost view = { file_view };

    ghost present = { file_present };

    fn len(&self) -> usize {
        self.len
    }

    fn read(&mut self, at: usize, bytes: &mut [u8]) -> Result<(), DeviceFault> {
        self.begin();
        match self.file.read_exact_at(bytes, at as u64) {
            Ok(()) => Ok(()),
            Err(_) => Err(self.fault()),
        }
    }

    fn write_at(&mut self, at: usize, bytes: &[u8]) -> Result<(), DeviceFault> {
        self.begin();
        match self.file.write_all_at(bytes, at as u64) {
            Ok(()) => Ok(()),
            Err(_) => Err(self.fault()),
        }
    }

    fn sync(&mut self) -> Result<(), DeviceFault> {
        self.begin();
        match self.file.sync_all() {
            Ok(()) => Ok(()),
            Err(_) => Err(self.fault()),
        }
    }
}
