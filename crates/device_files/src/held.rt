//! A file under a lock, and the disk on it.
ghost use Rattle.std.specs.Prelude.{◌≡◌, IfOk, OnOk};

use crate::file::Lock;
use crate::refused::FileRefused;
use disk_trait::FileDisk;
use std::fs::{File, TryLockError};
use std::io;
use std::os::unix::fs::FileExt;

// How many zeros are written at a time.
const PART_LEN: usize = 16_384;

/// A file that can be locked. What a lock is, no contract of the system says. So that one was taken is a fact without a meaning
/// here, which `take_at_once` gives and nothing else, and which whoever fills the file or makes a disk of it has to have.
pub(crate) trait Lockable {
    ghost use Rattle.device_files.specs.declared.file.Lock.{Lock};
    ghost use Rattle.device_files.specs.declared.file.Lock.TheVariants.{Alone};

    type Disk: Drop;

    ghost is_taken: { Self → Lock → Type 0 };

    /// Takes a lock, without waiting.
    fn take_at_once(&self, lock: Lock) -> Result<(), TryLockError>
        ensures { OnOk result (is_taken self.now lock) };

    /// Empties it, fills it with so many zeros, and syncs it.
    fn fill(&self, len: usize) -> io::Result<()>
        requires { is_taken self.now Alone };

    /// The disk on it.
    fn into_disk(self, lock: Lock) -> io::Result<Self::Disk>
        requires { is_taken self lock };
}

impl Lockable for File {
    ghost is_taken = { λ file lock. Unit {0} };

    type Disk = FileDisk;

    fn take_at_once(&self, lock: Lock) -> Result<(), TryLockError> {
        match lock {
            Lock::Alone => self.try_lock(),
            Lock::Shared => self.try_lock_shared(),
        }
    }

    fn fill(&self, len: usize) -> io::Result<()> {
        let zeros = [0; PART_LEN];
        self.set_len(0)?;
        for at in (0..len).step_by(PART_LEN) {
            let part = PART_LEN.min(len - at);
            self.write_all_at(&zeros[..part], at as u64)?;
        }
        self.sync_all()
    }

    fn into_disk(self, _lock: Lock) -> io::Result<FileDisk> {
        FileDisk::new(self)
    }
}

/// A disk on a file, under a lock that was taken on this very file before: the two functions below make it, for files of any kind.
#[derive(Drop)]
pub(crate) struct Held<D: Drop> {
    pub(crate) disk: D,
    lock: Lock,
}

impl<D: Drop> Held<D> {
    /// Its lock.
    pub(crate) fn lock(&self) -> Lock
        ensures { result ≡ self.now.lock }
    {
        self.lock
    }
}

// Takes a lock, without waiting.
fn take<F: Lockable>(file: &F, lock: Lock) -> Result<(), FileRefused>
    ensures { OnOk result (F.is_taken file.now lock) }
{
    match file.take_at_once(lock) {
        Ok(()) => Ok(()),
        Err(TryLockError::WouldBlock) => Err(FileRefused::InUse),
        Err(TryLockError::Error(_)) => Err(FileRefused::Unusable),
    }
}

/// The disk of a file, under this lock.
pub(crate) fn locked<F: Lockable + Drop>(file: F, lock: Lock) -> Result<Held<F::Disk>, FileRefused>
    ensures { IfOk result (λ held. held.lock ≡ lock) }
{
    take(&file, lock)?;
    Ok(Held {
        disk: file.into_disk(lock)?,
        lock,
    })
}

/// The disk of a file that is emptied and filled with so many zeros once it is locked alone.
pub(crate) fn filled<F: Lockable + Drop>(file: F, len: usize) -> Result<Held<F::Disk>, FileRefused>
    ensures { IfOk result (λ held. held.lock ≡ Lock.Alone) }
{
    take(&file, Lock::Alone)?;
    file.fill(len)?;
    Ok(Held {
        disk: file.into_disk(Lock::Alone)?,
        lock: Lock::Alone,
    })
}
