//! How a new file is put where nothing stands.
ghost use Rattle.std.specs.Prelude.{◌≡◌, ◌⊎◌, ℕ, List, IfOk, OnOk};
ghost use Rattle.std.specs.String.{string_bytes};
ghost use Rattle.lab_parts.specs.Files.{beside_path};

use std::alloc::{AllocError, Global};
use std::fs::{self, File, OpenOptions};
use std::io::{self, ErrorKind, Write};
use std::path::Path;
use std::rt::Files;
use thiserror::Error;

/// Why a new file isn't put.
#[derive(Clone, Copy, Debug, PartialEq, Eq, Drop, Error)]
pub enum PutRefused {
    #[error("out of memory")]
    Memory,
    /// Something stands by its path. Nothing was touched.
    #[error("file exists")]
    Exists,
    /// A file of its name and `.new` stands beside its path. Nothing was touched.
    #[error("a file of this name and .new exists")]
    ExistsBeside,
    /// The file system has no room for it.
    #[error("no space left")]
    Full,
    /// The system doesn't make, write, sync or name it.
    #[error("device file cannot be used")]
    Unusable,
}

impl From<io::Error> for PutRefused {
    ghost use Rattle.lab_parts.specs.declared.placing.PutRefused.TheVariants.{Full, Unusable};

    ghost from_gives = { λ _ e. (e ≡ Full) ⊎ (e ≡ Unusable) };

    fn from(error: io::Error) -> Self {
        match error.kind() {
            ErrorKind::StorageFull => PutRefused::Full,
            _ => PutRefused::Unusable,
        }
    }
}

impl From<AllocError> for PutRefused {
    ghost use Rattle.lab_parts.specs.declared.placing.PutRefused.TheVariants.{Memory};

    ghost from_gives = { λ _ e. e ≡ Memory };

    fn from(_: AllocError) -> Self {
        PutRefused::Memory
    }
}

/// A folder, in which one file is put where nothing stands. What the system does with files no contract of it says. So what each call does is a
/// fact without a meaning here, which this call gives and nothing else; and each call uses up what the one before gave. Whoever puts a file over
/// any folder makes these five calls, in this order, or ends by an error.
pub(crate) trait Folder {
    type Made: Drop;

    type Written: Drop;

    type Synced: Drop;

    type Named: Drop;

    /// By the first path there is a new file, and nothing stood by the second.
    ghost is_made: { Self.Made → List ℕ → List ℕ → Type 0 };

    /// The file of the first path has these bytes and no other.
    ghost is_written: { Self.Written → List ℕ → List ℕ → List ℕ → Type 0 };

    /// A power cut doesn't take them.
    ghost is_synced: { Self.Synced → List ℕ → List ℕ → List ℕ → Type 0 };

    /// It stood by the first path, and stands by the second, where nothing stood before.
    ghost is_named: { Self.Named → List ℕ → List ℕ → List ℕ → Type 0 };

    /// A power cut doesn't take its name either.
    ghost is_kept: { List ℕ → List ℕ → List ℕ → Type 0 };

    fn make(&self, beside: &str, path: &str) -> Result<Self::Made, PutRefused>
        ensures { IfOk result (λ made. is_made made beside.now path.now) };

    fn write(&self, made: Self::Made, bytes: &[u8]) -> io::Result<Self::Written>
        ensures { (beside path : List ℕ) → is_made made beside path
            → IfOk result (λ written. is_written written beside path bytes.now) };

    fn sync(&self, written: Self::Written) -> io::Result<Self::Synced>
        ensures { (beside path bytes : List ℕ) → is_written written beside path bytes
            → IfOk result (λ synced. is_synced synced beside path bytes) };

    fn name(
        &self,
        synced: Self::Synced,
        beside: &str,
        path: &str,
    ) -> Result<Self::Named, PutRefused>
        ensures { (bytes : List ℕ) → is_synced synced beside.now path.now bytes
            → IfOk result (λ named. is_named named beside.now path.now bytes) };

    fn sync_folder(&self, named: Self::Named, path: &str) -> io::Result<()>
        ensures { (beside bytes : List ℕ) → is_named named beside path.now bytes
            → OnOk result (is_kept beside path.now bytes) };

    /// Takes a name away. Where the system refuses, it stays.
    fn remove(&self, path: &str);
}

/// A folder of the system.
#[derive(Drop)]
pub(crate) struct SystemFolder<'a, R> {
    files: &'a R,
}

impl<'a, R> SystemFolder<'a, R> {
    pub(crate) fn new(files: &'a R) -> SystemFolder<'a, R> {
        SystemFolder { files }
    }
}

impl<R: Files<File = File>> Folder for SystemFolder<'_, R> {
    type Made = File;

    type Written = File;

    type Synced = ();

    type Named = ();

    ghost is_made = { λ made beside path. Unit {0} };

    ghost is_written = { λ written beside path bytes. Unit {0} };

    ghost is_synced = { λ synced beside path bytes. Unit {0} };

    ghost is_named = { λ named beside path bytes. Unit {0} };

    ghost is_kept = { λ beside path bytes. Unit {0} };

    fn make(&self, beside: &str, path: &str) -> Result<File, PutRefused> {
        if fs::symlink_metadata(self.files, path).is_ok() {
            return Err(PutRefused::Exists);
        }
        match OpenOptions::new()
            .write(true)
            .create_new(true)
            .open(self.files, beside)
        {
            Ok(file) => Ok(file),
            Err(error) => match error.kind() {
                ErrorKind::AlreadyExists => Err(PutRefused::ExistsBeside),
                _ => Err(PutRefused::from(error)),
            },
        }
    }

    fn write(&self, mut made: File, bytes: &[u8]) -> io::Result<File> {
        made.write_all(bytes)?;
        Ok(made)
    }

    fn sync(&self, written: File) -> io::Result<()> {
        written.sync_all()
    }

    // By a link, which the system refuses where something stands. On a file system on which a file has one name alone it is renamed, and what comes
    // there in the moment before is lost.
    fn name(&self, _synced: (), beside: &str, path: &str) -> Result<(), PutRefused> {
        match fs::hard_link(self.files, beside, path) {
            Ok(()) => {
                self.remove(beside);
                Ok(())
            }
            Err(error) => {
                let is_there = error.kind() == ErrorKind::AlreadyExists
                    || fs::symlink_metadata(self.files, path).is_ok();
                if is_there {
                    return Err(PutRefused::Exists);
                }
                Ok(fs::rename(self.files, beside, path)?)
            }
        }
    }

    fn sync_folder(&self, _named: (), path: &str) -> io::Result<()> {
        let folder = match Path::new(path).parent() {
            Some(folder) if !folder.as_os_str().is_empty() => folder.as_os_str(),
            _ => ".",
        };
        OpenOptions::new()
            .read(true)
            .open(self.files, folder)?
            .sync_all()
    }

    fn remove(&self, path: &str) {
        let _removed = fs::remove_file(self.files, path);
    }
}

/// Puts a new file with these bytes by a path where nothing stands. What is refused leaves no file there, and none beside.
pub(crate) fn put_over<F: Folder>(
    alloc: Global,
    folder: &F,
    path: &str,
    bytes: &[u8],
) -> Result<(), PutRefused>
    ensures { OnOk result (F.is_kept (beside_path path.now) path.now bytes.now) }
{
    let beside = path_beside(alloc, path)?;
    let beside = beside.as_str();
    let named = named(folder, beside, path, bytes)?;
    match folder.sync_folder(named, path) {
        Ok(()) => Ok(()),
        Err(error) => {
            folder.remove(path);
            Err(PutRefused::from(error))
        }
    }
}

// The path of what is written first.
fn path_beside(alloc: Global, path: &str) -> Result<String, AllocError>
    ensures { IfOk result (λ beside. string_bytes beside ≡ beside_path path.now) }
{
    format!(in alloc; "{path}.new")
}

// Makes a file beside, writes it, and gives it its path. Where it has none, no file is left beside.
fn named<F: Folder>(
    folder: &F,
    beside: &str,
    path: &str,
    bytes: &[u8],
) -> Result<F::Named, PutRefused>
    ensures { IfOk result (λ named. F.is_named named beside.now path.now bytes.now) }
{
    let made = folder.make(beside, path)?;
    let named = match laid(folder, made, beside, path, bytes) {
        Ok(synced) => folder.name(synced, beside, path),
        Err(error) => Err(PutRefused::from(error)),
    };
    if named.is_err() {
        folder.remove(beside);
    }
    named
}

// Writes a file that was made, and syncs it.
fn laid<F: Folder>(
    folder: &F,
    made: F::Made,
    _beside: &str,
    _path: &str,
    bytes: &[u8],
) -> io::Result<F::Synced>
    requires { F.is_made made _beside.now _path.now }
    ensures { IfOk result (λ synced. F.is_synced synced _beside.now _path.now bytes.now) }
{
    let written = folder.write(made, bytes)?;
    folder.sync(written)
}
