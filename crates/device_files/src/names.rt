//! Files by their names: which may be a device, and how a new one comes to its name.
ghost use Rattle.std.specs.Prelude.{◌≡◌, ◌⊎◌};

use crate::refused::FileRefused;
use arrayvec::ArrayString;
use std::fs::{self, File, Metadata, OpenOptions};
use std::io::{self, ErrorKind};
use std::os::unix::fs::FileTypeExt;
use std::path::Path;
use std::rt::Files;

// The system takes no longer path; behind it stands `.new`.
const LONGEST_PATH: usize = 4_100;

// Syncs the folder in which a file stands, so that its name is kept.
pub(crate) fn sync_folder<R: Files<File = File>>(files: &R, path: &str) -> io::Result<()> {
    let folder = match Path::new(path).parent() {
        Some(folder) if !folder.as_os_str().is_empty() => folder.as_os_str(),
        _ => ".",
    };
    OpenOptions::new()
        .read(true)
        .open(files, folder)?
        .sync_all()
}

/// Why a file can't be opened or made.
pub(crate) fn refusal_of(error: io::Error) -> FileRefused
    ensures { (result ≡ FileRefused.Exists) ⊎ ((result ≡ FileRefused.Full) ⊎ (result ≡ FileRefused.Unusable)) }
{
    match error.kind() {
        ErrorKind::AlreadyExists => FileRefused::Exists,
        ErrorKind::StorageFull => FileRefused::Full,
        _ => FileRefused::Unusable,
    }
}

// Whether it is what a device may be.
fn may_be_device(found: &Metadata) -> bool {
    found.is_file() || found.file_type().is_block_device()
}

/// Refuses a path by which something else stands. To open a pipe would be to wait for another program. What doesn't stand there is left
/// to the opening.
pub(crate) fn judged<R: Files<File = File>>(files: &R, path: &str) -> Result<(), FileRefused> {
    match fs::metadata(files, path) {
        Ok(found) if !may_be_device(&found) => Err(FileRefused::OtherKind),
        _ => Ok(()),
    }
}

/// Refuses what was opened, where it is something else: another file may stand by the path by now.
pub(crate) fn judged_open(file: &File) -> Result<(), FileRefused> {
    if may_be_device(&file.metadata()?) {
        Ok(())
    } else {
        Err(FileRefused::OtherKind)
    }
}

/// Where a file is made that is to come to a path: under the same name and `.new`. Something may not stand by the path itself.
pub(crate) fn beside<R: Files<File = File>>(
    files: &R,
    path: &str,
) -> Result<ArrayString<LONGEST_PATH>, FileRefused> {
    if fs::symlink_metadata(files, path).is_ok() {
        return Err(FileRefused::Exists);
    }
    let mut beside = ArrayString::new();
    if beside.try_push_str(path).is_err() || beside.try_push_str(".new").is_err() {
        return Err(FileRefused::Unusable);
    }
    Ok(beside)
}

/// Why a file isn't made beside its path, where its opening is refused: a file of that name is another one.
pub(crate) fn refusal_beside(refused: FileRefused) -> FileRefused {
    match refused {
        FileRefused::Exists => FileRefused::ExistsBeside,
        _ => refused,
    }
}

/// Gives a file that stands beside its path this path, and syncs the folder. Where something stands there by now, or the system refuses,
/// no name of the file is left.
pub(crate) fn put<R: Files<File = File>>(
    files: &R,
    beside: &str,
    path: &str,
) -> Result<(), FileRefused> {
    let put = named(files, beside, path);
    if put.is_err() {
        removed(files, beside);
    }
    put
}

// Gives a file its path.
fn named<R: Files<File = File>>(files: &R, beside: &str, path: &str) -> Result<(), FileRefused> {
    match fs::hard_link(files, beside, path) {
        Ok(()) => removed(files, beside),
        Err(error) => {
            if error.kind() == ErrorKind::AlreadyExists {
                return Err(FileRefused::Exists);
            }
            renamed(files, beside, path)?;
        }
    }
    match sync_folder(files, path) {
        Ok(()) => Ok(()),
        Err(error) => {
            unnamed(files, path);
            Err(refusal_of(error))
        }
    }
}

// The same on a file system on which a file has one name alone. A file that comes there between these two calls is lost.
fn renamed<R: Files<File = File>>(files: &R, beside: &str, path: &str) -> Result<(), FileRefused> {
    if fs::symlink_metadata(files, path).is_ok() {
        return Err(FileRefused::Exists);
    }
    fs::rename(files, beside, path)?;
    Ok(())
}

/// Takes a name away. Where the system refuses, it stays.
pub(crate) fn removed<R: Files<File = File>>(files: &R, path: &str) {
    let _removed = fs::remove_file(files, path);
}

/// Takes the name of a file away, and syncs the folder. Where the system refuses, the name stays.
pub(crate) fn unnamed<R: Files<File = File>>(files: &R, path: &str) {
    if fs::remove_file(files, path).is_ok() {
        let _synced = sync_folder(files, path);
    }
}
