//! How a file is put in the place of another.
ghost use Rattle.std.specs.Prelude.{◌≡◌, ◌++◌, ◌∷◌, [], ℕ, List, IfErr, IfOk, OnErr, OnOk, map};
ghost use Rattle.std.specs.String.{string_bytes};
ghost use Rattle.table_files.specs.Files.{IsPutFault, beside_path, put_of};

use crate::place::TableFile;
use command_output::Fault;
use disk_trait::Log;
use std::alloc::{AllocError, Global};
use std::fs::{self, File, OpenOptions};
use std::io::{self, ErrorKind, Write};
use std::path::Path;
use std::rt::Files;

/// A folder, in which one file is put. What the system does with files no contract of it says. So what each call does is a fact without
/// a meaning here, which this call gives and nothing else; and each call uses up what the one before gave. Whoever puts a file over any
/// folder makes these five calls and no other, in this order, or ends by an error.
pub(crate) trait Folder: Sized {
    ghost use Rattle.table_files.specs.Files.{Put};

    type Made: Drop;

    type Written: Drop;

    type Synced: Drop;

    type Renamed: Drop;

    /// It was made by this path.
    ghost is_made: { Self.Made → List ℕ → Type 0 };

    /// It has these bytes by this path.
    ghost is_written: { Self.Written → Put → Type 0 };

    /// A power cut doesn't take them.
    ghost is_synced: { Self.Synced → Put → Type 0 };

    /// It stood by the first path, and stands by its own.
    ghost is_renamed: { Self.Renamed → List ℕ → Put → Type 0 };

    /// A power cut doesn't take its name either.
    ghost is_kept: { List ℕ → Put → Type 0 };

    fn make(self, path: &str) -> io::Result<Self::Made>
        ensures { IfOk result (λ made. is_made made path.now) };

    fn write(made: Self::Made, path: &str, bytes: &[u8]) -> io::Result<Self::Written>
        requires { is_made made path.now }
        ensures { IfOk result (λ written. is_written written (record { path = path.now; bytes = bytes.now })) };

    fn sync(written: Self::Written) -> io::Result<Self::Synced>
        ensures { (put : Put) → is_written written put → IfOk result (λ synced. is_synced synced put) };

    fn rename(synced: Self::Synced, from: &str, to: &str) -> io::Result<Self::Renamed>
        ensures { (bytes : List ℕ) → is_synced synced (record { path = from.now; bytes = bytes })
            → IfOk result (λ renamed. is_renamed renamed from.now (record { path = to.now; bytes = bytes })) };

    fn sync_folder(renamed: Self::Renamed, path: &str) -> io::Result<()>
        ensures { (from bytes : List ℕ) → is_renamed renamed from (record { path = path.now; bytes = bytes })
            → OnOk result (is_kept from (record { path = path.now; bytes = bytes })) };
}

/// A folder of the system.
#[derive(Drop)]
pub(crate) struct SystemFolder<'a, R> {
    files: &'a R,
}

// A file that is open in it.
#[derive(Drop)]
pub(crate) struct Opened<'a, R> {
    files: &'a R,
    file: File,
}

impl<'a, R> SystemFolder<'a, R> {
    pub(crate) fn new(files: &'a R) -> SystemFolder<'a, R> {
        SystemFolder { files }
    }
}

impl<'a, R: Files<File = File>> Folder for SystemFolder<'a, R> {
    type Made = Opened<'a, R>;

    type Written = Opened<'a, R>;

    type Synced = SystemFolder<'a, R>;

    type Renamed = SystemFolder<'a, R>;

    ghost is_made = { λ made path. Unit {0} };

    ghost is_written = { λ written put. Unit {0} };

    ghost is_synced = { λ synced put. Unit {0} };

    ghost is_renamed = { λ renamed from put. Unit {0} };

    ghost is_kept = { λ from put. Unit {0} };

    fn make(self, path: &str) -> io::Result<Opened<'a, R>> {
        let file = File::create(self.files, path)?;
        Ok(Opened {
            files: self.files,
            file,
        })
    }

    fn write(mut made: Opened<'a, R>, _path: &str, bytes: &[u8]) -> io::Result<Opened<'a, R>> {
        made.file.write_all(bytes)?;
        Ok(made)
    }

    fn sync(written: Opened<'a, R>) -> io::Result<SystemFolder<'a, R>> {
        written.file.sync_all()?;
        Ok(SystemFolder {
            files: written.files,
        })
    }

    fn rename(
        synced: SystemFolder<'a, R>,
        from: &str,
        to: &str,
    ) -> io::Result<SystemFolder<'a, R>> {
        fs::rename(synced.files, from, to)?;
        Ok(synced)
    }

    fn sync_folder(renamed: SystemFolder<'a, R>, path: &str) -> io::Result<()> {
        let folder = match Path::new(path).parent() {
            Some(folder) if !folder.as_os_str().is_empty() => folder.as_os_str(),
            _ => ".",
        };
        OpenOptions::new()
            .read(true)
            .open(renamed.files, folder)?
            .sync_all()
    }
}

/// The files that were put, in order. It has no bytes, and `put` alone lists a file.
#[derive(Drop)]
pub(crate) struct Puts {
    list: Log<TableFile>,
}

impl Puts {
    /// None yet.
    pub(crate) fn none() -> Puts
        ensures { result.list.items ≡ [] }
    {
        Puts { list: Log::new() }
    }

    /// Puts a file in the place of what stands by its path, over a folder of any kind, and lists it.
    pub(crate) fn put<F: Folder + Drop>(
        &mut self,
        alloc: Global,
        folder: F,
        file: &TableFile,
    ) -> Result<(), Fault>
        ensures put { OnOk result (map put_of self.new.list.items ≡ map put_of self.old.list.items ++ put_of file.now ∷ []) }
        ensures over { OnOk result (F.is_kept (beside_path (put_of file.now).path) (put_of file.now)) }
        ensures kept { OnErr result (self.new ≡ self.old) }
        ensures fault { IfErr result (λ fault. IsPutFault fault) }
    {
        put_over(alloc, folder, file)?;
        self.list = self.list.with_entry(file);
        Ok(())
    }
}

// Puts a file in the place of what stands by its path.
fn put_over<F: Folder + Drop>(alloc: Global, folder: F, file: &TableFile) -> Result<(), Fault>
    ensures over { OnOk result (F.is_kept (beside_path (put_of file.now).path) (put_of file.now)) }
    ensures fault { IfErr result (λ fault. IsPutFault fault) }
{
    let beside = path_beside(alloc, file.path.as_str())?;
    match replace(folder, beside.as_str(), file) {
        Ok(()) => Ok(()),
        Err(error) => Err(fault_of(error)),
    }
}

// What is told of a file that can't be put.
fn fault_of(error: io::Error) -> Fault
    ensures { IsPutFault result }
{
    match error.kind() {
        ErrorKind::OutOfMemory => Fault::Memory,
        _ => Fault::TableFile,
    }
}

// The path of what is written first.
fn path_beside(alloc: Global, path: &str) -> Result<String, AllocError>
    ensures { IfOk result (λ beside. string_bytes beside ≡ beside_path path.now) }
{
    format!(in alloc; "{path}.new")
}

// Writes a file by the first path, and then gives it its own.
fn replace<F: Folder + Drop>(folder: F, beside: &str, file: &TableFile) -> io::Result<()>
    ensures { OnOk result (F.is_kept beside.now (put_of file.now)) }
{
    let path = file.path.as_str();
    let made = folder.make(beside)?;
    let written = F::write(made, beside, file.bytes.as_slice())?;
    let synced = F::sync(written)?;
    let renamed = F::rename(synced, beside, path)?;
    F::sync_folder(renamed, path)
}
