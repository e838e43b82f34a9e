//! Where tables are put, and how one is.
ghost use Rattle.std.specs.Prelude.{◌≡◌, ◌++◌, ◌∷◌, [], List, IfErr, IfOk, OnErr, OnOk, map};
ghost use Rattle.std.specs.String.{string_bytes};
ghost use Rattle.table_files.specs.Files.{IsPutFault, put_of, table_path};

use crate::folder::{Puts, SystemFolder};
use command_output::Fault;
use std::alloc::{AllocError, Global};
use std::fs::File;
use std::rt::Files;

/// The file of a router's table, that is to be put.
#[derive(Debug, PartialEq, Eq, Drop)]
pub struct TableFile {
    /// Where it is to stand.
    pub path: String,
    pub bytes: Vec<u8>,
}

/// Where tables are put. Whoever puts tables does it here, and has no other way to make a file.
pub trait TableFiles {
    ghost use Rattle.table_files.specs.Files.{Put};

    /// The files that were put, in order.
    ghost puts: { Self → List Put };

    /// Puts a file in the place of what stands by its path. Whoever reads there meanwhile sees the old bytes or the new ones.
    fn put(&mut self, file: TableFile) -> Result<(), Fault>
        ensures put { OnOk result (puts self.new ≡ puts self.old ++ put_of file ∷ []) }
        ensures kept { OnErr result (puts self.new ≡ puts self.old) }
        ensures fault { IfErr result (λ fault. IsPutFault fault) };
}

/// Tables that are files of the system.
#[derive(Drop)]
pub struct SystemTables<'a, R> {
    files: &'a R,
    put: Puts,
}

impl<'a, R> SystemTables<'a, R> {
    /// Where nothing was put yet.
    pub fn new(files: &'a R) -> SystemTables<'a, R> {
        SystemTables {
            files,
            put: Puts::none(),
        }
    }
}

/// A runtime whose tables can be put from any thread. Of a runtime that is known only by what it can do, that isn't known. So it names
/// the place.
pub trait TablePlaces<'a> {
    /// Where the tables are put.
    type Place: TableFiles + Send + Drop;

    /// The place.
    fn place(&'a self) -> Self::Place;
}

/// Tables that are files of the system, by the runtime of a program. They can be put from any thread.
#[derive(Drop)]
pub struct HostTables<'a> {
    files: &'a HostRuntime,
    put: Puts,
}

impl<'a> HostTables<'a> {
    /// Where nothing was put yet.
    pub fn new(files: &'a HostRuntime) -> HostTables<'a> {
        HostTables {
            files,
            put: Puts::none(),
        }
    }
}

impl<'a> TablePlaces<'a> for HostRuntime {
    type Place = HostTables<'a>;

    fn place(&'a self) -> HostTables<'a> {
        HostTables::new(self)
    }
}

impl TableFiles for HostTables<'_> {
    ghost use Rattle.table_files.specs.Files.{put_of};

    ghost puts = { λ tables. map put_of tables.put.list.items };

    fn put(&mut self, file: TableFile) -> Result<(), Fault> {
        let folder = SystemFolder::new(self.files);
        self.put.put(self.files.alloc(), folder, &file)
    }
}

impl<R: Files<File = File> + AllocGlobal> TableFiles for SystemTables<'_, R> {
    ghost use Rattle.table_files.specs.Files.{put_of};

    ghost puts = { λ tables. map put_of tables.put.list.items };

    fn put(&mut self, file: TableFile) -> Result<(), Fault> {
        let folder = SystemFolder::new(self.files);
        self.put.put(self.files.alloc(), folder, &file)
    }
}

/// The path of the file of a node's table in a folder.
pub(crate) fn path_of(alloc: Global, folder: &str, node: u16) -> Result<String, AllocError>
    ensures { IfOk result (λ path. string_bytes path ≡ table_path folder.now node) }
{
    if folder.is_empty() {
        format!(in alloc; "{node}.table")
    } else {
        format!(in alloc; "{folder}/{node}.table")
    }
}
