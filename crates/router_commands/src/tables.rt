// The files of tables.
ghost use Rattle.std.specs.Prelude.{◌≤◌, IfErr};

use crate::telling::{told, told_memory, told_of};
use router_lines::{LoadRefused, Shelf};
use router_runs::{TableSource, Unread};
use router_table::ReadRefused;
use std::alloc::Global;
use std::fs::File;
use std::io::{self, Read, Write};
use std::rt::Files;
use table_view::TableFile;

/// No table is longer: it has 65,535 neighbours, entries and members, and each of these 13 ports.
const LONGEST_TABLE: usize = 3_014_710;

// The bytes of a file; of a longer one than any table a byte more than those.
fn bytes_of<R: Files<File = File> + AllocGlobal>(rt: &R, file: &str) -> io::Result<Vec<u8>> {
    let mut bytes = Vec::new(rt.alloc());
    File::open(rt, file)?
        .take(LONGEST_TABLE as u64 + 1)
        .read_to_end(&mut bytes)?;
    bytes.shrink_to_fit();
    Ok(bytes)
}

/// The files of the system. Why one can't be read is told.
#[derive(Drop)]
pub(crate) struct ToldFiles<'a, R, E> {
    pub(crate) rt: &'a R,
    pub(crate) err: &'a mut E,
}

impl<R: Files<File = File> + AllocGlobal, E: Write> TableSource for ToldFiles<'_, R, E> {
    ghost reads = { λ file read. Unit {0} };

    fn read(&mut self, _alloc: Global, file: &[u8]) -> Result<Vec<u8>, Unread> {
        let Ok(file) = str::from_utf8(file) else {
            return Err(Unread::NoFile);
        };
        match bytes_of(self.rt, file) {
            Ok(bytes) if bytes.len() > LONGEST_TABLE => Err(Unread::TooLong),
            Ok(bytes) => Ok(bytes),
            Err(error) => {
                let _status = told_of(self.err, file, error);
                Err(Unread::NoFile)
            }
        }
    }
}

// The table of a file. What is wrong with it is told, and the exit status answered.
fn table_of<R: Files<File = File> + AllocGlobal, E: Write>(
    rt: &R,
    file: &str,
    err: &mut E,
) -> Result<TableFile, u8>
    ensures { IfErr result (λ status. status ≤ 2) }
{
    let bytes = match bytes_of(rt, file) {
        Ok(bytes) => bytes,
        Err(error) => return Err(told_of(err, file, error)),
    };
    if bytes.len() > LONGEST_TABLE {
        return Err(told_of(err, file, ReadRefused::TooLong));
    }
    match TableFile::read(bytes) {
        Ok(table) => Ok(table),
        Err(refused) => Err(told_of(err, file, refused)),
    }
}

/// A shelf of the tables of these files, of which the first says which node it is. What is wrong with a file is told.
pub(crate) fn shelf_of<R: Files<File = File> + AllocGlobal, E: Write>(
    rt: &R,
    files: &[&str],
    err: &mut E,
) -> Result<Shelf, u8>
    ensures { IfErr result (λ status. status ≤ 2) }
{
    let Some((first, others)) = files.split_first() else {
        return Err(told(err, 2, "no table is named"));
    };
    let table = table_of(rt, first, err)?;
    let Ok(mut shelf) = Shelf::new(rt.alloc(), table) else {
        return Err(told_memory(err));
    };
    for file in others {
        load_named(rt, &mut shelf, file, err)?;
    }
    Ok(shelf)
}

// Puts the table of a file that the words name on the shelf: one of an older generation than the shelf has room for is let go.
fn load_named<R: Files<File = File> + AllocGlobal, E: Write>(
    rt: &R,
    shelf: &mut Shelf,
    file: &str,
    err: &mut E,
) -> Result<(), u8>
    ensures { IfErr result (λ status. status ≤ 2) }
{
    match shelf.load(table_of(rt, file, err)?) {
        Ok(()) | Err(LoadRefused::GenerationGone) => Ok(()),
        Err(refused) => Err(told_of(err, file, refused)),
    }
}
