//! Where the files of tables are read.
ghost use Rattle.std.specs.Prelude.{ℕ, List};

use std::alloc::Global;

/// Why a file isn't read.
#[derive(Clone, Copy, Debug, PartialEq, Eq, Drop)]
pub enum Unread {
    /// It is longer than any table.
    TooLong,
    /// It can't be read, or can't be named.
    NoFile,
}

/// Where files are read. What a file holds no contract says: `reads` is what was read by a name.
pub trait TableSource {
    ghost use Rattle.router_runs.specs.Reads.{FileRead, read_of};

    ghost reads: { List ℕ → FileRead → Type 0 };

    /// The bytes of a file.
    fn read(&mut self, alloc: Global, file: &[u8]) -> Result<Vec<u8>, Unread>
        ensures { reads file.now (read_of result) };
}
