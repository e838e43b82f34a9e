//! A place of tables that tells how far it has come.
ghost use Rattle.std.specs.Prelude.{◌≡◌};

use crate::place::{TableFile, TableFiles};
use command_output::Fault;

/// Who is told how far the putting of tables has come.
pub trait Progress {
    /// So many tables were put by now.
    fn came_to(&mut self, tables: usize);
}

/// Tables that are put at another place, of which each is told once it is put.
#[derive(Drop)]
pub struct WatchedTables<'a, T, P> {
    tables: T,
    count: usize,
    progress: &'a mut P,
}

impl<'a, T: TableFiles, P: Progress> WatchedTables<'a, T, P> {
    /// The tables of this place.
    pub fn new(tables: T, progress: &'a mut P) -> WatchedTables<'a, T, P>
        ensures { ⟦<WatchedTables<'a, T, P> as TableFiles>⟧.puts result ≡ T.puts tables }
    {
        WatchedTables {
            tables,
            count: 0,
            progress,
        }
    }
}

impl<T: TableFiles, P: Progress> TableFiles for WatchedTables<'_, T, P> {
    ghost puts = { λ watched. T.puts watched.tables };

    fn put(&mut self, file: TableFile) -> Result<(), Fault> {
        self.tables.put(file)?;
        self.count = self.count.saturating_add(1);
        self.progress.came_to(self.count);
        Ok(())
    }
}
