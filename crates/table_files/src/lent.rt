//! A place of tables that is lent.
ghost use Rattle.std.specs.Prelude.{◌≡◌};

use crate::place::{TableFile, TableFiles};
use command_output::Fault;

/// Tables that are put at a place of somebody else's. Where that place may go to another thread, so may this.
#[derive(Drop)]
pub struct LentTables<'a, T> {
    tables: &'a mut T,
}

impl<'a, T: TableFiles> LentTables<'a, T> {
    /// The tables of this place.
    pub fn new(tables: &'a mut T) -> LentTables<'a, T>
        ensures { ⟦<LentTables<'a, T> as TableFiles>⟧.puts result ≡ T.puts tables.old }
    {
        LentTables { tables }
    }
}

impl<T: TableFiles> TableFiles for LentTables<'_, T> {
    ghost puts = { λ lent. T.puts lent.tables.now };

    fn put(&mut self, file: TableFile) -> Result<(), Fault> {
        self.tables.put(file)
    }
}
