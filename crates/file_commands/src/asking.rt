//! A question about the graph of a device.
ghost use Rattle.std.specs.Prelude.{◌≡◌};
ghost use Rattle.file_commands.specs.Queries.{AsksDevice, GivesAt, of_generation};

use checkpoint::standing_law;
use command_output::Fault;
use device_commands::open;
use disk_trait::Disk;
use graph_edits::Graph;
use std::alloc::Global;

/// The generation of a device's graph, and what is answered of that graph. The device comes back, and was only read.
pub(crate) fn ask_device<D, T, F>(alloc: Global, disk: D, ask: F) -> (Result<(u64, T), Fault>, D)
where
    D: Disk,
    F: FnOnce(&Graph, u64) -> Result<T, Fault>,
    requires { F.IsAlwaysCallable ask }
    ensures { AsksDevice (GivesAt F.FnOnce ask) (D.view disk) (D.view result.1) result.0 }
{
    // The disk's bytes stand for one state at most, so the answer is of that one.
    standing_law();
    match open(alloc, disk) {
        Ok(store) => {
            let generation = store.count();
            let found = ask(store.graph(), generation);
            (of_generation(generation, found), store.into_disk())
        }
        Err((fault, disk)) => (Err(fault), disk),
    }
}

// An answer with its generation.
fn of_generation<T>(generation: u64, found: Result<T, Fault>) -> Result<(u64, T), Fault>
    ensures { result ≡ of_generation generation found }
{
    match found {
        Ok(found) => Ok((generation, found)),
        Err(fault) => Err(fault),
    }
}
