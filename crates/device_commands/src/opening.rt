//! Formatting a device, opening one, and telling what it holds.
ghost use Rattle.std.specs.Prelude.{◌≡◌, ◌≢◌, ◌≤◌, ◌<◌, ◌↔◌, length, IfOk, IfErr, IsErr, IsErrOf, OnOk};
ghost use Rattle.std.specs.String.{string_bytes};
ghost use Rattle.disk_trait.specs.Disk.{IsSameDevice};
ghost use Rattle.graph_edits.specs.Edges.{most_nodes};
ghost use Rattle.requests.specs.Tickets.{sessions};
ghost use Rattle.layout_2.specs.Layout.{device_len};
ghost use Rattle.checkpoint.specs.Formatted.{IsFormatted};
ghost use Rattle.checkpoint.specs.Opening.{IsOpened};
ghost use Rattle.checkpoint.specs.StoreWords.{state_of};
ghost use Rattle.device_commands.specs.Openings.{AnswersOf, IsFormatFault, IsLastTicket, IsListing, TellsNotOpened, open_fault};

use checkpoint::{FormatRefused, OpenRefused, Store, standing_law};
use command_output::{Fault, listing_of};
use disk_trait::Disk;
use std::alloc::Global;

/// Formats a device for so many nodes.
pub fn format<D: Disk>(disk: &mut D, nodes: u16) -> Result<(), Fault>
    ensures ok { OnOk result (IsFormatted nodes (D.view disk.old) (D.view disk.new)) }

    ensures node_count { IsErrOf result Fault.NodeCount ↔ (¬ ((1 ≤ nodes) × (nodes ≤ most_nodes))) }
    ensures device_length { IsErrOf result Fault.DeviceLength
        ↔ ((1 ≤ nodes) × (nodes ≤ most_nodes) × (length (D.view disk.old).content ≢ device_len)) }
    ensures device { IsErrOf result Fault.Device → (D.view disk.old).failures < (D.view disk.new).failures }
    // Where it isn't told that the device failed, it is as it was.
    ensures untouched { IsErr result → ¬ (IsErrOf result Fault.Device) → disk.new ≡ disk.old }
    ensures faults { IfErr result (λ fault. IsFormatFault nodes fault) }
    ensures ran { IsSameDevice (D.view disk.old) (D.view disk.new) }
{
    match checkpoint::format(disk, nodes) {
        Ok(()) => Ok(()),
        Err(FormatRefused::BadSize) => Err(Fault::NodeCount),
        Err(FormatRefused::BadLength) => Err(Fault::DeviceLength),
        Err(FormatRefused::Device) => Err(Fault::Device),
    }
}

/// Opens a device. One that is refused is handed back.
pub fn open<D: Disk>(alloc: Global, disk: D) -> Result<Store<D>, (Fault, D)>
    ensures opened { IfOk result (λ store. IsOpened (D.view disk) store) }
    ensures refused { IfErr result (λ e. TellsNotOpened (D.view disk) (D.view e.1) e.0) }
{
    match Store::open(alloc, disk) {
        Ok(store) => Ok(store),
        Err((refused, disk)) => Err((fault_of(refused), disk)),
    }
}

// What is told of an opening that is refused.
fn fault_of(refused: OpenRefused) -> Fault
    ensures { result ≡ open_fault refused }
{
    match refused {
        OpenRefused::NotFormatted => Fault::NotFormatted,
        OpenRefused::BadVersion => Fault::LayoutNotKnown,
        OpenRefused::Damaged => Fault::Damaged,
        OpenRefused::Device => Fault::Device,
        OpenRefused::Memory => Fault::Memory,
    }
}

/// All that `show` prints of a device, and the device, which was only read.
pub fn listing<D: Disk>(alloc: Global, disk: D) -> (Result<String, Fault>, D)
    ensures { AnswersOf (λ state text. IsListing state (string_bytes text)) (D.view disk) (D.view result.1) result.0 }
{
    // The disk's bytes stand for one state at most: the one that is opened.
    standing_law();
    match open(alloc, disk) {
        Ok(store) => (listing_of_store(alloc, &store), store.into_disk()),
        Err((fault, disk)) => (Err(fault), disk),
    }
}

fn listing_of_store<D: Disk>(alloc: Global, store: &Store<D>) -> Result<String, Fault>
    ensures text { IfOk result (λ text. IsListing (state_of store.now) (string_bytes text)) }
    ensures memory { IfErr result (λ fault. fault ≡ Fault.Memory) }
{
    Ok(listing_of(alloc, store.count(), store.graph())?)
}

/// The last ticket that was taken of a session, 0 where there is none, and the device, which was only read.
pub fn resume<D: Disk>(alloc: Global, disk: D, session: u8) -> (Result<u64, Fault>, D)
    requires { session < sessions }
    ensures { AnswersOf (IsLastTicket session) (D.view disk) (D.view result.1) result.0 }
{
    // The disk's bytes stand for one state at most: the one that is opened.
    standing_law();
    match open(alloc, disk) {
        Ok(store) => (Ok(store.resume(session)), store.into_disk()),
        Err((fault, disk)) => (Err(fault), disk),
    }
}
