//! The figures of a device.
ghost use Rattle.std.specs.Prelude.{◌≡◌, IfOk, IfErr, IsTrue, OnOk};
ghost use Rattle.layout_2.specs.Loading.{IsRead, IsNotLoaded};
ghost use Rattle.device_info.specs.Info.{IsInfoOf, held_tickets};

use disk_trait::Disk;
use layout_2::{OpenRefused, load};
use std::alloc::{AllocError, Global};

/// What a device holds.
#[derive(Debug, PartialEq, Eq, Drop)]
pub struct DeviceInfo {
    /// The nodes of its network.
    pub nodes: u16,
    pub edges: usize,
    /// The accepted changes.
    pub count: u64,
    /// The slot in use, 0 or 1.
    pub slot: usize,
    pub epoch: u64,
    /// The accepted changes that stand in the journal behind the checkpoint in use.
    pub since_checkpoint: u64,
    /// How many bytes of the journal are left for records.
    pub journal_room_left: usize,
    /// The sessions that have a last ticket, in ascending order, each with it.
    pub held: Vec<(usize, u64)>,
}

// The sessions that have a last ticket.
fn held_of(alloc: Global, tickets: &[u64]) -> Result<Vec<(usize, u64)>, AllocError>
    ensures { IfOk result (λ held. held.items ≡ held_tickets tickets.now) }
{
    let each = tickets.iter().copied().enumerate();
    each.filter(|(_, ticket)| *ticket != 0).collect(alloc)
}

/// What a device holds. It syncs, reads, and writes nothing.
pub fn info_of<D: Disk>(alloc: Global, disk: &mut D) -> Result<DeviceInfo, OpenRefused>
    ensures read { OnOk result (IsRead (D.view disk.old) (D.view disk.new)) }
    ensures figures { IsTrue (D.view disk.old).keeps_model
        → IfOk result (λ info. IsInfoOf info (D.view disk.old).content) }
    ensures refused { IfErr result (IsNotLoaded (D.view disk.old) (D.view disk.new)) }
{
    let loaded = load(alloc, disk)?;
    let Ok(held) = held_of(alloc, &loaded.tickets) else {
        return Err(OpenRefused::Memory);
    };
    Ok(DeviceInfo {
        nodes: loaded.graph.nodes(),
        edges: loaded.graph.edges(),
        count: loaded.count,
        slot: loaded.slot,
        epoch: loaded.epoch,
        since_checkpoint: loaded.count.saturating_sub(loaded.base_count),
        journal_room_left: loaded.journal.room_left(),
        held,
    })
}
