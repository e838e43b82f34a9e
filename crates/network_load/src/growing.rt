//! A device with more nodes.
ghost use Rattle.std.specs.Prelude.{◌≡◌, ◌↔◌, ◌≤◌, IfOk, IsErrOf, IsTrue, OnOk};
ghost use Rattle.layout_2.specs.Layout.{worn_limit};
ghost use Rattle.layout_2.specs.Loading.{state_of};
ghost use Rattle.layout_2.specs.Standing.{StandsFor};
ghost use Rattle.layout_2.specs.State.{AreTickets};
ghost use Rattle.network_load.specs.Loads.{CanGrow, with_nodes};

use crate::image::image_of;
use checkpoint::{WORN_LIMIT, WriteRefused};
use graph_edits::MOST_NODES;
use layout_2::Loaded;
use requests::SESSIONS;
use std::alloc::Global;
use thiserror::Error;

/// Why a device isn't made larger.
#[derive(Clone, Copy, Debug, PartialEq, Eq, Drop, Error)]
pub enum GrowRefused {
    /// It would have fewer nodes, or more than a device may have.
    #[error("node count out of range")]
    NodeCount,
    /// The count or a last ticket is past its limit. No device that can be opened has such a one.
    #[error("damaged")]
    Damaged,
    #[error("out of memory")]
    Memory,
    /// A call of the disk in memory failed. No run is known that ends so.
    #[error("device failed")]
    Device,
}

/// The bytes of a device that holds what was loaded of another one, its count, its edges and its last tickets, but has so many nodes.
pub fn grown_image(alloc: Global, loaded: &Loaded, nodes: u64) -> Result<Vec<u8>, GrowRefused>
    ensures stands { IfOk result (λ bytes. StandsFor (with_nodes (state_of loaded.now) nodes) bytes.items) }
    ensures grows { OnOk result (CanGrow loaded.now.graph.nodes nodes) }
    ensures node_count { IsErrOf result GrowRefused.NodeCount ↔ (¬ (CanGrow loaded.now.graph.nodes nodes)) }
    ensures damaged { IsErrOf result GrowRefused.Damaged → ¬ ((loaded.now.count ≤ worn_limit) × AreTickets loaded.now.tickets) }
{
    if nodes < loaded.graph.nodes() as u64 || nodes > MOST_NODES as u64 {
        return Err(GrowRefused::NodeCount);
    }
    if loaded.count > WORN_LIMIT || !are_sound(&loaded.tickets) {
        return Err(GrowRefused::Damaged);
    }
    match image_of(
        alloc,
        loaded.count,
        &loaded.graph,
        nodes as u16,
        &loaded.tickets,
    ) {
        Ok(bytes) => Ok(bytes),
        Err(WriteRefused::Memory) => Err(GrowRefused::Memory),
        Err(WriteRefused::Device) => Err(GrowRefused::Device),
    }
}

// Whether each is within the limit.
fn are_sound(tickets: &[u64; SESSIONS]) -> bool
    ensures { IsTrue result ↔ AreTickets tickets.now }
{
    tickets.iter().all(|ticket| *ticket <= WORN_LIMIT)
}
