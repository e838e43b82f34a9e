//! Reading the checkpoint of the slot in use.
ghost use Rattle.std.specs.Prelude.{◌≡◌, ◌≤◌, ◌<◌, ◌+◌, ◌*◌, ◌↔◌, length, IsTrue, IfOk, IfErr, OnOk};
ghost use Rattle.disk_trait.specs.Disk.{bytes_at};
ghost use Rattle.requests.specs.Tickets.{worn_limit};
ghost use Rattle.layout_reader.specs.Sizes.{device_len, slot_room, header};
ghost use Rattle.layout_reader.specs.State.{state_with, IsLawful};
ghost use Rattle.layout_reader.specs.Standing.{StandsForNone};
ghost use Rattle.layout_reader.specs.Refusals.{IsFormatFault, IsFrontFault};
ghost use Rattle.layout_reader.specs.Reading.{IsRead, IsNotRead};
ghost use Rattle.layout_reader.specs.Choosing.{HasHead, IsChosen};
ghost use Rattle.layout_reader.specs.Slots.{HasCheckpoint};

use crate::edges::read_edges;
use crate::form::Layout;
use crate::heads::{Chosen, SlotHead};
use crate::layout::{EDGE_LEN, HEAD_LEN};
use crate::reading::read_bytes;
use crate::refusals::OpenRefused;
use crate::sizes::Sizes;
use disk_trait::Disk;
use graph_edits::Graph;
use requests::WORN_LIMIT;
use std::alloc::Global;

// Whether a head's numbers are within the limits, on a device for so many nodes.
fn is_sound(head: &SlotHead, sizes: &Sizes, nodes: u16) -> bool
    ensures { IsTrue result ↔ ((head.now.epoch ≤ worn_limit) × (head.now.count ≤ worn_limit)
        × (head.now.nodes ≡ nodes) × (head.now.edges ≤ sizes.now.most_edges)) }
{
    head.epoch <= WORN_LIMIT
        && head.count <= WORN_LIMIT
        && head.nodes == nodes
        && head.edges as usize <= sizes.most_edges
}

/// The network and the tickets of the checkpoint in the slot that was chosen, on a device for so many nodes.
pub(crate) fn read_base<L: Layout, D: Disk>(
    alloc: Global,
    disk: &mut D,
    nodes: u16,
    chosen: Chosen,
) -> Result<(Graph, L::Tickets), OpenRefused>
    requires long { length (D.view disk.old).content ≡ device_len L.form.sizes }
    requires slot { chosen.slot < 2 }
    requires some { 1 ≤ nodes }
    requires few { nodes ≤ L.form.sizes.most_nodes }
    ensures read { OnOk result (IsRead (D.view disk.old) (D.view disk.new)) }
    ensures not_read { IfErr result (IsNotRead (D.view disk.old) (D.view disk.new)) }
    ensures later { IfErr result (λ e. ¬ (IsFrontFault e)) }
    ensures epoch { OnOk result (chosen.head.epoch ≤ worn_limit) }
    ensures count { OnOk result (chosen.head.count ≤ worn_limit) }
    ensures nodes { IfOk result (λ r. r.0.nodes ≡ nodes) }
    ensures lawful { IfOk result (λ r. IsLawful L.form.sizes r.0) }
    ensures tickets { IfOk result (λ r. L.form.AreTickets r.1) }
    ensures text { IsTrue (D.view disk.old).keeps_model
        → HasHead (slot_room L.form.sizes) chosen.slot chosen.head (D.view disk.old).content
        → IfOk result (λ r. HasCheckpoint L.form chosen.slot chosen.head.epoch
        (state_with chosen.head.count r.0 r.1) (D.view disk.old).content) }
    ensures refused { IsTrue (D.view disk.old).keeps_model
        → bytes_at (D.view disk.old).content 0 10 ≡ header L.form.sizes nodes
        → IsChosen (slot_room L.form.sizes) chosen (D.view disk.old).content
        → IfErr result (λ e. IsFormatFault e → StandsForNone L.form (D.view disk.old).content) }
{
    let sizes = L::sizes();
    if !is_sound(&chosen.head, &sizes, nodes) {
        return Err(OpenRefused::Damaged);
    }
    let behind = sizes.slot_start(chosen.slot) + HEAD_LEN;
    let tickets = L::read_tickets(disk, behind)?;
    let edges = chosen.head.edges as usize;
    let bytes = read_bytes(alloc, disk, behind + sizes.tickets_len, EDGE_LEN * edges)?;
    match read_edges(alloc, nodes, edges, &bytes) {
        Ok(graph) => Ok((graph, tickets)),
        Err(OpenRefused::Damaged) => Err(OpenRefused::Damaged),
        Err(_) => Err(OpenRefused::Memory),
    }
}
