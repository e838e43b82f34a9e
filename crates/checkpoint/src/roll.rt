//! Rolling: the network and the last tickets as a new checkpoint in the slot that isn't in use.
ghost use Rattle.std.specs.Prelude.{◌≡◌, ◌≤◌, ◌<◌, ◌+◌, ◌++◌, ℕ, List, length, get_or, take, IsTrue, IfOk, OnOk, OnErr, true, false};
ghost use Rattle.std.specs.List.{flat_map};
ghost use Rattle.std.specs.FinMap.{len};
ghost use Rattle.disk_trait.specs.Disk.{AtMostCalls, IsSameDevice, MayLeave, LeavesOnly};
ghost use Rattle.layout_2.specs.Layout.{checkpoint_room};
ghost use Rattle.layout_2.specs.State.{state_with, tickets_text, IsLawful};
ghost use Rattle.layout_reader.specs.EdgeTexts.{edge_text, edges_text};
ghost use Rattle.layout_reader.specs.Heads.{head_text};
ghost use Rattle.checkpoint.specs.Rolling.{up_text, padding, area_text, IsClosing};

use crate::refusals::RollRefused;
use crate::store::Store;
use byteorder::{BigEndian, ByteOrder};
use disk_trait::{DeviceFault, Disk, close, publish};
use graph_edits::Graph;
use journal::Journal;
use layout_2::journal_area;
use layout_2::layout::{CHECKPOINT_ROOM, HEAD_LEN, OPEN_GATE, SLOT_ROOM, SLOTS_START, WORN_LIMIT};
use requests::SESSIONS;
use std::alloc::{AllocError, Global};
use std::snapshot::Snapshot;

// What stands between a slot's gate and its tickets.
fn head_of(epoch: u64, count: u64, nodes: u16, edges: u32) -> [u8; HEAD_LEN - 1]
    ensures { result ≡ head_text epoch count nodes edges }
{
    let mut head = [0; HEAD_LEN - 1];
    BigEndian::write_u64(&mut head[..8], epoch);
    BigEndian::write_u64(&mut head[8..16], count);
    BigEndian::write_u16(&mut head[16..18], nodes);
    BigEndian::write_u32(&mut head[18..22], edges);
    head
}

// Adds a head: a checkpoint up to its tickets.
fn put_head(text: &mut Vec<u8>, epoch: u64, count: u64, graph: &Graph) -> Result<(), AllocError>
    ensures { OnOk result (text.new.items
        ≡ text.old.items ++ head_text epoch count graph.now.nodes (len graph.now.edges)) }
{
    let nodes = graph.nodes();
    text.extend_from_slice(&head_of(epoch, count, nodes, graph.edges() as u32))?;
    Ok(())
}

// Adds the last tickets of sessions 0 on.
fn put_tickets(text: &mut Vec<u8>, tickets: &[u64; SESSIONS]) -> Result<(), AllocError>
    ensures { OnOk result (text.new.items ≡ text.old.items ++ tickets_text tickets.now) }
{
    for ticket in tickets {
        text.extend_from_slice(&ticket.to_be_bytes())?;
    }
    Ok(())
}

// Adds an edge, its smaller node first.
fn put_edge(text: &mut Vec<u8>, a: u16, b: u16, weight: u32) -> Result<(), AllocError>
    ensures { OnOk result (text.new.items ≡ text.old.items ++ edge_text ((a, b), weight)) }
{
    text.extend_from_slice(&a.to_be_bytes())?;
    text.extend_from_slice(&b.to_be_bytes())?;
    text.extend_from_slice(&weight.to_be_bytes())
}

// Adds the edges of a node to greater nodes.
fn put_row(text: &mut Vec<u8>, node: u16, row: &[(u16, u32)]) -> Result<(), AllocError>
    ensures { OnOk result (text.new.items ≡ text.old.items ++ flat_map (λ e. up_text node e) row.now) }
{
    for (neighbour, weight) in row {
        if node < *neighbour {
            put_edge(text, node, *neighbour, *weight)?;
        }
    }
    Ok(())
}

// Adds all edges in ascending order.
fn put_edges(text: &mut Vec<u8>, graph: &Graph) -> Result<(), AllocError>
    ensures { IsLawful graph.now → OnOk result (text.new.items ≡ text.old.items ++ edges_text graph.now.edges) }
{
    for node in 0..graph.nodes() {
        put_row(text, node, graph.neighbours(node))?;
    }
    Ok(())
}

// Adds zeros up to the area's size.
fn pad(text: &mut Vec<u8>) -> Result<(), AllocError>
    ensures long { OnOk result (length text.new.items ≡ checkpoint_room) }
    ensures text { OnOk result (text.new.items ≡ take checkpoint_room text.old.items ++ padding text.old.items) }
{
    text.resize(CHECKPOINT_ROOM, 0)
}

// What stands behind a gate in a checkpoint's area, and the first gate of the journal behind it,
// closed. One buffer, made once.
pub(crate) fn text_of(
    alloc: Global,
    epoch: u64,
    count: u64,
    graph: &Graph,
    tickets: &[u64; SESSIONS],
) -> Result<Vec<u8>, AllocError>
    ensures long { IfOk result (λ text. length text.items ≡ checkpoint_room) }
    ensures text { IsLawful graph.now
        → IfOk result (λ text. text.items ≡ area_text epoch (state_with count graph.now tickets.now)) }
{
    let mut text = Vec::with_capacity(alloc, CHECKPOINT_ROOM)?;
    put_head(&mut text, epoch, count, graph)?;
    put_tickets(&mut text, tickets)?;
    put_edges(&mut text, graph)?;
    pad(&mut text)?;
    Ok(text)
}

// Closes a gate where its byte is that of an open one. A closed gate isn't written again: what stands
// behind it may be torn, and a gate that is being written may read as open.
fn close_open<D: Disk>(disk: &mut D, gate: usize, byte: u8) -> Result<(), DeviceFault>
    requires { gate + 1 ≤ length (D.view disk.old).content }
    ensures ran { IsSameDevice (D.view disk.old) (D.view disk.new) }
    ensures fault { OnErr result ((D.view disk.old).failures < (D.view disk.new).failures) }
    ensures no_failure { OnOk result ((D.view disk.new).failures ≡ (D.view disk.old).failures) }
    ensures calls { AtMostCalls 2 (D.view disk.old) (D.view disk.new) }
    ensures any_moment { IsTrue (D.view disk.old).keeps_model
        → LeavesOnly (D.view disk.old) (D.view disk.new) (IsClosing (D.view disk.old) gate byte) }
    ensures ok { IsTrue (D.view disk.old).keeps_model → byte ≡ 1
        → OnOk result ((image : List ℕ) → MayLeave (D.view disk.new) image → get_or image gate 0 ≡ 0) }
{
    if byte != OPEN_GATE {
        return Ok(());
    }
    close(disk, gate)
}

impl<D: Disk> Store<D> {
    ghost use Rattle.checkpoint.specs.StoreWords.{state_of, view_of};
    ghost use Rattle.checkpoint.specs.Rolled.{IsNowRolled, RefusesRoll, KeepsState};

    /// Writes the network and the last tickets as a new checkpoint, so that the journal is empty again:
    /// after it a commit isn't refused as `NeedsRoll`. It reads nothing, and has at most six
    /// calls of the device. Count, network and tickets stay, whatever it answers.
    ///
    /// Errors, in the order in which they are tested: `Down`, `Worn`, exactly where the epoch stands at
    /// `WORN_LIMIT`, and `Memory`, before any write; these leave the store as it was. `Device`, where a
    /// call of the device failed: the store is down from then on.
    pub fn roll(&mut self, alloc: Global) -> Result<(), RollRefused>
        ensures same { state_of self.new ≡ state_of self.old }

        ensures ok { OnOk result (IsNowRolled self.old self.new) }

        ensures refused { RefusesRoll self.old self.new result }

        ensures ran { IsSameDevice (view_of self.old) (view_of self.new) }
        ensures calls { AtMostCalls 6 (view_of self.old) (view_of self.new) }

        ensures any_moment { KeepsState self.old self.new }
    {
        if self.down {
            return Err(RollRefused::Down);
        }
        if WORN_LIMIT <= self.epoch {
            return Err(RollRefused::Worn);
        }
        let text = match text_of(
            alloc,
            self.epoch + 1,
            self.count,
            &self.graph,
            &self.tickets,
        ) {
            Ok(text) => text,
            Err(_) => return Err(RollRefused::Memory),
        };
        self.down = true;
        let other = 1 - self.slot;
        let gate = SLOTS_START + SLOT_ROOM * other;
        match close_open(&mut self.disk, gate, self.other_gate) {
            Ok(()) => {}
            Err(_) => return Err(RollRefused::Device),
        }
        match publish(&mut self.disk, gate, &text) {
            Ok(()) => {}
            Err(_) => return Err(RollRefused::Device),
        }
        self.slot = other;
        self.epoch += 1;
        self.other_gate = OPEN_GATE;
        self.journal = Journal::fresh(journal_area(other));
        self.base_count = Snapshot::of(&self.count);
        self.base = Snapshot::of(&self.graph);
        self.base_tickets = Snapshot::of(&self.tickets);
        self.down = false;
        Ok(())
    }
}
