//! The bytes of a device that stand for a state.
ghost use Rattle.std.specs.Prelude.{◌≡◌, ◌≤◌, ◌<◌, ◌+◌, ◌++◌, ◌^◌, IfOk, OnOk, length};
ghost use Rattle.std.specs.FinMap.{len};
ghost use Rattle.disk_trait.specs.Disk.{overwritten};
ghost use Rattle.disk_trait.specs.Memory.{mem_view};
ghost use Rattle.graph_edits.specs.Edges.{most_nodes};
ghost use Rattle.layout_reader.specs.Heads.{head_text};
ghost use Rattle.layout_2.specs.Layout.{device_len, header, worn_limit};
ghost use Rattle.layout_2.specs.Standing.{StandsFor};
ghost use Rattle.layout_2.specs.State.{AreTickets, state_with, tickets_text};
ghost use Rattle.checkpoint.specs.Whole.{IsFreshWith, without_tickets};

use byteorder::{BigEndian, ByteOrder};
use checkpoint::{WriteRefused, write_state};
use disk_trait::{Disk, MemDisk};
use graph_edits::Graph;
use layout_2::layout::{
    DEVICE_LEN, EDGES_START, FIRST_EPOCH, HEAD_LEN, HEADER_LEN, MAGIC, SLOTS_START, TICKET_LEN,
    VERSION,
};
use requests::SESSIONS;
use std::alloc::{AllocError, Global};

// The bytes of a device that holds this count and this network, and no tickets.
fn bytes_without_tickets(alloc: Global, count: u64, graph: &Graph) -> Result<Vec<u8>, WriteRefused>
    requires { count ≤ worn_limit }
    ensures { IfOk result (λ bytes. IsFreshWith (without_tickets count graph.now) bytes.items) }
{
    let Ok(mut disk) = MemDisk::new(alloc, DEVICE_LEN) else {
        return Err(WriteRefused::Memory);
    };
    write_state(alloc, &mut disk, count, graph)?;
    bytes_of(alloc, disk)
}

// The bytes of a disk in memory.
fn bytes_of(alloc: Global, mut disk: MemDisk) -> Result<Vec<u8>, WriteRefused>
    requires { length (mem_view disk).content ≡ device_len }
    ensures { IfOk result (λ bytes. bytes.items ≡ (mem_view disk).content) }
{
    let Ok(mut bytes) = zeros(alloc, DEVICE_LEN) else {
        return Err(WriteRefused::Memory);
    };
    match disk.read(0, &mut bytes) {
        Ok(()) => Ok(bytes),
        Err(_) => Err(WriteRefused::Device),
    }
}

fn zeros(alloc: Global, len: usize) -> Result<Vec<u8>, AllocError>
    ensures { IfOk result (λ bytes. length bytes.items ≡ len) }
{
    Ok(vec![in alloc; 0; len]?)
}

// The front of a device of so many nodes.
fn header_of(nodes: u16) -> [u8; HEADER_LEN]
    ensures { result ≡ header nodes }
{
    let mut front = [0; HEADER_LEN];
    front[..6].copy_from_slice(&MAGIC);
    front[6..8].copy_from_slice(&VERSION);
    BigEndian::write_u16(&mut front[8..10], nodes);
    front
}

// What stands between the gate of the first checkpoint and its tickets.
fn head_of(count: u64, nodes: u16, edges: u32) -> [u8; HEAD_LEN - 1]
    ensures { result ≡ head_text 1 count nodes edges }
{
    let mut head = [0; HEAD_LEN - 1];
    BigEndian::write_u64(&mut head[..8], FIRST_EPOCH);
    BigEndian::write_u64(&mut head[8..16], count);
    BigEndian::write_u16(&mut head[16..18], nodes);
    BigEndian::write_u32(&mut head[18..22], edges);
    head
}

// Adds the last tickets of sessions 0 on.
fn put_tickets(text: &mut Vec<u8>, tickets: &[u64; SESSIONS]) -> Result<(), AllocError>
    ensures { OnOk result (text.new.items ≡ text.old.items ++ tickets_text tickets.now) }
{
    for ticket in tickets {
        text.extend_from_slice(&ticket.to_be_bytes())?;
    }
    Ok(())
}

// What stands between the gate of the first checkpoint and its edges.
fn front_of(
    alloc: Global,
    count: u64,
    nodes: u16,
    edges: u32,
    tickets: &[u64; SESSIONS],
) -> Result<Vec<u8>, AllocError>
    ensures { IfOk result (λ front. front.items ≡ head_text 1 count nodes edges ++ tickets_text tickets.now) }
{
    let mut front = Vec::with_capacity(alloc, EDGES_START)?;
    front.extend_from_slice(&head_of(count, nodes, edges))?;
    put_tickets(&mut front, tickets)?;
    Ok(front)
}

// Puts bytes from a place on.
fn put(into: &mut [u8], at: usize, bytes: &[u8])
    requires { at + length bytes.now ≤ length into.old }
    ensures { into.new ≡ overwritten into.old at bytes.now }
{
    into[at..at + bytes.len()].copy_from_slice(bytes);
}

// Bytes with others from a place on.
fn with_bytes(mut all: Vec<u8>, at: usize, bytes: &[u8]) -> Vec<u8>
    requires { at + length bytes.now ≤ length all.items }
    ensures { result.items ≡ overwritten all.items at bytes.now }
{
    put(&mut all, at, bytes);
    all
}

/// The bytes of a device that holds this count, the edges of this network among so many nodes, and these last tickets, as a device that has
/// just been written holds them. An `Err` means that memory was refused.
pub fn image_of(
    alloc: Global,
    count: u64,
    graph: &Graph,
    nodes: u16,
    tickets: &[u64; SESSIONS],
) -> Result<Vec<u8>, WriteRefused>
    requires within { graph.now.nodes ≤ nodes }
    requires few { nodes ≤ most_nodes }
    requires count { count ≤ worn_limit }
    requires tickets { AreTickets tickets.now }
    ensures fresh { IfOk result (λ bytes.
        IsFreshWith (state_with count (record { nodes = nodes; edges = graph.now.edges }) tickets.now) bytes.items) }
    ensures stands { IfOk result (λ bytes.
        StandsFor (state_with count (record { nodes = nodes; edges = graph.now.edges }) tickets.now) bytes.items) }
{
    graph.sound();
    let bytes = bytes_without_tickets(alloc, count, graph)?;
    let Ok(front) = front_of(alloc, count, nodes, graph.edges() as u32, tickets) else {
        return Err(WriteRefused::Memory);
    };
    let headed = with_bytes(bytes, 0, &header_of(nodes));
    Ok(with_bytes(headed, SLOTS_START + 1, &front))
}
