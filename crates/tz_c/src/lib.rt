//! The C library: what a router does by the bytes of its table.
//!
//! A thin layer over crate `table_view`: each function calls the one of that crate and states its clauses again. A slice crosses as a
//! pointer and then a length. No function allocates, keeps anything, or reads past a length.
//!
//! An answer of 0 or more says what happened, and one below 0 is a refusal: -N for number N of the list in docs/FORMATS.md (`numbers`).
//! A refused call writes nothing. [`tz_table_check`] tests all bytes of a table. The others take any bytes, and for those that passed the
//! test they answer as the table that these spell.
//!
//! ```text
//! if (tz_table_check(table, len) == 0 && tz_hop(table, len, in, 43, out, 43, &port, &next) == 1)
//!     send(port, out);
//! ```
#![tactic(auto)]

ghost use Rattle.std.specs.Prelude.{◌≡◌, ◌≢◌, pos, slice_get};
ghost use Rattle.table_view.specs.Answers.{OfTable};
ghost use Rattle.tz_c.specs.Codes.{IsChecked, IsNeighbour, TellsAddress, TellsHop, TellsLaunch, info_of};

mod numbers;

use crate::numbers::{NO_PORT, NOT_IN_ORDER, of_bytes, of_read};
use table_view::{
    Hop, TableView, address_bytes, figures_in, hop_bytes, launch_bytes, neighbour_in,
};

/// Who a router is, and how much its table has.
#[derive(Clone, Copy)]
#[repr(C)]
pub struct Info {
    pub generation: u64,
    pub nodes: u32,
    pub node: u32,
    pub ports: u32,
    pub entries: u32,
    pub members: u32,
}

/// Whether bytes spell a table: 0, or the first thing that is wrong with them.
#[unsafe(no_mangle)]
pub extern "C" fn tz_table_check(table: &[u8]) -> i32
    ensures { IsChecked table.now result }
{
    match TableView::read(table) {
        Ok(_) => 0,
        Err(refused) => of_read(refused),
    }
}

/// Who the router is, and how much its table has.
#[unsafe(no_mangle)]
pub extern "C" fn tz_table_info(table: &[u8], info: &mut Info) -> i32
    ensures told { OfTable table.now (λ a. (result ≡ pos 0) × (info.new ≡ info_of a)) }
    ensures refused { result ≢ pos 0 → (result ≡ NOT_IN_ORDER) × (info.new ≡ info.old) }
{
    let Some(figures) = figures_in(table) else {
        return NOT_IN_ORDER;
    };
    *info = Info {
        generation: figures.generation,
        nodes: figures.nodes as u32,
        node: figures.node as u32,
        ports: figures.ports as u32,
        entries: figures.entries as u32,
        members: figures.members as u32,
    };
    0
}

/// The neighbour behind a port of the router.
#[unsafe(no_mangle)]
pub extern "C" fn tz_neighbour(table: &[u8], port: u32, node: &mut u32) -> i32
    ensures told { OfTable table.now (λ a. IsNeighbour (slice_get a.ports port) node.old node.new result) }
    ensures refused { result ≢ pos 0 → node.new ≡ node.old }
{
    match neighbour_in(table, port as usize) {
        Some(Some(neighbour)) => {
            *node = neighbour as u32;
            0
        }
        Some(None) => NO_PORT,
        None => NOT_IN_ORDER,
    }
}

/// Writes the router's own address, of 42 bytes.
#[unsafe(no_mangle)]
pub extern "C" fn tz_address(table: &[u8], address: &mut [u8]) -> i32
    ensures { TellsAddress table.now address.old address.new result }
{
    match address_bytes(table, address) {
        Ok(()) => 0,
        Err(refused) => of_bytes(refused),
    }
}

/// Writes the packet, of 43 bytes, that the router sends to an address.
#[unsafe(no_mangle)]
pub extern "C" fn tz_launch(table: &[u8], address: &[u8], packet: &mut [u8]) -> i32
    ensures { TellsLaunch table.now address.now packet.old packet.new result }
{
    match launch_bytes(table, address, packet) {
        Ok(()) => 0,
        Err(refused) => of_bytes(refused),
    }
}

/// What the router does with a packet: 0 where it arrived, and 1 where `packet_out` goes on to `next`, the node behind `port`.
#[unsafe(no_mangle)]
pub extern "C" fn tz_hop(
    table: &[u8],
    packet_in: &[u8],
    packet_out: &mut [u8],
    port: &mut u32,
    next: &mut u32,
) -> i32
    ensures { TellsHop table.now packet_in.now (packet_out.old, port.old, next.old) (packet_out.new, port.new, next.new) result }
{
    match hop_bytes(table, packet_in, packet_out) {
        Ok(Hop::Delivered) => 0,
        Ok(Hop::Forward { port: by, next: to }) => {
            *port = by as u32;
            *next = to as u32;
            1
        }
        Err(refused) => of_bytes(refused),
    }
}
