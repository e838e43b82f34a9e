//! Where things stand on a device of layout 2, and the limits of its numbers.

use layout_reader::Sizes;
pub use layout_reader::layout::{EDGE_LEN, HEAD_LEN, HEADER_LEN, MAGIC, OPEN_GATE, SLOTS_START};
use requests::SESSIONS;

/// The greatest count of accepted changes, the greatest epoch and the greatest ticket: 2^63 - 1.
pub use requests::WORN_LIMIT;

/// The version that is described here.
pub const VERSION: [u8; 2] = *b"02";

/// The byte that closes a gate.
pub const CLOSED_GATE: u8 = 0;

/// The epoch of the first checkpoint.
pub const FIRST_EPOCH: u64 = 1;

/// The last ticket of a session, a `u64`.
pub const TICKET_LEN: usize = 8;

/// The last tickets of all sessions, which stand behind a checkpoint's head.
pub const TICKETS_LEN: usize = TICKET_LEN * SESSIONS;

/// What stands before a checkpoint's edges: head and tickets.
pub const EDGES_START: usize = HEAD_LEN + TICKETS_LEN;

/// The most nodes of a device's network.
pub const MOST_NODES: u16 = 16_384;

/// The most edges of a device's network.
pub const MOST_EDGES: usize = 65_536;

/// The size of a checkpoint's area.
pub const CHECKPOINT_ROOM: usize = 528_384;

/// The size of a journal's area.
pub const JOURNAL_ROOM: usize = 1_048_576;

/// The size of a slot: a checkpoint's area, and a journal's behind it.
pub const SLOT_ROOM: usize = CHECKPOINT_ROOM + JOURNAL_ROOM;

/// The number of bytes of a device.
pub const DEVICE_LEN: usize = SLOTS_START + 2 * SLOT_ROOM;

/// These numbers, as the reader of `layout_reader` takes them.
pub const SIZES: Sizes = Sizes {
    digit: VERSION[1],
    most_nodes: MOST_NODES,
    most_edges: MOST_EDGES,
    tickets_len: TICKETS_LEN,
    checkpoint_room: CHECKPOINT_ROOM,
    journal_room: JOURNAL_ROOM,
};
