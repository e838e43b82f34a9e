//! Where things stand on a device, and the limit of its numbers.

use layout_reader::Sizes;
pub use layout_reader::layout::{EDGE_LEN, HEAD_LEN, HEADER_LEN, MAGIC, OPEN_GATE, SLOTS_START};

/// The greatest count of accepted changes, and the greatest epoch: 2^63 - 1.
pub use requests::WORN_LIMIT;

/// The layout that is described here.
pub const VERSION: [u8; 2] = *b"01";

/// The most nodes of a device's network.
pub const MOST_NODES: u16 = 4096;

/// The most edges of a device's network.
pub const MOST_EDGES: usize = 16_384;

/// The size of a checkpoint's area.
pub const CHECKPOINT_ROOM: usize = 135_168;

/// The size of a journal's area.
pub const JOURNAL_ROOM: usize = 1_048_576;

/// The size of a slot.
pub const SLOT_ROOM: usize = CHECKPOINT_ROOM + JOURNAL_ROOM;

/// The number of bytes of a device.
pub const DEVICE_LEN: usize = SLOTS_START + 2 * SLOT_ROOM;

/// These numbers, as the reader of `layout_reader` takes them. There are no tickets.
pub const SIZES: Sizes = Sizes {
    digit: VERSION[1],
    most_nodes: MOST_NODES,
    most_edges: MOST_EDGES,
    tickets_len: 0,
    checkpoint_room: CHECKPOINT_ROOM,
    journal_room: JOURNAL_ROOM,
};
