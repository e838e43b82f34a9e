//! What all layouts have in common: places and sizes at the front of a device and of a slot.

/// Magic, version and number of nodes.
pub const HEADER_LEN: usize = 10;

/// The first bytes of a device.
pub const MAGIC: [u8; 6] = *b"TZNODE";

/// The byte of an open gate; each other byte is closed.
pub const OPEN_GATE: u8 = 1;

/// What stands before a checkpoint's edges or tickets: gate, epoch, count, number of nodes and number of edges.
pub const HEAD_LEN: usize = 23;

/// An edge: its two nodes and its weight.
pub const EDGE_LEN: usize = 8;

/// Where the two slots begin, one behind the other.
pub const SLOTS_START: usize = 4096;
