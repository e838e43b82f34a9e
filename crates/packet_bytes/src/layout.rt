//! The sizes of packets and addresses: each is named here once. Behind the last number stand the label's ports: their number,
//! one byte, and a place for each that a label has room for.
use heavy_labels::MOST_LIGHTS;

/// The number of ports, and the places for them.
pub(crate) const PORTS_SIZE: usize = 1 + 2 * MOST_LIGHTS;

/// A packet: its generation, four numbers, and the ports.
pub const PACKET_SIZE: usize = 8 + 4 * 2 + PORTS_SIZE;

/// An address from its flag on: the flag, two numbers, and the ports.
pub(crate) const HOME_SIZE: usize = 1 + 2 * 2 + PORTS_SIZE;

/// An address: its generation, its node, and these.
pub const ADDRESS_SIZE: usize = 8 + 2 + HOME_SIZE;

/// The flag before a landmark. Where an address has none, the flag and all bytes behind it are 0.
pub(crate) const LANDMARK_FLAG: u8 = 1;
