//! Packets and addresses as bytes.
//!
//! Each number begins with its highest byte. A packet has [`PACKET_SIZE`] bytes and an address [`ADDRESS_SIZE`]:
//!
//! ```text
//! packet:  generation u64, destination u16, root u16, the label's number u16, hops left u16, ports
//! address: generation u64, node u16, flag u8 (1), landmark u16, the label's number u16, ports
//!          generation u64, node u16, and zeros to the end, where no landmark reaches the node
//! ports:   how many there are, u8, and a place u16 for each that a label has room for, 0 where it isn't used
//! ```
//!
//! The layout is this project's own; `src/layout.rt` names its sizes. The contract that the layers above use is that of
//! [`Wire`]: a value is written as its spelling (`specs/Spelling`), and bytes are read as a value whose spelling they are,
//! or are refused for the first thing that is wrong with them (`specs/Refusals`). That each spelling is read, as the one
//! value that it is of, is the contract of [`spelling_laws`]. No call takes memory. Whether a network has such nodes, and
//! such a way so many hops, isn't asked here.
//!
//! ```text
//! let bytes = packet.to_bytes();              // [u8; PACKET_SIZE]
//! let again = Packet::from_bytes(&bytes)?;    // the same packet
//! ```
#![tactic(auto)]

mod address;
mod digits;
mod fields;
mod laws;
mod layout;
mod packet;
mod ports;
mod text;
mod wire;

pub use digits::{HexError, bytes_in};
pub use laws::spelling_laws;
pub use layout::{ADDRESS_SIZE, PACKET_SIZE};
pub use text::{moved_text, packet_text, refused_name, told_text, unread_name};
pub use wire::{Wire, WireRefused};
