//! Schemes: the tables by which nodes carry packets over at most three times the shortest way.
//!
//! A scheme has two levels, landmarks and clusters (after Thorup and Zwick, Compact Routing Schemes; the tables, the limits and
//! the order of refusals are this project's profile). Every node is the root of a tree. A landmark's tree has every node that it
//! reaches; any other node's tree has its cluster. A node keeps an entry for each tree that it is in. A node that is no landmark
//! also keeps a directory: the labels of its own tree. An address names a node, its nearest landmark, and the node's label in that
//! landmark's tree.
//!
//! The contract that the layers above use is that of [`scheme_laws`]: where all eight rules (`IsChecked` of `specs/Checks`) hold of a
//! scheme, it serves the graph (`Serves` of `specs/Service`, which names no tree, landmark or label, and whose trips go by ports of
//! the graph); and what holds of a packet on its way. `node_table` builds schemes that keep the rules, and `certificate` checks them.
//!
//! [`Scheme::assemble`] takes any tables, and takes no memory. All calls of a scheme are total for any tables. None takes memory
//! but [`Scheme::carry`], for its trail.
//!
//! ```text
//! let address = scheme.address(4)?;               // where node 4 is to be found
//! let packet = scheme.decide(0, &address)?;       // node 0 sends
//! scheme.node_step(0, &packet)?                   // Forward { port: 0, next: 1, packet }
//! ```
#![tactic(auto)]

mod entry;
mod key_columns;
mod laws;
mod packet;
mod parts;
mod ports;
mod readers;
mod rows;
mod scheme;
mod search;
mod trail;

pub use entry::Entry;
pub use laws::{graph_is_sound, scheme_laws};
pub use packet::{Address, Home, Move, Packet, Refused};
pub use parts::{Listed, Near, Parts};
pub use ports::port;
pub use rows::{NodeRows, move_from, packet_from};
pub use scheme::Scheme;
pub use trail::{CarryRefused, Trail};
