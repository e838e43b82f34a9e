//! Schemes out of graphs: the tables by which nodes carry packets, built so that all rules hold of them.
//!
//! What a scheme is, how its tables are looked up, and what follows of its rules stands in the crate `schemes`. This crate hands it on.
//!
//! The contract that the layers above use is that of [`build`]: all eight rules (`IsChecked` of `schemes`) hold of the scheme, so it
//! serves the graph (`Serves` of `schemes`), with exactly the landmarks and the generation that were handed in.
//!
//! [`build`] grows each root's tree in an arena over the scratch, numbers it, and drops both before the next root. Trees are walked by
//! recursion: on a network of which trees may be deep it needs a thread with a large stack. [`build_by_lists`] has the same contract
//! and makes no tree: it numbers each root's members over a few flat lists, in less time and on any stack.
//!
//! A build over lists can be split by ranges of roots: [`build_between`] builds one range, [`PartialScheme::join`] joins two ranges
//! that meet, and [`PartialScheme::finish`] makes the scheme of all roots, under the contract of [`build`].
//!
//! ```text
//! let scheme = build(alloc, &graph, &landmarks, generation, &heap)?;
//! let address = scheme.address(4)?;               // where node 4 is to be found
//! let packet = scheme.decide(0, &address)?;       // node 0 sends
//! scheme.node_step(0, &packet)?                   // Forward { port: 0, next: 1, packet }
//! ```
#![tactic(auto)]

mod building;
mod columns;
mod numbering;
mod partial;
mod survey;

pub use building::{build, build_between, build_by_lists};
pub use partial::PartialScheme;
pub use schemes::{
    Address, CarryRefused, Entry, Home, Listed, Move, Near, NodeRows, Packet, Parts, Refused,
    Scheme, Trail, graph_is_sound, move_from, packet_from, port, scheme_laws,
};
pub use survey::Survey;
