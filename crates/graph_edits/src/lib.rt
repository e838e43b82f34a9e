//! The network that the service routes in, and the changes that editors make to it.
//!
//! A `Graph` has nodes, numbered from 0, and undirected edges with whole weights, at most one between two nodes. It
//! changes only by a `Change`: 1 to 16 ops, each of which adds, sets or cuts one edge, made all together or not at all.
//! Contracts see a graph as a `Network`, the number of its nodes and a finite map from pairs of nodes to weights
//! (`specs/Edges.antt`), and a change by the map that it leaves or by the first of its ops that is refused
//! (`specs/Changes.antt`).
//!
//! The contract that the layer above uses: `Graph::apply` leaves what `after` says, or answers what it refuses, and then
//! the graph is as it was.
//!
//! A group of changes that is to be written to a device before the graph takes it goes in three steps. `Overlay::apply`
//! judges each change on top of those before it, and the graph isn't touched; `Graph::prepare` makes what the graph will
//! need, and may lack memory; `Graph::install` takes no memory and can't be refused.
//!
//! A node keeps one ascending list of its neighbours with the weights, and a port is a place in that list. So a look-up
//! halves a list, and a change costs work in the neighbours of the nodes that it names, whatever the size of the graph.
//!
//! ```
//! let mut graph = Graph::empty(alloc, 3)?;
//! let change = Change::new(&[Op::Add(0, 1, 5), Op::Add(1, 2, 7)])?;
//! graph.apply(&change)?;
//! graph.weight(2, 1); // Some(7)
//! graph.port_to(1, 2); // Some(1): the neighbours of 1 are 0 and 2
//! length_over(&graph, &[0, 1, 2]); // 12, along the edges between them
//! ```
//!
//! The walks, distances and neighbours that the crates above speak of are defined here too (`specs/Walks.antt`), with
//! their laws (`specs/Laws.antt`).
#![tactic(auto)]

mod edits;
mod graph;
mod laws;
mod lengths;
mod limits;
mod overlay;
mod prepared;
mod rows;
mod table;

pub use edits::{Change, Code, EditRefused, Op, Shape};
pub use graph::Graph;
pub use laws::limit_laws;
pub use lengths::length_over;
pub use limits::{GREATEST_WEIGHT, MOST_EDGES, MOST_NODES, MOST_OPS};
pub use overlay::Overlay;
pub use prepared::Prepared;
