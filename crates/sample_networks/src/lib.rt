//! Small networks for tests, written down as tables or drawn.
//!
//! # What it is
//!
//! A test writes a network down as a table of [`Edge`]s, and names its landmarks. [`graph_of`] makes the network of a table. [`words_at`]
//! are the landmark words that choose the named nodes and no others, and [`landmarks_at`] is that choice. [`PATH`], [`TRIANGLE`],
//! [`PAIRS`] and [`RING`] are tables that several tests work with. [`drawn_edges`] and [`drawn_nodes`] draw a table and the nodes of a
//! choice from a generator with a seed. A [`PlainGraph`] is a network by plain counts, against which tests hold weights, ports and
//! distances; no contract speaks of it.
//!
//! # The contract
//!
//! - [`graph_of`]: the network has exactly the edges of the table. Each row adds one, in order (`IsOfTable`, specs/Tables.antt), so there are
//!   as many edges as rows. A table of which a row adds none has no network, and that row is named.
//! - [`words_at`], [`landmarks_at`]: a named node is a landmark, and no other node is one (`words_at` and `flags_at`, specs/Named.antt).
//! - [`drawn_edges`], [`drawn_nodes`]: each edge is one between two of the nodes, at most one between any two, of a weight from 1 to the
//!   heaviest (`AreEdges`, specs/Drawn.antt); the nodes are some of them, each once (`AreNodes`). No contract says which they are: the
//!   generator's words decide.
//!
//! Where memory is refused, each call asks once more. So a test of which each allocation is refused in turn comes to what it tests.
//!
//! ```text
//! let path = graph_of(alloc, 5, &PATH)?;       // 0 - 1 - 2 - 3 - 4
//! let middle = landmarks_at(alloc, 5, &[2])?;  // node 2 alone
//! graph_of(alloc, 3, &PATH)                    // Err(Row { place: 2, .. }): there is no node 3
//! drawn_edges(alloc, &mut rng, 12, 9, (3, 10)) // of weights 1 to 9, between each two of 12 nodes by three chances of ten
//! ```
#![tactic(auto)]

mod drawn;
mod named;
mod plain;
mod samples;
mod tables;

pub use drawn::{Odds, drawn_edges, drawn_nodes};
pub use named::{landmarks_at, words_at};
pub use plain::PlainGraph;
pub use samples::{PAIRS, PATH, RING, TRIANGLE};
pub use tables::{Edge, TableRefused, graph_of};
