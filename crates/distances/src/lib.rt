//! Least distances in a graph: from one root with the tree of parents, and from the nearest landmark.
//!
//! The distance of two nodes is the least length of all walks between them, and there is none where
//! no walk is. Nothing here rounds or estimates: each contract names all walks of the edge map.
//!
//! The contract that the layers above use is that of [`from_root`]: the answer has exactly the nodes
//! that a walk from the root reaches, each with its distance, in ascending order of distance and
//! then of node, and with its parent: of all neighbours whose own distance and the edge between make up
//! the node's, the one of the smallest number. [`from_landmarks`] gives each node its nearest landmark, the
//! smallest-numbered where several are as near. [`tree_within`] is [`from_root`] cut off at a limit
//! for each node; clusters are made of it.
//!
//! Whoever searches many times makes one [`Workspace`], whose lists serve one search after another:
//! [`Workspace::from_root`] and [`Workspace::tree_within`] cost what they touch, however many nodes the
//! graph has, and give each member the ports between it and its parent too. The free functions make a
//! workspace of their own.
//!
//! All run one search: Dijkstra's, over a binary heap that pops by distance and then by node. It notes the
//! parent of a node while it offers distances. Each search counts the entries that it popped, and the
//! contracts bound the count by the edges.
//!
//! ```text
//! // 0 -1- 1 -1- 2, and 0 -2- 2
//! let reach = from_root(alloc, &graph, 0)?;
//! reach.members()[2]      // Reached { node: 2, distance: 2, parent: Some(0) }
//! ```
#![tactic(auto)]

mod linked;
mod nearest;
mod reach;
mod search;
mod waiting;
mod workspace;

pub use landmarks::Near;
pub use linked::Linked;
pub use nearest::{Nearest, from_landmarks};
pub use reach::{Reach, Reached, from_root, tree_within};
pub use search::Settled;
pub use workspace::Workspace;
