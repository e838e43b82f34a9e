//! Certificates: whether a scheme is one for a graph.
//!
//! A scheme may have been built here, or assembled of tables from anywhere. [`check`] tests it against a graph by eight rules, and names the first
//! that it breaks. It builds no tree, takes no memory but 448 KiB of a thread's stack, and ends on every scheme.
//!
//! | Fault | Rule |
//! |---|---|
//! | K1 Shape | every list has its places, ports are the graph's, entries ascend by root, parents have entries |
//! | K2 Edges | over every edge an entry leads to one that is no farther, or to where a landmark is as near |
//! | K3 Parents | an entry's distance is its parent's and the edge, the first of all neighbours that gives it |
//! | K4 Strict | who is in a cluster's tree is nearer to its root than to the nearest landmark |
//! | K5 Nearest | a nearest landmark is the least of the entries for landmarks |
//! | K6 Records | every record is that of the tree that the parents give |
//! | K7 Labels | every label is that of its tree |
//! | K8 Directories | directories list exactly the members of their trees, homes go with nearest landmarks |
//!
//! A swift pass goes root by root over all entries for a root, and tests Shape, Edges, Parents, Strict and Records of each at once, in one pass over
//! the ports of its node; and then the root's directory and the labels there. Entries ascend by root, so the next entry of a node stands at a place
//! that goes along, and none is searched for. What the nodes have for a root is gathered first, one entry a node, so that a neighbour's lies near.
//! What the pass takes for right is right. Where it finds a fault, each rule is tested by itself in its order, node by node, so that the first that
//! is broken is named. A record is tested against those of its children, which are neighbours: one pass over the ports, from the last to the first,
//! counts them through and finds the widest. The port to a parent is tested at each entry itself. A label of a directory is tested against the one of
//! its node's parent there, so that all are right from the root down; a home label by a climb from its node, which meets the label's light ports from
//! the last to the first. That these tests are the rules is proved: the trees, records and labels are those of Thorup and Zwick, Compact Routing
//! Schemes, in this project's profile.
//!
//! [`check_in_threads`] gives the same answer by several workers, each over some ranges of the roots.
//!
//! The contract that the layers above use is that of [`check`]: Ok exactly where all rules hold, a fault exactly where it is the first that fails,
//! and what passes carries every packet to its destination over a walk at most three times as long as the shortest.
//!
//! ```text
//! match check(&graph, &scheme) {
//!     Ok(()) => ..              // the scheme serves the graph
//!     Err(fault) => ..          // "{fault}" is K1 to K8
//! }
//! ```
#![tactic(auto)]

mod checks;
mod directories;
mod edges;
mod fault;
mod in_threads;
mod labels;
mod nearest;
mod places;
mod records;
mod shape;
mod swift;

pub use checks::check;
pub use fault::Fault;
pub use in_threads::check_in_threads;
