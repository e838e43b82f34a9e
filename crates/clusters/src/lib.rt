//! Clusters: the nodes that are nearer to a node than to every landmark.
//!
//! Let A be the landmarks, and w another node. A node v belongs to w's cluster where d(w, v) < d(A, v):
//! one that is as near to a landmark doesn't, and one that no landmark reaches counts as infinitely far
//! from them (Thorup and Zwick, Compact Routing Schemes). A compact routing scheme keeps a tree for each
//! cluster.
//!
//! The contract that the layers above use is that of [`cluster`]: the answer has exactly these
//! nodes, each with its distance from w and its parent, and the parent of a member is a member. The
//! search goes no further than the cluster, and the contract bounds its pops by the members' degrees.
//! [`cluster_in`] finds the same in a workspace that serves one search after another, with the ports of the tree.
//!
//! ```text
//! // 0 -1- 1 -1- 2 -1- 3 -1- 4, where 2 is the landmark
//! let nearest = from_landmarks(alloc, &graph, &landmarks)?;
//! cluster(alloc, &graph, &nearest, 3)?.members()      // 3 at 0, and 4 at 1 with parent 3
//! ```
#![tactic(auto)]

mod members;
mod search;

pub use members::Cluster;
pub use search::{cluster, cluster_in};
