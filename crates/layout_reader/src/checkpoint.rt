//! What is read of the slot in use before its records.

use crate::heads::Chosen;
use graph_edits::Graph;

/// The slot in use, and the network and the tickets of its checkpoint.
#[derive(Drop)]
pub(crate) struct Checkpoint<T: Copy + Drop> {
    pub(crate) chosen: Chosen,
    pub(crate) graph: Graph,
    pub(crate) tickets: T,
}
