// Why there is no trail.
use thiserror::Error;

/// Why there is no trail between two nodes, in the order in which it is found.
#[derive(Clone, Copy, Debug, PartialEq, Eq, Drop, Error)]
pub enum NoTrail {
    /// A node isn't below the number of nodes.
    #[error("no node")]
    NoNode = 1,
    /// No walk leads from the one to the other.
    #[error("unreachable")]
    Unreachable = 2,
    /// There was no memory for the searches or the trail.
    #[error("out of memory")]
    Memory = 3,
}
