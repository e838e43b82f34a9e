// A member of a tree with its ports.
use crate::reach::Reached;

/// A node of a tree, and the ports between it and its parent.
#[derive(Clone, Copy, Debug, PartialEq, Eq)]
pub struct Linked {
    /// The node, its distance from the root, and its parent.
    pub reached: Reached,
    /// The node's own port, towards its parent; none at the root.
    pub up: Option<u16>,
    /// Its parent's port, towards the node; none at the root.
    pub down: Option<u16>,
}
