// The tables that a scheme holds.
use crate::entry::Entry;
use heavy_labels::Label;
pub use landmarks::Near;

/// A member of a root's tree, in the directory of that root.
#[derive(PartialEq, Eq, Debug, Drop)]
pub struct Listed {
    pub node: u16,
    /// The member's label in the tree of the directory's node.
    pub label: Label,
}

/// All that a scheme holds. A list of nodes has the place of each node at its number.
#[derive(PartialEq, Eq, Debug, Drop)]
pub struct Parts {
    /// The number of nodes.
    pub nodes: u16,
    pub generation: u64,
    /// Whether each node is a landmark.
    pub landmarks: Vec<bool>,
    /// The neighbours of each node: the k-th is behind port k.
    pub ports: Vec<Vec<u16>>,
    /// The nearest landmark of each node, where a landmark reaches it.
    pub nearest: Vec<Option<Near>>,
    /// Each node's entries, one for each root in whose tree it is.
    pub entries: Vec<Vec<Entry>>,
    /// The members of each node's own tree with their labels in it. A landmark keeps none.
    pub directories: Vec<Vec<Listed>>,
    /// Each node's label in the tree of its nearest landmark.
    pub homes: Vec<Option<Label>>,
}
