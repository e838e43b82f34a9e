use heavy_labels::Record;

/// A router's place in the tree of a root.
#[derive(Clone, Copy, PartialEq, Eq, Debug)]
pub struct TreeEntry {
    pub root: u16,
    pub tree_record: Record,
}
