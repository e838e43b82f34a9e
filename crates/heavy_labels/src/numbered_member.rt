use crate::label::Label;
use crate::tree_record::Record;

/// A member of a tree with its record and its label.
#[derive(PartialEq, Debug, Drop)]
pub struct NumberedMember {
    /// The member's node.
    pub node: u16,
    /// Its record.
    pub tree_record: Record,
    /// Its label.
    pub label: Label,
}

/// The members of a tree in preorder: the i-th has number i.
pub type Numbered = Vec<NumberedMember>;
