use route_tree::Member;

/// What is known of the members of a tree before they are numbered: a list has the place of each member at its place.
#[derive(Clone, Copy)]
pub(crate) struct MeasuredTree<'a> {
    /// The members, the root first.
    pub(crate) members: &'a [Member],
    /// The place of each member's parent.
    pub(crate) above: &'a [u16],
    /// How many members each member has at and below it.
    pub(crate) sizes: &'a [u16],
    /// The place of each member's heavy child, 0 where it has no child.
    pub(crate) heavy: &'a [u16],
    /// The places of the members, in ascending order of their nodes.
    pub(crate) by_node: &'a [u16],
}
