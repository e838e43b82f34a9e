// Two ways to number the members of a root's tree, under one contract.
ghost use Rattle.std.specs.Prelude.{◌≡◌, IfOk, map};
ghost use Rattle.heavy_labels.specs.Numbered.{AreNumbersOf, seen};
ghost use Rattle.route_tree.specs.Growth.{subtrees, first_or};
ghost use Rattle.route_tree.specs.Members.{AreMembers};
ghost use Rattle.route_tree.specs.Places.{HasPlaces};
ghost use Rattle.route_tree.specs.Rose.{Tree};

use bumpalo::Bump;
use heavy_labels::{Numbered, number, number_members};
use route_tree::{Member, RouteTree};
use std::alloc::{AllocError, Allocator, Global};

/// How the members of a root's tree are numbered: by any way they get the records and labels of that tree, so a scheme is the same
/// by each. What a way takes of its scratch is given back before it answers.
pub(crate) trait Numbering {
    /// The records and labels of the members, in any order. The places are those of the members' nodes.
    fn numbered(
        &self,
        alloc: Global,
        members: &[Member],
        places: &[u16],
    ) -> Result<Numbered, AllocError>
        requires members { AreMembers members.now }
        requires places { HasPlaces members.now places.now }
        ensures { IfOk result (λ all. (d : Tree)
            → AreNumbersOf (first_or d (subtrees members.now)) (map seen all.items)) };
}

/// By trees: a root's tree is grown in an arena of its own over the scratch, its records and labels are copied out, and both are
/// dropped. Trees are numbered and dropped by recursion, so a deep one needs a large stack.
#[derive(Drop)]
pub(crate) struct ByTrees<A: Allocator> {
    pub(crate) scratch: A,
}

impl<A: Allocator + Clone> Numbering for ByTrees<A> {
    fn numbered(
        &self,
        alloc: Global,
        members: &[Member],
        _places: &[u16],
    ) -> Result<Numbered, AllocError> {
        let arena = Bump::new(self.scratch.clone()?);
        let tree = RouteTree::grow(&arena, members[0].node, members)?;
        number(alloc, &tree)
    }
}

/// Over lists, and without a tree: the lists lie in an arena of their own over the scratch, and both are dropped. Nothing calls
/// itself, so any stack will do.
#[derive(Drop)]
pub(crate) struct ByLists<A: Allocator> {
    pub(crate) scratch: A,
}

impl<A: Allocator + Clone> Numbering for ByLists<A> {
    fn numbered(
        &self,
        alloc: Global,
        members: &[Member],
        places: &[u16],
    ) -> Result<Numbered, AllocError> {
        let arena = Bump::new(self.scratch.clone()?);
        number_members(alloc, members, places, &arena)
    }
}
