ghost use Rattle.std.specs.Prelude.{◌≡◌, ◌≤◌, IfOk, IsPermutation, length, slice_index_or};
ghost use Rattle.route_tree.specs.Growth.{subtrees, first_or};
ghost use Rattle.route_tree.specs.Members.{AreMembers, members_of};
ghost use Rattle.route_tree.specs.Order.{in_order, HaveEachNodeOnce};
ghost use Rattle.route_tree.specs.Front.{IsInOrder};
ghost use Rattle.route_tree.specs.Rose.{Tree, tree_size};
ghost use Rattle.route_tree.specs.Shape.{IsRouteTree};
ghost use Rattle.route_tree.specs.declared.member.Member.{Member};

use crate::growth::grown;
use crate::heavy;
use crate::member::{MOST_MEMBERS, Member};
use crate::places::table_of;
use crate::twig::Twig;
use std::alloc::{AllocError, Allocator};
use std::marker::Model;

/// A route tree: its root, with all other members below it.
#[derive(Drop)]
pub struct RouteTree<A: Allocator> {
    root: Twig<A>,
}

impl<A: Allocator> Model for RouteTree<A> {
    ghost use Rattle.route_tree.specs.Rose.{Tree, coded_tree};
    ghost use Rattle.route_tree.specs.Shape.{IsRouteTree};

    ghost Value = { Tree };

    ghost coded = { coded_tree };

    ghost view = { λ a. a.root };

    ghost invariant = { λ a. IsRouteTree a.root };
}

impl<A: Allocator + Clone> RouteTree<A> {
    /// The tree of the given parents, grown from the farthest member up. Each member's children
    /// stand in the order of [`RouteTree::heavy_first`], so the tree depends on the members alone.
    /// Whether a list is one of members, [`crate::are_members`] tests.
    ///
    /// # Errors
    ///
    /// [`AllocError`] where `alloc` refused a growth. Nothing is left behind.
    pub fn grow(alloc: A, root: u16, members: &[Member]) -> Result<RouteTree<A>, AllocError>
        requires members { AreMembers members.now }
        requires root { (d : Member) → (slice_index_or members.now 0 d).node ≡ root }
        ensures tree { IfOk result (λ t. (d : Tree) → t ≡ first_or d (subtrees members.now)) }
        ensures each_once { IfOk result (λ t. IsPermutation members.now (members_of t)) }
        ensures size { IfOk result (λ t. tree_size t ≡ length members.now) }
    {
        prove_eq!(members[0].node, root);
        let places = table_of(alloc.clone()?, members)?;
        let grown = grown(alloc, members, places.as_slice())?;
        Ok(RouteTree { root: grown })
    }
}

impl<A: Allocator> RouteTree<A> {
    /// How many members the tree has.
    pub fn size(&self) -> usize
        ensures size { result ≡ tree_size self.now }
        ensures few { result ≤ MOST_MEMBERS }
    {
        self.root.size()
    }

    /// The root with all below it.
    pub fn root(&self) -> &Twig<A>
        ensures same { result.now ≡ self.now }
        ensures shape { IsRouteTree self.now }
    {
        &self.root
    }

    /// Puts the heavy child first, ties to the smaller node, and the others by ascending node. It
    /// takes no memory, and its time is that of a sort. The order is that of heavy paths in Thorup
    /// and Zwick, Compact Routing Schemes; the ties are this project's profile.
    pub fn heavy_first(children: &mut [Twig<A>])
        ensures same { IsPermutation children.old children.new }
        ensures order { IsInOrder children.new }
        ensures list { HaveEachNodeOnce children.old → children.new ≡ in_order children.old }
    {
        heavy::heavy_first(children);
    }
}
