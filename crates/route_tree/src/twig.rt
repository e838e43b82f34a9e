ghost use Rattle.std.specs.Prelude.{◌≡◌, ◌+◌, ◌<◌, ◌^◌};
ghost use Rattle.route_tree.specs.Rose.{Tree, tree, tree_size, of_list, count};

use std::alloc::Allocator;
use std::marker::Model;

/// A member of a tree with all that hangs below it. It keeps how many members that are.
#[derive(Drop)]
pub struct Twig<A: Allocator> {
    node: u16,
    up: Option<u16>,
    down: Option<u16>,
    children: Vec<Twig<A>, A>,
    size: usize,
}

impl<A: Allocator> Model for Twig<A> {
    ghost use Rattle.std.specs.Prelude.{◌≡◌, ◌+◌};
    ghost use Rattle.route_tree.specs.Rose.{Tree, tree, of_list, count, coded_tree, tree_size, most_size};
    ghost use Rattle.std.proofs.Common.{arith};

    ghost Value = { Tree };

    ghost coded = { coded_tree };

    ghost view = { λ a. tree a.node a.up a.down (of_list a.children.items) };

    ghost invariant = { λ a. a.size ≡ 1 + count (of_list a.children.items) };

    ghost size = { tree_size };

    ghost size_decreases = { λ a h. omega (arith, most_size a.children.items) };
}

impl<A: Allocator> Twig<A> {
    /// A member with the trees that hang on it, in time linear in these.
    pub fn new(node: u16, up: Option<u16>, down: Option<u16>, children: Vec<Twig<A>, A>) -> Twig<A>
        requires fits { count (of_list children.items) < usize.MAX }
        ensures { result ≡ tree node up down (of_list children.items) }
    {
        let mut size = 1;
        for child in &children {
            size += child.size();
        }
        Twig {
            node,
            up,
            down,
            children,
            size,
        }
    }

    /// The member's node.
    pub fn node(&self) -> u16
        ensures { result ≡ self.now.node }
    {
        self.node
    }

    /// The port at this node to its parent; none at the root.
    pub fn up(&self) -> Option<u16>
        ensures { result ≡ self.now.up }
    {
        self.up
    }

    /// The parent's port to this node; none at the root.
    pub fn down(&self) -> Option<u16>
        ensures { result ≡ self.now.down }
    {
        self.down
    }

    /// The trees that hang on this member.
    pub fn children(&self) -> &[Twig<A>]
        ensures { of_list result.now ≡ self.now.below }
    {
        self.children.as_slice()
    }

    /// How many members this one and all below it are.
    pub fn size(&self) -> usize
        ensures { result ≡ tree_size self.now }
    {
        self.size
    }
}
