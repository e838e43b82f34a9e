ghost use Rattle.std.specs.Prelude.{◌≡◌, ◌<◌, length, IsPermutation};
ghost use Rattle.std.specs.List.Sorted.{IsNonDecreasingBy};
ghost use Rattle.route_tree.specs.Order.{ascending, HaveEachNodeOnce};
ghost use Rattle.route_tree.specs.Front.{heavy_to_front, IsHeavy, IsInOrder};

use crate::twig::Twig;
use std::alloc::Allocator;

/// Sorts trees by node.
fn sort_by_node<A: Allocator>(trees: &mut [Twig<A>])
    ensures same { IsPermutation trees.old trees.new }
    ensures ascending { IsNonDecreasingBy (λ t. t.node) trees.new }
{
    if trees.len() > 1 {
        trees.sort_unstable_by_key(|tree| tree.node());
    }
}

/// The place of the first of the heaviest trees.
fn heaviest<A: Allocator>(children: &[Twig<A>]) -> usize
    requires some { 0 < length children.now }
    ensures { IsHeavy children.now result }
{
    let mut best = 0;
    let mut most = children[0].size();
    for i in 1..children.len() {
        let size = children[i].size();
        if size > most {
            best = i;
            most = size;
        }
    }
    best
}

/// Puts the heavy child in front; the others keep their order.
fn front<A: Allocator>(children: &mut [Twig<A>])
    ensures { children.new ≡ heavy_to_front children.old }
{
    if children.len() > 1 {
        let heavy = heaviest(children);
        let part = &mut children[..heavy + 1];
        part.rotate_right(1);
    }
}

/// Orders children: the heavy one comes first, behind it the others as their nodes ascend.
pub fn heavy_first<A: Allocator>(children: &mut [Twig<A>])
    ensures same { IsPermutation children.old children.new }
    ensures order { IsInOrder children.new }
    ensures list { HaveEachNodeOnce children.old → children.new ≡ heavy_to_front (ascending children.old) }
{
    sort_by_node(children);
    front(children);
}
