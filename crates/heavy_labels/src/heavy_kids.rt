// Which child of each member is the heavy one.
ghost use Rattle.std.specs.Prelude.{◌<◌, ◌+◌, IfOk, length, take};
ghost use Rattle.heavy_labels.specs.HeavyKids.{AreHeavy};
ghost use Rattle.heavy_labels.specs.Measured.{AreMeasured};

use crate::sizes::heavy_size;
use route_tree::Member;
use std::alloc::{AllocError, Allocator};

/// Meets the member that is the j-th by node: it is its parent's heavy child so far if it is heavier than that.
fn meet(
    heavy: &mut [u16],
    members: &[Member],
    above: &[u16],
    sizes: &[u16],
    by_node: &[u16],
    j: usize,
)
    requires there { j < length by_node.now }
    requires measured { AreMeasured members.now above.now sizes.now by_node.now }
    requires heavy { AreHeavy members.now (take j by_node.now) heavy.old }
    ensures { AreHeavy members.now (take (j + 1) by_node.now) heavy.new }
{
    let place = by_node[j];
    if place == 0 {
        return;
    }
    let parent = above[place as usize] as usize;
    if sizes[place as usize] > heavy_size(sizes, heavy[parent]) {
        heavy[parent] = place;
    }
}

/// The place of each member's heavy child, that of the greatest size, ties to the smaller node; 0 where it has none.
pub(crate) fn heavy_children<A: Allocator>(
    alloc: A,
    members: &[Member],
    above: &[u16],
    sizes: &[u16],
    by_node: &[u16],
) -> Result<Vec<u16, A>, AllocError>
    requires measured { AreMeasured members.now above.now sizes.now by_node.now }
    ensures { IfOk result (λ heavy. AreHeavy members.now by_node.now heavy.items) }
{
    let mut heavy = Vec::new(alloc);
    heavy.resize(members.len(), 0)?;
    for j in 0..by_node.len() {
        meet(heavy.as_mut_slice(), members, above, sizes, by_node, j);
    }
    Ok(heavy)
}
