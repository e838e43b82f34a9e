// How far each member's number is ahead of its parent's.
ghost use Rattle.std.specs.Prelude.{◌<◌, ◌+◌, IfOk, length};
ghost use Rattle.heavy_labels.specs.HeavyKids.{AreAheadTo, AreBeside, AreHeavy};
ghost use Rattle.heavy_labels.specs.Measured.{AreMeasured};

use crate::measured_tree::MeasuredTree;
use crate::sizes::heavy_size;
use std::alloc::{AllocError, Allocator};

/// Notes how far the member that is the j-th by node is ahead of its parent. The heavy child is next to it; behind that one's
/// members come those of the others, of which so many were counted.
fn note_ahead(ahead: &mut [u16], beside: &mut [u16], tree: &MeasuredTree<'_>, j: usize)
    requires there { j < length tree.now.by_node.now }
    requires measured { AreMeasured tree.now.members.now tree.now.above.now tree.now.sizes.now tree.now.by_node.now }
    requires heavy { AreHeavy tree.now.members.now tree.now.by_node.now tree.now.heavy.now }
    requires beside { AreBeside tree.now.members.now tree.now.by_node.now j beside.old }
    requires ahead { AreAheadTo tree.now.members.now tree.now.by_node.now j ahead.old }
    ensures beside { AreBeside tree.now.members.now tree.now.by_node.now (j + 1) beside.new }
    ensures ahead { AreAheadTo tree.now.members.now tree.now.by_node.now (j + 1) ahead.new }
{
    let place = tree.by_node[j] as usize;
    if place == 0 {
        return;
    }
    let parent = tree.above[place] as usize;
    let best = tree.heavy[parent];
    if best as usize == place {
        ahead[place] = 1;
        return;
    }
    ahead[place] = 1 + heavy_size(tree.sizes, best) + beside[parent];
    beside[parent] += tree.sizes[place];
}

/// How far each member's number is ahead of its parent's.
pub(crate) fn numbers_ahead<A: Allocator + Clone>(
    alloc: A,
    tree: &MeasuredTree<'_>,
) -> Result<Vec<u16, A>, AllocError>
    requires measured { AreMeasured tree.now.members.now tree.now.above.now tree.now.sizes.now tree.now.by_node.now }
    requires heavy { AreHeavy tree.now.members.now tree.now.by_node.now tree.now.heavy.now }
    ensures { IfOk result (λ ahead.
        AreAheadTo tree.now.members.now tree.now.by_node.now (length tree.now.by_node.now) ahead.items) }
{
    let mut ahead = Vec::new(alloc.clone()?);
    ahead.resize(tree.members.len(), 0)?;
    let mut beside = Vec::new(alloc);
    beside.resize(tree.members.len(), 0)?;
    for j in 0..tree.by_node.len() {
        note_ahead(ahead.as_mut_slice(), beside.as_mut_slice(), tree, j);
    }
    Ok(ahead)
}
