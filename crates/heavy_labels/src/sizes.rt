// Where the members' parents stand, and how many members each member's tree has.
ghost use Rattle.std.specs.Prelude.{◌≡◌, ◌<◌, ◌+◌, IfOk, length};
ghost use Rattle.route_tree.specs.Members.{AreMembers};
ghost use Rattle.route_tree.specs.Places.{HasPlaces};
ghost use Rattle.heavy_labels.specs.Sizes.{AreParents, AreSizes, size_or_none};

use route_tree::{Member, parent_place};
use std::alloc::{AllocError, Allocator};

/// The place of each member's parent, and 0 for the root.
pub(crate) fn parents<A: Allocator>(
    alloc: A,
    members: &[Member],
    places: &[u16],
) -> Result<Vec<u16, A>, AllocError>
    requires members { AreMembers members.now }
    requires places { HasPlaces members.now places.now }
    ensures { IfOk result (λ above. AreParents members.now above.items) }
{
    let mut above = Vec::new(alloc);
    above.reserve_exact(members.len())?;
    above.push(0)?;
    for i in 1..members.len() {
        above.push(parent_place(places, members, i) as u16)?;
    }
    Ok(above)
}

/// Counts the member at `at`, with all below it, into its parent's size.
fn add_size(sizes: &mut [u16], members: &[Member], above: &[u16], at: usize)
    requires below_root { 0 < at }
    requires there { at < length members.now }
    requires members { AreMembers members.now }
    requires above { AreParents members.now above.now }
    requires length { length sizes.old ≡ length members.now }
    requires sizes { AreSizes members.now (at + 1) sizes.old }
    ensures length { length sizes.new ≡ length members.now }
    ensures sizes { AreSizes members.now at sizes.new }
{
    let place = above[at] as usize;
    sizes[place] += sizes[at];
}

/// Of each member how many it is with all below it.
pub(crate) fn sizes<A: Allocator>(
    alloc: A,
    members: &[Member],
    above: &[u16],
) -> Result<Vec<u16, A>, AllocError>
    requires members { AreMembers members.now }
    requires above { AreParents members.now above.now }
    ensures length { IfOk result (λ sizes. length sizes.items ≡ length members.now) }
    ensures sizes { IfOk result (λ sizes. AreSizes members.now 1 sizes.items) }
{
    let mut sizes = Vec::new(alloc);
    sizes.resize(members.len(), 1)?;
    let mut left = members.len();
    while left > 1 {
        left -= 1;
        add_size(sizes.as_mut_slice(), members, above, left);
    }
    Ok(sizes)
}

/// The size of a heavy child's tree by the child's place, where 0 stands for no child.
pub(crate) fn heavy_size(sizes: &[u16], heavy: u16) -> u16
    requires { heavy < length sizes.now }
    ensures { result ≡ size_or_none sizes.now heavy }
{
    if heavy == 0 {
        return 0;
    }
    sizes[heavy as usize]
}
