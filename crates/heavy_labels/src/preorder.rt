ghost use Rattle.std.specs.Prelude.{◌≡◌, ◌≤◌, ◌++◌, OnOk, IfOk, length, map, []};
ghost use Rattle.heavy_labels.specs.Numbered.{AreNumbersOf, HasFewLights, HasRoom, IsNumberedFrom, LeadsEverywhere, brief, head_brief, seen, tree_briefs};
ghost use Rattle.heavy_labels.specs.Numbering.{lights_at, tree_lines};
ghost use Rattle.route_tree.specs.Rose.{tree_size};

use crate::label::{Label, MOST_LIGHTS, copied};
use crate::numbered_member::{Numbered, NumberedMember};
use crate::tree_record::Record;
use arrayvec::ArrayVec;
use route_tree::{RouteTree, Twig};
use std::alloc::{AllocError, Allocator, Global};

/// The light ports of a child: those of its parent, and at a light child the parent's port to it, which take the place of
/// what the room held.
fn child_lights<'a>(
    lights: &'a [u16],
    heavy: bool,
    down: Option<u16>,
    room: &'a mut ArrayVec<u16, MOST_LIGHTS>,
) -> &'a [u16]
    requires { length (lights_at heavy lights.now down) ≤ MOST_LIGHTS }
    ensures { result.now ≡ lights_at heavy lights.now down }
{
    if heavy {
        return lights;
    }
    *room = copied(lights);
    room.push(down.unwrap_or(0));
    room.as_slice()
}

/// The member at a twig, with the number `first` and the light ports `lights`.
fn member_at<A: Allocator>(twig: &Twig<A>, first: u16, lights: &[u16]) -> NumberedMember
    requires room { HasRoom twig.now first lights.now }
    ensures { seen result ≡ brief twig.now.node twig.now.up twig.now.down twig.now.below first lights.now }
{
    let (heavy_last, heavy_port) = match twig.children().first() {
        Some(heavy) => (first + heavy.size() as u16, heavy.down()),
        None => (first, None),
    };
    let tree_record = Record {
        first,
        last: first + (twig.size() - 1) as u16,
        heavy_last,
        light_depth: lights.len() as u8,
        parent_port: twig.up(),
        heavy_port,
    };
    NumberedMember {
        node: twig.node(),
        tree_record,
        label: Label::of(first, lights),
    }
}

/// Lists a twig's member and then, child by child, all below it.
fn visit<A: Allocator>(
    twig: &Twig<A>,
    first: u16,
    lights: &[u16],
    out: &mut Numbered,
) -> Result<(), AllocError>
    requires room { HasRoom twig.now first lights.now }
    ensures { OnOk result (map seen out.new.items ≡ map seen out.old.items ++ tree_briefs twig.now first lights.now) }
{
    out.push(member_at(twig, first, lights))?;
    let mut next = first as u32 + 1;
    let children = twig.children();
    let mut room = ArrayVec::new();
    for (i, child) in children.iter().enumerate() {
        let ports = child_lights(lights, i == 0, child.down(), &mut room);
        visit(child, next as u16, ports, out)?;
        next += child.size() as u32;
    }
    Ok(())
}

/// The record and the label of each member of a tree, in preorder: its numbers are 0, 1, and so on.
/// Between any two members the steps by the second one's label, at the records listed here, follow the
/// tree path from the first to the second and end there. Nothing of the tree's allocator stays in the
/// list, whose memory is asked for at once. The time is linear in the members times the greatest light
/// depth.
pub fn number<A: Allocator>(alloc: Global, tree: &RouteTree<A>) -> Result<Numbered, AllocError>
    ensures listed { IfOk result (λ all. map seen all.items ≡ tree_briefs tree.now 0 []) }
    ensures each { IfOk result (λ all. length all.items ≡ tree_size tree.now) }
    ensures in_order { IfOk result (λ all. IsNumberedFrom 0 (map seen all.items)) }
    ensures heads { IfOk result (λ all. map seen all.items ≡ map head_brief (tree_lines tree.now)) }
    ensures leads { IfOk result (λ all. LeadsEverywhere tree.now (map seen all.items)) }
    ensures few { IfOk result (λ all. HasFewLights (map seen all.items)) }
    ensures numbers { IfOk result (λ all. AreNumbersOf tree.now (map seen all.items)) }
{
    let root = tree.root();
    let mut out = Vec::with_capacity(alloc, root.size())?;
    visit(root, 0, &[], &mut out)?;
    Ok(out)
}
