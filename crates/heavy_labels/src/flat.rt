// Members that are numbered in their own order, without their tree.
ghost use Rattle.std.specs.Prelude.{◌≡◌, ◌<◌, ◌≤◌, ◌+◌, ◌^◌, IfOk, OnOk, Option, length, map, slice_index, get_or};
ghost use Rattle.route_tree.specs.Growth.{subtrees, first_or};
ghost use Rattle.route_tree.specs.Members.{AreMembers};
ghost use Rattle.route_tree.specs.Places.{HasPlaces};
ghost use Rattle.route_tree.specs.Rose.{Tree, tree_size};
ghost use Rattle.heavy_labels.specs.ByNode.{tree_of};
ghost use Rattle.heavy_labels.specs.FlatNumbers.{AreFlat, IsLabelAt, label_below, label_over, port_or_none, tree_brief};
ghost use Rattle.heavy_labels.specs.HeavyKids.{AreAheadTo, AreHeavy};
ghost use Rattle.heavy_labels.specs.Label.{Label};
ghost use Rattle.heavy_labels.specs.Measured.{AreMeasured};
ghost use Rattle.heavy_labels.specs.Numbered.{AreNumbersOf, seen};
ghost use Rattle.heavy_labels.specs.Numbering.{lights_at};

use crate::ahead::numbers_ahead;
use crate::by_node::places_by_node;
use crate::heavy_kids::heavy_children;
use crate::label::{Label, MOST_LIGHTS};
use crate::measured_tree::MeasuredTree;
use crate::numbered_member::{Numbered, NumberedMember};
use crate::sizes::{heavy_size, parents, sizes};
use crate::tree_record::Record;
use route_tree::Member;
use std::alloc::{AllocError, Allocator, Global};

/// The label of a child whose number is so far ahead, by its parent's.
fn child_label(over: &Label, ahead: u16, heavy: bool, down: Option<u16>) -> Label
    requires number { over.now.first + ahead < 2 ^ 16 }
    requires lights { length (lights_at heavy over.now.lights down) ≤ MOST_LIGHTS }
    ensures { result ≡ label_below over.now ahead heavy down }
{
    let first = over.first() + ahead;
    if heavy {
        return over.renumbered(first);
    }
    over.with_light(first, down.unwrap_or(0))
}

/// The label of the member at `at`, where all before it are listed.
fn label_at(out: &[NumberedMember], tree: &MeasuredTree<'_>, ahead: &[u16], at: usize) -> Label
    requires there { at < length tree.now.members.now }
    requires measured { AreMeasured tree.now.members.now tree.now.above.now tree.now.sizes.now tree.now.by_node.now }
    requires heavy { AreHeavy tree.now.members.now tree.now.by_node.now tree.now.heavy.now }
    requires ahead { AreAheadTo tree.now.members.now tree.now.by_node.now (length tree.now.by_node.now) ahead.now }
    requires flat { AreFlat tree.now.members.now tree.now.above.now tree.now.heavy.now ahead.now at (map seen out.now) }
    ensures { IsLabelAt tree.now.members.now tree.now.above.now tree.now.heavy.now ahead.now at
        (label_over tree.now.above.now (map seen out.now) at) result }
{
    if at == 0 {
        return Label::of(0, &[]);
    }
    let parent = tree.above[at] as usize;
    let is_heavy = tree.heavy[parent] as usize == at;
    child_label(
        &out[parent].label,
        ahead[at],
        is_heavy,
        tree.members[at].down,
    )
}

/// The port to a heavy child by the child's place, where 0 stands for no child.
fn heavy_port(members: &[Member], heavy: u16) -> Option<u16>
    requires { heavy < length members.now }
    ensures { result ≡ port_or_none members.now heavy }
{
    if heavy == 0 {
        return None;
    }
    members[heavy as usize].down
}

/// The member at `at` with its record and this label.
fn member_with(tree: &MeasuredTree<'_>, at: usize, label: Label) -> NumberedMember
    requires there { at < length tree.now.members.now }
    requires measured { AreMeasured tree.now.members.now tree.now.above.now tree.now.sizes.now tree.now.by_node.now }
    requires heavy { AreHeavy tree.now.members.now tree.now.by_node.now tree.now.heavy.now }
    requires fits { label.first + tree_size (tree_of tree.now.members.now at) ≤ length tree.now.members.now }
    ensures { seen result ≡ tree_brief (tree_of tree.now.members.now at) label }
{
    let member = tree.members[at];
    let first = label.first();
    let best = tree.heavy[at];
    let tree_record = Record {
        first,
        last: first + (tree.sizes[at] - 1),
        heavy_last: first + heavy_size(tree.sizes, best),
        light_depth: label.lights().len() as u8,
        parent_port: member.up,
        heavy_port: heavy_port(tree.members, best),
    };
    NumberedMember {
        node: member.node,
        tree_record,
        label,
    }
}

/// Lists the member at `at` behind those before it.
fn list_member(
    out: &mut Numbered,
    tree: &MeasuredTree<'_>,
    ahead: &[u16],
    at: usize,
) -> Result<(), AllocError>
    requires there { at < length tree.now.members.now }
    requires measured { AreMeasured tree.now.members.now tree.now.above.now tree.now.sizes.now tree.now.by_node.now }
    requires heavy { AreHeavy tree.now.members.now tree.now.by_node.now tree.now.heavy.now }
    requires ahead { AreAheadTo tree.now.members.now tree.now.by_node.now (length tree.now.by_node.now) ahead.now }
    requires flat { AreFlat tree.now.members.now tree.now.above.now tree.now.heavy.now ahead.now at
        (map seen out.old.items) }
    ensures { OnOk result (AreFlat tree.now.members.now tree.now.above.now tree.now.heavy.now ahead.now (at + 1)
        (map seen out.new.items)) }
{
    let label = label_at(out.as_slice(), tree, ahead, at);
    let member = member_with(tree, at, label);
    out.push(member)?;
    Ok(())
}

/// The record and the label of each member of a tree, in the order of the members, whose parents tell the tree: it is not
/// made. The places are those of the members' nodes. A few lists of numbers are made over the scratch and given back. The
/// time is that of sorting the nodes, and else linear in the members; nothing calls itself, however deep the tree.
pub fn number_members<A: Allocator + Clone>(
    alloc: Global,
    members: &[Member],
    places: &[u16],
    scratch: A,
) -> Result<Numbered, AllocError>
    requires members { AreMembers members.now }
    requires places { HasPlaces members.now places.now }
    ensures nodes { IfOk result (λ all. map (λ n. n.node) all.items ≡ map (λ m. m.node) members.now) }
    ensures numbers { IfOk result (λ all. (d : Tree)
        → AreNumbersOf (first_or d (subtrees members.now)) (map seen all.items)) }
{
    let above = parents(scratch.clone()?, members, places)?;
    let sizes = sizes(scratch.clone()?, members, &above)?;
    let by_node = places_by_node(scratch.clone()?, members, places)?;
    let heavy = heavy_children(scratch.clone()?, members, &above, &sizes, &by_node)?;
    let tree = MeasuredTree {
        members,
        above: above.as_slice(),
        sizes: sizes.as_slice(),
        heavy: heavy.as_slice(),
        by_node: by_node.as_slice(),
    };
    let ahead = numbers_ahead(scratch, &tree)?;
    let mut out = Vec::with_capacity(alloc, members.len())?;
    for at in 0..members.len() {
        list_member(&mut out, &tree, ahead.as_slice(), at)?;
    }
    Ok(out)
}
