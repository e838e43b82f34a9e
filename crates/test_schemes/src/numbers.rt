// Records, labels and steps: of worked trees, of the largest, and of drawn ones against paths found by climbing parents; and members
// that are numbered without their tree. The numbers of the tree of five are bytes in conformance/tables.txt.
use crate::helpers::{STACK_LEN, Words, got, heap_of, label, same};
use crate::trees::{below, drawn, five, grown, in_pairs, listed, on_path, on_star, root};
use bumpalo::Bump;
use heavy_labels::{Numbered, NumberedMember, Record, TreeStep, number, number_members, step};
use rand_core::SeedableRng;
use route_tree::{Member, are_members, table_of};
use std::alloc::{AllocError, Allocator, Global};
use std::process::Abort;
use std::thread;

/// The numbers of members without their tree, each in its place, made over a scratch.
pub(crate) fn apart<A: Allocator + Clone>(
    rt: &impl Abort,
    alloc: Global,
    members: &[Member],
    scratch: A,
) -> Result<Numbered, AllocError> {
    let fit = are_members(alloc, members)?;
    assert!(rt; fit);
    let places = table_of(alloc, members)?;
    number_members(alloc, members, &places, scratch)
}

/// The numbers of members by their tree, and those without it, made over a scratch.
fn both<A: Allocator + Clone>(
    rt: &impl Abort,
    alloc: Global,
    members: &[Member],
    scratch: A,
) -> (Numbered, Numbered) {
    let again = got(rt, scratch.clone());
    let tree = got(rt, grown(rt, alloc, scratch, members));
    let apart = got(rt, apart(rt, alloc, members, again));
    (got(rt, number(alloc, &tree)), apart)
}

/// The numbers of the tree of these members, the same under each allocator, with their tree and without it.
fn numbered(rt: &impl Abort, alloc: Global, members: &[Member]) -> Numbered {
    let all = both(rt, alloc, members, alloc);
    same(rt, all.0.len(), members.len(), "the members");
    same(rt, all.1.len(), members.len(), "the members without a tree");
    for (found, member) in all.1.iter().zip(members.iter()) {
        same(rt, found.node, member.node, "a node");
        let want = all.0.get(found.label.first() as usize);
        same(rt, found, got(rt, want.ok_or("no number")), "a member");
    }
    let heap = heap_of(
        rt,
        alloc,
        members.len().saturating_mul(4_096).max(1_048_576),
    );
    let held = both(rt, alloc, members, &heap);
    same(rt, all == held, true, "in a heap");
    same(rt, heap.used(), 0, "the heap");
    let bump = Bump::new(&heap);
    let bumped = both(rt, alloc, members, &bump);
    same(rt, all == bumped, true, "in an arena");
    all.0
}

/// The record and the label of a member.
fn of_node<'a>(rt: &impl Abort, all: &'a Numbered, node: u16) -> &'a NumberedMember {
    let found = all.iter().find(|m| m.node == node);
    got(rt, found.ok_or("no such member"))
}

/// What a step answers, and the number of its refusal.
const NUMBERS: [(TreeStep, Option<u8>); 4] = [
    (TreeStep::Arrived, None),
    (TreeStep::NoParent, Some(1)),
    (TreeStep::NoLight, Some(2)),
    (TreeStep::Port(1), None),
];

/// A node, a label's number and its light ports, and the step.
const STEPS: [(u16, u16, &[u16], TreeStep); 6] = [
    (2, 4, &[1], TreeStep::Port(1)),
    (2, 1, &[], TreeStep::Port(0)),
    (1, 4, &[1], TreeStep::Port(1)),
    (2, 4, &[], TreeStep::NoLight),
    (2, 9, &[], TreeStep::NoParent),
    (4, 4, &[1], TreeStep::Arrived),
];

#[test]
fn steps_of_five_nodes(rt: HostRuntime) {
    let (rt, alloc) = (&rt, rt.alloc());
    for (step, number) in &NUMBERS {
        same(rt, step.refusal(), *number, "a refusal");
    }
    let all = numbered(rt, alloc, &five());
    for (node, first, lights, want) in &STEPS {
        let at = of_node(rt, &all, *node);
        let found = step(&at.tree_record, &label(*first, lights));
        same(rt, (*node, *first, found), (*node, *first, *want), "a step");
    }
}

/// Root 5 with the children 9, 1, 4 and 7; below 1 and 7 hangs one more each. Of the two heaviest 1 is the smaller node, and next to
/// the root, wherever the search found it.
fn tie() -> [Member; 7] {
    [
        root(5),
        below(5, 9, 0, 10),
        below(5, 7, 0, 11),
        below(5, 1, 0, 12),
        below(5, 4, 0, 13),
        below(7, 0, 0, 20),
        below(1, 8, 0, 30),
    ]
}

/// By their numbers: a node, its last number, the heavy child's last, and the light ports.
const TIE: [(u16, u16, u16, &[u16]); 7] = [
    (5, 6, 2, &[]),
    (1, 2, 2, &[]),
    (8, 2, 2, &[]),
    (4, 3, 3, &[13]),
    (7, 5, 5, &[11]),
    (0, 5, 5, &[11]),
    (9, 6, 6, &[10]),
];

#[test]
fn numbers_a_tie_by_the_smaller_node(rt: HostRuntime) {
    let (rt, alloc) = (&rt, rt.alloc());
    let all = numbered(rt, alloc, &tie());
    same(rt, all.len(), 7, "the members");
    for (first, (found, want)) in all.iter().zip(TIE.iter()).enumerate() {
        let record = &found.tree_record;
        let lasts = (record.last, record.heavy_last);
        let found = (found.node, lasts.0, lasts.1, found.label.lights());
        let numbers = (record.first as usize, found);
        same(rt, numbers, (first, *want), "a member");
    }
}

/// One node, two, and a star of as many as there may be.
#[test]
fn numbers_the_smallest_trees_and_a_star(rt: HostRuntime) {
    let (rt, alloc) = (&rt, rt.alloc());
    numbered(rt, alloc, &[root(65_535)]);
    numbered(rt, alloc, &[root(65_535), below(65_535, 0, 65_535, 65_534)]);
    numbered(rt, alloc, &listed(rt, alloc, 16_384, on_star));
}

/// The light ports of the last of 16,383 members in pairs. The last of 4,095 has the first eleven.
const THIRTEEN: [u16; 13] = [1, 2, 2, 2, 2, 2, 2, 2, 2, 2, 2, 2, 2];

/// How many members there are in pairs, and how many light ports the last one's label has: at the most as many as a label may have.
const IN_PAIRS: [(u16, usize); 2] = [(4_095, 11), (16_383, 13)];

#[test]
fn the_last_of_all_pairs_has_the_most_lights(rt: HostRuntime) {
    let (rt, alloc) = (&rt, rt.alloc());
    for (count, lights) in IN_PAIRS {
        let all = numbered(rt, alloc, &listed(rt, alloc, count, in_pairs));
        let node = count.saturating_sub(1);
        let last = of_node(rt, &all, node);
        let wanted = label(node, got(rt, THIRTEEN.get(..lights).ok_or("lights")));
        same(rt, &last.label, &wanted, "the last label");
        let found = (last.label.lights().len(), last.tree_record.light_depth);
        same(rt, found, (lights, lights as u8), "the light ports");
    }
}

/// How many members of a path have their node as number, no light port, and the path's end as last.
fn plain_members(all: &Numbered, last: u16) -> usize {
    all.iter()
        .enumerate()
        .filter(|(i, m)| m.node as usize == *i
            && m.tree_record.first == m.node
            && m.tree_record.last == last
            && m.tree_record.light_depth == 0
            && m.label.lights().is_empty())
        .count()
}

/// Without its tree the path is numbered on any stack.
#[test]
fn a_long_path_has_no_light_port(rt: HostRuntime) {
    let (rt, alloc) = (&rt, rt.alloc());
    for count in [4_096u16, 16_384] {
        let last = count.saturating_sub(1);
        let members = listed(rt, alloc, count, on_path);
        let apart = got(rt, apart(rt, alloc, &members, alloc));
        let apart = plain_members(&apart, last);
        let handle = got(rt, rt.clone());
        let thread = thread::Builder::new().stack_size(STACK_LEN);
        let started = thread.spawn(rt, move || {
            plain_members(&numbered(&handle, alloc, &members), last)
        });
        let found = (apart, got(rt, started).join(rt));
        same(rt, found, (count as usize, count as usize), "plain members");
    }
}

/// The last number of a record whose first is 3, its parent port and its heavy port, and whether there is such a record.
const RECORDS: [(u16, Option<u16>, Option<u16>, bool); 4] = [
    (4, None, Some(0), true),
    (3, Some(2), None, true),
    (4, None, None, false),
    (3, None, Some(0), false),
];

#[test]
fn records_by_hand_and_copies_of_labels(rt: HostRuntime) {
    let rt = &rt;
    for (last, parent_port, heavy_port, fits) in &RECORDS {
        let record = Record::new(3, *last, *last, 1, *parent_port, *heavy_port);
        same(rt, (*last, record.is_some()), (*last, *fits), "a record");
    }
    let one = label(7, &[3, 1]);
    same(rt, &one.copy(), &one, "a copy");
    same(rt, one.copy() == label(7, &[3]), false, "a port less");
    same(rt, one.copy() == label(8, &[3, 1]), false, "another number");
    same(rt, one.first(), 7, "the number");
}

/// The step at the node x towards v: by climbing from v, down to the child of x on the way, or else up.
fn climbed(members: &[Member], x: &Member, v: &Member) -> TreeStep {
    let mut at = v;
    for _ in 0..members.len() {
        if at.node == x.node {
            return TreeStep::Arrived;
        }
        let Some(parent) = at.parent else {
            break;
        };
        if parent == x.node {
            return at.down.map_or(TreeStep::NoLight, TreeStep::Port);
        }
        let Some(above) = members.iter().find(|m| m.node == parent) else {
            break;
        };
        at = above;
    }
    x.up.map_or(TreeStep::NoParent, TreeStep::Port)
}

/// Sees that the steps between all members of a tree are those that are found by climbing.
fn expect_climbed(rt: &impl Abort, all: &Numbered, members: &[Member]) {
    for x in members {
        let at = of_node(rt, all, x.node);
        for v in members {
            let found = step(&at.tree_record, &of_node(rt, all, v.node).label);
            let want = climbed(members, x, v);
            let found = (x.node, v.node, found);
            same(rt, found, (x.node, v.node, want), "a step");
        }
    }
}

#[test]
fn steps_follow_the_paths_of_300_drawn_trees(rt: HostRuntime) {
    let (rt, alloc) = (&rt, rt.alloc());
    let mut rng = Words::seed_from_u64(23);
    for _ in 0..300 {
        let members = drawn(rt, alloc, &mut rng);
        let all = numbered(rt, alloc, &members);
        expect_climbed(rt, &all, &members);
    }
}
