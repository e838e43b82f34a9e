// Route trees: by hand, and the greatest of each form under each allocator; and scratches from too small to large enough, in which what is
// refused leaves nothing behind, and a build by trees has one tree at a time.
use crate::helpers::{Edge, Network, PATH, STACK_LEN, Words, got, heap_of, same};
use crate::numbers::apart;
use bumpalo::Bump;
use linked_list_allocator::LocalHeap;
use rand_core::Rng;
use route_tree::{Member, RouteTree, are_members};
use std::alloc::{AllocError, Allocator, Global};
use std::process::Abort;
use std::thread;

pub(crate) fn root(node: u16) -> Member {
    Member {
        node,
        parent: None,
        up: None,
        down: None,
    }
}

pub(crate) fn below(parent: u16, node: u16, up: u16, down: u16) -> Member {
    Member {
        node,
        parent: Some(parent),
        up: Some(up),
        down: Some(down),
    }
}

/// Root 2 with the children 1 and 3, 1 with the child 0, 3 with the child 4: a path 0 - 1 - 2 - 3 - 4.
pub(crate) fn five() -> [Member; 5] {
    [
        root(2),
        below(2, 1, 1, 0),
        below(2, 3, 0, 1),
        below(1, 0, 0, 0),
        below(3, 4, 0, 1),
    ]
}

/// Below node i hang 2i + 1 and 2i + 2. Ports go by ascending neighbours.
pub(crate) fn in_pairs(i: u16) -> Member {
    match i {
        0 => root(0),
        1 | 2 => below(0, i, 0, i - 1),
        _ => below((i - 1) / 2, i, 0, 2 - i % 2),
    }
}

/// 0 - 1 - 2 - .., the root at its end.
pub(crate) fn on_path(i: u16) -> Member {
    match i {
        0 => root(0),
        1 => below(0, 1, 0, 0),
        _ => below(i - 1, i, 0, 1),
    }
}

/// A star round the greatest node, its leaves from the greatest down.
pub(crate) fn on_star(i: u16) -> Member {
    let leaf = 16_383u16.saturating_sub(i);
    if i == 0 {
        root(leaf)
    } else {
        below(16_383, leaf, 0, leaf)
    }
}

/// So many members, each by its place.
pub(crate) fn listed<F: Fn(u16) -> Member>(
    rt: &impl Abort,
    alloc: Global,
    n: u16,
    member_at: F,
) -> Vec<Member>
    requires { F.IsAlwaysCallable member_at }
{
    got(rt, (0..n).map(|i| member_at(i)).collect(alloc))
}

/// A drawn tree of nodes in no order: each member but the first hangs on an earlier one, by a drawn port.
pub(crate) fn drawn(rt: &impl Abort, alloc: Global, rng: &mut Words) -> Vec<Member> {
    let nodes = 1 + rng.next_u64() % 60;
    let mask = (rng.next_u64() % 65_536) as u16;
    let near = 1 + rng.next_u64() % 8;
    let mut all = got(rt, vec![in alloc; root(mask)]);
    for i in 1..nodes {
        let back = 1 + rng.next_u64() % i.min(near);
        let place = (i - back.min(i)) as usize;
        let Some(parent) = all.get(place) else {
            break;
        };
        let parent = parent.node;
        let node = mask ^ (i as u16).reverse_bits() ^ i as u16;
        let down = (rng.next_u64() % 65_536) as u16;
        got(rt, all.push(below(parent, node, 0, down)));
    }
    all
}

/// The tree of these members, grown in a scratch, or that it is too small.
pub(crate) fn grown<A: Allocator + Clone>(
    rt: &impl Abort,
    alloc: Global,
    scratch: A,
    members: &[Member],
) -> Result<RouteTree<A>, AllocError> {
    let fit = are_members(alloc, members).expect(rt, "memory");
    assert!(rt; fit);
    RouteTree::grow(scratch, members[0].node, members)
}

/// A member's node, its ports up and down, its size, and how many children it has.
type Seen = (u16, Option<u16>, Option<u16>, usize, usize);

/// Sees that a tree has these members: by their depth, and each one's children one after another.
fn expect_seen<A: Allocator>(rt: &impl Abort, alloc: Global, tree: &RouteTree<A>, want: &[Seen]) {
    let mut line = got(rt, vec![in alloc; tree.root()]);
    for (i, want) in want.iter().enumerate() {
        let twig = *got(rt, line.get(i).ok_or("no more members"));
        let (up, down) = (twig.up(), twig.down());
        let found = (twig.node(), up, down, twig.size(), twig.children().len());
        same(rt, found, *want, "a member");
        for child in twig.children() {
            got(rt, line.push(child));
        }
    }
    let sizes = (tree.size(), line.len());
    same(rt, sizes, (want.len(), want.len()), "the sizes");
}

/// Sees the same of the tree under each allocator. A heap has all back.
fn expect_under_each(rt: &impl Abort, alloc: Global, members: &[Member], want: &[Seen]) {
    expect_seen(rt, alloc, &got(rt, grown(rt, alloc, alloc, members)), want);
    let heap = heap_of(rt, alloc, STACK_LEN);
    expect_seen(rt, alloc, &got(rt, grown(rt, alloc, &heap, members)), want);
    same(rt, heap.used(), 0, "the heap");
    let bump = Bump::new(&heap);
    expect_seen(rt, alloc, &got(rt, grown(rt, alloc, &bump, members)), want);
}

/// The path 0 - 1 - 2 - 3 - 4 seen from node 2, where node 1 is heavy by the tie.
const FIVE: [Seen; 5] = [
    (2, None, None, 5, 2),
    (1, Some(1), Some(0), 2, 1),
    (3, Some(0), Some(1), 2, 1),
    (0, Some(0), Some(0), 1, 0),
    (4, Some(0), Some(1), 1, 0),
];

#[test]
fn path_of_five(rt: HostRuntime) {
    expect_under_each(&rt, rt.alloc(), &five(), &FIVE);
}

/// Of 16,383 members in pairs one. They come in the order of their nodes, and at each depth have half the members of the one before.
fn seen_in_pairs(i: u16) -> Seen {
    let (Member { up, down, .. }, depth) = (in_pairs(i), (i as u32 + 1).ilog2());
    let size = (16_384usize >> depth).saturating_sub(1);
    (i, up, down, size, if size > 1 { 2 } else { 0 })
}

/// Of a star its middle, and then its leaves in ascending order.
fn seen_on_star(i: u16) -> Seen {
    match i {
        0 => (16_383, None, None, 16_384, 16_383),
        _ => (i - 1, Some(0), Some(i - 1), 1, 0),
    }
}

fn seen_on_path(i: u16) -> Seen {
    let (Member { up, down, .. }, size) = (on_path(i), 16_384usize.saturating_sub(i as usize));
    (i, up, down, size, (size > 1) as usize)
}

#[test]
fn same_tree_under_each_allocator(rt: HostRuntime) {
    let (rt, alloc) = (&rt, rt.alloc());
    let pairs: Vec<Seen> = got(rt, (0..16_383u16).map(seen_in_pairs).collect(alloc));
    expect_under_each(rt, alloc, &listed(rt, alloc, 16_383, in_pairs), &pairs);
    let star: Vec<Seen> = got(rt, (0..16_384u16).map(seen_on_star).collect(alloc));
    expect_under_each(rt, alloc, &listed(rt, alloc, 16_384, on_star), &star);
}

/// A tree as deep as may be, grown, walked and dropped on a stack of 64 MiB.
#[test]
fn deepest_path(rt: HostRuntime) {
    let (rt, alloc) = (&rt, rt.alloc());
    let members = listed(rt, alloc, 16_384, on_path);
    let path: Vec<Seen> = got(rt, (0..16_384u16).map(seen_on_path).collect(alloc));
    let handle = got(rt, rt.clone());
    let thread = thread::Builder::new().stack_size(STACK_LEN);
    let started = thread.spawn(rt, move || {
        expect_under_each(&handle, alloc, &members, &path)
    });
    got(rt, started).join(rt);
}

const HALF: Member = Member {
    node: 1,
    parent: Some(0),
    up: Some(0),
    down: None,
};

/// Whether these are the members of one tree.
fn fit(rt: &impl Abort, alloc: Global, members: &[Member]) -> bool {
    got(rt, are_members(alloc, members))
}

#[test]
fn no_members_of_a_tree(rt: HostRuntime) {
    let (rt, alloc) = (&rt, rt.alloc());
    let rows: [&[Member]; 8] = [
        &[],
        &[below(1, 0, 0, 0)],
        &[root(0), root(1)],
        &[root(0), root(0)],
        &[root(0), below(0, 1, 0, 0), below(0, 1, 0, 0)],
        &[root(0), below(1, 1, 0, 0)],
        &[root(0), below(2, 1, 0, 0), below(0, 2, 0, 0)],
        &[root(0), HALF],
    ];
    for (i, row) in rows.iter().enumerate() {
        same(rt, (i, fit(rt, alloc, row)), (i, false), "a row");
    }
    let two = [root(65_535), below(65_535, 7, 3, 4)];
    same(rt, fit(rt, alloc, &two), true, "two members");
    for (count, fits) in [(16_384u16, true), (16_385, false)] {
        let path = listed(rt, alloc, count, on_path);
        let found = (count, fit(rt, alloc, &path));
        same(rt, found, (count, fits), "a path");
    }
}

/// The parents of members below root 5, and their nodes: 9 and 7 have two more each, 8 has one, 4 and 1 none.
const TUFTS: [[u16; 10]; 2] = [
    [5, 5, 5, 5, 5, 9, 9, 7, 7, 8],
    [9, 4, 7, 8, 1, 19, 29, 17, 27, 18],
];

/// Its children with their sizes, in the right order: of the two heaviest the smaller node goes first.
const HEAVY_FIRST: [(u16, usize); 5] = [(7, 3), (1, 1), (4, 1), (8, 2), (9, 3)];

#[test]
fn heavy_first_by_hand(rt: HostRuntime) {
    let (rt, alloc) = (&rt, rt.alloc());
    let mut members = got(rt, vec![in alloc; root(5)]);
    for (parent, node) in TUFTS[0].iter().zip(TUFTS[1].iter()) {
        got(rt, members.push(below(*parent, *node, 0, *node)));
    }
    let tree = got(rt, grown(rt, alloc, alloc, &members));
    let children = tree.root().children();
    same(rt, children.len(), 5, "the children");
    for (child, want) in children.iter().zip(HEAVY_FIRST.iter()) {
        same(rt, (child.node(), child.size()), *want, "a child");
    }
}

/// What is made of the members over a heap.
enum Made {
    Tree,
    Numbers,
}

/// Whether a heap of so many bytes is enough for what is made of these members. It is empty again behind it, and behind a refusal.
fn is_made_in(
    rt: &impl Abort,
    alloc: Global,
    made: &Made,
    size: usize,
    members: &[Member],
) -> bool {
    let heap = heap_of(rt, alloc, size);
    let held = match made {
        Made::Tree => grown(rt, alloc, &heap, members).map_or(0, |tree| tree.size()),
        Made::Numbers => apart(rt, alloc, members, &heap).map_or(0, |all| all.len()),
    };
    same(rt, heap.used(), 0, "the heap");
    held == members.len()
}

/// What is made, of how many members, how much larger each heap is, and how many heaps are too small at least.
const HEAPS: [(Made, u16, usize, usize); 4] = [
    (Made::Tree, 15, 64, 10),
    (Made::Tree, 4095, 8_192, 8),
    (Made::Numbers, 15, 16, 10),
    (Made::Numbers, 4095, 1_024, 40),
];

#[test]
fn each_growth_refused(rt: HostRuntime) {
    let (rt, alloc) = (&rt, rt.alloc());
    for (made, n, step, least) in &HEAPS {
        let members = listed(rt, alloc, *n, in_pairs);
        let fits = |count: &usize| {
            let size = step.saturating_mul(*count);
            is_made_in(rt, alloc, made, size, &members)
        };
        let refused = (1..128usize).filter(|count| !fits(count)).count();
        let first = (1..128usize).position(|count| fits(&count));
        same(rt, first, Some(refused), "none before was enough");
        assert!(rt; *least < refused);
    }
}

/// How many nodes the star has. All are landmarks, so each root's tree has them all.
const STAR: u16 = 512;

/// Whether a heap has room for two of the star's trees at once, each in an arena of its own.
fn holds_two(rt: &impl Abort, alloc: Global, heap: &LocalHeap, members: &[Member]) -> bool {
    let (first, second) = (Bump::new(heap), Bump::new(heap));
    let _one = got(rt, grown(rt, alloc, &first, members));
    grown(rt, alloc, &second, members).is_ok()
}

/// A heap that is too small for two trees is enough for all, as each root's tree and its arena are dropped before the next root's is grown, and after
/// the build it has all back. One arena that keeps all trees has no room in that heap, and one tree none in a heap of a few bytes.
#[test]
fn one_tree_at_a_time(rt: HostRuntime) {
    let (rt, alloc) = (&rt, rt.alloc());
    let members = listed(rt, alloc, STAR, |i| match i {
        0 => root(0),
        _ => below(0, i, 0, i - 1),
    });
    let large = heap_of(rt, alloc, 1_048_576);
    let arena = Bump::new(&large);
    let _tree = got(rt, grown(rt, alloc, &arena, &members));
    let room = large.used();
    let heap = heap_of(rt, alloc, room.saturating_add(room / 2));
    let found = holds_two(rt, alloc, &heap, &members);
    same(rt, (found, heap.used()), (false, 0), "two trees");
    let edges: Vec<Edge> = got(rt, (1..STAR).map(|leaf| (0, leaf, 1)).collect(alloc));
    let star = Network::of(rt, alloc, STAR, &edges);
    let all: Vec<u16> = got(rt, (0..STAR).collect(alloc));
    assert!(rt; star.by_trees(rt, &all, &heap).is_ok());
    same(rt, heap.used(), 0, "the heap");
    let arena = Bump::new(&heap);
    assert!(rt; star.by_trees(rt, &all, &arena).is_err());
    let small = heap_of(rt, alloc, 64);
    assert!(rt; star.by_trees(rt, &all, &small).is_err());
}

/// How many bytes a scratch has, and whether that is enough for the scheme of the path.
const SCRATCHES: [(usize, bool); 4] = [(64, false), (448, false), (4096, true), (1_048_576, true)];

/// A scratch that is too small is refused, and all that was taken of it is given back.
#[test]
fn builds_over_a_scratch_that_is_enough(rt: HostRuntime) {
    let (rt, alloc) = (&rt, rt.alloc());
    let path = Network::of(rt, alloc, 5, &PATH);
    for (size, enough) in &SCRATCHES {
        let heap = heap_of(rt, alloc, *size);
        let scheme = path.by_trees(rt, &[2], &heap);
        let found = (*size, scheme.is_ok(), heap.used());
        same(rt, found, (*size, *enough, 0), "a heap");
    }
}
