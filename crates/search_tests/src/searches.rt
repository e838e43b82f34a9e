// Trees and nearest landmarks beside the slow searches, and the longest path.
use crate::calls::{near_of, reach_of};
use crate::drawn::{Edge, below, drawn_edges, drawn_flags, graph_of, nearest_of, path_of};
use crate::helpers::{got, same};
use crate::slow::{at, distances_from, nearest_by_each, parent_by_edges, scanned};
use distances::{Nearest, Reached};
use graph_edits::MOST_NODES;
use rand_core::SeedableRng;
use rand_xoshiro::Xoshiro256PlusPlus;
use std::alloc::Global;
use std::process::Abort;

/// The tree of least distances from a root, as both slow searches find it.
fn slow_tree(
    rt: &impl Abort,
    alloc: Global,
    edges: &[Edge],
    nodes: u16,
    root: u16,
) -> Vec<Reached> {
    let distances = distances_from(rt, alloc, edges, nodes, root);
    let order = scanned(rt, alloc, edges, nodes, root);
    let found = distances.iter().filter(|d| d.is_some()).count();
    same(rt, order.len(), found, "the slow searches differ");
    let mut tree = Vec::new(alloc);
    for (node, distance) in order.as_slice() {
        let slow = at(&distances, *node);
        same(rt, slow, Some(*distance), "the slow searches differ");
        let reached = Reached {
            node: *node,
            distance: *distance,
            parent: parent_by_edges(edges, &distances, *node, *distance),
        };
        got(rt, tree.push(reached));
    }
    tree
}

#[test]
fn agrees_with_slow_searches_on_drawn_graphs(rt: HostRuntime) {
    let alloc = rt.alloc();
    let mut rng = Xoshiro256PlusPlus::seed_from_u64(1);
    for _ in 0..200u32 {
        let edges = drawn_edges(&rt, alloc, &mut rng, 12);
        let root = below(&mut rng, 12);
        let want = slow_tree(&rt, alloc, &edges, 12, root);
        let graph = graph_of(&rt, alloc, 12, &edges);
        let reach = reach_of(&rt, alloc, &graph, root);
        same(&rt, reach.members(), want.as_slice(), "a tree");
    }
}

#[test]
fn agrees_with_a_search_from_each_landmark(rt: HostRuntime) {
    let alloc = rt.alloc();
    let mut rng = Xoshiro256PlusPlus::seed_from_u64(2);
    for _ in 0..200u32 {
        let edges = drawn_edges(&rt, alloc, &mut rng, 10);
        let flags = drawn_flags(&rt, alloc, &mut rng, 10, 3);
        let want = nearest_by_each(&rt, alloc, &edges, 10, &flags);
        let graph = graph_of(&rt, alloc, 10, &edges);
        let nearest = nearest_of(&rt, alloc, &graph, &flags);
        expect_nearest(&rt, &nearest, &want);
    }
}

/// Sees that each node has this nearest landmark at this distance.
fn expect_nearest(rt: &impl Abort, nearest: &Nearest, want: &[Option<(u16, u64)>]) {
    same(rt, want.len(), 10, "ten nodes");
    for (node, near) in (0..10u16).zip(want.iter()) {
        let found = near_of(rt, nearest, node).map(|n| (n.landmark, n.distance));
        same(rt, (node, found), (node, *near), "a nearest landmark");
    }
}

// Of the longest path, and of one of 4,096 nodes.
#[test]
fn measures_long_paths(rt: HostRuntime) {
    let alloc = rt.alloc();
    for nodes in [4_096u16, MOST_NODES] {
        let graph = graph_of(&rt, alloc, nodes, &path_of(&rt, alloc, nodes));
        let reach = reach_of(&rt, alloc, &graph, 0);
        let (count, end) = (nodes as usize, nodes.saturating_sub(1));
        let last = Reached {
            node: end,
            distance: end as u64 * 1_000_000,
            parent: Some(end.saturating_sub(1)),
        };
        let found = (reach.members().len(), reach.members().last().copied());
        same(&rt, found, (count, Some(last)), "a long path");
        let few = (count as u64..2 * count as u64).contains(&reach.pops());
        same(&rt, (reach.pops(), few), (reach.pops(), true), "pops");
    }
}
