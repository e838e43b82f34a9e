// Clusters of drawn graphs by the definition, and those of the longest path.
use crate::calls::cluster_of;
use crate::drawn::{Edge, drawn_edges, drawn_flags, graph_of, nearest_of, path_of};
use crate::helpers::{got, same};
use crate::slow::{at, bellman_ford, distances_from};
use clusters::Cluster;
use graph_edits::MOST_NODES;
use rand_core::SeedableRng;
use rand_xoshiro::Xoshiro256PlusPlus;
use std::alloc::Global;
use std::process::Abort;

/// The definition: a node's distance from the centre, if that is less than the one from the landmarks, where none is the farthest.
fn member_distance(from_center: Option<u64>, from_landmarks: Option<u64>) -> Option<u64> {
    match (from_center, from_landmarks) {
        (Some(d), Some(e)) if d >= e => None,
        _ => from_center,
    }
}

/// The distance of a member of a cluster, if the node is one.
fn found_distance(cluster: &Cluster, node: u16) -> Option<u64> {
    let member = cluster.members().iter().find(|r| r.node == node).copied();
    member.map(|r| r.distance)
}

/// Sees that the members of a cluster are those of the definition, at these distances from the centre and from the landmarks.
fn expect_defined(
    rt: &impl Abort,
    found: &Cluster,
    from_center: &[Option<u64>],
    from_landmarks: &[Option<u64>],
) {
    let mut members: usize = 0;
    for node in 0..10u16 {
        let want = member_distance(at(from_center, node), at(from_landmarks, node));
        let distance = found_distance(found, node);
        same(rt, (node, distance), (node, want), "a member's distance");
        members = members.saturating_add(if want.is_some() { 1 } else { 0 });
    }
    same(rt, found.members().len(), members, "the members");
}

#[test]
fn agrees_with_the_definition_on_drawn_graphs(rt: HostRuntime) {
    let alloc = rt.alloc();
    let mut rng = Xoshiro256PlusPlus::seed_from_u64(3);
    for _ in 0..200u32 {
        let edges = drawn_edges(&rt, alloc, &mut rng, 10);
        let flags = drawn_flags(&rt, alloc, &mut rng, 10, 4);
        expect_clusters(&rt, alloc, &edges, &flags);
    }
}

/// Sees that the cluster of each of ten nodes that is no landmark is that of the definition.
fn expect_clusters(rt: &impl Abort, alloc: Global, edges: &[Edge], flags: &[bool]) {
    let graph = graph_of(rt, alloc, 10, edges);
    let nearest = nearest_of(rt, alloc, &graph, flags);
    let from_landmarks = bellman_ford(rt, alloc, edges, flags);
    for center in 0..10u16 {
        if flags.get(center as usize).copied() == Some(false) {
            let from_center = distances_from(rt, alloc, edges, 10, center);
            let found = cluster_of(rt, alloc, &graph, &nearest, center);
            expect_defined(rt, &found, &from_center, &from_landmarks);
        }
    }
}

/// How many nodes a cluster of the longest path has, counted by the distances on a line: each 64th node is a landmark, the
/// first is 63. So no member is as far as 64 from the centre.
fn members_on_the_line(center: u16) -> usize {
    let mut members: usize = 0;
    for node in center.saturating_sub(64)..center.saturating_add(65).min(MOST_NODES) {
        let behind = if node < 63 {
            MOST_NODES
        } else {
            node.saturating_sub(63) % 64
        };
        let ahead = 63 - node % 64;
        if node.abs_diff(center) < behind.min(ahead) {
            members = members.saturating_add(1);
        }
    }
    members
}

/// Sees that a cluster of the longest path has as many members as on the line, strictly between the landmarks.
fn expect_on_the_line(rt: &impl Abort, found: &Cluster, center: u16) {
    let members = found.members();
    let many = members_on_the_line(center);
    same(rt, (center, members.len()), (center, many), "members");
    for r in members {
        let between = r.node / 64 == center / 64 && r.node % 64 != 63;
        same(rt, (center, between), (center, true), "between landmarks");
    }
    same(rt, (center, found.pops() <= 127), (center, true), "pops");
}

// The centres lie 61 apart, so that each place between two landmarks is tried.
#[test]
fn finds_clusters_all_along_the_longest_path(rt: HostRuntime) {
    let alloc = rt.alloc();
    let graph = graph_of(&rt, alloc, MOST_NODES, &path_of(&rt, alloc, MOST_NODES));
    let mut flags = Vec::new(alloc);
    for node in 0..MOST_NODES {
        got(&rt, flags.push(node % 64 == 63));
    }
    let nearest = nearest_of(&rt, alloc, &graph, &flags);
    for center in (0..MOST_NODES).step_by(61) {
        if center % 64 != 63 {
            let found = cluster_of(&rt, alloc, &graph, &nearest, center);
            expect_on_the_line(&rt, &found, center);
        }
    }
}
