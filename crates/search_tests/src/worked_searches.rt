// Trees and nearest landmarks of graphs whose distances are known.
use crate::calls::{expect_tree_in, member, near_of, reach_of};
use crate::drawn::{Edge, graph_of, nearest_of};
use crate::helpers::{got, same};
use distances::{Near, Nearest, Workspace};
use sample_networks::PATH;
use std::alloc::Global;
use std::process::Abort;

#[test]
fn reaches_from_the_middle_of_a_path(rt: HostRuntime) {
    let graph = graph_of(&rt, rt.alloc(), 5, &PATH);
    let reach = reach_of(&rt, rt.alloc(), &graph, 2);
    let want = [
        member(2, 0, None),
        member(1, 1, Some(2)),
        member(3, 1, Some(2)),
        member(0, 2, Some(1)),
        member(4, 2, Some(3)),
    ];
    same(&rt, reach.members(), want.as_slice(), "the members");
    same(&rt, (5..=9).contains(&reach.pops()), true, "the pops");
}

/// The weight of the edge 1-2 beside 0-1 of weight 1 and 0-2 of weight 2, and the distance and the parent of 2, from 1.
const PARENTS: [(u32, u64, u16); 4] = [(1, 1, 1), (2, 2, 1), (3, 3, 0), (4, 3, 0)];

#[test]
fn takes_the_smaller_of_two_parents(rt: HostRuntime) {
    for (weight, distance, parent) in &PARENTS {
        let edges = [(0, 1, 1), (0, 2, 2), (1, 2, *weight)];
        let graph = graph_of(&rt, rt.alloc(), 3, &edges);
        let reach = reach_of(&rt, rt.alloc(), &graph, 1);
        let found = reach.members().iter().find(|r| r.node == 2).copied();
        let want = Some(member(2, *distance, Some(*parent)));
        same(&rt, (*weight, found), (*weight, want), "node 2");
    }
    let graph = graph_of(&rt, rt.alloc(), 3, &[(0, 1, 1), (0, 2, 2)]);
    let reach = reach_of(&rt, rt.alloc(), &graph, 1);
    let want = [
        member(1, 0, None),
        member(0, 1, Some(1)),
        member(2, 3, Some(0)),
    ];
    same(&rt, reach.members(), want.as_slice(), "the members");
}

#[test]
fn a_shorter_walk_of_more_edges_wins(rt: HostRuntime) {
    let edges = [(0, 1, 10), (0, 2, 3), (2, 1, 4), (1, 3, 1)];
    let graph = graph_of(&rt, rt.alloc(), 4, &edges);
    let reach = reach_of(&rt, rt.alloc(), &graph, 0);
    let want = [
        member(0, 0, None),
        member(2, 3, Some(0)),
        member(1, 7, Some(2)),
        member(3, 8, Some(1)),
    ];
    same(&rt, reach.members(), want.as_slice(), "the members");
}

/// Sees that a node has this nearest landmark, at this distance.
fn expect_near(rt: &impl Abort, nearest: &Nearest, node: u16, landmark: u16, distance: u64) {
    let want = Some(Near { landmark, distance });
    same(
        rt,
        (node, near_of(rt, nearest, node)),
        (node, want),
        "the nearest landmark",
    );
}

#[test]
fn leaves_out_what_no_walk_reaches(rt: HostRuntime) {
    let alloc = rt.alloc();
    let graph = graph_of(&rt, alloc, 4, &[(0, 1, 5), (2, 3, 5)]);
    let reach = reach_of(&rt, alloc, &graph, 0);
    let want = [member(0, 0, None), member(1, 5, Some(0))];
    same(&rt, reach.members(), want.as_slice(), "the members");
    let nearest = nearest_of(&rt, alloc, &graph, &[true, false, false, false]);
    expect_near(&rt, &nearest, 0, 0, 0);
    expect_near(&rt, &nearest, 1, 0, 5);
    same(&rt, near_of(&rt, &nearest, 2), None, "apart");
    same(&rt, near_of(&rt, &nearest, 3), None, "apart");
}

#[test]
fn searches_a_single_node(rt: HostRuntime) {
    let alone = graph_of(&rt, rt.alloc(), 1, &[]);
    let reach = reach_of(&rt, rt.alloc(), &alone, 0);
    same(
        &rt,
        reach.members(),
        [member(0, 0, None)].as_slice(),
        "alone",
    );
    same(&rt, reach.pops(), 1, "alone");
    let nearest = nearest_of(&rt, rt.alloc(), &alone, &[false]);
    same(&rt, nearest.pops(), 0, "no landmark");
}

#[test]
fn takes_the_smaller_of_two_landmarks(rt: HostRuntime) {
    let alloc = rt.alloc();
    let graph = graph_of(&rt, alloc, 5, &PATH);
    let nearest = nearest_of(&rt, alloc, &graph, &[true, false, false, false, true]);
    expect_near(&rt, &nearest, 0, 0, 0);
    expect_near(&rt, &nearest, 1, 0, 1);
    expect_near(&rt, &nearest, 2, 0, 2);
    expect_near(&rt, &nearest, 3, 4, 1);
    expect_near(&rt, &nearest, 4, 4, 0);
    let distances = [Some(0u64), Some(1), Some(2), Some(1), Some(0)];
    same(&rt, nearest.distances(), distances.as_slice(), "distances");
    same(&rt, (5..=10).contains(&nearest.pops()), true, "pops");
    let none = nearest_of(&rt, alloc, &graph, &[false; 5]);
    for node in 0..5u16 {
        same(&rt, near_of(&rt, &none, node), None, "no landmark");
    }
}

/// Between any two of eight nodes an edge that is ten times as long as they are apart, or 1 between neighbours: from 0 each
/// node is offered ever better distances, so more entries wait than there are nodes.
fn crowded(rt: &impl Abort, alloc: Global) -> Vec<Edge> {
    let mut edges: Vec<Edge> = Vec::new(alloc);
    for b in 1..8u16 {
        for a in 0..b {
            let apart = (b - a) as u32;
            let weight = if apart == 1 { 1 } else { 10 * apart };
            got(rt, edges.push((a, b, weight)));
        }
    }
    edges
}

#[test]
fn one_workspace_serves_each_root_in_turn(rt: HostRuntime) {
    let alloc = rt.alloc();
    let graph = graph_of(&rt, alloc, 8, &crowded(&rt, alloc));
    let mut workspace = Workspace::new(alloc, graph.nodes()).expect(&rt, "memory");
    expect_tree_in(&rt, alloc, &mut workspace, &graph, 0);
    expect_tree_in(&rt, alloc, &mut workspace, &graph, 7);
    expect_tree_in(&rt, alloc, &mut workspace, &graph, 3);
    expect_tree_in(&rt, alloc, &mut workspace, &graph, 0);
    for there in workspace.members() {
        let (node, distance) = (there.reached.node, there.reached.distance);
        same(&rt, distance, node as u64, "a distance");
    }
    same(&rt, workspace.members().len(), 8, "the members");
}
