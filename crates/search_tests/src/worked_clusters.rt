// Clusters of graphs whose distances are known.
ghost use Rattle.std.specs.Prelude.{◌≡◌, length};
ghost use Rattle.distances.specs.Nearest.{AreNearest};

use crate::calls::{cluster_of, expect_members, found_in, member, reach_of};
use crate::drawn::{graph_of, nearest_of};
use crate::helpers::same;
use distances::{Nearest, Reached, Workspace};
use graph_edits::Graph;
use sample_networks::{PATH, TRIANGLE};
use std::alloc::Global;
use std::process::Abort;

/// Sees that the cluster of a node has these members, and answers how many entries its search popped.
fn expect_cluster(
    rt: &impl Abort,
    alloc: Global,
    graph: &Graph,
    nearest: &Nearest,
    center: u16,
    want: &[Reached],
) -> u64
    requires nodes { length nearest.now.nearest ≡ graph.now.nodes }
    requires nearest { AreNearest graph.now.edges nearest.now.nearest }
{
    let found = cluster_of(rt, alloc, graph, nearest, center);
    same(rt, found.members(), want, "a cluster");
    found.pops()
}

#[test]
fn clusters_of_a_path(rt: HostRuntime) {
    let alloc = rt.alloc();
    let graph = graph_of(&rt, alloc, 5, &PATH);
    let nearest = nearest_of(&rt, alloc, &graph, &[false, false, true, false, false]);
    let of_1 = [member(1, 0, None), member(0, 1, Some(1))];
    let of_3 = [member(3, 0, None), member(4, 1, Some(3))];
    expect_cluster(&rt, alloc, &graph, &nearest, 0, &[member(0, 0, None)]);
    expect_cluster(&rt, alloc, &graph, &nearest, 1, &of_1);
    let pops = expect_cluster(&rt, alloc, &graph, &nearest, 3, &of_3);
    same(&rt, (2..=4).contains(&pops), true, "pops");
    expect_cluster(&rt, alloc, &graph, &nearest, 4, &[member(4, 0, None)]);
    let mut workspace = Workspace::new(alloc, graph.nodes()).expect(&rt, "memory");
    found_in(&rt, &mut workspace, &graph, &nearest, 3);
    expect_members(&rt, &workspace, &graph, &of_3);
    found_in(&rt, &mut workspace, &graph, &nearest, 1);
    expect_members(&rt, &workspace, &graph, &of_1);
}

#[test]
fn a_node_as_near_to_the_landmark_is_no_member(rt: HostRuntime) {
    let alloc = rt.alloc();
    let graph = graph_of(&rt, alloc, 3, &TRIANGLE);
    let nearest = nearest_of(&rt, alloc, &graph, &[true, false, false]);
    let of_1 = [member(1, 0, None), member(2, 1, Some(1))];
    expect_cluster(&rt, alloc, &graph, &nearest, 1, &of_1);
    expect_cluster(&rt, alloc, &graph, &nearest, 2, &[member(2, 0, None)]);
}

#[test]
fn without_landmarks_a_cluster_is_all_that_is_reached(rt: HostRuntime) {
    let alloc = rt.alloc();
    let edges = [(0, 1, 2), (1, 2, 2), (0, 2, 4), (2, 3, 1), (4, 5, 1)];
    let graph = graph_of(&rt, alloc, 6, &edges);
    let nearest = nearest_of(&rt, alloc, &graph, &[false; 6]);
    for center in 0..6u16 {
        let all = reach_of(&rt, alloc, &graph, center);
        expect_cluster(&rt, alloc, &graph, &nearest, center, all.members());
    }
}
