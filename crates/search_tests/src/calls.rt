// The calls that the tests judge, with their conditions tested first.
ghost use Rattle.std.specs.Prelude.{◌≡◌, ◌≢◌, ◌<◌, true, Some, None, length, slice_index_or};
ghost use Rattle.distances.specs.Nearest.{AreNearest};

use crate::helpers::{got, same};
use clusters::{Cluster, cluster, cluster_in};
use distances::{Near, Nearest, Reach, Reached, Workspace, from_root};
use graph_edits::Graph;
use std::alloc::Global;
use std::process::Abort;

/// What is reached of a node.
pub(crate) fn member(node: u16, distance: u64, parent: Option<u16>) -> Reached {
    Reached {
        node,
        distance,
        parent,
    }
}

/// The tree of least distances from a root.
pub(crate) fn reach_of(rt: &impl Abort, alloc: Global, graph: &Graph, root: u16) -> Reach {
    let nodes = graph.nodes();
    assert!(rt; root < nodes);
    got(rt, from_root(alloc, graph, root))
}

/// The nearest landmark of a node.
pub(crate) fn near_of(rt: &impl Abort, nearest: &Nearest, node: u16) -> Option<Near> {
    let nodes = nearest.distances().len();
    assert!(rt; (node as usize) < nodes);
    nearest.of(node)
}

/// Whether a node is no landmark.
fn is_no_landmark(nearest: &Nearest, node: u16) -> bool
    requires { node < length nearest.now.nearest }
    ensures { result ≡ true
        → slice_index_or nearest.now.nearest node None ≢ Some (record { landmark = node; distance = 0 }) }
{
    match nearest.of(node) {
        Some(near) => near.landmark != node || near.distance != 0,
        None => true,
    }
}

/// The cluster of a node that is no landmark.
pub(crate) fn cluster_of(
    rt: &impl Abort,
    alloc: Global,
    graph: &Graph,
    nearest: &Nearest,
    center: u16,
) -> Cluster
    requires nodes { length nearest.now.nearest ≡ graph.now.nodes }
    requires nearest { AreNearest graph.now.edges nearest.now.nearest }
{
    let nodes = graph.nodes();
    assert!(rt; center < nodes);
    let free = is_no_landmark(nearest, center);
    assert!(rt; free);
    got(rt, cluster(alloc, graph, nearest, center))
}

/// The tree of a root in a workspace must be that of a search of its own. It is asked for again where memory was short:
/// then there must be no members.
pub(crate) fn expect_tree_in(
    rt: &impl Abort,
    alloc: Global,
    workspace: &mut Workspace,
    graph: &Graph,
    root: u16,
)
    requires { workspace.old.nodes ≡ graph.now.nodes }
    ensures { workspace.new.nodes ≡ workspace.old.nodes }
{
    let nodes = graph.nodes();
    assert!(rt; root < nodes);
    if workspace.from_root(graph, root).is_err() {
        same(rt, workspace.members().len(), 0, "memory was short");
        got(rt, workspace.from_root(graph, root));
    }
    let reach = reach_of(rt, alloc, graph, root);
    expect_members(rt, workspace, graph, reach.members());
}

/// Finds the cluster of a node that is no landmark in a workspace, again where memory was short.
pub(crate) fn found_in(
    rt: &impl Abort,
    workspace: &mut Workspace,
    graph: &Graph,
    nearest: &Nearest,
    center: u16,
)
    requires workspace { workspace.old.nodes ≡ graph.now.nodes }
    requires nodes { length nearest.now.nearest ≡ graph.now.nodes }
    requires nearest { AreNearest graph.now.edges nearest.now.nearest }
    ensures { workspace.new.nodes ≡ workspace.old.nodes }
{
    let nodes = graph.nodes();
    assert!(rt; center < nodes);
    let free = is_no_landmark(nearest, center);
    assert!(rt; free);
    if cluster_in(workspace, graph, nearest, center).is_err() {
        same(rt, workspace.members().len(), 0, "memory was short");
        got(rt, cluster_in(workspace, graph, nearest, center));
    }
}

/// The port of a node to another one.
pub(crate) fn port_between(rt: &impl Abort, graph: &Graph, from: u16, to: u16) -> Option<u16> {
    let nodes = graph.nodes();
    assert!(rt; from < nodes);
    graph.port_to(from, to)
}

/// The members that a workspace holds must be these, each with the ports between it and its parent.
pub(crate) fn expect_members(
    rt: &impl Abort,
    workspace: &Workspace,
    graph: &Graph,
    want: &[Reached],
) {
    let members = workspace.members();
    same(rt, members.len(), want.len(), "members");
    for (member, reached) in members.iter().zip(want) {
        let node = reached.node;
        let parent = reached.parent.unwrap_or(node);
        let up = port_between(rt, graph, node, parent);
        let down = port_between(rt, graph, parent, node);
        let wanted = (*reached, up, down);
        same(
            rt,
            (member.reached, member.up, member.down),
            wanted,
            "a member",
        );
    }
}
