// The tree in which a packet goes.
ghost use Rattle.std.specs.Prelude.{◌≡◌, ◌<◌, IfOk, false};
ghost use Rattle.distances.specs.Nearest.{KnowsNearest};
ghost use Rattle.single_route.specs.FoundTrees.{IsFoundFor, has_node};
ghost use Rattle.single_route.specs.LandmarkTrails.{IsApart, IsInOwnTree};

use clusters::cluster_in;
use distances::{Linked, Nearest, Workspace};
use graph_edits::Graph;
use landmarks::Landmarks;
use std::alloc::AllocError;

/// Whether a node is a member of a tree.
fn is_member(members: &[Linked], node: u16) -> bool
    ensures { result ≡ has_node members.now node }
{
    members.iter().any(|member| member.reached.node == node)
}

/// Finds the tree of the packet's own node, if that is no landmark, and answers whether it has the other node: then the packet
/// goes in this tree, which the workspace holds.
fn find_own_tree(
    workspace: &mut Workspace,
    graph: &Graph,
    landmarks: &Landmarks,
    nearest: &Nearest,
    from: u16,
    to: u16,
) -> Result<bool, AllocError>
    requires workspace { workspace.old.nodes ≡ graph.now.nodes }
    requires known { KnowsNearest graph.now landmarks.now nearest.now.nearest }
    requires from { from < graph.now.nodes }
    ensures workspace { workspace.new.nodes ≡ workspace.old.nodes }
    ensures tree { IfOk result (IsFoundFor graph.now.edges landmarks.now from to workspace.new.members) }
    ensures other { IfOk result (λ own. own ≡ false → IsInOwnTree graph.now.edges landmarks.now from to → ⊥) }
{
    // It tells that the graph is sound.
    let _sound = graph.nodes();
    if landmarks.holds(from) {
        return Ok(false);
    }
    let _pops = cluster_in(workspace, graph, nearest, from)?;
    Ok(is_member(workspace.members(), to))
}

/// Finds the tree in which a packet goes, which the workspace holds then: that of its own node, where the other is nearer to it
/// than to every landmark, else that of the other's nearest landmark. Answers whether it leads from the one to the other.
pub(crate) fn find_tree(
    workspace: &mut Workspace,
    graph: &Graph,
    landmarks: &Landmarks,
    nearest: &Nearest,
    from: u16,
    to: u16,
) -> Result<bool, AllocError>
    requires workspace { workspace.old.nodes ≡ graph.now.nodes }
    requires known { KnowsNearest graph.now landmarks.now nearest.now.nearest }
    requires from { from < graph.now.nodes }
    requires to { to < graph.now.nodes }
    ensures workspace { workspace.new.nodes ≡ workspace.old.nodes }
    ensures tree { IfOk result (IsFoundFor graph.now.edges landmarks.now from to workspace.new.members) }
    ensures apart { IfOk result (λ found. found ≡ false → IsApart graph.now.edges from to) }
{
    if find_own_tree(workspace, graph, landmarks, nearest, from, to)? {
        return Ok(true);
    }
    let Some(near) = nearest.of(to) else {
        return Ok(false);
    };
    let _pops = workspace.from_root(graph, near.landmark)?;
    Ok(is_member(workspace.members(), from))
}
