// The search for a cluster, cut off at the distances of the nearest landmarks.
ghost use Rattle.std.specs.Prelude.{◌≡◌, ◌≢◌, ℕ, ◌+◌, ◌<◌, ◌≤◌, List, Bool, Some, None, [], length, IfOk, OnOk, OnErr, slice_index_or};
ghost use Rattle.distances.specs.Reach.{IsTree, degrees_of};
ghost use Rattle.distances.specs.Workspace.{reached_of, AreLinked};
ghost use Rattle.distances.specs.Nearest.{AreNearest, IsNearestOf, near_limit};
ghost use Rattle.clusters.specs.Cluster.{IsCluster, HasParents};

use crate::members::Cluster;
use distances::{Nearest, Workspace, tree_within};
use graph_edits::Graph;
use std::alloc::{AllocError, Global};

/// The cluster of `center`: the nodes that are nearer to it than to every landmark, each with its
/// distance and its parent. `nearest` has the nearest landmarks of this graph, and `center` is not
/// one of them. An `Err` means that memory was refused.
pub fn cluster(
    alloc: Global,
    graph: &Graph,
    nearest: &Nearest,
    center: u16,
) -> Result<Cluster, AllocError>
    requires center { center < graph.now.nodes }
    requires nodes { length nearest.now.nearest ≡ graph.now.nodes }
    requires nearest { AreNearest graph.now.edges nearest.now.nearest }
    requires no_landmark { slice_index_or nearest.now.nearest center None
        ≢ Some (record { landmark = center; distance = 0 }) }
    // the members are those of the definition, whichever landmarks have these nearest ones
    ensures members { IfOk result (λ cluster.
        (flags : List Bool)
        → ((v : ℕ) → IsNearestOf graph.now.edges flags v (slice_index_or nearest.now.nearest v None))
        → IsCluster graph.now.edges flags center cluster.members) }
    ensures tree { IfOk result (λ cluster.
        IsTree graph.now.edges center (near_limit nearest.now.nearest) cluster.members) }
    ensures closed { IfOk result (λ cluster. HasParents cluster.members) }
    ensures found { IfOk result (λ cluster. length cluster.members ≤ cluster.pops) }
    ensures degrees { IfOk result (λ cluster.
        cluster.pops ≤ 1 + degrees_of graph.now cluster.members) }
{
    // It tells that the graph is sound.
    let _sound = graph.nodes();
    let reach = tree_within(alloc, graph, center, nearest.distances())?;
    Ok(Cluster { reach })
}

/// Finds the cluster of `center` in a workspace, which holds its members then, with the ports between each and its
/// parent. The conditions are those of [`cluster`], and the workspace is one for as many nodes. Answers how many entries
/// the search popped. An `Err` means that memory was refused; the workspace holds no members then.
pub fn cluster_in(
    workspace: &mut Workspace,
    graph: &Graph,
    nearest: &Nearest,
    center: u16,
) -> Result<u64, AllocError>
    requires workspace { workspace.old.nodes ≡ graph.now.nodes }
    requires center { center < graph.now.nodes }
    requires nodes { length nearest.now.nearest ≡ graph.now.nodes }
    requires nearest { AreNearest graph.now.edges nearest.now.nearest }
    requires no_landmark { slice_index_or nearest.now.nearest center None
        ≢ Some (record { landmark = center; distance = 0 }) }
    ensures workspace { workspace.new.nodes ≡ workspace.old.nodes }
    // the members are those of the definition, whichever landmarks have these nearest ones
    ensures members { OnOk result (
        (flags : List Bool)
        → ((v : ℕ) → IsNearestOf graph.now.edges flags v (slice_index_or nearest.now.nearest v None))
        → IsCluster graph.now.edges flags center (reached_of workspace.new.members)) }
    ensures tree { OnOk result (
        IsTree graph.now.edges center (near_limit nearest.now.nearest)
        (reached_of workspace.new.members)) }
    ensures closed { OnOk result (HasParents (reached_of workspace.new.members)) }
    ensures ports { OnOk result (AreLinked graph.now workspace.new.members) }
    ensures found { IfOk result (λ pops. length workspace.new.members ≤ pops) }
    ensures degrees { IfOk result (λ pops.
        pops ≤ 1 + degrees_of graph.now (reached_of workspace.new.members)) }
    ensures refused { OnErr result (workspace.new.members ≡ []) }
{
    // It tells that the graph is sound.
    let _sound = graph.nodes();
    let pops = workspace.tree_within(graph, center, nearest.distances())?;
    Ok(pops)
}
