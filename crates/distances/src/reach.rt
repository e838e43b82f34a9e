// The tree of least distances from a root.
ghost use Rattle.std.specs.Prelude.{◌≡◌, ℕ, ◌+◌, ◌*◌, ◌<◌, ◌≤◌, ◌↔◌, true, [], Some, None, length, map, All, IfOk, IfSome, OnOk};
ghost use Rattle.std.specs.FinMap.{len};
ghost use Rattle.distances.specs.Search.{is_below, number_at, AreGentle};
ghost use Rattle.distances.specs.Arrivals.{arrival_at, parent_by, IsOverPort};
ghost use Rattle.distances.specs.Reach.{IsTree, degrees_of, settled_of};
ghost use Rattle.distances.specs.Workspace.{reached_of, HasLinks, AreLinked};

use crate::linked::Linked;
use crate::search::{Arrival, Settled};
use crate::workspace::Workspace;
use graph_edits::Graph;
use std::alloc::{AllocError, Global};
use std::marker::Model;

/// A reached node, its distance from the root, and its parent: the smallest-numbered neighbour in
/// the tree over which that distance is attained. The root has no parent.
#[derive(Clone, Copy, Debug, PartialEq, Eq)]
pub struct Reached {
    pub distance: u64,
    pub node: u16,
    pub parent: Option<u16>,
}

/// The nodes that are reached from a root, in ascending order of distance, and then of node.
#[derive(Drop)]
pub struct Reach {
    members: Vec<Reached>,
    pops: u64,
}

impl Model for Reach {
    ghost use Rattle.distances.specs.Reach.{Members};

    ghost Value = { Members };

    ghost view = { λ reach. record { members = reach.members.items; pops = reach.pops } };
}

impl Reach {
    /// The nodes, the root first.
    pub fn members(&self) -> &[Reached]
        ensures { result.now ≡ self.now.members }
    {
        self.members.as_slice()
    }

    /// How many entries the search popped.
    pub fn pops(&self) -> u64
        ensures { result ≡ self.now.pops }
    {
        self.pops
    }
}

/// The tree of least distances from `root`. An `Err` means that memory was refused.
pub fn from_root(alloc: Global, graph: &Graph, root: u16) -> Result<Reach, AllocError>
    requires { root < graph.now.nodes }
    ensures tree { IfOk result (λ reach. IsTree graph.now.edges root (λ _. None) reach.members) }
    ensures found { IfOk result (λ reach. length reach.members ≤ reach.pops) }
    ensures degrees { IfOk result (λ reach. reach.pops ≤ 1 + degrees_of graph.now reach.members) }
    ensures edges { IfOk result (λ reach. reach.pops ≤ 1 + 2 * len graph.now.edges) }
{
    let mut workspace = Workspace::new(alloc, graph.nodes())?;
    let pops = workspace.from_root(graph, root)?;
    let members = without_ports(alloc, workspace.members())?;
    Ok(Reach { members, pops })
}

/// The tree of the nodes whose distance from `root` is below their limit: one limit for each node,
/// and none is greater than every distance. The limits are gentle: over an edge they rise by at
/// most its weight, so a least walk to a member passes members alone.
pub fn tree_within(
    alloc: Global,
    graph: &Graph,
    root: u16,
    limits: &[Option<u64>],
) -> Result<Reach, AllocError>
    requires root { root < graph.now.nodes }
    requires limits { length limits.now ≡ graph.now.nodes }
    requires root_within { is_below 0 (number_at limits.now root) ≡ true }
    requires gentle { AreGentle graph.now.edges (number_at limits.now) }
    ensures tree { IfOk result (λ reach.
        IsTree graph.now.edges root (number_at limits.now) reach.members) }
    ensures found { IfOk result (λ reach. length reach.members ≤ reach.pops) }
    ensures degrees { IfOk result (λ reach. reach.pops ≤ 1 + degrees_of graph.now reach.members) }
    ensures edges { IfOk result (λ reach. reach.pops ≤ 1 + 2 * len graph.now.edges) }
{
    let mut workspace = Workspace::new(alloc, graph.nodes())?;
    let pops = workspace.tree_within(graph, root, limits)?;
    let members = without_ports(alloc, workspace.members())?;
    Ok(Reach { members, pops })
}

fn without_ports(alloc: Global, members: &[Linked]) -> Result<Vec<Reached>, AllocError>
    ensures { IfOk result (λ all. all.items ≡ reached_of members.now) }
{
    members.iter().map(|member| member.reached).collect(alloc)
}

/// Lists the settled nodes with their parents, and the ports between the two.
pub(crate) fn link_all(
    graph: &Graph,
    order: &[Settled],
    arrivals: &[Option<Arrival>],
    members: &mut Vec<Linked>,
) -> Result<(), AllocError>
    requires none { members.old.items ≡ [] }
    requires nodes { length arrivals.now ≡ graph.now.nodes }
    requires ends { All (λ s. s.node < graph.now.nodes) order.now }
    requires ports { All (λ s. IfSome (arrival_at arrivals.now s.node) (IsOverPort graph.now s.node)) order.now }
    ensures order { OnOk result (map settled_of (reached_of members.new.items) ≡ order.now) }
    ensures parents { OnOk result (
        All (λ m. m.reached.parent ≡ parent_by (arrival_at arrivals.now m.reached.node)) members.new.items) }
    ensures ports { OnOk result (AreLinked graph.now members.new.items) }
{
    for settled in order {
        members.push(linked(graph, *settled, arrivals[settled.node as usize]))?;
    }
    Ok(())
}

/// A settled node with its parent and the ports between the two.
fn linked(graph: &Graph, settled: Settled, arrival: Option<Arrival>) -> Linked
    requires node { settled.node < graph.now.nodes }
    requires port { IfSome arrival (IsOverPort graph.now settled.node) }
    ensures order { settled_of result.reached ≡ settled }
    ensures parent { result.reached.parent ≡ parent_by arrival }
    ensures ports { HasLinks graph.now result.reached.node result.reached.parent result.up result.down }
{
    let (parent, up, down) = match arrival {
        Some(Arrival { parent, down }) => {
            (
                Some(parent),
                graph.port_to(settled.node, parent),
                Some(down),
            )
        }
        None => (None, None, None),
    };
    let reached = Reached {
        node: settled.node,
        distance: settled.distance,
        parent,
    };
    Linked { reached, up, down }
}
