// Room for one search after another.
ghost use Rattle.std.specs.Prelude.{◌≡◌, ℕ, ◌+◌, ◌*◌, ◌<◌, ◌≤◌, Option, None, [], true, length, IfOk, OnOk, OnErr};
ghost use Rattle.std.specs.BinaryHeap.{heap_items};
ghost use Rattle.std.specs.FinMap.{len};
ghost use Rattle.distances.specs.Search.{is_below, number_at, flag_at, AreGentle};
ghost use Rattle.distances.specs.Waiting.{HasNodes, IsClean, IsTracked};
ghost use Rattle.distances.specs.Reach.{IsTree, degrees_of};
ghost use Rattle.distances.specs.Workspace.{reached_of, AreLinked};

use crate::linked::Linked;
use crate::reach::link_all;
use crate::search::{Search, Settled, offer, settle_all};
use graph_edits::Graph;
use std::alloc::{AllocError, Global};
use std::cmp::Reverse;
use std::collections::BinaryHeap;
use std::marker::Model;

/// Room for one search after another in graphs of one number of nodes, and the tree that was found last.
///
/// Its lists are made once. A search touches only what it looks at, and cleans just that before it answers,
/// also where memory was refused. So a small tree costs little, however many nodes the graph has, and each search
/// finds what it would find in a new workspace.
#[derive(Drop)]
pub struct Workspace {
    search: Search,
    members: Vec<Linked>,
}

impl Model for Workspace {
    ghost use Rattle.std.specs.Prelude.{length};
    ghost use Rattle.distances.specs.Waiting.{IsClean};
    ghost use Rattle.distances.specs.Workspace.{Workspace};

    ghost Value = { Workspace };

    ghost view = { λ a. record { nodes = length a.search.tentative.items; members = a.members.items } };

    ghost invariant = { λ a. IsClean a.search };
}

impl Workspace {
    /// Room for searches in graphs of so many nodes. An `Err` means that memory was refused, here and below.
    pub fn new(alloc: Global, nodes: u16) -> Result<Workspace, AllocError>
        ensures { IfOk result (λ workspace. workspace ≡ record { nodes = nodes; members = [] }) }
    {
        let search = Search {
            tentative: vec![in alloc; None; nodes as usize]?,
            settled: vec![in alloc; false; nodes as usize]?,
            arrivals: vec![in alloc; None; nodes as usize]?,
            waiting: BinaryHeap::with_capacity(alloc, nodes as usize)?,
            order: Vec::with_capacity(alloc, nodes as usize)?,
        };
        let members = Vec::with_capacity(alloc, nodes as usize)?;
        Ok(Workspace { search, members })
    }

    /// The members of the tree that was found last, the root first.
    pub fn members(&self) -> &[Linked]
        ensures { result.now ≡ self.now.members }
    {
        self.members.as_slice()
    }

    /// Finds the tree of least distances from `root`, as [`crate::from_root`] does. Answers how many
    /// entries the search popped.
    pub fn from_root(&mut self, graph: &Graph, root: u16) -> Result<u64, AllocError>
        requires nodes { self.old.nodes ≡ graph.now.nodes }
        requires root { root < graph.now.nodes }
        ensures nodes { self.new.nodes ≡ self.old.nodes }
        ensures tree { OnOk result (
            IsTree graph.now.edges root (λ _. None) (reached_of self.new.members)) }
        ensures ports { OnOk result (AreLinked graph.now self.new.members) }
        ensures found { IfOk result (λ pops. length self.new.members ≤ pops) }
        ensures degrees { IfOk result (λ pops.
            pops ≤ 1 + degrees_of graph.now (reached_of self.new.members)) }
        ensures edges { IfOk result (λ pops. pops ≤ 1 + 2 * len graph.now.edges) }
        ensures refused { OnErr result (self.new.members ≡ []) }
    {
        self.tree_within(graph, root, &[])
    }

    /// Finds the tree of the nodes whose distance from `root` is below their limit, as [`crate::tree_within`] does. A
    /// node past the end of the limits has none. Answers how many entries the search popped.
    pub fn tree_within(
        &mut self,
        graph: &Graph,
        root: u16,
        limits: &[Option<u64>],
    ) -> Result<u64, AllocError>
        requires nodes { self.old.nodes ≡ graph.now.nodes }
        requires root { root < graph.now.nodes }
        requires root_within { is_below 0 (number_at limits.now root) ≡ true }
        requires gentle { AreGentle graph.now.edges (number_at limits.now) }
        ensures nodes { self.new.nodes ≡ self.old.nodes }
        ensures tree { OnOk result (
            IsTree graph.now.edges root (number_at limits.now) (reached_of self.new.members)) }
        ensures ports { OnOk result (AreLinked graph.now self.new.members) }
        ensures found { IfOk result (λ pops. length self.new.members ≤ pops) }
        ensures degrees { IfOk result (λ pops.
            pops ≤ 1 + degrees_of graph.now (reached_of self.new.members)) }
        ensures edges { IfOk result (λ pops. pops ≤ 1 + 2 * len graph.now.edges) }
        ensures refused { OnErr result (self.new.members ≡ []) }
    {
        self.members.clear();
        let found = find_tree(graph, root, limits, &mut self.search, &mut self.members);
        clean(&mut self.search);
        if found.is_err() {
            self.members.clear();
        }
        found
    }
}

/// Searches from a root in a clean search, and lists the members of its tree.
fn find_tree(
    graph: &Graph,
    root: u16,
    limits: &[Option<u64>],
    search: &mut Search,
    members: &mut Vec<Linked>,
) -> Result<u64, AllocError>
    requires clean { IsClean search.old }
    requires nodes { length search.old.tentative.items ≡ graph.now.nodes }
    requires no_members { members.old.items ≡ [] }
    requires root { root < graph.now.nodes }
    requires root_within { is_below 0 (number_at limits.now root) ≡ true }
    requires gentle { AreGentle graph.now.edges (number_at limits.now) }
    ensures tree { OnOk result (
        IsTree graph.now.edges root (number_at limits.now) (reached_of members.new.items)) }
    ensures ports { OnOk result (AreLinked graph.now members.new.items) }
    ensures found { IfOk result (λ pops. length members.new.items ≤ pops) }
    ensures degrees { IfOk result (λ pops.
        pops ≤ 1 + degrees_of graph.now (reached_of members.new.items)) }
    ensures edges { IfOk result (λ pops. pops ≤ 1 + 2 * len graph.now.edges) }
    ensures places { HasNodes graph.now.nodes search.new }
    ensures tracked { IsTracked graph.now.nodes (number_at search.new.tentative.items)
        (flag_at search.new.settled.items) search.new.order.items (heap_items search.new.waiting) }
{
    // It tells that the graph is sound.
    let _sound = graph.nodes();
    let start = Settled {
        distance: 0,
        node: root,
    };
    search.tentative[root as usize] = offer(None, start, None, &mut search.waiting)?;
    search.arrivals[root as usize] = None;
    let pops = settle_all(graph, limits, search)?;
    link_all(
        graph,
        search.order.as_slice(),
        search.arrivals.as_slice(),
        members,
    )?;
    Ok(pops)
}

/// Cleans what a search has touched: what it settled, and what still waits.
fn clean(search: &mut Search)
    requires places { HasNodes (length search.old.tentative.items) search.old }
    requires tracked { IsTracked (length search.old.tentative.items) (number_at search.old.tentative.items)
        (flag_at search.old.settled.items) search.old.order.items (heap_items search.old.waiting) }
    ensures clean { IsClean search.new }
    ensures nodes { length search.new.tentative.items ≡ length search.old.tentative.items }
{
    while let Some(listed) = search.order.pop() {
        search.tentative[listed.node as usize] = None;
        search.settled[listed.node as usize] = false;
    }
    while let Some(Reverse(open)) = search.waiting.pop() {
        let open = open.settled();
        search.tentative[open.node as usize] = None;
    }
}
