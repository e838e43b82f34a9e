// A graph as changes would leave it, which are not made.
ghost use Rattle.std.specs.Prelude.{◌≡◌, ℕ, ◌+◌, ◌<◌, ◌≤◌, T, Option, Ok, IfErr, IsOk, OnOk, OnErr, vec_len, vec_capacity};
ghost use Rattle.std.specs.FinMap.{len, put, is_sorted};
ghost use Rattle.graph_edits.specs.Changes.{after, edges_after_within, edges_by, err_of, IsRefusedAs, CountFits, count_after, first_node, second_node, op_weight};
ghost use Rattle.graph_edits.specs.Edges.{pair_cmp, pair_of, weight_between, weight_in};

use crate::edits::{Change, Code, EditRefused, Op};
use crate::graph::Graph;
use crate::limits::{MOST_EDGES, MOST_OPS};
use crate::table;
use std::alloc::Global;
use std::marker::Model;

/// The graph as a list of accepted changes would leave it. The graph itself is not touched.
#[derive(Debug, Drop)]
pub struct Overlay<'g> {
    graph: &'g Graph,
    changed: Vec<((u16, u16), Option<u32>)>,
    edges: usize,
}

impl<'g> Model for Overlay<'g> {
    ghost use Rattle.graph_edits.specs.Edges.{Network, network_code};
    ghost use Rattle.graph_edits.specs.Overlays.{overlaid_on, IsOverlay};

    ghost Value = { Network };

    ghost coded = { network_code };

    ghost view = { λ o. overlaid_on o.graph.now o.changed.items };

    ghost invariant = { λ o. IsOverlay o.graph.now o.changed.items o.edges };
}

impl<'g> Overlay<'g> {
    /// The graph as it is. It takes no memory before the first change.
    pub fn over(alloc: Global, graph: &'g Graph) -> Overlay<'g>
        ensures { result ≡ graph.now }
    {
        Overlay {
            graph,
            changed: Vec::new(alloc),
            edges: graph.edge_count(),
        }
    }

    /// Takes a change on top of those before, or refuses it as the graph would after them.
    pub fn apply(&mut self, change: &Change) -> Result<(), EditRefused>
        ensures ok { OnOk result (after self.old change.now ≡ Ok self.new) }
        ensures unchanged { OnErr result (self.new ≡ self.old) }
        ensures refused { IfErr result (IsRefusedAs (after self.old change.now)) }
        ensures memory { result ≡ Err EditRefused.Memory → IsOk (after self.old change.now) }
    {
        let ops = change.ops();
        if let Some((index, code)) = self.first_refused(MOST_EDGES, ops) {
            return Err(EditRefused::Op { index, code });
        }
        if self.changed.reserve(MOST_OPS).is_err() {
            return Err(EditRefused::Memory);
        }
        for op in ops {
            self.edges = edges_then(self.edges, *op);
            lay(&mut self.changed, *op);
        }
        Ok(())
    }

    fn nodes(&self) -> u16
        ensures { result ≡ self.now.nodes }
    {
        self.graph.nodes()
    }

    fn edges(&self) -> usize
        ensures edges { result ≡ len self.now.edges }
        ensures few { result ≤ MOST_EDGES }
    {
        self.edges
    }

    fn weight(&self, a: u16, b: u16) -> Option<u32>
        ensures { result ≡ weight_in self.now a b }
    {
        match table::value_of(&self.changed, pair(a, b)) {
            Some(weight) => weight,
            None => self.graph.weight(a, b),
        }
    }

    /// The weight between two nodes after ops of which none is refused.
    fn weight_after(&self, ops: &[Op], a: u16, b: u16) -> Option<u32>
        ensures { result ≡ weight_between (edges_by self.now.edges ops.now) a b }
    {
        let mut weight = self.weight(a, b);
        for op in ops {
            weight = op.weight_then(weight, a, b);
        }
        weight
    }

    /// The first op that is refused where there may be `limit` edges, each judged after those before it.
    pub(crate) fn first_refused(&self, limit: usize, ops: &[Op]) -> Option<(usize, Code)>
        requires { limit ≤ MOST_EDGES }
        ensures { result ≡ err_of (edges_after_within limit self.now.nodes self.now.edges 0 ops.now) }
    {
        let nodes = self.nodes();
        let mut edges = self.edges();
        for (i, op) in ops.iter().enumerate() {
            let (a, b) = op.ends();
            let there = self.weight_after(&ops[..i], a, b).is_some();
            if let Some(code) = op.refusal(limit, nodes, edges, there) {
                return Some((i, code));
            }
            edges = edges_then(edges, *op);
        }
        None
    }
}

/// Two nodes in ascending order.
fn pair(a: u16, b: u16) -> (u16, u16)
    ensures { result ≡ pair_of a b }
{
    if a < b { (a, b) } else { (b, a) }
}

/// How many edges there are after an op that is not refused.
pub(crate) fn edges_then(edges: usize, op: Op) -> usize
    requires { CountFits edges op }
    ensures { result ≡ count_after edges op }
{
    match op {
        Op::Add(_, _, _) => edges + 1,
        Op::Set(_, _, _) => edges,
        Op::Cut(_, _) => edges - 1,
    }
}

/// Notes the weight that an op gives its pair. There is room for one entry more.
fn lay(changed: &mut Vec<((u16, u16), Option<u32>)>, op: Op)
    requires sorted { T (is_sorted pair_cmp changed.old.items) }
    requires room { vec_len changed.old < vec_capacity changed.old }
    ensures items { changed.new.items
        ≡ put pair_cmp (pair_of (first_node op) (second_node op)) (op_weight op) changed.old.items }
    ensures len { vec_len changed.new ≤ vec_len changed.old + 1 }
    ensures capacity { vec_capacity changed.old ≤ vec_capacity changed.new }
{
    let (a, b) = op.ends();
    table::put_entry(changed, pair(a, b), op.weight());
}
