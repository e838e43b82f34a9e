// A graph, kept as the row of each node.
ghost use Rattle.std.specs.Prelude.{◌≡◌, ℕ, ◌+◌, ◌<◌, ◌≤◌, ◌≢◌, T, not, Option, None, length, vec_len, vec_capacity, IfOk, IfErr, IsOk, OnOk, OnErr, Ok, ◌↔◌, Some, IsSome};
ghost use Rattle.std.specs.FinMap.{empty, insert, len};
ghost use Rattle.graph_edits.specs.declared.edits.Op.TheVariants.{Add};
ghost use Rattle.graph_edits.specs.Changes.{after, after_within, fold, edges_after_op, edges_after_within, err_of, IsRefusedAs, IsRefusedOp, LeavesFront, refusal_at};
ghost use Rattle.graph_edits.specs.Edges.{weight_in, neighbours_of, over_port, all_degrees, IsSound, pair_of};

use crate::edits::{Change, Code, EditRefused, Op};
use crate::limits::{MOST_EDGES, MOST_NODES};
use crate::overlay::{Overlay, edges_then};
use crate::prepared::Prepared;
use crate::{rows, table};
use std::alloc::{AllocError, Global};
use std::marker::Model;
use std::slice;
use std::snapshot::Snapshot;

/// An undirected graph with weighted edges, at most one between two nodes and none from a node to itself.
#[derive(Debug, Drop)]
pub struct Graph {
    pub(crate) rows: Vec<Vec<(u16, u32)>>,
    edges: usize,
}

impl Model for Graph {
    ghost use Rattle.graph_edits.specs.Edges.{Network, network_code};
    ghost use Rattle.graph_edits.specs.Rows.{network_of, lists, AreRows};

    ghost Value = { Network };

    ghost coded = { network_code };

    ghost view = { λ g. network_of (lists g.rows.items) };

    ghost invariant = { λ g. AreRows (lists g.rows.items) g.edges };
}

impl Graph {
    /// A graph of so many nodes, without edges.
    pub fn empty(alloc: Global, nodes: u16) -> Result<Graph, AllocError>
        requires some { 1 ≤ nodes }
        requires few { nodes ≤ MOST_NODES }
        ensures { IfOk result (λ graph. graph ≡ record { nodes = nodes; edges = empty }) }
    {
        let mut rows = Vec::with_capacity(alloc, nodes as usize)?;
        for _ in 0..nodes {
            rows.push(Vec::new(alloc))?;
        }
        Ok(Graph { rows, edges: 0 })
    }

    /// A graph without edges, of a node for each degree. The rows are made one behind the other, each with room for so many
    /// neighbours: where the edges that come are as many, no row moves, and a search reads rows that lie side by side.
    pub fn with_room(alloc: Global, degrees: &[u16]) -> Result<Graph, AllocError>
        requires some { 1 ≤ length degrees.now }
        requires few { length degrees.now ≤ MOST_NODES }
        ensures { IfOk result (λ graph. graph ≡ record { nodes = length degrees.now; edges = empty }) }
    {
        let mut rows = Vec::with_capacity(alloc, degrees.len())?;
        for degree in degrees {
            rows.push(Vec::with_capacity(alloc, *degree as usize)?)?;
        }
        Ok(Graph { rows, edges: 0 })
    }

    /// How many nodes there are, numbered from 0.
    pub fn nodes(&self) -> u16
        ensures nodes { result ≡ self.now.nodes }
        ensures sound { IsSound self.now }
        ensures degrees { all_degrees self.now ≡ len self.now.edges + len self.now.edges }
    {
        self.rows.len() as u16
    }

    /// Says for a proof that the graph is sound. It does nothing.
    pub fn sound(&self)
        ensures { IsSound self.now }
    {
        // `nodes` tells it.
        let _sound = self.nodes();
    }

    /// How many edges there are, in one step.
    pub fn edges(&self) -> usize
        ensures { result ≡ len self.now.edges }
    {
        self.edge_count()
    }

    // The same with the limit, which an overlay starts from.
    pub(crate) fn edge_count(&self) -> usize
        ensures edges { result ≡ len self.now.edges }
        ensures few { result ≤ MOST_EDGES }
    {
        self.edges
    }

    /// The weight of the edge between two nodes, in either order. There is none where a number names no node.
    pub fn weight(&self, a: u16, b: u16) -> Option<u32>
        ensures { result ≡ weight_in self.now a b }
    {
        if a >= self.nodes() {
            return None;
        }
        table::value_of(&self.rows[a as usize], b)
    }

    /// The neighbours of a node with the weights, in ascending order: the k-th has the port k.
    pub fn neighbours(&self, x: u16) -> &[(u16, u32)]
        requires { x < self.now.nodes }
        ensures list { result.now ≡ neighbours_of self.now x }
        ensures sound { IsSound self.now }
    {
        self.rows[x as usize].as_slice()
    }

    /// The port of the node `x` to the neighbour `y`, if it is one.
    pub fn port_to(&self, x: u16, y: u16) -> Option<u16>
        requires { x < self.now.nodes }
        ensures { (port : ℕ) → (result ≡ Some port) ↔ (over_port self.now x port ≡ Some y) }
    {
        rows::port_of(self.neighbours(x), y)
    }

    /// The neighbour of the node `x` behind a port, if the node has that port.
    pub fn over(&self, x: u16, port: u16) -> Option<u16>
        requires { x < self.now.nodes }
        ensures { result ≡ over_port self.now x port }
    {
        rows::behind(self.neighbours(x), port)
    }

    /// A graph of its own with the same nodes and edges.
    pub fn try_clone(&self, alloc: Global) -> Result<Graph, AllocError>
        ensures { IfOk result (λ graph. graph ≡ self.now) }
    {
        let mut rows = Vec::with_capacity(alloc, self.rows.len())?;
        for row in &self.rows {
            rows.push(rows::copy_of(alloc, row)?)?;
        }
        Ok(Graph {
            rows,
            edges: self.edges,
        })
    }
}

impl Graph {
    /// Makes the whole change, op by op, or nothing of it. Any refusal leaves the graph as it was.
    ///
    /// It costs work in the ops and in the neighbours of the nodes that they name, whatever the size of the graph.
    pub fn apply(&mut self, change: &Change) -> Result<(), EditRefused>
        ensures ok { OnOk result (after self.old change.now ≡ Ok self.new) }
        ensures unchanged { OnErr result (self.new ≡ self.old) }
        ensures refused { IfErr result (IsRefusedAs (after self.old change.now)) }
        ensures memory { result ≡ Err EditRefused.Memory → IsOk (after self.old change.now) }
    {
        self.apply_within(change, MOST_EDGES)
    }

    /// The same where the graph may have `limit` edges: an op that would add one more is refused, also where a later op
    /// of the change cuts an edge.
    pub fn apply_within(&mut self, change: &Change, limit: usize) -> Result<(), EditRefused>
        requires { limit ≤ MOST_EDGES }
        ensures ok { OnOk result (after_within limit self.old change.now ≡ Ok self.new) }
        ensures unchanged { OnErr result (self.new ≡ self.old) }
        ensures refused { IfErr result (IsRefusedAs (after_within limit self.old change.now)) }
        ensures memory { result ≡ Err EditRefused.Memory → IsOk (after_within limit self.old change.now) }
    {
        if let Some((index, code)) = self.first_refused(limit, change.ops()) {
            return Err(EditRefused::Op { index, code });
        }
        match self.prepare(self.allocator(), slice::from_ref(change)) {
            Ok(prepared) => {
                self.install(prepared);
                Ok(())
            }
            Err(_) => Err(EditRefused::Memory),
        }
    }

    /// Adds an edge in the rows of its two nodes, where nothing stands against it. No row is copied, and where the edge comes
    /// after all others nothing is moved: a graph is read back by its ascending edges in steps that don't grow with it.
    ///
    /// A refusal of memory leaves the graph as it was.
    pub fn add(&mut self, a: u16, b: u16, weight: u32) -> Result<(), AllocError>
        requires { refusal_at self.old.nodes self.old.edges (Add a b weight) ≡ None }
        ensures ok { OnOk result (self.new
            ≡ record { nodes = self.old.nodes; edges = insert self.old.edges (pair_of a b) weight }) }
        ensures unchanged { OnErr result (self.new ≡ self.old) }
    {
        rows::put_both(&mut self.rows, a, b, weight)?;
        self.edges += 1;
        Ok(())
    }

    /// Makes a change in the rows of the graph themselves, op by op, as a journal is read back: no row is copied, and each op costs a
    /// search in its two rows. Where an op is refused, or memory is, the ops before it are made; who wants all or nothing calls
    /// `apply`.
    pub fn replay(&mut self, change: &Change) -> Result<(), EditRefused>
        ensures ok { OnOk result (after self.old change.now ≡ Ok self.new) }
        ensures refused { IfErr result (IsRefusedAs (after self.old change.now)) }
        ensures front { IfErr result (λ refused. LeavesFront self.old change.now refused self.new) }
    {
        for (index, op) in change.ops().iter().enumerate() {
            self.replay_op(index, *op)?;
        }
        Ok(())
    }

    /// Makes the op at a place of a change, or refuses it and leaves the graph as it was.
    fn replay_op(&mut self, index: usize, op: Op) -> Result<(), EditRefused>
        ensures passed { OnOk result (refusal_at self.old.nodes self.old.edges op ≡ None) }
        ensures made { OnOk result (self.new
            ≡ record { nodes = self.old.nodes; edges = edges_after_op self.old.edges op }) }
        ensures refused { IfErr result (IsRefusedOp index (refusal_at self.old.nodes self.old.edges op)) }
        ensures unchanged { OnErr result (self.new ≡ self.old) }
    {
        let (a, b) = op.ends();
        let there = self.weight(a, b).is_some();
        match op.refusal(MOST_EDGES, self.nodes(), self.edges, there) {
            Some(code) => Err(EditRefused::Op { index, code }),
            None => self.make(op).map_err(|_| EditRefused::Memory),
        }
    }

    /// Makes an op, where nothing stands against it. A refusal of memory leaves the graph as it was.
    fn make(&mut self, op: Op) -> Result<(), AllocError>
        requires { refusal_at self.old.nodes self.old.edges op ≡ None }
        ensures ok { OnOk result (self.new
            ≡ record { nodes = self.old.nodes; edges = edges_after_op self.old.edges op }) }
        ensures unchanged { OnErr result (self.new ≡ self.old) }
    {
        rows::write_both(&mut self.rows, op)?;
        self.edges = edges_then(self.edges, op);
        Ok(())
    }

    /// What the graph needs to stay as it is, which is nothing. It takes no memory.
    ///
    /// `Prepared::take` adds changes to it, one at a time.
    pub fn preparation(&self) -> Prepared
        ensures before { result.before ≡ self.now }
        ensures after { result.after ≡ self.now }
    {
        Prepared {
            rows: Vec::new(self.allocator()),
            edges: self.edges,
            before: Snapshot::of(self),
        }
    }

    /// Makes what the graph needs to take changes that it accepts in order: new rows for the nodes that they name.
    ///
    /// The graph stays as it is. `Overlay::apply` says whether it accepts them.
    pub fn prepare(&self, alloc: Global, changes: &[Change]) -> Result<Prepared, AllocError>
        requires accepted { IsSome (fold self.now changes.now) }
        ensures before { IfOk result (λ prepared. prepared.before ≡ self.now) }
        ensures after { IfOk result (λ prepared. Some prepared.after ≡ fold self.now changes.now) }
    {
        let mut prepared = self.preparation();
        for change in changes {
            prepared = prepared.take(alloc, self, change)?;
        }
        Ok(prepared)
    }

    /// Takes what was prepared for the graph as it stands. It takes no memory and can't be refused.
    pub fn install(&mut self, prepared: Prepared)
        requires of_this { prepared.before ≡ self.old }
        ensures { self.new ≡ prepared.after }
    {
        let Prepared {
            mut rows,
            edges,
            before: _,
        } = prepared;
        while let Some((node, row)) = rows.pop() {
            self.rows[node as usize] = row;
        }
        self.edges = edges;
    }

    fn first_refused(&self, limit: usize, ops: &[Op]) -> Option<(usize, Code)>
        requires { limit ≤ MOST_EDGES }
        ensures { result ≡ err_of (edges_after_within limit self.now.nodes self.now.edges 0 ops.now) }
    {
        Overlay::over(self.allocator(), self).first_refused(limit, ops)
    }

    fn allocator(&self) -> Global {
        *self.rows.allocator()
    }
}
