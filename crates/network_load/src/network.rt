//! The network of a list of edges.
ghost use Rattle.std.specs.Prelude.{◌≡◌, ◌≤◌, ◌∷◌, [], IfErr, IfOk, None, OnOk};
ghost use Rattle.std.specs.FinMap.{insert};
ghost use Rattle.graph_edits.specs.Changes.{IsRefusedOp, refusal_at};
ghost use Rattle.graph_edits.specs.Edges.{most_nodes, pair_of};
ghost use Rattle.network_load.specs.Networks.{HoldsJust, IsNoNetwork, op_of, refused_as};

use crate::list::Edge;
use graph_edits::{Change, Code, EditRefused, Graph, Op};
use std::alloc::{AllocError, Global};
use std::slice;
use thiserror::Error;

/// Why edges are no network.
#[derive(Clone, Copy, Debug, PartialEq, Eq, Drop, Error)]
pub enum EdgeRefused {
    /// The first edge that is refused, counted from 0, and why.
    #[error("edge {place} is refused: {code}")]
    Edge { place: usize, code: Code },
    #[error("out of memory")]
    Memory,
}

impl From<AllocError> for EdgeRefused {
    ghost use Rattle.network_load.specs.declared.network.EdgeRefused.TheVariants.{Memory};

    ghost from_gives = { λ _ e. e ≡ Memory };

    fn from(_: AllocError) -> Self {
        EdgeRefused::Memory
    }
}

/// The network of so many nodes that has just these edges, which are added in their order.
pub fn network_of(alloc: Global, nodes: u16, edges: &[Edge]) -> Result<Graph, EdgeRefused>
    requires some { 1 ≤ nodes }
    requires few { nodes ≤ most_nodes }
    ensures made { IfOk result (HoldsJust nodes edges.now) }
    ensures refused { IfErr result (IsNoNetwork nodes edges.now) }
{
    let mut graph = Graph::empty(alloc, nodes)?;
    for place in 0..edges.len() {
        if let Err(refused) = add(&mut graph, edges[place]) {
            return Err(refused_at(place, refused));
        }
    }
    Ok(graph)
}

// What is told of the edge at a place that is refused.
fn refused_at(place: usize, refused: EditRefused) -> EdgeRefused
    ensures { result ≡ refused_as place refused }
{
    match refused {
        EditRefused::Op { index: _, code } => EdgeRefused::Edge { place, code },
        EditRefused::Memory => EdgeRefused::Memory,
    }
}

// The change that adds one edge.
fn change_for(edge: Edge) -> Change
    ensures { result ≡ op_of edge ∷ [] }
{
    let op = Op::Add(edge.a, edge.b, edge.weight);
    match Change::new(slice::from_ref(&op)) {
        Ok(change) => change,
        Err(_) => unreachable!(),
    }
}

// Adds an edge, or leaves the network as it was.
fn add(graph: &mut Graph, edge: Edge) -> Result<(), EditRefused>
    ensures free { OnOk result (refusal_at graph.old.nodes graph.old.edges (op_of edge) ≡ None) }
    ensures added { OnOk result (graph.new
        ≡ record { nodes = graph.old.nodes; edges = insert graph.old.edges (pair_of edge.a edge.b) edge.weight }) }
    ensures refused { IfErr result (IsRefusedOp 0 (refusal_at graph.old.nodes graph.old.edges (op_of edge))) }
{
    graph.replay(&change_for(edge))
}
