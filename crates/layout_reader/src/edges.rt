//! Reading the edges of a checkpoint.
ghost use Rattle.std.specs.Prelude.{◌≡◌, ◌≤◌, ◌<◌, ◌+◌, ◌*◌, ◌++◌, ◌∷◌, [], ◌↔◌, length, IsTrue, IfOk, OnOk, OnErr, IsErrOf, None, Some};
ghost use Rattle.std.specs.List.{AllByRecursion};
ghost use Rattle.std.specs.FinMap.{entries};
ghost use Rattle.graph_edits.specs.Edges.{most_nodes, most_edges, pair_cmp};
ghost use Rattle.layout_reader.specs.EdgeTexts.{edge_text, edges_text, IsEdge, ListsNoEdges};
ghost use Rattle.layout_reader.specs.Ascending.{AllBelow, IsAfterLast};

use crate::layout::EDGE_LEN;
use crate::refusals::OpenRefused;
use graph_edits::{GREATEST_WEIGHT, Graph, MOST_EDGES, MOST_NODES};
use std::alloc::{AllocError, Global};

/// An edge as a checkpoint lists it.
#[derive(Clone, Copy, Drop)]
struct Edge {
    a: u16,
    b: u16,
    weight: u32,
}

// The edge that 8 bytes spell.
fn edge_of(bytes: &[u8]) -> Edge
    requires { length bytes.now ≡ 8 }
    ensures { edge_text ((result.a, result.b), result.weight) ≡ bytes.now }
{
    Edge {
        a: u16::from_be_bytes([bytes[0], bytes[1]]),
        b: u16::from_be_bytes([bytes[2], bytes[3]]),
        weight: u32::from_be_bytes([bytes[4], bytes[5], bytes[6], bytes[7]]),
    }
}

impl Edge {
    // Whether it is an edge of a network of so many nodes.
    fn is_sound(self, nodes: u16) -> bool
        ensures { IsTrue result ↔ IsEdge nodes ((self.a, self.b), self.weight) }
    {
        self.a < self.b && self.b < nodes && 1 <= self.weight && self.weight <= GREATEST_WEIGHT
    }

    // Whether it comes after the last edge so far.
    fn is_after(self, last: Option<(u16, u16)>) -> bool
        ensures { IsTrue result ↔ IsAfterLast last (self.a, self.b) }
    {
        match last {
            None => true,
            Some((a, b)) => a < self.a || (a == self.a && b < self.b),
        }
    }

    fn is_next(self, nodes: u16, last: Option<(u16, u16)>) -> bool
        ensures { IsTrue result ↔ (IsEdge nodes ((self.a, self.b), self.weight) × IsAfterLast last (self.a, self.b)) }
    {
        self.is_sound(nodes) && self.is_after(last)
    }
}

// How many edges each node has among those that the bytes list. A number that names no node isn't counted.
fn degrees_of(alloc: Global, nodes: u16, edges: usize, bytes: &[u8]) -> Result<Vec<u16>, AllocError>
    requires long { length bytes.now ≡ 8 * edges }
    ensures { IfOk result (λ degrees. length degrees.items ≡ nodes) }
{
    let mut degrees = vec![in alloc; 0u16; nodes as usize]?;
    let mut rest = bytes;
    for _ in 0..edges {
        let (front, behind) = rest.split_at(EDGE_LEN);
        let edge = edge_of(front);
        count_end(&mut degrees, edge.a);
        count_end(&mut degrees, edge.b);
        rest = behind;
    }
    Ok(degrees)
}

// Counts one edge more at a node.
fn count_end(degrees: &mut [u16], node: u16)
    ensures { length degrees.new ≡ length degrees.old }
{
    if (node as usize) < degrees.len() {
        degrees[node as usize] = degrees[node as usize].saturating_add(1);
    }
}

// Puts an edge behind those that a graph has.
fn add_edge(graph: &mut Graph, edge: Edge) -> Result<(), OpenRefused>
    requires sound { IsEdge graph.old.nodes ((edge.a, edge.b), edge.weight) }
    requires last { AllBelow pair_cmp (edge.a, edge.b) (entries graph.old.edges) }
    requires room { length (entries graph.old.edges) < most_edges }
    ensures nodes { OnOk result (graph.new.nodes ≡ graph.old.nodes) }
    ensures edges { OnOk result (entries graph.new.edges
        ≡ entries graph.old.edges ++ ((edge.a, edge.b), edge.weight) ∷ []) }
    ensures memory { OnErr result (result ≡ Err OpenRefused.Memory) }
{
    match graph.add(edge.a, edge.b, edge.weight) {
        Ok(()) => Ok(()),
        Err(_) => Err(OpenRefused::Memory),
    }
}

/// The network of so many nodes whose edges the bytes list. The edges of each node are counted first, so that each row is made once.
pub fn read_edges(
    alloc: Global,
    nodes: u16,
    edges: usize,
    bytes: &[u8],
) -> Result<Graph, OpenRefused>
    requires some { 1 ≤ nodes }
    requires few { nodes ≤ most_nodes }
    requires few_edges { edges ≤ most_edges }
    requires long { length bytes.now ≡ 8 * edges }
    ensures nodes { IfOk result (λ graph. graph.nodes ≡ nodes) }
    ensures count { IfOk result (λ graph. length (entries graph.edges) ≡ edges) }
    ensures text { IfOk result (λ graph. edges_text graph.edges ≡ bytes.now) }
    ensures sound { IfOk result (λ graph. AllByRecursion (λ e. IsEdge nodes e) (entries graph.edges)) }
    ensures damaged { IsErrOf result OpenRefused.Damaged → ListsNoEdges nodes bytes.now }
    ensures others { ¬ (IsErrOf result OpenRefused.NotFormatted)
        × ¬ (IsErrOf result OpenRefused.BadVersion) × ¬ (IsErrOf result OpenRefused.Device) }
{
    let degrees = degrees_of(alloc, nodes, edges, bytes)?;
    let mut graph = Graph::with_room(alloc, &degrees)?;
    let mut last = None;
    let mut rest = bytes;
    for _ in 0..edges {
        let (front, behind) = rest.split_at(EDGE_LEN);
        let edge = edge_of(front);
        if !edge.is_next(nodes, last) {
            return Err(OpenRefused::Damaged);
        }
        add_edge(&mut graph, edge)?;
        last = Some((edge.a, edge.b));
        rest = behind;
    }
    Ok(graph)
}
