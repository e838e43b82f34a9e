// Graphs of edges, the longest path, and drawn edges and flags.
ghost use Rattle.std.specs.Prelude.{◌≡◌, length};
ghost use Rattle.distances.specs.Nearest.{AreNearest};

use crate::helpers::got;
use distances::{Nearest, from_landmarks};
use graph_edits::{GREATEST_WEIGHT, Graph};
use landmarks::choose;
use rand_core::Rng;
use rand_xoshiro::Xoshiro256PlusPlus;
pub(crate) use sample_networks::Edge;
use std::alloc::Global;
use std::process::Abort;

/// The graph of a table.
pub(crate) fn graph_of(rt: &impl Abort, alloc: Global, nodes: u16, edges: &[Edge]) -> Graph {
    got(rt, sample_networks::graph_of(alloc, nodes, edges))
}

/// The nearest landmarks of a graph, where the nodes with a flag are the landmarks.
pub(crate) fn nearest_of(rt: &impl Abort, alloc: Global, graph: &Graph, flags: &[bool]) -> Nearest
    ensures nodes { length result.nearest ≡ graph.now.nodes }
    ensures nearest { AreNearest graph.now.edges result.nearest }
{
    let mut words = Vec::new(alloc);
    for flag in flags {
        let word = if *flag { 0u64 } else { u64::MAX };
        got(rt, words.push(word));
    }
    assert!(rt; 1 <= words.len());
    let landmarks = choose(alloc, words.len(), &words).expect(rt, "memory");
    let nodes = graph.nodes();
    let marked = landmarks.flags().len();
    assert!(rt; marked == nodes as usize);
    from_landmarks(alloc, graph, &landmarks).expect(rt, "memory")
}

/// The edges of a path of so many nodes, each of the greatest weight.
pub(crate) fn path_of(rt: &impl Abort, alloc: Global, nodes: u16) -> Vec<Edge> {
    let mut edges = Vec::new(alloc);
    for node in 1..nodes {
        got(rt, edges.push((node - 1, node, GREATEST_WEIGHT)));
    }
    edges
}

/// A number below another one, or 0 where there is none.
pub(crate) fn below(rng: &mut Xoshiro256PlusPlus, limit: u16) -> u16 {
    let word = rng.next_u64();
    u16::try_from(word.checked_rem(limit as u64).unwrap_or(0)).unwrap_or(0)
}

/// Up to 23 edges between so many nodes, at most one a pair, with weights from 1 to 5.
pub(crate) fn drawn_edges(
    rt: &impl Abort,
    alloc: Global,
    rng: &mut Xoshiro256PlusPlus,
    nodes: u16,
) -> Vec<Edge> {
    let mut edges: Vec<Edge> = Vec::new(alloc);
    for _ in 0..below(rng, 24) {
        let a = below(rng, nodes);
        let b = below(rng, nodes);
        let weight = below(rng, 5).saturating_add(1) as u32;
        if a != b && !edges.iter().any(|(x, y, _)| joins(a, b, *x, *y)) {
            got(rt, edges.push((a, b, weight)));
        }
    }
    edges
}

/// Whether an edge between x and y is one between a and b.
fn joins(a: u16, b: u16, x: u16, y: u16) -> bool {
    (x == a && y == b) || (x == b && y == a)
}

/// A flag for each of so many nodes, which stands with a chance of one in `among`.
pub(crate) fn drawn_flags(
    rt: &impl Abort,
    alloc: Global,
    rng: &mut Xoshiro256PlusPlus,
    nodes: u16,
    among: u16,
) -> Vec<bool> {
    let mut flags = Vec::new(alloc);
    for _ in 0..nodes {
        got(rt, flags.push(below(rng, among) == 0));
    }
    flags
}
