//! A network by plain counts.
use crate::tables::Edge;
use std::alloc::{AllocError, Global};

/// A network as its edges, and for each node and each other one the weight of their edge and the length of the shortest way, where there
/// is one. The distances are counted slowly and stand on nothing else: tests hold others against them.
#[derive(Drop)]
pub struct PlainGraph {
    /// How many nodes it has, which are numbered from 0.
    pub nodes: u16,
    /// Its edges.
    pub edges: Vec<Edge>,
    /// The weights of edges.
    pub weights: Vec<Vec<Option<u32>>>,
    /// The distances.
    pub distances: Vec<Vec<Option<u64>>>,
}

impl PlainGraph {
    /// The network of so many nodes with these edges.
    pub fn new(alloc: Global, nodes: u16, edges: &[Edge]) -> Result<PlainGraph, AllocError> {
        let mut weights = Vec::new(alloc);
        let mut distances = Vec::new(alloc);
        for x in 0..nodes {
            let mut row = Vec::new(alloc);
            for y in 0..nodes {
                row.push(weight_of(edges, x, y))?;
            }
            weights.push(row)?;
            distances.push(distances_from(alloc, nodes, edges, x)?)?;
        }
        Ok(PlainGraph {
            nodes,
            edges: Vec::from_slice(alloc, edges)?,
            weights,
            distances,
        })
    }

    /// The weight of the edge between two nodes.
    pub fn weight(&self, x: u16, y: u16) -> Option<u32> {
        let row = self.weights.get(x as usize)?;
        row.get(y as usize).copied().flatten()
    }

    /// The distance between two nodes.
    pub fn distance(&self, x: u16, y: u16) -> Option<u64> {
        let row = self.distances.get(x as usize)?;
        row.get(y as usize).copied().flatten()
    }

    /// The neighbours of a node in ascending order.
    pub fn neighbours(&self, alloc: Global, x: u16) -> Result<Vec<u16>, AllocError> {
        let mut all = Vec::new(alloc);
        for y in 0..self.nodes {
            if self.weight(x, y).is_some() {
                all.push(y)?;
            }
        }
        Ok(all)
    }

    /// The port of a node to a neighbour: the neighbour's place among all of the node's, counted from 0.
    pub fn port(&self, alloc: Global, x: u16, y: u16) -> Result<Option<u16>, AllocError> {
        for (port, neighbour) in self.neighbours(alloc, x)?.iter().enumerate() {
            if *neighbour == y {
                return Ok(u16::try_from(port).ok());
            }
        }
        Ok(None)
    }
}

// The weight of the edge between two nodes, in either order.
fn weight_of(edges: &[Edge], x: u16, y: u16) -> Option<u32> {
    for (a, b, weight) in edges {
        if (*a == x && *b == y) || (*a == y && *b == x) {
            return Some(*weight);
        }
    }
    None
}

// The distance of each of so many nodes from one, where there is a way over these edges: as often as there are nodes, each edge may
// shorten it.
fn distances_from(
    alloc: Global,
    nodes: u16,
    edges: &[Edge],
    from: u16,
) -> Result<Vec<Option<u64>>, AllocError> {
    let mut best = vec![in alloc; None; nodes as usize]?;
    if let Some(start) = best.get_mut(from as usize) {
        *start = Some(0u64);
    }
    for _ in 0..nodes {
        for (a, b, weight) in edges {
            for (x, y) in [(*a, *b), (*b, *a)] {
                let here = best.get(x as usize).copied().flatten();
                if let (Some(d), Some(there)) = (here, best.get_mut(y as usize)) {
                    let more = d.saturating_add(*weight as u64);
                    if there.is_none_or(|old| more < old) {
                        *there = Some(more);
                    }
                }
            }
        }
    }
    Ok(best)
}
