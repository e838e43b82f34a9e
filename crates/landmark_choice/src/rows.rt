// The neighbours of each node, the nearest first.
use graph_edits::Graph;
use std::alloc::{AllocError, Global};

/// A neighbour. The derived order is by the weight of the edge, and then by node.
#[derive(Clone, Copy, PartialEq, Eq, PartialOrd, Ord)]
pub(crate) struct Neighbour {
    pub(crate) weight: u32,
    pub(crate) node: u16,
}

/// The neighbours of each node, in ascending order of weight and then of node.
#[derive(Drop)]
pub(crate) struct Rows(Vec<Vec<Neighbour>>);

impl Rows {
    pub(crate) fn of(alloc: Global, graph: &Graph) -> Result<Rows, AllocError> {
        let mut rows = Vec::with_capacity(alloc, graph.nodes() as usize)?;
        for node in 0..graph.nodes() {
            rows.push(row_of(alloc, graph.neighbours(node))?)?;
        }
        Ok(Rows(rows))
    }

    /// The neighbours of a node, none of one that isn't there.
    pub(crate) fn at(&self, node: u16) -> &[Neighbour] {
        match self.0.get(node as usize) {
            Some(row) => row.as_slice(),
            None => &[],
        }
    }
}

fn row_of(alloc: Global, neighbours: &[(u16, u32)]) -> Result<Vec<Neighbour>, AllocError> {
    let mut row = Vec::with_capacity(alloc, neighbours.len())?;
    for (node, weight) in neighbours {
        row.push(Neighbour {
            weight: *weight,
            node: *node,
        })?;
    }
    row.sort_unstable();
    Ok(row)
}
