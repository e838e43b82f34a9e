// Slow searches over a list of edges.
use crate::drawn::Edge;
use crate::helpers::got;
use std::alloc::Global;
use std::process::Abort;

/// The distance of each node from the nearest source: Bellman and Ford's search, over every edge, both ways, as often as there are nodes.
pub(crate) fn bellman_ford(
    rt: &impl Abort,
    alloc: Global,
    edges: &[Edge],
    sources: &[bool],
) -> Vec<Option<u64>> {
    let mut distances = Vec::new(alloc);
    for source in sources {
        let start = if *source { Some(0u64) } else { None };
        got(rt, distances.push(start));
    }
    for _ in 0..sources.len() {
        for (a, b, weight) in edges {
            offer(&mut distances, *a, *b, *weight);
            offer(&mut distances, *b, *a, *weight);
        }
    }
    distances
}

/// The distance of each of so many nodes from one of them, by the same search.
pub(crate) fn distances_from(
    rt: &impl Abort,
    alloc: Global,
    edges: &[Edge],
    nodes: u16,
    source: u16,
) -> Vec<Option<u64>> {
    let mut sources = Vec::new(alloc);
    for node in 0..nodes {
        got(rt, sources.push(node == source));
    }
    bellman_ford(rt, alloc, edges, &sources)
}

/// The distance of a node, if it has one.
pub(crate) fn at(distances: &[Option<u64>], node: u16) -> Option<u64> {
    distances.get(node as usize).copied().flatten()
}

/// Lowers the distance of a node to the one over an edge, where that is less.
fn offer(distances: &mut [Option<u64>], from: u16, to: u16, weight: u32) {
    let Some(start) = at(distances, from) else {
        return;
    };
    let over = start.saturating_add(weight as u64);
    if let Some(there) = distances.get_mut(to as usize) {
        *there = Some(there.map_or(over, |d| d.min(over)));
    }
}

/// The nodes that a root reaches with their distances, by a scan over all nodes for the nearest open one, once for each node.
pub(crate) fn scanned(
    rt: &impl Abort,
    alloc: Global,
    edges: &[Edge],
    nodes: u16,
    root: u16,
) -> Vec<(u16, u64)> {
    let mut tentative = Vec::new(alloc);
    for node in 0..nodes {
        let start = if node == root { Some(0u64) } else { None };
        got(rt, tentative.push(start));
    }
    let mut order: Vec<(u16, u64)> = Vec::new(alloc);
    for _ in 0..nodes {
        let Some((node, distance)) = nearest_open(&tentative, &order, nodes) else {
            return order;
        };
        got(rt, order.push((node, distance)));
        for (a, b, weight) in edges {
            if *a == node {
                offer(&mut tentative, node, *b, *weight);
            }
            if *b == node {
                offer(&mut tentative, node, *a, *weight);
            }
        }
    }
    order
}

/// The nearest node that is not in the list yet, the smallest of several as near, and its distance.
fn nearest_open(tentative: &[Option<u64>], order: &[(u16, u64)], nodes: u16) -> Option<(u16, u64)> {
    let mut nearest: Option<(u16, u64)> = None;
    for node in 0..nodes {
        if order.iter().any(|(listed, _)| *listed == node) {
            continue;
        }
        if let Some(distance) = at(tentative, node) {
            if nearest.map_or(true, |(_, least)| distance < least) {
                nearest = Some((node, distance));
            }
        }
    }
    nearest
}

/// The smallest node over an edge from which the distance of a node is attained.
pub(crate) fn parent_by_edges(
    edges: &[Edge],
    distances: &[Option<u64>],
    node: u16,
    distance: u64,
) -> Option<u16> {
    let mut parent: Option<u16> = None;
    for (a, b, weight) in edges {
        for (from, to) in [(*a, *b), (*b, *a)] {
            let over = at(distances, from).map(|d| d.saturating_add(*weight as u64));
            if to == node && over == Some(distance) && parent.map_or(true, |p| from < p) {
                parent = Some(from);
            }
        }
    }
    parent
}

/// The nearest landmark of each node and its distance, by a search from each landmark: the smallest of several as near.
pub(crate) fn nearest_by_each(
    rt: &impl Abort,
    alloc: Global,
    edges: &[Edge],
    nodes: u16,
    flags: &[bool],
) -> Vec<Option<(u16, u64)>> {
    let mut all: Vec<Option<(u16, u64)>> = got(rt, vec![in alloc; None; nodes as usize]);
    for landmark in 0..nodes {
        if flags.get(landmark as usize).copied() == Some(true) {
            let distances = distances_from(rt, alloc, edges, nodes, landmark);
            take_nearer(&mut all, landmark, &distances);
        }
    }
    all
}

/// Takes a landmark where it is nearer than what was found.
fn take_nearer(all: &mut [Option<(u16, u64)>], landmark: u16, distances: &[Option<u64>]) {
    for (nearest, distance) in all.iter_mut().zip(distances.iter()) {
        if let Some(distance) = *distance {
            if nearest.map_or(true, |(_, least)| distance < least) {
                *nearest = Some((landmark, distance));
            }
        }
    }
}
