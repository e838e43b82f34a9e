// The search for the nodes nearest to one.
use crate::rows::Rows;
use distances::Settled;
use graph_edits::MOST_EDGES;
use std::alloc::{AllocError, Global};
use std::cmp::Reverse;
use std::collections::BinaryHeap;

/// No search looks along more edges: each once from either end.
const MOST_OFFERS: usize = 2 * MOST_EDGES;

/// A node that waits at a distance, and the place of the settled node that offers it. The derived order is by distance, and then by node.
#[derive(Clone, Copy, PartialEq, Eq, PartialOrd, Ord)]
struct Offer {
    distance: u64,
    node: u16,
    from: usize,
}

/// Room for one search after another. Of each settled node one neighbour waits at a time, the nearest that isn't settled: so a search looks at
/// hardly more than what it finds, also beside a node with many neighbours.
#[derive(Drop)]
pub(crate) struct Search {
    is_settled: Vec<bool>,
    order: Vec<Settled>,
    // how many neighbours of each settled node have had their turn
    turns: Vec<usize>,
    waiting: BinaryHeap<Reverse<Offer>>,
}

impl Search {
    pub(crate) fn new(alloc: Global, nodes: u16) -> Result<Search, AllocError> {
        Ok(Search {
            is_settled: vec![in alloc; false; nodes as usize]?,
            order: Vec::with_capacity(alloc, nodes as usize)?,
            turns: Vec::with_capacity(alloc, nodes as usize)?,
            waiting: BinaryHeap::new(alloc),
        })
    }

    /// The nodes that were found last, by distance and then by node.
    pub(crate) fn found(&self) -> &[Settled] {
        self.order.as_slice()
    }

    /// Finds the nodes nearest to a root, at most so many, of those whose distance is below their limit. A node past the end of the limits
    /// has none, and the root needs none.
    pub(crate) fn run(
        &mut self,
        rows: &Rows,
        root: u16,
        limits: &[u64],
        most: usize,
    ) -> Result<(), AllocError> {
        self.clear();
        self.settle(
            rows,
            limits,
            Settled {
                distance: 0,
                node: root,
            },
        )?;
        for _ in 0..MOST_OFFERS {
            if self.order.len() >= most {
                break;
            }
            let Some(Reverse(offer)) = self.waiting.pop() else {
                break;
            };
            self.take(rows, limits, offer)?;
        }
        Ok(())
    }

    fn clear(&mut self) {
        for settled in self.order.iter() {
            if let Some(flag) = self.is_settled.get_mut(settled.node as usize) {
                *flag = false;
            }
        }
        self.order.clear();
        self.turns.clear();
        self.waiting.clear();
    }

    // Settles the node of an offer, unless it is, and lets the next neighbour of the one that offered it wait.
    fn take(&mut self, rows: &Rows, limits: &[u64], offer: Offer) -> Result<(), AllocError> {
        if !self.is_settled(offer.node) {
            self.settle(
                rows,
                limits,
                Settled {
                    distance: offer.distance,
                    node: offer.node,
                },
            )?;
        }
        self.offer_next(rows, limits, offer.from)
    }

    fn is_settled(&self, node: u16) -> bool {
        self.is_settled.get(node as usize).copied().unwrap_or(true)
    }

    fn settle(&mut self, rows: &Rows, limits: &[u64], node: Settled) -> Result<(), AllocError> {
        if let Some(flag) = self.is_settled.get_mut(node.node as usize) {
            *flag = true;
        }
        let place = self.order.len();
        self.order.push(node)?;
        self.turns.push(0)?;
        self.offer_next(rows, limits, place)
    }

    // Lets the next neighbour of the settled node at a place wait, that isn't settled and lies within its limit.
    fn offer_next(&mut self, rows: &Rows, limits: &[u64], place: usize) -> Result<(), AllocError> {
        let (Some(at), Some(turn)) = (
            self.order.get(place).copied(),
            self.turns.get(place).copied(),
        ) else {
            return Ok(());
        };
        let row = rows.at(at.node);
        for next in turn..row.len() {
            let Some(neighbour) = row.get(next) else {
                break;
            };
            let distance = at.distance.saturating_add(neighbour.weight as u64);
            if !self.is_settled(neighbour.node) && distance < limit_of(limits, neighbour.node) {
                self.set_turn(place, next.saturating_add(1));
                self.waiting.push(Reverse(Offer {
                    distance,
                    node: neighbour.node,
                    from: place,
                }))?;
                return Ok(());
            }
        }
        self.set_turn(place, row.len());
        Ok(())
    }

    fn set_turn(&mut self, place: usize, turn: usize) {
        if let Some(there) = self.turns.get_mut(place) {
            *there = turn;
        }
    }
}

fn limit_of(limits: &[u64], node: u16) -> u64 {
    limits.get(node as usize).copied().unwrap_or(u64::MAX)
}
