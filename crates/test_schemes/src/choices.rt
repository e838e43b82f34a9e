// Choices of landmarks: by words that no seed draws and limits, by hand, and in drawn networks against a plain chooser. Networks whose choice
// is worked out by hand are in conformance/landmarks.txt.
use crate::helpers::{Edge, Network, Words, again, got, number, same};
use landmark_choice::{
    Balls, Choice, Limits, Measure, Start, choose_best, choose_from, default_limit,
};
use rand_core::{Rng, SeedableRng};
use sample_networks::PlainGraph;
use std::alloc::{AllocError, Global};
use std::process::Abort;
use std::thread::Threads;

/// The balls of a network, as so many workers find them.
pub(crate) fn balls_of<R: Abort + Threads + Sync>(
    rt: &R,
    network: &Network,
    limits: Limits,
    workers: u16,
) -> Balls {
    let (alloc, graph) = (network.alloc, &network.graph);
    let most = limits.most_entries;
    again(rt, || Balls::of(rt, alloc, graph, most, workers))
}

/// The best choice of all starts.
pub(crate) fn best<R: Abort + Threads + Sync>(
    rt: &R,
    alloc: Global,
    balls: &Balls,
    words: &[u64],
    limits: Limits,
) -> Choice {
    again(rt, || choose_best(rt, alloc, balls, words, limits))
}

/// A star of nine nodes around node 4. Of the words of a start those below the bound draw, the smallest first; and nodes with more neighbours come first by degree. Where twelve
/// entries are enough, none but the middle is left of the best.
#[test]
fn begins_with_a_start(rt: HostRuntime) {
    let (rt, alloc) = (&rt, rt.alloc());
    let leaves = (0..9u16).filter(|leaf| *leaf != 4);
    let edges: Vec<Edge> = got(rt, leaves.map(|leaf| (4, leaf, 1)).collect(alloc));
    let star = Network::of(rt, alloc, 9, &edges);
    let words = [7u64, u64::MAX, 5, 6, u64::MAX, 3, 4, 9, 8];
    let limits = |most_entries, most| Limits { most_entries, most };
    let balls = balls_of(rt, &star, limits(100, 3), 1);
    for (start, want) in [(Start::Draw, [2u16, 5, 6]), (Start::Degree, [4, 5, 6])] {
        let found = got(
            rt,
            choose_from(alloc, &balls, &words, start, limits(100, 3)),
        );
        same(rt, found.nodes.as_slice(), want.as_slice(), "a choice");
    }
    let balls = balls_of(rt, &star, limits(12, 12), 1);
    let found = best(rt, alloc, &balls, &words, limits(12, 12));
    same(rt, found.nodes.as_slice(), [4u16].as_slice(), "the best");
}

/// Nodes, and the limits where none are given.
const LIMITS: [[u16; 7]; 2] = [
    [1, 2, 5, 1024, 4096, 16_383, 16_384],
    [4, 5, 8, 128, 256, 511, 512],
];

#[test]
fn limits_by_hand(rt: HostRuntime) {
    for (nodes, limit) in LIMITS[0].iter().zip(LIMITS[1].iter()) {
        let found = (*nodes, default_limit(*nodes));
        same(&rt, found, (*nodes, *limit), "a limit");
    }
}

/// Compares the choices from all starts in a drawn network with those of the plain chooser, and the least of them with the best by one to
/// four workers.
fn compare<R: Abort + Threads + Sync>(rt: &R, rng: &mut Words, network: &Network, limits: Limits) {
    let (alloc, graph) = (network.alloc, network.plain(rt));
    let plain = got(rt, Plain::of(alloc, &graph, limits));
    let mut words = Vec::new(alloc);
    for _ in 0..graph.nodes {
        got(rt, words.push(rng.next_u64()));
    }
    let balls = balls_of(rt, network, limits, 3);
    let mut least: Option<(Measure, Vec<u16>)> = None;
    for start in [Start::None, Start::Draw, Start::Degree] {
        let found = got(rt, choose_from(alloc, &balls, &words, start, limits));
        let (measure, at) = got(rt, plain.choose(alloc, &words, start));
        expect_choice(rt, &found, measure, &at);
        if least.as_ref().is_none_or(|(before, _)| measure < *before) {
            least = Some((measure, at));
        }
    }
    let (measure, at) = got(rt, least.ok_or("no start"));
    for workers in 1..5u16 {
        let balls = balls_of(rt, network, limits, workers);
        expect_choice(rt, &best(rt, alloc, &balls, &words, limits), measure, &at);
    }
}

fn expect_choice(rt: &impl Abort, found: &Choice, measure: Measure, at: &[u16]) {
    same(rt, found.measure, measure, "a measure");
    same(rt, found.nodes.as_slice(), at, "landmarks");
}

/// Networks of one node to 40: connected ones and many parts, equal weights and others, and limits that can be kept or not.
#[test]
fn chooses_as_a_plain_chooser(rt: HostRuntime) {
    let mut rng = Words::seed_from_u64(74);
    for _ in 0..32 {
        let nodes = number(&mut rng, 40).saturating_add(1);
        let edges = (3 + rng.next_u64() % 30, 100);
        let limits = Limits {
            most_entries: 1 + (rng.next_u64() % 20) as u16,
            most: 1 + (rng.next_u64() % 12) as u16,
        };
        let network = Network::drawn(&rt, rt.alloc(), &mut rng, nodes, edges);
        compare(&rt, &mut rng, &network, limits);
    }
}

/// A network by the distances between its nodes, the limits of a choice, and of each node the nodes that it counts.
#[derive(Drop)]
struct Plain<'a> {
    graph: &'a PlainGraph,
    limits: Limits,
    counted: Vec<Vec<u16>>,
}

impl<'a> Plain<'a> {
    fn of(alloc: Global, graph: &'a PlainGraph, limits: Limits) -> Result<Plain<'a>, AllocError> {
        let mut plain = Plain {
            graph,
            limits,
            counted: Vec::new(alloc),
        };
        for node in 0..graph.nodes {
            let nodes = 0..graph.nodes;
            let counted = nodes.filter(|other| plain.place(node, *other) < plain.most());
            let counted: Vec<u16> = counted.collect(alloc)?;
            plain.counted.push(counted)?;
        }
        Ok(plain)
    }

    /// How many nodes a node counts: one more than a table may have entries and members, or than four times the square root of all.
    fn most(&self) -> usize {
        let roots = (16 * self.graph.nodes as u64).isqrt() as usize;
        let most = self.limits.most_entries as usize;
        roots.max(most).saturating_add(1)
    }

    /// How many nodes are nearer to a node than another one, or as near with a smaller number; the greatest where none is as far.
    fn place(&self, node: u16, other: u16) -> usize {
        let Some(distance) = self.graph.distance(node, other) else {
            return usize::MAX;
        };
        let is_before = |near: &u16| {
            let found = self.graph.distance(node, *near);
            found.is_some_and(|found| (found, *near) < (distance, other))
        };
        (0..self.graph.nodes).filter(is_before).count()
    }

    fn counts(&self, node: u16, other: u16) -> bool {
        let counted = self.counted.get(node as usize);
        counted.is_some_and(|counted| counted.contains(&other))
    }

    /// Whether a node has an entry for another one, of those that it counts: that is nearer than every landmark.
    fn has(&self, node: u16, other: u16, landmarks: &[u16]) -> bool {
        let distance = self.graph.distance(node, other);
        self.counts(node, other)
            && landmarks.iter().all(|landmark| {
                let there = self.graph.distance(node, *landmark);
                there.is_none() || distance < there
            })
    }

    /// How many entries a node has of those that it counts.
    fn count(&self, node: u16, landmarks: &[u16]) -> u64 {
        let others = 0..self.graph.nodes;
        let had = others.filter(|other| self.has(node, *other, landmarks));
        had.count() as u64
    }

    /// The entries and members of a node's table.
    fn size(&self, node: u16, landmarks: &[u16]) -> u64 {
        let mut size = self.count(node, landmarks);
        for other in 0..self.graph.nodes {
            let is_reached = self.graph.distance(node, other).is_some();
            let is_root = landmarks.contains(&other) && is_reached;
            let more = is_root as u64 + self.has(other, node, landmarks) as u64;
            size = size.saturating_add(more);
        }
        size
    }

    /// What these landmarks come to.
    fn measure(&self, landmarks: &[u16]) -> Measure {
        let mut measure = Measure {
            unknown: 0,
            greatest: 0,
            total: 0,
        };
        for node in 0..self.graph.nodes {
            let size = self.size(node, landmarks);
            measure.greatest = measure.greatest.max(size);
            measure.total = measure.total.saturating_add(size);
            if self.count(node, landmarks) >= self.most() as u64 {
                measure.unknown = measure.unknown.saturating_add(1);
            }
        }
        measure
    }

    /// The sum of the distances from a node to those that it counts.
    fn reach(&self, node: u16) -> u64 {
        let mut reach: u64 = 0;
        for other in 0..self.graph.nodes {
            if self.counts(node, other) {
                reach = reach.saturating_add(self.graph.distance(node, other).unwrap_or(0));
            }
        }
        reach
    }

    /// The next landmark: of those that are none the largest table, of several the one of the least reach, and the smallest number.
    fn next(&self, landmarks: &[u16]) -> Option<u16> {
        let mut best: Option<(u64, u64, u16)> = None;
        for node in 0..self.graph.nodes {
            let rank = (
                u64::MAX - self.size(node, landmarks),
                self.reach(node),
                node,
            );
            if !landmarks.contains(&node) && best.is_none_or(|best| rank < best) {
                best = Some(rank);
            }
        }
        best.map(|best| best.2)
    }

    /// The node of the best word that isn't taken: of those with the most neighbours, or of those whose word is below a bound.
    fn next_to_start(&self, words: &[u64], taken: &[u16], start: Start) -> Option<u16> {
        let nodes = self.graph.nodes;
        let root = nodes.isqrt();
        let root_above = root as u64 + (root as u64 * (root as u64) < nodes as u64) as u64;
        let mut best: Option<(u64, u64, u16)> = None;
        for (node, word) in (0..nodes).zip(words.iter()) {
            let others = 0..nodes;
            let degree = others.filter(|other| self.graph.weight(node, *other).is_some());
            let (is_asked, degree) = match start {
                Start::None => (false, 0),
                Start::Draw => (*word < u64::MAX / root_above.max(1), 0),
                Start::Degree => (taken.len() < root as usize, degree.count() as u64),
            };
            let rank = (u64::MAX - degree, *word, node);
            if is_asked && !taken.contains(&node) && best.is_none_or(|best| rank < best) {
                best = Some(rank);
            }
        }
        best.map(|best| best.2)
    }

    /// The choice from a start, and what it comes to.
    fn choose(
        &self,
        alloc: Global,
        words: &[u64],
        start: Start,
    ) -> Result<(Measure, Vec<u16>), AllocError> {
        let mut landmarks = Vec::new(alloc);
        for _ in 0..self.limits.most {
            if let Some(node) = self.next_to_start(words, &landmarks, start) {
                landmarks.push(node)?;
            }
        }
        let mut best = self.measure(&landmarks);
        let mut kept = landmarks.len();
        for _ in 0..self.graph.nodes {
            let is_kept = best.unknown == 0 && best.greatest <= self.limits.most_entries as u64;
            if is_kept || landmarks.len() >= self.limits.most as usize {
                break;
            }
            if let Some(node) = self.next(&landmarks) {
                landmarks.push(node)?;
                let measure = self.measure(&landmarks);
                if measure < best {
                    best = measure;
                    kept = landmarks.len();
                }
            }
        }
        landmarks.truncate(kept);
        landmarks.sort()?;
        Ok((best, landmarks))
    }
}
