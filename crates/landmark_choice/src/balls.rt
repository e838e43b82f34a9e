// The nodes nearest to each node.
ghost use Rattle.std.specs.Prelude.{◌≡◌, IfOk};

use crate::limits::default_limit;
use crate::rows::Rows;
use crate::search::Search;
use distances::Settled;
use graph_edits::Graph;
use std::alloc::{AllocError, Global};
use std::marker::Model;
use std::thread;
use std::thread::Threads;

/// The nodes nearest to a node, the node itself first, with their distances.
#[derive(Drop)]
pub(crate) struct Ball {
    pub(crate) nodes: Vec<u16>,
    pub(crate) distances: Vec<u64>,
    /// The sum of the distances.
    pub(crate) reach: u64,
}

/// The nodes nearest to each node of a network, which a contract sees as the number of its nodes. A ball has one node more than a table
/// may have entries and members, where so many are reached.
#[derive(Drop)]
pub struct Balls {
    nodes: u16,
    pub(crate) rows: Rows,
    /// How many nodes a ball has at most.
    pub(crate) most: usize,
    balls: Vec<Ball>,
    parts: Vec<u16>,
}

impl Model for Balls {
    ghost use Rattle.std.specs.Prelude.{ℕ};

    // how many nodes the network has
    ghost Value = { ℕ };

    ghost view = { λ balls. balls.nodes };
}

impl Balls {
    /// The balls of a network whose tables are to have at most so many entries and members. So many workers find them, at least one, each
    /// in a thread of its own where one can be made. An `Err` means that memory was refused.
    pub fn of<R: Threads + Sync>(
        rt: &R,
        alloc: Global,
        graph: &Graph,
        most_entries: u16,
        workers: u16,
    ) -> Result<Balls, AllocError>
        ensures { IfOk result (λ balls. balls ≡ graph.now.nodes) }
    {
        let rows = Rows::of(alloc, graph)?;
        let most = (most_entries.max(default_limit(graph.nodes())) as usize).saturating_add(1);
        let parts = parts_of(alloc, &rows, graph.nodes())?;
        let balls = balls_in_threads(rt, alloc, &rows, graph.nodes(), most, workers.max(1))?;
        Ok(Balls {
            nodes: graph.nodes(),
            rows,
            most,
            balls,
            parts,
        })
    }

    /// How many nodes the network has.
    pub(crate) fn count(&self) -> u16
        ensures { result ≡ self.now }
    {
        self.nodes
    }

    pub(crate) fn at(&self, node: u16) -> Option<&Ball> {
        self.balls.get(node as usize)
    }

    /// The part that a node is in, by the smallest of its nodes.
    pub(crate) fn part_of(&self, node: u16) -> u16 {
        self.parts.get(node as usize).copied().unwrap_or(node)
    }
}

// The part of each node, by the smallest of its nodes.
fn parts_of(alloc: Global, rows: &Rows, nodes: u16) -> Result<Vec<u16>, AllocError> {
    let mut parts = vec![in alloc; u16::MAX; nodes as usize]?;
    let mut search = Search::new(alloc, nodes)?;
    for node in 0..nodes {
        if parts.get(node as usize).copied() == Some(u16::MAX) {
            search.run(rows, node, &[], usize::MAX)?;
            set_parts(&mut parts, search.found(), node);
        }
    }
    Ok(parts)
}

fn set_parts(parts: &mut [u16], members: &[Settled], part: u16) {
    for member in members {
        if let Some(there) = parts.get_mut(member.node as usize) {
            *there = part;
        }
    }
}

// The balls of all nodes: each worker finds those of a range of the nodes.
fn balls_in_threads<R: Threads + Sync>(
    rt: &R,
    alloc: Global,
    rows: &Rows,
    nodes: u16,
    most: usize,
    workers: u16,
) -> Result<Vec<Ball>, AllocError> {
    let size = nodes.div_ceil(workers.max(1)).max(1);
    let ranges = nodes.div_ceil(size) as usize;
    let made = thread::map_indices(
        rt,
        alloc,
        ranges,
        &|i: usize| -> Result<Vec<Ball>, AllocError> {
            balls_of_range(alloc, rows, nodes, size, i, most)
        },
    )?;
    let mut balls = Vec::with_capacity(alloc, nodes as usize)?;
    for range in made {
        put_behind(&mut balls, range?)?;
    }
    Ok(balls)
}

fn put_behind(balls: &mut Vec<Ball>, more: Vec<Ball>) -> Result<(), AllocError> {
    for ball in more {
        balls.push(ball)?;
    }
    Ok(())
}

fn balls_of_range(
    alloc: Global,
    rows: &Rows,
    nodes: u16,
    size: u16,
    i: usize,
    most: usize,
) -> Result<Vec<Ball>, AllocError> {
    let first = i.saturating_mul(size as usize).min(nodes as usize);
    let last = first.saturating_add(size as usize).min(nodes as usize);
    let mut search = Search::new(alloc, nodes)?;
    let mut balls = Vec::with_capacity(alloc, size as usize)?;
    for node in first as u16..last as u16 {
        search.run(rows, node, &[], most)?;
        balls.push(ball_of(alloc, search.found())?)?;
    }
    Ok(balls)
}

fn ball_of(alloc: Global, found: &[Settled]) -> Result<Ball, AllocError> {
    let mut nodes = Vec::with_capacity(alloc, found.len())?;
    let mut distances = Vec::with_capacity(alloc, found.len())?;
    let mut reach: u64 = 0;
    for settled in found {
        nodes.push(settled.node)?;
        distances.push(settled.distance)?;
        reach = reach.saturating_add(settled.distance);
    }
    Ok(Ball {
        nodes,
        distances,
        reach,
    })
}
