// How large the tables of all nodes are under some landmarks, by counts.
use crate::balls::Balls;
use crate::search::Search;
use std::alloc::{AllocError, Global};

/// What some landmarks come to. The derived order is by the fields, as they stand: the smaller is the better.
#[derive(Clone, Copy, Debug, PartialEq, Eq, PartialOrd, Ord)]
pub struct Measure {
    /// How many nodes have more nodes nearer than every landmark than were counted: their tables are over the limit.
    pub unknown: u64,
    /// The entries and members of the largest table.
    pub greatest: u64,
    /// Those of all tables together.
    pub total: u64,
}

/// The counts of the tables of all nodes, while landmarks come.
#[derive(Drop)]
pub(crate) struct Tables<'a> {
    balls: &'a Balls,
    search: Search,
    // as which landmark each node came, counted from 1; 0 where it is none
    came: Vec<u16>,
    count: u16,
    // how far each node is from the nearest landmark
    limits: Vec<u64>,
    // how many of each node's ball are nearer than that
    lengths: Vec<usize>,
    // in how many balls each node is so
    members: Vec<u64>,
    // how many landmarks are in each part, at its smallest node
    landmarks: Vec<u64>,
}

impl<'a> Tables<'a> {
    /// The tables without a landmark.
    pub(crate) fn new(alloc: Global, balls: &'a Balls) -> Result<Tables<'a>, AllocError> {
        let nodes = balls.count();
        let mut lengths = vec![in alloc; 0; nodes as usize]?;
        let mut members = vec![in alloc; 0; nodes as usize]?;
        for node in 0..nodes {
            if let (Some(ball), Some(length)) = (balls.at(node), lengths.get_mut(node as usize)) {
                *length = ball.nodes.len();
                count_all(&mut members, &ball.nodes);
            }
        }
        Ok(Tables {
            balls,
            search: Search::new(alloc, nodes)?,
            came: vec![in alloc; 0; nodes as usize]?,
            count: 0,
            limits: vec![in alloc; u64::MAX; nodes as usize]?,
            lengths,
            members,
            landmarks: vec![in alloc; 0; nodes as usize]?,
        })
    }

    /// How many landmarks there are.
    pub(crate) fn count(&self) -> u16 {
        self.count
    }

    /// As which landmark each node came, counted from 1; 0 where it is none.
    pub(crate) fn came(&self) -> &[u16] {
        self.came.as_slice()
    }

    fn is_landmark(&self, node: u16) -> bool {
        self.came.get(node as usize).copied().unwrap_or(1) > 0
    }

    /// Makes a node a landmark, where it is none.
    pub(crate) fn add(&mut self, node: u16) -> Result<(), AllocError> {
        if self.is_landmark(node) {
            return Ok(());
        }
        let balls = self.balls;
        self.search
            .run(&balls.rows, node, &self.limits, usize::MAX)?;
        for moved in self.search.found() {
            shorten(
                balls,
                &mut self.lengths,
                &mut self.members,
                moved.node,
                moved.distance,
            );
            if let Some(limit) = self.limits.get_mut(moved.node as usize) {
                *limit = moved.distance;
            }
        }
        self.count = self.count.saturating_add(1);
        if let Some(came) = self.came.get_mut(node as usize) {
            *came = self.count;
        }
        if let Some(landmarks) = self.landmarks.get_mut(balls.part_of(node) as usize) {
            *landmarks = landmarks.saturating_add(1);
        }
        Ok(())
    }

    // The entries and members of a node's table.
    fn size(&self, node: u16) -> u64 {
        let landmarks = self
            .landmarks
            .get(self.balls.part_of(node) as usize)
            .copied()
            .unwrap_or(0);
        let members = self.members.get(node as usize).copied().unwrap_or(0);
        landmarks
            .saturating_add(self.length(node) as u64)
            .saturating_add(members)
    }

    fn length(&self, node: u16) -> usize {
        self.lengths.get(node as usize).copied().unwrap_or(0)
    }

    /// What the landmarks come to.
    pub(crate) fn measure(&self) -> Measure {
        let mut measure = Measure {
            unknown: 0,
            greatest: 0,
            total: 0,
        };
        let balls = self.balls;
        for node in 0..balls.count() {
            let size = self.size(node);
            if self.length(node) >= balls.most {
                measure.unknown = measure.unknown.saturating_add(1);
            }
            measure.greatest = measure.greatest.max(size);
            measure.total = measure.total.saturating_add(size);
        }
        measure
    }

    /// The node with the largest table that is no landmark: of those whose tables are as large the one whose ball reaches less far, and
    /// then the smaller one. None where all are landmarks.
    pub(crate) fn largest(&self) -> Option<u16> {
        let mut found = None;
        let mut most: (u64, u64) = (0, 0);
        for node in 0..self.balls.count() {
            if self.is_landmark(node) {
                continue;
            }
            let reach = match self.balls.at(node) {
                Some(ball) => ball.reach,
                None => 0,
            };
            // the larger pair is the larger table, or the ball that reaches less far
            let rank = (self.size(node), u64::MAX - reach);
            if found.is_none() || rank > most {
                found = Some(node);
                most = rank;
            }
        }
        found
    }
}

// One more for each of these nodes.
fn count_all(members: &mut [u64], nodes: &[u16]) {
    for node in nodes {
        if let Some(count) = members.get_mut(*node as usize) {
            *count = count.saturating_add(1);
        }
    }
}

// Leaves out the nodes of a ball that aren't nearer than a limit.
fn shorten(balls: &Balls, lengths: &mut [usize], members: &mut [u64], node: u16, limit: u64) {
    let (Some(ball), Some(length)) = (balls.at(node), lengths.get_mut(node as usize)) else {
        return;
    };
    for place in (0..*length).rev() {
        match (ball.distances.get(place), ball.nodes.get(place)) {
            (Some(distance), Some(member)) if *distance >= limit => {
                if let Some(count) = members.get_mut(*member as usize) {
                    *count = count.saturating_sub(1);
                }
                *length = place;
            }
            _ => break,
        }
    }
}
