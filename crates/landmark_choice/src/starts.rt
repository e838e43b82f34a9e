// The landmarks with which a choice begins.
use crate::balls::Balls;
use landmarks::bound;
use std::alloc::{AllocError, Global};
use std::cmp::Reverse;

/// With which landmarks a choice begins.
#[derive(Clone, Copy, Debug, PartialEq, Eq)]
pub enum Start {
    /// With none.
    None,
    /// With those that the words draw.
    Draw,
    /// With as many as the square root of the number of nodes, those with the most neighbours, by the words where they have as many.
    Degree,
}

/// The landmarks of a start, at most so many: of those that are drawn the ones with the smallest words.
pub(crate) fn start_nodes(
    alloc: Global,
    balls: &Balls,
    words: &[u64],
    start: Start,
    most: u16,
) -> Result<Vec<u16>, AllocError> {
    match start {
        Start::None => Ok(Vec::new(alloc)),
        Start::Draw => drawn(alloc, words, most as usize),
        Start::Degree => {
            let root = balls.count().isqrt().min(most);
            by_degree(alloc, balls, words, root as usize)
        }
    }
}

fn drawn(alloc: Global, words: &[u64], most: usize) -> Result<Vec<u16>, AllocError> {
    let limit = bound(words.len().max(1));
    let mut ranked = Vec::new(alloc);
    for (node, word) in words.iter().enumerate() {
        if *word < limit {
            ranked.push((*word, u16::try_from(node).unwrap_or(u16::MAX)))?;
        }
    }
    ranked.sort_unstable();
    ranked.iter().take(most).map(|one| one.1).collect(alloc)
}

fn by_degree(
    alloc: Global,
    balls: &Balls,
    words: &[u64],
    most: usize,
) -> Result<Vec<u16>, AllocError> {
    let mut ranked = Vec::with_capacity(alloc, balls.count() as usize)?;
    for node in 0..balls.count() {
        let degree = balls.rows.at(node).len();
        let word = words.get(node as usize).copied().unwrap_or(u64::MAX);
        ranked.push((Reverse(degree), word, node))?;
    }
    ranked.sort_unstable();
    ranked.iter().take(most).map(|one| one.2).collect(alloc)
}
