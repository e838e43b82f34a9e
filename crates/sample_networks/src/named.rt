//! Landmarks that are named.
ghost use Rattle.std.specs.Prelude.{◌≡◌, ◌↔◌, ◌≤◌, IfOk};
ghost use Rattle.sample_networks.specs.Named.{flags_at, word_at, words_at};

use crate::tables::TableRefused;
use landmarks::{Landmarks, choose};
use std::alloc::{AllocError, Global};

/// A landmark word for each of so many nodes: 0 for a node that is named, and the greatest for another. Where memory is refused, it is
/// asked for once more.
pub fn words_at(alloc: Global, nodes: u16, at: &[u16]) -> Result<Vec<u64>, AllocError>
    ensures { IfOk result (λ words. words.items ≡ words_at nodes at.now) }
{
    match words_once(alloc, nodes, at) {
        Ok(words) => Ok(words),
        Err(_) => words_once(alloc, nodes, at),
    }
}

fn words_once(alloc: Global, nodes: u16, at: &[u16]) -> Result<Vec<u64>, AllocError>
    ensures { IfOk result (λ words. words.items ≡ words_at nodes at.now) }
{
    let mut words = Vec::with_capacity(alloc, nodes as usize)?;
    for node in 0..nodes {
        words.push(word_of(node, at))?;
    }
    Ok(words)
}

fn word_of(node: u16, at: &[u16]) -> u64
    ensures { result ≡ word_at at.now node }
{
    if at.contains(&node) { 0 } else { u64::MAX }
}

/// The named nodes as landmarks among so many, of which there has to be one. Where memory is refused, it is asked for once more.
pub fn landmarks_at(alloc: Global, nodes: u16, at: &[u16]) -> Result<Landmarks, TableRefused>
    ensures ok { IfOk result (λ landmarks. landmarks ≡ flags_at nodes at.now) }
{
    if nodes < 1 {
        return Err(TableRefused::Nodes);
    }
    let words = words_at(alloc, nodes, at)?;
    match choose(alloc, nodes as usize, &words) {
        Ok(landmarks) => Ok(landmarks),
        Err(_) => Ok(choose(alloc, nodes as usize, &words)?),
    }
}
