//! Networks that are drawn.
ghost use Rattle.std.specs.Prelude.{◌≡◌, ◌≤◌, ◌+◌, ◌++◌, ◌∷◌, [], IfOk, OnOk};
ghost use Rattle.sample_networks.specs.Drawn.{AreEdges, AreNodes};

use crate::tables::Edge;
use rand_core::Rng;
use rand_xoshiro::Xoshiro256PlusPlus;
use std::alloc::{AllocError, Global};

/// So many chances out of so many.
pub type Odds = (u64, u64);

/// Edges between so many nodes: one between each two of them by these odds, of a weight from 1 to the heaviest. For each two a word is
/// drawn for the weight, and then one for the odds. Where memory is refused, it is asked for once more.
pub fn drawn_edges(
    alloc: Global,
    rng: &mut Xoshiro256PlusPlus,
    nodes: u16,
    heaviest: u32,
    odds: Odds,
) -> Result<Vec<Edge>, AllocError>
    requires { 1 ≤ heaviest }
    ensures { IfOk result (λ edges. AreEdges nodes heaviest edges.items) }
{
    let mut edges = Vec::new(alloc);
    for a in 0..nodes {
        draw_from(&mut edges, rng, a, heaviest, odds)?;
    }
    Ok(edges)
}

// Edges from a node to those below it.
fn draw_from(
    edges: &mut Vec<Edge>,
    rng: &mut Xoshiro256PlusPlus,
    a: u16,
    heaviest: u32,
    odds: Odds,
) -> Result<(), AllocError>
    requires some { 1 ≤ heaviest }
    requires below { AreEdges a heaviest edges.old.items }
    ensures { OnOk result (AreEdges (a + 1) heaviest edges.new.items) }
{
    for b in 0..a {
        let weight = 1 + (rng.next_u64() % heaviest as u64) as u32;
        if falls(rng, odds) {
            push_again(edges, (a, b, weight))?;
        }
    }
    Ok(())
}

/// Some of so many nodes, each by these odds, by a word each. Where memory is refused, it is asked for once more.
pub fn drawn_nodes(
    alloc: Global,
    rng: &mut Xoshiro256PlusPlus,
    nodes: u16,
    odds: Odds,
) -> Result<Vec<u16>, AllocError>
    ensures { IfOk result (λ drawn. AreNodes nodes drawn.items) }
{
    let mut drawn = Vec::new(alloc);
    for node in 0..nodes {
        if falls(rng, odds) {
            push_again(&mut drawn, node)?;
        }
    }
    Ok(drawn)
}

// Whether a word falls into these odds.
fn falls(rng: &mut Xoshiro256PlusPlus, odds: Odds) -> bool {
    let (chances, of) = odds;
    rng.next_u64() % of.max(1) < chances
}

fn push_again<T: Copy>(list: &mut Vec<T>, value: T) -> Result<(), AllocError>
    ensures { OnOk result (list.new.items ≡ list.old.items ++ value ∷ []) }
{
    match list.push(value) {
        Ok(()) => Ok(()),
        Err(_) => Ok(list.push(value)?),
    }
}
