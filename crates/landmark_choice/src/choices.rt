// The choice of landmarks, from one start or the best of all.
ghost use Rattle.std.specs.Prelude.{◌+◌, ◌<◌, IfOk, OnOk, length};
ghost use Rattle.landmark_choice.specs.Choices.{IsChoice};

use crate::balls::Balls;
use crate::limits::Limits;
use crate::starts::{Start, start_nodes};
use crate::tables::{Measure, Tables};
use std::alloc::{AllocError, Global};
use std::thread;
use std::thread::Threads;

/// Landmarks that were chosen.
#[derive(Debug, PartialEq, Eq, Drop)]
pub struct Choice {
    /// In ascending order.
    pub nodes: Vec<u16>,
    /// What they come to, by the counts.
    pub measure: Measure,
}

/// Chooses landmarks from a start on. The words are one for each node; where there are too few, the start has fewer landmarks or takes
/// them by number. An `Err` means that memory was refused.
pub fn choose_from(
    alloc: Global,
    balls: &Balls,
    words: &[u64],
    start: Start,
    limits: Limits,
) -> Result<Choice, AllocError>
    ensures { IfOk result (λ choice. IsChoice balls.now limits.most choice.nodes.items) }
{
    let mut tables = Tables::new(alloc, balls)?;
    for node in start_nodes(alloc, balls, words, start, limits.most)? {
        tables.add(node)?;
    }
    let mut best = tables.measure();
    let mut kept = tables.count();
    for _ in 0..balls.count() {
        if is_kept(best, limits) || tables.count() >= limits.most {
            break;
        }
        let Some(node) = tables.largest() else {
            break;
        };
        tables.add(node)?;
        let measure = tables.measure();
        if measure < best {
            best = measure;
            kept = tables.count();
        }
    }
    Ok(Choice {
        nodes: first_to_come(alloc, balls.count(), tables.came(), kept, limits.most)?,
        measure: best,
    })
}

fn is_kept(measure: Measure, limits: Limits) -> bool {
    measure.unknown == 0 && measure.greatest <= limits.most_entries as u64
}

// The landmarks that came first, so many of them, in ascending order.
fn first_to_come(
    alloc: Global,
    nodes: u16,
    came: &[u16],
    kept: u16,
    most: u16,
) -> Result<Vec<u16>, AllocError>
    ensures { IfOk result (λ chosen. IsChoice nodes most chosen.items) }
{
    let mut chosen = Vec::new(alloc);
    for node in 0..nodes {
        let came = came.get(node as usize).copied().unwrap_or(0);
        put_landmark(&mut chosen, node, came > 0 && came <= kept, most)?;
    }
    Ok(chosen)
}

// Puts a node behind the smaller ones, where it is one of the landmarks.
#[tactic(auto, using(crate::proofs::Ascending::one_more, crate::proofs::Ascending::no_more))]
fn put_landmark(chosen: &mut Vec<u16>, node: u16, is_one: bool, most: u16) -> Result<(), AllocError>
    requires { IsChoice node most chosen.old.items }
    ensures { OnOk result (IsChoice (node + 1) most chosen.new.items) }
{
    if is_one && chosen.len() < most as usize {
        chosen.push(node)?;
    }
    Ok(())
}

/// The same from all starts, side by side in threads where they can be made: the choice under which the largest table is smallest, then
/// all tables together, and then the one of the first start.
pub fn choose_best<R: Threads + Sync>(
    rt: &R,
    alloc: Global,
    balls: &Balls,
    words: &[u64],
    limits: Limits,
) -> Result<Choice, AllocError>
    ensures { IfOk result (λ choice. IsChoice balls.now limits.most choice.nodes.items) }
{
    let mut made = thread::map_indices(
        rt,
        alloc,
        STARTS.len(),
        &|i: usize| -> Result<Choice, AllocError>
            ensures { IfOk result (λ choice. IsChoice balls.entry.now limits.most choice.nodes.items) }
        { choose_from(alloc, balls, words, start_at(i), limits) },
    )?;
    if made.iter().any(|one| one.is_err()) {
        return Err(AllocError);
    }
    let best = place_of_best(&made);
    made.swap_remove(best)
}

/// All starts.
const STARTS: [Start; 3] = [Start::None, Start::Draw, Start::Degree];

fn start_at(i: usize) -> Start {
    STARTS.get(i).copied().unwrap_or(Start::None)
}

// The first choice whose measure no other one is below.
fn place_of_best(made: &[Result<Choice, AllocError>]) -> usize
    requires { 0 < length made.now }
    ensures { result < length made.now }
{
    let mut best = 0;
    let mut least = None;
    for place in 0..made.len() {
        let measure = made[place].as_ref().ok().map(|choice| choice.measure);
        if least.is_none() || measure < least {
            best = place;
            least = measure;
        }
    }
    best
}
