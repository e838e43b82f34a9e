// What is told of chosen landmarks.
ghost use Rattle.std.specs.Prelude.{◌≡◌, ◌↔◌, ◌<◌, All, IfOk, true};
ghost use Rattle.landmark_choice.specs.Choices.{IsChoice};
ghost use Rattle.lab_landmarks.specs.Reports.{IsChosen, IsDrawn, IsReport, Keeps};
ghost use Rattle.lab_landmarks.specs.Sizes.{IsGreatestSize};

use crate::sizes::{greatest_size, landmark_count};
use crate::tables::push_tables;
use graph_edits::Graph;
use landmark_choice::Limits;
use scheme_builds::scheme_of_in_threads;
use schemes::Scheme;
use std::alloc::{AllocError, Global};
use std::sync::Wait;
use std::thread::Threads;
use value_syntax::{Draws, LandmarkWords};

/// The landmarks that were chosen, under which limits, and the seed whose landmarks they are compared with.
#[derive(Clone, Copy)]
pub struct Asked<'a> {
    pub nodes: &'a [u16],
    pub limits: Limits,
    pub seed: u64,
}

/// What is told of them.
#[derive(Drop)]
pub struct Report {
    /// The lines of the drawn landmarks, and then of the chosen ones.
    pub figures: String,
    /// The entries and members of the largest table of the chosen ones.
    pub greatest: u64,
    /// Whether they keep the limits.
    pub is_kept: bool,
}

/// Builds the scheme of the drawn landmarks and that of the chosen ones, by so many workers, one after the other. An `Err` means that
/// memory was refused.
pub fn report_of<R: Threads + Wait + Sync>(
    rt: &R,
    alloc: Global,
    graph: &Graph,
    generation: u64,
    asked: &Asked<'_>,
    workers: u16,
) -> Result<Report, AllocError>
    requires { IsChoice graph.now.nodes asked.now.limits.most asked.now.nodes.now }
    ensures { IfOk result (λ report.
        IsReport graph.now generation asked.now.seed asked.now.nodes.now asked.now.limits report) }
{
    let drawn = drawn_scheme(rt, alloc, graph, generation, asked.seed, workers)?;
    let mut figures = String::new(alloc);
    push_tables(alloc, &mut figures, "before", &drawn)?;
    drop(drawn);
    let scheme = chosen_scheme(rt, alloc, graph, generation, asked.nodes, workers)?;
    push_tables(alloc, &mut figures, "after", &scheme)?;
    let greatest = greatest_size(&scheme);
    Ok(Report {
        figures,
        greatest,
        is_kept: is_kept(&scheme, greatest, asked.limits),
    })
}

// The scheme of the landmarks that a seed draws.
fn drawn_scheme<R: Threads + Wait + Sync>(
    rt: &R,
    alloc: Global,
    graph: &Graph,
    generation: u64,
    seed: u64,
    workers: u16,
) -> Result<Scheme, AllocError>
    ensures { IfOk result (λ scheme. IsDrawn graph.now generation seed scheme) }
{
    let words = Draws::seeded(seed).next(alloc, graph.nodes())?;
    scheme_of_in_threads(rt, alloc, graph, &words, generation, workers)
}

// The scheme whose landmarks are these nodes.
fn chosen_scheme<R: Threads + Wait + Sync>(
    rt: &R,
    alloc: Global,
    graph: &Graph,
    generation: u64,
    nodes: &[u16],
    workers: u16,
) -> Result<Scheme, AllocError>
    requires { All (λ node. node < graph.now.nodes) nodes.now }
    ensures { IfOk result (λ scheme. IsChosen graph.now generation nodes.now scheme) }
{
    let named = LandmarkWords::ZeroAt(nodes.to_vec(alloc)?);
    let words = named.of_nodes(alloc, graph.nodes())?;
    scheme_of_in_threads(rt, alloc, graph, &words, generation, workers)
}

// Whether a scheme keeps limits, whose largest table has so many entries and members.
#[tactic(auto, using(crate::proofs::Keeping::kept, crate::proofs::Keeping::keeps_tables, crate::proofs::Keeping::keeps_landmarks))]
fn is_kept(scheme: &Scheme, greatest: u64, limits: Limits) -> bool
    requires { IsGreatestSize scheme.now greatest }
    ensures { (result ≡ true) ↔ Keeps limits scheme.now }
{
    greatest <= limits.most_entries as u64 && landmark_count(scheme) <= limits.most as usize
}
