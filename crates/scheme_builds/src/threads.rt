// A scheme out of a graph, built in several threads.
ghost use Rattle.std.specs.Prelude.{◌≡◌, IfOk, length};
ghost use Rattle.schemes.specs.Schemes.{IsSchemeUnder};
ghost use Rattle.scheme_builds.specs.Schemes.{IsSchemeOf};

use crate::ranges::{SCRATCH_LEN, Task, build_ranges};
use crate::turns::InTurns;
use crate::words::first_words;
use crate::workers::{LEAST_SHARED, at_most};
use distances::from_landmarks;
use graph_edits::Graph;
use landmarks::{Landmarks, choose};
use linked_list_allocator::LocalHeap;
use node_table::{Survey, build, build_by_lists};
use schemes::Scheme;
use std::alloc::{AllocError, Global};
use std::sync::Wait;
use std::thread::Threads;

/// The scheme of a graph with these landmarks, built by one worker over a heap of this call's own: tree by tree in a network of fewer
/// than [`LEAST_SHARED`] nodes, where no tree is deep, and over lists in a larger one. So any stack will do.
fn built_alone(
    alloc: Global,
    graph: &Graph,
    landmarks: &Landmarks,
    generation: u64,
    yields: bool,
) -> Result<Scheme, AllocError>
    requires same_size { length landmarks.now ≡ graph.now.nodes }
    ensures { IfOk result (λ scheme. IsSchemeUnder graph.now landmarks.now generation scheme) }
{
    let heap = LocalHeap::new(alloc, SCRATCH_LEN)?;
    let trees = graph.nodes() < LEAST_SHARED;
    match (trees, yields) {
        (true, false) => build(alloc, graph, landmarks, generation, &heap),
        (true, true) => build(
            alloc,
            graph,
            landmarks,
            generation,
            InTurns { inner: &heap },
        ),
        (false, false) => build_by_lists(alloc, graph, landmarks, generation, &heap),
        (false, true) => build_by_lists(
            alloc,
            graph,
            landmarks,
            generation,
            InTurns { inner: &heap },
        ),
    }
}

/// The scheme of a graph with these landmarks, by so many workers, which yield before each root or don't.
fn built_by<R: Threads + Wait + Sync>(
    rt: &R,
    alloc: Global,
    graph: &Graph,
    landmarks: &Landmarks,
    generation: u64,
    workers: u16,
    yields: bool,
) -> Result<Scheme, AllocError>
    requires same_size { length landmarks.now ≡ graph.now.nodes }
    ensures { IfOk result (λ scheme. IsSchemeUnder graph.now landmarks.now generation scheme) }
{
    let workers = at_most(workers);
    if workers == 1 {
        return built_alone(alloc, graph, landmarks, generation, yields);
    }
    let nearest = from_landmarks(alloc, graph, landmarks)?;
    let size = graph.nodes().div_ceil(workers).max(1);
    let survey = Survey {
        graph,
        landmarks,
        nearest: &nearest,
        generation,
    };
    let task = Task { survey, yields };
    let whole = build_ranges(rt, alloc, &task, size)?;
    let scheme = whole.finish(alloc, graph)?;
    Ok(scheme)
}

/// The scheme of a graph with these landmarks, as [`node_table::build`] builds it: all eight rules hold of it, so it serves the
/// graph. The roots are cut into as many ranges as there are workers, at most [`MOST_WORKERS`](crate::MOST_WORKERS), and each range
/// is built over lists, in a thread of its own where one can be made. One worker, or none, builds in this thread: tree by tree in a
/// network of fewer than [`LEAST_SHARED`] nodes. An `Err` means that memory was refused, to any of them.
pub fn scheme_in_threads<R: Threads + Wait + Sync>(
    rt: &R,
    alloc: Global,
    graph: &Graph,
    landmarks: &Landmarks,
    generation: u64,
    workers: u16,
) -> Result<Scheme, AllocError>
    requires same_size { length landmarks.now ≡ graph.now.nodes }
    ensures { IfOk result (λ scheme. IsSchemeUnder graph.now landmarks.now generation scheme) }
{
    built_by(rt, alloc, graph, landmarks, generation, workers, false)
}

/// The scheme of a graph with the landmarks that these words give, as [`scheme_of`](crate::scheme_of) builds it, by so many
/// workers. Of the words the first count, one for each node, and for each that is missing the greatest. An `Err` means that
/// memory was refused, to any of them.
pub fn scheme_of_in_threads<R: Threads + Wait + Sync>(
    rt: &R,
    alloc: Global,
    graph: &Graph,
    words: &[u64],
    generation: u64,
    workers: u16,
) -> Result<Scheme, AllocError>
    ensures { IfOk result (λ scheme. IsSchemeOf graph.now words.now generation scheme) }
{
    let nodes = graph.nodes() as usize;
    let first = first_words(alloc, words, nodes)?;
    let landmarks = choose(alloc, nodes, &first)?;
    scheme_in_threads(rt, alloc, graph, &landmarks, generation, workers)
}

/// The same scheme, built beside threads that are not to wait: before each root, those that wait for the worker's processor run.
pub fn scheme_of_in_turns<R: Threads + Wait + Sync>(
    rt: &R,
    alloc: Global,
    graph: &Graph,
    words: &[u64],
    generation: u64,
    workers: u16,
) -> Result<Scheme, AllocError>
    ensures { IfOk result (λ scheme. IsSchemeOf graph.now words.now generation scheme) }
{
    let nodes = graph.nodes() as usize;
    let first = first_words(alloc, words, nodes)?;
    let landmarks = choose(alloc, nodes, &first)?;
    built_by(rt, alloc, graph, &landmarks, generation, workers, true)
}
