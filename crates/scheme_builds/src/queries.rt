// What is asked of a scheme.
ghost use Rattle.std.specs.Prelude.{◌≡◌, ◌<◌, count_by};
ghost use Rattle.schemes.specs.Checks.{IsChecked};
ghost use Rattle.scheme_builds.specs.Carrying.{IsCarried};
ghost use Rattle.scheme_builds.specs.Queries.{IsCheckAnswer};

use crate::threads::scheme_of_in_threads;
use graph_edits::Graph;
use schemes::{CarryRefused, Scheme, Trail, graph_is_sound};
use std::alloc::{AllocError, Global};
use std::sync::Wait;
use std::thread::Threads;

/// What became of a packet.
#[derive(Drop)]
pub enum Route {
    /// It was carried to its destination.
    Along(Trail),
    /// No tree leads to its destination.
    Unreachable,
}

/// What the checks say of a scheme.
#[derive(Drop)]
pub struct Checked {
    /// How many landmarks it has.
    pub landmarks: usize,
    /// The first check that fails.
    pub fault: Option<certificate::Fault>,
}

/// How many landmarks a scheme has.
fn landmark_count(scheme: &Scheme) -> usize
    ensures { result ≡ count_by (λ flag. flag) scheme.now.landmarks.items }
{
    scheme
        .parts()
        .landmarks
        .iter()
        .filter(|flag| **flag)
        .count()
}

/// Carries a packet to a node's own address in a scheme that keeps all rules for the graph: over a good trail where a walk leads there,
/// and else it is unreachable. The only other refusal is of memory.
pub fn carry_in(
    alloc: Global,
    graph: &Graph,
    scheme: &Scheme,
    from: u16,
    to: u16,
) -> Result<Trail, CarryRefused>
    requires checked { IsChecked graph.now scheme.now }
    requires from { from < graph.now.nodes }
    requires to { to < graph.now.nodes }
    ensures { IsCarried graph.now scheme.now from to result }
{
    graph_is_sound(graph);
    let Ok(address) = scheme.address(to) else {
        unreachable!()
    };
    scheme.carry(alloc, from, &address)
}

/// Checks the scheme of the graph by these landmark words, under this generation. Of the words the first count, one for
/// each node, and for each that is missing the greatest. So many workers build it and check it, at least one and at most
/// [`MOST_WORKERS`](crate::MOST_WORKERS), each in a thread of its own where one can be made; the answer is the same for any number.
pub fn check_scheme<R: Threads + Wait + Sync>(
    rt: &R,
    alloc: Global,
    graph: &Graph,
    words: &[u64],
    generation: u64,
    workers: u16,
) -> Result<Checked, AllocError>
    ensures { IsCheckAnswer graph.now words.now generation result }
{
    let judged = scheme_of_in_threads(rt, alloc, graph, words, generation, workers)?;
    let fault = certificate::check_in_threads(rt, graph, &judged, workers).err();
    let landmarks = landmark_count(&judged);
    Ok(Checked { landmarks, fault })
}
