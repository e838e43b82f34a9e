// How many workers build a scheme.
ghost use Rattle.std.specs.Prelude.{◌≡◌, ◌<◌, ◌≤◌};
ghost use Rattle.scheme_builds.specs.Workers.{workers_of, workers_that_pay};

use std::thread;
use std::thread::Threads;

/// The most workers that build one scheme.
pub const MOST_WORKERS: u16 = 16;

/// From how many nodes on a build is shared: in a smaller network the threads cost more than they save.
pub const LEAST_SHARED: u16 = 512;

/// How many workers build a network of so many nodes, where there are so many processors: one a processor, but one alone for
/// a small network, and never more than [`MOST_WORKERS`].
pub fn workers_for(nodes: u16, processors: u16) -> u16
    ensures workers { result ≡ workers_that_pay nodes processors }
    ensures some { 0 < result }
    ensures few { result ≤ MOST_WORKERS }
{
    if nodes < LEAST_SHARED {
        return 1;
    }
    at_most(processors)
}

/// How many workers build a network of so many nodes on this machine, as [`workers_for`] says it of the processors that the system
/// counts: one alone for a small network, and where the system doesn't say.
pub fn workers_here<R: Threads>(rt: &R, nodes: u16) -> u16
    ensures some { 0 < result }
    ensures few { result ≤ MOST_WORKERS }
    ensures alone { nodes < LEAST_SHARED → result ≡ 1 }
{
    let processors = match thread::available_parallelism(rt) {
        Ok(count) => count.get().min(MOST_WORKERS as usize) as u16,
        Err(_) => 1,
    };
    workers_for(nodes, processors)
}

/// So many workers, but at least one and at most [`MOST_WORKERS`].
pub(crate) fn at_most(workers: u16) -> u16
    ensures workers { result ≡ workers_of workers }
    ensures some { 0 < result }
    ensures few { result ≤ MOST_WORKERS }
{
    workers.clamp(1, MOST_WORKERS)
}
