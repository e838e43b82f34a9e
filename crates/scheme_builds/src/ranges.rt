// Ranges of roots, each built by a worker, and joined in the order of the roots.
ghost use Rattle.std.specs.Prelude.{◌+◌, ◌<◌, ◌≤◌, ◌^◌, length};
ghost use Rattle.node_table.specs.Building.{CanBuild, IsComplete};
ghost use Rattle.scheme_builds.specs.Ranges.{AreRanges, HasBuilt, IsBuilt, IsRange, bound_at};

use crate::turns::InTurns;
use linked_list_allocator::LocalHeap;
use node_table::{PartialScheme, Survey, build_between};
use std::alloc::{AllocError, Global};
use std::thread;
use std::thread::Threads;

/// How many bytes a build may take of its scratch.
pub const SCRATCH_LEN: usize = 67_108_864;

/// The most roots of one range. What a range takes beside the tables is given back before the next ones are built, so it is little
/// beside the tables of a large network.
const MOST_ROOTS: u16 = 384;

/// What every worker of a build has before it. Where it yields, threads that wait for the worker's processor run before each root.
#[derive(Clone, Copy)]
pub(crate) struct Task<'a> {
    pub(crate) survey: Survey<'a>,
    pub(crate) yields: bool,
}

/// What a build has of the roots from `first` on and below `last`. Members are numbered over lists in a heap of this call's own.
fn build_roots(
    alloc: Global,
    task: &Task<'_>,
    first: u16,
    last: u16,
) -> Result<PartialScheme, AllocError>
    requires { CanBuild task.now.survey first last }
    ensures { HasBuilt task.now first last result }
{
    let heap = LocalHeap::new(alloc, SCRATCH_LEN)?;
    if task.yields {
        let scratch = InTurns { inner: &heap };
        return build_between(alloc, &task.survey, first, last, scratch);
    }
    build_between(alloc, &task.survey, first, last, &heap)
}

/// What a build has of the range of this number.
fn build_range(
    alloc: Global,
    task: &Task<'_>,
    size: u16,
    i: usize,
) -> Result<PartialScheme, AllocError>
    requires { IsComplete task.now.survey }
    ensures { IsRange task.now size i result }
{
    let nodes = task.survey.graph.nodes() as usize;
    let first = i.saturating_mul(size as usize).min(nodes);
    let last = (first + size as usize).min(nodes);
    let (first, last) = (first as u16, last as u16);
    build_roots(alloc, task, first, last)
}

/// What a build has of the roots of the whole and of these ranges, which follow it.
fn join_ranges(
    task: &Task<'_>,
    size: u16,
    begun: usize,
    mut whole: PartialScheme,
    mut made: Vec<Result<PartialScheme, AllocError>>,
) -> Result<PartialScheme, AllocError>
    requires whole { IsBuilt task.now whole 0 (bound_at task.now.survey.graph.now size begun) }
    requires ranges { AreRanges task.now size begun made.items }
    ensures { HasBuilt task.now 0 (bound_at task.now.survey.graph.now size (begun + length made.items)) result }
{
    for _k in 0..made.len() {
        let next = made.remove(0)?;
        whole = whole.join(next)?;
    }
    Ok(whole)
}

/// How many roots a range has where each worker is to build so many: an equal part of them, of at most [`MOST_ROOTS`].
fn range_size(size: u16) -> u16
    ensures { 0 < result }
{
    let rounds = size.div_ceil(MOST_ROOTS).max(1);
    size.div_ceil(rounds).max(1)
}

/// What a build has of all roots. They are cut into ranges of this size, or of equal parts of it that have at most [`MOST_ROOTS`]. As
/// many ranges as there would be of this size are built side by side, each in a thread of its own where one can be made, and joined
/// before the next.
pub(crate) fn build_ranges<R: Threads + Sync>(
    rt: &R,
    alloc: Global,
    task: &Task<'_>,
    size: u16,
) -> Result<PartialScheme, AllocError>
    requires some { 0 < size }
    requires known { IsComplete task.now.survey }
    ensures { HasBuilt task.now 0 task.now.survey.graph.now.nodes result }
{
    let workers = task.survey.graph.nodes().div_ceil(size).max(1) as usize;
    let roots = range_size(size);
    let count = task.survey.graph.nodes().div_ceil(roots) as usize;
    let mut whole = build_roots(alloc, task, 0, 0)?;
    let mut begun: usize = 0;
    while begun < count {
        let many = workers.min(count - begun);
        let made = thread::map_indices(
            rt,
            alloc,
            many,
            &|i: usize| -> Result<PartialScheme, AllocError>
                requires known { IsComplete task.now.survey }
                requires small { begun + i < 2 ^ 64 }
                ensures { IsRange task.entry.now roots (begun + i) result }
            { build_range(alloc, task, roots, begun + i) },
        )?;
        whole = join_ranges(task, roots, begun, whole, made)?;
        begun += many;
    }
    Ok(whole)
}
