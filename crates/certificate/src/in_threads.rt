// The swift pass in several threads: each worker takes some ranges of the roots.
ghost use Rattle.std.specs.Prelude.{◌≡◌, ◌<◌, ◌≤◌, ◌+◌, ◌*◌, ℕ, IfErr, IsTrue, OnOk, min, All};
ghost use Rattle.certificate.specs.Words.{IsChecked, IsFirstFault, Serves, tables};
ghost use Rattle.certificate.specs.Entries.{AllAscend};
ghost use Rattle.certificate.specs.Faults.{IsExact, rule_of};
ghost use Rattle.certificate.specs.Trees.{HoldInPart, HoldOfAll, IsTreeRight};

use crate::checks::answer;
use crate::fault::Fault;
use crate::shape::is_framed;
use crate::swift::are_trees_right;
use graph_edits::Graph;
use schemes::Scheme;
use std::thread;
use std::thread::Threads;

/// Into how many ranges the nodes are cut.
const RANGES: usize = 16;

/// The first node of a range and the one behind its last.
fn bounds(nodes: u16, size: u16, i: usize) -> (u16, u16)
    ensures first { result.0 ≡ min (i * size) nodes }
    ensures last { result.1 ≡ min (i * size + size) nodes }
{
    let nodes = nodes as usize;
    let first = i.saturating_mul(size as usize).min(nodes);
    let last = (first + size as usize).min(nodes);
    (first as u16, last as u16)
}

/// Whether no range was found wrong.
fn all_right(right: &[bool]) -> bool
    ensures { IsTrue result → All (λ b. IsTrue b) right.now }
{
    right.iter().all(|right| *right)
}

/// Whether the trees of the roots of a range are right.
fn are_right_in(graph: &Graph, scheme: &Scheme, size: u16, i: usize) -> bool
    requires { AllAscend scheme.now }
    ensures { IsTrue result → HoldInPart IsTreeRight graph.now scheme.now size i }
{
    let (first, last) = bounds(graph.nodes(), size, i);
    are_trees_right(graph, scheme, first, last)
}

/// Whether the trees of all roots are.
fn are_all_right<R: Threads + Sync>(rt: &R, graph: &Graph, scheme: &Scheme, workers: usize) -> bool
    requires some { 0 < workers }
    requires ascend { AllAscend scheme.now }
    ensures { IsTrue result → HoldOfAll IsTreeRight graph.now scheme.now }
{
    if workers < 2 {
        return are_trees_right(graph, scheme, 0, graph.nodes());
    }
    let size = graph.nodes().div_ceil(RANGES as u16);
    let mut right = [false; RANGES];
    thread::for_each_mut(
        rt,
        &mut right,
        workers,
        &|i: usize, right: &mut bool|
            requires { AllAscend scheme.now }
            ensures { IsTrue right.exit.now → HoldInPart IsTreeRight graph.entry.now scheme.entry.now size i }
        { *right = are_right_in(graph, scheme, size, i) },
    );
    all_right(&right)
}

/// Whether the workers find no fault: then all rules hold.
fn is_sound<R: Threads + Sync>(rt: &R, graph: &Graph, scheme: &Scheme, workers: usize) -> bool
    requires { 0 < workers }
    ensures { IsTrue result → IsChecked graph.now scheme.now }
{
    is_framed(graph, scheme) && are_all_right(rt, graph, scheme, workers)
}

/// The answer of [`check`](crate::check), by so many workers, at least one and at most 16, each in a thread of its own where one can
/// be made. It takes no memory. Where a worker finds a fault, the rules are tested in their order, so that the first is named.
pub fn check_in_threads<R: Threads + Sync>(
    rt: &R,
    graph: &Graph,
    scheme: &Scheme,
    workers: u16,
) -> Result<(), Fault>
    ensures ok { OnOk result (IsChecked graph.now scheme.now) }
    ensures fault { IfErr result (λ fault. IsFirstFault graph.now scheme.now (rule_of fault)) }
    ensures exact { IsExact graph.now scheme.now result }
    ensures serves { OnOk result (Serves graph.now (tables scheme.now)) }
{
    let workers = workers.clamp(1, RANGES as u16) as usize;
    answer(graph, scheme, is_sound(rt, graph, scheme, workers))
}
