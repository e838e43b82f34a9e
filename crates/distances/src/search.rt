// The search: nodes are settled in ascending order of their distance from the sources.
ghost use Rattle.std.specs.Prelude.{◌≡◌, ℕ, ◌+◌, ◌*◌, ◌<◌, ◌≤◌, ◌^◌, ◌&&◌, ◌++◌, ◌∷◌, [], Bool, Some, None, true, false, length, slice_set, map, vec_len, vec_capacity, IfOk, OnOk, OnErr};
ghost use Rattle.std.specs.BinaryHeap.{IsHeap, KeepsHeap, heap_items};
ghost use Rattle.std.specs.List.{count_by};
ghost use Rattle.std.specs.FinMap.{len};
ghost use Rattle.distances.specs.Search.{is_below, is_better, offered, number_at, flag_at, first_number, IsAtZero, AreGentle, IsSearched, IsRelaxed, degrees};
ghost use Rattle.distances.specs.Table.{IsTable, IsListing};
ghost use Rattle.distances.specs.Arrivals.{arrival_at, arrived, is_taken as taken, is_tied as tied, is_smaller as smaller, is_nearer as nearer, IsArriving, AreArrivals};
ghost use Rattle.distances.specs.Waiting.{nearest_first, HasNodes, IsQueue, IsJoined, IsTracked};
ghost use Rattle.graph_edits.specs.Edges.{degree_of};

use crate::waiting::Waiting;
use graph_edits::{Graph, MOST_NODES};
use std::alloc::{AllocError, Global};
use std::cmp::Reverse;
use std::collections::BinaryHeap;

/// A settled node and its distance from the sources. The derived order is by distance, then by node.
#[derive(Clone, Copy, Debug, PartialEq, Eq, PartialOrd, Ord)]
pub struct Settled {
    pub distance: u64,
    pub node: u16,
}

/// The edge over which a node was reached: from a parent, by the parent's port.
#[derive(Clone, Copy)]
pub struct Arrival {
    pub parent: u16,
    pub down: u16,
}

/// A search: what it has found so far, and what waits.
#[derive(Drop)]
pub struct Search {
    /// The least distance that each node was offered so far.
    pub tentative: Vec<Option<u64>>,
    /// Whether each node is settled.
    pub settled: Vec<bool>,
    /// The edge over which each node was reached.
    pub arrivals: Vec<Option<Arrival>>,
    /// The nodes that wait.
    pub waiting: BinaryHeap<Reverse<Waiting>>,
    /// The settled nodes, in the order in which they were settled.
    pub order: Vec<Settled>,
}

/// Settles the nodes whose distance from the sources is below their limit, and lists them in order. The sources are the
/// nodes that stand at distance 0 when the search begins. A node without a limit may lie at any distance. Answers how many
/// entries were popped. For each node it notes the edge over which the node was reached, the one from the smallest node
/// where several are as good.
///
/// A node may wait in the heap more than once. It is settled by the nearest of its entries, and a
/// later one is popped and skipped. Every pop of an entry counts, the skipped ones too.
pub fn settle_all(
    graph: &Graph,
    limits: &[Option<u64>],
    search: &mut Search,
) -> Result<u64, AllocError>
    requires places { HasNodes graph.now.nodes search.old }
    requires none_arrived { (y : ℕ) → IsAtZero search.old.tentative.items y
        → arrival_at search.old.arrivals.items y ≡ None }
    requires zero { (y e : ℕ) → number_at search.old.tentative.items y ≡ Some e → e ≡ 0 }
    requires none_settled { (y : ℕ) → flag_at search.old.settled.items y ≡ false }
    requires none_listed { search.old.order.items ≡ [] }
    requires queue { IsQueue graph.now.nodes (number_at search.old.tentative.items)
        (flag_at search.old.settled.items) (heap_items search.old.waiting) }
    requires heap { IsHeap nearest_first (heap_items search.old.waiting) }
    requires few { length (heap_items search.old.waiting) ≤ graph.now.nodes }
    requires within_limits { (s : ℕ) → IsAtZero search.old.tentative.items s
        → is_below 0 (number_at limits.now s) ≡ true }
    requires gentle { AreGentle graph.now.edges (number_at limits.now) }
    ensures order { OnOk result (
        IsSearched graph.now.edges (IsAtZero search.old.tentative.items)
        (number_at limits.now) search.new.order.items) }
    ensures distances { OnOk result (
        IsTable graph.now.edges (IsAtZero search.old.tentative.items) (number_at limits.now)
        (number_at search.new.tentative.items)) }
    ensures listing { OnOk result (
        IsListing (number_at search.new.tentative.items) search.new.order.items) }
    ensures arrivals { OnOk result (
        AreArrivals graph.now (number_at search.new.tentative.items) (λ _. true)
        (arrival_at search.new.arrivals.items)) }
    ensures pops { IfOk result (λ pops.
        pops ≤ length (heap_items search.old.waiting) + degrees graph.now search.new.order.items) }
    ensures edges { OnOk result (degrees graph.now search.new.order.items ≤ 2 * len graph.now.edges) }
    ensures no_fewer { IfOk result (λ pops. length search.new.order.items ≤ pops) }
    ensures places { HasNodes graph.now.nodes search.new }
    ensures tracked { IsTracked graph.now.nodes (number_at search.new.tentative.items)
        (flag_at search.new.settled.items) search.new.order.items (heap_items search.new.waiting) }
{
    // It tells that the graph is sound.
    let _sound = graph.nodes();
    let mut pops: u64 = 0;
    search.order.reserve(1)?;
    while let Some(Reverse(next)) = search.waiting.pop() {
        let next = next.settled();
        pops += 1;
        if search.settled[next.node as usize] {
            continue;
        }
        search.settled[next.node as usize] = true;
        enlist(&mut search.order, next);
        relax(
            graph,
            limits,
            search.tentative.as_mut_slice(),
            search.arrivals.as_mut_slice(),
            &mut search.waiting,
            next,
        )?;
        search.order.reserve(1)?;
    }
    Ok(pops)
}

/// Puts a node behind the settled ones, where there is room.
fn enlist(order: &mut Vec<Settled>, next: Settled)
    requires { vec_len order.old < vec_capacity order.old }
    ensures { order.new.items ≡ order.old.items ++ next ∷ [] }
{
    if order.push(next).is_err() {
        unreachable!()
    }
}

/// Distance 0 for each source, and none for the other nodes.
pub fn first_numbers(alloc: Global, sources: &[bool]) -> Result<Vec<Option<u64>>, AllocError>
    ensures { IfOk result (λ numbers. numbers.items ≡ map first_number sources.now) }
{
    sources
        .iter()
        .map(|source| if *source { Some(0) } else { None })
        .collect(alloc)
}

/// Each source, at distance 0.
pub fn first_waiting(
    alloc: Global,
    sources: &[bool],
) -> Result<BinaryHeap<Reverse<Waiting>>, AllocError>
    requires few { length sources.now ≤ MOST_NODES }
    ensures order { IfOk result (λ waiting. IsHeap nearest_first (heap_items waiting)) }
    ensures queue { IfOk result (λ waiting.
        (done : ℕ → Bool) → IsQueue (length sources.now) (number_at
        (map first_number sources.now)) done (heap_items waiting)) }
    ensures length { IfOk result (λ waiting.
        length (heap_items waiting) ≡ count_by (λ s. s) sources.now) }
{
    let mut waiting = BinaryHeap::new(alloc);
    for node in 0..sources.len() {
        add_source(&mut waiting, sources[node], node as u16)?;
    }
    Ok(waiting)
}

fn add_source(
    waiting: &mut BinaryHeap<Reverse<Waiting>>,
    source: bool,
    node: u16,
) -> Result<(), AllocError>
    ensures joined { OnOk result (
        IsJoined source (record { distance = 0; node = node }) (heap_items waiting.old)
        (heap_items waiting.new)) }
    ensures order { OnOk result (
        KeepsHeap nearest_first (heap_items waiting.old) (heap_items waiting.new)) }
{
    if source {
        waiting.push(Reverse(Waiting::new(Settled { distance: 0, node })))?;
    }
    Ok(())
}

/// Offers to each neighbour of a settled node the distance over it. A neighbour that is nearer by
/// it, and within its limit, waits at that distance. One that is nearer already is passed over.
fn relax(
    graph: &Graph,
    limits: &[Option<u64>],
    tentative: &mut [Option<u64>],
    arrivals: &mut [Option<Arrival>],
    waiting: &mut BinaryHeap<Reverse<Waiting>>,
    from: Settled,
) -> Result<(), AllocError>
    requires from { from.node < graph.now.nodes }
    requires tentative { length tentative.old ≡ graph.now.nodes }
    requires arrivals { length arrivals.old ≡ graph.now.nodes }
    requires fits { from.distance < 2 ^ 47 }
    ensures relaxed { OnOk result (
        IsRelaxed graph.now.edges (number_at limits.now) from.node from.distance
        (number_at tentative.old) (number_at tentative.new)) }
    ensures arriving { OnOk result (
        IsArriving graph.now (number_at limits.now) from.node from.distance
        (number_at tentative.old) (arrival_at arrivals.old) (arrival_at arrivals.new)) }
    ensures order { OnOk result (
        KeepsHeap nearest_first (heap_items waiting.old) (heap_items waiting.new)) }
    // also where memory was refused
    ensures queue { (done : ℕ → Bool) → IsQueue graph.now.nodes (number_at tentative.old) done
        (heap_items waiting.old)
        → IsQueue graph.now.nodes (number_at tentative.new) done (heap_items waiting.new) }
    ensures length { OnOk result (
        length (heap_items waiting.new)
        ≤ length (heap_items waiting.old) + degree_of graph.now from.node) }
{
    for (port, (node, weight)) in graph.neighbours(from.node).iter().enumerate() {
        let y = *node as usize;
        let distance = from.distance + *weight as u64;
        let there = tentative[y];
        if is_nearer(there, distance) {
            continue;
        }
        let arrival = Arrival {
            parent: from.node,
            down: port as u16,
        };
        let limit = limit_of(limits, *node);
        note(arrivals, *node, limit, distance, there, arrival);
        let nearer = Settled {
            distance,
            node: *node,
        };
        tentative[y] = offer(limit, nearer, there, waiting)?;
    }
    Ok(())
}

/// Notes an arrival at a node, where its distance is better and within the limit, or as good and from a smaller node.
fn note(
    arrivals: &mut [Option<Arrival>],
    node: u16,
    limit: Option<u64>,
    distance: u64,
    there: Option<u64>,
    new: Arrival,
)
    requires { node < length arrivals.old }
    ensures { arrivals.new ≡ slice_set arrivals.old node
        (arrived limit distance there (arrival_at arrivals.old node) new) }
{
    if is_taken(limit, distance, there, arrivals[node as usize], new) {
        arrivals[node as usize] = Some(new);
    }
}

fn is_taken(
    limit: Option<u64>,
    distance: u64,
    there: Option<u64>,
    before: Option<Arrival>,
    new: Arrival,
) -> bool
    ensures { result ≡ taken limit distance there before new }
{
    (is_within(distance, limit) && is_improved(distance, there))
        || (is_tied(distance, there) && is_smaller(new.parent, before))
}

fn is_tied(distance: u64, there: Option<u64>) -> bool
    ensures { result ≡ tied distance there }
{
    match there {
        None => false,
        Some(number) => number == distance,
    }
}

fn is_smaller(node: u16, there: Option<Arrival>) -> bool
    ensures { result ≡ smaller node there }
{
    match there {
        None => false,
        Some(arrival) => node < arrival.parent,
    }
}

/// The limit of a node: none past the end of the list.
fn limit_of(limits: &[Option<u64>], node: u16) -> Option<u64>
    ensures { result ≡ number_at limits.now node }
{
    match limits.get(node as usize) {
        Some(limit) => *limit,
        None => None,
    }
}

/// The distance of a node after an offer. If the offer is better than what is there, the node waits at it.
pub fn offer(
    limit: Option<u64>,
    nearer: Settled,
    there: Option<u64>,
    waiting: &mut BinaryHeap<Reverse<Waiting>>,
) -> Result<Option<u64>, AllocError>
    requires fits { nearer.distance < 2 ^ 48 }
    ensures number { IfOk result (λ number. number ≡ offered limit nearer.distance there) }
    ensures joined { OnOk result (
        IsJoined (is_below nearer.distance limit && is_better nearer.distance there) nearer
        (heap_items waiting.old) (heap_items waiting.new)) }
    ensures order { OnOk result (
        KeepsHeap nearest_first (heap_items waiting.old) (heap_items waiting.new)) }
    ensures refused { OnErr result (heap_items waiting.new ≡ heap_items waiting.old) }
{
    if is_within(nearer.distance, limit) && is_improved(nearer.distance, there) {
        waiting.push(Reverse(Waiting::new(nearer)))?;
        Ok(Some(nearer.distance))
    } else {
        Ok(there)
    }
}

/// Whether a distance is below a limit. Where there is no limit, it is.
fn is_within(distance: u64, limit: Option<u64>) -> bool
    ensures { result ≡ is_below distance limit }
{
    match limit {
        None => true,
        Some(limit) => distance < limit,
    }
}

/// Whether a node is nearer already.
fn is_nearer(there: Option<u64>, distance: u64) -> bool
    ensures { result ≡ nearer there distance }
{
    match there {
        None => false,
        Some(number) => number < distance,
    }
}

fn is_improved(distance: u64, there: Option<u64>) -> bool
    ensures { result ≡ is_better distance there }
{
    match there {
        None => true,
        Some(number) => distance < number,
    }
}
