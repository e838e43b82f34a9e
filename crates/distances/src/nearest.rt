// The nearest landmark of each node.
ghost use Rattle.std.specs.Prelude.{◌≡◌, ℕ, ◌+◌, ◌*◌, ◌<◌, ◌≤◌, None, length, map, IfOk, slice_index_or, is_some};
ghost use Rattle.std.specs.Option.{option_map};
ghost use Rattle.std.specs.List.{count_by};
ghost use Rattle.std.specs.FinMap.{len};
ghost use Rattle.landmarks.specs.Chosen.{IsLandmark};
ghost use Rattle.distances.specs.Search.{number_at, flag_at, IsAscending, degrees};
ghost use Rattle.distances.specs.Table.{IsTable, IsListing};
ghost use Rattle.distances.specs.Nearest.{IsNearestOf, IsNearBy, IsLeastOver, near_at, landmark_over, lesser};

use crate::search::{Search, Settled, first_numbers, first_waiting, settle_all};
use graph_edits::Graph;
use landmarks::{Landmarks, Near};
use std::alloc::{AllocError, Global};
use std::marker::Model;

/// For each node its nearest landmark, or none where it reaches no landmark.
#[derive(Drop)]
pub struct Nearest {
    of: Vec<Option<Near>>,
    distances: Vec<Option<u64>>,
    pops: u64,
}

impl Model for Nearest {
    ghost use Rattle.std.specs.Prelude.{◌≡◌, map};
    ghost use Rattle.std.specs.Option.{option_map};
    ghost use Rattle.distances.specs.Nearest.{NearestAll};

    ghost Value = { NearestAll };

    ghost view = { λ nearest. record { nearest = nearest.of.items; pops = nearest.pops } };

    ghost invariant = { λ nearest. nearest.distances.items ≡ map (λ o. option_map (λ n. n.distance) o) nearest.of.items };
}

impl Nearest {
    /// The nearest landmark of a node.
    pub fn of(&self, node: u16) -> Option<Near>
        requires { node < length self.now.nearest }
        ensures { result ≡ slice_index_or self.now.nearest node None }
    {
        self.of[node as usize]
    }

    /// The distance of each node's nearest landmark: the limits of clusters.
    pub fn distances(&self) -> &[Option<u64>]
        ensures { result.now ≡ map (λ o. option_map (λ n. n.distance) o) self.now.nearest }
    {
        self.distances.as_slice()
    }

    /// How many entries the search popped.
    pub fn pops(&self) -> u64
        ensures { result ≡ self.now.pops }
    {
        self.pops
    }
}

fn distance_of(near: Option<Near>) -> Option<u64>
    ensures { result ≡ option_map (λ n. n.distance) near }
{
    match near {
        Some(n) => Some(n.distance),
        None => None,
    }
}

fn distances_of(alloc: Global, of: &[Option<Near>]) -> Result<Vec<Option<u64>>, AllocError>
    ensures { IfOk result (λ all. all.items ≡ map (λ o. option_map (λ n. n.distance) o) of.now) }
{
    of.iter().map(|near| distance_of(*near)).collect(alloc)
}

/// The nearest landmark of each node. An `Err` means that memory was refused.
pub fn from_landmarks(
    alloc: Global,
    graph: &Graph,
    landmarks: &Landmarks,
) -> Result<Nearest, AllocError>
    requires { length landmarks.now ≡ graph.now.nodes }
    ensures nodes { IfOk result (λ nearest. length nearest.nearest ≡ graph.now.nodes) }
    ensures nearest { IfOk result (λ nearest.
        (v : ℕ) → IsNearestOf graph.now.edges landmarks.now v
        (slice_index_or nearest.nearest v None)) }
    ensures found { IfOk result (λ nearest.
        count_by (λ near. is_some near) nearest.nearest ≤ nearest.pops) }
    ensures edges { IfOk result (λ nearest.
        nearest.pops ≤ count_by (λ flag. flag) landmarks.now + 2 * len graph.now.edges) }
{
    let flags = landmarks.flags();
    let mut search = Search {
        tentative: first_numbers(alloc, flags)?,
        settled: vec![in alloc; false; graph.nodes() as usize]?,
        arrivals: vec![in alloc; None; graph.nodes() as usize]?,
        waiting: first_waiting(alloc, flags)?,
        order: Vec::with_capacity(alloc, graph.nodes() as usize)?,
    };
    let pops = settle_all(graph, &[], &mut search)?;
    let of = nearest_each(
        alloc,
        graph,
        flags,
        search.order.as_slice(),
        search.tentative.as_slice(),
    )?;
    let distances = distances_of(alloc, &of)?;
    Ok(Nearest {
        of,
        distances,
        pops,
    })
}

/// The nearest landmark of each settled node, in the order in which they were settled.
fn nearest_each(
    alloc: Global,
    graph: &Graph,
    flags: &[bool],
    order: &[Settled],
    distances: &[Option<u64>],
) -> Result<Vec<Option<Near>>, AllocError>
    requires flags { length flags.now ≡ graph.now.nodes }
    requires ascending { IsAscending order.now }
    requires distances { IsTable graph.now.edges (IsLandmark flags.now) (λ _. None)
        (number_at distances.now) }
    requires listing { IsListing (number_at distances.now) order.now }
    requires nodes { length distances.now ≡ graph.now.nodes }
    ensures nodes { IfOk result (λ of. length of.items ≡ graph.now.nodes) }
    ensures nearest { IfOk result (λ of.
        (v : ℕ) → IsNearestOf graph.now.edges flags.now v (slice_index_or of.items v None)) }
    ensures found { IfOk result (λ of.
        count_by (λ near. is_some near) of.items ≤ length order.now) }
{
    let _distances = distances;
    let mut of = vec![in alloc; None; graph.nodes() as usize]?;
    for settled in order {
        of[settled.node as usize] = nearest_by(graph, flags, &of, *settled);
    }
    Ok(of)
}

/// The nearest landmark of a settled node, from those of its neighbours that were settled earlier.
fn nearest_by(graph: &Graph, flags: &[bool], of: &[Option<Near>], settled: Settled) -> Option<Near>
    requires node { settled.node < graph.now.nodes }
    requires flags { length flags.now ≡ graph.now.nodes }
    requires of { length of.now ≡ graph.now.nodes }
    ensures { IsNearBy graph.now.edges (near_at of.now) settled.node settled.distance
        (flag_at flags.now settled.node) result }
{
    let landmark = if flags[settled.node as usize] {
        Some(settled.node)
    } else {
        least_over(graph, of, settled)
    };
    match landmark {
        Some(landmark) => Some(Near {
            landmark,
            distance: settled.distance,
        }),
        None => None,
    }
}

/// The smallest landmark over the neighbours from which the distance of a node is attained.
fn least_over(graph: &Graph, of: &[Option<Near>], settled: Settled) -> Option<u16>
    requires node { settled.node < graph.now.nodes }
    requires of { length of.now ≡ graph.now.nodes }
    ensures { IsLeastOver graph.now.edges (near_at of.now) settled.node settled.distance result }
{
    let mut least = None;
    for (node, weight) in graph.neighbours(settled.node) {
        least = the_lesser(
            least,
            landmark_by(of[*node as usize], *weight, settled.distance),
        );
    }
    least
}

/// The landmark of a neighbour, if the edge from there attains the distance.
fn landmark_by(near: Option<Near>, weight: u32, to: u64) -> Option<u16>
    ensures { result ≡ landmark_over near weight to }
{
    match near {
        Some(n) if n.distance <= to && to - n.distance == weight as u64 => Some(n.landmark),
        _ => None,
    }
}

fn the_lesser(a: Option<u16>, b: Option<u16>) -> Option<u16>
    ensures { result ≡ lesser a b }
{
    match (a, b) {
        (Some(x), Some(y)) => Some(if y < x { y } else { x }),
        (Some(x), None) => Some(x),
        (None, y) => y,
    }
}
