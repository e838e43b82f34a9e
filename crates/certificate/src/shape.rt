// Shape: the lists have a place for each node, the ports are the graph's, and entries ascend, with parents.
ghost use Rattle.std.specs.Prelude.{◌≡◌, ◌≢◌, ◌<◌, ◌↔◌, ℕ, IsTrue, IsSome, map, All};
ghost use Rattle.certificate.specs.Words.{IsSound, entries_at, roots_of, tables, IsStrictlyIncreasing};
ghost use Rattle.certificate.specs.Found.{IsAhead};
ghost use Rattle.certificate.specs.Entries.{AllAscend, HasOwn, HasParentAt, HasPlaces, IsEntryShaped, IsFramed, IsNodeFramed};

use crate::places::{Ahead, entry_near};
use graph_edits::Graph;
use schemes::{Entry, Scheme};

fn has_places(scheme: &Scheme, nodes: u16) -> bool
    ensures { IsTrue result ↔ HasPlaces nodes scheme.now }
{
    let parts = scheme.parts();
    let n = nodes as usize;
    parts.nodes == nodes
        && parts.landmarks.len() == n
        && parts.ports.len() == n
        && parts.nearest.len() == n
        && parts.entries.len() == n
        && parts.directories.len() == n
        && parts.homes.len() == n
}

fn are_ports(ports: &[u16], row: &[(u16, u32)]) -> bool
    ensures { IsTrue result ↔ ports.now ≡ map (λ e. e.0) row.now }
{
    if ports.len() != row.len() {
        return false;
    }
    for i in 0..ports.len() {
        if ports[i] != row[i].0 {
            return false;
        }
    }
    true
}

#[tactic(auto, unfolding(crate::specs::Entries::HasOwn))]
fn has_own(scheme: &Scheme, x: u16) -> bool
    ensures { IsTrue result ↔ HasOwn (tables scheme.now) x }
{
    match scheme.entry(x, x) {
        Some(entry) => entry.distance() == 0 && entry.parent().is_none(),
        None => false,
    }
}

#[tactic(auto, unfolding(crate::specs::Entries::IsNodeFramed))]
fn is_node_framed(graph: &Graph, scheme: &Scheme, x: u16) -> bool
    requires { x < graph.now.nodes }
    ensures { IsTrue result ↔ IsNodeFramed graph.now scheme.now x }
{
    let nodes = graph.nodes();
    let entries = scheme.entries_of(x);
    are_ports(scheme.ports_of(x), graph.neighbours(x))
        && scheme.has_ascending_roots(x)
        && has_own(scheme, x)
        && entries.iter().all(|entry| entry.root() < nodes)
}

/// Whether all of Shape holds but for the parents of entries.
pub(crate) fn is_framed(graph: &Graph, scheme: &Scheme) -> bool
    ensures framed { IsTrue result ↔ IsFramed graph.now scheme.now }
    ensures ascend { IsTrue result → AllAscend scheme.now }
    ensures sound { IsSound graph.now }
{
    if !has_places(scheme, graph.nodes()) {
        return false;
    }
    for x in 0..graph.nodes() {
        if !is_node_framed(graph, scheme, x) {
            return false;
        }
    }
    true
}

/// Whether the parent of an entry of x is a neighbour with an entry for the root, where x isn't the root itself.
#[tactic(auto, unfolding(crate::specs::Entries::IsEntryShaped, crate::specs::Entries::HasParentAt))]
pub(crate) fn is_entry_shaped<'a>(
    graph: &Graph,
    scheme: &'a Scheme,
    ahead: &Ahead<'a>,
    x: u16,
    entry: &Entry,
) -> bool
    requires ahead { IsAhead scheme.now entry.now.root ahead.now }
    ensures { IsTrue result ↔ IsEntryShaped graph.now (tables scheme.now) x entry.now }
{
    if x == entry.root() {
        return true;
    }
    match entry.parent() {
        Some(y) => graph.weight(x, y).is_some()
            && entry_near(scheme, ahead, y, entry.root()).is_some(),
        None => false,
    }
}

/// The same where nothing is known ahead: look-ups search.
pub(crate) fn is_entry_shaped_alone(graph: &Graph, scheme: &Scheme, x: u16, entry: &Entry) -> bool
    ensures { IsTrue result ↔ IsEntryShaped graph.now (tables scheme.now) x entry.now }
{
    is_entry_shaped(graph, scheme, &Ahead::nothing(), x, entry)
}
