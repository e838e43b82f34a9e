// Edges and Parents: an entry leads over every edge to an entry no farther, or to where a landmark is as near; and its parent gives its
// distance, first of all neighbours.
ghost use Rattle.std.specs.Prelude.{◌≡◌, ◌+◌, ◌<◌, ◌≤◌, ◌↔◌, ℕ, IsTrue, All};
ghost use Rattle.certificate.specs.Words.{Tables, entries_at, tables};
ghost use Rattle.certificate.specs.Entries.{IsClosedAt, IsClosedOver, IsRightOver, IsTightAt, IsTightOver};
ghost use Rattle.certificate.specs.Found.{HasNearWithin, IsEntryOf};

use graph_edits::Graph;
use schemes::{Entry, Scheme};

/// Whether a distance is that of a node and an edge more, without the sum.
fn is_sum(total: u64, part: u64, weight: u32) -> bool
    ensures { IsTrue result ↔ total ≡ part + weight }
{
    total >= part && total - part == weight as u64
}

/// Whether a distance is at most that of a node and an edge more, in the same way.
fn is_at_most(distance: u64, part: u64, weight: u32) -> bool
    ensures { IsTrue result ↔ distance ≤ part + weight }
{
    distance <= part || distance - part <= weight as u64
}

/// Whether a node's nearest landmark is no farther than an edge past a distance.
fn is_landmark_near(scheme: &Scheme, y: u16, distance: u64, weight: u32) -> bool
    ensures { IsTrue result ↔ HasNearWithin (tables scheme.now) y (distance + weight) }
{
    match scheme.nearest(y) {
        Some(near) => is_at_most(near.distance, distance, weight),
        None => false,
    }
}

/// Whether an entry is closed over an edge, behind which this entry stands for the same root, if there is one.
#[tactic(auto, unfolding(crate::specs::Entries::IsClosedOver))]
fn is_closed_over(scheme: &Scheme, entry: &Entry, edge: (u16, u32), behind: Option<&Entry>) -> bool
    requires { IsEntryOf (tables scheme.now) edge.0 entry.now.root behind }
    ensures { IsTrue result ↔ IsClosedOver (tables scheme.now) entry.now edge }
{
    let (y, weight) = edge;
    match behind {
        Some(there) => is_at_most(there.distance(), entry.distance(), weight),
        None => !scheme.is_landmark(entry.root())
            && is_landmark_near(scheme, y, entry.distance(), weight),
    }
}

/// Whether the neighbour over an edge gives an entry's distance where it is the parent, and doesn't where it is before the parent.
/// Behind the edge this entry stands for the same root, if there is one.
#[tactic(auto, unfolding(crate::specs::Entries::IsTightOver))]
fn is_tight_over(entry: &Entry, edge: (u16, u32), behind: Option<&Entry>) -> bool
    ensures { (t : Tables) → IsEntryOf t edge.0 entry.now.root behind.entry
        → IsTrue result ↔ IsTightOver t entry.now edge }
{
    let (y, weight) = edge;
    let Some(there) = behind else {
        return true;
    };
    let Some(parent) = entry.parent() else {
        return true;
    };
    if y > parent {
        return true;
    }
    let gives = is_sum(entry.distance(), there.distance(), weight);
    if y == parent { gives } else { !gives }
}

/// Whether an edge is right for an entry by Edges and Parents.
#[tactic(auto, unfolding(crate::specs::Entries::IsRightOver))]
pub(crate) fn is_right_over(
    scheme: &Scheme,
    entry: &Entry,
    edge: (u16, u32),
    behind: Option<&Entry>,
) -> bool
    requires { IsEntryOf (tables scheme.now) edge.0 entry.now.root behind }
    ensures { IsTrue result ↔ IsRightOver (tables scheme.now) entry.now edge }
{
    is_closed_over(scheme, entry, edge, behind) && is_tight_over(entry, edge, behind)
}

/// Whether an entry is closed over an edge, where the entry behind it is searched for.
fn is_closed_by(scheme: &Scheme, entry: &Entry, edge: (u16, u32)) -> bool
    ensures { IsTrue result ↔ IsClosedOver (tables scheme.now) entry.now edge }
{
    is_closed_over(scheme, entry, edge, scheme.entry(edge.0, entry.root()))
}

/// Whether it is tight over an edge, in the same way.
fn is_tight_by(scheme: &Scheme, entry: &Entry, edge: (u16, u32)) -> bool
    ensures { IsTrue result ↔ IsTightOver (tables scheme.now) entry.now edge }
{
    is_tight_over(entry, edge, scheme.entry(edge.0, entry.root()))
}

/// Whether an entry of x is closed over each edge.
#[tactic(auto, unfolding(crate::specs::Entries::IsClosedAt))]
pub(crate) fn is_closed(graph: &Graph, scheme: &Scheme, x: u16, entry: &Entry) -> bool
    requires { x < graph.now.nodes }
    ensures { IsTrue result ↔ IsClosedAt graph.now (tables scheme.now) x entry.now }
{
    let row = graph.neighbours(x);
    row.iter().all(|edge| is_closed_by(scheme, entry, *edge))
}

/// Whether it is tight over each edge.
#[tactic(auto, unfolding(crate::specs::Entries::IsTightAt))]
pub(crate) fn is_tight(graph: &Graph, scheme: &Scheme, x: u16, entry: &Entry) -> bool
    requires { x < graph.now.nodes }
    ensures { IsTrue result ↔ IsTightAt graph.now (tables scheme.now) x entry.now }
{
    let row = graph.neighbours(x);
    row.iter().all(|edge| is_tight_by(scheme, entry, *edge))
}
