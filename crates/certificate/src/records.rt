// Records: each by those of its children, one pass over the ports of its node, from the last to the first.
ghost use Rattle.std.specs.Prelude.{◌≡◌, ◌<◌, ◌+◌, ◌↔◌, ℕ, IsTrue, MatchOption, Some, None, List, slice_get, All};
ghost use Rattle.certificate.specs.Words.{neighbours_of, record_of, parent_is, FitsRoot, record_at, Tables, entries_at, tables};
ghost use Rattle.certificate.specs.Found.{IsAhead, IsChildOf, IsEntryOf};
ghost use Rattle.certificate.specs.Entries.{IsEntryShaped, IsRightOver};
ghost use Rattle.certificate.specs.Rows.{AreChildrenFit, FitsAt, IsPorted, IsSwept, IsWidest, LeadsTo, StartNowhere, StartsAt, behind as behind_port, but, with_child};
ghost use Rattle.schemes.specs.Local.{span as span_of};

use crate::edges::is_right_over;
use crate::places::{Ahead, entry_near};
use crate::shape::is_entry_shaped;
use graph_edits::Graph;
use heavy_labels::Record;
use schemes::{Entry, Scheme};

/// The neighbour behind a port of x, where there is one.
fn behind(graph: &Graph, x: u16, port: Option<u16>) -> Option<u16>
    requires { x < graph.now.nodes }
    ensures { result ≡ behind_port graph.now x port }
{
    match port {
        Some(port) => graph.over(x, port),
        None => None,
    }
}

/// Whether the record of an entry of x has the port to the entry's parent.
#[tactic(auto, unfolding(crate::specs::Rows::IsPorted))]
fn is_ported(graph: &Graph, x: u16, entry: &Entry) -> bool
    requires { x < graph.now.nodes }
    ensures { IsTrue result ↔ IsPorted graph.now x entry.now }
{
    let port = entry.tree_record().parent_port;
    match entry.parent() {
        Some(y) => behind(graph, x, port) == Some(y),
        None => port.is_none(),
    }
}

/// The entry, if it is that of a child of x.
fn child_of<'a>(x: u16, behind: Option<&'a Entry>) -> Option<&'a Entry>
    ensures { (t : Tables) (y root : ℕ) → IsEntryOf t y root behind.entry
        → IsChildOf t root x y result }
{
    let entry = behind?;
    if entry.parent() == Some(x) {
        Some(entry)
    } else {
        None
    }
}

/// How many members a record says that there are, its own and those below it.
fn span(given: &Record) -> u32
    ensures { result ≡ span_of (record_of given.now) }
{
    (given.last as u32 + 1).saturating_sub(given.first as u32)
}

/// The first of the widest children, with its span, when y stands before those from which it was found, if y is a child with this entry.
fn wider_child(widest: (Option<u16>, u32), y: u16, below: Option<&Entry>) -> (Option<u16>, u32)
    ensures { (t : Tables) (root x : ℕ) (ks : List ℕ) → IsChildOf t root x y below.entry
        → IsWidest t root ks widest → IsWidest t root (with_child t root x y ks) result }
{
    let Some(entry) = below else {
        return widest;
    };
    let wide = span(&entry.tree_record());
    if wide >= widest.1 {
        (Some(y), wide)
    } else {
        widest
    }
}

/// The number with which children begin, when y stands before those that begin with `start`, if y is a child with this entry and not
/// the heavy one; none where its record doesn't fit.
fn start_before(
    given: &Record,
    heavy: Option<u16>,
    y: u16,
    below: Option<&Entry>,
    start: u32,
) -> Option<u32>
    ensures { (t : Tables) (root x end : ℕ) (ks : List ℕ) → IsChildOf t root x y below.entry
        → StartsAt t root (given.now.light_depth + 1) end (but heavy ks) start
        → MatchOption result (StartNowhere t root (given.now.light_depth + 1) end (but heavy (with_child t root x y ks)))
        (λ first. StartsAt t root (given.now.light_depth + 1) end (but heavy (with_child t root x y ks)) first) }
{
    let Some(entry) = below else {
        return Some(start);
    };
    if heavy == Some(y) {
        return Some(start);
    }
    let child = entry.tree_record();
    if child.last as u32 + 1 == start && child.light_depth as u32 == given.light_depth as u32 + 1 {
        Some(child.first as u32)
    } else {
        None
    }
}

/// Whether an entry of x is right over each edge, its heavy child is this, and the numbers of its other children are those that its
/// record leaves to them.
fn are_children_fit<'a>(
    graph: &Graph,
    scheme: &'a Scheme,
    ahead: &Ahead<'a>,
    x: u16,
    entry: &Entry,
    heavy: Option<u16>,
) -> bool
    requires inside { x < graph.now.nodes }
    requires ahead { IsAhead scheme.now entry.now.root ahead.now }
    ensures { IsTrue result
        ↔ (All (IsRightOver (tables scheme.now) entry.now) (neighbours_of graph.now x)
        × AreChildrenFit graph.now (tables scheme.now) x entry.now heavy) }
{
    let own = entry.tree_record();
    let row = graph.neighbours(x);
    let mut start = own.last as u32 + 1;
    let mut widest = (None, 0);
    let mut left = row.len();
    while left > 0 {
        left -= 1;
        let edge = row[left];
        let behind = entry_near(scheme, ahead, edge.0, entry.root());
        if !is_right_over(scheme, entry, edge, behind) {
            return false;
        }
        let below = child_of(x, behind);
        match start_before(&own, heavy, edge.0, below, start) {
            Some(first) => start = first,
            None => return false,
        }
        widest = wider_child(widest, edge.0, below);
    }
    start == own.heavy_last as u32 + 1 && widest.0 == heavy
}

/// Whether a record and that of its node's heavy child fit; that of a leaf, where there is none.
fn leads_to<'a>(scheme: &'a Scheme, ahead: &Ahead<'a>, entry: &Entry, heavy: Option<u16>) -> bool
    requires ahead { IsAhead scheme.now entry.now.root ahead.now }
    ensures { IsTrue result ↔ LeadsTo (tables scheme.now) entry.now.root entry.now.tree_record heavy }
{
    let record = entry.tree_record();
    let Some(heavy) = heavy else {
        return record.first == record.last
            && record.heavy_last == record.first
            && record.heavy_port.is_none();
    };
    let Some(below) = entry_near(scheme, ahead, heavy, entry.root()) else {
        return false;
    };
    let child = below.tree_record();
    child.first as u32 == record.first as u32 + 1
        && child.light_depth == record.light_depth
        && child.last == record.heavy_last
}

/// Whether Shape, Edges, Parents and Records hold of one entry of x. Children's ports aren't looked at: each entry's own is.
#[tactic(auto, unfolding(crate::specs::Rows::IsSwept, crate::specs::Rows::FitsAt))]
pub(crate) fn is_swept<'a>(
    graph: &Graph,
    scheme: &'a Scheme,
    ahead: &Ahead<'a>,
    x: u16,
    entry: &Entry,
) -> bool
    requires inside { x < graph.now.nodes }
    requires ahead { IsAhead scheme.now entry.now.root ahead.now }
    ensures { IsTrue result ↔ IsSwept graph.now (tables scheme.now) x entry.now }
{
    let heavy = behind(graph, x, entry.tree_record().heavy_port);
    is_entry_shaped(graph, scheme, ahead, x, entry)
        && is_ported(graph, x, entry)
        && are_children_fit(graph, scheme, ahead, x, entry, heavy)
        && leads_to(scheme, ahead, entry, heavy)
}

/// The same where nothing is known ahead: look-ups search.
pub(crate) fn is_swept_alone(graph: &Graph, scheme: &Scheme, x: u16, entry: &Entry) -> bool
    requires { x < graph.now.nodes }
    ensures { IsTrue result ↔ IsSwept graph.now (tables scheme.now) x entry.now }
{
    is_swept(graph, scheme, &Ahead::nothing(), x, entry)
}

/// Whether a root's record of itself is that of a root. Where it has none there is nothing to fit.
pub(crate) fn fits_root(scheme: &Scheme, x: u16) -> bool
    ensures { IsTrue result ↔ FitsRoot (tables scheme.now) x }
{
    let Some(entry) = scheme.entry(x, x) else {
        return true;
    };
    let record = entry.tree_record();
    record.first == 0 && record.light_depth == 0 && record.parent_port.is_none()
}
