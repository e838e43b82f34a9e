// The swift pass, root by root: all entries for a root, its directory and the labels there. Each node's entries are in the order of their
// roots, so the next one of a node is known by a place that goes along. Before each root the entries at the places are gathered, so that
// those of neighbours are looked up in one list. What the pass takes for right is right. Which rule fails first where it finds a fault is
// told by the check of each.
ghost use Rattle.std.specs.Prelude.{◌≡◌, ◌<◌, ◌≤◌, ◌+◌, ℕ, IfSome, IsTrue, IsSome, false, get_or, length, nat_lt, slice_index, true, All};
ghost use Rattle.certificate.specs.Words.{FitsRoot, directory_at, entries_at, roots_of, tables, IsStrictlyIncreasing};
ghost use Rattle.certificate.specs.Found.{AreEntries, AreNext, IsAhead};
ghost use Rattle.certificate.specs.Climbs.{HoldsFirst, IsHomeRight, IsLinked};
ghost use Rattle.certificate.specs.Entries.{AllAscend, AreBelow, HasOrderAt, IsListedRight, IsNearestAt};
ghost use Rattle.certificate.specs.Trees.{HoldBetween, ArePast, GoOn, IsRootRight, IsTreeRight};

use crate::directories::has_order;
use crate::labels::{is_home_right, is_linked};
use crate::nearest::{is_nearest, is_strict};
use crate::places::{Ahead, kept, put_entry, put_next};
use crate::records::{fits_root, is_swept};
use graph_edits::{Graph, MOST_NODES};
use heavy_labels::Record;
use schemes::{Entry, Scheme};

/// For how many nodes places are kept: for all.
const PLACES: usize = MOST_NODES as usize;

/// The entry at the place of x, if it is for this root.
fn next_entry<'a>(scheme: &'a Scheme, places: &[u16], x: u16, root: u16) -> Option<&'a Entry>
    ensures within { IfSome result (λ _. slice_index places.now x < length (entries_at scheme.now x)) }
    ensures entry { IfSome result (λ e. e.now ≡ get_or (entries_at scheme.now x) (slice_index places.now x) e.now) }
    ensures root { IfSome result (λ e. e.now.root ≡ root) }
{
    let entries = scheme.entries_of(x);
    let at = kept(places, x) as usize;
    if at < entries.len() && entries[at].root() == root {
        Some(&entries[at])
    } else {
        None
    }
}

/// Whether the next entry of x is for this root and right. Its place goes on behind it.
fn sweep<'a>(
    graph: &Graph,
    scheme: &'a Scheme,
    places: &mut [u16],
    ahead: &Ahead<'a>,
    x: u16,
    root: u16,
) -> bool
    requires inside { x < graph.now.nodes }
    requires ascend { AllAscend scheme.now }
    requires ahead { IsAhead scheme.now root ahead.now }
    requires room { graph.now.nodes ≤ length places.old }
    requires listed { (tables scheme.now).landmark root ≡ false → IsSome ((tables scheme.now).listed root x) }
    ensures on { GoOn graph.now scheme.now places.old places.new }
    ensures there { IsTrue result → IsSome ((tables scheme.now).entry x root) }
{
    let Some(entry) = next_entry(scheme, places, x, root) else {
        return false;
    };
    if !is_swept(graph, scheme, ahead, x, entry) || !is_strict(scheme, x, entry) {
        return false;
    }
    let i = x as usize;
    places[i] = places[i].saturating_add(1);
    true
}

/// The same of all nodes whose next entry is for a landmark.
fn sweep_nodes<'a>(
    graph: &Graph,
    scheme: &'a Scheme,
    places: &mut [u16],
    ahead: &Ahead<'a>,
    root: u16,
) -> bool
    requires ascend { AllAscend scheme.now }
    requires ahead { IsAhead scheme.now root ahead.now }
    requires room { graph.now.nodes ≤ length places.old }
    requires landmark { (tables scheme.now).landmark root ≡ true }
    ensures on { GoOn graph.now scheme.now places.old places.new }
{
    for x in 0..graph.nodes() {
        let is_next = next_entry(scheme, places, x, root).is_some();
        if is_next && !sweep(graph, scheme, places, ahead, x, root) {
            return false;
        }
    }
    true
}

/// The same of all members of a root's tree: the nodes that the root lists. A landmark lists none.
#[tactic(auto, unfolding(crate::specs::Entries::IsListedRight))]
fn sweep_members<'a>(
    graph: &Graph,
    scheme: &'a Scheme,
    places: &mut [u16],
    ahead: &Ahead<'a>,
    root: u16,
) -> bool
    requires ascend { AllAscend scheme.now }
    requires ahead { IsAhead scheme.now root ahead.now }
    requires room { graph.now.nodes ≤ length places.old }
    ensures on { GoOn graph.now scheme.now places.old places.new }
    ensures listed { IsTrue result → IsListedRight scheme.now root }
{
    if scheme.is_landmark(root) {
        return scheme.directory_of(root).is_empty()
            && sweep_nodes(graph, scheme, places, ahead, root);
    }
    for listed in scheme.directory_of(root) {
        let x = listed.node;
        if x >= graph.nodes() || !sweep(graph, scheme, places, ahead, x, root) {
            return false;
        }
    }
    true
}

/// Whether the tree of a root is right, and what is said of the root alone.
fn sweep_tree<'a>(
    graph: &Graph,
    scheme: &'a Scheme,
    places: &mut [u16],
    ahead: &Ahead<'a>,
    root: u16,
) -> bool
    requires ascend { AllAscend scheme.now }
    requires ahead { IsAhead scheme.now root ahead.now }
    requires room { graph.now.nodes ≤ length places.old }
    ensures on { GoOn graph.now scheme.now places.old places.new }
    ensures root { IsTrue result → IsRootRight graph.now scheme.now root }
{
    let mut directory = scheme.directory_of(root).iter();
    sweep_members(graph, scheme, places, ahead, root)
        && fits_root(scheme, root)
        && is_nearest(scheme, root)
        && has_order(scheme, root)
        && directory.all(|listed| is_linked(graph, scheme, ahead, root, listed))
        && is_home_right(graph, scheme, root)
}

/// Keeps for each member of a root's tree the entry at its place.
fn put_entries(graph: &Graph, scheme: &Scheme, places: &[u16], entries: &mut [Entry], root: u16)
    requires ascend { AllAscend scheme.now }
    requires room { graph.now.nodes ≤ length entries.old }
    ensures room { length entries.new ≡ length entries.old }
    ensures kept { AreEntries scheme.now entries.old → AreEntries scheme.now entries.new }
{
    if scheme.is_landmark(root) {
        for x in 0..graph.nodes() {
            put_entry(scheme, places, entries, x);
        }
        return;
    }
    for listed in scheme.directory_of(root) {
        if listed.node < graph.nodes() {
            put_entry(scheme, places, entries, listed.node);
        }
    }
}

/// Keeps for each member of a root's tree the root at its place, where look-ups are for later roots.
fn put_nexts(graph: &Graph, scheme: &Scheme, places: &[u16], nexts: &mut [u16], root: u16)
    requires ascend { AllAscend scheme.now }
    requires room { graph.now.nodes ≤ length nexts.old }
    requires later { root < 65535 }
    ensures room { length nexts.new ≡ length nexts.old }
    ensures next { AreNext scheme.now root nexts.old → AreNext scheme.now (root + 1) nexts.new }
{
    if scheme.is_landmark(root) {
        for x in 0..graph.nodes() {
            if kept(nexts, x) <= root {
                put_next(scheme, places, nexts, x, root + 1);
            }
        }
        return;
    }
    for listed in scheme.directory_of(root) {
        if listed.node < graph.nodes() {
            put_next(scheme, places, nexts, listed.node, root + 1);
        }
    }
}

/// A place of a list in front of which all roots are below a root.
fn place_for(entries: &[Entry], root: u16) -> usize
    requires { IsStrictlyIncreasing (roots_of entries.now) }
    ensures { AreBelow root result entries.now }
{
    entries.partition_point(
        |entry: &Entry| -> bool
            ensures { result ≡ nat_lt entry.now.root root }
        { entry.root() < root },
    )
}

/// Such a place for each node, and the root there.
fn put_places(scheme: &Scheme, places: &mut [u16], nexts: &mut [u16], nodes: u16, root: u16)
    requires ascend { AllAscend scheme.now }
    requires room { nodes ≤ length places.old }
    requires nexts { nodes ≤ length nexts.old }
    ensures room { length places.new ≡ length places.old }
    ensures nexts { length nexts.new ≡ length nexts.old }
    ensures below { (x : ℕ) → x < nodes
        → AreBelow root (slice_index places.new x) (entries_at scheme.now x) }
    ensures next { AreNext scheme.now root nexts.old → AreNext scheme.now root nexts.new }
{
    for x in 0..nodes {
        let place = place_for(scheme.entries_of(x), root);
        places[x as usize] = place.min(u16::MAX as usize) as u16;
        put_next(scheme, places, nexts, x, root);
    }
}

/// Whether no entry from the places on is for a root below this one.
fn are_past(scheme: &Scheme, places: &[u16], nodes: u16, root: u16) -> bool
    ensures { IsTrue result → ArePast scheme.now nodes root places.now }
{
    for x in 0..nodes {
        let entries = scheme.entries_of(x);
        let at = kept(places, x) as usize;
        if at < entries.len() && entries[at].root() < root {
            return false;
        }
    }
    true
}

/// An entry for no root.
fn no_entry() -> Entry
    ensures { result.root ≡ 65535 }
{
    let tree_record = Record {
        first: 0,
        last: 0,
        heavy_last: 0,
        light_depth: 0,
        parent_port: None,
        heavy_port: None,
    };
    Entry::new(0, u16::MAX, None, tree_record)
}

/// Whether the trees of the roots from the first to below the last are right, and what is said of these nodes alone.
// Its lists take 448 KiB of the stack. It is called from two places, so a compiler leaves it a function of its own: the calls that cut
// the ranges among threads call themselves, and each would take that much if this were part of them.
pub(crate) fn are_trees_right(graph: &Graph, scheme: &Scheme, first: u16, last: u16) -> bool
    requires inside { last ≤ graph.now.nodes }
    requires ascend { AllAscend scheme.now }
    ensures { IsTrue result → HoldBetween (IsTreeRight graph.now scheme.now) first last }
{
    let mut places = [0; PLACES];
    let mut nexts = [0; PLACES];
    let mut entries = [no_entry(); PLACES];
    put_places(scheme, &mut places, &mut nexts, graph.nodes(), first);
    for root in first..last {
        put_entries(graph, scheme, &places, &mut entries, root);
        let ahead = Ahead {
            nexts: &nexts,
            entries: &entries,
        };
        if !sweep_tree(graph, scheme, &mut places, &ahead, root) {
            return false;
        }
        put_nexts(graph, scheme, &places, &mut nexts, root);
    }
    are_past(scheme, &places, graph.nodes(), last)
}
