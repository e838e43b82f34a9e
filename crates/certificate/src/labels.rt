// Labels: each by a climb from its node to the root, which meets the label's light ports from the last to the first. In the swift pass
// those of a directory by the label of their node's parent there.
ghost use Rattle.std.specs.Prelude.{◌≡◌, ◌==◌, ◌<◌, ◌↔◌, ℕ, IsTrue, MatchOption, List, Option, Some, None, false, slice_get, All};
ghost use Rattle.certificate.specs.Words.{Label, lights_at, distance_of, IsLocalLabel, parent_of, record_at, port_to, directory_at, or_none, tables};
ghost use Rattle.certificate.specs.Found.{IsAhead};
ghost use Rattle.certificate.specs.Climbs.{AreAbove, HasLabelsAt, HasLights, HoldsFirst, IsHomeRight, IsLabelRight, IsLinked};

use crate::places::{Ahead, entry_near};
use graph_edits::Graph;
use heavy_labels::Label;
use schemes::{Entry, Listed, Scheme, port};

/// The parent and the light depth that a node's entry for a root names, and its distance.
fn rung(scheme: &Scheme, root: u16, x: u16) -> (Option<u16>, u8, u64)
    ensures parent { result.0 ≡ parent_of ((tables scheme.now).entry x root) }
    ensures depth { result.1 ≡ (record_at (tables scheme.now) root x).light_depth }
    ensures distance { result.2 ≡ distance_of ((tables scheme.now).entry x root) }
{
    match scheme.entry(x, root) {
        Some(entry) => (
            entry.parent(),
            entry.tree_record().light_depth,
            entry.distance(),
        ),
        None => (None, 0, 0),
    }
}

fn number(scheme: &Scheme, root: u16, x: u16) -> u16
    ensures { result ≡ (record_at (tables scheme.now) root x).first }
{
    match scheme.entry(x, root) {
        Some(entry) => entry.tree_record().first,
        None => 0,
    }
}

/// The light ports without the last one, if that is a port. A port that isn't there counts as 0.
fn without_last(lights: &[u16], port: Option<u16>) -> Option<&[u16]>
    ensures { AreAbove false port lights.now result }
{
    let (last, rest) = lights.split_last()?;
    if *last == port.unwrap_or(0) {
        Some(rest)
    } else {
        None
    }
}

/// The light ports above y, where these are those above its child x; none where they can't be. The edge is light where
/// it raises the light depth.
fn climbed<'a>(
    graph: &Graph,
    x: u16,
    y: u16,
    is_heavy: bool,
    lights: &'a [u16],
) -> Option<&'a [u16]>
    ensures { AreAbove is_heavy (port_to graph.now y x) lights.now result }
{
    if is_heavy {
        Some(lights)
    } else {
        without_last(lights, port(graph, y, x))
    }
}

/// Whether the light ports on the way from a root to a node are these. A climb ends where it doesn't come nearer to the root.
fn are_lights(graph: &Graph, scheme: &Scheme, root: u16, v: u16, lights: &[u16]) -> bool
    ensures { HoldsFirst graph.now scheme.now
        → IsTrue result ↔ HasLights graph.now (tables scheme.now) root v lights.now }
{
    let mut left = lights;
    let mut at = v;
    let mut here = rung(scheme, root, v);
    while let Some(above) = here.0 {
        let there = rung(scheme, root, above);
        if there.2 >= here.2 {
            return false;
        }
        match climbed(graph, at, above, here.1 == there.1, left) {
            Some(rest) => left = rest,
            None => return false,
        }
        at = above;
        here = there;
    }
    left.is_empty()
}

/// Whether a label is that of v in the tree of a root.
#[tactic(auto, unfolding(crate::specs::Climbs::HasLights))]
fn is_label(graph: &Graph, scheme: &Scheme, root: u16, v: u16, label: &Label) -> bool
    ensures { HoldsFirst graph.now scheme.now
        → IsTrue result ↔ IsLocalLabel graph.now (tables scheme.now) root v label.now }
{
    label.first() == number(scheme, root, v) && are_lights(graph, scheme, root, v, label.lights())
}

/// Whether the light ports of x are these, where those of its parent y are the ones above.
fn are_below(graph: &Graph, x: u16, y: u16, is_heavy: bool, lights: &[u16], above: &[u16]) -> bool
    ensures { IsTrue result ↔ (lights.now ≡ lights_at is_heavy above.now (port_to graph.now y x)) }
{
    match climbed(graph, x, y, is_heavy, lights) {
        Some(rest) => rest == above,
        None => false,
    }
}

fn depth_near<'a>(scheme: &'a Scheme, ahead: &Ahead<'a>, root: u16, x: u16) -> u8
    requires ahead { IsAhead scheme.now root ahead.now }
    ensures { result ≡ (record_at (tables scheme.now) root x).light_depth }
{
    match entry_near(scheme, ahead, x, root) {
        Some(entry) => entry.tree_record().light_depth,
        None => 0,
    }
}

/// Whether a label of u's directory fits its node's record, and the label of its node's parent there. Where all do they are right, from
/// the root down.
#[tactic(auto, unfolding(crate::specs::Climbs::IsLinked))]
pub(crate) fn is_linked<'a>(
    graph: &Graph,
    scheme: &'a Scheme,
    ahead: &Ahead<'a>,
    u: u16,
    listed: &Listed,
) -> bool
    requires ahead { IsAhead scheme.now u ahead.now }
    ensures { IsTrue result → IsLinked graph.now (tables scheme.now) u listed.now }
{
    let v = listed.node;
    let Some(entry) = entry_near(scheme, ahead, v, u) else {
        return true;
    };
    let record = entry.tree_record();
    if listed.label.first() != record.first {
        return false;
    }
    let lights = listed.label.lights();
    let Some(y) = entry.parent() else {
        return lights.is_empty();
    };
    let Some(label) = scheme.listed(u, y) else {
        return false;
    };
    let is_heavy = record.light_depth == depth_near(scheme, ahead, u, y);
    are_below(graph, v, y, is_heavy, lights, label.lights())
}

/// Whether a label of u's directory is right, or of a node without an entry for u.
#[tactic(auto, unfolding(crate::specs::Climbs::IsLabelRight))]
fn is_label_right(graph: &Graph, scheme: &Scheme, u: u16, listed: &Listed) -> bool
    requires { HoldsFirst graph.now scheme.now }
    ensures { IsTrue result ↔ IsLabelRight graph.now (tables scheme.now) u listed.now }
{
    match scheme.entry(listed.node, u) {
        Some(_) => is_label(graph, scheme, u, listed.node, &listed.label),
        None => true,
    }
}

/// Whether a home label is right, or without a nearest landmark.
#[tactic(auto, unfolding(crate::specs::Climbs::IsHomeRight))]
pub(crate) fn is_home_right(graph: &Graph, scheme: &Scheme, v: u16) -> bool
    ensures { HoldsFirst graph.now scheme.now → IsTrue result ↔ IsHomeRight graph.now scheme.now v }
{
    match (scheme.home_label(v), scheme.nearest(v)) {
        (Some(label), Some(near)) => is_label(graph, scheme, near.landmark, v, label),
        _ => true,
    }
}

/// Whether the labels of a node's directory are right, and its home label is.
#[tactic(auto, unfolding(crate::specs::Climbs::HasLabelsAt))]
pub(crate) fn has_labels_at(graph: &Graph, scheme: &Scheme, u: u16) -> bool
    requires { HoldsFirst graph.now scheme.now }
    ensures { IsTrue result ↔ HasLabelsAt graph.now scheme.now u }
{
    let directory = scheme.directory_of(u);
    directory
        .iter()
        .all(|listed| is_label_right(graph, scheme, u, listed))
        && is_home_right(graph, scheme, u)
}
