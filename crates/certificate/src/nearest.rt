// Strict and Nearest: who is in a cluster's tree is nearer to its root than to every landmark, and a node's nearest landmark is the
// least of its entries for landmarks.
ghost use Rattle.std.specs.Prelude.{◌≡◌, ◌<◌, ◌↔◌, ℕ, IsTrue, false, All};
ghost use Rattle.certificate.specs.Words.{entries_at, tables};
ghost use Rattle.certificate.specs.Entries.{IsNearestAt, IsNoNearer, IsStrictAt, IsThere};

use schemes::{Entry, Near, Scheme};

pub(crate) fn is_strict(scheme: &Scheme, x: u16, entry: &Entry) -> bool
    ensures { IsTrue result ↔ IsStrictAt (tables scheme.now) x entry.now }
{
    if scheme.is_landmark(entry.root()) {
        return true;
    }
    match scheme.nearest(x) {
        Some(near) => entry.distance() < near.distance,
        None => true,
    }
}

#[tactic(auto, unfolding(crate::specs::Entries::IsThere))]
fn is_there(scheme: &Scheme, x: u16, near: Near) -> bool
    ensures { IsTrue result ↔ IsThere (tables scheme.now) x near }
{
    if !scheme.is_landmark(near.landmark) {
        return false;
    }
    match scheme.entry(x, near.landmark) {
        Some(entry) => entry.distance() == near.distance,
        None => false,
    }
}

#[tactic(auto, unfolding(crate::specs::Entries::IsNoNearer))]
fn is_no_nearer(scheme: &Scheme, near: Near, entry: &Entry) -> bool
    ensures { IsTrue result ↔ IsNoNearer (tables scheme.now) near entry.now }
{
    !scheme.is_landmark(entry.root())
        || near.distance < entry.distance()
        || near.distance == entry.distance() && near.landmark <= entry.root()
}

/// Whether a node's nearest landmark is right by its entries.
#[tactic(auto, unfolding(crate::specs::Entries::IsNearestAt))]
pub(crate) fn is_nearest(scheme: &Scheme, x: u16) -> bool
    ensures { IsTrue result ↔ IsNearestAt scheme.now x }
{
    let mut entries = scheme.entries_of(x).iter();
    match scheme.nearest(x) {
        Some(near) => is_there(scheme, x, near)
            && entries.all(|entry| is_no_nearer(scheme, near, entry)),
        None => entries.all(|entry| !scheme.is_landmark(entry.root())),
    }
}
