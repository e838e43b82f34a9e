// Directories: a node that is no landmark lists exactly the members of its tree, and homes go with nearest landmarks.
ghost use Rattle.std.specs.Prelude.{◌≡◌, ◌<◌, ◌↔◌, ℕ, IsTrue, IsSome, is_some, slice_get, All};
ghost use Rattle.certificate.specs.Words.{directory_at, entries_at, nodes_of, or_none, tables, IsStrictlyIncreasing};
ghost use Rattle.certificate.specs.Entries.{HasDirectoryAt, HasOrderAt, IsListedBack, IsListedRight};

use schemes::{Entry, Scheme};

#[tactic(auto, unfolding(crate::specs::Entries::IsListedRight))]
fn is_listed_right(scheme: &Scheme, u: u16) -> bool
    ensures { IsTrue result ↔ IsListedRight scheme.now u }
{
    let directory = scheme.directory_of(u);
    if scheme.is_landmark(u) {
        directory.is_empty()
    } else {
        directory
            .iter()
            .all(|listed| scheme.entry(listed.node, u).is_some())
    }
}

#[tactic(auto, unfolding(crate::specs::Entries::IsListedBack))]
fn is_listed_back(scheme: &Scheme, x: u16, entry: &Entry) -> bool
    ensures { IsTrue result ↔ IsListedBack (tables scheme.now) x entry.now }
{
    scheme.is_landmark(entry.root()) || scheme.listed(entry.root(), x).is_some()
}

/// Whether a node's directory ascends, and a home label is there exactly where a nearest landmark is.
#[tactic(auto, unfolding(crate::specs::Entries::HasOrderAt))]
pub(crate) fn has_order(scheme: &Scheme, u: u16) -> bool
    ensures { IsTrue result ↔ HasOrderAt scheme.now u }
{
    scheme.has_ascending_directory(u)
        && scheme.home_label(u).is_some() == scheme.nearest(u).is_some()
}

/// Whether a node's directory lists what it should, the node is listed where it should be, and its home label is where it should be.
#[tactic(auto, unfolding(crate::specs::Entries::HasDirectoryAt))]
pub(crate) fn has_directory(scheme: &Scheme, u: u16) -> bool
    ensures { IsTrue result ↔ HasDirectoryAt scheme.now u }
{
    let entries = scheme.entries_of(u);
    has_order(scheme, u)
        && is_listed_right(scheme, u)
        && entries.iter().all(|entry| is_listed_back(scheme, u, entry))
}
