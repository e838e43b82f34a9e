// What is known of each node while roots are gone through in ascending order: a root below which it has no entry that is still to come,
// and one of its entries, that for the root at which the pass is, if it has one.
ghost use Rattle.std.specs.Prelude.{◌≡◌, ◌<◌, ◌≤◌, ◌+◌, ℕ, IsTrue, None, Some, length, slice_index};
ghost use Rattle.certificate.specs.Words.{Parts, entries_at, first_entry, roots_of, tables, IsStrictlyIncreasing};
ghost use Rattle.certificate.specs.Found.{AreEntries, AreNext, IsAhead, IsEntryOf};
ghost use Rattle.certificate.specs.Entries.{AllAscend, AreBelow};

use schemes::{Entry, Scheme};

/// For each node a root below which it has no entry from the root on at which the look-ups are, and an entry of it. Empty lists say
/// nothing, and look-ups search.
#[derive(Clone, Copy)]
pub(crate) struct Ahead<'a> {
    pub(crate) nexts: &'a [u16],
    pub(crate) entries: &'a [Entry],
}

impl<'a> Ahead<'a> {
    /// Nothing is said of any node.
    pub(crate) fn nothing() -> Ahead<'a>
        ensures { (p : Parts) (root : ℕ) → IsAhead p root result }
    {
        Ahead {
            nexts: &[],
            entries: &[],
        }
    }
}

/// The number that is kept for a node, 0 where none is.
pub(crate) fn kept(numbers: &[u16], x: u16) -> u16
    ensures { result ≡ slice_index numbers.now x }
{
    let i = x as usize;
    if i < numbers.len() { numbers[i] } else { 0 }
}

/// The entry of a node for a root: none where the node's next root is a later one, else that which is kept, if it is for the root. Only
/// where both say nothing it is searched for.
#[tactic(auto, using(crate::proofs::LookUps::entry_kept))]
pub(crate) fn entry_near<'a>(
    scheme: &'a Scheme,
    ahead: &Ahead<'a>,
    x: u16,
    root: u16,
) -> Option<&'a Entry>
    requires { IsAhead scheme.now root ahead.now }
    ensures { IsEntryOf (tables scheme.now) x root result }
{
    if kept(ahead.nexts, x) > root {
        return None;
    }
    let i = x as usize;
    if root < u16::MAX && i < ahead.entries.len() && ahead.entries[i].root() == root {
        return Some(&ahead.entries[i]);
    }
    scheme.entry(x, root)
}

/// Whether all entries before a place are for roots below this one.
fn are_below(there: &[Entry], at: usize, root: u16) -> bool
    requires { IsStrictlyIncreasing (roots_of there.now) }
    ensures { IsTrue result → AreBelow root at there.now }
{
    if at == 0 {
        return true;
    }
    if at > there.len() {
        return false;
    }
    there[at - 1].root() < root
}

/// The root of the entry at a place, if those before are for roots below this one; else one below which there is none from this one on.
fn next_root(there: &[Entry], at: usize, from: u16) -> u16
    requires { IsStrictlyIncreasing (roots_of there.now) }
    ensures { (q : ℕ) → from ≤ q → q < result → first_entry q there.now ≡ None }
{
    if !are_below(there, at, from) {
        return 0;
    }
    if at < there.len() {
        there[at].root()
    } else {
        u16::MAX
    }
}

/// Keeps for a node the root at its place, where look-ups are for this root and later ones.
#[tactic(auto, using(crate::proofs::LookUps::nexts_more))]
pub(crate) fn put_next(scheme: &Scheme, places: &[u16], nexts: &mut [u16], x: u16, from: u16)
    requires ascend { AllAscend scheme.now }
    requires inside { x < length nexts.old }
    ensures room { length nexts.new ≡ length nexts.old }
    ensures next { AreNext scheme.now from nexts.old → AreNext scheme.now from nexts.new }
{
    nexts[x as usize] = next_root(scheme.entries_of(x), kept(places, x) as usize, from);
}

/// Keeps for a node the entry at its place, if one is there.
#[tactic(auto, using(crate::proofs::LookUps::entries_more))]
pub(crate) fn put_entry(scheme: &Scheme, places: &[u16], entries: &mut [Entry], x: u16)
    requires ascend { AllAscend scheme.now }
    requires inside { x < length entries.old }
    ensures room { length entries.new ≡ length entries.old }
    ensures kept { AreEntries scheme.now entries.old → AreEntries scheme.now entries.new }
{
    let there = scheme.entries_of(x);
    let at = kept(places, x) as usize;
    if at < there.len() {
        entries[x as usize] = there[at];
    }
}
