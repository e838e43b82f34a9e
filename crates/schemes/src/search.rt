// How the lists of a scheme are searched, each item by a number of its own: by halving where the numbers strictly ascend, else
// from the front. The numbers alone are searched in the same way.
ghost use Rattle.std.specs.Prelude.{◌≡◌, ◌<◌, ◌≤◌, ◌+◌, ◌-◌, ◌*◌, ◌/◌, ◌^◌, ◌↔◌, IsTrue, ℕ, length, map};
ghost use Rattle.std.specs.List.{All};
ghost use Rattle.std.specs.List.Sorted.{IsStrictlyIncreasing};
ghost use Rattle.schemes.specs.Apart.{AreEighths, IsLocated, LiesBetween};
ghost use Rattle.schemes.specs.Ports.{index_of};
ghost use Rattle.schemes.specs.Tables.{AreAscending, nodes_of, roots_of};

use crate::entry::Entry;
use crate::parts::{Listed, Parts};

/// What stands in a list under a number of its own.
pub(crate) trait Keyed {
    ghost key: { Self → ℕ };

    /// The number by which it is searched.
    fn key(&self) -> u16
        ensures { result ≡ key self.now };
}

impl Keyed for Entry {
    ghost key = { λ entry. entry.root };

    fn key(&self) -> u16 {
        self.root()
    }
}

impl Keyed for Listed {
    ghost key = { λ listed. listed.node };

    fn key(&self) -> u16 {
        self.node
    }
}

impl Keyed for u16 {
    ghost key = { λ number. number };

    fn key(&self) -> u16 {
        *self
    }
}

/// Whether the numbers of a list strictly ascend.
pub(crate) fn do_ascend<T: Keyed>(items: &[T]) -> bool
    ensures { IsTrue result ↔ IsStrictlyIncreasing (map T.key items.now) }
{
    items.is_sorted_by(|before, after| before.key() < after.key())
}

/// Whether the numbers of each list strictly ascend.
fn all_ascend<T: Keyed>(lists: &[Vec<T>]) -> bool
    ensures { IsTrue result ↔ All (λ list. IsStrictlyIncreasing (map T.key list.items)) lists.now }
{
    lists.iter().all(|list| do_ascend(list.as_slice()))
}

/// Whether all lists of entries strictly ascend by root.
fn entries_ascend(lists: &[Vec<Entry>]) -> bool
    ensures { IsTrue result ↔ All (λ list. IsStrictlyIncreasing (roots_of list.items)) lists.now }
{
    all_ascend(lists)
}

/// Whether all directories strictly ascend by node.
fn directories_ascend(lists: &[Vec<Listed>]) -> bool
    ensures { IsTrue result ↔ All (λ list. IsStrictlyIncreasing (nodes_of list.items)) lists.now }
{
    all_ascend(lists)
}

/// Whether tables ascend: all lists of entries by root, and all directories by node.
pub(crate) fn tables_ascend(parts: &Parts) -> bool
    ensures { IsTrue result ↔ AreAscending parts.now }
{
    entries_ascend(parts.entries.as_slice()) && directories_ascend(parts.directories.as_slice())
}

/// The place of a number among ascending ones, or that of the first greater one; and how many places were looked at. The number lies at
/// `from` or later and before `to`, if it is there.
fn halve_between<T: Keyed>(
    items: &[T],
    number: u16,
    from: usize,
    to: usize,
) -> (Result<usize, usize>, u32)
    requires ascending { IsStrictlyIncreasing (map T.key items.now) }
    requires between { LiesBetween (map T.key items.now) number from to }
    ensures place { IsLocated (map T.key items.now) number result.0 }
    ensures some { from < to → 0 < result.1 }
    ensures few { (k : ℕ) → to - from < 2 ^ k → result.1 ≤ k }
    ensures bounded { result.1 ≤ 64 }
{
    let mut low = from;
    let mut high = to;
    let mut probes = 0;
    while low < high {
        let middle = low + (high - low) / 2;
        let there = items[middle].key();
        probes += 1;
        if there == number {
            return (Ok(middle), probes);
        }
        if there < number {
            low = middle + 1;
        } else {
            high = middle;
        }
    }
    (Err(low), probes)
}

/// The place of a number among ascending ones, and how many places were looked at.
fn place_by_halving<T: Keyed>(items: &[T], number: u16) -> (Option<usize>, u32)
    requires { IsStrictlyIncreasing (map T.key items.now) }
    ensures place { result.0 ≡ index_of number (map T.key items.now) }
    ensures some { 0 < length items.now → 0 < result.1 }
    ensures few { (k : ℕ) → length items.now < 2 ^ k → result.1 ≤ k }
{
    let (place, probes) = halve_between(items, number, 0, items.len());
    (place.ok(), probes)
}

/// Where the places between two eighths of so many items end: at the second of them, or behind the items.
fn behind_eighth(i: usize, eighths: usize, items: usize) -> usize
    requires { eighths ≡ items / 8 }
    ensures next { i < eighths → result ≡ 8 * i + 7 }
    ensures last { eighths ≤ i → result ≡ items }
{
    if i < eighths { 8 * i + 7 } else { items }
}

/// The place of a number among ascending ones of which every eighth stands apart, and how many places were looked at: first among those,
/// and then among the seven between two of them.
pub(crate) fn place_by_eighths<T: Keyed>(
    items: &[T],
    eighths: &[u16],
    number: u16,
) -> (Option<usize>, u32)
    requires ascending { IsStrictlyIncreasing (map T.key items.now) }
    requires eighths { AreEighths (map T.key items.now) eighths.now }
    ensures place { result.0 ≡ index_of number (map T.key items.now) }
    ensures some { 0 < length items.now → 0 < result.1 }
    ensures few { (k : ℕ) → length items.now < 2 ^ k → result.1 ≤ k }
{
    let (found, probes) = halve_between(eighths, number, 0, eighths.len());
    match found {
        Ok(i) => (Some(8 * i + 7), probes),
        Err(i) => {
            let to = behind_eighth(i, eighths.len(), items.len());
            let (place, more) = halve_between(items, number, 8 * i, to);
            (place.ok(), probes + more)
        }
    }
}

/// The first place of a number among others, and how many places were looked at.
fn place_from_front<T: Keyed>(items: &[T], number: u16) -> (Option<usize>, u32)
    ensures { result.0 ≡ index_of number (map T.key items.now) }
{
    let mut probes: u32 = 0;
    for (place, item) in items.iter().enumerate() {
        probes = probes.saturating_add(1);
        if item.key() == number {
            return (Some(place), probes);
        }
    }
    (None, probes)
}

/// The first place of a number among others, and how many places were looked at; by halving where told that they ascend.
pub(crate) fn first_place<T: Keyed>(
    items: &[T],
    number: u16,
    ascending: bool,
) -> (Option<usize>, u32)
    requires { IsTrue ascending → IsStrictlyIncreasing (map T.key items.now) }
    ensures place { result.0 ≡ index_of number (map T.key items.now) }
    ensures some { IsTrue ascending → 0 < length items.now → 0 < result.1 }
    ensures few { IsTrue ascending → (k : ℕ) → length items.now < 2 ^ k → result.1 ≤ k }
{
    if ascending {
        place_by_halving(items, number)
    } else {
        place_from_front(items, number)
    }
}
