// What a build has of a range of roots: it is joined with what stands behind, and finished when no root is left.
ghost use Rattle.std.specs.Prelude.{◌≡◌, ◌<◌, ◌++◌, ℕ, IfOk, OnOk, length};
ghost use Rattle.node_table.specs.Building.{AreAsLong, GrowBy, IsJoined, IsJoinedAt, JoinsRanges, first_list, first_some};
ghost use Rattle.node_table.specs.Columns.{IsBuiltBetween};
ghost use Rattle.schemes.specs.Schemes.{IsSchemeUnder};
ghost use Rattle.schemes.specs.Tables.{value_at, items_at};

use graph_edits::Graph;
use heavy_labels::Label;
use schemes::{Entry, Listed, Parts, Scheme, graph_is_sound};
use std::alloc::{AllocError, Global};
use std::marker::Model;
use std::mem;

/// The tables of a build that has the trees of a range of roots, and of no other. Contracts see the tables.
#[derive(Drop)]
pub struct PartialScheme {
    parts: Parts,
    // The roots are those from the first to below the last. They tell how long the lists will be.
    first: u16,
    last: u16,
}

impl Model for PartialScheme {
    ghost use Rattle.schemes.specs.declared.parts.Parts.{Parts};

    ghost Value = { Parts };

    ghost view = { λ partial. partial.parts };
}

/// How many roots a build has, and how many more its lists are given room for, the landmarks among them counted too.
#[derive(Clone, Copy)]
struct Outlook {
    done: usize,
    left: usize,
    landmarks_done: usize,
    landmarks_left: usize,
    is_last: bool,
}

impl Outlook {
    /// With the roots from the first to below the last. While these are few they tell little of the others, so lists are given room for a
    /// quarter of all roots first.
    fn of(landmarks: &[bool], first: u16, last: u16) -> Outlook {
        let (first, last) = (first as usize, last as usize);
        let all = landmarks.len();
        let until = if last < all / 5 { all / 4 } else { all };
        Outlook {
            done: last.saturating_sub(first),
            left: until.saturating_sub(last),
            landmarks_done: count_between(landmarks, first, last),
            landmarks_left: count_between(landmarks, last, until),
            is_last: last >= all,
        }
    }

    /// How many entries will probably come to a node that has so many: one for each landmark, and of other roots as many as they brought.
    fn more_for(&self, entries: usize) -> usize {
        let others = entries.saturating_sub(self.landmarks_done);
        let more = others.saturating_mul(self.left) / self.done.max(1);
        more.saturating_add(self.landmarks_left)
    }
}

/// How many flags stand from one place to below another.
fn count_between(flags: &[bool], from: usize, to: usize) -> usize {
    flags
        .iter()
        .take(to)
        .skip(from)
        .filter(|flag| **flag)
        .count()
}

impl PartialScheme {
    /// These tables, of the range of roots from the first to below the last.
    pub(crate) fn of(parts: Parts, first: u16, last: u16) -> PartialScheme
        ensures { result ≡ parts }
    {
        PartialScheme { parts, first, last }
    }

    /// What both have, joined. Where the roots of the next one begin where these end, it is what a build has of both ranges.
    /// An `Err` means that memory was refused.
    pub fn join(self, next: PartialScheme) -> Result<PartialScheme, AllocError>
        requires { AreAsLong self next }
        ensures tables { IfOk result (λ joined. IsJoined self next joined) }
        ensures ranges { IfOk result (λ joined. JoinsRanges self next joined) }
    {
        let (first, last) = (self.first, next.last);
        let flags = self.parts.landmarks.as_slice();
        let outlook = Outlook::of(flags, first, last);
        let parts = join_parts(self.parts, next.parts, &outlook)?;
        Ok(PartialScheme { parts, first, last })
    }

    /// The scheme of what has the trees of all roots. An `Err` means that memory was refused.
    pub fn finish(self, alloc: Global, graph: &Graph) -> Result<Scheme, AllocError>
        requires { IsBuiltBetween graph.now self 0 graph.now.nodes }
        ensures { IfOk result (λ scheme. IsSchemeUnder graph.now self.landmarks.items self.generation scheme) }
    {
        graph_is_sound(graph);
        let scheme = Scheme::with_numbers_apart(alloc, self.parts)?;
        Ok(scheme)
    }
}

/// Both tables, joined.
fn join_parts(first: Parts, next: Parts, outlook: &Outlook) -> Result<Parts, AllocError>
    requires { AreAsLong first next }
    ensures { IfOk result (λ joined. IsJoined first next joined) }
{
    let Parts {
        nodes,
        generation,
        landmarks,
        ports,
        nearest,
        entries,
        directories,
        homes,
    } = first;
    Ok(Parts {
        nodes,
        generation,
        landmarks,
        ports,
        nearest,
        entries: join_entries(entries, next.entries, outlook)?,
        directories: join_directories(directories, next.directories)?,
        homes: join_homes(homes, next.homes),
    })
}

/// The entries of each node, and behind them those of the next range.
fn join_entries(
    mut lists: Vec<Vec<Entry>>,
    mut next: Vec<Vec<Entry>>,
    outlook: &Outlook,
) -> Result<Vec<Vec<Entry>>, AllocError>
    requires { length lists.items ≡ length next.items }
    ensures { IfOk result (λ joined. GrowBy lists.items joined.items (items_at next.items)) }
{
    for x in 0..lists.len() {
        append_at(&mut lists, &mut next, x, outlook)?;
    }
    Ok(lists)
}

/// Puts the entries that the next range has at a place behind those that stand there.
fn append_at(
    lists: &mut Vec<Vec<Entry>>,
    next: &mut Vec<Vec<Entry>>,
    at: usize,
    outlook: &Outlook,
) -> Result<(), AllocError>
    requires here { at < length lists.old.items }
    requires there { at < length next.old.items }
    ensures { OnOk result (IsJoinedAt at items_at (λ xs ys. xs ++ ys)
        lists.old.items lists.new.items next.old.items next.new.items) }
{
    append(&mut lists[at], &mut next[at], outlook)
}

/// Puts the second list behind the first. A list without room is given as much as it will probably need, so that it seldom moves; and
/// when no root is left it has just the room that it takes.
fn append<T: Drop>(
    list: &mut Vec<T>,
    more: &mut Vec<T>,
    outlook: &Outlook,
) -> Result<(), AllocError>
    ensures { OnOk result (list.new.items ≡ list.old.items ++ more.old.items) }
{
    if list.capacity() - list.len() < more.len() {
        let both = list.len().saturating_add(more.len());
        list.reserve_exact(more.len().saturating_add(outlook.more_for(both)))?;
    }
    list.append(more)?;
    if outlook.is_last {
        list.shrink_to_fit();
    }
    Ok(())
}

/// Puts the second list behind the first, in a new list with just the room that both take.
fn append_exactly<T: Drop>(list: &mut Vec<T>, more: &mut Vec<T>) -> Result<(), AllocError>
    ensures { OnOk result (list.new.items ≡ list.old.items ++ more.old.items) }
{
    let room = list.len().saturating_add(more.len());
    let mut both = Vec::with_capacity(*list.allocator(), room)?;
    both.append(list)?;
    both.append(more)?;
    mem::swap(list, &mut both);
    Ok(())
}

/// The directory of each node, and that of the next range where there is none.
fn join_directories(
    mut lists: Vec<Vec<Listed>>,
    mut next: Vec<Vec<Listed>>,
) -> Result<Vec<Vec<Listed>>, AllocError>
    requires { length lists.items ≡ length next.items }
    ensures length { IfOk result (λ joined. length joined.items ≡ length lists.items) }
    ensures items { IfOk result (λ joined. (x : ℕ)
        → items_at joined.items x ≡ first_list (items_at lists.items x) (items_at next.items x)) }
{
    for x in 0..lists.len() {
        choose_at(&mut lists, &mut next, x)?;
    }
    Ok(lists)
}

/// Takes the directory that the next range has at a place, if none stands there.
fn choose_at(
    lists: &mut Vec<Vec<Listed>>,
    next: &mut Vec<Vec<Listed>>,
    at: usize,
) -> Result<(), AllocError>
    requires here { at < length lists.old.items }
    requires there { at < length next.old.items }
    ensures { OnOk result (IsJoinedAt at items_at first_list
        lists.old.items lists.new.items next.old.items next.new.items) }
{
    choose(&mut lists[at], &mut next[at])
}

/// Takes what the second directory has if the first is empty, into a list with just the room that it takes. So the memory of a range
/// goes back whole to the thread that built it.
fn choose(list: &mut Vec<Listed>, other: &mut Vec<Listed>) -> Result<(), AllocError>
    ensures { OnOk result (list.new.items ≡ first_list list.old.items other.old.items) }
{
    if list.is_empty() {
        append_exactly(list, other)?;
    }
    Ok(())
}

/// The home label of each node, and that of the next range where there is none.
fn join_homes(mut homes: Vec<Option<Label>>, mut next: Vec<Option<Label>>) -> Vec<Option<Label>>
    requires { length homes.items ≡ length next.items }
    ensures length { length result.items ≡ length homes.items }
    ensures items { (v : ℕ) → value_at result.items v ≡ first_some (value_at homes.items v) (value_at next.items v) }
{
    for v in 0..homes.len() {
        choose_home_at(&mut homes, &mut next, v);
    }
    homes
}

/// Takes the home label that the next range has at a place, if none stands there.
fn choose_home_at(homes: &mut Vec<Option<Label>>, next: &mut Vec<Option<Label>>, at: usize)
    requires here { at < length homes.old.items }
    requires there { at < length next.old.items }
    ensures { IsJoinedAt at value_at first_some homes.old.items homes.new.items next.old.items next.new.items }
{
    choose_home(&mut homes[at], &mut next[at]);
}

/// Takes the second label if there is no first one.
fn choose_home(home: &mut Option<Label>, other: &mut Option<Label>)
    ensures { home.new ≡ first_some home.old other.old }
{
    if home.is_none() {
        mem::swap(home, other);
    }
}
