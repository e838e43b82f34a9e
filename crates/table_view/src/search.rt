// Look-ups by the root, over the bytes of entries. First the place is tried where the root would stand if the roots lay evenly among the
// nodes, and then places in strides that double, until the root is between two of them. The places between are halved.
ghost use Rattle.std.specs.Prelude.{◌≡◌, ◌≢◌, ◌*◌, ◌<◌, ◌≤◌, ℕ, IfSome, MatchOption, length};
ghost use Rattle.table_view.specs.Parts.{DoRise, IsHalved, root_of};

use crate::parts::ENTRY_SIZE;
use byte_forms::u16_in;

/// Of the places from a base on among which the root is, if it is there, those before or behind a step: where they begin, and how many
/// they are. Where no place is so many steps behind the base they stay as they are.
#[inline(always)]
fn parted(
    entries: &[u8],
    count: u16,
    root: u16,
    base: usize,
    size: usize,
    step: usize,
) -> (usize, usize)
    requires long { length entries.now ≡ ENTRY_SIZE * count }
    requires there { IsHalved entries.now count root base size }
    ensures there { IsHalved entries.now count root result.0 result.1 }
    ensures most { result.1 ≤ size }
    ensures fewer { 0 < step → step < size → result.1 < size }
{
    if step == 0 || step >= size {
        return (base, size);
    }
    let there = u16_in(entries, ENTRY_SIZE * (base + step));
    if there <= root {
        (base + step, size - step)
    } else {
        (base, step)
    }
}

/// Of such places those between two in strides that double from the first one upwards, or from the last one downwards.
#[inline(always)]
fn strides(
    entries: &[u8],
    count: u16,
    root: u16,
    base: usize,
    size: usize,
    upwards: bool,
) -> (usize, usize)
    requires long { length entries.now ≡ ENTRY_SIZE * count }
    requires there { IsHalved entries.now count root base size }
    ensures { IsHalved entries.now count root result.0 result.1 }
{
    let mut base = base;
    let mut size = size;
    let mut stride = 1;
    while stride < size {
        let step = if upwards { stride } else { size - stride };
        let (from, many) = parted(entries, count, root, base, size, step);
        if (from == base) == upwards {
            return (from, many);
        }
        base = from;
        size = many;
        stride *= 2;
    }
    (base, size)
}

/// Some of the places about `near`, among which the root is if it is there.
#[inline(always)]
fn about(entries: &[u8], count: u16, root: u16, near: usize) -> (usize, usize)
    requires long { length entries.now ≡ ENTRY_SIZE * count }
    requires some { 0 < count }
    ensures { IsHalved entries.now count root result.0 result.1 }
{
    let (base, size) = parted(entries, count, root, 0, count as usize, near);
    if base > 0 {
        strides(entries, count, root, base, size, true)
    } else {
        strides(entries, count, root, base, size, false)
    }
}

/// The place of the entry for a root, among so many. Where the roots don't ascend it may find none though one is there.
#[inline(always)]
pub(crate) fn place_of(entries: &[u8], count: u16, root: u16, nodes: u16) -> Option<usize>
    requires long { length entries.now ≡ ENTRY_SIZE * count }
    requires some { 0 < nodes }
    ensures inside { IfSome result (λ place. place < count) }
    ensures place { MatchOption result (DoRise entries.now count → (i : ℕ) → i < count → root_of entries.now i ≢ root)
        (λ place. root_of entries.now place ≡ root) }
{
    if count == 0 {
        return None;
    }
    let part = root as u32 * 65536 / nodes as u32;
    let near = (part as usize).wrapping_mul(count as usize) / 65536;
    let (mut base, mut size) = about(entries, count, root, near);
    while size > 1 {
        let (from, many) = parted(entries, count, root, base, size, size / 2);
        base = from;
        size = many;
    }
    if u16_in(entries, ENTRY_SIZE * base) == root {
        Some(base)
    } else {
        None
    }
}
