//! Ranges of bytes and of flags.
ghost use Rattle.std.specs.Prelude.{◌≡◌, ◌≤◌, ◌<◌, ◌+◌, ◌-◌, ◌^◌, ℕ, length};
ghost use Rattle.disk_trait.specs.Disk.{overwritten};
ghost use Rattle.disk_trait.specs.Image.{marked, unmarked};

// Puts bytes at a place.
pub(crate) fn put(into: &mut [u8], at: usize, bytes: &[u8])
    requires { at + length bytes.now ≤ length into.old }
    ensures { into.new ≡ overwritten into.old at bytes.now }
{
    into[at..at + bytes.len()].copy_from_slice(bytes);
}

// Sets n flags.
pub(crate) fn mark(flags: &mut [bool], at: usize, n: usize)
    requires { at + n ≤ length flags.old }
    ensures { flags.new ≡ marked flags.old at n }
{
    flags[at..at + n].fill(true);
}

// Clears the flags of a range.
pub(crate) fn unmark(flags: &mut [bool], low: usize, high: usize)
    requires ordered { low ≤ high }
    requires within { high ≤ length flags.old }
    ensures { flags.new ≡ unmarked flags.old low (high - low) }
{
    flags[low..high].fill(false);
}

// A range that has the n places from `at` on, and all of another range, if that isn't empty.
pub(crate) fn widened(low: usize, high: usize, at: usize, n: usize) -> (usize, usize)
    requires ordered { low ≤ high }
    requires small { at + n < 2 ^ 64 }
    ensures first { result.0 ≤ at }
    ensures last { at + n ≤ result.1 }
    ensures wide { low < high → (result.0 ≤ low) × (high ≤ result.1) }
    ensures least { (len : ℕ) → high ≤ len → at + n ≤ len → result.1 ≤ len }
{
    if low == high {
        (at, at + n)
    } else {
        (low.min(at), high.max(at + n))
    }
}
