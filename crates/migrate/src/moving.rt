//! Bringing a state over.
ghost use Rattle.std.specs.Prelude.{◌≡◌, ◌≢◌, ◌≤◌, ◌↔◌, length, IsTrue, IfErr, IfOk, OnOk, IsErr, IsErrOf};
ghost use Rattle.std.specs.FinMap.{len};
ghost use Rattle.disk_trait.specs.Disk.{AtMostCalls, IsSameDevice, OnlyRead};
ghost use Rattle.graph_edits.specs.Edges.{Network};
ghost use Rattle.layout_1.specs.Fronts.{HasThisVersion};
ghost use Rattle.layout_2.specs.Layout.{device_len, worn_limit};
ghost use Rattle.migrate.specs.Moved.{MovesAll, MovesAllOfCount, MovesWholly, ReadsHeld};
ghost use Rattle.migrate.specs.Refused.{NoneFailed, TellsOfNew, TellsOfOld};

use crate::refusals::MigrateRefused;
use checkpoint::{DEVICE_LEN, WriteRefused, write_state};
use disk_trait::Disk;
use graph_edits::Graph;
use layout_1::{OpenRefused, load};
use std::alloc::Global;

/// What went over.
#[derive(Clone, Copy, Debug, PartialEq, Eq, Drop)]
pub struct Moved {
    /// How many changes were accepted.
    pub count: u64,
    /// How many edges the network has.
    pub edges: usize,
}

// The count and the network that a device of layout 1 holds. It syncs, and writes nothing.
fn read_old<O: Disk>(alloc: Global, old: &mut O) -> Result<(u64, Graph), MigrateRefused>
    ensures ok { ReadsHeld (O.view old.old) result }
    ensures fits { IfOk result (λ held. held.0 ≤ worn_limit) }
    ensures this_version { IsTrue (O.view old.old).keeps_model → OnOk result (HasThisVersion (O.view old.old).content) }
    ensures refused { IfErr result (λ e. TellsOfOld e (O.view old.old) (O.view old.new)) }
    ensures others { ¬ (IsErrOf result MigrateRefused.BadLength) × ¬ (IsErrOf result MigrateRefused.NewDevice) }
    ensures no_failure { OnOk result ((O.view old.new).failures ≡ (O.view old.old).failures) }
    ensures only_read { IsTrue (O.view old.old).keeps_model → OnlyRead (O.view old.old) (O.view old.new) }
    ensures ran { IsSameDevice (O.view old.old) (O.view old.new) }
{
    match load(alloc, old) {
        Ok(loaded) => Ok((loaded.count, loaded.graph)),
        Err(OpenRefused::NotFormatted) => Err(MigrateRefused::NotFormatted),
        Err(OpenRefused::BadVersion) => Err(MigrateRefused::BadVersion),
        Err(OpenRefused::Damaged) => Err(MigrateRefused::Damaged),
        Err(OpenRefused::Device) => Err(MigrateRefused::OldDevice),
        Err(OpenRefused::Memory) => Err(MigrateRefused::Memory),
    }
}

/// Brings the count and the network of a device of layout 1 to a device that then has layout 2, with the
/// first epoch and all last tickets 0, and answers how much that was. Whatever the new device held before is lost.
///
/// The old device gets a sync and reads, and no write. At its peak it holds one network and, beside it,
/// the records of one journal or the buffer of one checkpoint's area.
///
/// Errors, in the order in which they are tested: `BadLength`, exactly where the new device hasn't
/// `DEVICE_LEN` bytes; those of an opening of the old device: `OldDevice`, `NotFormatted`, `BadVersion`,
/// `Damaged` and `Memory`; `Memory` for the new checkpoint; `NewDevice`. With each but the last the new
/// device is as it was; with the last it isn't to be used.
pub fn bring_over<O: Disk, N: Disk>(
    alloc: Global,
    old: &mut O,
    new: &mut N,
) -> Result<Moved, MigrateRefused>
    ensures ok { MovesAll (O.view old.old) (N.view new.old) (N.view new.new) result }
    ensures fits { IfOk result (λ moved. moved.count ≤ worn_limit) }
    // Also of disks that don't keep the model the edges are those of a network.
    ensures of_one { IfOk result (λ moved. (graph : Network) × (moved.edges ≡ len graph.edges)) }
    ensures bad_length { IsErrOf result MigrateRefused.BadLength ↔ (length (N.view new.old).content ≢ device_len) }
    ensures refused { IfErr result (λ e. TellsOfOld e (O.view old.old) (O.view old.new)) }
    ensures new_device { TellsOfNew result (N.view new.old) (N.view new.new) }
    ensures no_failure { OnOk result (NoneFailed (O.view old.old) (O.view old.new) (N.view new.old) (N.view new.new)) }
    ensures only_read { IsTrue (O.view old.old).keeps_model → OnlyRead (O.view old.old) (O.view old.new) }
    ensures not_opened { IsErrOf result MigrateRefused.BadLength → old.new ≡ old.old }
    ensures untouched { IsErr result → ¬ (IsErrOf result MigrateRefused.NewDevice) → new.new ≡ new.old }
    ensures calls { AtMostCalls 10 (N.view new.old) (N.view new.new) }
    ensures any_moment { MovesWholly (O.view old.old) (N.view new.old) (N.view new.new) }
    ensures ran_old { IsSameDevice (O.view old.old) (O.view old.new) }
    ensures ran_new { IsSameDevice (N.view new.old) (N.view new.new) }
{
    if new.len() != DEVICE_LEN {
        return Err(MigrateRefused::BadLength);
    }
    let (count, graph) = read_old(alloc, old)?;
    let edges = graph.edges();
    match write_state(alloc, new, count, &graph) {
        Ok(()) => Ok(Moved { count, edges }),
        Err(WriteRefused::Memory) => Err(MigrateRefused::Memory),
        Err(WriteRefused::Device) => Err(MigrateRefused::NewDevice),
    }
}

/// Brings what a device of layout 1 holds to one of layout 2, as [`bring_over`] does, and answers the count alone.
pub fn migrate<O: Disk, N: Disk>(
    alloc: Global,
    old: &mut O,
    new: &mut N,
) -> Result<u64, MigrateRefused>
    ensures ok { MovesAllOfCount (O.view old.old) (N.view new.old) (N.view new.new) result }
    ensures fits { IfOk result (λ count. count ≤ worn_limit) }
    ensures bad_length { IsErrOf result MigrateRefused.BadLength ↔ (length (N.view new.old).content ≢ device_len) }
    ensures refused { IfErr result (λ e. TellsOfOld e (O.view old.old) (O.view old.new)) }
    ensures new_device { TellsOfNew result (N.view new.old) (N.view new.new) }
    ensures no_failure { OnOk result (NoneFailed (O.view old.old) (O.view old.new) (N.view new.old) (N.view new.new)) }
    ensures only_read { IsTrue (O.view old.old).keeps_model → OnlyRead (O.view old.old) (O.view old.new) }
    ensures not_opened { IsErrOf result MigrateRefused.BadLength → old.new ≡ old.old }
    ensures untouched { IsErr result → ¬ (IsErrOf result MigrateRefused.NewDevice) → new.new ≡ new.old }
    ensures calls { AtMostCalls 10 (N.view new.old) (N.view new.new) }
    ensures any_moment { MovesWholly (O.view old.old) (N.view new.old) (N.view new.new) }
    ensures ran_old { IsSameDevice (O.view old.old) (O.view old.new) }
    ensures ran_new { IsSameDevice (N.view new.old) (N.view new.new) }
{
    let moved = bring_over(alloc, old, new)?;
    Ok(moved.count)
}
