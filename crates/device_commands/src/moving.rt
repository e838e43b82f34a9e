//! Bringing over what a device of layout 1 holds.
ghost use Rattle.std.specs.Prelude.{◌≡◌, ◌≢◌, ◌<◌, ◌⊎◌, ◌↔◌, length, IsTrue, IfOk, IfErr, IsErr, IsErrOf, OnOk};
ghost use Rattle.std.specs.FinMap.{len};
ghost use Rattle.disk_trait.specs.Disk.{IsSameDevice, LeavesOnly, OnlyRead};
ghost use Rattle.graph_edits.specs.Edges.{Network};
ghost use Rattle.layout_2.specs.Layout.{device_len};
ghost use Rattle.checkpoint.specs.Whole.{IsAllForeign};
ghost use Rattle.migrate.specs.Moved.{HasMoved, HoldsNoneOrAllOf};
ghost use Rattle.device_commands.specs.Moves.{IsMoveFault, TellsOfOld, move_fault};

use command_output::Fault;
use disk_trait::Disk;
use migrate::{MigrateRefused, Moved};
use std::alloc::Global;

/// Brings what a device of layout 1 holds to a new one, and answers how much that was. The old device is only read.
pub fn migrate<O: Disk, N: Disk>(alloc: Global, old: &mut O, new: &mut N) -> Result<Moved, Fault>
    ensures moved { IsTrue (O.view old.old).keeps_model → IsTrue (N.view new.old).keeps_model
        → IfOk result (λ moved. HasMoved moved (O.view old.old).content (N.view new.new)) }
    // Also of disks that don't keep the model the edges are those of a network.
    ensures of_one { IfOk result (λ moved. (graph : Network) × (moved.edges ≡ len graph.edges)) }
    ensures no_failure { OnOk result (((O.view old.new).failures ≡ (O.view old.old).failures)
        × ((N.view new.new).failures ≡ (N.view new.old).failures)) }

    ensures device_length { IsErrOf result Fault.DeviceLength ↔ (length (N.view new.old).content ≢ device_len) }
    ensures device { IsErrOf result Fault.Device → ((O.view old.old).failures < (O.view old.new).failures)
        ⊎ ((N.view new.old).failures < (N.view new.new).failures) }
    ensures tells { IsTrue (O.view old.old).keeps_model
        → IfErr result (λ fault. TellsOfOld fault (O.view old.old).content) }
    // Where it isn't told that a device failed, the new one is as it was.
    ensures untouched { IsErr result → ¬ (IsErrOf result Fault.Device) → new.new ≡ new.old }
    ensures faults { IfErr result (λ fault. IsMoveFault fault) }

    ensures only_read { IsTrue (O.view old.old).keeps_model → OnlyRead (O.view old.old) (O.view old.new) }
    ensures any_moment { IsTrue (O.view old.old).keeps_model → IsTrue (N.view new.old).keeps_model
        → IsAllForeign (N.view new.old)
        → LeavesOnly (N.view new.old) (N.view new.new) (HoldsNoneOrAllOf (O.view old.old).content) }
    ensures ran_old { IsSameDevice (O.view old.old) (O.view old.new) }
    ensures ran_new { IsSameDevice (N.view new.old) (N.view new.new) }
{
    match migrate::bring_over(alloc, old, new) {
        Ok(moved) => Ok(moved),
        Err(refused) => Err(fault_of(refused)),
    }
}

// What is told where a device isn't brought over.
fn fault_of(refused: MigrateRefused) -> Fault
    ensures { result ≡ move_fault refused }
{
    match refused {
        MigrateRefused::NotFormatted => Fault::NotFormatted,
        MigrateRefused::BadVersion => Fault::LayoutNotKnown,
        MigrateRefused::Damaged => Fault::Damaged,
        MigrateRefused::OldDevice | MigrateRefused::NewDevice => Fault::Device,
        MigrateRefused::Memory => Fault::Memory,
        MigrateRefused::BadLength => Fault::DeviceLength,
    }
}
