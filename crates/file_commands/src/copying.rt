//! Copying a device: what it holds, written to a new one.
ghost use Rattle.std.specs.Prelude.{◌≡◌, ◌≢◌, ◌<◌, ◌⊎◌, ◌↔◌, length, Some, IsTrue, IfOk, IfErr, IsErr, IsErrOf, OnOk, false};
ghost use Rattle.disk_trait.specs.Disk.{IsSameDevice, OnlyRead};
ghost use Rattle.layout_2.specs.Layout.{device_len};
ghost use Rattle.layout_2.specs.State.{State};
ghost use Rattle.checkpoint.specs.StoreWords.{state_of, is_down, view_of};
ghost use Rattle.checkpoint.specs.Written.{IsNowWritten, WritesWholly};
ghost use Rattle.device_commands.specs.Moves.{IsMoveFault};
ghost use Rattle.device_commands.specs.Openings.{TellsOf};
ghost use Rattle.file_commands.specs.Copies.{CopiesWholly, HasCopied, IsTotalOf, copied_text};

use checkpoint::{DEVICE_LEN, Store, WriteRefused};
use command_output::Fault;
use device_commands::open;
use disk_trait::Disk;
use std::alloc::Global;
use std::fmt;

/// A device that was copied, and how much it holds: `copied count=C edges=E`.
#[derive(Clone, Copy, Debug, PartialEq, Eq, Drop)]
pub struct Copied {
    /// How many changes were accepted.
    pub count: u64,
    /// How many edges the network has.
    pub edges: usize,
}

impl fmt::Display for Copied {
    ghost output = { λ x. Some (copied_text x.count x.edges) };

    fn fmt<W: fmt::Write>(&self, f: &mut fmt::Formatter<W>) -> fmt::Result {
        write!(f, "copied count={} edges={}", self.count, self.edges)
    }
}

/// Writes what a device holds to a new one, the last tickets of its sessions too, and answers how much that is. The old device, which
/// comes back, is only read: it gets one sync, and then reads alone.
pub fn copy_device<O: Disk, N: Disk>(
    alloc: Global,
    old: O,
    new: &mut N,
) -> (Result<Copied, Fault>, O)
    ensures copied { IsTrue (O.view old).keeps_model → IsTrue (N.view new.old).keeps_model
        → IfOk result.0 (λ copied. HasCopied copied (O.view old).content (N.view new.new)) }
    // Also of disks that don't keep the model the numbers are those of a state.
    ensures of_one { IfOk result.0 (λ copied. (state : State) × IsTotalOf state copied) }
    ensures no_failure { OnOk result.0 (((O.view result.1).failures ≡ (O.view old).failures)
        × ((N.view new.new).failures ≡ (N.view new.old).failures)) }

    ensures device_length { IsErrOf result.0 Fault.DeviceLength ↔ (length (N.view new.old).content ≢ device_len) }
    ensures device { IsErrOf result.0 Fault.Device → ((O.view old).failures < (O.view result.1).failures)
        ⊎ ((N.view new.old).failures < (N.view new.new).failures) }
    ensures tells { IsTrue (O.view old).keeps_model → IfErr result.0 (λ fault. TellsOf fault (O.view old).content) }
    // Where it isn't told that a device failed, the new one is as it was.
    ensures untouched { IsErr result.0 → ¬ (IsErrOf result.0 Fault.Device) → new.new ≡ new.old }
    ensures faults { IfErr result.0 (λ fault. IsMoveFault fault) }

    ensures only_read { IsTrue (O.view old).keeps_model → OnlyRead (O.view old) (O.view result.1) }
    ensures any_moment { CopiesWholly (O.view old) (N.view new.old) (N.view new.new) }
    ensures ran_old { IsSameDevice (O.view old) (O.view result.1) }
    ensures ran_new { IsSameDevice (N.view new.old) (N.view new.new) }
{
    if new.len() != DEVICE_LEN {
        return (Err(Fault::DeviceLength), old);
    }
    match open(alloc, old) {
        Ok(store) => (write_copy(alloc, &store, new), store.into_disk()),
        Err((fault, old)) => (Err(fault), old),
    }
}

// Writes what a store holds to a new device.
fn write_copy<O: Disk, N: Disk>(
    alloc: Global,
    store: &Store<O>,
    new: &mut N,
) -> Result<Copied, Fault>
    requires { length (N.view new.old).content ≡ device_len }
    ensures written { IsTrue (view_of store.now).keeps_model → is_down store.now ≡ false
        → OnOk result (IsNowWritten (state_of store.now) (N.view new.old) (N.view new.new)) }
    ensures totals { IfOk result (λ copied. IsTotalOf (state_of store.now) copied) }
    ensures no_failure { OnOk result ((N.view new.new).failures ≡ (N.view new.old).failures) }

    ensures device { IsErrOf result Fault.Device → (N.view new.old).failures < (N.view new.new).failures }
    ensures memory { IsErrOf result Fault.Memory → new.new ≡ new.old }
    ensures faults { IfErr result (λ fault. (fault ≡ Fault.Device) ⊎ (fault ≡ Fault.Memory)) }

    ensures any_moment { IsTrue (view_of store.now).keeps_model → is_down store.now ≡ false
        → WritesWholly (state_of store.now) (N.view new.old) (N.view new.new) }
    ensures ran { IsSameDevice (N.view new.old) (N.view new.new) }
{
    match store.write_to(alloc, new) {
        Ok(()) => Ok(Copied {
            count: store.count(),
            edges: store.graph().edges(),
        }),
        Err(WriteRefused::Memory) => Err(Fault::Memory),
        Err(WriteRefused::Device) => Err(Fault::Device),
    }
}
