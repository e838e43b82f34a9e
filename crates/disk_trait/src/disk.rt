//! A disk of fixed length, whose calls may fail, and one that can crash.
ghost use Rattle.std.specs.Prelude.{◌≡◌, ◌≤◌, ◌+◌, length, OnOk, IsTrue};
ghost use Rattle.disk_trait.specs.Disk.{DiskView, MayLeave, IsSameDevice, IsDeviceCall, IsSettled, Unchanged, overwritten, bytes_at};

use crate::plan::Plan;
use thiserror::Error;

/// A call of the device failed. After it nothing is known of what a write covered or of what a sync
/// was to settle; the disk may be used again.
#[derive(Clone, Copy, Debug, PartialEq, Eq, Drop, Error)]
#[error("a call of the device failed")]
pub struct DeviceFault;

/// A disk of fixed length.
///
/// A range that a call is given lies inside the disk, as its `requires` says. `len` is no call of the
/// device; each other call moves the clock on by one, served or not, and answers a fault only where the
/// disk has failed in that call, and Ok only where it hasn't.
///
/// Whoever writes an impl gives a `view` and proves the clauses. A disk that can't answer for its
/// content, as a file, says that it doesn't keep the model, and then owes the clauses' other parts
/// alone: the length stays, and the calls and the faults are counted.
pub trait Disk {
    /// What contracts see of the disk.
    ghost view: { Self → DiskView };

    /// The number of bytes.
    fn len(&self) -> usize
        ensures { result ≡ length (view self.now).content };

    /// Reads the bytes from `at` on. After a fault `bytes` may hold anything.
    fn read(&mut self, at: usize, bytes: &mut [u8]) -> Result<(), DeviceFault>
        requires { at + length bytes.old ≤ length (view self.old).content }
        ensures call { IsDeviceCall 0 0 (view self.old) (view self.new) result }
        ensures bytes { IsTrue (view self.old).keeps_model →
            OnOk result (bytes.new ≡ bytes_at (view self.old).content at (length bytes.old)) };

    /// Puts bytes from `at` on. Until a sync that succeeds a crash may leave anything in their range.
    fn write_at(&mut self, at: usize, bytes: &[u8]) -> Result<(), DeviceFault>
        requires { at + length bytes.now ≤ length (view self.old).content }
        ensures call { IsDeviceCall at (length bytes.now) (view self.old) (view self.new) result }
        ensures written { IsTrue (view self.old).keeps_model →
            OnOk result ((view self.new).content ≡ overwritten (view self.old).content at bytes.now) };

    /// After Ok a crash leaves the content. After a fault it leaves what it could leave before.
    fn sync(&mut self) -> Result<(), DeviceFault>
        ensures call { IsDeviceCall 0 0 (view self.old) (view self.new) result }
        ensures settled { IsTrue (view self.old).keeps_model →
            OnOk result (IsSettled (view self.new)) };

    /// What a read gives is one of the images that a crash may leave.
    ghost present: { (disk : Self) → IsTrue (view disk).keeps_model → MayLeave (view disk) (view disk).content };
}

/// A disk that can crash, for tests and for promises over several lives of a device.
pub trait CrashDisk: Disk {
    /// The disk after a crash now. Its content is one of the images that a crash may leave, chosen by the
    /// word, and all of it is settled.
    fn crash(self, word: u64) -> Self
        ensures image { IsTrue (Self.view self).keeps_model →
            MayLeave (Self.view self) (Self.view result).content }
        ensures settled { IsTrue (Self.view self).keeps_model → IsSettled (Self.view result) }
        ensures ran { IsSameDevice (Self.view self) (Self.view result) };

    /// From now on calls fail by this plan, in place of the one before: they are counted from 1, from
    /// here on. All that contracts see of the disk stays. It takes no memory.
    fn arm(&mut self, plan: Plan)
        ensures same { Unchanged (Self.view self.old) (Self.view self.new) };
}
