//! Text behind a gate: a byte, 1 once the text behind it counts.
ghost use Rattle.std.specs.Prelude.{◌≤◌, ◌<◌, ◌+◌, ◌^◌, ℕ, List, ◌≡◌, length, get_or, IsTrue, OnOk, OnErr};
ghost use Rattle.disk_trait.specs.Disk.{MayLeave, AtMostCalls, IsSameDevice, LeavesOnly, IsTornFrom, IsPublishing, IsPublished};

use crate::disk::{DeviceFault, Disk};

/// Writes text behind a gate, and opens the gate once the text is on the disk: at most four calls of
/// the device.
///
/// Whenever a crash comes, it leaves an image of entry with any bytes behind the gate and the gate
/// as it was, or with the whole text behind it and any byte as the gate. So where the gate is
/// closed in each image of entry, an open gate has the text behind it. After Ok that is so in every
/// image that a crash may leave, and the disk hasn't failed in the call.
pub fn publish<D: Disk>(disk: &mut D, gate: usize, text: &[u8]) -> Result<(), DeviceFault>
    requires within { gate + 1 + length text.now ≤ length (D.view disk.old).content }
    requires small { gate + 1 + length text.now < 2 ^ 64 }
    ensures ran { IsSameDevice (D.view disk.old) (D.view disk.new) }
    ensures fault { OnErr result ((D.view disk.old).failures < (D.view disk.new).failures) }
    ensures no_failure { OnOk result ((D.view disk.new).failures ≡ (D.view disk.old).failures) }
    ensures calls { AtMostCalls 4 (D.view disk.old) (D.view disk.new) }
    ensures any_moment { IsTrue (D.view disk.old).keeps_model →
        LeavesOnly (D.view disk.old) (D.view disk.new) (IsPublishing (D.view disk.old) gate text.now) }
    ensures ok { IsTrue (D.view disk.old).keeps_model →
        OnOk result ((image : List ℕ) → MayLeave (D.view disk.new) image
        → IsPublished (D.view disk.old) gate text.now image) }
{
    disk.write_at(gate + 1, text)?;
    disk.sync()?;
    disk.write_at(gate, &[1])?;
    disk.sync()
}

/// Closes a gate: at most two calls of the device.
///
/// Whenever a crash comes, it leaves an image of entry with any byte as the gate. After Ok the
/// gate is 0 in every image that a crash may leave, and the disk hasn't failed in the call.
pub fn close<D: Disk>(disk: &mut D, gate: usize) -> Result<(), DeviceFault>
    requires { gate + 1 ≤ length (D.view disk.old).content }
    ensures ran { IsSameDevice (D.view disk.old) (D.view disk.new) }
    ensures fault { OnErr result ((D.view disk.old).failures < (D.view disk.new).failures) }
    ensures no_failure { OnOk result ((D.view disk.new).failures ≡ (D.view disk.old).failures) }
    ensures calls { AtMostCalls 2 (D.view disk.old) (D.view disk.new) }
    ensures any_moment { IsTrue (D.view disk.old).keeps_model →
        LeavesOnly (D.view disk.old) (D.view disk.new) (IsTornFrom (D.view disk.old) gate 1) }
    ensures ok { IsTrue (D.view disk.old).keeps_model →
        OnOk result ((image : List ℕ) → MayLeave (D.view disk.new) image → get_or image gate 0 ≡ 0) }
{
    disk.write_at(gate, &[0])?;
    disk.sync()
}
