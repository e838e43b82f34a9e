//! Reading bytes of a device, and its header.
ghost use Rattle.std.specs.Prelude.{◌≡◌, ◌≢◌, ◌≤◌, ◌<◌, ◌+◌, length, IsTrue, IfOk, IfErr, OnOk, OnErr, IsErrOf};
ghost use Rattle.disk_trait.specs.Disk.{IsSameDevice, OnlyRead, bytes_at};
ghost use Rattle.layout_reader.specs.Refusals.{magic, version_of, header_with, IsFormatFault, IsFrontFault, TellsOfLayout};
ghost use Rattle.layout_reader.specs.Reading.{IsRead, IsNotRead};

use crate::layout::MAGIC;
use crate::refusals::OpenRefused;
use disk_trait::{DeviceFault, Disk};
use std::alloc::Global;

/// The N bytes from `at` on.
pub fn read_array<D: Disk, const N: usize>(disk: &mut D, at: usize) -> Result<[u8; N], DeviceFault>
    requires { at + N ≤ length (D.view disk.old).content }
    ensures ran { IsSameDevice (D.view disk.old) (D.view disk.new) }
    ensures no_failure { OnOk result ((D.view disk.new).failures ≡ (D.view disk.old).failures) }
    ensures reads { IsTrue (D.view disk.old).keeps_model → OnlyRead (D.view disk.old) (D.view disk.new) }
    ensures fault { OnErr result ((D.view disk.old).failures < (D.view disk.new).failures) }
    ensures bytes { IsTrue (D.view disk.old).keeps_model
        → IfOk result (λ bytes. bytes ≡ bytes_at (D.view disk.old).content at N) }
{
    let mut bytes = [0; N];
    disk.read(at, &mut bytes)?;
    Ok(bytes)
}

/// The `len` bytes from `at` on.
pub fn read_bytes<D: Disk>(
    alloc: Global,
    disk: &mut D,
    at: usize,
    len: usize,
) -> Result<Vec<u8>, OpenRefused>
    requires { at + len ≤ length (D.view disk.old).content }
    ensures read { OnOk result (IsRead (D.view disk.old) (D.view disk.new)) }
    ensures not_read { IfErr result (IsNotRead (D.view disk.old) (D.view disk.new)) }
    ensures no_fault { IfErr result (λ e. ¬ (IsFormatFault e)) }
    ensures later { IfErr result (λ e. ¬ (IsFrontFault e)) }
    ensures size { IfOk result (λ bytes. length bytes.items ≡ len) }
    ensures bytes { IsTrue (D.view disk.old).keeps_model
        → IfOk result (λ bytes. bytes.items ≡ bytes_at (D.view disk.old).content at len) }
{
    let mut bytes = vec![in alloc; 0; len]?;
    disk.read(at, bytes.as_mut_slice())?;
    Ok(bytes)
}

/// The number of nodes that the front of a device names, where its version is `0` and this digit.
pub fn header_nodes(front: &[u8; 10], digit: u8) -> Result<u16, OpenRefused>
    ensures ok { IfOk result (λ nodes. front.now ≡ header_with (version_of digit) nodes) }
    ensures not_formatted { IsErrOf result OpenRefused.NotFormatted → bytes_at front.now 0 6 ≢ magic }
    ensures bad_version { IsErrOf result OpenRefused.BadVersion
        → (bytes_at front.now 0 6 ≡ magic) × (bytes_at front.now 6 2 ≢ version_of digit) }
    ensures tells { IfErr result (λ e. TellsOfLayout (version_of digit) e front.now) }
    ensures others { ¬ (IsErrOf result OpenRefused.Damaged)
        × ¬ (IsErrOf result OpenRefused.Device) × ¬ (IsErrOf result OpenRefused.Memory) }
{
    if !front.starts_with(&MAGIC) {
        return Err(OpenRefused::NotFormatted);
    }
    if !front[6..].starts_with(&[b'0', digit]) {
        return Err(OpenRefused::BadVersion);
    }
    Ok(u16::from_be_bytes([front[8], front[9]]))
}
