//! Bytes of a disk, wherever a test asks for them.
ghost use Rattle.std.specs.Prelude.{◌≡◌, ◌≤◌, length, IsTrue, IfOk, OnOk};
ghost use Rattle.disk_trait.specs.Disk.{bytes_at, overwritten};

use disk_trait::{DeviceFault, Disk};

/// Puts bytes on a disk. Where they have no place there, that is a fault.
pub fn put<D: Disk>(disk: &mut D, at: usize, bytes: &[u8]) -> Result<(), DeviceFault>
    ensures { IsTrue (D.view disk.old).keeps_model →
        OnOk result ((D.view disk.new).content ≡ overwritten (D.view disk.old).content at bytes.now) }
{
    if disk.len() < bytes.len() || disk.len() - bytes.len() < at {
        return Err(DeviceFault);
    }
    disk.write_at(at, bytes)
}

/// Reads bytes of a disk. Where there are none, that is a fault.
pub fn read_at<D: Disk>(disk: &mut D, at: usize, bytes: &mut [u8]) -> Result<(), DeviceFault>
    ensures { IsTrue (D.view disk.old).keeps_model →
        OnOk result (bytes.new ≡ bytes_at (D.view disk.old).content at (length bytes.old)) }
{
    if disk.len() < bytes.len() || disk.len() - bytes.len() < at {
        return Err(DeviceFault);
    }
    disk.read(at, bytes)
}

/// Puts the bytes that a text spells: at most 64, each by two hexadecimal digits. Spaces count for nothing. More bytes are a fault.
pub fn put_spelled<D: Disk>(disk: &mut D, at: usize, text: &str) -> Result<(), DeviceFault> {
    let (bytes, len) = spelled(text)?;
    put(disk, at, &bytes[..len])
}

/// Whether the bytes that a text spells so stand on a disk.
pub fn has_spelled<D: Disk>(disk: &mut D, at: usize, text: &str) -> Result<bool, DeviceFault> {
    let (want, len) = spelled(text)?;
    let mut found = [0; 64];
    read_at(disk, at, &mut found[..len])?;
    Ok(found[..len] == want[..len])
}

// The bytes that a text spells, and how many they are.
fn spelled(text: &str) -> Result<([u8; 64], usize), DeviceFault>
    ensures { IfOk result (λ spelled. spelled.1 ≤ 64) }
{
    let mut bytes = [0; 64];
    let mut len = 0usize;
    let mut high = None;
    for digit in text.as_bytes() {
        let low = match *digit {
            b' ' => continue,
            b'0'..=b'9' => *digit - b'0',
            letter => letter.wrapping_sub(b'a').wrapping_add(10),
        };
        let Some(first) = high else {
            high = Some(low);
            continue;
        };
        if len >= bytes.len() {
            return Err(DeviceFault);
        }
        bytes[len] = u8::wrapping_mul(first, 16).wrapping_add(low);
        len += 1;
        high = None;
    }
    Ok((bytes, len.min(64)))
}
