//! Numbers at the end of bytes and at their front, their first byte the highest.
ghost use Rattle.std.specs.Prelude.{◌≡◌, ◌+◌, ◌^◌, ◌<◌, ◌≤◌, ◌++◌, length};
ghost use Rattle.std.specs.Int.{w16, w64, to_be_bytes};

use arrayvec::ArrayVec;

/// Writes bytes at the end, where there is room for them.
pub(crate) fn put<const N: usize>(out: &mut ArrayVec<u8, N>, bytes: &[u8])
    requires { length out.old.items + length bytes.now ≤ N }
    ensures text { out.new.items ≡ out.old.items ++ bytes.now }
    ensures len { length out.new.items ≡ length out.old.items + length bytes.now }
{
    match out.try_extend_from_slice(bytes) {
        Ok(()) => (),
        Err(_) => unreachable!(),
    }
}

/// Writes a number of two bytes at the end.
pub(crate) fn put_u16<const N: usize>(out: &mut ArrayVec<u8, N>, number: u16)
    requires { length out.old.items + 2 ≤ N }
    ensures text { out.new.items ≡ out.old.items ++ to_be_bytes w16 number }
    ensures len { length out.new.items ≡ length out.old.items + 2 }
    ensures fits { number < 2 ^ 16 }
{
    put(out, &u16::to_be_bytes(number));
}

/// Writes a number of eight bytes at the end.
pub(crate) fn put_u64<const N: usize>(out: &mut ArrayVec<u8, N>, number: u64)
    requires { length out.old.items + 8 ≤ N }
    ensures text { out.new.items ≡ out.old.items ++ to_be_bytes w64 number }
    ensures len { length out.new.items ≡ length out.old.items + 8 }
    ensures fits { number < 2 ^ 64 }
{
    put(out, &u64::to_be_bytes(number));
}

/// The `u16` at the front, and the bytes after it.
pub(crate) fn split_u16(bytes: &[u8]) -> (u16, &[u8])
    requires { 2 ≤ length bytes.now }
    ensures parts { bytes.now ≡ to_be_bytes w16 result.0 ++ result.1.now }
    ensures rest { length result.1.now + 2 ≡ length bytes.now }
{
    let (front, rest) = bytes.split_at(2);
    let number = u16::from_be_bytes([front[0], front[1]]);
    (number, rest)
}

/// The `u64` at the front, and the bytes after it.
pub(crate) fn split_u64(bytes: &[u8]) -> (u64, &[u8])
    requires { 8 ≤ length bytes.now }
    ensures parts { bytes.now ≡ to_be_bytes w64 result.0 ++ result.1.now }
    ensures rest { length result.1.now + 8 ≡ length bytes.now }
{
    let (front, rest) = bytes.split_at(8);
    let number = u64::from_be_bytes([
        front[0], front[1], front[2], front[3], front[4], front[5], front[6], front[7],
    ]);
    (number, rest)
}
