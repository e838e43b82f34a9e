// What the tests share: what they stand on, disks, and bytes.
use super::*;

// What a test stands on: what ends it, and memory.
pub(super) trait Host: Abort + AllocGlobal {}

impl<R: Abort + AllocGlobal> Host for R {}

// The value of an answer that has to have one.
pub(super) fn got<T, E: Drop>(rt: &impl Abort, answer: Result<T, E>) -> T {
    match answer {
        Ok(value) => value,
        Err(_) => panic!(rt; "no value"),
    }
}

pub(super) fn same<T: Copy + PartialEq + Debug>(rt: &impl Abort, found: T, want: T, name: &str) {
    assert_eq!(rt; found, want, "{name}");
}

pub(super) fn blank(rt: &impl Host, len: usize) -> MemDisk {
    got(rt, test_doubles::blank(rt.alloc(), len))
}

pub(super) fn put<D: Disk>(rt: &impl Abort, disk: &mut D, at: usize, bytes: &[u8]) {
    got(rt, test_doubles::put(disk, at, bytes));
}

pub(super) fn put_text(rt: &impl Abort, disk: &mut MemDisk, at: usize, text: &str) {
    got(rt, test_doubles::put_spelled(disk, at, text));
}

pub(super) fn spoilt(rt: &impl Abort, disk: MemDisk, at: usize, byte: u8) -> MemDisk {
    let mut disk = disk;
    put(rt, &mut disk, at, &[byte]);
    disk
}

pub(super) fn bytes<D: Disk, const N: usize>(rt: &impl Abort, disk: &mut D, at: usize) -> [u8; N] {
    let mut bytes = [9; N];
    got(rt, test_doubles::read_at(disk, at, &mut bytes));
    bytes
}

// Sees that a disk has the bytes that a text spells.
pub(super) fn shows<D: Disk>(rt: &impl Abort, disk: &mut D, at: usize, text: &str) {
    let found = got(rt, test_doubles::has_spelled(disk, at, text));
    same(rt, (at, found), (at, true), text);
}

// Sees that a disk has so many times eight zeros.
pub(super) fn shows_zeros(rt: &impl Abort, disk: &mut MemDisk, at: usize, eights: usize) {
    for i in 0..eights {
        let place = at.wrapping_add(i.wrapping_mul(8));
        same(rt, bytes::<MemDisk, 8>(rt, disk, place), [0; 8], "zeros");
    }
}

// Every byte of a disk, for which memory is asked once more where it was refused.
pub(super) fn whole(rt: &impl Host, disk: &mut MemDisk) -> Vec<u8> {
    let mut bytes = match vec![in rt.alloc(); 0; disk.len()] {
        Ok(bytes) => bytes,
        Err(_) => got(rt, vec![in rt.alloc(); 0; disk.len()]),
    };
    got(rt, test_doubles::read_at(disk, 0, bytes.as_mut_slice()));
    bytes
}

pub(super) fn stays(rt: &impl Host, disk: &mut MemDisk, before: &[u8], name: &str) {
    let now = whole(rt, disk);
    same(rt, now.as_slice() == before, true, name);
}

// A disk of these bytes, all settled.
pub(super) fn copied(rt: &impl Host, bytes: &[u8]) -> MemDisk {
    let mut disk = blank(rt, bytes.len());
    put(rt, &mut disk, 0, bytes);
    got(rt, disk.sync());
    disk
}
