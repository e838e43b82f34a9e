// Disks in memory and in files: where they fail and stop, what a crash leaves, and gates.
use super::*;
use std::fs;
use std::fs::{File, OpenOptions};

// Sees that of five calls on a disk of eight bytes those fail from one to another: none where the first stands behind the last.
fn fail(rt: &impl Abort, disk: &mut MemDisk, calls: (u8, u8), name: &str) {
    let len = disk.len();
    assert!(rt; len == 8);
    let write = disk.write_at(2, &[1, 2, 3]).is_err();
    let sync = disk.sync().is_err();
    let overlapping = disk.write_at(4, &[4, 5, 6]).is_err();
    let again = disk.sync().is_err();
    let read = disk.read(0, &mut [0; 8]).is_err();
    let want = [1, 2, 3, 4, 5].map(|call: u8| calls.0 <= call && call <= calls.1);
    same(rt, [write, sync, overlapping, again, read], want, name);
}

// What is there where all of the five calls were made.
const WHOLE: u64 = 0x0000_0102_0405_0600;

const NONE: (u8, u8) = (6, 5);

// A plan, from which to which of the five calls fail, and the eight bytes that are there then.
const PLANS: [(Plan, (u8, u8), u64); 17] = [
    (Plan::None, NONE, WHOLE),
    (Plan::Fail(0), NONE, WHOLE),
    (Plan::Fail(1), (1, 1), 0x0000_0000_0405_0600),
    (Plan::Fail(2), (2, 2), WHOLE),
    (Plan::Fail(3), (3, 3), 0x0000_0102_0300_0000),
    (Plan::Fail(4), (4, 4), WHOLE),
    (Plan::Fail(5), (5, 5), WHOLE),
    (Plan::Fail(6), NONE, WHOLE),
    (Plan::Stop(0, 9), NONE, WHOLE),
    (Plan::Stop(1, 2), (1, 5), 0x0000_0102_0000_0000),
    (Plan::Stop(2, 2), (2, 5), 0x0000_0102_0300_0000),
    (Plan::Stop(3, 0), (3, 5), 0x0000_0102_0300_0000),
    (Plan::Stop(3, 1), (3, 5), 0x0000_0102_0400_0000),
    (Plan::Stop(3, 9), (3, 5), WHOLE),
    (Plan::Stop(4, 9), (4, 5), WHOLE),
    (Plan::Stop(5, 9), (5, 5), WHOLE),
    (Plan::Stop(6, 9), NONE, WHOLE),
];

#[test]
fn fails_where_its_plan_says(rt: HostRuntime) {
    let rt = &rt;
    for (plan, calls, want) in &PLANS {
        let mut disk = blank(rt, 8);
        disk.arm(*plan);
        fail(rt, &mut disk, *calls, "the calls");
        disk.arm(Plan::None);
        let there = u64::from_be_bytes(bytes(rt, &mut disk, 0));
        same(rt, (*plan, there), (*plan, *want), "a plan");
    }
    // Calls are counted from the plan on.
    let mut disk = blank(rt, 8);
    fail(rt, &mut disk, NONE, "no plan");
    disk.fail_at(2);
    fail(rt, &mut disk, (2, 2), "the second");
    disk.stop_at(5, 0);
    fail(rt, &mut disk, (5, 5), "the last");
    fail(rt, &mut disk, (1, 5), "stopped");
}

// A word, and the 16 bytes that a crash by it leaves: those dealt are of the words of SplitMix64 from the seed, by another program.
const IMAGES: [(u64, u128); 10] = [
    (0, 0x0011_1213_1415_0000_0000_0000_0000_0000),
    (1, 0x0011_2122_2324_2526_0000_3132_3334_3500),
    (2, 0x0011_9758_35de_1c97_0000_56ce_bfc8_4600),
    (7, 0x0011_63cb_e1e4_5932_0000_0dd7_044c_3c00),
    (255, 0x0011_338c_5071_4628_0000_3fb4_ef84_b900),
    (256, 0x0011_0000_0000_0000_0000_0000_0000_0000),
    (257, 0x0011_0101_0101_0101_0000_0101_0101_0100),
    (511, 0x0011_ffff_ffff_ffff_0000_ffff_ffff_ff00),
    (512, 0x0011_fa9d_65e7_6f02_0000_4466_9533_b200),
    (
        0x0123_4567_89ab_cdef,
        0x0011_157a_3807_a48f_0000_aa9d_d573_5200,
    ),
];

#[test]
fn leaves_the_image_of_the_word(rt: HostRuntime) {
    let rt = &rt;
    for (word, want) in &IMAGES {
        // Bytes 2 to 7 and 10 to 14 are unsettled, after others were synced at 1 to 5.
        let mut disk = blank(rt, 16);
        put_text(rt, &mut disk, 1, "1112131415");
        got(rt, disk.sync());
        put_text(rt, &mut disk, 2, "212223242526");
        put_text(rt, &mut disk, 10, "3132333435");
        let mut disk = disk.crash(*word);
        let found = u128::from_be_bytes(bytes(rt, &mut disk, 0));
        // Nothing is unsettled after a crash.
        let mut again = disk.crash(511);
        let twice = u128::from_be_bytes(bytes(rt, &mut again, 0));
        same(rt, (*word, found, twice), (*word, *want, *want), "an image");
    }
}

fn published<D: Disk>(rt: &impl Abort, disk: &mut D, gate: usize) -> Result<(), DeviceFault> {
    let len = disk.len();
    assert!(rt; 4 <= len && gate <= len - 4);
    publish(disk, gate, &[7, 8, 9])
}

// A plan, and by the words 0, 1, 256 and 257 the gate that a crash leaves.
const GATES: [(Plan, [u8; 4]); 8] = [
    (Plan::Fail(1), [0, 0, 0, 0]),
    (Plan::Stop(1, 2), [0, 0, 0, 0]),
    (Plan::Fail(2), [0, 0, 0, 0]),
    (Plan::Fail(3), [0, 0, 0, 1]),
    (Plan::Stop(3, 0), [0, 0, 0, 1]),
    (Plan::Fail(4), [0, 1, 0, 1]),
    (Plan::Stop(3, 1), [0, 1, 0, 1]),
    (Plan::None, [1, 1, 1, 1]),
];

#[test]
fn opens_a_gate_only_before_whole_text(rt: HostRuntime) {
    let rt = &rt;
    for (plan, gates) in &GATES {
        for (word, want) in [0, 1, 256, 257].iter().zip(gates.iter()) {
            let mut disk = blank(rt, 8);
            disk.arm(*plan);
            let answer = published(rt, &mut disk, 4).is_ok();
            let mut after = disk.crash(*word);
            let [gate, first, second, third] = bytes::<MemDisk, 4>(rt, &mut after, 4);
            let whole = gate == 0 || [first, second, third] == [7, 8, 9];
            let found = (*plan, *word, answer, gate, whole);
            let may = *plan == Plan::None;
            same(rt, found, (*plan, *word, may, *want, true), "the gate");
        }
    }
}

#[test]
fn publishes_and_closes_on_a_large_disk(rt: HostRuntime) {
    let rt = &rt;
    for (len, gate) in [(64, 20), (2_371_584, 2_000_000)].iter() {
        let mut disk = blank(rt, *len);
        got(rt, published(rt, &mut disk, *gate));
        shows(rt, &mut disk, *gate, "01070809");
        let len = disk.len();
        assert!(rt; *gate < len);
        got(rt, close(&mut disk, *gate));
        shows(rt, &mut disk, *gate, "00070809");
    }
}

#[test]
fn answers_a_fault_where_a_file_is_not_writable(rt: HostRuntime) {
    let rt = &rt;
    let path = "file_disk_unwritable.bin";
    got(rt, fs::write(rt, path, [0, 1, 2, 3, 4, 5, 6, 7]));
    // A handle for reading alone.
    let file = got(rt, File::open(rt, path));
    let mut disk = got(rt, FileDisk::new(file));
    let answer = test_doubles::put(&mut disk, 0, &[9]);
    same(rt, answer, Err(DeviceFault), "a write");
    shows(rt, &mut disk, 4, "04050607");
    got(rt, fs::remove_file(rt, path));
}

#[test]
fn answers_a_fault_where_a_file_is_cut_short(rt: HostRuntime) {
    let rt = &rt;
    let path = "file_disk_cut.bin";
    got(rt, fs::write(rt, path, [0, 1, 2, 3, 4, 5, 6, 7]));
    let mut disk = got(rt, FileDisk::open(rt, path));
    // The file is cut short behind an open disk.
    let file = got(rt, OpenOptions::new().write(true).open(rt, path));
    got(rt, file.set_len(6));
    same(rt, disk.len(), 8, "the length stays");
    let over = test_doubles::read_at(&mut disk, 4, &mut [9; 4]);
    let past = test_doubles::read_at(&mut disk, 6, &mut [9; 2]);
    same(rt, [over, past], [Err(DeviceFault); 2], "the end");
    shows(rt, &mut disk, 2, "02030405");
    got(rt, fs::remove_file(rt, path));
}
