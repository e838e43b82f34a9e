// Commits of which a call of the device fails or stops. What isn't here of those without a roll is in conformance/crashes.txt.
use super::*;

// Where the record of a second change has its gate: behind the first one's 26 bytes.
const SECOND_GATE: usize = 532_506;

// What a store shows that has both changes.
const WITH_BOTH: Seen = ((2, 2, Some(1)), Some(1), [2, 0, 0, 0]);

// The second change is stopped inside the write of its gate, and a crash leaves this byte there. The device with the gate closed again.
fn opens_by_gate(rt: &impl Host, disk: MemDisk, byte: u8) -> MemDisk {
    let mut desk = desk_on(rt, disk);
    give(rt, &mut desk, (0, 2, &[Op::Add(1, 2, 1)]));
    let disk = stopped(rt, desk, Plan::Stop(3, 0));
    let mut disk = disk.crash(256 + byte as u64);
    let found = bytes::<MemDisk, 1>(rt, &mut disk, SECOND_GATE);
    same(rt, found, [byte], "the gate");
    let store = opened(rt, disk);
    let want = if byte == 1 { WITH_BOTH } else { WITH_EDGE };
    same(rt, (byte, seen(&store)), (byte, want), "a gate byte");
    spoilt(rt, store.into_disk(), SECOND_GATE, 0)
}

#[test]
fn opens_after_each_gate_byte(rt: HostRuntime) {
    let rt = &rt;
    let mut disk = with_edge(rt);
    for byte in 0..=255u8 {
        disk = opens_by_gate(rt, disk, byte);
    }
}

// A desk that holds the largest group, 64 requests of 16 ops: the first one adds the edge 1-2, and the k-th sets 0-1 to the weight k.
fn largest(rt: &impl Host, disk: MemDisk) -> Desk<MemDisk> {
    let mut desk = desk_on(rt, disk);
    for weight in 1..65u32 {
        let mut ops = [Op::Set(0, 1, weight); 16];
        if weight == 1 {
            ops[0] = Op::Add(1, 2, 7);
        }
        give(rt, &mut desk, (9, 1000 + weight as u64, &ops));
    }
    desk
}

// The first call stops behind so many bytes. The same device again, so what was torn is zeros.
fn body_stops(rt: &impl Host, disk: MemDisk, most: usize, word: u64) -> MemDisk {
    let disk = stopped(rt, largest(rt, disk), Plan::Stop(1, most));
    let store = opened(rt, disk.crash(word));
    same(rt, seen(&store), WITH_EDGE, "a crash");
    let mut disk = store.into_disk();
    put(rt, &mut disk, 532_507, &[0; 9863]);
    disk
}

// The first call writes 4 bytes of length, 9,858 of payload, and the next gate: all but 64 to all of them.
#[test]
fn the_largest_body_stops_at_its_end(rt: HostRuntime) {
    let rt = &rt;
    for word in &CRASH_WORDS {
        let mut disk = with_edge(rt);
        for most in 9799..9864usize {
            disk = body_stops(rt, disk, most, *word);
        }
        let store = taken(rt, largest(rt, disk));
        let want = ((65, 2, Some(64)), Some(7), [1, 0, 1064, 0]);
        same(rt, seen(&store), want, "whole");
        let _disk = store.into_disk();
    }
}

// ---- A commit that rolls: it closes the other slot, rolls into it, and writes its record there.

// What is there before the group and behind it.
const BEFORE: Seen = ((6784, 1, Some(1)), None, [6784, 0, 0, 0]);

const BEHIND: Seen = ((6806, 1, Some(1)), None, [6806, 0, 0, 0]);

// The calls of such a commit up to its record's gate, and behind how many bytes each stops: the gate of the other slot is closed; the
// checkpoint is written, up to its journal's first gate; its gate is opened, and whichever slot counts then, the same stands there; and the
// record is written, up to the next gate. Behind each write stands a sync.
const STOPS: [(u64, &[usize]); 8] = [
    (1, &[0, 1]),
    (2, &[0]),
    (3, &[0, 1, 22, 264_192, 528_384]),
    (4, &[0]),
    (5, &[0, 1]),
    (6, &[0]),
    (7, &[9]),
    (8, &[0]),
];

// The gate of the other slot before, what meets the record's gate or its sync, and whether the group is there after a crash by each of the
// words: the gate's byte decides, which is 1 where the crash leaves what was written or ones alone. A closed slot saves two calls.
const GATES: [(u8, Plan, [bool; 5]); 6] = [
    (1, Plan::Fail(9), [false, false, false, false, true]),
    (1, Plan::Stop(9, 1), [false, true, false, false, true]),
    (1, Plan::Fail(10), [false, true, false, false, true]),
    (1, Plan::Stop(10, 0), [false, true, false, false, true]),
    (0, Plan::Fail(7), [false, false, false, false, true]),
    (0, Plan::Fail(8), [false, true, false, false, true]),
];

// A desk over a full device whose other slot has this gate, to which a group of 22 changes was given.
fn given(rt: &impl Host, full: &[u8], gate: u8) -> Desk<MemDisk> {
    let mut desk = desk_on(rt, spoilt(rt, copied(rt, full), SECOND_SLOT, gate));
    same(rt, seen(desk.store()), BEFORE, "full");
    give_sized(rt, &mut desk, &PAST_THE_END);
    desk
}

// No call is left out, and none is made besides: ten where the other slot is open, and eight where it is closed.
#[test]
fn a_rolling_commit_makes_ten_calls_or_eight(rt: HostRuntime) {
    let rt = &rt;
    let before = full_bytes(rt);
    for (gate, call) in [(1, 11), (0, 9)].iter() {
        let mut desk = given(rt, &before, *gate);
        desk.arm(Plan::Fail(*call));
        let disk = taken(rt, desk).into_disk();
        let store = opened(rt, disk.crash(256));
        same(rt, seen(&store), BEHIND, "rolled");
        let _disk = store.into_disk();
    }
}

// What a device opens to that a plan met, by each of the words; and a change that is committed then is there after another opening.
fn goes_on(rt: &impl Host, full: &[u8], gate: u8, plan: Plan, there: &[bool; 5]) {
    for (word, there) in CRASH_WORDS.iter().zip(there.iter()) {
        let disk = stopped(rt, given(rt, full, gate), plan);
        let store = opened(rt, disk.crash(*word));
        let want = if *there { BEHIND } else { BEFORE };
        let found = (plan, *word, seen(&store));
        same(rt, found, (plan, *word, want), "a crash");
        let store = commits(rt, store, &[(63, 1, &[Op::Add(1, 2, 5)])]);
        let ((count, _, _), _, [last, _, _, _]) = want;
        let count = u64::wrapping_add(count, 1);
        let want = ((count, 2, Some(1)), Some(5), [last, 0, 0, 1]);
        let store = reopened(rt, store);
        same(rt, seen(&store), want, "opened");
        let _disk = store.into_disk();
    }
}

#[test]
fn each_call_of_a_rolling_commit_fails_and_stops(rt: HostRuntime) {
    let rt = &rt;
    let before = full_bytes(rt);
    for (call, stops) in &STOPS {
        goes_on(rt, &before, 1, Plan::Fail(*call), &[false; 5]);
        for most in *stops {
            goes_on(rt, &before, 1, Plan::Stop(*call, *most), &[false; 5]);
        }
    }
    // the checkpoint, its gate, and the record
    for call in [1, 3, 4, 5] {
        goes_on(rt, &before, 0, Plan::Fail(call), &[false; 5]);
    }
    for (gate, plan, there) in &GATES {
        goes_on(rt, &before, *gate, *plan, there);
    }
}
