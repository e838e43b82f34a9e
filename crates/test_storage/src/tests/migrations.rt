// Devices of the first layout, and the way over from it: what goes over, devices of other lengths, each call of both devices failing in
// turn, and each write of the new one stopped inside. Images of that layout and each case of damage are in conformance/migrate.txt.
use super::*;

// The bytes of a device of layout 1, what it begins with, and where its first journal begins.
const OLD_LEN: usize = 2_371_584;

const FRONT: &str = "545a4e4f4445 3031 0005";

const OLD_AREA: usize = 139_264;

// The device of layout 1 with five nodes: an open gate, epoch 1, count 0, no edges; and a record of one change, which adds the edges 0-1,
// 1-2, 2-3 and 3-4 of weight 1. All is settled.
fn path(rt: &impl Host) -> MemDisk {
    let mut disk = blank(rt, OLD_LEN);
    put_text(rt, &mut disk, 0, FRONT);
    let head = "01 0000000000000001 0000000000000000 0005 00000000";
    put_text(rt, &mut disk, FIRST_SLOT, head);
    let record = "01 00000027 0001 04 01 0000 0001 00000001 01 0001 0002 00000001 \
        01 0002 0003 00000001 01 0003 0004 00000001 00";
    put_text(rt, &mut disk, OLD_AREA, record);
    got(rt, disk.sync());
    disk
}

// What a migration answers, and what it does that brings the path over.
type Moving = Result<Moved, MigrateRefused>;

const MOVED: Moving = Ok(Moved { count: 1, edges: 4 });

// The device of a store that has the path, and no ticket.
fn holds(rt: &impl Abort, store: Store<MemDisk>) -> MemDisk {
    let graph = store.graph();
    let edges = [(0, 1), (1, 2), (2, 3), (3, 4)];
    let weights = edges.map(|(a, b)| graph.weight(b, a));
    same(rt, weights, [Some(1); 4], "the path");
    same(rt, store.starts(), [0; 64], "the tickets");
    ends(rt, store, (1, 4, Some(1)), "the path")
}

// What stood on the new device counts for nothing: a store with another network, and bytes of its own where the first journal begins.
#[test]
fn moves_a_device_over_what_was_there(rt: HostRuntime) {
    let rt = &rt;
    let mut old = path(rt);
    let mut new = formatted(rt, 9);
    put_text(rt, &mut new, FIRST_AREA, "0100000015");
    let answer = migrate(rt.alloc(), &mut old, &mut new);
    same(rt, answer, Ok(1), "the path");
    let _disk = holds(rt, opened(rt, new));
    layout_1::standing_law();
    layout_1::layout_law();
    layout_2::standing_law();
    layout_2::layout_law();
}

// Puts the edges of the largest network of layout 1: those of nodes 0 to 3 to all greater ones, and ten of node 4.
fn put_most_edges(rt: &impl Abort, disk: &mut MemDisk) {
    let mut at = 4119usize;
    for a in 0..5u16 {
        let end = if a == 4 { 15 } else { 4096 };
        for b in a + 1..end {
            let mut text = [0, 0, 0, 0, 0, 0, 0, 7];
            text[..2].copy_from_slice(&a.to_be_bytes());
            text[2..4].copy_from_slice(&b.to_be_bytes());
            put(rt, disk, at, &text);
            at = at.wrapping_add(8);
        }
    }
}

// No record; Cut(0, 1), Add(5, 6, 1); and Add(5, 6, 1), Cut(5, 6).
const LAST: [&str; 3] = [
    "00",
    "01 00000015 0001 02 03 0000 0001 00000000 01 0005 0006 00000001 00",
    "01 00000015 0001 02 01 0005 0006 00000001 03 0005 0006 00000000 00",
];

// The count and how many edges a device has, if it is one.
fn found_on(rt: &impl Host, disk: MemDisk) -> Option<(u64, usize)> {
    match Store::open(rt.alloc(), disk) {
        Ok(store) => Some((store.count(), store.graph().edges())),
        Err(_) => None,
    }
}

const FOUND: [Option<(u64, usize)>; 3] = [Some((7, 16_384)), Some((8, 16_384)), None];

#[test]
fn keeps_to_the_limits_of_layout_1(rt: HostRuntime) {
    let rt = &rt;
    // epoch 1, count 7, 4,096 nodes, 16,384 edges
    let mut old = blank(rt, OLD_LEN);
    put_text(rt, &mut old, 0, "545a4e4f4445 3031 1000");
    let head = "01 0000000000000001 0000000000000007 1000 00004000";
    put_text(rt, &mut old, FIRST_SLOT, head);
    put_most_edges(rt, &mut old);
    for (record, want) in LAST.iter().zip(FOUND.iter()) {
        put_text(rt, &mut old, OLD_AREA, record);
        let mut new = blank(rt, DEVICE_LEN);
        let answer = bring_over(rt.alloc(), &mut old, &mut new);
        let there = answer.map(|moved| (moved.count, moved.edges));
        same(rt, there, want.ok_or(MigrateRefused::Damaged), "the answer");
        same(rt, found_on(rt, new), *want, "its edges");
    }
}

// How long an old device is, and what it begins with: what is told of each is in conformance/migrate.txt.
const FRONTS: [(usize, &str); 6] = [
    (0, ""),
    (9, "545a4e4f4445 3031 00"),
    (10, "545a4e4f4445 3032 0005"),
    (10, FRONT),
    (OLD_LEN - 1, FRONT),
    (OLD_LEN, FRONT),
];

// The new device's length comes first, and then the sync of the old one: where it fails, that is told, whatever stands there.
const LENGTHS: [(usize, MigrateRefused); 3] = [
    (DEVICE_LEN - 1, MigrateRefused::BadLength),
    (DEVICE_LEN, MigrateRefused::OldDevice),
    (DEVICE_LEN + 1, MigrateRefused::BadLength),
];

#[test]
fn tells_lengths_and_the_sync_in_order(rt: HostRuntime) {
    let rt = &rt;
    for (len, front) in &FRONTS {
        let mut old = blank(rt, *len);
        put_text(rt, &mut old, 0, front);
        for (new_len, want) in &LENGTHS {
            let mut new = blank(rt, *new_len);
            old.fail_at(1);
            let answer = bring_over(rt.alloc(), &mut old, &mut new);
            same(rt, (*len, answer), (*len, Err(*want)), "in order");
        }
    }
}

#[test]
fn tells_each_fault_of_the_old_device(rt: HostRuntime) {
    let rt = &rt;
    let mut old = path(rt);
    let before = whole(rt, &mut old);
    let mut new = blank(rt, DEVICE_LEN);
    let mut faults = 0;
    for call in 1..100 {
        old.fail_at(call);
        let answer = bring_over(rt.alloc(), &mut old, &mut new);
        if answer.is_ok() {
            break;
        }
        same(rt, answer, Err(MigrateRefused::OldDevice), "a fault");
        faults = call;
    }
    // a sync, the header, the heads of two slots and the record, at least
    let several = (5..99).contains(&faults);
    same(rt, (faults, several), (faults, true), "the faults");
    old.arm(Plan::None);
    stays(rt, &mut old, &before, "the old device");
}

// Whether the whole path is left on a new device, after a crash by a word. What is left may else be no store.
fn is_left_whole(rt: &impl Host, new: MemDisk, case: (Plan, u64)) -> bool {
    match Store::open(rt.alloc(), new) {
        Ok(store) => {
            let _disk = holds(rt, store);
            true
        }
        Err((refused, _)) => {
            let no_store = (refused as u8) < 4;
            same(rt, (case, no_store), (case, true), "no store");
            false
        }
    }
}

const NONE: [bool; 5] = [false; 5];

// What meets the new device behind its eighth call, and by each word whether the whole is left. The gate of the slot comes last, and is the
// only byte then that isn't settled: it is closed, but for a byte 1.
const PLANS: [(Plan, [bool; 5]); 8] = [
    (Plan::Fail(9), [false, false, false, false, true]),
    (Plan::Fail(10), [false, true, false, false, true]),
    (Plan::Stop(1, 1), NONE),
    (Plan::Stop(3, 0), NONE),
    (Plan::Stop(5, 9), NONE),
    (Plan::Stop(7, 528_383), NONE),
    (Plan::Stop(9, 0), [false, false, false, false, true]),
    (Plan::Stop(9, 1), [false, true, false, false, true]),
];

// Brings a device over to one that this plan meets, and sees what is answered, and by each word what is left.
fn leaves(rt: &impl Host, old: &mut MemDisk, plan: Plan, want: Moving, whole: &[bool; 5]) {
    for (word, whole) in CRASH_WORDS.iter().zip(whole.iter()) {
        let mut new = blank(rt, DEVICE_LEN);
        new.arm(plan);
        let answer = bring_over(rt.alloc(), old, &mut new);
        same(rt, (plan, answer), (plan, want), "an answer");
        let left = is_left_whole(rt, new.crash(*word), (plan, *word));
        same(rt, (plan, *word, left), (plan, *word, *whole), "left");
    }
}

#[test]
fn leaves_nothing_or_the_whole_of_each_fault(rt: HostRuntime) {
    let rt = &rt;
    let mut old = path(rt);
    let failed = Err(MigrateRefused::NewDevice);
    for call in 1..=8 {
        leaves(rt, &mut old, Plan::Fail(call), failed, &NONE);
    }
    for (plan, whole) in &PLANS {
        leaves(rt, &mut old, *plan, failed, whole);
    }
    // No eleventh call is made.
    leaves(rt, &mut old, Plan::Fail(11), MOVED, &[true; 5]);
}
