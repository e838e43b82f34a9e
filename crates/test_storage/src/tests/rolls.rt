// Rolling: its bytes, what is kept of tickets, its refusals, and every failure of the device inside a roll.
use super::*;

// Tickets of three sessions, some left out.
const ASKED: [Asked; 4] = [
    (0, 3, &[Op::Add(0, 1, 1)]),
    (63, 258, &[Op::Add(1, 2, 2)]),
    (0, 7, &[Op::Set(0, 1, 5)]),
    (7, WORN_LIMIT, &[Op::Add(2, 3, 3)]),
];

fn kept(rt: &impl Abort, store: Store<MemDisk>, name: &str) -> MemDisk {
    let first = [store.resume(0), store.resume(1), store.resume(7)];
    same(rt, first, [7, 0, WORN_LIMIT], name);
    same(rt, [store.resume(62), store.resume(63)], [0, 258], name);
    ends(rt, store, (4, 3, Some(5)), name)
}

#[test]
fn rolls_into_the_other_slot(rt: HostRuntime) {
    let rt = &rt;
    let store = opened(rt, formatted(rt, 5));
    same(rt, store.starts(), [0; 64], "fresh");
    // what is left in the other slot from before counts for nothing
    let disk = kept(rt, commits(rt, store, &ASKED), "committed");
    let disk = spoilt(rt, disk, 1_581_700, 7);
    let mut store = opened(rt, spoilt(rt, disk, 2_109_440, 1));
    rolls(rt, &mut store);
    let mut disk = kept(rt, store, "rolled");
    // gate, epoch, count, nodes and number of edges, and the tickets of sessions 0 and 1; those of 7, and of 62 and 63
    let head =
        "01 0000000000000002 0000000000000004 0005 00000003 0000000000000007 0000000000000000";
    shows(rt, &mut disk, SECOND_SLOT, head);
    shows_zeros(rt, &mut disk, 1_581_087, 6);
    shows(rt, &mut disk, 1_581_135, "7fffffffffffffff");
    shows_zeros(rt, &mut disk, 1_581_143, 54);
    let tickets = "0000000000000000 0000000000000102";
    shows(rt, &mut disk, 1_581_575, tickets);
    // the edges, a byte behind them, and the journal's gate; and the gate of the other slot
    let edges = "0000 0001 00000005 0001 0002 00000002 0002 0003 00000003 00";
    shows(rt, &mut disk, SECOND_EDGES, edges);
    shows(rt, &mut disk, 1_581_700, "00");
    shows(rt, &mut disk, SECOND_AREA, "00");
    shows(rt, &mut disk, FIRST_SLOT, "01");
    let _disk = kept(rt, opened(rt, disk), "opened");
}

// A roll of a device with one edge writes 543 bytes: behind the head and 63 tickets this edge; the journal's gate. The old gate is open.
const ROLLED_EDGE: [(usize, &str); 3] = [
    (1_581_591, "0000 0001 00000001"),
    (2_109_440, "00"),
    (4096, "01"),
];

#[test]
fn rolls_back_into_the_first_slot(rt: HostRuntime) {
    let rt = &rt;
    let mut store = opened(rt, with_edge(rt));
    rolls(rt, &mut store);
    let mut disk = store.into_disk();
    let head = "01 0000000000000002 0000000000000001 0005 00000001 0000000000000001";
    shows(rt, &mut disk, SECOND_SLOT, head);
    for (at, text) in &ROLLED_EDGE {
        shows(rt, &mut disk, *at, text);
    }
    shows_zeros(rt, &mut disk, 1_581_087, 63);
    let mut store = opened(rt, disk);
    rolls(rt, &mut store);
    let mut disk = store.into_disk();
    shows(rt, &mut disk, FIRST_SLOT, "01 0000000000000003");
    shows(rt, &mut disk, SECOND_SLOT, "01 0000000000000002");
    let _disk = ends(rt, opened(rt, disk), (1, 1, Some(1)), "opened");
}

const WORN: Result<(), RollRefused> = Err(RollRefused::Worn);

#[test]
fn a_worn_epoch_stays(rt: HostRuntime) {
    let rt = &rt;
    let mut disk = formatted(rt, 5);
    put_text(rt, &mut disk, 4097, "7fffffffffffffff");
    let before = whole(rt, &mut disk);
    let mut store = opened(rt, disk);
    same(rt, roll(rt, &mut store), WORN, "worn");
    same(rt, store.is_down(), false, "worn");
    let mut disk = store.into_disk();
    stays(rt, &mut disk, &before, "worn");
    // a commit writes nothing into the second slot
    let store = commits(rt, opened(rt, disk), &[(0, 1, &[Op::Add(0, 1, 1)])]);
    shows_zeros(rt, &mut store.into_disk(), SECOND_SLOT, 68)
}

#[test]
fn rolls_to_the_last_epoch(rt: HostRuntime) {
    let rt = &rt;
    // one below the limit there is one roll, and no second
    let mut disk = with_edge(rt);
    put_text(rt, &mut disk, 4097, "7ffffffffffffffe");
    let mut store = opened(rt, disk);
    rolls(rt, &mut store);
    same(rt, roll(rt, &mut store), WORN, "worn");
    let mut disk = store.into_disk();
    shows(rt, &mut disk, SECOND_SLOT, "01 7fffffffffffffff");
    let _disk = ends(rt, opened(rt, disk), (1, 1, Some(1)), "opened");
}

// A device with one roll behind it, and one change behind that.
fn rolled_once(rt: &impl Host) -> MemDisk {
    let mut store = opened(rt, with_edge(rt));
    rolls(rt, &mut store);
    commits(rt, store, &[(4, 2, &[Op::Add(1, 2, 5)])]).into_disk()
}

// What the store of such a device shows.
const ROLLED_ONCE: Seen = ((2, 2, Some(1)), Some(5), [1, 2, 0, 0]);

// Fails or stops a second roll by a plan that counts its calls. After a crash by the word the state is the same, and a change that is
// committed then is there after another opening.
fn rolls_by(rt: &impl Host, plan: Plan, want: Result<(), RollRefused>, word: u64) {
    let mut store = opened(rt, rolled_once(rt));
    store.arm(plan);
    let answer = roll(rt, &mut store);
    same(rt, (plan, answer), (plan, want), "a second roll");
    same(rt, seen(&store), ROLLED_ONCE, "a second roll");
    same(rt, store.is_down(), answer.is_err(), "down");
    if answer.is_err() {
        same(rt, roll(rt, &mut store), ROLL_DOWN, "again");
    }
    goes_on(rt, store.into_disk().crash(word));
}

fn goes_on(rt: &impl Host, disk: MemDisk) {
    let store = opened(rt, disk);
    same(rt, seen(&store), ROLLED_ONCE, "after a crash");
    let store = commits(rt, store, &[(4, 3, &[Op::Add(2, 3, 9)])]);
    let store = reopened(rt, store);
    let want = ((3, 3, Some(1)), Some(5), [1, 3, 0, 0]);
    same(rt, seen(&store), want, "opened again");
    same(rt, store.graph().weight(2, 3), Some(9), "opened again");
    let _disk = store.into_disk();
}

const DEVICE: Result<(), RollRefused> = Err(RollRefused::Device);

#[test]
fn each_call_of_a_roll_fails(rt: HostRuntime) {
    let rt = &rt;
    for word in &CRASH_WORDS {
        // no call is left out, and none is made besides
        for call in 1..7u64 {
            rolls_by(rt, Plan::Fail(call), DEVICE, *word);
        }
        rolls_by(rt, Plan::Fail(7), Ok(()), *word);
    }
}

// The writes of a second roll, and behind how many bytes they stop: the gate that is closed, the area, and the gate that is opened.
const STOPS: [(u64, usize); 16] = [
    (1, 0),
    (1, 1),
    (3, 0),
    (3, 1),
    (3, 8),
    (3, 22),
    (3, 30),
    (3, 534),
    (3, 542),
    (3, 550),
    (3, 264_192),
    (3, 528_383),
    (3, 528_384),
    (5, 0),
    (5, 1),
    (6, 0),
];

#[test]
fn a_roll_stops_inside_each_write(rt: HostRuntime) {
    for word in &CRASH_WORDS {
        for (call, put) in &STOPS {
            rolls_by(&rt, Plan::Stop(*call, *put), DEVICE, *word);
        }
    }
}

// A roll on a device whose other slot was never open leaves its closed gate alone: four calls.
#[test]
fn a_first_roll_makes_four_calls(rt: HostRuntime) {
    let rt = &rt;
    for (call, want) in [(4, DEVICE), (5, Ok(()))].iter() {
        let mut store = opened(rt, with_edge(rt));
        store.arm(Plan::Fail(*call));
        same(rt, roll(rt, &mut store), *want, "four calls");
        let _disk = store.into_disk();
    }
}
