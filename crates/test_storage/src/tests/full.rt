// A journal that is full, records at the end of its area and of other lengths, a worn store, and the most edges.
ghost use Rattle.std.specs.Prelude.{IsTrue, IsSome};
ghost use Rattle.graph_edits.specs.Changes.{fold};
ghost use Rattle.layout_2.specs.State.{changes_of, AreInTurn};

use super::*;

// The bytes of a device of five nodes after 106 groups of 64 requests of 16 ops, the first op of which adds an edge.
pub(super) fn full_bytes(rt: &impl Host) -> Vec<u8> {
    let mut desk = desk_on(rt, formatted(rt, 5));
    let mut ops = [Op::Set(0, 1, 1); 16];
    ops[0] = Op::Add(0, 1, 1);
    give(rt, &mut desk, (0, 1, &ops));
    give_sized(rt, &mut desk, &[(2, 63, 16)]);
    let mut store = taken(rt, desk);
    for i in 1..106u64 {
        store = takes(rt, store, &[(1 + 64 * i, 64, 16)]);
    }
    whole(rt, &mut at_last(rt, store, 6784, "full"))
}

// The device of a store whose count and whose last ticket of session 0 are this number, and whose only edge is 0-1.
fn at_last(rt: &impl Abort, store: Store<MemDisk>, last: u64, name: &str) -> MemDisk {
    let want = ((last, 1, Some(1)), None, [last, 0, 0, 0]);
    same(rt, seen(&store), want, name);
    store.into_disk()
}

// Where the next record stands then.
const LAST_GATE: usize = 1_577_958;

// The length of the last record says a byte more or less than its 64 requests of 16 ops have.
fn is_damaged(rt: &impl Host, disk: MemDisk, byte: u8) -> MemDisk {
    let disk = spoilt(rt, disk, 1_568_099, byte);
    let disk = is_refused(rt, disk, OpenRefused::Damaged, "a length");
    spoilt(rt, disk, 1_568_099, 0x82)
}

#[test]
fn fills_a_journal(rt: HostRuntime) {
    let rt = &rt;
    let mut disk = copied(rt, &full_bytes(rt));
    // the last record of 9,863 bytes, and the next gate at 1,045,478 of the area
    let front = "01 00002682 0040 00 0000000000001a41 10";
    shows(rt, &mut disk, 1_568_095, front);
    shows(rt, &mut disk, LAST_GATE, "00");
    let disk = is_damaged(rt, disk, 0x81);
    let disk = is_damaged(rt, disk, 0x83);
    let _disk = at_last(rt, opened(rt, disk), 6784, "opened");
}

// 22 requests with 319 ops, 3,098 bytes.
pub(super) const PAST_THE_END: [(u64, u64, usize); 3] = [
    (6785, 19, 16),
    (6804, 1, 13),
    (6805, 2, 1),
];

fn is_accepted(alloc: Global, graph: &Graph, requests: &[Request]) -> bool
    ensures { IsTrue result → IsSome (fold graph.now (changes_of requests.now)) }
{
    let mut after = Overlay::over(alloc, graph);
    for request in requests {
        match after.apply(&request.change) {
            Ok(()) => {}
            Err(_) => return false,
        }
    }
    true
}

fn is_in_turn(starts: [u64; SESSIONS], requests: &[Request]) -> bool
    ensures { IsTrue result → AreInTurn starts requests.now }
{
    let mut tickets = starts;
    for request in requests {
        let session = request.session as usize;
        if session >= SESSIONS
            || request.ticket <= tickets[session]
            || WORN_LIMIT < request.ticket
        {
            return false;
        }
        tickets[session] = request.ticket;
    }
    true
}

// What a commit of such runs answers, without a desk, which would roll.
fn answer_to_runs(
    rt: &impl Host,
    store: &mut Store<MemDisk>,
    runs: Runs<'_>,
) -> Result<(), CommitRefused> {
    let all = [Op::Set(0, 1, 1); 16];
    let mut group = Vec::new(rt.alloc());
    for (ticket, changes, ops) in runs {
        let ops = got(rt, all.get(..*ops).ok_or("too many ops"));
        for i in 0..*changes {
            let request = request(rt, (0, ticket.wrapping_add(i), ops));
            got(rt, group.push(request));
        }
    }
    assert!(rt; 1 <= group.len() && group.len() <= 64);
    assert!(rt; is_accepted(rt.alloc(), store.graph(), &group));
    assert!(rt; is_in_turn(store.starts(), &group));
    store.commit(rt.alloc(), &group)
}

#[test]
fn a_full_journal_needs_a_roll(rt: HostRuntime) {
    let rt = &rt;
    let before = full_bytes(rt);
    let mut store = opened(rt, copied(rt, &before));
    let answer = answer_to_runs(rt, &mut store, &PAST_THE_END);
    same(rt, answer, Err(CommitRefused::NeedsRoll), "past the end");
    same(rt, store.is_down(), false, "past the end");
    let mut disk = at_last(rt, store, 6784, "past the end");
    stays(rt, &mut disk, &before, "past the end");
}

#[test]
fn a_rolled_journal_takes_the_group(rt: HostRuntime) {
    let rt = &rt;
    let before = full_bytes(rt);
    let mut store = opened(rt, copied(rt, &before));
    rolls(rt, &mut store);
    let answer = answer_to_runs(rt, &mut store, &PAST_THE_END);
    same(rt, answer, Ok(()), "rolled");
    let mut disk = at_last(rt, store, 6806, "rolled");
    shows(rt, &mut disk, SECOND_AREA, "01 00000c15 0016");
    let record = bytes::<MemDisk, 3098>(rt, &mut disk, SECOND_AREA);
    let _disk = at_last(rt, opened(rt, disk), 6806, "opened");
    // where the full journal ends it is damage: the gate behind it would be the other slot's
    let mut disk = copied(rt, &before);
    put(rt, &mut disk, LAST_GATE, &record);
    is_refused(rt, disk, OpenRefused::Damaged, "past the end");
}

// The last group, where in the area its next gate stands, and the count. Where that gate is open there is no room for a record: the next
// one's length just fits, or passes the area's end. 21 requests with 320 ops, 3,097 bytes, are the most that fit.
const LAST: [([(u64, u64, usize); 3], usize, u64); 3] = [
    (
        [(6785, 19, 16), (6804, 1, 4), (6805, 6, 1)],
        1_048_571,
        6810,
    ),
    (
        [(6785, 19, 16), (6804, 1, 2), (6805, 7, 1)],
        1_048_572,
        6811,
    ),
    (
        [(6785, 19, 16), (6804, 1, 8), (6805, 1, 8)],
        1_048_575,
        6805,
    ),
];

// The device opens with the gate behind the last group closed, and not with it open.
#[test]
fn a_group_fits_by_one_byte(rt: HostRuntime) {
    let rt = &rt;
    let before = full_bytes(rt);
    for (runs, gate, count) in &LAST {
        let store = reopened(rt, takes(rt, opened(rt, copied(rt, &before)), runs));
        let mut disk = at_last(rt, store, *count, "a closed gate");
        let gate = FIRST_AREA.wrapping_add(*gate);
        shows(rt, &mut disk, gate, "00 00");
        let disk = spoilt(rt, disk, gate, 1);
        let mut disk = is_refused(rt, disk, OpenRefused::Damaged, "an open gate");
        if *count == 6805 {
            shows(rt, &mut disk, LAST_GATE, "01 00000c14 0015");
        }
    }
}

// ---- A desk, which rolls where it has to.

const FITS: [(u64, u64, usize); 3] = [(6785, 19, 16), (6804, 1, 8), (6805, 1, 8)];

// Commits such runs over a full device: the other slot's gate then, whether the first one is as it was, and what the device opens to.
fn committed(rt: &impl Host, before: &[u8], runs: Runs<'_>) -> (u8, bool, Seen) {
    let mut disk = takes(rt, opened(rt, copied(rt, before)), runs).into_disk();
    let [gate] = bytes::<MemDisk, 1>(rt, &mut disk, SECOND_SLOT);
    let now = whole(rt, &mut disk);
    let stays = before.get(FIRST_SLOT..SECOND_SLOT) == now.get(FIRST_SLOT..SECOND_SLOT);
    let store = opened(rt, disk);
    let found = seen(&store);
    let _disk = store.into_disk();
    (gate, stays, found)
}

// Run by `./refuse-memory` too, which refuses each allocation in turn, from the first group that fills the journal on.
#[test]
fn rolls_later_what_had_no_memory(rt: HostRuntime) {
    let rt = &rt;
    // 320 ops in 21 changes end the journal at its last byte but one. 319 ops in 22 changes need one byte more: what is there stays.
    let before = full_bytes(rt);
    let fits = committed(rt, &before, &FITS);
    let fitted = ((6805, 1, Some(1)), None, [6805, 0, 0, 0]);
    same(rt, fits, (0, false, fitted), "fits");
    let rolls = committed(rt, &before, &PAST_THE_END);
    let rolled = ((6806, 1, Some(1)), None, [6806, 0, 0, 0]);
    same(rt, rolls, (1, true, rolled), "rolls");
}

// Where the epoch or the count is written, the number, and the count that the desk has then. In the first case the group needs a roll and
// has no epoch left, in the second the count stands at its limit, and in the third all but one of the group have room.
const WORN: [(usize, u64, u64); 3] = [
    (4097, WORN_LIMIT, 6784),
    (4105, WORN_LIMIT - 6784, WORN_LIMIT),
    (4105, WORN_LIMIT - 6805, WORN_LIMIT - 21),
];

// All is held then, the count stays, and nothing is written.
#[test]
fn wears_out_at_the_last_epoch_and_the_last_count(rt: HostRuntime) {
    let rt = &rt;
    let before = full_bytes(rt);
    for (at, number, count) in &WORN {
        let mut disk = copied(rt, &before);
        put(rt, &mut disk, *at, &number.to_be_bytes());
        let old = whole(rt, &mut disk);
        let mut desk = desk_on(rt, disk);
        give_sized(rt, &mut desk, &PAST_THE_END);
        let answer = commit_at_last(rt, &mut desk);
        let worn = Err(DeskRefused::Worn);
        same(rt, (answer, desk.held()), (worn, 22), "worn");
        same(rt, desk.store().count(), *count, "left");
        let still = (desk.due().is_none(), desk.store().is_down());
        same(rt, still, (true, false), "left");
        let mut disk = desk.into_store().into_disk();
        stays(rt, &mut disk, &old, "nothing is written");
    }
}

// ---- The most edges.

// A store of 16,384 nodes with 65,536 edges: 64 groups of 64 requests, each from a node to the 16 nodes behind 16,367.
fn crowded(rt: &impl Host) -> Store<MemDisk> {
    let mut store = opened(rt, formatted(rt, 16_384));
    for first in (0..4096u16).step_by(64) {
        let mut desk = desk_over(rt, store);
        for node in first..first.saturating_add(64) {
            let mut ops = [Op::Add(node, 16_368, 1); 16];
            for (op, k) in ops.iter_mut().zip(0..16u16) {
                *op = Op::Add(node, u16::wrapping_add(16_368, k), 1 + k as u32);
            }
            give(rt, &mut desk, (1, 1 + node as u64, &ops));
        }
        store = taken(rt, desk);
    }
    store
}

#[test]
fn rolls_the_most_edges(rt: HostRuntime) {
    let rt = &rt;
    let mut store = crowded(rt);
    let (first, last) = ((4096, 65_536, Some(1)), (4096, 65_536, Some(16)));
    same(rt, shown(&store, 4095, 16_383), last, "edges");
    rolls(rt, &mut store);
    let mut disk = store.into_disk();
    // gate, epoch 2, count, nodes, number of edges, two tickets; the first edge; and the last, which ends at 524,823 of the slot
    let front =
        "01 0000000000000002 0000000000001000 4000 00010000 0000000000000000 0000000000001000";
    shows(rt, &mut disk, SECOND_SLOT, front);
    shows(rt, &mut disk, SECOND_EDGES, "0000 3ff0 00000001");
    shows(rt, &mut disk, 2_105_871, "0fff 3fff 00000010 00");
    let store = opened(rt, disk);
    same(rt, shown(&store, 0, 16_368), first, "opened");
    same(rt, shown(&store, 4095, 16_383), last, "opened");
    // one edge more, in its place and in the number of edges
    let mut disk = store.into_disk();
    put_text(rt, &mut disk, 2_105_879, "1000 3ff0 00000001");
    let disk = spoilt(rt, disk, 1_581_078, 1);
    is_refused(rt, disk, OpenRefused::Damaged, "an edge too many");
}
