// What a want of memory leaves of an opening, a commit and a roll. Run by `./refuse-memory`, which refuses each allocation in
// turn: the call in which it is refused answers Memory and leaves all as it was, and the same call made again gives the answer.
use super::*;

// A device for nine nodes after one roll, its bytes by hand: a checkpoint of count 1 with ticket 1 of session 0 and three edges in
// the second slot, and two records of two requests each behind it. It takes memory only for the device.
fn used_device(rt: &impl Host) -> MemDisk {
    let mut disk = formatted(rt, 9);
    // an open gate, epoch 2, count 1, nodes 9, three edges, ticket 1; and the edges 0-1, 0-2 and 3-4 of weights 1, 2 and 3
    let head = "01 0000000000000002 0000000000000001 0009 00000003 0000000000000001";
    put_text(rt, &mut disk, SECOND_SLOT, head);
    let edges = "0000 0001 00000001 0000 0002 00000002 0003 0004 00000003";
    put_text(rt, &mut disk, SECOND_EDGES, edges);
    // session 0: Add(0, 3, 4); session 3: Set(0, 1, 9), Cut(3, 4); and behind them Add(5, 6, 7); Add(4, 5, 6)
    let record = "01 00000031 0002 00 0000000000000002 01 01 0000 0003 00000004";
    put_text(rt, &mut disk, SECOND_AREA, record);
    let record = "03 0000000000000001 02 02 0000 0001 00000009 03 0003 0004 00000000";
    put_text(rt, &mut disk, 2_109_466, record);
    let record = "01 00000028 0002 00 0000000000000003 01 01 0005 0006 00000007";
    put_text(rt, &mut disk, 2_109_494, record);
    let record = "03 0000000000000002 01 01 0004 0005 00000006 00";
    put_text(rt, &mut disk, 2_109_520, record);
    got(rt, disk.sync());
    disk
}

// A store that shows what that of such a device does.
fn used(rt: &impl Abort, store: Store<MemDisk>) -> Store<MemDisk> {
    same(rt, shown(&store, 0, 1), (5, 5, Some(9)), "used");
    let graph = store.graph();
    let pairs = [(0, 2), (0, 3), (5, 6), (4, 5), (3, 4)];
    let found = pairs.map(|(a, b)| graph.weight(a, b));
    let want = [Some(2), Some(4), Some(7), Some(6), None];
    same(rt, found, want, "used");
    let state = (store.resume(0), store.resume(3), store.is_down());
    same(rt, state, (3, 2, false), "used");
    store
}

// The device of a store that was refused memory holds what it held: a byte that was written and not synced would be 255 after this crash.
fn untouched(rt: &impl Host, disk: MemDisk, before: &[u8]) -> MemDisk {
    let mut disk = disk.crash(511);
    stays(rt, &mut disk, before, "untouched");
    disk
}

#[test]
fn an_opening_without_memory_is_made_again(rt: HostRuntime) {
    let rt = &rt;
    let mut disk = used_device(rt);
    let before = whole(rt, &mut disk);
    let store = match Store::open(rt.alloc(), disk) {
        Ok(store) => store,
        Err((refused, disk)) => {
            same(rt, refused, OpenRefused::Memory, "refused");
            got(rt, Store::open(rt.alloc(), untouched(rt, disk, &before)))
        }
    };
    let _disk = used(rt, store).into_disk();
}

// The store of the device of one that was refused memory: that one is as it was, and so is its device.
fn left(rt: &impl Host, store: Store<MemDisk>, before: &[u8]) -> Store<MemDisk> {
    let disk = untouched(rt, used(rt, store).into_disk(), before);
    used(rt, opened(rt, disk))
}

// Three requests: five ops.
const GROUP: [Asked; 3] = [
    (0, 4, &[Op::Add(0, 4, 1), Op::Add(1, 2, 2)]),
    (3, 3, &[Op::Set(4, 0, 3), Op::Cut(0, 2)]),
    (0, 9, &[Op::Add(7, 8, 1_000_000)]),
];

// A store that shows what it does behind them.
fn committed(rt: &impl Abort, store: Store<MemDisk>) -> Store<MemDisk> {
    same(rt, shown(&store, 0, 4), (8, 7, Some(3)), "committed");
    let graph = store.graph();
    let found = [(7, 8), (1, 2), (0, 2)].map(|(a, b)| graph.weight(a, b));
    same(rt, found, [Some(1_000_000), Some(2), None], "committed");
    same(rt, (store.resume(0), store.resume(3)), (9, 3), "committed");
    store
}

// The test of a full journal makes the call again on the same store.
#[test]
fn a_commit_without_memory_is_made_again(rt: HostRuntime) {
    let rt = &rt;
    let mut disk = used_device(rt);
    let before = whole(rt, &mut disk);
    let mut desk = desk_on(rt, disk);
    give_all(rt, &mut desk, &GROUP);
    let mut answer = commit(rt, &mut desk);
    if answer == Err(DeskRefused::Memory) {
        same(rt, (desk.held(), desk.due().is_none()), (3, true), "left");
        desk = desk_over(rt, left(rt, desk.into_store(), &before));
        give_all(rt, &mut desk, &GROUP);
        answer = commit(rt, &mut desk);
    }
    same(rt, answer, Ok(3), "made again");
    let store = committed(rt, desk.into_store());
    let _disk = committed(rt, reopened(rt, store)).into_disk();
}

#[test]
fn a_roll_without_memory_is_made_again(rt: HostRuntime) {
    let rt = &rt;
    let mut disk = used_device(rt);
    let before = whole(rt, &mut disk);
    let mut store = opened(rt, disk);
    let answer = store.roll(rt.alloc());
    if answer.is_err() {
        same(rt, answer, Err(RollRefused::Memory), "a roll");
        store = left(rt, store, &before);
        same(rt, store.roll(rt.alloc()), Ok(()), "made again");
    }
    let mut disk = used(rt, store).into_disk();
    // an open gate, epoch 3, count 5, nodes 9, five edges, ticket 3 of session 0; and the first edge, 0-1 of weight 9
    let front = "01 0000000000000003 0000000000000005 0009 00000005 0000000000000003";
    shows(rt, &mut disk, FIRST_SLOT, front);
    shows(rt, &mut disk, 4631, "0000 0001 00000009");
    let _disk = used(rt, opened(rt, disk)).into_disk();
}
