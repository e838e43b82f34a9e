// Opening: what is no store, and every failure of the device, on one that has rolled.
use super::*;

// The length of a device, what it begins with, and why it is no store. Layout 1 is another version, whatever the length.
const NO_STORES: [(usize, &str, OpenRefused); 10] = [
    (9, "", OpenRefused::NotFormatted),
    (9, "545a4e4f4445 3032 00", OpenRefused::NotFormatted),
    (10, "", OpenRefused::NotFormatted),
    (10, "545a4e4f4445 3032 0005", OpenRefused::Damaged),
    (2_371_584, "545a4e4f4445 3031 0005", OpenRefused::BadVersion),
    (3_158_015, "545a4e4f4445 3032 0005", OpenRefused::Damaged),
    (3_158_016, "545a4e4f4445 3031 0005", OpenRefused::BadVersion),
    (3_158_016, "545a4e4f4445 3039 0005", OpenRefused::BadVersion),
    (3_158_016, "545a4e4f444630320005", OpenRefused::NotFormatted),
    (3_158_016, "545a4e4f4445 3032 0005", OpenRefused::Damaged),
];

// The sync of an opening comes first: where it fails, that is told, whatever stands on the device.
#[test]
fn refuses_what_is_no_store(rt: HostRuntime) {
    let rt = &rt;
    for (len, text, want) in &NO_STORES {
        for (call, want) in [(1, OpenRefused::Device), (0, *want)].iter() {
            let mut disk = blank(rt, *len);
            put_text(rt, &mut disk, 0, text);
            disk.fail_at(*call);
            is_refused(rt, disk, *want, text);
        }
    }
}

// A device that has rolled, with edges in its checkpoint and behind it eight records of 9,863 bytes, which are read in two parts.
fn long_device(rt: &impl Host) -> MemDisk {
    let edges = [Op::Add(0, 1, 1), Op::Add(1, 2, 2)];
    let mut store = opened(rt, formatted(rt, 5));
    store = commits(rt, store, &[(0, 1, &edges)]);
    rolls(rt, &mut store);
    for i in 0..8u64 {
        store = takes(rt, store, &[(2 + 64 * i, 64, 16)]);
    }
    is_long(rt, store)
}

fn is_long(rt: &impl Abort, store: Store<MemDisk>) -> MemDisk {
    let want = ((513, 2, Some(1)), Some(2), [513, 0, 0, 0]);
    same(rt, seen(&store), want, "a long device");
    store.into_disk()
}

// Opens the device by a plan, which has to stop it; the device then has these bytes, and so it has after a crash.
fn is_stopped(rt: &impl Host, disk: MemDisk, plan: Plan, before: &[u8]) -> MemDisk {
    let mut disk = disk;
    disk.arm(plan);
    let mut disk = is_refused(rt, disk, OpenRefused::Device, "a call fails");
    disk.arm(Plan::None);
    stays(rt, &mut disk, before, "nothing is written");
    // a byte that was written and not synced would be 255 after this crash
    let mut disk = disk.crash(511);
    stays(rt, &mut disk, before, "nothing is written");
    is_long(rt, opened(rt, disk))
}

#[test]
fn each_call_of_a_long_opening_fails(rt: HostRuntime) {
    let rt = &rt;
    let mut disk = long_device(rt);
    let before = whole(rt, &mut disk);
    // a sync, the header, two heads, the tickets, the edges, and the records in two parts
    for call in 1..9u64 {
        disk = is_stopped(rt, disk, Plan::Fail(call), &before);
        disk = is_stopped(rt, disk, Plan::Stop(call, 0), &before);
    }
    // no call is left out, and none is made besides
    disk.fail_at(9);
    let _disk = is_long(rt, opened(rt, disk));
}
