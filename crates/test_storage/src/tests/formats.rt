// Formatting: its bytes, its refusals, each call failing, stopped inside each write, and over an older store.
use super::*;

// From where to where a format for one node may write.
const RANGES: [(usize, usize); 4] = [
    (0, 10),
    (4096, 4631),
    (532_480, 532_481),
    (1_581_056, 1_581_057),
];

#[test]
fn formats_one_node(rt: HostRuntime) {
    let rt = &rt;
    let mut disk = blank(rt, DEVICE_LEN);
    for at in (0..DEVICE_LEN).step_by(4096) {
        put(rt, &mut disk, at, &[0xa5; 4096]);
    }
    let before = whole(rt, &mut disk);
    same(rt, format(&mut disk, 1), Ok(()), "one node");
    shows(rt, &mut disk, 0, "545a4e4f4445 3032 0001");
    let head = "01 0000000000000001 0000000000000000 0001 00000000";
    shows(rt, &mut disk, FIRST_SLOT, head);
    shows_zeros(rt, &mut disk, 4119, 64);
    shows(rt, &mut disk, FIRST_AREA, "00");
    shows(rt, &mut disk, SECOND_SLOT, "00");
    let store = opened(rt, disk);
    same(rt, (store.nodes(), store.is_down()), (1, false), "one node");
    same(rt, store.starts(), [0; 64], "one node");
    let mut disk = ends(rt, store, (0, 0, None), "one node");
    for (from, to) in &RANGES {
        for at in *from..*to {
            put(rt, &mut disk, at, &[0xa5]);
        }
    }
    stays(rt, &mut disk, &before, "each other byte");
}

// The length of a device, so many nodes, and why a format of it is refused.
const LIMITS: [(usize, u16, FormatRefused); 5] = [
    (DEVICE_LEN, 0, FormatRefused::BadSize),
    (DEVICE_LEN, 16_385, FormatRefused::BadSize),
    (DEVICE_LEN - 1, 0, FormatRefused::BadSize),
    (DEVICE_LEN - 1, 5, FormatRefused::BadLength),
    (DEVICE_LEN + 1, 5, FormatRefused::BadLength),
];

#[test]
fn refuses_what_is_past_the_limits(rt: HostRuntime) {
    let rt = &rt;
    for (len, nodes, want) in &LIMITS {
        let mut disk = blank(rt, *len);
        same(rt, format(&mut disk, *nodes), Err(*want), "limits");
        shows(rt, &mut disk, 0, "00000000000000000000");
    }
}

const DEVICE: Result<(), FormatRefused> = Err(FormatRefused::Device);

#[test]
fn each_call_of_a_format_fails(rt: HostRuntime) {
    let rt = &rt;
    // no call is left out, and none is made besides
    for call in 1..7u64 {
        let mut disk = blank(rt, DEVICE_LEN);
        disk.fail_at(call);
        let want = if call < 6 { DEVICE } else { Ok(()) };
        same(rt, format(&mut disk, 5), want, "a call fails");
        if call < 6 {
            same(rt, format(&mut disk, 5), Ok(()), "no plan is left");
        }
    }
}

// Formats a device that is left by a crash, and sees a fresh store of seven nodes, which takes a change.
fn formats_again(rt: &impl Host, disk: MemDisk, name: &str) {
    let mut disk = disk;
    same(rt, format(&mut disk, 7), Ok(()), name);
    let store = opened(rt, disk);
    same(rt, shown(&store, 0, 1), (0, 0, None), name);
    same(rt, (store.nodes(), store.resume(0)), (7, 0), name);
    let store = reopened(rt, commits(rt, store, &[(0, 1, &[Op::Add(5, 6, 3)])]));
    same(rt, shown(&store, 5, 6), (1, 1, Some(3)), name);
    let _disk = store.into_disk();
}

// The header, the head of the first checkpoint, its tickets, the two gates, and the sync: a call, and from and to which byte it stops.
const WRITES: [(u64, usize, usize); 9] = [
    (1, 0, 10),
    (2, 0, 24),
    (2, 30, 31),
    (2, 279, 279),
    (2, 527, 527),
    (2, 534, 535),
    (3, 0, 1),
    (4, 0, 1),
    (5, 0, 0),
];

#[test]
fn a_format_stops_inside_each_write(rt: HostRuntime) {
    let rt = &rt;
    for word in &CRASH_WORDS {
        for (call, least, most) in &WRITES {
            for put in *least..=*most {
                let mut disk = blank(rt, DEVICE_LEN);
                disk.stop_at(*call, put);
                same(rt, format(&mut disk, 5), DEVICE, "stopped");
                formats_again(rt, disk.crash(*word), "after a stop");
            }
        }
    }
}

// A device that has rolled, with two records of one size behind each of its checkpoints.
fn rolled_device(rt: &impl Host) -> MemDisk {
    let store = opened(rt, formatted(rt, 5));
    let store = commits(rt, store, &[(0, 1, &[Op::Add(0, 1, 1)])]);
    let mut store = commits(rt, store, &[(0, 2, &[Op::Set(0, 1, 2)])]);
    rolls(rt, &mut store);
    let store = commits(rt, store, &[(0, 3, &[Op::Set(0, 1, 3)])]);
    let store = commits(rt, store, &[(0, 4, &[Op::Set(0, 1, 4)])]);
    ends(rt, store, (4, 1, Some(4)), "rolled")
}

#[test]
fn formats_and_rolls_over_an_older_store(rt: HostRuntime) {
    let rt = &rt;
    let disk = rolled_device(rt);
    formats_again(rt, disk, "over a store");
    // a roll of the new store finds the other slot closed, and what stands there counts for nothing
    let mut disk = rolled_device(rt);
    same(rt, format(&mut disk, 5), Ok(()), "over a store");
    let mut store = opened(rt, disk);
    rolls(rt, &mut store);
    let mut disk = store.into_disk();
    let head = "01 0000000000000002 0000000000000000 0005 00000000 0000000000000000";
    shows(rt, &mut disk, SECOND_SLOT, head);
    let _disk = ends(rt, opened(rt, disk), (0, 0, None), "rolled");
}
