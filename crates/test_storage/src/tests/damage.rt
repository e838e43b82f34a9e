// A device that has rolled, each byte of which is changed, judged by the slow reader.
use super::slow_reader::{State, read};
use super::*;

const BEFORE: [Asked; 3] = [
    (0, 1, &[Op::Add(0, 1, 1)]),
    (1, 258, &[Op::Add(1, 2, 300)]),
    (63, 2, &[Op::Add(3, 5, 70_000)]),
];

const FIRST_SINCE: [Asked; 3] = [
    (0, 2, &[Op::Set(1, 0, 2)]),
    (1, 300, &[Op::Cut(2, 1)]),
    (2, 1, &[Op::Add(4, 2, 9)]),
];

const SECOND_SINCE: [Asked; 2] = [
    (0, 5, &[Op::Set(0, 1, 1_000_000)]),
    (63, 3, &[Op::Add(1, 2, 1)]),
];

// A device for six nodes: a group of three requests, a roll, and groups of three and two.
fn rolled(rt: &impl Host) -> MemDisk {
    let mut store = commits(rt, opened(rt, formatted(rt, 6)), &BEFORE);
    rolls(rt, &mut store);
    let store = commits(rt, store, &FIRST_SINCE);
    commits(rt, store, &SECOND_SINCE).into_disk()
}

// Opens a device that holds these bytes, and sees that it is answered as by the slow reader; whether it opens.
fn is_sound(rt: &impl Host, disk: MemDisk, bytes: &[u8]) -> (bool, MemDisk) {
    let want = read(rt, bytes);
    match Store::open(rt.alloc(), disk) {
        Ok(store) => {
            agrees(rt, &store, &got(rt, want));
            (true, store.into_disk())
        }
        Err((refused, disk)) => {
            same(rt, Some(refused), want.err(), "refused");
            (false, disk)
        }
    }
}

fn agrees(rt: &impl Abort, store: &Store<MemDisk>, state: &State) {
    let found = (store.count(), store.graph().edges());
    same(rt, found, (state.count, state.edges.len()), "the store");
    same(rt, store.starts(), state.tickets, "tickets");
    for (a, b, weight) in &state.edges {
        let (a, b) = (got(rt, u16::try_from(*a)), got(rt, u16::try_from(*b)));
        let found = store.graph().weight(a, b).map(|weight| weight as u64);
        same(rt, found, Some(*weight), "an edge");
    }
}

// Puts a byte on a device and in its bytes.
fn changes(rt: &impl Abort, disk: MemDisk, bytes: &mut [u8], at: usize, byte: u8) -> MemDisk {
    if let Some(place) = bytes.get_mut(at) {
        *place = byte;
    }
    spoilt(rt, disk, at, byte)
}

// The header; the two heads, one with tickets and three edges; the front of the first journal; and of the second, 109 bytes and more.
const RANGES: [(usize, usize); 5] = [
    (0, 12),
    (4096, 4120),
    (532_480, 532_486),
    (1_581_056, 1_581_616),
    (2_109_440, 2_109_560),
];

#[test]
fn each_byte_is_read_as_the_slow_reader_does(rt: HostRuntime) {
    let rt = &rt;
    let mut disk = rolled(rt);
    let mut bytes = whole(rt, &mut disk);
    // as it is: eight requests, and the edges 0-1, 1-2, 2-4 and 3-5
    let state = got(rt, read(rt, &bytes));
    let tickets = [0, 1, 2, 3, 63].map(|session: usize| state.tickets.get(session).copied());
    let want = [Some(5), Some(300), Some(1), Some(0), Some(3)];
    same(rt, tickets, want, "as it is");
    let edges = [(0, 1, 1_000_000), (1, 2, 1), (2, 4, 9), (3, 5, 70_000)];
    let found = edges.map(|edge| state.edges.contains(&edge));
    same(rt, found, [true; 4], "as it is");
    same(rt, (state.count, state.edges.len()), (8, 4), "as it is");
    let (mut sound, mut damaged) = (false, false);
    for (from, to) in &RANGES {
        for at in *from..*to {
            let old = bytes.get(at).copied().unwrap_or(0);
            for byte in [0, 1, 2, 127, 255, old.wrapping_add(1)] {
                disk = changes(rt, disk, &mut bytes, at, byte);
                let (opens, back) = is_sound(rt, disk, &bytes);
                disk = back;
                sound = sound || opens;
                damaged = damaged || !opens;
            }
            disk = changes(rt, disk, &mut bytes, at, old);
        }
    }
    same(rt, (sound, damaged), (true, true), "some of each");
}
