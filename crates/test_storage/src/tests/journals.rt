// Journals on disks in memory: the last byte of their room, and each byte of two records changed to each other.
use super::slow_reader::{Line, records};
use super::*;

// Appends to a journal whose area lies on the disk, where there is room or not.
fn append_to(
    rt: &impl Host,
    journal: &mut Journal<Change>,
    disk: &mut MemDisk,
    group: &[Change],
) -> Result<(), AppendRefused> {
    let area = journal.area();
    let len = disk.len();
    assert!(rt; area.start <= len && area.room <= len - area.start);
    assert!(rt; 1 <= group.len() && group.len() <= MOST_ENTRIES);
    let room = journal.has_room(group);
    let answer = journal.append(rt.alloc(), disk, group);
    same(rt, room, answer != NO_ROOM, "room");
    answer
}

fn scan_of(
    rt: &impl Host,
    disk: &mut MemDisk,
    area: Area,
) -> Result<(Journal<Change>, Vec<Change>), ScanRefused> {
    let len = disk.len();
    assert!(rt; area.room >= 1 && area.start <= len && area.room <= len - area.start);
    Journal::scan(rt.alloc(), disk, area)
}

fn group_of(rt: &impl Host, parts: &[(usize, usize)]) -> Vec<Change> {
    let ops = [Op::Set(0, 1, 1); 16];
    let mut group = Vec::new(rt.alloc());
    for (changes, len) in parts {
        let ops = got(rt, ops.get(..*len).ok_or("at most 16 ops"));
        for _ in 0..*changes {
            got(rt, group.push(got(rt, Change::new(ops))));
        }
    }
    group
}

// An area of the greatest size, alone on its disk.
const WHOLE: Area = Area {
    start: 0,
    room: 1_048_576,
};

const NO_ROOM: Result<(), AppendRefused> = Err(AppendRefused::NoRoom);

// The last group, with its next gate at 1,048,575 and at 1,048,576 of the area; what is answered; and how many changes are there then.
const LAST: [([(usize, usize); 3], Result<(), AppendRefused>, usize); 2] = [
    ([(57, 16), (1, 12), (5, 1)], Ok(()), 7_231),
    ([(57, 16), (1, 11), (6, 1)], NO_ROOM, 7_168),
];

// Behind 112 records of 9,287 bytes and a gate.
#[test]
fn room_on_both_sides_of_the_last_byte(rt: HostRuntime) {
    let rt = &rt;
    let full = group_of(rt, &[(64, 16)]);
    for (last, want, entries) in &LAST {
        let mut disk = blank(rt, 1_048_576);
        let mut journal = Journal::fresh(WHOLE);
        for _ in 0..112 {
            got(rt, append_to(rt, &mut journal, &mut disk, &full));
        }
        same(rt, journal.room_left(), 8_431, "the room left");
        let group = group_of(rt, last);
        let answer = append_to(rt, &mut journal, &mut disk, &group);
        same(rt, answer, *want, "the last group");
        let (_, found) = got(rt, scan_of(rt, &mut disk, WHOLE));
        same(rt, found.len(), *entries, "the changes");
    }
}

// How the slow reader has an op.
fn spelled(op: Op) -> [u64; 4] {
    match op {
        Op::Add(a, b, weight) => [1, a as u64, b as u64, weight as u64],
        Op::Set(a, b, weight) => [2, a as u64, b as u64, weight as u64],
        Op::Cut(a, b) => [3, a as u64, b as u64, 0],
    }
}

// Whether the ops of these changes are the ones that the slow reader has, each in its change.
fn have_ops(entries: &[Change], lines: &[Line]) -> bool {
    let mut rest = lines.iter();
    for entry in entries {
        for (place, op) in entry.ops().iter().enumerate() {
            let want = rest.next().map(|line| (line.first, line.op));
            if want != Some((place == 0, spelled(*op))) {
                return false;
            }
        }
    }
    rest.next().is_none()
}

const AREA: Area = Area { start: 3, room: 66 };

// Whether an area with these bytes is read. The journal and the slow reader must find the same, or that it is damaged.
fn is_read(rt: &impl Host, disk: &mut MemDisk, spoilt: &[u8]) -> bool {
    put(rt, disk, 3, spoilt);
    let plain = records(rt, spoilt, 0);
    match scan_of(rt, disk, AREA) {
        Ok((_, entries)) => {
            let lines = got(rt, plain.ok_or("damaged"));
            same(rt, have_ops(&entries, &lines), true, "the ops");
            true
        }
        Err(refused) => {
            same(rt, refused, ScanRefused::Damaged, "a refusal");
            same(rt, plain.is_none(), true, "read by the slow reader");
            false
        }
    }
}

// A record of one change, one of two changes, which are four ops in all, and a closed gate.
const RECORDS: &str = "01 0000000c 0001 01 01 0000 0001 00000001 \
    01 00000028 0002 01 01 0000 0001 00000007 \
    03 02 0001 0000 00000009 03 0000 0001 00000000 01 0003 0002 00000005 00";

fn written(rt: &impl Host) -> MemDisk {
    let mut disk = blank(rt, 70);
    let mut journal = Journal::fresh(AREA);
    let three = [Op::Set(1, 0, 9), Op::Cut(0, 1), Op::Add(3, 2, 5)];
    let all = [
        got(rt, Change::new(&[Op::Add(0, 1, 1)])),
        got(rt, Change::new(&[Op::Add(0, 1, 7)])),
        got(rt, Change::new(&three)),
    ];
    let (first, second) = all.as_slice().split_at(1);
    for group in [first, second] {
        got(rt, append_to(rt, &mut journal, &mut disk, group));
    }
    disk
}

#[test]
fn each_byte_of_two_records_changed_to_each_other(rt: HostRuntime) {
    let rt = &rt;
    let mut disk = written(rt);
    shows(rt, &mut disk, 3, RECORDS);
    let whole = bytes::<MemDisk, 66>(rt, &mut disk, 3);
    let mut read = 0u32;
    for place in 0..66usize {
        for byte in 0..=255u8 {
            let mut spoilt = whole;
            spoilt[place] = byte;
            read = read.wrapping_add(is_read(rt, &mut disk, &spoilt) as u32);
        }
    }
    // of 66 times 256
    let both = 1_000 < read && read < 15_896;
    same(rt, (read, both), (read, true), "both");
    // A payload spells one group, and a group has one payload.
    spelling_laws::<Change>();
    spelling_laws::<Request>();
    record_law();
}
