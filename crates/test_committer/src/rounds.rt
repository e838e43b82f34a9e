// Rounds over requests of two sessions: their outcomes, and the bytes of their one record.
use crate::seats::{Left, Seats, armed, got, left, same};
use disk_trait::{MemDisk, Plan};
use graph_edits::{Code, Op};
use intake::Outcome;
use std::alloc::Global;
use std::process::Abort;
use std::sync::Wait;
use test_doubles::has_spelled;

/// What sessions 0 and 1 submit under ticket 1, in this order, and what becomes of it; how many are accepted; what the store has then;
/// and the bytes from the journal's start on.
type Group<'a> = ([&'a [Op]; 2], [Outcome; 2], usize, Left, &'a str);

const FIRST: Outcome = Outcome::Accepted {
    ticket: 1,
    count: 1,
};

const SECOND: Outcome = Outcome::Accepted {
    ticket: 1,
    count: 2,
};

const THERE: Outcome = Outcome::Refused {
    ticket: 1,
    op: 0,
    code: Code::EdgeThere,
};

const GROUPS: [Group<'static>; 2] = [
    (
        [&[Op::Add(0, 1, 1)], &[Op::Add(1, 0, 2)]],
        [FIRST, THERE],
        1,
        (1, 1, 1, [Some(1), None]),
        "01 00000015 0001 00 0000000000000001 01 01 0000 0001 00000001 00",
    ),
    (
        [
            &[Op::Add(0, 1, 7)],
            &[Op::Set(1, 0, 9), Op::Cut(0, 1), Op::Add(3, 2, 5)],
        ],
        [FIRST, SECOND],
        2,
        (2, 1, 1, [None, Some(5)]),
        "01 0000003a 0002 00 0000000000000001 01 01 0000 0001 00000007 01 0000000000000001 03 02 0001 0000 00000009 03 0000 0001 00000000 01 0003 0002 00000005 00",
    ),
];

// The device after a round that takes both requests of a group.
fn settled<R: Wait + Abort + Copy + Drop>(rt: R, alloc: Global, group: &Group<'_>) -> MemDisk {
    let (asked, outcomes, accepted, want, _) = group;
    let mut at = armed(rt, alloc, 64, Plan::None);
    for (session, ops) in [0u8, 1].iter().zip(asked.iter()) {
        at.submits(&rt, *session, 1, ops);
        at.has(&rt, *session, Outcome::Waiting);
    }
    at.settles(&rt, alloc, 2, *accepted);
    for (session, outcome) in [0u8, 1].iter().zip(outcomes.iter()) {
        at.hears(*session);
        at.has(&rt, *session, *outcome);
    }
    same(&rt, left(at.committer.store()), *want, "the store");
    at.into_disk()
}

#[test]
fn settles_two_sessions_as_one_record(rt: HostRuntime) {
    for group in &GROUPS {
        let mut disk = settled(rt, rt.alloc(), group);
        let found = got(&rt, has_spelled(&mut disk, 532_480, group.4));
        same(&rt, found, true, group.4);
    }
}
