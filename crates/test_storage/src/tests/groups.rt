// Groups that a desk settles: their marks, bytes and tickets. One of which none is accepted is in conformance/events.txt.
use super::*;

fn accepted(session: u8, ticket: u64, count: u64) -> Mark {
    Mark {
        session,
        ticket,
        verdict: Verdict::Accepted { count },
    }
}

fn refused(session: u8, ticket: u64, op: usize, code: Code) -> Mark {
    Mark {
        session,
        ticket,
        verdict: Verdict::Refused { op, code },
    }
}

// Gives a group and commits it: so many are accepted, these are the marks, and nothing is held. They are told then.
fn settle(rt: &impl Host, desk: &mut Desk<MemDisk>, asked: &[Asked], number: usize, want: &[Mark]) {
    give_all(rt, desk, asked);
    let answer = commit(rt, desk);
    same(rt, (answer, desk.held()), (Ok(number), 0), "settled");
    match desk.due() {
        Some(Posting::Marks(marks)) => same(rt, marks.as_slice(), want, "the marks"),
        _ => panic!(rt; "no marks are due"),
    }
    same(rt, desk.paid().is_some(), true, "told");
    same(rt, desk.due().is_none(), true, "nothing is due");
}

// The store of a desk that has settled its first group has this count and this weight of 0-1, and its journal these bytes.
fn is_written(rt: &impl Abort, desk: Desk<MemDisk>, want: (u64, Option<u32>), bytes: &str) {
    let found = (desk.store().count(), desk.store().graph().weight(0, 1));
    same(rt, found, want, "the store");
    shows(rt, &mut desk.into_store().into_disk(), FIRST_AREA, bytes);
}

#[test]
fn commits_a_group_as_one_record(rt: HostRuntime) {
    let rt = &rt;
    // The second of two sessions is refused.
    let mut desk = desk_on(rt, formatted(rt, 5));
    let asked: [Asked; 2] = [(0, 1, &[Op::Add(0, 1, 1)]), (1, 1, &[Op::Add(1, 0, 2)])];
    let marks = [accepted(0, 1, 1), refused(1, 1, 0, Code::EdgeThere)];
    settle(rt, &mut desk, &asked, 1, &marks);
    let bytes = "01 00000015 0001 00 0000000000000001 01 01 0000 0001 00000001 00";
    is_written(rt, desk, (1, Some(1)), bytes);
    // Both are accepted, with four ops.
    let mut desk = desk_on(rt, formatted(rt, 5));
    let three = [Op::Set(1, 0, 9), Op::Cut(0, 1), Op::Add(3, 2, 5)];
    let asked: [Asked; 2] = [(1, 1, &[Op::Add(0, 1, 7)]), (63, 258, &three)];
    settle(
        rt,
        &mut desk,
        &asked,
        2,
        &[accepted(1, 1, 1), accepted(63, 258, 2)],
    );
    let bytes =
        "01 0000003a 0002 01 0000000000000001 01 01 0000 0001 00000007 3f 0000000000000102 03 02 0001 0000 00000009 03 0000 0001 00000000 01 0003 0002 00000005 00";
    is_written(rt, desk, (2, None), bytes);
}

#[test]
fn marks_stand_in_the_order_of_the_requests(rt: HostRuntime) {
    let rt = &rt;
    let mut desk = desk_on(rt, formatted(rt, 5));
    let asked: [Asked; 6] = [
        (7, 3, &[Op::Add(2, 1, 4)]),
        (0, 9, &[Op::Add(0, 5, 1)]),
        (63, 1, &[Op::Set(1, 2, 6), Op::Add(3, 3, 1)]),
        (7, 4, &[Op::Set(1, 2, 1_000_000)]),
        (1, 2, &[Op::Add(0, 1, 0)]),
        (0, 10, &[Op::Cut(1, 2)]),
    ];
    let want = [
        accepted(7, 3, 1),
        refused(0, 9, 0, Code::NoNode),
        refused(63, 1, 1, Code::Loop),
        accepted(7, 4, 2),
        refused(1, 2, 0, Code::BadWeight),
        accepted(0, 10, 3),
    ];
    settle(rt, &mut desk, &asked, 3, &want);
    // The next group's counts go on from these.
    let next: [Asked; 1] = [(2, 1, &[Op::Add(4, 3, 2)])];
    settle(rt, &mut desk, &next, 1, &[accepted(2, 1, 4)]);
}

// Session and ticket of a request, and whether the desk may take it.
const NEXT: [(u8, u64, bool); 10] = [
    (0, 5, false),
    (0, 6, true),
    (0, WORN_LIMIT, true),
    (0, WORN_LIMIT + 1, false),
    (1, 0, false),
    (1, 1, true),
    (63, 2, false),
    (63, 3, true),
    (64, 1, false),
    (255, 1, false),
];

#[test]
fn takes_only_what_is_next(rt: HostRuntime) {
    let rt = &rt;
    let mut desk = desk_on(rt, formatted(rt, 5));
    // A ticket that is refused doesn't stand in the store, nor does one that is held.
    let asked: [Asked; 2] = [(0, 5, &[Op::Add(0, 1, 1)]), (1, 7, &[Op::Cut(2, 3)])];
    let want = [accepted(0, 5, 1), refused(1, 7, 0, Code::NoEdge)];
    settle(rt, &mut desk, &asked, 1, &want);
    give(rt, &mut desk, (63, 2, &[Op::Cut(0, 1)]));
    let last = [desk.resume(0), desk.resume(1), desk.resume(63)];
    let starts = desk.starts();
    let starts = [starts[0], starts[1], starts[63]];
    same(rt, [last, starts], [[5, 0, 0]; 2], "last tickets");
    for (session, ticket, want) in &NEXT {
        let may = desk.is_next(&request(rt, (*session, *ticket, &[Op::Cut(0, 1)])));
        let found = (*session, *ticket, may);
        same(rt, found, (*session, *ticket, *want), "next");
    }
    let store = reopened(rt, desk.into_store());
    let last = [store.resume(0), store.resume(1), store.resume(63)];
    same(rt, last, [5, 0, 0], "opened");
}

#[test]
fn commits_as_many_as_it_holds(rt: HostRuntime) {
    let rt = &rt;
    let mut desk = desk_on(rt, formatted(rt, 5));
    give(rt, &mut desk, (0, 1, &[Op::Add(0, 1, 1)]));
    let mut want = [accepted(0, 1, 1); 64];
    for session in 1..64u8 {
        let ops = [Op::Set(1, 0, session as u32)];
        give(rt, &mut desk, (session, 1, &ops));
        want[session as usize] = accepted(session, 1, session as u64 + 1);
    }
    same(rt, desk.held(), MOST_HELD, "held");
    settle(rt, &mut desk, &[], 64, &want);
    let store = reopened(rt, desk.into_store());
    let _disk = ends(rt, store, (64, 1, Some(63)), "opened");
}
