// The last change that the count has room for; calls that give the disk back, so that more lives go on where these ended; openings that
// fail; and a life that fills its journal, and rolls. Other rows are in conformance/events.txt, and what a crash leaves of each call of a
// roll is in test_storage.
use super::*;

// The last change that the count has room for, one that is refused and needs none, and one more, which is committed in vain; and what
// becomes of each commit, of what is to be posted, and of the change.
#[test]
fn wears_out_at_the_last_count(rt: HostRuntime) {
    let rt = &rt;
    let mut world = world_of(rt, 5, WORN_LIMIT - 1, (1, 1));
    let (ticket, count, op, code) = (2, WORN_LIMIT, 0, Code::NoEdge);
    let accepted = Outcome::Accepted { ticket: 1, count };
    let refused = Outcome::Refused { ticket, op, code };
    let worn = Reply::NotCommitted(DeskRefused::Worn);
    let rows = [
        (Op::Add(0, 1, 1), Reply::Committed { accepted: 1 }, accepted),
        (Op::Cut(2, 3), Reply::Committed { accepted: 0 }, refused),
        (Op::Add(1, 2, 1), worn, Outcome::Waiting),
    ];
    for (ticket, (op, committed, outcome)) in (1..4u64).zip(rows) {
        let is_worn = committed == worn;
        let steps = [
            (Step::Submit(0, ticket, &[op]), Reply::Submitted { ticket }),
            (Step::Take, Reply::Taken { session: 0, ticket }),
            (Step::Commit, committed),
            (
                Step::Post,
                if is_worn { Reply::Idle } else { Reply::Posted },
            ),
            (Step::Look(0, 9), Reply::Looked(outcome)),
        ];
        for (step, want) in steps {
            let reply = answer(rt, &mut world, &events_of(rt, &[step]));
            same(rt, (ticket, reply), (ticket, want), "a reply");
        }
    }
    same(rt, answer(rt, &mut world, &[Event::Commit]), worn, "again");
    let (stored, desk) = world.into_parts();
    let store = desk.store();
    let found = (store.count(), store.resume(0), stored.postings.len());
    same(rt, found, (WORN_LIMIT, 1, 2), "the store");
}

// What a device opens to that has the edge.
const WITH: Shown = (1, 1, Some(1), 1);

#[test]
fn goes_on_where_a_call_ended(rt: HostRuntime) {
    let rt = &rt;
    let asked = lives_in(rt, &[(&[], &ADDS, Plan::None, 0)]);
    let (report, disk) = lives_on(rt.alloc(), formatted(rt, 5), &asked);
    same(rt, got(rt, report).lives.len(), 1, "the first call");
    opens_to(rt, disk, WITH);
    // the third call of the commit puts the gate, and no sync settles it
    for (word, want) in [(256, NOTHING), (257, WITH)] {
        let asked = lives_in(rt, &[(&[], &ADDS, Plan::Fail(3), word)]);
        let (report, disk) = lives_in_memory(rt.alloc(), formatted(rt, 5), &asked);
        same(rt, got(rt, report).refused, None, "refused");
        opens_to(rt, disk, want);
    }
}

// Lives on a device that can't be opened: why not, and that there are none. The disk comes back.
fn refused(rt: &impl Host, disk: MemDisk, want: OpenRefused) -> MemDisk {
    let asked = lives_in(rt, &[OPENING, OPENING]);
    let (report, disk) = lives_on(rt.alloc(), disk, &asked);
    let report = got(rt, report);
    let found = (report.refused, report.lives.len());
    same(rt, found, (Some(want), 0), "refused");
    disk
}

// Devices that are no store, and each call of the device failing in an opening.
#[test]
fn each_call_of_an_opening_fails(rt: HostRuntime) {
    let rt = &rt;
    for len in [9, DEVICE_LEN] {
        let disk = got(rt, test_doubles::blank(rt.alloc(), len));
        let _disk = refused(rt, disk, OpenRefused::NotFormatted);
    }
    // a sync, the header, two heads, the tickets, the edges, and the records
    for call in 1..8u64 {
        let mut disk = formatted(rt, 5);
        disk.fail_at(call);
        opens_to(rt, refused(rt, disk, OpenRefused::Device), NOTHING);
    }
}

// Events by which 64 sessions ask under these tickets for sixteen ops each, one group after another.
fn fill(rt: &impl Host, first: u64, last: u64) -> Vec<Event> {
    let ops = [Op::Set(0, 1, 1); 16];
    let mut events = Vec::new(rt.alloc());
    for ticket in first..last.saturating_add(1) {
        for session in 0..64u8 {
            let change = got(rt, Change::new(&ops));
            got(
                rt,
                events.push(Event::Submit {
                    session,
                    ticket,
                    change,
                }),
            );
        }
        for _ in 0..64u8 {
            got(rt, events.push(Event::Take));
        }
        got(rt, events.push(Event::Commit));
        got(rt, events.push(Event::Post));
        for session in 0..64u8 {
            let at = usize::MAX;
            got(rt, events.push(Event::Look { session, at }));
        }
    }
    events
}

// Of 106 commits with four calls each, a roll with four and a commit with four, the last call is the 432nd.
const FILLS: [(u64, usize, Shown); 2] = [
    (432, 106, (6785, 1, Some(1), 107)),
    (433, 107, (6849, 1, Some(1), 108)),
];

// A life of 107 groups, behind one change: 106 of them fill the journal, and the last one needs a roll.
#[test]
fn a_life_fills_its_journal_and_rolls(rt: HostRuntime) {
    let rt = &rt;
    for (call, committed, want) in FILLS {
        let mut asked = lives_in(rt, &[(&[], &ADDS, Plan::None, 0)]);
        let filled = Life {
            sessions: 64,
            capacity: 64,
            words: Vec::new(rt.alloc()),
            events: fill(rt, 2, 108),
            plan: Plan::Fail(call),
            word: 0,
        };
        got(rt, asked.push(filled));
        got(rt, asked.extend(lives_in(rt, &[OPENING])));
        let report = lived(rt, formatted(rt, 5), &asked);
        let whole = Reply::Committed { accepted: 64 };
        let life = got(rt, report.lives.get(1).ok_or("no life"));
        let groups = life.replies.iter().filter(|reply| **reply == whole);
        same(rt, groups.count(), committed, "groups of 64");
        same(rt, shown(&report, 2), Some(want), "the next life");
    }
}
