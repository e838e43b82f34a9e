// Two lives of the path, a rehearsal and trials, made again where memory was short. Run by `./refuse-memory`, which refuses each allocation
// in turn: the call in which it is refused answers Memory, and the same on a fresh device gives the answers.
use super::*;

const FIRST: [Step; 3] = [Step::Submit(0, 1, &PATH), Step::Take, Step::Commit];

const FIRST_REPLIES: [Reply; 4] = [
    Reply::Rebuilt { generation: 0 },
    Reply::Submitted { ticket: 1 },
    Reply::Taken {
        session: 0,
        ticket: 1,
    },
    Reply::Committed { accepted: 1 },
];

const AGAIN: [Op; 1] = [Op::Set(0, 1, 1)];

// On the path's device, by the landmark 2: what is asked for again is in, and a packet goes from end to end.
const SECOND: [Step; 13] = [
    Step::Submit(0, 1, &PATH),
    Step::Look(0, usize::MAX),
    Step::Submit(0, 2, &AGAIN),
    Step::Submit(0, 3, &AGAIN),
    Step::Submit(1, 1, &AGAIN),
    Step::Launch(0, 4, 0),
    Step::Launch(0, 4, 1),
    Step::Hop,
    Step::Hop,
    Step::Hop,
    Step::Hop,
    Step::Hop,
    Step::Hop,
];

const SECOND_REPLIES: [Reply; 14] = [
    Reply::Rebuilt { generation: 1 },
    Reply::NotSubmitted(SubmitRefused::AlreadyIn),
    Reply::Looked(Outcome::Nothing),
    Reply::Submitted { ticket: 2 },
    Reply::NotSubmitted(SubmitRefused::Busy),
    Reply::NoActor,
    Reply::NotRouted(RouteRefused::GenerationGone),
    Reply::Launched { packet: 0 },
    Reply::Forwarded { port: 0, next: 1 },
    Reply::Forwarded { port: 1, next: 2 },
    Reply::Forwarded { port: 1, next: 3 },
    Reply::Forwarded { port: 1, next: 4 },
    Reply::Delivered,
    Reply::NoActor,
];

// What each life opened to, and what its rebuild and its events are answered.
const ROWS: [(Shown, &[Reply]); 2] = [
    (NOTHING, &FIRST_REPLIES),
    ((1, 4, Some(1), 1), &SECOND_REPLIES),
];

// Whether both lives are answered as the rows say. The first answer that isn't has to be Memory, and a life that couldn't open had no memory.
fn goes_well(rt: &impl Host) -> bool {
    let first: Asked = (&[], &FIRST, Plan::None, 0);
    let asked = lives_in(rt, &[first, (&AT_TWO, &SECOND, Plan::None, 0)]);
    let Ok(report) = lives(rt.alloc(), formatted(rt, 5), &asked) else {
        return false;
    };
    for (place, (opened, replies)) in ROWS.iter().enumerate() {
        let Some(life) = report.lives.get(place) else {
            same(rt, report.refused, Some(OpenRefused::Memory), "an opening");
            return false;
        };
        let found = [life.rebuilt];
        for (found, want) in found.iter().chain(life.replies.iter()).zip(*replies) {
            if found != want {
                same(rt, *found, Reply::Memory, "an answer");
                return false;
            }
        }
        let more = life.replies.len().saturating_add(1);
        same(rt, more, replies.len(), "replies");
        same(rt, shown(&report, place), Some(*opened), "opened to");
    }
    same(rt, report.refused, None, "refused");
    true
}

#[test]
fn two_lives_once_memory_is_there(rt: HostRuntime) {
    let rt = &rt;
    if !goes_well(rt) {
        same(rt, goes_well(rt), true, "made again");
    }
}

const ONE_CHANGE_TOLD: &str = "opened count=0 edges=0 tickets=0
rebuilt generation=0
submitted ticket=1
taken session=0 ticket=1
committed accepted=1
crash taken=1 settled=1 postings=1
opened count=1 edges=1 tickets=1 0:1
";

// What is told; an error where memory ran out.
fn given(rt: &impl Abort, told: Result<String, RehearseRefused>) -> Result<String, AllocError> {
    let no_memory = ["out of memory", "not opened memory", "not committed memory"];
    match told {
        Ok(told) if told.lines().any(|line| no_memory.contains(&line)) => Err(AllocError),
        Ok(told) => Ok(told),
        Err(refused) => {
            same(rt, refused, RehearseRefused::Memory, "refused");
            Err(AllocError)
        }
    }
}

// A rehearsal, and the first two of its stops: all calls are noted, stops listed, and kinds counted.
#[test]
fn rehearsals_once_memory_is_there(rt: HostRuntime) {
    let (rt, alloc) = (&rt, rt.alloc());
    let told = again(rt, || given(rt, rehearse(alloc, &asked_in(rt, ONE_CHANGE))));
    same(rt, told.as_str(), ONE_CHANGE_TOLD, "a rehearsal");
    let told = again(rt, || {
        let mut rehearsal = asked_in(rt, ONE_CHANGE);
        let told = try_every_stop(alloc, &mut rehearsal, 2, |_: usize| {});
        given(rt, told)
    });
    let want = "stops=2 of=31\nfound=0 acknowledged=0 opened=0 stops=2\n";
    same(rt, told.as_str(), want, "trials");
}
