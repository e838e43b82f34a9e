// The way of one change and of one packet, worked out by hand.
use super::*;

const STEPS: [Step; 16] = [
    Step::Submit(0, 1, &PATH),
    Step::Submit(0, 1, &PATH),
    Step::Take,
    Step::Commit,
    Step::Look(0, 9),
    Step::Post,
    Step::Look(0, 1),
    Step::Rebuild,
    Step::Launch(0, 4, 0),
    Step::Launch(0, 4, 2),
    Step::Hop,
    Step::Hop,
    Step::Hop,
    Step::Hop,
    Step::Hop,
    Step::Hop,
];

fn replies() -> [Reply; 16] {
    let (ticket, count) = (1, 1);
    [
        Reply::Submitted { ticket },
        Reply::NotSubmitted(SubmitRefused::Busy),
        Reply::Taken { session: 0, ticket },
        Reply::Committed { accepted: 1 },
        Reply::Looked(Outcome::Waiting),
        Reply::Posted,
        Reply::Looked(Outcome::Accepted { ticket, count }),
        Reply::Rebuilt { generation: 1 },
        Reply::NotRouted(RouteRefused::GenerationGone),
        Reply::Launched { packet: 0 },
        Reply::Forwarded { port: 0, next: 1 },
        Reply::Forwarded { port: 1, next: 2 },
        Reply::Forwarded { port: 1, next: 3 },
        Reply::Forwarded { port: 1, next: 4 },
        Reply::Delivered,
        Reply::NoActor,
    ]
}

// Each event alone. It is made for runs in which one allocation is refused.
#[test]
fn answers_one_by_one(rt: HostRuntime) {
    let rt = &rt;
    let events = events_of(rt, &STEPS);
    let mut world = world_of(rt, 5, 0, (1, 1));
    for (place, (event, want)) in events.chunks(1).zip(replies()).enumerate() {
        let reply = answer(rt, &mut world, event);
        same(rt, (place, reply), (place, want), "an event");
    }
    // what is stored in the end
    let (stored, desk) = world.into_parts();
    assert!(rt; stored.asked.len() == 1 && stored.postings.len() == 2 && stored.ways.len() == 1);
    let store = desk.store();
    assert!(rt; store.count() == 1 && store.graph().edges() == 4 && store.resume(0) == 1);
}

// All at once, and in two lists, cut at every place: each is answered as it is alone.
#[test]
fn answers_in_pieces(rt: HostRuntime) {
    let rt = &rt;
    let events = events_of(rt, &STEPS);
    same(rt, events.len(), replies().len(), "events");
    for cut in 0..=events.len() {
        let (first, second) = events.as_slice().split_at(cut);
        let mut world = world_of(rt, 5, 0, (1, 1));
        let front = got(rt, world.run(rt.alloc(), first));
        let back = got(rt, world.run(rt.alloc(), second));
        let found = (front.len(), back.len());
        same(rt, found, (first.len(), second.len()), "replies");
        for (reply, want) in front.iter().chain(back.iter()).zip(replies()) {
            same(rt, (cut, *reply), (cut, want), "a reply");
        }
    }
}
