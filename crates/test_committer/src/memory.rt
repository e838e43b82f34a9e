// Rounds, and a rebuild, of which an allocation is refused.
use crate::seats::{AT_TWO, Seats, comes_back, fresh, got, rebuild, round, same, seated};
use committer::{RebuildRefused, Round, RoundRefused};
use graph_edits::Op;
use intake::{Outcome, SubmitRefused};
use linked_list_allocator::LocalHeap;
use std::alloc::{AllocError, Global};
use std::process::Abort;
use std::sync::Wait;

const SETTLED: Round = Round {
    taken: 1,
    accepted: 1,
};

// The next change of an editor, behind so many, in one round, or in two where memory is refused: it stays held then, or its mark
// stays due.
fn settles_next<R: Wait + Abort + Drop>(rt: &R, alloc: Global, at: &mut Seats<R>, before: u64) {
    let first = round(rt, alloc, &mut at.committer);
    let (count, accepted) = match first {
        Ok(_) => return same(rt, first, Ok(SETTLED), "the round"),
        Err(RoundRefused::Memory) => (before, 1),
        Err(_) => {
            same(rt, first, Err(RoundRefused::Board), "the round");
            (before.saturating_add(1), 0)
        }
    };
    same(rt, at.committer.store().count(), count, "the count");
    at.settles(rt, alloc, 0, accepted);
}

// Sees the newest generation that a forwarder knows, by its number, or 0 where there is none.
fn latest_is<R: Wait + Abort + Drop>(rt: &R, at: &mut Seats<R>, want: u64) {
    let latest = got(rt, at.one.latest()).unwrap_or(0);
    same(rt, latest, want, "the newest generation");
}

// Its generation, at once or, where memory is refused, the second time. A forwarder sees it then and not before.
fn builds_next<R: Wait + Abort + Drop>(
    rt: &R,
    alloc: Global,
    at: &mut Seats<R>,
    heap: &LocalHeap,
    before: u64,
) {
    let number = before.saturating_add(1);
    latest_is(rt, at, before);
    let first = rebuild(alloc, &mut at.committer, &AT_TWO, heap);
    if first == Err(RebuildRefused::Memory) || first == Err(RebuildRefused::Board) {
        latest_is(rt, at, before);
        at.builds(rt, alloc, heap, number);
    } else {
        same(rt, first, Ok(number), "the rebuild");
    }
    latest_is(rt, at, number);
}

// Five changes, and a generation behind each.
fn settles_then_builds<R: Wait + Abort + Drop>(
    rt: &R,
    alloc: Global,
    at: Seats<R>,
    heap: &LocalHeap,
) {
    let mut at = at;
    for before in 0..5u32 {
        let number = before.saturating_add(1);
        let (ticket, count) = (number as u64, number as u64);
        at.submits_next(rt, number);
        settles_next(rt, alloc, &mut at, before as u64);
        at.hears(0);
        at.has(rt, 0, Outcome::Accepted { ticket, count });
        builds_next(rt, alloc, &mut at, heap, before as u64);
        same(rt, at.committer.store().count(), count, "the count");
    }
    let _disk = at.into_disk();
}

fn settles_and_builds<R: Wait + Abort + Copy + Drop>(
    rt: R,
    alloc: Global,
) -> Result<(), AllocError> {
    let heap = LocalHeap::new(alloc, 1_048_576)?;
    let at = seated(rt, alloc, fresh(&rt, alloc), 64)?;
    settles_then_builds(&rt, alloc, at, &heap);
    Ok(())
}

// Run with each allocation refused in turn too (`./refuse-memory`): what was refused is whole when it is made again.
#[test]
fn settles_and_builds_once_memory_is_there(rt: HostRuntime) {
    if settles_and_builds(rt, rt.alloc()).is_err() {
        got(&rt, settles_and_builds(rt, rt.alloc()));
    }
}

const TWO: [Op; 1] = [Op::Add(1, 2, 1)];

// The one place is taken, and the first editor's change isn't settled.
fn both_come_back<R: Wait + Abort + Drop>(rt: &R, at: &mut Seats<R>) {
    comes_back(rt, &mut at.second, 1, &TWO, SubmitRefused::QueueFull);
    comes_back(rt, &mut at.first, 2, &TWO, SubmitRefused::Busy);
}

// Two editors over one place: the second one's change comes back until the first one's is taken. What comes back is told as it would be
// with memory.
fn settles_both<R: Wait + Abort + Drop>(rt: &R, alloc: Global, at: Seats<R>) {
    let mut at = at;
    let sessions = (at.first.session(), at.second.session());
    same(rt, sessions, (0, 1), "sessions");
    same(rt, at.first.resume(), 0, "the last ticket");
    at.has(rt, 0, Outcome::Nothing);
    at.submits(rt, 0, 1, &[Op::Add(0, 1, 1)]);
    both_come_back(rt, &mut at);
    at.has(rt, 0, Outcome::Waiting);
    settles_next(rt, alloc, &mut at, 0);
    at.submits(rt, 1, 1, &TWO);
    settles_next(rt, alloc, &mut at, 1);
    at.settles(rt, alloc, 0, 0);
    at.hears(0);
    at.hears(1);
    let (ticket, count) = (1, 1);
    at.has(rt, 0, Outcome::Accepted { ticket, count });
    let count = 2;
    at.has(rt, 1, Outcome::Accepted { ticket, count });
    same(rt, at.committer.store().count(), 2, "the count");
    let _disk = at.into_disk();
}

fn settles_two_editors<R: Wait + Abort + Copy + Drop>(
    rt: R,
    alloc: Global,
) -> Result<(), AllocError> {
    let at = seated(rt, alloc, fresh(&rt, alloc), 1)?;
    settles_both(&rt, alloc, at);
    Ok(())
}

// Run with each allocation refused in turn too (`./refuse-memory`): a round that had no memory, made again, settles what it held.
#[test]
fn settles_two_editors_once_memory_is_there(rt: HostRuntime) {
    if settles_two_editors(rt, rt.alloc()).is_err() {
        got(&rt, settles_two_editors(rt, rt.alloc()));
    }
}
